// The desk for C, which include/desk.h declares: each export calls the function of its name in desk.
#![tactic(auto)]

ghost use Rattle.std.specs.Prelude.{◌≡◌, length};
ghost use Rattle.desk.specs.Desk.{desk_answer, desk_next, desk_row, desk_fault, desk_canonical, desk_text};

use desk::answer;

// 0 complete, 1 open, 2 dead; or the refusal of the model text, 10 to 19, then of the children text, 30, 35, 36.
#[unsafe(no_mangle)]
pub extern "C" fn desk_judge(model: &[u8], children: &[u8]) -> u32
    ensures { result ≡ desk_answer model.now children.now }
{
    answer::desk_judge(model, children)
}

// Writes the numbers of the names that may come next behind the children into the lent row and hands back how many they are. Or, with 2,147,483,648
// added, the refusal of the model text, 10 to 19, then of the children text, 30, 35, 36, then 46: the lent row is shorter than the list. A refusal
// changes no place of the row.
#[unsafe(no_mangle)]
pub extern "C" fn desk_next(model: &[u8], children: &[u8], row: &mut [u16]) -> u32
    ensures value { result ≡ desk_next model.now children.now (length row.old) }
    ensures row_after { row.new ≡ desk_row model.now children.now row.old }
{
    answer::desk_next(model, children, row)
}

// The place, from 0, of the first child that is foreign or one too many of its name; 65,535 where there is none. Or, with 2,147,483,648 added, the
// refusal of the model text, 10 to 19, then of the children text, 30, 35, 36.
#[unsafe(no_mangle)]
pub extern "C" fn desk_first_fault(model: &[u8], children: &[u8]) -> u32
    ensures { result ≡ desk_fault model.now children.now }
{
    answer::desk_first_fault(model, children)
}

// Writes the model's one text into the lent buffer and hands back its length. Or, with 2,147,483,648 added, the refusal of the model text, 10 to 19,
// then 51: the text is longer than the buffer. Bytes behind the text, and all of them on a refusal, stay as they were.
#[unsafe(no_mangle)]
pub extern "C" fn desk_canonical(model: &[u8], buffer: &mut [u8]) -> u32
    ensures value { result ≡ desk_canonical model.now (length buffer.old) }
    ensures buffer_after { buffer.new ≡ desk_text model.now buffer.old }
{
    answer::desk_canonical(model, buffer)
}
