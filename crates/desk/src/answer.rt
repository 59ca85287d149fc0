// The numbers that the desk answers.

ghost use Rattle.std.specs.Prelude.{◌≡◌, ◌+◌, ◌<◌, length};
ghost use Rattle.desk.specs.Desk.{verdict_number, text_number, refusal_base, desk_answer, desk_next, desk_row, desk_fault, desk_canonical, desk_text};

use canonical::fault::write_number;
use canonical::write::write_model;
use fields::fault::cue_number;
use judge::fault::{NextFault, TextFault, judge_number};
use judge::first_fault::search_children;
use judge::next::next_children;
use judge::reply::judge_children;
use model::fault::model_number;
use model::verdict::Verdict;

// Added to a refusal's number where the answer is else a length or a place.
const REFUSED: u32 = 2147483648;

// No place is as large.
const NO_FAULT: u32 = 65535;

fn verdict_number(verdict: Verdict) -> u32
    ensures { result ≡ verdict_number verdict }
{
    match verdict {
        Verdict::Complete => 0,
        Verdict::Open => 1,
        Verdict::Dead => 2,
    }
}

pub(crate) fn text_number(fault: TextFault) -> u32
    ensures { result ≡ text_number fault }
{
    match fault {
        TextFault::Model(f) => model_number(f),
        TextFault::Children(f) => cue_number(f),
    }
}

fn refused(number: u32) -> u32
    requires { number < refusal_base }
    ensures { result ≡ refusal_base + number }
{
    REFUSED + number
}

// 0 complete, 1 open, 2 dead; or the refusal of the model text, 10 to 19, then of the children text, 30, 35, 36.
pub fn desk_judge(model: &[u8], children: &[u8]) -> u32
    ensures { result ≡ desk_answer model.now children.now }
{
    match judge_children(model, children) {
        Ok(verdict) => verdict_number(verdict),
        Err(fault) => text_number(fault),
    }
}

// Writes the numbers of the names that may come next behind the children into the lent row and hands back how many they are. Or, with 2,147,483,648
// added, the refusal of the model text, 10 to 19, then of the children text, 30, 35, 36, then 46: the lent row is shorter than the list. A refusal
// changes no place of the row.
pub fn desk_next(model: &[u8], children: &[u8], row: &mut [u16]) -> u32
    ensures value { result ≡ desk_next model.now children.now (length row.old) }
    ensures row_after { row.new ≡ desk_row model.now children.now row.old }
{
    match next_children(model, children, row) {
        Ok(count) => count as u32,
        Err(NextFault::Text(fault)) => refused(text_number(fault)),
        Err(NextFault::Row(fault)) => refused(judge_number(fault)),
    }
}

// The place, from 0, of the first child that is foreign or one too many of its name; 65,535 where there is none. Or, with 2,147,483,648 added, the
// refusal of the model text, 10 to 19, then of the children text, 30, 35, 36.
pub fn desk_first_fault(model: &[u8], children: &[u8]) -> u32
    ensures { result ≡ desk_fault model.now children.now }
{
    match search_children(model, children) {
        Ok(Some(place)) => place as u32,
        Ok(None) => NO_FAULT,
        Err(fault) => refused(text_number(fault)),
    }
}

// Writes the model's one text into the lent buffer and hands back its length. Or, with 2,147,483,648 added, the refusal of the model text, 10 to 19,
// then 51: the text is longer than the buffer. Bytes behind the text, and all of them on a refusal, stay as they were.
pub fn desk_canonical(model: &[u8], buffer: &mut [u8]) -> u32
    ensures value { result ≡ desk_canonical model.now (length buffer.old) }
    ensures buffer_after { buffer.new ≡ desk_text model.now buffer.old }
{
    match write_model(model, buffer) {
        Ok(length) => length as u32,
        Err(unwritten) => refused(write_number(unwritten.fault)),
    }
}
