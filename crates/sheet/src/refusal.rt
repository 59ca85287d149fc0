// The one line that is printed on a refusal.

ghost use mathlib.Core.{Path.◌≡◌, List.◌++◌};
ghost use Rattle.std.specs.Prelude.{◌≤◌, length, drop};
ghost use Rattle.fields.specs.Put.{Put};
ghost use Rattle.sheet.specs.RefusalLine.{refusal_head, refusal_line};

use fields::put::{put, put_number};

// Enough for every line: 16 bytes up to the number, 10 digits, a tab, 20 digits, a line feed.
pub const REFUSAL_SIZE: usize = 48;

// The number of what is longer than the buffer that it is to be written into.
pub const TOO_LONG: u32 = 50;

// What is refused.
#[derive(Clone, Copy)]
pub enum Source {
    Sheet,
    Cues,
    Listing,
}

// What is refused, document 01's number, and the line from 1, or 0 where there is none.
#[derive(Clone, Copy)]
pub struct Refusal {
    pub source: Source,
    pub number: u32,
    pub line: usize,
}

// The line up to the number.
fn head(source: Source) -> &'static [u8]
    ensures { result.now ≡ refusal_head source }
{
    match source {
        Source::Sheet => b"refused\tsheet\t",
        Source::Cues => b"refused\tcues\t",
        Source::Listing => b"refused\tlisting\t",
    }
}

fn put_refusal(buffer: &mut [u8], refusal: Refusal) -> usize
    requires { 48 ≤ length buffer.old }
    ensures { Put buffer.old buffer.new 0 (refusal_line refusal.source refusal.number refusal.line) result }
{
    let a = put(buffer, 0, head(refusal.source));
    let b = put_number(buffer, a, refusal.number as usize);
    let c = put(buffer, b, b"\t");
    let d = put_number(buffer, c, refusal.line);
    put(buffer, d, b"\n")
}

// Writes the line of a refusal, and gives its length. Bytes behind it are not touched.
pub fn refusal_line(refusal: Refusal, buffer: &mut [u8; REFUSAL_SIZE]) -> usize
    ensures value { (result ≡ length (refusal_line refusal.source refusal.number refusal.line)) × (result ≤ length buffer.new) }
    ensures buffer_after { buffer.new ≡ refusal_line refusal.source refusal.number refusal.line ++ drop result buffer.old }
{
    put_refusal(buffer, refusal)
}
