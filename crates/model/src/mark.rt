// Marks by their bytes and by numbers.

ghost use Rattle.std.specs.Prelude.{◌≡◌};
ghost use Rattle.model.specs.{Tree.is_plain, Mark.mark_of, Mark.mark_at, Mark.mark_number, Mark.mark_numbered};

use crate::rule::Mark;

// A number of 40 bits has its mark above them.
pub const MARK_PLACE: u64 = 1 << 40;

pub fn is_plain(mark: Mark) -> bool
    ensures { result ≡ is_plain mark }
{
    mark == Mark::Plain
}

// The mark that a byte writes; `Plain` if it writes none.
fn mark_of(byte: u8) -> Mark
    ensures { result ≡ mark_of byte }
{
    match byte {
        b'?' => Mark::Optional,
        b'!' => Mark::Nonempty,
        _ => Mark::Plain,
    }
}

// The mark that stands at a place of a text.
pub fn mark_at(text: &[u8], at: usize) -> Mark
    ensures { result ≡ mark_at text.now at }
{
    text.get(at).map_or(Mark::Plain, |byte| mark_of(*byte))
}

pub fn mark_number(mark: Mark) -> u64
    ensures { result ≡ mark_number mark }
{
    match mark {
        Mark::Plain => 0,
        Mark::Optional => 1,
        Mark::Nonempty => 2,
    }
}

pub fn numbered_mark(number: u64) -> Mark
    ensures { result ≡ mark_numbered number }
{
    match number {
        0 => Mark::Plain,
        1 => Mark::Optional,
        _ => Mark::Nonempty,
    }
}
