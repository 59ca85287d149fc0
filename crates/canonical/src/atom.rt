// The atoms of a model text: as they stand, and as they are written.

ghost use Rattle.std.specs.Prelude.{◌≡◌, ◌+◌, ◌≤◌, length};
ghost use Rattle.fields.specs.Put.{Put};
ghost use Rattle.canonical.specs.Writer.Place.{behind_name, kept_end, piece_at};

use crate::names::{count_end, name_end};
use fields::put::put;

// Where what is kept of the atom at `at` ends, whose name ends at `name`: `[1..1]` is left out, and `[0..1]`, which are six bytes.
pub(crate) fn kept_end(text: &[u8], at: usize, name: usize) -> usize
    requires { (at ≤ length text.now) × (name ≡ behind_name text.now at) }
    ensures { result ≡ kept_end text.now at }
{
    let end = count_end(text, name);
    if end == name + 6 && text[name + 1] <= b'1' && text[name + 4] == b'1' {
        return name;
    }
    end
}

// Writes the atom at `at`; a lower count of 0 is written as 1.
pub(crate) fn put_atom(text: &[u8], buffer: &mut [u8], at: usize, to: usize) -> usize
    requires { (at ≤ length text.now) × (to + length (piece_at text.now at) ≤ length buffer.old) }
    ensures { Put buffer.old buffer.new to (piece_at text.now at) result }
{
    let name = name_end(text, at);
    let end = kept_end(text, at, name);
    let next = put(buffer, to, &text[at..end]);
    if name + 1 < end && text[name + 1] == b'0' {
        buffer[to + (name + 1 - at)] = b'1';
    }
    next
}
