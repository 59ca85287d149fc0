// What is seen of each name in a row, and whether it is too much: the first pass over the row.

ghost use mathlib.Core.{Path.◌≡◌, Bool.true, Bool.cond, List.[], List.List};
ghost use lib.{Dec.ltb, Dec.eqb, ListN.length};
ghost use Rattle.std.specs.Prelude.{◌*◌, ◌≤◌};
ghost use Rattle.fields.specs.Limits.{max_atoms, max_row};
ghost use Rattle.model.specs.declared.rule.Upper.{Upper};
ghost use Rattle.judge.specs.{Packed.seen_in, Packed.SameNodes, Row.upto};
ghost use Rattle.judge.specs.Row.Tally.{one_left, limit_number, limit_word, limited_word, seen_of, noted_word, Seeing, RowTallied};

use crate::packed::WORDS;
use model::rule::{Kind, MAX_NODES, Upper};

// How often a name stands in the row, its first place or the row's length, and one past its last place or 0.
#[derive(Clone, Copy)]
pub(crate) struct Seen {
    pub(crate) count: u16,
    pub(crate) first: u16,
    pub(crate) behind: u16,
}

// What is seen of a name stands behind the nodes as one number, of four times 16 bits: how many further children may have the name, how many have it,
// the first place, and one past the last. A name that was not seen stands behind no place.
const LEFT: u64 = 1 << 48;

const COUNT: u64 = 1 << 32;

const FIRST: u64 = 1 << 16;

// The largest number stands for no upper end: no row has as many children.
fn limit_of(max: Upper) -> u16
    ensures { result ≡ limit_number max }
{
    match max {
        Upper::Number(n) => n,
        Upper::Unbounded => u16::MAX,
    }
}

// What stands for a name before any child is seen: so many may have it.
pub(crate) fn limit_word(max: Upper) -> u64
    ensures { result ≡ limit_word max }
{
    u64::from(limit_of(max)) * LEFT
}

// What stands for the last name so far, with one node more: the upper count of the node's own name, or, where it is a group, what stood there.
pub(crate) fn limited(kind: Kind, word: u64) -> u64
    ensures { result ≡ limited_word kind word }
{
    match kind {
        Kind::Atom { max, .. } => limit_word(max),
        Kind::Group { .. } => word,
    }
}

// May no further child have the name? For a foreign one, that is so from the start.
pub(crate) fn is_full(word: u64) -> bool
    ensures { result ≡ ltb word one_left }
{
    word < LEFT
}

// Of a row of so many children.
#[tactic(auto, unfolding(crate::specs::Row::Tally::seen_of))]
pub(crate) fn seen_of(word: u64, length: u16) -> Seen
    ensures { result ≡ seen_of length word }
{
    let behind = (word % 65536) as u16;
    Seen {
        count: (word / COUNT % 65536) as u16,
        first: if behind == 0 {
            length
        } else {
            (word / FIRST % 65536) as u16
        },
        behind,
    }
}

// The name stands at place i too, behind all its places so far. Where it was not seen before, i is its first place.
#[tactic(auto, unfolding(crate::specs::Row::Tally::noted_word))]
pub(crate) fn noted(word: u64, i: u16) -> u64
    requires { one_left ≤ word }
    ensures { result ≡ noted_word word i }
{
    let behind = word % 65536;
    let first = if behind == 0 { u64::from(i) * FIRST } else { 0 };
    word - LEFT - behind + COUNT + first + u64::from(i) + 1
}

// The first pass over a row. What is seen of each name goes behind the nodes, where the upper counts of the names stand, up to the first child that is
// foreign or one too many of its name: its place, if there is one.
pub(crate) fn search_row(row: &[u16], words: &mut [u64; WORDS]) -> Option<usize>
    requires { (length row.now ≤ max_row) × (upto max_atoms row.now ≡ true) }
    ensures row_tallied { (us : List Upper) → Seeing us [] (seen_in words.old) → RowTallied us row.now (seen_in words.new) result }
    ensures same_nodes { SameNodes words.old words.new }
{
    for (i, &name) in row.iter().enumerate() {
        let place = MAX_NODES + usize::from(name);
        let word = words[place];
        if is_full(word) {
            return Some(i);
        }
        words[place] = noted(word, i as u16);
    }
    None
}
