// Attributes of nodes: what a row is to each of them.

ghost use mathlib.Core.{Path.◌≡◌, Bool.cond, List.[]};
ghost use Rattle.std.specs.Prelude.{min, max};
ghost use Rattle.model.specs.{Membership.joined, Membership.begun, Model.operator};
ghost use Rattle.judge.specs.Row.Attribute.{empty_attribute, atom_attribute, pair_attribute, nonempty_attribute, counted_attribute, marked_attribute};
ghost use Rattle.judge.specs.{Packed.node_in, Row.Attribute.attribute_in, Row.Root.part_attribute, Row.Root.grown_attribute};

use crate::packed::mark_in;
use crate::tally::Seen;
use model::mark::MARK_PLACE;
use model::rule::{Kind, Mark, Sign};

// Of a node: the first place of its names or the row's length, one past their last place or 0, whether the part of the row that they make is in
// the node's model, and whether it can be made longer to be in it.
#[derive(Clone, Copy)]
pub(crate) struct Attribute {
    pub(crate) first: u16,
    pub(crate) behind: u16,
    pub(crate) done: bool,
    pub(crate) alive: bool,
}

// An attribute in one number, so that an array of nodes can hold it: 16 bits each for `first` and `behind`, and a bit for `done` and for `alive`, which
// the compiler tests as such.
const DONE: u64 = 1 << 32;

const ALIVE: u64 = 1 << 33;

#[tactic(auto, unfolding(crate::specs::Row::Attribute::attribute_in))]
pub(crate) fn attribute_in(word: u64) -> Attribute
    ensures { result ≡ attribute_in word }
{
    Attribute {
        first: (word % 65536) as u16,
        behind: (word / 65536 % 65536) as u16,
        done: word / DONE % 2 == 1,
        alive: word / ALIVE % 2 == 1,
    }
}

pub(crate) fn attribute_word(x: Attribute) -> u64
    ensures { attribute_in result ≡ x }
{
    u64::from(x.first)
        + u64::from(x.behind) * 65536
        + u64::from(x.done) * DONE
        + u64::from(x.alive) * ALIVE
}

// What nothing has: its part of every row is empty.
pub(crate) fn empty(length: u16) -> Attribute
    ensures { result ≡ empty_attribute length }
{
    Attribute {
        first: length,
        behind: 0,
        done: true,
        alive: true,
    }
}

// That no name is seen too often was tested in the first pass.
fn of_atom(min: u16, seen: Seen) -> Attribute
    ensures { result ≡ atom_attribute min seen }
{
    Attribute {
        first: seen.first,
        behind: seen.behind,
        done: min <= seen.count,
        alive: true,
    }
}

// Of a join of two members: whether no name of the first stands behind one of the second, whether the row has names of the first and of the second,
// and what is said of each member's part.
fn is_joined(sign: Sign, ordered: bool, first: bool, second: bool, x: bool, y: bool) -> bool
    ensures { result ≡ joined (operator sign) ordered first second x y }
{
    match sign {
        Sign::None | Sign::Sequence => ordered & x & y,
        Sign::Choice => (!second & x) | (!first & y),
        Sign::Interleaving => x & y,
    }
}

// The same of what can be made longer. A sequence may stop within its first member; to go on behind it, that has to be done.
fn is_begun(
    sign: Sign,
    ordered: bool,
    first: bool,
    second: bool,
    done: bool,
    x: bool,
    y: bool,
) -> bool
    ensures { result ≡ begun (operator sign) ordered first second done x y }
{
    match sign {
        Sign::None | Sign::Sequence => (!second & x) | (ordered & done & y),
        Sign::Choice | Sign::Interleaving => is_joined(sign, ordered, first, second, x, y),
    }
}

pub(crate) fn pair(sign: Sign, x: Attribute, y: Attribute) -> Attribute
    ensures { result ≡ pair_attribute (operator sign) x y }
{
    let ordered = x.behind <= y.first;
    let first = 0 < x.behind;
    let second = 0 < y.behind;
    Attribute {
        first: x.first.min(y.first),
        behind: x.behind.max(y.behind),
        done: is_joined(sign, ordered, first, second, x.done, y.done),
        alive: is_begun(sign, ordered, first, second, x.done, x.alive, y.alive),
    }
}

// a[0..n] is a[1..n]?
fn counted(length: u16, min: u16, seen: Seen) -> Attribute
    ensures { result ≡ counted_attribute length min seen }
{
    if min == 0 {
        pair(Sign::Choice, empty(length), of_atom(1, seen))
    } else {
        of_atom(min, seen)
    }
}

// Not done while the row has none of the names.
fn nonempty(x: Attribute) -> Attribute
    ensures { result ≡ nonempty_attribute x }
{
    Attribute {
        done: (0 < x.behind) & x.done,
        ..x
    }
}

// A member with `?` is a choice of nothing and the member.
fn marked(length: u16, mark: Mark, x: Attribute) -> Attribute
    ensures { result ≡ marked_attribute length mark x }
{
    match mark {
        Mark::Plain => x,
        Mark::Optional => pair(Sign::Choice, empty(length), x),
        Mark::Nonempty => nonempty(x),
    }
}

// The same by the node in a number. A number below MARK_PLACE has no mark: most have none, and then none is decoded.
#[tactic(auto, using(crate::specs::Packed::unmarked))]
pub(crate) fn marked_in(length: u16, word: u64, x: Attribute) -> Attribute
    ensures { result ≡ marked_attribute length (node_in word).mark x }
{
    if word < MARK_PLACE {
        return x;
    }
    marked(length, mark_in(word), x)
}

// A node with none of its members yet.
#[tactic(auto, unfolding(crate::specs::Row::Root::part_attribute))]
pub(crate) fn begin(length: u16, kind: Kind, seen: Seen) -> Attribute
    ensures { result ≡ part_attribute length kind seen [] }
{
    match kind {
        Kind::Atom { min, .. } => counted(length, min, seen),
        Kind::Group { .. } => empty(length),
    }
}

// With a member more: the first is taken as it is, each other is joined.
#[tactic(auto, unfolding(crate::specs::Row::Root::grown_attribute))]
pub(crate) fn grown(kind: Kind, first: bool, x: Attribute, y: Attribute) -> Attribute
    ensures { result ≡ grown_attribute kind first x y }
{
    match kind {
        Kind::Group { sign, .. } if !first => pair(sign, x, y),
        Kind::Group { .. } => y,
        Kind::Atom { .. } => x,
    }
}
