// What is ahead of a row: the names of each node that may come next, beside the node's attribute.

ghost use mathlib.Core.{Path.◌≡◌, List.[]};
ghost use Rattle.std.specs.Prelude.{suc, ◌≤◌};
ghost use Rattle.fields.specs.Limits.{max_atoms};
ghost use Rattle.model.specs.{Membership.under, Model.operator, Model.is_atom};
ghost use Rattle.judge.specs.Packed.{node_in};
ghost use Rattle.judge.specs.Next.{Set.single, Ahead.first_open, Ahead.second_open, Ahead.pair_ahead, Ahead.part_ahead, Ahead.grown_ahead, Ahead.marked_ahead};

use crate::attribute::{Attribute, begin, marked_in, pair};
use crate::tally::Seen;
use model::rule::{Kind, Sign, Upper};

// Of a node: its attribute, and the set of its names that may come next. Name k is the digit 2^(k-1) of a set.
#[derive(Clone, Copy)]
pub(crate) struct Ahead {
    pub(crate) part: Attribute,
    pub(crate) next: u64,
}

#[tactic(auto, unfolding(crate::specs::Next::Set::single))]
fn single(name: usize) -> u64
    requires { (1 ≤ name) × (name ≤ max_atoms) }
    ensures { result ≡ single name }
{
    1u64 << (name - 1)
}

fn one_more_fits(count: u16, max: Upper) -> bool
    ensures { result ≡ under (suc count) max }
{
    match max {
        Upper::Number(n) => count < n,
        Upper::Unbounded => true,
    }
}

// Of a join of two members: whether names of the first may come, by whether the row has names of the second and whether the second is alive.
fn first_open(sign: Sign, second: bool, alive: bool) -> bool
    ensures { result ≡ first_open (operator sign) second alive }
{
    match sign {
        Sign::None | Sign::Sequence | Sign::Choice => !second,
        Sign::Interleaving => alive,
    }
}

// And names of the second: by whether no name of the first stands behind one of it, whether the row has names of the first, and whether the first is
// done and alive.
fn second_open(sign: Sign, ordered: bool, first: bool, done: bool, alive: bool) -> bool
    ensures { result ≡ second_open (operator sign) ordered first done alive }
{
    match sign {
        Sign::None | Sign::Sequence => ordered & done,
        Sign::Choice => !first,
        Sign::Interleaving => alive,
    }
}

fn pair_ahead(sign: Sign, x: Ahead, y: Ahead) -> Ahead
    ensures { result ≡ pair_ahead (operator sign) x y }
{
    let p = x.part;
    let q = y.part;
    let first = first_open(sign, 0 < q.behind, q.alive);
    let ordered = p.behind <= q.first;
    let second = second_open(sign, ordered, 0 < p.behind, p.done, p.alive);
    let left = if first { x.next } else { 0 };
    let right = if second { y.next } else { 0 };
    Ahead {
        part: pair(sign, p, q),
        next: left | right,
    }
}

// A node with none of its members yet; an atom's name has this number.
#[tactic(auto, unfolding(crate::specs::Next::Ahead::part_ahead, crate::specs::Row::Root::part_attribute))]
pub(crate) fn begin_ahead(length: u16, kind: Kind, seen: Seen, name: usize) -> Ahead
    requires { (is_atom kind ≤ name) × (name ≤ max_atoms) }
    ensures { result ≡ part_ahead length kind name seen [] }
{
    let next = match kind {
        Kind::Atom { max, .. } if one_more_fits(seen.count, max) => single(name),
        _ => 0,
    };
    Ahead {
        part: begin(length, kind, seen),
        next,
    }
}

// With a member more: the first is taken as it is, each other is joined.
#[tactic(auto, unfolding(crate::specs::Next::Ahead::grown_ahead))]
pub(crate) fn grown_ahead(kind: Kind, first: bool, x: Ahead, y: Ahead) -> Ahead
    ensures { result ≡ grown_ahead kind first x y }
{
    match kind {
        Kind::Group { sign, .. } if !first => pair_ahead(sign, x, y),
        Kind::Group { .. } => y,
        Kind::Atom { .. } => x,
    }
}

// With the mark of the node in a number, which forbids no name.
pub(crate) fn marked_ahead(length: u16, word: u64, x: Ahead) -> Ahead
    ensures { result ≡ marked_ahead length (node_in word).mark x }
{
    Ahead {
        part: marked_in(length, word, x.part),
        ..x
    }
}
