// The depth of a rule: the most groups around an atom, after flattening. One pass over the nodes finds it.

ghost use Rattle.std.specs.Prelude.{◌≡◌, reverse};
ghost use Rattle.std.specs.List.{list_any, fold};
ghost use Rattle.model.specs.Depth.{nil_flat, merges_by, brings_by, beside_by, over_by, closed_by, sign_in, flat_part, flat_node, rule_depth};
ghost use Rattle.model.specs.Depth.{flat_by, flat-step, flat-small};

use crate::check::one_deeper;
use crate::mark::is_plain;
use crate::pass::{Kept, kept_of};
use crate::rule::{Kind, Mark, Node, Rule, Sign};

// What is kept of a flattened tree: the sign between its members, whether it has a mark, whether it is `()`, and the most groups around an atom of it,
// itself among them.
#[derive(Clone, Copy)]
pub struct Flat {
    pub sign: Sign,
    pub marked: bool,
    pub empty: bool,
    pub depth: u8,
}

fn merges(sign: Sign, x: Flat) -> bool
    ensures { result ≡ merges_by sign x }
{
    sign == x.sign && !x.marked && 0 < x.depth
}

// How many groups the tree brings into a group of the sign.
fn brings(sign: Sign, x: Flat) -> u8
    ensures { result ≡ brings_by sign x }
{
    if merges(sign, x) {
        x.depth - 1
    } else {
        x.depth
    }
}

// A member, and a group of the sign that the members behind it make.
fn beside(sign: Sign, x: Flat, y: Flat) -> Flat
    ensures { result ≡ beside_by sign x y }
{
    if x.empty {
        return y;
    }
    if y.empty {
        return x;
    }
    Flat {
        sign,
        marked: false,
        empty: false,
        depth: one_deeper(brings(sign, x).max(brings(sign, y))),
    }
}

fn over(mark: Mark, x: Flat) -> Flat
    ensures { result ≡ over_by mark x }
{
    Flat {
        marked: if is_plain(mark) { x.marked } else { !x.empty },
        ..x
    }
}

fn sign_of(kind: Kind) -> Sign
    ensures { result ≡ sign_in kind }
{
    match kind {
        Kind::Atom { .. } => Sign::None,
        Kind::Group { sign, .. } => sign,
    }
}

// A choice from which a `()` was dropped is marked with `?`.
fn closed(sign: Sign, dropped: bool, x: Flat) -> Flat
    ensures { result ≡ closed_by sign dropped x }
{
    if sign == Sign::Choice && dropped {
        return over(Mark::Optional, x);
    }
    x
}

fn part(kind: Kind, dropped: bool, x: Flat) -> Flat
    ensures { result ≡ flat_part kind dropped x }
{
    match kind {
        Kind::Atom { .. } => Flat {
            empty: false,
            ..Flat::nothing()
        },
        Kind::Group { sign, .. } => closed(sign, dropped, x),
    }
}

fn some_empty(members: &[Flat]) -> bool
    ensures { result ≡ list_any (λ x. x.empty) members.now }
{
    members.iter().any(|member| member.empty)
}

fn gathered(sign: Sign, members: &[Flat]) -> Flat
    ensures { result ≡ fold (λ y x. beside_by sign x y) nil_flat (reverse members.now) }
{
    members.iter().rev().fold(
        Flat::nothing(),
        |behind, member| beside(sign, *member, behind),
    )
}

// What is kept of a node, by what is kept of its members.
pub fn flat_node(kind: Kind, mark: Mark, members: &[Flat]) -> Flat
    ensures { result ≡ flat_node kind mark members.now }
{
    over(
        mark,
        part(kind, some_empty(members), gathered(sign_of(kind), members)),
    )
}

impl Kept for Flat {
    ghost nothing = { nil_flat };

    ghost of_node = { flat_node };

    ghost algebra = { flat_by };

    fn nothing() -> Flat {
        Flat {
            sign: Sign::None,
            marked: false,
            empty: true,
            depth: 0,
        }
    }

    fn of_node(node: Node, members: &[Flat]) -> Flat {
        flat_node(node.kind, node.mark, members)
    }

    ghost is_step = { flat-step };

    ghost small = { flat-small };
}

// The depth, no more than one over the limit of brackets.
pub fn depth(rule: Rule) -> u8
    ensures { result ≡ rule_depth rule }
{
    let flat: Flat = kept_of(rule);
    flat.depth
}
