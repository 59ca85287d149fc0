// Tidies the tree of a model text: all that document 02, W4 and W7, asks but for the order of members.

ghost use Rattle.std.specs.Prelude.{◌≡◌, ◌+◌, ◌≤◌, ◌<◌, length};
ghost use Rattle.fields.specs.Limits.{max_nodes};
ghost use Rattle.model.specs.Syntax.{Spelling};
ghost use Rattle.canonical.specs.Writer.Place.{AtomAt};
ghost use Rattle.canonical.specs.Tidy.{fitting};
ghost use Rattle.canonical.specs.Writer.Tidied.{remarked_by, placed_at, marking_by, stripped_by, zero_between, count_mark, atom_by, nothing_by};
ghost use Rattle.canonical.specs.Writer.Tidied.{no_members, holds_empty, noted_by, least_by, nullable_by, FitsOn, added_by, stacked_by, grouped_by};
ghost use Rattle.canonical.specs.Writer.Tidied.{group_closed_by, marked_by, sign_after, member_after};
ghost use Rattle.canonical.specs.Writer.Recursion.{TidyReady, Tidies};

use crate::head::{Head, NO_HEAD, Shape};
use crate::names::{count_end, is_after, name_end};
use model::mark::{is_plain, mark_at};
use model::rule::{MAX_NODES, Mark, Sign};

// A tidied tree: its head; from where on the stack holds its members, the last first; and where the text goes on behind it.
#[derive(Clone, Copy)]
pub(crate) struct Tidied {
    pub(crate) head: Head,
    pub(crate) top: usize,
    pub(crate) next: usize,
}

// The members that a group has so far: the last of them; whether some held the empty row; how many they are, whether the group would hold the empty
// row, their nodes and smallest name; and from where on the stack holds them.
#[derive(Clone, Copy)]
pub(crate) struct Gathered {
    pub(crate) last: Tidied,
    pub(crate) given: bool,
    pub(crate) members: u8,
    pub(crate) nullable: bool,
    pub(crate) size: u8,
    pub(crate) least: u16,
    pub(crate) top: usize,
}

// The same tree with another mark.
fn remarked(t: Tidied, mark: Mark) -> Tidied
    ensures { result ≡ remarked_by mark t }
{
    Tidied {
        head: t.head.under(mark),
        top: t.top,
        next: t.next,
    }
}

// The same tree at another place of the stack and of the text.
fn placed(t: Tidied, top: usize, next: usize) -> Tidied
    ensures { result ≡ placed_at top next t }
{
    Tidied {
        head: t.head.under(t.head.mark),
        top,
        next,
    }
}

// A mark, or none where it changes nothing.
fn fitting(mark: Mark, nullable: bool) -> Mark
    ensures { result ≡ fitting mark nullable }
{
    match mark {
        Mark::Optional if nullable => Mark::Plain,
        Mark::Nonempty if !nullable => Mark::Plain,
        _ => mark,
    }
}

// The tree under a mark, which takes the place of its own; `()` stays as it is.
fn marking(t: Tidied, mark: Mark) -> Tidied
    ensures { result ≡ marking_by mark t }
{
    if is_plain(mark) || t.head.shape.is_nothing() {
        t
    } else {
        remarked(t, fitting(mark, t.head.nullable))
    }
}

fn holds_empty(t: Tidied) -> bool
    ensures { result ≡ holds_empty t }
{
    match t.head.mark {
        Mark::Plain => t.head.nullable,
        Mark::Optional => true,
        Mark::Nonempty => false,
    }
}

// A member of a group with the sign: in a choice it goes without the empty row.
fn stripped(t: Tidied, sign: Sign) -> Tidied
    ensures { result ≡ stripped_by sign t }
{
    if sign == Sign::Choice {
        marking(t, Mark::Nonempty)
    } else {
        t
    }
}

// The mark for the count from `name` to `end`: `[0..n]` is `[1..n]?`.
fn count_mark(text: &[u8], name: usize, end: usize) -> Mark
    requires { (name ≤ end) × (end ≤ length text.now) }
    ensures { result ≡ count_mark (zero_between text.now name end) }
{
    if name + 1 < end && text[name + 1] == b'0' {
        Mark::Optional
    } else {
        Mark::Plain
    }
}

// The atom that begins at `at`.
fn atom(text: &[u8], at: usize, top: usize) -> Tidied
    requires { ((a : Spelling) × AtomAt text.now at a) × (length text.now < 65536) }
    ensures { result ≡ atom_by text.now at top }
{
    let name = name_end(text, at);
    let end = count_end(text, name);
    let head = Head {
        shape: Shape::Atom,
        mark: count_mark(text, name, end),
        nullable: false,
        members: 0,
        size: 1,
        least: at as u16,
    };
    Tidied {
        head,
        top,
        next: end,
    }
}

// `()`
fn nothing(top: usize, next: usize) -> Tidied
    ensures { result ≡ nothing_by top next }
{
    let head = Head {
        nullable: true,
        size: 1,
        ..NO_HEAD
    };
    Tidied { head, top, next }
}

fn no_members(top: usize) -> Gathered
    ensures { result ≡ no_members top }
{
    Gathered {
        last: nothing(top, 0),
        given: false,
        members: 0,
        nullable: true,
        size: 0,
        least: 0,
        top,
    }
}

// The group, with note of whether a member held the empty row.
fn noted(g: Gathered, t: Tidied) -> Gathered
    ensures { result ≡ noted_by t g }
{
    Gathered {
        given: g.given || holds_empty(t),
        ..g
    }
}

// The place of the smallest name, with a member more that has its own at `at`.
fn least_with(text: &[u8], members: u8, least: u16, at: u16) -> u16
    requires { (least ≤ length text.now) × (at ≤ length text.now) }
    ensures { result ≡ least_by text.now members least at }
{
    if members == 0 {
        return at;
    }
    let place = usize::from(least);
    let end = name_end(text, place);
    if is_after(text, place, end, usize::from(at)) {
        at
    } else {
        least
    }
}

// Whether the empty row is held, with a member more: of a choice one has to hold it, of another group each.
fn nullable_with(members: u8, sign: Sign, nullable: bool, own: bool) -> bool
    ensures { result ≡ nullable_by members sign nullable own }
{
    if members == 0 {
        own
    } else if sign == Sign::Choice {
        nullable || own
    } else {
        nullable && own
    }
}

// One member more for a group of the sign: `()` is dropped, and an unmarked group of the same sign joins.
fn added(text: &[u8], stack: &mut [Head; MAX_NODES], g: Gathered, sign: Sign, t: Tidied) -> Gathered
    requires { FitsOn text.now stack.old g t }
    ensures value { result ≡ added_by text.now g sign t }
    ensures stack_after { stack.new ≡ stacked_by stack.old sign t }
{
    if t.head.shape.is_nothing() {
        return g;
    }
    let nullable = nullable_with(g.members, sign, g.nullable, holds_empty(t));
    let least = least_with(text, g.members, g.least, t.head.least);
    if t.head.shape.is_group(sign) && is_plain(t.head.mark) {
        return Gathered {
            last: t,
            members: g.members + t.head.members,
            nullable,
            size: g.size + (t.head.size - 1),
            least,
            top: t.top,
            ..g
        };
    }
    let top = t.top - 1;
    stack[top] = t.head.under(t.head.mark);
    Gathered {
        last: t,
        members: g.members + 1,
        nullable,
        size: g.size + t.head.size,
        least,
        top,
        ..g
    }
}

// One member more as it was tidied: a choice takes it without the empty row.
fn gather(
    text: &[u8],
    stack: &mut [Head; MAX_NODES],
    g: Gathered,
    sign: Sign,
    t: Tidied,
) -> Gathered
    requires { FitsOn text.now stack.old (noted_by t g) (stripped_by sign t) }
    ensures value { result ≡ added_by text.now (noted_by t g) sign (stripped_by sign t) }
    ensures stack_after { stack.new ≡ stacked_by stack.old sign (stripped_by sign t) }
{
    added(text, stack, noted(g, t), sign, stripped(t, sign))
}

// A group of no members is `()`, and a group of one dissolves.
fn grouped(g: Gathered, sign: Sign, next: usize) -> Tidied
    requires { (g.top ≤ max_nodes) × (g.size ≤ max_nodes) }
    ensures { result ≡ grouped_by g sign next }
{
    if g.members == 0 {
        return nothing(g.top, next);
    }
    if g.members == 1 {
        return placed(g.last, g.top + 1, next);
    }
    let head = Head {
        shape: Shape::Group(sign),
        mark: Mark::Plain,
        nullable: g.nullable,
        members: g.members,
        size: g.size + 1,
        least: g.least,
    };
    Tidied {
        head,
        top: g.top,
        next,
    }
}

// A choice of which a member held the empty row gets a `?`.
fn closed(g: Gathered, sign: Sign, next: usize) -> Tidied
    requires { (g.top ≤ max_nodes) × (g.size ≤ max_nodes) }
    ensures { result ≡ group_closed_by g sign next }
{
    let t = grouped(g, sign, next);
    if sign == Sign::Choice && g.given {
        marking(t, Mark::Optional)
    } else {
        t
    }
}

// The mark behind a tree, if there is one.
fn with_mark(text: &[u8], t: Tidied) -> Tidied
    ensures { result ≡ marked_by text.now t }
{
    let mark = mark_at(text, t.next);
    if is_plain(mark) {
        return t;
    }
    placed(marking(t, mark), t.top, t.next + 1)
}

// The sign of a group, by the byte behind a member: `)` tells none.
fn sign_by(sign: Sign, behind: u8) -> Sign
    ensures { result ≡ sign_after sign behind }
{
    match behind {
        b',' => Sign::Sequence,
        b'|' => Sign::Choice,
        b'&' => Sign::Interleaving,
        _ => sign,
    }
}

// Where the next member begins, by the byte at `next` behind a member; a `)` ends the group.
fn member_by(next: usize, behind: u8) -> usize
    requires { next < 65536 }
    ensures { result ≡ member_after next behind }
{
    if behind == b')' { next } else { next + 1 }
}

// The tree that begins at `at`.
pub(crate) fn tidy(text: &[u8], stack: &mut [Head; MAX_NODES], at: usize, top: usize) -> Tidied
    requires { TidyReady text.now stack.old at top }
    ensures { Tidies text.now stack.old stack.new at top result }
{
    if text[at] != b'(' {
        return with_mark(text, atom(text, at, top));
    }
    let mut g = no_members(top);
    let mut sign = Sign::None;
    let mut p = at + 1;
    while text[p] != b')' {
        let t = tidy(text, stack, p, g.top);
        let behind = text[t.next];
        sign = sign_by(sign, behind);
        p = member_by(t.next, behind);
        g = gather(text, stack, g, sign, t);
    }
    with_mark(text, closed(g, sign, p + 1))
}
