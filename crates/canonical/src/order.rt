// The members of a group in the order in which they are written.

ghost use Rattle.std.specs.Prelude.{◌≡◌};
ghost use Rattle.canonical.specs.Writer.Lists.{is_behind, TwoMembers, Narrowed, InsertReady, Inserted, MembersReady, MembersListed};

use crate::head::Head;
use crate::names::{is_after, name_end};
use model::rule::{MAX_NODES, Sign};

// Does the member at m have a smallest name, with its end at `name`, that comes after that of the member at `other`?
fn is_behind(text: &[u8], stack: &[Head; MAX_NODES], m: usize, name: usize, other: usize) -> bool
    requires { TwoMembers text.now stack.now m name other }
    ensures { result ≡ is_behind text.now stack.now m other }
{
    let least = usize::from(stack[m].least);
    is_after(text, least, name, usize::from(stack[other].least))
}

// Where the member at m goes in a list whose names fall: from this place on they are smaller than its own.
fn place_of(
    text: &[u8],
    stack: &[Head; MAX_NODES],
    list: &[u8; MAX_NODES],
    start: usize,
    end: usize,
    m: usize,
) -> usize
    requires { InsertReady text.now stack.now list.now start end m }
    ensures { Narrowed text.now stack.now list.now start end m result result }
{
    if end <= start {
        return end;
    }
    let name = name_end(text, usize::from(stack[m].least));
    // a member that is written in order has the smallest name so far
    if !is_behind(text, stack, m, name, usize::from(list[end - 1])) {
        return end;
    }
    let mut low = start;
    let mut high = end - 1;
    while low < high {
        let middle = low + (high - low) / 2;
        if is_behind(text, stack, m, name, usize::from(list[middle])) {
            high = middle;
        } else {
            low = middle + 1;
        }
    }
    high
}

// Puts the member at m into a list of members, which stands in the places from `start` to `end`, its last first: before those that have no smaller name.
fn insert(
    text: &[u8],
    stack: &[Head; MAX_NODES],
    list: &mut [u8; MAX_NODES],
    start: usize,
    end: usize,
    m: usize,
)
    requires { InsertReady text.now stack.now list.old start end m }
    ensures { Inserted text.now stack.now list.old list.new start end m }
{
    let place = place_of(text, stack, list, start, end, m);
    list.copy_within(place..end, place + 1);
    list[place] = m as u8;
}

// Lists the members of the group at `at`, the last first, from place `start` on: those of `,` as they stand, others by their smallest names.
pub(crate) fn members(
    text: &[u8],
    stack: &[Head; MAX_NODES],
    list: &mut [u8; MAX_NODES],
    at: usize,
    start: usize,
) -> usize
    requires { MembersReady text.now stack.now list.old at start }
    ensures { MembersListed text.now stack.now list.old list.new at start result }
{
    let head = stack[at];
    let end = start + usize::from(head.members);
    let mut m = at + 1;
    for k in start..end {
        if head.shape.is_group(Sign::Sequence) {
            list[k] = m as u8;
        } else {
            insert(text, stack, list, start, k, m);
        }
        m += usize::from(stack[m].size);
    }
    end
}
