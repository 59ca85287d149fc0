// The names that may come next, listed in a lent row: document 02, W1.

ghost use mathlib.Core.{Path.◌≡◌, Bool.true, List.map, List.◌++◌};
ghost use Rattle.std.specs.Prelude.{◌≤◌, length, take, drop, slice_index};
ghost use Rattle.fields.specs.Limits.{max_atoms, max_nodes, max_row};
ghost use Rattle.model.specs.{Word.keep, Model.atoms_in, Rule.names, Rule.rule_type, Check.readable};
ghost use Rattle.judge.specs.Packed.{rule_in, seen_in, Sized};
ghost use Rattle.judge.specs.{Row.Tally.seen_of, Row.Pass.Judgeable};
ghost use Rattle.judge.specs.Next.{numbers_to, next_names, fitted, next_judged, children_next, HandsNext, HandsChildrenNext, Set.in_set};
ghost use Rattle.judge.specs.Next.Ahead.{root_ahead};

use crate::ahead::{Ahead, begin_ahead, grown_ahead, marked_ahead};
use crate::attribute::{attribute_in, attribute_word};
use crate::fault::{JudgeFault, NextFault};
use crate::packed::{Sizes, WORDS, kind_in, pack};
use crate::reply::{ChildrenRow, TextMisread, read_children};
use crate::row::test_row;
use crate::tally::{search_row, seen_of};
use model::check::{atoms_of, members_of};
use model::rule::{MAX_NODES, Rule};

// The pass of row::root, with the sets of names that may come next beside the attributes: of the first node, the names that may come next behind a row in
// which no child is at fault. One pass for both, with structs on its stack, would have to clear an array of them: that takes longer than a small judging.
fn root_next(words: &mut [u64; WORDS], read: Sizes) -> u64
    requires { Sized words.old read }
    ensures { result ≡ (root_ahead (rule_in words.old read.nodes) read.children (λ k. seen_of read.children (slice_index (seen_in words.old) k))).next }
{
    let mut sets = [0u64; MAX_NODES];
    let mut top = MAX_NODES;
    let mut name = read.names;
    for i in (0..read.nodes).rev() {
        let word = words[i];
        let kind = kind_in(word);
        let end = members_of(kind).min(MAX_NODES - top) + top;
        let here = seen_of(words[MAX_NODES + name], read.children);
        let mut x = begin_ahead(read.children, kind, here, name);
        for at in top..end {
            let y = Ahead {
                part: attribute_in(words[at]),
                next: sets[at],
            };
            x = grown_ahead(kind, at == top, x, y);
        }
        name -= atoms_of(kind);
        top = end - 1;
        let whole = marked_ahead(read.children, word, x);
        words[top] = attribute_word(whole.part);
        sets[top] = whole.next;
    }
    if top < MAX_NODES { sets[top] } else { 0 }
}

#[tactic(auto, unfolding(crate::specs::Next::Set::in_set))]
fn is_in(set: u64, name: usize) -> bool
    requires { (1 ≤ name) × (name ≤ max_atoms) }
    ensures { result ≡ in_set set name }
{
    (set >> (name - 1)) % 2 == 1
}

// How many of the first n names are in the set.
fn size(set: u64, n: usize) -> usize
    requires { n ≤ max_atoms }
    ensures { result ≡ length (keep (in_set set) (numbers_to n)) }
{
    let mut found = 0;
    for name in 1..=n {
        found += usize::from(is_in(set, name));
    }
    found
}

// Writes those of the first n names that are in the set, rising.
fn put_names(set: u64, n: usize, row: &mut [u16])
    requires { (n ≤ max_atoms) × (length (keep (in_set set) (numbers_to n)) ≤ length row.old) }
    ensures { row.new ≡ keep (in_set set) (numbers_to n) ++ drop (length (keep (in_set set) (numbers_to n))) row.old }
{
    let mut found = 0;
    for name in 1..=n {
        if is_in(set, name) {
            row[found] = name as u16;
            found += 1;
        }
    }
}

// Lists the names of a set, or refuses with 46.
fn list_names(set: u64, n: usize, row: &mut [u16]) -> Result<usize, JudgeFault>
    requires { n ≤ max_atoms }
    ensures { HandsNext (fitted (length row.old) (keep (in_set set) (numbers_to n))) result row.old row.new }
{
    let found = size(set, n);
    if row.len() < found {
        return Err(JudgeFault::ShortRow);
    }
    put_names(set, n, row);
    Ok(found)
}

// Of a row that is not refused, by a rule that some model text reads into.
fn next_on(
    words: &mut [u64; WORDS],
    read: Sizes,
    children: &[u16],
    row: &mut [u16],
) -> Result<usize, JudgeFault>
    requires { Judgeable words.old read children.now }
    ensures { HandsNext
        (fitted (length row.old) (next_names (rule_type (rule_in words.old read.nodes)) read.names children.now))
        result row.old row.new }
{
    match search_row(children, words) {
        Some(_) => Ok(0),
        None => {
            let set = root_next(words, read);
            list_names(set, read.names, row)
        }
    }
}

// The names that may come next behind the children, rising, in the first places of the lent row; the others stay as they were. Refused as judge_row
// refuses, then with 46, which leave every place.
pub fn next_names(rule: Rule, children: &[u16], row: &mut [u16]) -> Result<usize, JudgeFault>
    ensures { HandsNext (next_judged rule children.now (length row.old)) result row.old row.new }
{
    let names = test_row(rule, children)?;
    let mut words = [0u64; WORDS];
    pack(rule, &mut words);
    let read = Sizes {
        nodes: rule.len,
        children: children.len() as u16,
        names,
    };
    next_on(&mut words, read, children, row)
}

// The same by a model text and a children text, a field each.
pub fn next_children(model: &[u8], children: &[u8], row: &mut [u16]) -> Result<usize, NextFault>
    ensures { HandsChildrenNext
        (children_next model.now children.now (length row.old))
        result row.old row.new }
{
    let mut words = [0u64; WORDS];
    match read_children(model, children, &mut words)? {
        ChildrenRow::Whole(read) => {
            let set = root_next(&mut words, read);
            Ok(list_names(set, read.names, row)?)
        }
        ChildrenRow::Faulty(_) => Ok(0),
    }
}
