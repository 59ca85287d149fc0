// Children judged by a model text.

ghost use mathlib.Core.{Path.◌≡◌, Bool.true, Bool.cond, List.[], List.List};
ghost use Rattle.std.specs.Prelude.{◌+◌, ◌<◌, ◌≤◌, Ok, Err};
ghost use lib.{Dec.ltb, ListN.length, ListN.get_or};
ghost use Rattle.fields.specs.{Bytes.is_initial, Limits.max_file, Limits.max_row, Children.short_name};
ghost use Rattle.fields.specs.declared.fault.CueFault.TheVariants.{ManyChildren};
ghost use Rattle.model.specs.declared.rule.Upper.{Upper};
ghost use Rattle.judge.specs.Packed.{seen_in, Fresh, SameNodes};
ghost use Rattle.judge.specs.{declared.lexeme.NameEnd.NameEnd, Reading.Lexeme.NameEnds, Row.Tally.Seeing};
ghost use Rattle.judge.specs.declared.reply.{ChildrenRow.TheVariants.Whole, ChildrenRow.TheVariants.Faulty};
ghost use Rattle.judge.specs.declared.reply.{TextMisread.TheVariants.Model, TextMisread.TheVariants.Children};
ghost use Rattle.judge.specs.Reply.{children_in, children_reply, judged_of};
ghost use Rattle.judge.specs.Reply.Read.{text_fault};
ghost use Rattle.judge.specs.declared.fault.NextFault.TheVariants.{Text};
ghost use Rattle.judge.specs.Reply.Read.{TextsRead};
ghost use Rattle.judge.specs.Reply.Children.{child_from, children_from, stopped_at, sizes, ChildrenTallied};
ghost use Rattle.judge.specs.Reading.Table.{Tabled, Distinct, parts_in};

use crate::cursor::Cursor;
use crate::fault::{Misread, NextFault, TextFault};
use crate::lexeme::{NameEnd, name_begins, name_end};
use crate::packed::{Sizes, WORDS};
use crate::reader::read_whole;
use crate::row::verdict_by;
use crate::table::Table;
use crate::tally::{is_full, noted};
use fields::children::count_children;
use fields::fault::CueFault;
use fields::limits::{MAX_FILE, MAX_NAME, MAX_ROW};
use fields::split::TAB;
use model::rule::MAX_NODES;
use model::verdict::Verdict;

// Is the child whose name begins at `at` a name of at most 32 characters? `read` has where that name ends.
fn is_child(children: &[u8], at: usize, read: NameEnd) -> bool
    requires { (is_initial (get_or children.now at 0) ≡ true) × NameEnds children.now at read }
    ensures { result ≡ short_name (child_from children.now at) }
{
    read.end - at <= MAX_NAME && (read.end == children.len() || children[read.end] == TAB)
}

// Of a row with a child that is foreign or one too many of its name, the place of the first such child is all that is read.
#[derive(Clone, Copy)]
pub(crate) enum ChildrenRow {
    Whole(Sizes),
    Faulty(usize),
}

// Behind the place of a child at fault stand so many children.
fn faulty(place: usize, behind: usize) -> Result<ChildrenRow, CueFault>
    requires { (place ≤ max_file) × (behind ≤ max_row) }
    ensures { result ≡ cond (ltb (place + behind) max_row) (Ok (Faulty place)) (Err ManyChildren) }
{
    if place + behind < MAX_ROW {
        Ok(ChildrenRow::Faulty(place))
    } else {
        Err(CueFault::ManyChildren)
    }
}

// The child at the place, which ends at `end`, is at fault: the children behind it are only tested for 35 and 36.
fn stopped(children: &[u8], end: usize, place: usize) -> Result<ChildrenRow, CueFault>
    requires { (end ≤ length children.now) × (length children.now ≤ max_file) × (place ≤ max_file) }
    ensures { result ≡ stopped_at (children_from children.now (end + 1)) place }
{
    if end == children.len() {
        return faulty(place, 0);
    }
    faulty(place, count_children(&children[end + 1..])?)
}

// What the children are, and what is seen of each name of the model among them; up to the first child at fault, if there is one. Each child is looked up
// and noted when it is read. The reader of the model text stands at `past`.
fn tally_children(
    model: &[u8],
    table: &Table,
    past: Cursor,
    children: &[u8],
    words: &mut [u64; WORDS],
) -> Result<ChildrenRow, CueFault>
    requires tabled { Tabled model.now table.now.names table.now.heads past.names × Distinct (parts_in model.now table.now.names past.names) }
    requires children_nonzero { (0 < length children.now) × (length children.now ≤ max_file) }
    ensures children_tallied { (us : List Upper) → Seeing us [] (seen_in words.old)
        → ChildrenTallied us (parts_in model.now table.now.names past.names) (children_in children.now) (seen_in words.new) past result }
    ensures same_nodes { SameNodes words.old words.new }
{
    let mut count: usize = 0;
    let mut at: usize = 0;
    while at <= children.len() {
        if !name_begins(children, at) {
            return Err(CueFault::NoName);
        }
        let read = name_end(children, at);
        if !is_child(children, at, read) {
            return Err(CueFault::NoName);
        }
        let name = &children[at..read.end];
        let number = usize::from(table.look_up(model, past.names, name, read.key));
        let word = words[MAX_NODES + number];
        if is_full(word) {
            return stopped(children, read.end, count);
        }
        words[MAX_NODES + number] = noted(word, count as u16);
        count += 1;
        at = read.end + 1;
    }
    if MAX_ROW < count {
        return Err(CueFault::ManyChildren);
    }
    Ok(whole(past, count as u16))
}

fn whole(past: Cursor, children: u16) -> ChildrenRow
    ensures { result ≡ Whole (sizes past children) }
{
    ChildrenRow::Whole(Sizes {
        nodes: past.nodes,
        children,
        names: past.names,
    })
}

// As `TextFault`, with the place in the model text.
#[derive(Clone, Copy)]
pub(crate) enum TextMisread {
    Model(Misread),
    Children(CueFault),
}

impl From<Misread> for TextMisread {
    ghost from_gives = { λ m e. e ≡ Model m };

    fn from(misread: Misread) -> TextMisread {
        TextMisread::Model(misread)
    }
}

impl From<CueFault> for TextMisread {
    ghost from_gives = { λ f e. e ≡ Children f };

    fn from(fault: CueFault) -> TextMisread {
        TextMisread::Children(fault)
    }
}

impl From<TextMisread> for TextFault {
    ghost from_gives = { λ m e. e ≡ text_fault m };

    fn from(misread: TextMisread) -> TextFault {
        match misread {
            TextMisread::Model(misread) => misread.into(),
            TextMisread::Children(fault) => fault.into(),
        }
    }
}

impl From<TextMisread> for NextFault {
    ghost from_gives = { λ m e. e ≡ Text (text_fault m) };

    fn from(misread: TextMisread) -> NextFault {
        NextFault::Text(misread.into())
    }
}

// Reads the model text into the numbers of its nodes and puts behind them, where zeros stand, what is seen of each name in the children, a field each; or
// gives the model text's refusal with its place, or the children's. No bytes are no children.
pub(crate) fn read_children(
    model: &[u8],
    children: &[u8],
    words: &mut [u64; WORDS],
) -> Result<ChildrenRow, TextMisread>
    requires { Fresh words.old }
    ensures { TextsRead model.now children.now words.new (seen_in words.new) result }
{
    let mut table = Table::new();
    let past = read_whole(model, words, &mut table)?;
    if MAX_FILE < children.len() {
        return Err(TextMisread::Children(CueFault::LongFile));
    }
    if children.is_empty() {
        return Ok(whole(past, 0));
    }
    Ok(tally_children(model, &table, past, children, words)?)
}

// The verdict on the children by the model that a text spells; or the model text's refusal, or the children's.
pub fn judge_children(model: &[u8], children: &[u8]) -> Result<Verdict, TextFault>
    ensures { result ≡ judged_of (children_reply model.now children.now) }
{
    let mut words = [0u64; WORDS];
    match read_children(model, children, &mut words)? {
        ChildrenRow::Whole(read) => Ok(verdict_by(&mut words, read)),
        ChildrenRow::Faulty(_) => Ok(Verdict::Dead),
    }
}
