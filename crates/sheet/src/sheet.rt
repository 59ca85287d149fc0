// The sheet.

ghost use mathlib.Core.{Path.◌≡◌, List.[]};
ghost use Rattle.std.specs.Prelude.{◌-◌, ◌+◌, ◌≤◌, length};
ghost use Rattle.fields.specs.{Limits.max_file, Split.lines, Split.behind, Heads.heads_of};
ghost use Rattle.judge.specs.Reading.{parts_of};
ghost use Rattle.sheet.specs.Sheet.Line.{line_checked, line_read, read_of};
ghost use Rattle.sheet.specs.Sheet.{sheet_with, sheet_lines, sheet_by, sheet_read};

use crate::whole::check_whole;
use fields::bytes::same_bytes;
use fields::children::is_name;
use fields::fault::AtLine;
use fields::lines::lines_of;
use fields::split::{Heads, first_fields};
use judge::fault::Misread;
use judge::reading::{NamePlace, Names, number_of, read_model};
use model::fault::ModelFault;
use model::rule::Rule;

const MAX_RULES: usize = 64;

// Refusals of a sheet: 20 to 25, and the model's own (`sheet_number` in specs/Sheet.antt).
#[derive(Clone, Copy)]
pub enum SheetFault {
    LongFile,
    Unended,
    ManyRules,
    BadFields,
    NoKind,
    Repeated,
    Model(ModelFault),
}

impl From<Misread> for SheetFault {
    ghost use Rattle.sheet.specs.declared.sheet.SheetFault.TheVariants.{Model};

    ghost from_gives = { λ m e. e ≡ Model m.fault };

    fn from(misread: Misread) -> SheetFault {
        SheetFault::Model(misread.fault)
    }
}

// A line of the sheet: where its model stands in the sheet's text, and what it reads into.
#[derive(Clone, Copy)]
pub struct Entry {
    pub model: NamePlace,
    pub rule: Rule,
    pub names: Names,
}

// The kinds as places in the sheet's text, and an entry for each.
#[derive(Clone, Copy)]
pub struct Sheet {
    pub kinds: Names,
    pub entries: [Entry; MAX_RULES],
}

// A refused reading has no rules.
#[derive(Clone, Copy)]
pub struct SheetRead {
    pub outcome: Result<(), AtLine<SheetFault>>,
    pub sheet: Sheet,
}

// What a line is read into.
#[derive(Clone, Copy)]
struct LineRead {
    kind: NamePlace,
    entry: Entry,
}

const NO_PLACE: NamePlace = NamePlace { start: 0, len: 0 };

// A place that no line fills holds what a refused reading does: the rule of `()` and no names.
fn no_rules() -> Sheet
    ensures { result ≡ sheet_with [] }
{
    let none = read_model(b"");
    let entry = Entry {
        model: NO_PLACE,
        rule: none.rule,
        names: none.names,
    };
    Sheet {
        kinds: Names {
            places: [NO_PLACE; MAX_RULES],
            len: 0,
        },
        entries: [entry; MAX_RULES],
    }
}

// What is wrong with a line behind lines with these kinds, its model left aside.
fn check_line(text: &[u8], kinds: Names, line: &[u8], ends: Heads) -> Result<(), SheetFault>
    requires { ends ≡ heads_of line.now }
    ensures { result ≡ line_checked (parts_of text.now kinds) line.now }
{
    if line.len() <= ends.second
        || ends.third != line.len()
        || !same_bytes(&line[..ends.first], b"rule")
    {
        return Err(SheetFault::BadFields);
    }
    let kind = &line[ends.first + 1..ends.second];
    if !is_name(kind) {
        return Err(SheetFault::NoKind);
    }
    if number_of(text, kinds, kind).0 != 0 {
        return Err(SheetFault::Repeated);
    }
    Ok(())
}

// The part from `from` to `to` of the line that begins at `at`.
fn place_in(at: usize, from: usize, to: usize) -> NamePlace
    requires { (from ≤ to) × (at + to ≤ max_file) }
    ensures { result ≡ record { start = at + from; len = to - from } }
{
    NamePlace {
        start: (at + from) as u16,
        len: (to - from) as u16,
    }
}

// Reads the line of the text from at to end, behind lines with these kinds.
fn read_line(text: &[u8], kinds: Names, at: usize, end: usize) -> Result<LineRead, SheetFault>
    requires { (at ≤ end) × (end ≤ length text.now) × (length text.now ≤ max_file) }
    ensures { result ≡ line_read text.now kinds at end }
{
    let line = &text[at..end];
    let ends = first_fields(line);
    check_line(text, kinds, line, ends)?;
    let model = read_model(&line[ends.second + 1..ends.third]);
    model.outcome?;
    Ok(LineRead {
        kind: place_in(at, ends.first + 1, ends.second),
        entry: Entry {
            model: place_in(at, ends.second + 1, ends.third),
            rule: model.rule,
            names: model.names,
        },
    })
}

// The lines of a text that is not too long and whose last line has its line feed.
fn read_lines(text: &[u8]) -> Result<Sheet, AtLine<SheetFault>>
    requires { (length text.now ≤ max_file) × (behind text.now ≡ []) }
    ensures { read_of result ≡ sheet_by text.now (sheet_lines 0 [] (lines text.now)) }
{
    let mut sheet = no_rules();
    let mut at: usize = 0;
    for (n, line) in lines_of(text).enumerate() {
        if n == MAX_RULES {
            return Err(AtLine {
                fault: SheetFault::ManyRules,
                line: n + 1,
            });
        }
        let end = at + line.len();
        let read = read_line(text, sheet.kinds, at, end).map_err(|fault| AtLine {
            fault,
            line: n + 1,
        })?;
        sheet.kinds.places[n] = read.kind;
        sheet.kinds.len = n + 1;
        sheet.entries[n] = read.entry;
        at = end + 1;
    }
    Ok(sheet)
}

// The sheet that a text holds, or what is wrong with it.
fn sheet_in(text: &[u8]) -> Result<Sheet, AtLine<SheetFault>>
    ensures { read_of result ≡ sheet_read text.now }
{
    check_whole(text, SheetFault::LongFile, SheetFault::Unended)?;
    read_lines(text)
}

// Reads a sheet.
pub fn read_sheet(text: &[u8]) -> SheetRead
    ensures { result ≡ sheet_read text.now }
{
    match sheet_in(text) {
        Ok(sheet) => SheetRead {
            outcome: Ok(()),
            sheet,
        },
        Err(fault) => SheetRead {
            outcome: Err(fault),
            sheet: no_rules(),
        },
    }
}
