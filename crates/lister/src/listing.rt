// The listing.

ghost use mathlib.Core.{Path.◌≡◌};
ghost use Rattle.std.specs.Prelude.{◌*◌, ◌≤◌, Some};
ghost use lib.ListN.{length};
ghost use Rattle.model.specs.Syntax.{number_in};
ghost use Rattle.judge.specs.Reading.{part_at, parts_of};
ghost use Rattle.fields.specs.{Limits.max_file, Split.lines, Split.unlines, Split.field, Put.PutWhole};
ghost use Rattle.sheet.specs.{Cues.children, Cues.CueFits, Cues.Walk.GoodCues};
ghost use Rattle.sheet.specs.Sheet.Line.{Loaded};
ghost use Rattle.lister.specs.{Listing.said_of, Listing.said, Listing.listing, Listed.by_room, Listed.listed, Listed.buffer_after};
ghost use Rattle.lister.specs.Making.{before, lines_said, listing_said, max_line, CueReady, CueGood, CuesSaid, SaidUpTo};

use crate::line::{line_length, write_line};
use crate::total::{TOTAL_SIZE, write_total};
use fields::fault::{AtLine, CueFault};
use fields::limits::MAX_FILE;
use fields::lines::lines_of;
use fields::put::put;
use fields::split::first_fields;
use judge::reading::{NamePlace, Names, number_of};
use judge::reply::judge_children;
use model::verdict::Verdict;
use sheet::cues::read_cues;
use sheet::sheet::{Sheet, SheetFault, read_sheet};

// What is wrong with the sheet or with the cue list; or the listing is longer than the buffer (`listed_number` in specs/Listed.antt).
#[derive(Clone, Copy)]
pub enum ListFault {
    Sheet(AtLine<SheetFault>),
    Cues(AtLine<CueFault>),
    TooLong,
}

impl From<AtLine<SheetFault>> for ListFault {
    ghost use Rattle.lister.specs.declared.listing.ListFault.TheVariants.{Sheet};

    ghost from_gives = { λ f e. e ≡ Sheet f };

    fn from(refused: AtLine<SheetFault>) -> ListFault {
        ListFault::Sheet(refused)
    }
}

impl From<AtLine<CueFault>> for ListFault {
    ghost use Rattle.lister.specs.declared.listing.ListFault.TheVariants.{Cues};

    ghost from_gives = { λ f e. e ≡ Cues f };

    fn from(refused: AtLine<CueFault>) -> ListFault {
        ListFault::Cues(refused)
    }
}

// The verdict on a cue's row by the model at a place of the sheet's text.
fn judge_cue(sheet: &[u8], place: NamePlace, cue: &[u8]) -> Verdict
    requires { CueReady sheet.now place cue.now }
    ensures { Some result ≡ said_of (part_at sheet.now place) (children cue.now) }
{
    let start = usize::from(place.start);
    let model = &sheet[start..start + usize::from(place.len)];
    let third = first_fields(cue).third;
    let row = if third < cue.len() {
        &cue[third + 1..]
    } else {
        b""
    };
    judge_children(model, row).unwrap_or(Verdict::Dead)
}

// The sheet's line, from 0, that has the kind of a cue.
fn line_of(sheet: &[u8], kinds: Names, cue: &[u8]) -> Option<usize>
    requires { CueFits cue.now }
    ensures { result ≡ before (number_in (parts_of sheet.now kinds) (field 2 cue.now)) }
{
    let ends = first_fields(cue);
    let number = number_of(sheet, kinds, &cue[ends.second + 1..ends.third]);
    usize::from(number.0).checked_sub(1)
}

// The verdict on a cue's row by the sheet's model for its kind, if it has one.
fn say(sheet: &[u8], rules: &Sheet, cue: &[u8]) -> Option<Verdict>
    requires { Loaded sheet.now rules.now × CueGood cue.now }
    ensures { result ≡ said (lines sheet.now) cue.now }
{
    let line = line_of(sheet, rules.kinds, cue)?;
    Some(judge_cue(sheet, rules.entries[line].model, cue))
}

// What the sheet says of each cue.
fn say_all(sheet: &[u8], rules: &Sheet, cues: &[u8], said: &mut [Option<Verdict>])
    requires { Loaded sheet.now rules.now × GoodCues cues.now × (length said.old ≡ 65535) }
    ensures { SaidUpTo (length (lines cues.now)) sheet.now cues.now said.new }
{
    for (n, cue) in lines_of(cues).enumerate() {
        said[n] = say(sheet, rules, cue);
    }
}

// How long the lines of all cues are.
fn lines_length(cues: &[u8], said: &[Option<Verdict>]) -> usize
    requires { CuesSaid cues.now said.now }
    ensures value { result ≡ length (unlines (lines_said said.now (lines cues.now))) }
    ensures upper_bound { result ≤ max_file * max_line }
{
    let mut length: usize = 0;
    for (cue, one) in lines_of(cues).zip(said) {
        length += line_length(cue, *one);
    }
    length
}

// Writes the lines of all cues: each goes into the part of the buffer that the earlier ones left free.
fn write_lines(buffer: &mut [u8], cues: &[u8], said: &[Option<Verdict>])
    requires { CuesSaid cues.now said.now × (length (unlines (lines_said said.now (lines cues.now))) ≤ length buffer.old) }
    ensures { PutWhole buffer.old buffer.new (unlines (lines_said said.now (lines cues.now))) }
{
    let mut written: usize = 0;
    for (cue, one) in lines_of(cues).zip(said) {
        written += write_line(&mut buffer[written..], cue, *one);
    }
}

// Writes the listing by what is said of each cue, where the buffer has room for it.
fn write_listing(
    buffer: &mut [u8],
    cues: &[u8],
    said: &[Option<Verdict>],
) -> Result<usize, ListFault>
    requires { CuesSaid cues.now said.now }
    ensures value { result ≡ by_room (listing_said said.now cues.now) (length buffer.old) }
    ensures buffer_after { buffer.new ≡ buffer_after result (listing_said said.now cues.now) buffer.old }
{
    let mut last = [0u8; TOTAL_SIZE];
    let below = write_total(&mut last, said);
    let above = lines_length(cues, said);
    let length = above + below;
    if buffer.len() < length {
        return Err(ListFault::TooLong);
    }
    write_lines(buffer, cues, said);
    put(buffer, above, &last[..below]);
    Ok(length)
}

// Writes the listing of a cue list by a sheet into the buffer. A refusal changes no byte of it.
pub fn list(sheet: &[u8], cues: &[u8], buffer: &mut [u8]) -> Result<usize, ListFault>
    ensures value { result ≡ listed sheet.now cues.now (length buffer.old) }
    ensures buffer_after { buffer.new ≡ buffer_after result (listing sheet.now cues.now) buffer.old }
{
    let read = read_sheet(sheet);
    read.outcome?;
    let count = read_cues(cues)?;
    let mut said = [None; MAX_FILE];
    say_all(sheet, &read.sheet, cues, &mut said);
    write_listing(buffer, cues, &said[..count])
}
