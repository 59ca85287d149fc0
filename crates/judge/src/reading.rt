// What a model text reads into: its rule, and its names as places in the text.

ghost use mathlib.Core.{Path.◌≡◌, List.[], List.map};
ghost use Rattle.std.specs.Prelude.{◌≤◌, length, take};
ghost use Rattle.model.specs.Syntax.{number_in};
ghost use Rattle.judge.specs.Reading.{names_with, refusal, reading, parts_of};
ghost use Rattle.fields.specs.Limits.{max_atoms};
ghost use Rattle.judge.specs.Reading.Table.{entry_place};

use crate::fault::Misread;
use crate::packed::{WORDS, no_rule, unpack};
use crate::reader::read_whole;
use crate::reply::{TextMisread, read_children};
use crate::table::{Entry, Table};
use fields::bytes::same_bytes;
use model::rule::{MAX_ATOMS, NameNumber, Rule};

// Where a name stands in the text.
#[derive(Clone, Copy)]
pub struct NamePlace {
    pub start: u16,
    pub len: u16,
}

// The names of a model, in the order written. Places from len on hold zeros.
#[derive(Clone, Copy)]
pub struct Names {
    pub places: [NamePlace; MAX_ATOMS],
    pub len: usize,
}

// A refused reading has the rule of `()` and no names.
#[derive(Clone, Copy)]
pub struct Reading {
    pub outcome: Result<(), Misread>,
    pub rule: Rule,
    pub names: Names,
}

fn no_names() -> Names
    ensures { result ≡ names_with [] }
{
    let none = NamePlace { start: 0, len: 0 };
    Names {
        places: [none; MAX_ATOMS],
        len: 0,
    }
}

fn refused(misread: Misread) -> Reading
    ensures { result ≡ refusal misread.fault misread.place }
{
    Reading {
        outcome: Err(misread),
        rule: no_rule(),
        names: no_names(),
    }
}

fn names_of(entries: &[Entry; MAX_ATOMS], len: usize) -> Names
    requires { (len ≤ max_atoms) × (length entries.now ≡ max_atoms) }
    ensures { result ≡ names_with (map entry_place (take len entries.now)) }
{
    let mut names = no_names();
    for (i, entry) in entries[..len].iter().enumerate() {
        names.places[i] = entry.place;
    }
    names.len = len;
    names
}

pub fn read_model(text: &[u8]) -> Reading
    ensures { result ≡ reading text.now }
{
    let mut work = [0u64; WORDS];
    let mut table = Table::new();
    match read_whole(text, &mut work, &mut table) {
        Ok(past) => Reading {
            outcome: Ok(()),
            rule: unpack(&work, past.nodes),
            names: names_of(&table.names, past.names),
        },
        Err(misread) => refused(misread),
    }
}

// The outcome alone, for a caller that needs no rule. The text is read as for a row of no children, so that the desk's library has one reader.
pub fn model_outcome(text: &[u8]) -> Result<(), Misread>
    ensures { result ≡ (reading text.now).outcome }
{
    let mut words = [0u64; WORDS];
    match read_children(text, b"", &mut words) {
        Ok(_) => Ok(()),
        Err(TextMisread::Model(misread)) => Err(misread),
        Err(TextMisread::Children(_)) => Ok(()),
    }
}

// The number of a name: from 1, of the first place whose part of the text is that name; 0 where there is none.
pub fn number_of(text: &[u8], names: Names, name: &[u8]) -> NameNumber
    ensures { result.0 ≡ number_in (parts_of text.now names) name.now }
{
    let n = names.len.min(MAX_ATOMS);
    for (i, place) in names.places[..n].iter().enumerate() {
        let start = (place.start as usize).min(text.len());
        let end = (place.start as usize + place.len as usize).min(text.len());
        if same_bytes(&text[start..end], name) {
            return NameNumber((i + 1) as u16);
        }
    }
    NameNumber(0)
}
