// Prints the listing of cues.txt by sheet.txt, both in the folder that it is run in, or the one line of a refusal.
#![tactic(auto)]

use fields::limits::MAX_FILE;
use files::{NO_FILE, read_file};
use lister::listing::{ListFault, list};
use lister::refusal::listed_refusal;
use sheet::refusal::{REFUSAL_SIZE, Refusal, Source, refusal_line};
use sheet::sheet::read_sheet;
use std::io;
use std::rt::Files;

// One byte more than a file may have, so that a longer one is told.
const ROOM: usize = MAX_FILE + 1;

fn refuse(rt: &impl Print, refusal: Refusal) -> io::Result<()> {
    let mut buffer = [0u8; REFUSAL_SIZE];
    let n = refusal_line(refusal, &mut buffer);
    rt.write_all(&buffer[..n])
}

fn no_file(source: Source) -> Refusal {
    Refusal {
        source,
        number: NO_FILE,
        line: 0,
    }
}

// There is no cue list. The sheet is tried before it.
fn without_cues(rt: &impl Print, sheet: &[u8]) -> io::Result<()> {
    match read_sheet(sheet).outcome {
        Ok(()) => refuse(rt, no_file(Source::Cues)),
        Err(refused) => refuse(rt, listed_refusal(Err(ListFault::Sheet(refused)))),
    }
}

fn with_both(rt: &impl Print, sheet: &[u8], cues: &[u8]) -> io::Result<()> {
    let mut buffer = [0u8; MAX_FILE];
    match list(sheet, cues, &mut buffer) {
        Ok(n) => rt.write_all(&buffer[..n]),
        refused => refuse(rt, listed_refusal(refused)),
    }
}

fn with_sheet(rt: &(impl Print + Files), sheet: &[u8]) -> io::Result<()> {
    let mut cues = [0u8; ROOM];
    match read_file(rt, b"cues.txt", &mut cues) {
        Ok(n) => with_both(rt, sheet, &cues[..n]),
        Err(_) => without_cues(rt, sheet),
    }
}

fn main(rt: HostRuntime) -> io::Result<()> {
    let mut sheet = [0u8; ROOM];
    match read_file(&rt, b"sheet.txt", &mut sheet) {
        Ok(n) => with_sheet(&rt, &sheet[..n]),
        Err(_) => refuse(&rt, no_file(Source::Sheet)),
    }
}
