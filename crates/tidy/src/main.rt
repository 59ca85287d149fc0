// Prints sheet.txt, in the folder that it is run in, with each model written in its one way, or the one line of a refusal.
#![tactic(auto)]

use fields::limits::MAX_FILE;
use files::{NO_FILE, read_file};
use sheet::refusal::{REFUSAL_SIZE, Refusal, Source, refusal_line};
use std::io;
use tidying::refusal::tidied_refusal;
use tidying::write::tidy_sheet;

// There is no sheet.
const NO_SHEET: Refusal = Refusal {
    source: Source::Sheet,
    number: NO_FILE,
    line: 0,
};

fn refuse(rt: &impl Print, refusal: Refusal) -> io::Result<()> {
    let mut buffer = [0; REFUSAL_SIZE];
    let n = refusal_line(refusal, &mut buffer);
    rt.write_all(&buffer[..n])
}

// Writes the tidied sheet into the buffer, and prints what stands there.
fn print_tidied(rt: &impl Print, sheet: &[u8], buffer: &mut [u8]) -> io::Result<()> {
    let tidied = tidy_sheet(sheet, buffer);
    match tidied {
        Ok(n) => rt.write_all(&buffer[..n]),
        Err(_) => refuse(rt, tidied_refusal(tidied)),
    }
}

fn with_sheet(rt: &impl Print, sheet: &[u8]) -> io::Result<()> {
    let mut buffer = [0; MAX_FILE];
    print_tidied(rt, sheet, &mut buffer)
}

// The buffer has one byte more than a file may have, so that a longer one is told.
fn main(rt: HostRuntime) -> io::Result<()> {
    let mut sheet = [0; MAX_FILE + 1];
    match read_file(&rt, b"sheet.txt", &mut sheet) {
        Ok(n) => with_sheet(&rt, &sheet[..n]),
        Err(_) => refuse(&rt, NO_SHEET),
    }
}
