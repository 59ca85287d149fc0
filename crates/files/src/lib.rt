// The files that programs read. Their bytes are not known beforehand, so all that is promised is where they stand.
#![tactic(auto)]

ghost use Rattle.std.specs.Prelude.{◌≡◌, ◌≤◌, length, take, MatchResult};

use fields::limits::MAX_FILE;
use std::fs::File;
use std::io::Read;
use std::rt::Files;
use std::str::from_utf8;

// The number of a file that cannot be opened or read to its end.
pub const NO_FILE: u32 = 60;

// Reads until the buffer is full, the input ends or a read fails, and gives how many bytes stand at its start.
fn read_full<R: Read>(file: &mut R, buffer: &mut [u8]) -> usize
    ensures bound { result ≤ length buffer.new }
    ensures front { result ≡ length (take result buffer.new) }
    ensures room { length buffer.new ≡ length buffer.old }
{
    let mut done: usize = 0;
    while done < buffer.len() {
        let n = file.read(&mut buffer[done..]).unwrap_or(0);
        if n == 0 {
            break;
        }
        done += n;
    }
    done
}

// Does a further read give nothing? A failed one, as of a folder, and one that gives bytes are no end.
fn at_end<R: Read>(file: &mut R) -> bool {
    let mut more = [0u8; 1];
    matches!(file.read(&mut more), Ok(0))
}

// Ok where the file is whole. `read_full` stops at a failed read as it does at the end, so the end is asked for. More than MAX_FILE bytes are taken as
// they are: they are refused as too many, whatever follows.
fn read_opened<R: Read>(file: &mut R, buffer: &mut [u8]) -> Result<usize, usize>
    ensures bound { MatchResult result (λ n. n ≤ length buffer.new) (λ n. n ≤ length buffer.new) }
    ensures front { MatchResult result (λ n. n ≡ length (take n buffer.new)) (λ n. n ≡ length (take n buffer.new)) }
    ensures room { length buffer.new ≡ length buffer.old }
{
    let n = read_full(file, buffer);
    if MAX_FILE < n || at_end(file) {
        Ok(n)
    } else {
        Err(n)
    }
}

// Reads a file into the start of the buffer, and gives how many bytes stand there: as an Err where it cannot be opened or read to its end. A name that is
// no text names none.
pub fn read_file<R: Files>(files: &R, name: &[u8], buffer: &mut [u8]) -> Result<usize, usize>
    ensures bound { MatchResult result (λ n. n ≤ length buffer.new) (λ n. n ≤ length buffer.new) }
    ensures front { MatchResult result (λ n. n ≡ length (take n buffer.new)) (λ n. n ≡ length (take n buffer.new)) }
    ensures room { length buffer.new ≡ length buffer.old }
{
    let Ok(path) = from_utf8(name) else {
        return Err(0);
    };
    match File::open(files, path) {
        Ok(mut file) => read_opened(&mut file, buffer),
        Err(_) => Err(0),
    }
}
