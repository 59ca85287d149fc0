// The last line of a listing.

ghost use mathlib.Core.{Path.◌≡◌, List.[], List.◌∷◌, List.◌++◌, List.map};
ghost use Rattle.std.specs.Prelude.{◌≤◌, length};
ghost use Rattle.fields.specs.{Limits.max_file, Split.line_feed};
ghost use Rattle.fields.specs.Put.{Put};
ghost use Rattle.lister.specs.Listing.{word, times_among, totals, total_line};

use fields::put::{put, put_number};
use model::verdict::Verdict;

// How many numbers the line has.
const TOTALS: usize = 5;

// Enough for every such line: `total`, five times a tab and 5 digits, a line feed.
pub(crate) const TOTAL_SIZE: usize = 36;

// Of how many cues that is said.
fn times_said(said: &[Option<Verdict>], one: Option<Verdict>) -> usize
    ensures { result ≡ times_among (word one) (map word said.now) }
{
    said.iter().filter(|other| **other == one).count()
}

// How many cues there are, and of how many each word is said.
fn totals_of(said: &[Option<Verdict>]) -> [usize; TOTALS]
    ensures { result ≡ totals (map word said.now) }
{
    [
        said.len(),
        times_said(said, Some(Verdict::Complete)),
        times_said(said, Some(Verdict::Open)),
        times_said(said, Some(Verdict::Dead)),
        times_said(said, None),
    ]
}

// Writes the last line by what is said of each cue.
pub(crate) fn write_total(buffer: &mut [u8], said: &[Option<Verdict>]) -> usize
    requires { (length said.now ≤ max_file) × (36 ≤ length buffer.old) }
    ensures { Put buffer.old buffer.new 0 (total_line (map word said.now) ++ (line_feed ∷ [])) result }
{
    let totals = totals_of(said);
    let mut end = put(buffer, 0, b"total");
    for number in totals {
        end = put(buffer, end, b"\t");
        end = put_number(buffer, end, number);
    }
    put(buffer, end, b"\n")
}
