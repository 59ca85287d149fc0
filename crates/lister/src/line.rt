// A line of the listing.

ghost use mathlib.Core.{Path.◌≡◌, List.[], List.◌∷◌, List.◌++◌};
ghost use Rattle.std.specs.Prelude.{◌+◌, ◌≤◌, ◌<◌, length};
ghost use Rattle.fields.specs.{Bytes.digits, Split.line_feed};
ghost use Rattle.fields.specs.Put.{Put};
ghost use Rattle.sheet.specs.{Cues.CueFits};
ghost use Rattle.lister.specs.{Listing.word, Listing.listing_line};

use fields::put::{put, put_number};
use fields::split::{TAB, first_fields, times_in};
use model::verdict::Verdict;

// What is printed of a verdict, or where the sheet lacks the kind.
fn word(said: Option<Verdict>) -> &'static [u8]
    ensures { result.now ≡ word said }
{
    match said {
        Some(Verdict::Complete) => b"complete",
        Some(Verdict::Open) => b"open",
        Some(Verdict::Dead) => b"dead",
        None => b"nosheet",
    }
}

fn number_length(number: usize) -> usize
    requires { number < 100000 }
    ensures { result ≡ length (digits number) }
{
    match number {
        0..=9 => 1,
        10..=99 => 2,
        100..=999 => 3,
        1000..=9999 => 4,
        _ => 5,
    }
}

// How long the line of a cue is, with its line feed.
pub(crate) fn line_length(cue: &[u8], said: Option<Verdict>) -> usize
    requires { CueFits cue.now }
    ensures { result ≡ length (listing_line cue.now said) + 1 }
{
    let ends = first_fields(cue);
    let children = times_in(&cue[ends.second + 1..], TAB);
    let fields = ends.third - ends.first - 1;
    fields + word(said).len() + number_length(children) + 3
}

// Writes the line of a cue: number, kind, what is said of it, how many children.
pub(crate) fn write_line(buffer: &mut [u8], cue: &[u8], said: Option<Verdict>) -> usize
    requires { CueFits cue.now × (length (listing_line cue.now said ++ (line_feed ∷ [])) ≤ length buffer.old) }
    ensures { Put buffer.old buffer.new 0 (listing_line cue.now said ++ (line_feed ∷ [])) result }
{
    let ends = first_fields(cue);
    let children = times_in(&cue[ends.second + 1..], TAB);
    let a = put(buffer, 0, &cue[ends.first + 1..ends.second]);
    let b = put(buffer, a, b"\t");
    let c = put(buffer, b, &cue[ends.second + 1..ends.third]);
    let d = put(buffer, c, b"\t");
    let e = put(buffer, d, word(said));
    let f = put(buffer, e, b"\t");
    let g = put_number(buffer, f, children);
    put(buffer, g, b"\n")
}
