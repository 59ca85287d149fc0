// Names and counts at a place of a model text.

ghost use mathlib.Core.{Path.◌≡◌, Bool.not};
ghost use Rattle.std.specs.Prelude.{◌+◌, ◌≤◌, length};
ghost use Rattle.model.specs.Fault.{name_from};
ghost use Rattle.canonical.specs.{Order.not_after, Writer.Place.behind_name, Writer.Place.behind_count};

use fields::bytes::is_inner;

// Where the name ends that begins at `at`.
pub(crate) fn name_end(text: &[u8], at: usize) -> usize
    requires { at ≤ length text.now }
    ensures { result ≡ behind_name text.now at }
{
    for i in at..text.len() {
        if !is_inner(text[i]) {
            return i;
        }
    }
    text.len()
}

// Behind the count at `at`; `at` itself where there is none.
pub(crate) fn count_end(text: &[u8], at: usize) -> usize
    requires { at ≤ length text.now }
    ensures { result ≡ behind_count text.now at }
{
    if text.get(at) != Some(&b'[') {
        return at;
    }
    for i in at..text.len() {
        if text[i] == b']' {
            return i + 1;
        }
    }
    text.len()
}

// Does the name from a to `end` come after the name at b, in byte order?
pub(crate) fn is_after(text: &[u8], a: usize, end: usize, b: usize) -> bool
    requires { (a ≤ length text.now) × (end ≡ behind_name text.now a) × (b ≤ length text.now) }
    ensures { result ≡ not (not_after (name_from text.now a) (name_from text.now b)) }
{
    let length = end - a;
    let most = length.min(text.len() - b);
    for i in 0..most {
        let c = text[a + i];
        let d = text[b + i];
        if c != d {
            // the name at b may have ended
            return d < c || !is_inner(d);
        }
    }
    // where the text ended first, the name at a goes on
    most < length
}
