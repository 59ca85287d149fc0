// Tests of a whole file, a sheet or a cue list.

ghost use Rattle.std.specs.Prelude.{◌≡◌};
ghost use Rattle.sheet.specs.AtLine.{whole};

use fields::fault::AtLine;
use fields::limits::MAX_FILE;
use fields::split::is_ended;

// Is the text no longer than a file may be, and does its last line have its line feed?
pub(crate) fn check_whole<F: Copy>(text: &[u8], long: F, unended: F) -> Result<(), AtLine<F>>
    ensures { result ≡ whole text.now long unended }
{
    if MAX_FILE < text.len() {
        return Err(AtLine {
            fault: long,
            line: 0,
        });
    }
    if !is_ended(text) {
        return Err(AtLine {
            fault: unended,
            line: 0,
        });
    }
    Ok(())
}
