// What a listing that is not written is refused with.

ghost use Rattle.std.specs.Prelude.{◌≡◌};
ghost use Rattle.lister.specs.Listed.{listed_refusal};

use crate::listing::ListFault;
use fields::fault::cue_number;
use sheet::number::sheet_number;
use sheet::refusal::{Refusal, Source, TOO_LONG};

// Of a listing that was refused. Of one that was written, number and line are 0.
pub fn listed_refusal(listed: Result<usize, ListFault>) -> Refusal
    ensures { result ≡ listed_refusal listed }
{
    match listed {
        Ok(_) => Refusal {
            source: Source::Listing,
            number: 0,
            line: 0,
        },
        Err(ListFault::Sheet(refused)) => Refusal {
            source: Source::Sheet,
            number: sheet_number(refused.fault),
            line: refused.line,
        },
        Err(ListFault::Cues(refused)) => Refusal {
            source: Source::Cues,
            number: cue_number(refused.fault),
            line: refused.line,
        },
        Err(ListFault::TooLong) => Refusal {
            source: Source::Listing,
            number: TOO_LONG,
            line: 0,
        },
    }
}
