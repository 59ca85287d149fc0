// What a sheet that is not tidied is refused with.

ghost use Rattle.std.specs.Prelude.{◌≡◌};
ghost use Rattle.tidying.specs.Tidying.{tidied_refusal};

use crate::write::TidyFault;
use sheet::number::sheet_number;
use sheet::refusal::{Refusal, Source, TOO_LONG};

// Of a sheet that was tidied, number and line are 0.
pub fn tidied_refusal(tidied: Result<usize, TidyFault>) -> Refusal
    ensures { result ≡ tidied_refusal tidied }
{
    let (number, line) = match tidied {
        Ok(_) => (0, 0),
        Err(TidyFault::Sheet(refused)) => (sheet_number(refused.fault), refused.line),
        Err(TidyFault::TooLong) => (TOO_LONG, 0),
    };
    Refusal {
        source: Source::Sheet,
        number,
        line,
    }
}
