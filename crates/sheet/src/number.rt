// The numbers of a sheet's refusals in document 01's table.

ghost use Rattle.std.specs.Prelude.{◌≡◌};
ghost use Rattle.sheet.specs.Sheet.{sheet_number};

use crate::sheet::SheetFault;
use model::fault::model_number;

pub fn sheet_number(fault: SheetFault) -> u32
    ensures { result ≡ sheet_number fault }
{
    match fault {
        SheetFault::LongFile => 20,
        SheetFault::Unended => 21,
        SheetFault::ManyRules => 22,
        SheetFault::BadFields => 23,
        SheetFault::NoKind => 24,
        SheetFault::Repeated => 25,
        SheetFault::Model(f) => model_number(f),
    }
}
