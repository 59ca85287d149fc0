// Why a model is not written.

ghost use Rattle.std.specs.Prelude.{◌≡◌};
ghost use Rattle.canonical.specs.Canonical.{write_number};

use judge::fault::Misread;
use model::fault::{ModelFault, model_number};

// The model text's own refusal, or the text is longer than the buffer.
#[derive(Clone, Copy)]
pub enum WriteFault {
    Model(ModelFault),
    LongText,
}

// The number of a refusal in the tables of documents 01 and 02.
pub fn write_number(fault: WriteFault) -> u32
    ensures { result ≡ write_number fault }
{
    match fault {
        WriteFault::Model(f) => model_number(f),
        WriteFault::LongText => 51,
    }
}

// Why a model is not written, and where in its text; 0 where the text is longer than the buffer.
#[derive(Clone, Copy)]
pub struct Unwritten {
    pub fault: WriteFault,
    pub place: usize,
}

impl From<Misread> for Unwritten {
    ghost use Rattle.canonical.specs.Canonical.{unwritten};
    ghost use Rattle.canonical.specs.declared.fault.WriteFault.TheVariants.{Model};

    ghost from_gives = { λ m u. u ≡ unwritten (Model m.fault) m.place };

    fn from(misread: Misread) -> Unwritten {
        Unwritten {
            fault: WriteFault::Model(misread.fault),
            place: misread.place,
        }
    }
}
