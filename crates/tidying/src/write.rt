// Tidies a sheet: each model is written in its one way, and nothing else changes.

ghost use Rattle.std.specs.Prelude.{◌≡◌, ◌≤◌, length};
ghost use Rattle.fields.specs.Put.{Put, PutWhole};
ghost use Rattle.tidying.specs.Tidying.{tidy_model, tidy_line, tidy_sheet, sheet_tidied, buffer_tidied};
ghost use Rattle.tidying.specs.Tidying.{Line.ModelReady, Line.RuleFits, Laws.GoodSheet};

use canonical::write::write_model;
use fields::fault::AtLine;
use fields::lines::lines_of;
use fields::put::put;
use fields::split::first_fields;
use sheet::sheet::{SheetFault, read_sheet};

// What is wrong with the sheet, and on which line; or that the tidied sheet is longer than the buffer (`tidied_number` in specs/Tidying.antt).
#[derive(Clone, Copy)]
pub enum TidyFault {
    Sheet(AtLine<SheetFault>),
    TooLong,
}

impl From<AtLine<SheetFault>> for TidyFault {
    ghost use Rattle.tidying.specs.declared.write.TidyFault.TheVariants.{Sheet};

    ghost from_gives = { λ r f. f ≡ Sheet r };

    fn from(refused: AtLine<SheetFault>) -> TidyFault {
        TidyFault::Sheet(refused)
    }
}

// More than any line of a tidied sheet has.
const MAX_LINE: usize = 4096;

// Writes an accepted model in its one way.
fn put_model(buffer: &mut [u8], model: &[u8]) -> usize
    requires { ModelReady model.now (length buffer.old) }
    ensures { Put buffer.old buffer.new 0 (tidy_model model.now) result }
{
    write_model(model, buffer).unwrap()
}

// Writes a line of a good sheet: what stands before its model as it is, then the model.
fn write_rule(buffer: &mut [u8], line: &[u8]) -> usize
    requires { RuleFits line.now × (length (tidy_line line.now) ≤ length buffer.old) }
    ensures { Put buffer.old buffer.new 0 (tidy_line line.now) result }
{
    let ends = first_fields(line);
    let start = ends.second + 1;
    let head = put(buffer, 0, &line[..start]);
    let model = put_model(&mut buffer[head..], &line[start..ends.third]);
    put(buffer, head + model, b"\n")
}

// How long the tidied sheet is. Each line is written, for its length alone.
fn tidied_length(sheet: &[u8]) -> usize
    requires { GoodSheet sheet.now }
    ensures { result ≡ length (tidy_sheet sheet.now) }
{
    let mut written = [0; MAX_LINE];
    let mut total = 0;
    for line in lines_of(sheet) {
        total += write_rule(&mut written, line);
    }
    total
}

// Writes the tidied sheet: each line goes into the part of the buffer that the earlier ones left free.
fn write_rules(buffer: &mut [u8], sheet: &[u8])
    requires { GoodSheet sheet.now × (length (tidy_sheet sheet.now) ≤ length buffer.old) }
    ensures { PutWhole buffer.old buffer.new (tidy_sheet sheet.now) }
{
    let mut written = 0;
    for line in lines_of(sheet) {
        written += write_rule(&mut buffer[written..], line);
    }
}

// Writes the tidied sheet into the buffer. A refusal changes no byte of it.
pub fn tidy_sheet(sheet: &[u8], buffer: &mut [u8]) -> Result<usize, TidyFault>
    ensures value { result ≡ sheet_tidied sheet.now (length buffer.old) }
    ensures buffer_after { buffer.new ≡ buffer_tidied result (tidy_sheet sheet.now) buffer.old }
{
    read_sheet(sheet).outcome?;
    let total = tidied_length(sheet);
    if buffer.len() < total {
        return Err(TidyFault::TooLong);
    }
    write_rules(buffer, sheet);
    Ok(total)
}
