// The lines of a report: texts, and rows of tables, each a record of `csv`.
ghost use Rattle.std.specs.Prelude.{◌≡◌, ◌++◌, ◌∷◌, [], IfOk, map, codes};
ghost use Rattle.csv.specs.Writing.{default_writer, row_text};
ghost use Rattle.report.specs.Lines.{Adds};
ghost use Rattle.report.specs.Reports.{said_line};

use csv::WriterBuilder;
use std::alloc::{AllocError, Global};

/// Adds a line.
pub(crate) fn push_line(line: &str, out: &mut Vec<u8>) -> Result<(), AllocError>
    ensures { IfOk result (λ _. out.new.items ≡ out.old.items ++ (line.now ++ codes "\n")) }
{
    out.extend_from_slice(line.as_bytes())?;
    out.push(b'\n')?;
    Ok(())
}

/// Adds a line that is this text.
pub(crate) fn push_said(line: &str, out: &mut Vec<u8>) -> Result<(), AllocError>
    ensures { IfOk result (λ _. Adds (said_line line.now ∷ []) out.old.items out.new.items) }
{
    push_line(line, out)
}

/// The bytes of a record.
fn record_bytes(alloc: Global, cells: &[&[u8]]) -> Result<Vec<u8>, AllocError>
    ensures { IfOk result (λ v. v.items ≡ row_text default_writer (map (λ f. f.now) cells.now)) }
{
    let mut writer = WriterBuilder::new().from_writer(Vec::new(alloc));
    if writer.write_fields(cells).is_err() {
        return Err(AllocError);
    }
    match writer.into_inner() {
        Ok(bytes) => Ok(bytes),
        Err(_) => Err(AllocError),
    }
}

/// Adds a row of cells.
pub(crate) fn push_row(alloc: Global, cells: &[&[u8]], out: &mut Vec<u8>) -> Result<(), AllocError>
    ensures { IfOk result (λ _. out.new.items ≡ out.old.items ++ row_text default_writer (map (λ f. f.now) cells.now)) }
{
    let bytes = record_bytes(alloc, cells)?;
    out.extend_from_slice(bytes.as_slice())
}
