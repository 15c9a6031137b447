// The document of a road file.
ghost use Rattle.std.specs.Prelude.{Result, Ok, Err};
ghost use Rattle.toml.specs.Parse.{parse_document};
ghost use Rattle.toml.specs.View.{table_view};
ghost use Rattle.road_file.specs.RoadOf.{text_in, of_parsed, document_of};
ghost use Rattle.road_file.specs.Step.{MayAnswerAs};

use crate::RoadErr;
use road_types::{Fault, LONGEST_FILE};
use std::alloc::Global;
use toml::Table;

/// The text of a file; refused where it is too long or isn't UTF-8.
fn text(bytes: &[u8]) -> Result<&str, RoadErr>
    ensures { MayAnswerAs (λ s. s.now) result (text_in bytes.now) }
{
    if bytes.len() > LONGEST_FILE {
        return Err(RoadErr::Refused(Fault::F1));
    }
    match std::str::from_utf8(bytes) {
        Ok(text) => Ok(text),
        Err(_) => Err(RoadErr::Refused(Fault::F2)),
    }
}

fn parsed(alloc: Global, text: &str) -> Result<Table, RoadErr>
    ensures { MayAnswerAs table_view result (of_parsed (parse_document text.now)) }
{
    match toml::table_from_str(alloc, text) {
        Ok(table) => Ok(table),
        Err(error) => {
            if error.is_memory() {
                Err(RoadErr::NoMemory)
            } else {
                Err(RoadErr::Refused(Fault::F2))
            }
        }
    }
}

/// The document of a file; refused where the file is too long, isn't UTF-8 or isn't a document.
#[tactic(auto, unfolding(crate::specs::RoadOf::document_of))]
pub(crate) fn document(alloc: Global, bytes: &[u8]) -> Result<Table, RoadErr>
    ensures { MayAnswerAs table_view result (document_of bytes.now) }
{
    parsed(alloc, text(bytes)?)
}
