// From the bytes of a section table to its sections.
ghost use Rattle.std.specs.Prelude.{◌≡◌, ℕ, List, [], None, true, false, IfOk, IfErr, OnOk};
ghost use Rattle.section_tables.specs.declared.error.TableErr.TheVariants.{NoMemory};
ghost use Rattle.section_tables.specs.Steps.{MayAnswer};
ghost use Rattle.section_tables.specs.Tables.{sections_of, sections_in};
ghost use Rattle.section_tables.specs.inside.Progress.{HasRead, IsUnderHeader, HasPut, StopsAt};
ghost use Rattle.csv.specs.Reading.{records, default_config, strip_bom};

use crate::TableErr;
use crate::records::{is_header, section};
use csv::{ByteRecord, Error, Reader, ReaderBuilder};
use road_types::{LONGEST_FILE, Listed, Section};
use std::alloc::Global;

/// Reads a section table of at most 4 MiB: a first record that names the eight columns, and a record for each section.
///
/// Refused exactly where the bytes aren't such a table; a cell of more than four slabs is none of this call's faults.
/// `NoMemory` where memory is wanting.
#[tactic(auto, unfolding(crate::specs::Tables::sections_of))]
pub fn read_sections(alloc: Global, bytes: &[u8]) -> Result<Listed<Section>, TableErr>
    ensures { MayAnswer result (sections_of bytes.now) }
{
    if bytes.len() > LONGEST_FILE {
        return Err(TableErr::Refused);
    }
    sections(alloc, bytes)
}

/// The sections of a table of any length.
fn sections(alloc: Global, bytes: &[u8]) -> Result<Listed<Section>, TableErr>
    ensures { MayAnswer result (sections_in (records default_config (strip_bom bytes.now))) }
{
    // A record of another length is refused as the record that it is, so the reader need not refuse it.
    let mut rdr = ReaderBuilder::new()
        .has_headers(false)
        .flexible(true)
        .from_reader(alloc, bytes);
    let sections = sections_read(alloc, &mut rdr);
    drop(rdr);
    sections
}

/// The sections of a table that is read from its start.
fn sections_read(alloc: Global, rdr: &mut Reader<&[u8]>) -> Result<Listed<Section>, TableErr>
    ensures { (text : List ℕ) → HasRead text [] rdr.old
        → MayAnswer result (sections_in (records default_config text)) }
{
    if begins_with_header(alloc, rdr)? {
        sections_under(alloc, rdr)
    } else {
        Err(TableErr::Refused)
    }
}

/// Whether the first record names the columns.
fn begins_with_header(alloc: Global, rdr: &mut Reader<&[u8]>) -> Result<bool, TableErr>
    ensures named { IfOk result (λ named. (named ≡ true) → (text : List ℕ) → HasRead text [] rdr.old
        → IsUnderHeader text [] rdr.new) }
    ensures unnamed { IfOk result (λ named. (named ≡ false) → (text : List ℕ) → HasRead text [] rdr.old
        → sections_in (records default_config text) ≡ None) }
    ensures wanting { IfErr result (λ error. error ≡ NoMemory) }
{
    let mut header = ByteRecord::new(alloc);
    let Ok(is_there) = rdr.read_byte_record(&mut header) else {
        return Err(TableErr::NoMemory);
    };
    Ok(is_there && is_header(&header))
}

/// The sections of the records that are left, where the first one was read and names the columns.
fn sections_under(alloc: Global, rdr: &mut Reader<&[u8]>) -> Result<Listed<Section>, TableErr>
    ensures { (text : List ℕ) → IsUnderHeader text [] rdr.old
        → MayAnswer result (sections_in (records default_config text)) }
{
    let mut sections = Vec::new(alloc);
    for record in rdr.byte_records() {
        if let Err(error) = put_section(alloc, record, &mut sections) {
            drop(sections);
            return Err(error);
        }
    }
    Ok(Listed::new(sections))
}

/// Puts the section of a record behind the others.
fn put_section(
    alloc: Global,
    read: Result<ByteRecord, Error>,
    sections: &mut Vec<Section>,
) -> Result<(), TableErr>
    ensures put { OnOk result (HasPut read sections.old.items sections.new.items) }
    ensures stopped { IfErr result (StopsAt read) }
{
    let Ok(row) = read else {
        return Err(TableErr::NoMemory);
    };
    let found = section(alloc, &row);
    drop(row);
    sections.push(found?)?;
    Ok(())
}
