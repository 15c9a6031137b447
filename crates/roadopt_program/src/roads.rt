// The road of a run: its file is read first, and the section table that it names behind it.
ghost use Rattle.std.specs.Prelude.{◌≡◌, ◌≤◌, IfOk, IsErrOf, None, Some, Ok};
ghost use Rattle.std.specs.Option.{option_map};
ghost use Rattle.outside.specs.Faults.{HasRisen};
ghost use Rattle.road_types.specs.Faults.{road_fault};
ghost use Rattle.road_file.specs.RoadOf.{table_name_of, road_of};
ghost use Rattle.roadopt_program.specs.Due.{keeps_rules};
ghost use Rattle.roadopt_program.specs.Ends.{said};
ghost use Rattle.roadopt_program.specs.Printed.{road_refused_line};
ghost use Rattle.roadopt_program.specs.inside.Outcomes.{MakesRoad, IsRoadMade, IsRoadRead, end_of};

use crate::ending::{Ending, missing, said};
use crate::inputs::{Lost, read_file, road_limit};
use crate::{Status, lines};
use outside::Store;
use road_file::{RoadErr, read_road, table_name};
use road_types::{Fault, Road};
use std::alloc::{AllocError, Global};

/// The end for bytes that are no road.
fn road_refused(alloc: Global, fault: Fault) -> Result<Ending, AllocError>
    ensures { IfOk result (λ e. end_of e ≡ said Status.RoadRefused (road_refused_line fault)) }
{
    let line = lines::road_refused_line(alloc, fault)?;
    Ok(said(Status::RoadRefused, line))
}

/// The road of these bytes and of those of its section table, or the end for the first fault.
fn make_road(
    alloc: Global,
    bytes: &[u8],
    csv: Option<&[u8]>,
) -> Result<Result<Road, Ending>, AllocError>
    ensures makes { IfOk result (MakesRoad (keeps_rules (road_of bytes.now (option_map (λ b. b.now) csv.entry)))) }
    ensures accepted { IfOk result (λ made. IfOk made (λ road. road_fault road ≡ None)) }
{
    match read_road(alloc, bytes, csv) {
        Ok(road) => Ok(Ok(road)),
        Err(RoadErr::Refused(fault)) => Ok(Err(road_refused(alloc, fault)?)),
        Err(RoadErr::NoMemory) => Err(AllocError),
    }
}

/// The road of these bytes and of the named table, or the end that is due where there is none.
#[tactic(auto, using(crate::proofs::RoadsLemmas::made_by_table, crate::proofs::RoadsLemmas::made_without_its_table))]
fn road_by_table<S: Store>(
    alloc: Global,
    bytes: &[u8],
    name: &str,
    store: &mut S,
) -> Result<Result<Road, Ending>, Lost>
    requires { table_name_of bytes.now ≡ Ok (Some name.now) }
    ensures made { IfOk result (IsRoadMade (S.files store.old) bytes.now) }
    ensures accepted { IfOk result (λ made. IfOk made (λ road. road_fault road ≡ None)) }
    ensures failed { IsErrOf result Lost.Failed → HasRisen (S.read_faults store.old) (S.read_faults store.new) }
    ensures files { S.files store.new ≡ S.files store.old }
    ensures writes { S.write_faults store.new ≡ S.write_faults store.old }
    ensures never_falls { S.read_faults store.old ≤ S.read_faults store.new }
{
    match read_file(alloc, name, road_limit(), store)? {
        Some(csv) => Ok(make_road(alloc, bytes, Some(csv.as_slice()))?),
        None => Ok(Err(missing(alloc))),
    }
}

/// The road of these bytes and of the table that they name, or the end that is due where there is none.
#[tactic(auto, using(crate::proofs::RoadsLemmas::made_alone, crate::proofs::RoadsLemmas::refused_early))]
fn road_by_bytes<S: Store>(
    alloc: Global,
    bytes: &[u8],
    store: &mut S,
) -> Result<Result<Road, Ending>, Lost>
    ensures made { IfOk result (IsRoadMade (S.files store.old) bytes.now) }
    ensures accepted { IfOk result (λ made. IfOk made (λ road. road_fault road ≡ None)) }
    ensures failed { IsErrOf result Lost.Failed → HasRisen (S.read_faults store.old) (S.read_faults store.new) }
    ensures files { S.files store.new ≡ S.files store.old }
    ensures writes { S.write_faults store.new ≡ S.write_faults store.old }
    ensures never_falls { S.read_faults store.old ≤ S.read_faults store.new }
{
    match table_name(alloc, bytes) {
        Ok(Some(name)) => road_by_table(alloc, bytes, name.as_str(), store),
        Ok(None) => Ok(make_road(alloc, bytes, None)?),
        Err(RoadErr::Refused(fault)) => Ok(Err(road_refused(alloc, fault)?)),
        Err(RoadErr::NoMemory) => Err(Lost::NoMemory),
    }
}

/// The road of the named file and of its section table, or the end that is due where there is none.
#[tactic(auto, using(crate::proofs::RoadsLemmas::read_and_made, crate::proofs::RoadsLemmas::no_road_there))]
pub(crate) fn find_road<S: Store>(
    alloc: Global,
    name: &str,
    store: &mut S,
) -> Result<Result<Road, Ending>, Lost>
    ensures read { IfOk result (IsRoadRead (S.files store.old) name.now (S.read_faults store.old) (S.read_faults store.new)) }
    ensures accepted { IfOk result (λ made. IfOk made (λ road. road_fault road ≡ None)) }
    ensures failed { IsErrOf result Lost.Failed → HasRisen (S.read_faults store.old) (S.read_faults store.new) }
    ensures files { S.files store.new ≡ S.files store.old }
    ensures writes { S.write_faults store.new ≡ S.write_faults store.old }
    ensures never_falls { S.read_faults store.old ≤ S.read_faults store.new }
{
    match read_file(alloc, name, road_limit(), store)? {
        Some(bytes) => road_by_bytes(alloc, bytes.as_slice(), store),
        None => Ok(Err(missing(alloc))),
    }
}
