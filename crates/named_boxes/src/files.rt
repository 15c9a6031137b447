// Files and the roads in them.
ghost use Rattle.std.specs.Prelude.{◌≡◌, None, IfOk, IfSome};
ghost use Rattle.road_types.specs.Faults.{road_fault};

use outside::{DiskStore, Store, StoreErr};
use road_file::{RoadErr, read_road, table_name};
use road_types::{LONGEST_FILE, Road};
use std::alloc::{AllocError, Global};
use trial_roads::{GREATEST_NUMBER, trial_road};

/// The trial road of a number, by a name such as `trial 3`, or else the road of a file and of the section table that it names;
/// none where there is no such road or file. `AllocError` where memory is wanting.
pub fn road_of(rt: &HostRuntime, name: &str) -> Result<Option<Road>, AllocError>
    ensures { IfOk result (λ found. IfSome found (λ road. road_fault road ≡ None)) }
{
    match name.strip_prefix("trial ") {
        Some(number) => trial(rt.alloc(), number),
        None => road_of_file(rt, name),
    }
}

/// The trial road of the number that a text is, if it is one.
fn trial(alloc: Global, number: &str) -> Result<Option<Road>, AllocError>
    ensures { IfOk result (λ found. IfSome found (λ road. road_fault road ≡ None)) }
{
    match number.parse::<u64>() {
        Ok(number) if number <= GREATEST_NUMBER => Ok(Some(trial_road(alloc, number)?)),
        _ => Ok(None),
    }
}

/// The road of a file and of the section table that it names.
fn road_of_file(rt: &HostRuntime, name: &str) -> Result<Option<Road>, AllocError>
    ensures { IfOk result (λ found. IfSome found (λ road. road_fault road ≡ None)) }
{
    let alloc = rt.alloc();
    let Some(bytes) = file(rt, name)? else {
        return Ok(None);
    };
    match table_name(alloc, bytes.as_slice()) {
        Ok(Some(table)) => {
            let Some(csv) = file(rt, table.as_str())? else {
                return Ok(None);
            };
            read(alloc, bytes.as_slice(), Some(csv.as_slice()))
        }
        Ok(None) => read(alloc, bytes.as_slice(), None),
        Err(RoadErr::NoMemory) => Err(AllocError),
        Err(RoadErr::Refused(_)) => Ok(None),
    }
}

/// The road of these bytes and of those of its table, if it is one.
fn read(alloc: Global, bytes: &[u8], csv: Option<&[u8]>) -> Result<Option<Road>, AllocError>
    ensures { IfOk result (λ found. IfSome found (λ road. road_fault road ≡ None)) }
{
    match read_road(alloc, bytes, csv) {
        Ok(road) => Ok(Some(road)),
        Err(RoadErr::NoMemory) => Err(AllocError),
        Err(RoadErr::Refused(_)) => Ok(None),
    }
}

/// The bytes of a file, of a long one the first 4,194,305; none where it can't be read. `AllocError` where memory is wanting.
pub fn file(rt: &HostRuntime, name: &str) -> Result<Option<Vec<u8>>, AllocError> {
    let mut store = DiskStore::new(rt);
    match store.read(rt.alloc(), name, LONGEST_FILE + 1) {
        Ok(bytes) => Ok(Some(bytes)),
        Err(StoreErr::NoMemory) => Err(AllocError),
        Err(_) => Ok(None),
    }
}
