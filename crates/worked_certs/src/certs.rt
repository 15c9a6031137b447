// Certificates that are read whole and written again.
ghost use Rattle.std.specs.Prelude.{◌≡◌, None};
ghost use Rattle.road_types.specs.Faults.{road_fault};
ghost use Rattle.cert_text.specs.Certs.{IsSpelledCert};

use crate::files::{file, road};
use crate::shown;
use cert_text::{Cert, read_cert, write_cert};
use numbers::Frac;
use plan_text::TextErr;
use road_types::Road;
use std::alloc::{AllocError, Global};

/// What the certificate of a file states for the road of another, and whether the text that is written of it behind the bytes `before:`
/// is the file's; or the refused line.
pub(crate) fn read(rt: &HostRuntime, names: &str) -> Result<String, AllocError> {
    let (road_name, cert_name) = names.split_once(' ').unwrap_or((names, ""));
    let bytes = file(rt, cert_name)?;
    read_on(rt, road_name, bytes.as_slice())
}

/// The same, where the line of the file with a number, from 1, is another: `with ROAD CERT NUMBER LINE`.
pub(crate) fn with_line(rt: &HostRuntime, rest: &str) -> Result<String, AllocError> {
    let alloc = rt.alloc();
    let (road_name, rest) = rest.split_once(' ').unwrap_or((rest, ""));
    let (cert_name, rest) = rest.split_once(' ').unwrap_or((rest, ""));
    let (number, line) = rest.split_once(' ').unwrap_or((rest, ""));
    let bytes = file(rt, cert_name)?;
    let line = shown::unescaped(alloc, line)?;
    let other = other_line(
        alloc,
        bytes.as_slice(),
        shown::number(number),
        line.as_bytes(),
    )?;
    read_on(rt, road_name, other.as_slice())
}

/// The bytes with another line in the place of the one with this number, from 1.
fn other_line(
    alloc: Global,
    bytes: &[u8],
    number: usize,
    line: &[u8],
) -> Result<Vec<u8>, AllocError> {
    let mut all = Vec::new(alloc);
    let mut at = 1usize;
    for old in bytes.split_inclusive(|byte| *byte == b'\n') {
        if at == number {
            all.extend_from_slice(line)?;
            all.push(b'\n')?;
        } else {
            all.extend_from_slice(old)?;
        }
        at = at.saturating_add(1);
    }
    Ok(all)
}

fn read_on(rt: &HostRuntime, road_name: &str, bytes: &[u8]) -> Result<String, AllocError> {
    let alloc = rt.alloc();
    match road(rt, road_name)? {
        Some(road) => {
            if let Some(_) = road.check() {
                String::from_str(alloc, "no road")
            } else {
                told(alloc, &road, bytes)
            }
        }
        None => String::from_str(alloc, "no road"),
    }
}

fn told(alloc: Global, road: &Road, bytes: &[u8]) -> Result<String, AllocError>
    requires { road_fault road.now ≡ None }
{
    match read_cert(alloc, road, bytes) {
        Ok(cert) => stated(alloc, road, &cert, bytes),
        Err(TextErr::Bad { line }) => format!(in alloc; "refused at line {line}"),
        Err(TextErr::NoMemory) => Err(AllocError),
    }
}

fn stated(alloc: Global, road: &Road, cert: &Cert, bytes: &[u8]) -> Result<String, AllocError>
    requires accepted { road_fault road.now ≡ None }
    requires spelled { IsSpelledCert road.now cert.now }
{
    let mut out = b"before:".to_vec(alloc)?;
    write_cert(alloc, road, cert, &mut out)?;
    let end = if out.as_slice().strip_prefix(b"before:".as_slice()) == Some(bytes) {
        "same"
    } else {
        "other"
    };
    let cost = fraction(alloc, &cert.cost)?;
    let bound = fraction(alloc, &cert.bound)?;
    let plan = shown::option(alloc, den(cert))?;
    let (cost, bound, plan) = (cost.as_str(), bound.as_str(), plan.as_str());
    format!(in alloc; "plan over {plan}, cost {cost}, bound {bound}, {end} again")
}

fn den(cert: &Cert) -> Option<i128> {
    match &cert.plan {
        Some(plan) => Some(plan.den),
        None => None,
    }
}

fn fraction(alloc: Global, value: &Option<Frac>) -> Result<String, AllocError> {
    match value {
        Some(value) => value.text(alloc),
        None => String::from_str(alloc, "none"),
    }
}
