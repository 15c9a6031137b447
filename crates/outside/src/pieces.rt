// Whole reads and whole writes, made of as many calls of the system as it takes. Each call moves at
// least one byte, or is the last.
ghost use Rattle.std.specs.Prelude.{◌≡◌, ℕ, ◌≤◌, length, take, IfOk, IfSome, IsErrOf, OnOk, OnErr};
ghost use Rattle.std.specs.Io.KnownBytes.{Appends};

use crate::{SinkFailed, StoreErr};
use std::alloc::Global;
use std::io::{Read, Write};

/// How many bytes one read asks for at most.
const PIECE: usize = 4096;

/// The first `most` bytes that the reader has left, or all where it has fewer. `Failed` where a read of it fails.
pub fn read_whole<R: Read>(alloc: Global, reader: &mut R, most: usize) -> Result<Vec<u8>, StoreErr>
    ensures bytes { IfOk result
        (λ bytes. IfSome (R.remaining reader.old) (λ left. bytes.items ≡ take most left)) }
    ensures most { IfOk result (λ bytes. length bytes.items ≤ most) }
    ensures never_missing { IsErrOf result StoreErr.Missing → ⊥ }
{
    let mut bytes = Vec::new(alloc);
    let mut piece = [0; PIECE];
    for _ in 0..most {
        let wanted = PIECE.min(most - bytes.len());
        if wanted == 0 {
            break;
        }
        let Ok(taken) = reader.read(&mut piece[..wanted]) else {
            return Err(StoreErr::Failed);
        };
        if taken == 0 {
            break;
        }
        bytes.extend_from_slice(&piece[..taken])?;
    }
    Ok(bytes)
}

/// Writes all the bytes, and flushes them. Where it fails, some of them were written, from their front.
pub(crate) fn write_whole<W: Write>(writer: &mut W, bytes: &[u8]) -> Result<(), SinkFailed>
    ensures written { OnOk result
        (Appends (W.contents writer.old) (W.contents writer.new) bytes.now) }
    ensures cut { OnErr result ((n : ℕ) × (n ≤ length bytes.now)
        × Appends (W.contents writer.old) (W.contents writer.new) (take n bytes.now)) }
{
    let mut done = 0;
    while done < bytes.len() {
        match writer.write(&bytes[done..]) {
            Ok(taken) if taken > 0 => done += taken,
            _ => return Err(SinkFailed),
        }
    }
    writer.flush().map_err(|_| SinkFailed)
}
