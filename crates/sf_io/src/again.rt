//! Reads and writes of the host, in the loops that a short or an interrupted one wants.

ghost use Rattle.std.specs.Prelude.{◌≤◌, ◌<◌, length, IfOk};

use crate::Failed;
use std::io::{ErrorKind, Read, Write};

/// Reads some bytes into the front of the piece, none only at the end or where the piece is empty; a read that
/// a signal interrupts is tried again.
pub fn read_some<F: Read>(file: &mut F, piece: &mut [u8]) -> Result<usize, Failed>
    ensures { IfOk result (λ n. n ≤ length piece.old) }
{
    for _ in 0..u64::MAX {
        match file.read(piece) {
            Ok(count) => return Ok(count),
            Err(fault) if fault.kind() == ErrorKind::Interrupted => {}
            Err(_) => return Err(Failed),
        }
    }
    Err(Failed)
}

/// Writes some first bytes; a write that a signal interrupts is tried again, and one that takes nothing of some
/// bytes is a fault.
pub fn write_some<F: Write>(file: &mut F, bytes: &[u8]) -> Result<usize, Failed>
    ensures bound { IfOk result (λ n. n ≤ length bytes.now) }
    ensures moves { IfOk result (λ n. 0 < length bytes.now → 0 < n) }
{
    for _ in 0..u64::MAX {
        match file.write(bytes) {
            Ok(count) if count > 0 || bytes.is_empty() => return Ok(count),
            Err(fault) if fault.kind() == ErrorKind::Interrupted => {}
            _ => return Err(Failed),
        }
    }
    Err(Failed)
}

/// Writes all of the bytes, as many at a time as the file takes. What a file took before is nowhere told,
/// so no clause says that all of them are in it.
pub fn write_whole<F: Write>(file: &mut F, bytes: &[u8]) -> Result<(), Failed> {
    let mut at = 0;
    while at < bytes.len() {
        at += write_some(file, &bytes[at..])?;
    }
    Ok(())
}
