ghost use Rattle.std.specs.Prelude.{◌≡◌, ◌<◌, ◌≤◌, take, IfOk, IfSome, IsErrOf, vec_len};
ghost use Rattle.std.specs.Io.KnownBytes.{Consumes, IsAtEnd};
ghost use Rattle.flt_io.specs.Fault.{Rose};

use crate::stream::{Source, StreamFault};
use std::alloc::Global;

/// Reads a source to its end, or `most` bytes, whichever comes first.
pub fn read_front<S: Source>(
    alloc: Global,
    most: usize,
    source: &mut S,
) -> Result<Vec<u8>, StreamFault>
    ensures read { IfOk result (λ bytes. IfSome (S.left source.old) (λ left. bytes.items ≡ take most left)) }
    ensures lost { IfOk result (λ bytes. Consumes (S.left source.old) (S.left source.new) bytes.items) }
    ensures few { IfOk result (λ bytes. vec_len bytes ≤ most) }
    ensures end { IfOk result (λ bytes. vec_len bytes < most → IsAtEnd (S.left source.new)) }
    ensures later { S.faults source.old ≤ S.faults source.new }
    ensures cause { IsErrOf result StreamFault.Failed → Rose (S.faults source.old) (S.faults source.new) }
{
    let mut bytes = Vec::new(alloc);
    let mut piece = [0u8; 4096];
    while bytes.len() < most {
        let room = piece.len().min(most - bytes.len());
        let count = source.pull(&mut piece[..room])?;
        if count == 0 {
            return Ok(bytes);
        }
        bytes.extend_from_slice(&piece[..count])?;
    }
    Ok(bytes)
}
