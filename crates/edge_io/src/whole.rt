// A whole source, and a whole text.
ghost use Rattle.std.specs.Prelude.{◌≡◌, ℕ, ◌<◌, ◌≤◌, ◌↔◌, List, length, IfOk, OnOk, OnErr, IfSome, IsErr, IsErrOf};
ghost use Rattle.std.specs.Io.KnownBytes.{Appends, IsAtEnd};
ghost use Rattle.edge_io.specs.Faults.{Rose};
ghost use Rattle.edge_io.specs.Streams.{TakesFront, AppendsPrefix};

use crate::{Sink, Source};
use std::alloc::Global;

/// How many bytes a read asks for.
const PIECE: usize = 8192;

/// Why not all of a source was read.
#[derive(Clone, Copy, Debug, PartialEq, Eq)]
pub enum ReadError {
    /// A read failed, and the source's count of faults rose.
    Fault = 1,
    /// The source gave more bytes than the limit.
    TooLong = 2,
    /// There was no memory.
    NoMemory = 3,
}

/// A write failed, and the sink's count of faults rose.
#[derive(Clone, Copy, Debug, PartialEq, Eq)]
pub struct WriteFault;

/// All that is left of the source, of at most `limit` bytes, `limit` being at most 4194304.
///
/// `TooLong` comes exactly where more than `limit` bytes were given in this call, and `Fault` only where the source's
/// count of faults rose. After an `Err` the bytes that were given are gone from the front of what the source has left.
pub fn read_all<S: Source>(
    alloc: Global,
    source: &mut S,
    limit: usize,
) -> Result<Vec<u8>, ReadError>
    requires { limit ≤ 4194304 }

    ensures all { IfOk result (λ v. IfSome (S.left source.old) (λ left. v.items ≡ left)) }
    ensures end { OnOk result (IsAtEnd (S.left source.new)) }
    ensures within { IfOk result (λ v. length v.items ≤ limit) }
    ensures given { TakesFront (S.left source.old) (S.left source.new)
        (λ given. IsErrOf result ReadError.TooLong ↔ (limit < length given)) }
    ensures too_long { IsErrOf result ReadError.TooLong →
        IfSome (S.left source.old) (λ left. limit < length left) }
    ensures refused { IfSome (S.left source.old) (λ left. limit < length left → IsErr result) }

    ensures fault { IsErrOf result ReadError.Fault →
        Rose (S.faults source.old) (S.faults source.new) }
    ensures faults { S.faults source.old ≤ S.faults source.new }
{
    let mut bytes = Vec::new(alloc);
    let mut buf = [0u8; PIECE];
    loop {
        let Ok(count) = source.read(&mut buf) else {
            return Err(ReadError::Fault);
        };
        if count == 0 {
            return Ok(bytes);
        }
        if count > limit - bytes.len() {
            return Err(ReadError::TooLong);
        }
        if bytes.extend_from_slice(&buf[..count]).is_err() {
            return Err(ReadError::NoMemory);
        }
    }
}

/// Writes all of the bytes. Where the sink fails, a prefix of them was taken.
pub fn write_all<K: Sink>(sink: &mut K, bytes: &[u8]) -> Result<(), WriteFault>
    ensures all { OnOk result (Appends (K.taken sink.old) (K.taken sink.new) bytes.now) }
    ensures prefix { OnErr result (AppendsPrefix (K.taken sink.old) (K.taken sink.new) bytes.now) }
    ensures fault { OnErr result (Rose (K.faults sink.old) (K.faults sink.new)) }
    ensures faults { K.faults sink.old ≤ K.faults sink.new }
{
    let mut rest = bytes;
    while !rest.is_empty() {
        let Ok(count) = sink.write(rest) else {
            return Err(WriteFault);
        };
        rest = &rest[count..];
    }
    Ok(())
}
