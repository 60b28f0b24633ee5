//! Reading a text of at most a given length.

ghost use Rattle.std.specs.Prelude.{◌≡◌, ◌<◌, ◌≤◌, length, take, IfOk, IfErr, OnOk, IsErrOf, IfSome, vec_len};
ghost use Rattle.std.specs.Io.{ReadsAtMost};
ghost use Rattle.std.specs.Io.KnownBytes.{Consumes, IsAtEnd};

use crate::fault::Fault;
use std::alloc::Global;
use std::io::{ErrorKind, Read};

/// How many bytes are read at once.
const CHUNK: usize = 8192;

/// One read, repeated where a signal interrupts it.
fn read_once<R: Read>(reader: &mut R, chunk: &mut [u8]) -> Result<usize, Fault>
    ensures bound { ReadsAtMost result chunk.new }
    ensures ok { IfOk result
        (λ n. Consumes (R.remaining reader.old) (R.remaining reader.new) (take n chunk.new)) }
    ensures end { IfOk result
        (λ n. n ≡ 0 → 0 < length chunk.old → IsAtEnd (R.remaining reader.new)) }
    ensures err { IfErr result (λ fault. fault ≡ Fault.CannotRead) }
{
    for _ in 0..u64::MAX {
        match reader.read(chunk) {
            Ok(count) => return Ok(count),
            Err(error) => {
                if error.kind() != ErrorKind::Interrupted {
                    return Err(Fault::CannotRead);
                }
            }
        }
    }
    Err(Fault::CannotRead)
}

/// All the bytes that a reader has left, if they are at most `greatest`. One byte more is read at most.
pub fn read_all<R: Read>(alloc: Global, greatest: u32, reader: &mut R) -> Result<Vec<u8>, Fault>
    ensures fits { IfOk result (λ bytes. vec_len bytes ≤ greatest) }
    ensures end { OnOk result (IsAtEnd (R.remaining reader.new)) }
    ensures long { IsErrOf result Fault.TooLong
        → IfSome (R.remaining reader.old) (λ xs. greatest < length xs) }
    ensures whole { IfOk result
        (λ bytes. IfSome (R.remaining reader.old) (λ xs. bytes.items ≡ xs)) }
{
    let mut bytes = Vec::new(alloc);
    let mut chunk = [0u8; CHUNK];
    let greatest = greatest as usize;
    for _ in 0..u64::MAX {
        let most = (greatest - bytes.len() + 1).min(CHUNK);
        let count = read_once(reader, &mut chunk[..most])?;
        if count == 0 {
            return Ok(bytes);
        }
        bytes.extend_from_slice(&chunk[..count])?;
        if bytes.len() > greatest {
            return Err(Fault::TooLong);
        }
    }
    Err(Fault::CannotRead)
}
