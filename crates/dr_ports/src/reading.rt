//! Reading a source to its end, or to one byte past a limit.

ghost use Rattle.std.specs.Prelude.{◌≡◌, ◌+◌, ◌^◌, ◌<◌, ◌≤◌, [], vec_len, length, take, drop, option_map, IfOk, OnErr, IfSome, IsErrOf};
ghost use Rattle.dr_ports.specs.Ports.{Rose, HasCause, prepended};
ghost use Rattle.dr_ports.specs.Reading.{GaveAtMost};
ghost use Rattle.dr_ports.specs.declared.reading.InputError.TheVariants.{Memory};

use crate::port::Source;
use dr_base::Failed;
use std::alloc::{AllocError, Global};
use thiserror::Error;

/// Why a source wasn't read whole.
#[derive(Clone, Copy, Debug, Error)]
pub enum InputError {
    /// There was no memory for the bytes.
    #[error("there was no memory for the bytes")]
    Memory,
    /// The source holds more than the limit.
    #[error("the source holds more than the limit")]
    TooLong,
    /// A read failed.
    #[error("a read failed")]
    Fault,
}

impl From<AllocError> for InputError {
    ghost from_gives = { λ _ e. e ≡ Memory };

    fn from(_: AllocError) -> Self {
        InputError::Memory
    }
}

/// Reads once, into a piece from a place on.
fn read_at<S: Source>(source: &mut S, into: &mut [u8], at: usize) -> Result<usize, Failed>
    requires { at < length into.old }
    ensures bound { IfOk result (λ count. at + count ≤ length into.old) }
    ensures kept { take at into.new ≡ take at into.old }
    ensures content { IfOk result (λ count.
        (S.at source.old).left ≡ prepended (take count (drop at into.new)) (S.at source.new).left) }
    ensures end { IfOk result (λ count. count ≡ 0 →
        IfSome (S.at source.new).left (λ bytes. bytes ≡ [])) }
    ensures err { OnErr result ((S.at source.new).left ≡ (S.at source.old).left) }
    ensures cause { HasCause (S.at source.old).faults (S.at source.new).faults result }
{
    source.read(&mut into[at..])
}

/// Reads until the piece is full or the source ends, and answers how many bytes it read.
fn fill<S: Source>(source: &mut S, into: &mut [u8]) -> Result<usize, Failed>
    ensures bound { IfOk result (λ count. count ≤ length into.old) }
    ensures content { IfOk result (λ count.
        (S.at source.old).left ≡ prepended (take count into.new) (S.at source.new).left) }
    ensures end { IfOk result (λ count. count < length into.old →
        IfSome (S.at source.new).left (λ bytes. bytes ≡ [])) }
    ensures part { OnErr result
        (GaveAtMost (length into.old) (S.at source.old).left (S.at source.new).left) }
    ensures cause { HasCause (S.at source.old).faults (S.at source.new).faults result }
{
    let mut count = 0;
    'pieces: while count < into.len() {
        match read_at(source, into, count) {
            Err(Failed) => return Err(Failed),
            Ok(0) => return Ok(count),
            Ok(more) => count += more,
        }
    }
    Ok(count)
}

/// Reads a source to its end. It takes all its memory first, room for one byte past the limit, and
/// reads no further.
pub fn read_whole<S: Source>(
    alloc: Global,
    source: &mut S,
    limit: usize,
) -> Result<Vec<u8>, InputError>
    requires { limit < 2 ^ 32 }
    ensures fits { IfOk result (λ bytes. vec_len bytes ≤ limit) }
    ensures whole { IfOk result (λ bytes.
        IfSome (S.at source.old).left (λ left. bytes.items ≡ left)) }
    ensures too_long { IsErrOf result InputError.TooLong →
        IfSome (S.at source.old).left (λ left. limit < length left) }
    ensures fault { IsErrOf result InputError.Fault →
        Rose (S.at source.old).faults (S.at source.new).faults }
    ensures quiet { (IsErrOf result InputError.Fault → ⊥) →
        (S.at source.new).faults ≡ (S.at source.old).faults }
    ensures later { (S.at source.old).faults ≤ (S.at source.new).faults }

    // What is left in the source: nothing; or all after one byte past the limit; or, where a read
    // failed, all after what came before; or, for want of memory, all.
    ensures drained { IfOk result (λ _. IfSome (S.at source.new).left (λ left. left ≡ [])) }
    ensures past { IsErrOf result InputError.TooLong →
        (S.at source.new).left ≡ option_map (drop (limit + 1)) (S.at source.old).left }
    ensures part { IsErrOf result InputError.Fault →
        GaveAtMost (limit + 1) (S.at source.old).left (S.at source.new).left }
    ensures unread { IsErrOf result InputError.Memory → source.new ≡ source.old }
{
    let mut bytes = vec![in alloc; 0; limit + 1]?;
    match fill(source, bytes.as_mut_slice()) {
        Err(Failed) => Err(InputError::Fault),
        Ok(count) => {
            if count > limit {
                return Err(InputError::TooLong);
            }
            bytes.truncate(count);
            Ok(bytes)
        }
    }
}
