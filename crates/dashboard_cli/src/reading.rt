// A source is read to its end, or until it has given one byte more than the limit.
ghost use Rattle.std.specs.Prelude.{◌≡◌, ◌+◌, ◌-◌, ◌^◌, ◌<◌, IfOk, IfErr};
ghost use Rattle.dashboard_cli.specs.Works.{ReadsWhole};
ghost use Rattle.dashboard_cli.specs.Partial.{ReadsPart, CountsFault};

use loop_io::Source;
use std::alloc::Global;

/// The most bytes that a script or a plan may have.
pub const MOST_BYTES: usize = 1_048_576;

/// The most bytes that a trace may have.
pub const MOST_TRACE_BYTES: usize = 67_108_864;

const PIECE: usize = 4096;

/// Why an input was not read.
#[derive(Clone, Copy, Debug, PartialEq, Eq)]
pub enum ReadError {
    /// A read failed.
    Failed,
    /// There are more bytes than the most.
    TooLong,
    /// What was read found no memory.
    NoMemory,
}

/// Reads the source to its end. It asks for at most one byte more than `most`. Failed where a read failed, TooLong where there
/// are more than `most` bytes, NoMemory where they found none (this project's profile).
pub fn read_whole<S: Source>(
    alloc: Global,
    source: &mut S,
    most: usize,
) -> Result<Vec<u8>, ReadError>
    requires { most < 2 ^ 64 - 1 }
    ensures whole { IfOk result (λ bytes. ReadsWhole most (S.left source.old) (S.left source.new) bytes.items) }
    ensures part { IfErr result (ReadsPart most (S.left source.old) (S.left source.new)) }
    ensures sound { IfOk result (λ _. S.faults source.new ≡ S.faults source.old) }
    ensures failed { IfErr result (λ error. CountsFault error (S.faults source.old) (S.faults source.new)) }
{
    let mut bytes = Vec::new(alloc);
    let mut buffer = [0u8; PIECE];
    'pieces: while bytes.len() <= most {
        let room = PIECE.min(most + 1 - bytes.len());
        // With the room taken first, nothing that was read is lost.
        if bytes.reserve(room).is_err() {
            return Err(ReadError::NoMemory);
        }
        let Ok(count) = source.read(&mut buffer[..room]) else {
            return Err(ReadError::Failed);
        };
        if count == 0 {
            return Ok(bytes);
        }
        match bytes.extend_from_slice(&buffer[..count]) {
            Ok(()) => {}
            Err(_) => unreachable!(),
        }
    }
    Err(ReadError::TooLong)
}
