//! Reading the source to its end.

ghost use Rattle.std.specs.Prelude.{◌≡◌};
ghost use Rattle.audit_start.specs.declared.reading.ReadEnd.TheVariants as ends;
ghost use Rattle.audit_start.specs.Steps.{ReadsSource};

use audit_io::source::Source;
use audit_model::buffers::Bytes;
use audit_model::memory::Memory;
use std::alloc::Global;

/// The maximum number of bytes of the source: the graph and, with `plans`, the table behind it.
pub const MOST_BYTES: usize = 67_108_864;

// The maximum number of bytes of one read.
const TURN: usize = 4096;

/// The reason why the source was not read to its end.
#[derive(Clone, Copy)]
pub enum ReadEnd {
    Failed,
    TooMany,
    Memory,
}

impl From<Memory> for ReadEnd {
    ghost from_gives = { λ _ e. e ≡ ends.Memory };

    fn from(_: Memory) -> ReadEnd {
        ReadEnd::Memory
    }
}

/// Reads all bytes of the source. Stops after one byte more than the limit, which shows that there
/// are too many.
pub fn read_source<S: Source>(alloc: Global, source: &mut S) -> Result<Bytes, ReadEnd>
    ensures { ReadsSource (S.state source.old) (S.state source.new) result }
{
    let mut bytes = Bytes::new(alloc);
    let mut buffer = [0u8; TURN];
    'turns: while bytes.len() <= MOST_BYTES {
        let wanted = TURN.min(MOST_BYTES + 1 - bytes.len());
        let room = &mut buffer[..wanted];
        match source.read(room) {
            Err(_) => return Err(ReadEnd::Failed),
            Ok(count) => {
                if count == 0 {
                    return Ok(bytes);
                }
                bytes.append(&room[..count])?;
            }
        }
    }
    Err(ReadEnd::TooMany)
}
