//! A small buffer that collects the fields of an outcome or of a head. The fields are then appended
//! to the checkpoint in one call.

ghost use Rattle.std.specs.Prelude.{◌≡◌, ◌≤◌, [], length};
ghost use Rattle.ckpt_format.specs.Written.{AppendsBytes};

use std::marker::Model;

/// A buffer of up to 80 bytes, the size of an outcome in the second version of the format.
#[derive(Drop)]
pub(crate) struct OutcomeBytes {
    bytes: [u8; 80],
    len: usize,
}

impl Model for OutcomeBytes {
    ghost use Rattle.audit_model.specs.Room.{RoomyBytes, roomy_code};
    ghost use Rattle.std.specs.Coded.{coded_ℕ};
    ghost use Rattle.std.specs.Prelude.{◌-◌, ◌≤◌, take};

    ghost Value = { RoomyBytes };

    ghost coded = { roomy_code coded_ℕ };

    ghost view = { λ p. record { items = take p.len p.bytes; spare = 80 - p.len } };

    ghost invariant = { λ p. p.len ≤ 80 };
}

impl OutcomeBytes {
    pub fn new() -> OutcomeBytes
        ensures { result ≡ record { items = []; spare = 80 } }
    {
        OutcomeBytes {
            bytes: [0; 80],
            len: 0,
        }
    }

    pub fn as_slice(&self) -> &[u8]
        ensures { result.now ≡ self.now.items }
    {
        &self.bytes[..self.len]
    }

    /// Appends bytes, for which there must be capacity.
    pub fn append(&mut self, bytes: &[u8])
        requires { length bytes.now ≤ self.old.spare }
        ensures { AppendsBytes self.old self.new bytes.now }
    {
        let end = self.len + bytes.len();
        self.bytes[self.len..end].copy_from_slice(bytes);
        self.len = end;
    }
}
