//! The origin of a job.

ghost use Rattle.std.specs.Prelude.{◌≡◌};
ghost use Rattle.audit_statement.specs.Origin as definition;

use audit_model::origin::Origin;
use audit_model::setting::Setting;
use sha2::{Digest, Sha256};

/// Returns the SHA-256 and the number of the bytes if the setting asks for the origin. Otherwise returns `None` and
/// hashes nothing. Allocates nothing.
pub fn origin_of(setting: &Setting, bytes: &[u8]) -> Option<Origin>
    ensures { result ≡ definition.origin_of setting.now bytes.now }
{
    if setting.source {
        Some(Origin {
            sha256: Sha256::digest(bytes),
            bytes: bytes.len() as u64,
        })
    } else {
        None
    }
}
