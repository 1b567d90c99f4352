//! The origin of a job.

/// The SHA-256 and the number of all bytes read from the source.
#[derive(Clone, Copy)]
pub struct Origin {
    pub sha256: [u8; 32],
    pub bytes: u64,
}
