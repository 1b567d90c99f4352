//! The format of checkpoints, and the digests of a job and of its origin.
#![tactic(auto)]

pub mod ahead;
pub mod decode;
pub mod digest;
pub mod encode;
mod fault;
pub mod laws;
pub mod origin;
mod piece;
mod places;

pub use ahead::Ahead;
pub use decode::Checkpoint;
pub use digest::job_digest;
pub use encode::encode_old;
pub use laws::{checkpoints_are_read, faultless_bytes_are_checkpoints, rising_pairs_rise};
pub use origin::origin_of;
