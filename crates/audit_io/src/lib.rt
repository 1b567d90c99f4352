//! The I/O of an audit: sources, sinks, checkpoint stores and gates. Sources, sinks and stores
//! count their failed calls, so that a contract can show which of them caused an error.
#![tactic(auto)]

mod attempts;
mod copying;
pub mod file_calls;
pub mod file_keeper;
pub mod folder_calls;
pub mod folder_keeper;
pub mod folder_lock;
pub mod gate;
pub mod keeper;
pub mod load_count;
pub mod looks;
pub mod mem_keeper;
pub mod mem_sink;
mod mem_slot;
pub mod mem_source;
mod retry_on_eintr;
pub mod retry_on_would_block;
pub mod sink;
pub mod slot_files;
pub mod source;
pub mod std_adapters;
pub mod stop_keeper;
pub mod sure;
pub mod sure_keeper;

pub use file_calls::{FileCalls, FileEntry, SystemCalls};
pub use file_keeper::FileKeeper;
pub use folder_calls::FolderCalls;
pub use folder_keeper::FolderKeeper;
pub use folder_lock::{LockError, lock_folder};
pub use gate::{FreeGate, Gate};
pub use keeper::{Keeper, LoadError};
pub use load_count::LoadCount;
pub use looks::open_plain;
pub use mem_keeper::MemKeeper;
pub use mem_sink::MemSink;
pub use mem_source::MemSource;
pub use sink::Sink;
pub use slot_files::{Known, save_by, save_file, save_slot};
pub use source::{Failed, Source};
pub use std_adapters::{ReadSource, WriteSink};
pub use stop_keeper::StopKeeper;
pub use sure::{SureSink, SureSource};
pub use sure_keeper::SureKeeper;
