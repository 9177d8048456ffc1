//! Files and sinks: where hupm reads its input and writes its answer.
//!
//! `Files` reads bytes of a named file from a place on, and `Sink` takes bytes in order. Both may fail, and each
//! counts its failures, so that a caller can prove what a failure came from. `MemoryFiles` and `MemorySink` hold
//! their bytes in memory and fail where they are told to; `SureFiles` and `SureSink` never fail; `DiskFiles` and
//! `StreamSink` stand on the system. Begin with the traits `Files` and `Sink`, and with `put_all`.
#![tactic(auto)]

mod contents;
mod disk_files;
mod failed;
mod files;
mod laws;
mod memory_files;
mod memory_sink;
mod placed;
mod plan;
mod sink;
mod stream_sink;
mod sure_files;
mod sure_sink;

pub use disk_files::DiskFiles;
pub use failed::Failed;
pub use files::Files;
pub use laws::{named_files_never_fail, roomy_sinks_never_fail};
pub use memory_files::MemoryFiles;
pub use memory_sink::MemorySink;
pub use sink::{Sink, put_all};
pub use stream_sink::StreamSink;
pub use sure_files::SureFiles;
pub use sure_sink::SureSink;
