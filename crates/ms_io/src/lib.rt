//! The outside as the solver sees it: files that are read whole, and sinks that take bytes.
//!
//! Contracts see a store of files by a map from names to bytes, which may be untold, the names asked for
//! and a count of faults; and a sink by the bytes taken, which may be untold, and a count of faults.
//! Each answer is tied to these: what was read is what stands under the name, what was put joined the bytes,
//! and a fault is answered exactly where the count of faults goes on, which stands still at 2^64 - 1.
#![tactic(auto)]

mod files;
mod mem_files;
mod mem_sink;
mod os_files;
mod report;
mod sink;
mod std_sink;

pub use files::{FileFault, Files};
pub use mem_files::MemFiles;
pub use mem_sink::MemSink;
pub use os_files::{OsFiles, read_whole};
pub use report::put_report;
pub use sink::{Failed, Sink};
pub use std_sink::StdSink;
