//! The edge between the tool and the world: files that are read, and a sink that is written. Each
//! counts its faults. Both stand in memory for tests, and over the operating system for the program.
#![tactic(auto)]

mod disk_files;
mod files;
mod mem_files;
mod mem_sink;
mod out_sink;
mod sink;
mod vec_sink;

pub use disk_files::DiskFiles;
pub use files::{FileError, Files, NoMemory};
pub use mem_files::MemFiles;
pub use mem_sink::MemSink;
pub use out_sink::OutSink;
pub use sink::{Failed, Sink};
pub use vec_sink::VecSink;
