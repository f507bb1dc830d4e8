//! The files and the output that a program is handed.
//!
//! A program of this repository reads a file and writes a text only through what its caller hands it: [`Files`], a
//! set of named files of which one may be open, and [`Sink`], which takes bytes one after another. So its contract
//! can say what it read and wrote. A call to the outside may fail at any time: it then answers [`Failed`] and counts a
//! *fault*, so that whoever handed the object in can see that the failure came from there. An object may *tell* its
//! contents to proofs or not: files in memory do, and files of the operating system do not.
//!
//! [`read_whole`], [`write_whole`] and [`send_whole`] loop over such calls. [`MemoryFiles`] and [`MemorySink`] are made for tests: they
//! give and take bytes in small pieces, and fail at chosen calls.
#![tactic(auto)]

mod calls;
mod failed;
mod file_list;
mod files;
mod laws;
mod memory_files;
mod memory_sink;
mod send;
mod sink;
mod stored_file;
mod whole;
mod write;

pub use failed::Failed;
pub use files::Files;
pub use laws::limits;
pub use memory_files::MemoryFiles;
pub use memory_sink::MemorySink;
pub use send::{WriteFault, send_whole};
pub use sequences::NoMemory;
pub use sink::Sink;
pub use whole::{ReadStop, read_whole};
pub use write::write_whole;
