// What lies outside the broker: files, an output and a gate, each as a trait with its meaning. Files and an output in memory implement these traits
// exactly, for tests and for callers who have the texts at hand; files of the system and its standard output, for the program.
#![tactic(auto)]

mod disks;
mod files;
mod gate;
mod host_files;
mod hosts;
mod lists;
mod mem_files;
mod mem_sink;
mod sink;

pub use disks::{Disk, HostDisk};
pub use files::{FileFault, Files, ReadCause};
pub use gate::{Gate, OpenGate};
pub use host_files::HostFiles;
pub use hosts::{HostOutput, HostSink, Output, PIECE};
pub use lists::{Bytes, Numbers, Text};
pub use mem_files::{FileList, MemFiles, StoredFile};
pub use mem_sink::MemSink;
pub use sink::{Sink, SinkFault, put_lines, put_text};
