//! What the program reads from and writes to.
//!
//! `Files` gives bytes under names and `Sink` takes bytes. A caller sees what they hold, where they
//! tell it, and a count of faults that never falls. A read or a write fails only where that count
//! rose in the call, or stands at its last value.
//!
//! `read_whole` gives the first bytes that are held, and `write_all` appends a piece, or a first
//! part of it and a fault. A text is written piece by piece by a `Pen`: what writes a part of it
//! answers nothing, and `finish` says whether all was written. `OnSink` hands each piece on at
//! once; `Buffered` keeps bytes back, so that small pieces cost few writes.
//!
//! `MemoryFiles`, `SureFiles` and `MemorySink` tell their bytes; `HostFiles` and `HostOut`, over
//! the system's files and writers, tell none, so that nothing is promised of these bytes. A `Gate`
//! is where a test may hold a worker back.
#![tactic(auto)]

mod buffered;
mod entry;
mod faults;
mod files;
mod gate;
mod host_files;
mod host_out;
mod last_name;
mod memory_files;
mod memory_sink;
mod on_sink;
mod opened;
mod pen;
mod pending_bytes;
mod sink;
mod sure_files;

pub use buffered::Buffered;
pub use entry::Entry;
pub use faults::Faults;
pub use files::{Failed, Files, ReadFault, Which, read_whole};
pub use gate::{Gate, OpenGate};
pub use host_files::HostFiles;
pub use host_out::HostOut;
pub use memory_files::MemoryFiles;
pub use memory_sink::MemorySink;
pub use on_sink::OnSink;
pub use pen::Pen;
pub use sink::{Sink, WriteFault, write_all};
pub use sure_files::SureFiles;
