//! Where bytes come in and go out: sources, sinks, and the gate at which a test can hold a worker. Who reads
//! a script, writes a transcript or runs threads calls it, and `main` makes its objects. Each read and write
//! moves just the bytes that it counts (`bytes`), and fails only where a count of faults rose (`cause`).
#![tactic(auto)]

mod failed;
mod gate;
mod host_sink;
mod host_source;
mod mem_sink;
mod mem_source;
mod reading;
mod sink;
mod source;
mod writing;

pub use failed::Failed;
pub use gate::{Gate, OpenGate};
pub use host_sink::HostSink;
pub use host_source::HostSource;
pub use mem_sink::MemSink;
pub use mem_source::MemSource;
pub use reading::{ReadFault, read_up_to};
pub use sink::Sink;
pub use source::Source;
pub use writing::{write_all, write_pieces};

#[cfg(test)]
mod tests;
