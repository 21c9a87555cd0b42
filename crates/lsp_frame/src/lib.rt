//! The base protocol of the Language Server Protocol 3.17: messages as frames of a stream of bytes.
//!
//! A frame is a header part, which says how many bytes the body has, and the body. [`FrameReader`] takes the frames
//! from a [`ByteSource`] one by one, and no byte past them; [`write_frame`] gives one to a [`ByteSink`].
//! Sources and sinks are devices that may fail, be interrupted and move few bytes at a time. Those of this crate
//! are memory ([`MemSource`], [`MemSink`]) and the readers and writers of std ([`FromRead`], [`ToWrite`]).
#![tactic(auto)]

mod counts;
mod device;
mod fault;
mod from_read;
mod header;
mod laws;
mod memory;
mod reader;
mod reading;
mod to_write;
mod writer;

pub use counts::Counts;
pub use device::{ByteSink, ByteSource, Fail};
pub use fault::{FrameFault, WriteFault};
pub use from_read::FromRead;
pub use laws::{header_is_lines, stream_is_frames, stream_shows_its_fault, written_is_read};
pub use memory::{MemSink, MemSource};
pub use reader::{Frame, FrameReader, LastAnswer};
pub use to_write::ToWrite;
pub use writer::{write_bytes, write_frame};
