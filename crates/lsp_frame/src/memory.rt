// A source and a sink over memory, which fail as a test wants it.
ghost use Rattle.std.specs.Prelude.{◌≡◌, ◌<◌, ◌≤◌, [], length, vec_len, vec_capacity, drop, Some, IfOk};
ghost use Rattle.std.specs.Io.{ReadsAtMost, WritesAtMost};
ghost use Rattle.std.specs.Io.KnownBytes.{ReadConsumes, WriteAppends};
ghost use Rattle.lsp_frame.specs.Counts.{no_counts, after_read, after_write};

use crate::counts::Counts;
use crate::device::{ByteSink, ByteSource, Fail};
use std::alloc::{AllocError, Global};

/// A source of the bytes of a vector.
#[derive(Debug, Drop)]
pub struct MemSource {
    bytes: Vec<u8>,
    taken: usize,
    piece: usize,
    interruptions: u64,
    fails: bool,
    counts: Counts,
    ghost within: { taken ≤ vec_len bytes },
    ghost moves: { 0 < piece },
}

impl MemSource {
    ghost use Rattle.lsp_frame.specs.Devices.{SourceIsSet};

    /// A source that gives at most `piece` bytes at a time, whose first calls are so many interruptions. Behind its
    /// bytes it fails at each call where `fails` is true, and else is at its end.
    pub fn new(bytes: Vec<u8>, piece: usize, interruptions: u64, fails: bool) -> Self
        requires { 0 < piece }
        ensures left { ⟦<MemSource as ByteSource>⟧.left result ≡ Some bytes.items }
        ensures counts { ⟦<MemSource as ByteSource>⟧.counts result ≡ no_counts }
        ensures settings { SourceIsSet result piece interruptions fails }
    {
        MemSource {
            bytes,
            taken: 0,
            piece,
            interruptions,
            fails,
            counts: Counts::new(),
        }
    }
}

impl ByteSource for MemSource {
    ghost use Rattle.lsp_frame.specs.Devices.{SourceStaysSet, source_answer};

    ghost left = { λ source. Some (drop source.taken source.bytes.items) };

    ghost counts = { λ source. source.counts };

    fn read(&mut self, buffer: &mut [u8]) -> Result<usize, Fail>
        ensures bound { ReadsAtMost result buffer.new }
        ensures bytes { ReadConsumes (⟦<MemSource as ByteSource>⟧.left self.old) (⟦<MemSource as ByteSource>⟧.left self.new) result buffer.new }
        ensures counts { ⟦<MemSource as ByteSource>⟧.counts self.new ≡ after_read (⟦<MemSource as ByteSource>⟧.counts self.old) result }

        // It answers as it is set, and stays so set but for an interruption that came.
        ensures answer { result ≡ source_answer self.old (length buffer.old) }
        ensures settings { SourceStaysSet self.old self.new }
    {
        if self.interruptions > 0 {
            self.interruptions -= 1;
            self.counts.add_interruption();
            return Err(Fail::Interrupted);
        }
        let left = self.bytes.len() - self.taken;
        if left == 0 && self.fails {
            self.counts.add_error();
            return Err(Fail::Error);
        }
        let count = left.min(self.piece).min(buffer.len());
        let end = self.taken + count;
        buffer[..count].copy_from_slice(&self.bytes[self.taken..end]);
        self.taken = end;
        self.counts.add_success();
        Ok(count)
    }
}

/// A sink into a vector of a fixed room.
#[derive(Debug, Drop)]
pub struct MemSink {
    bytes: Vec<u8>,
    room: usize,
    piece: usize,
    interruptions: u64,
    zero: bool,
    counts: Counts,
    ghost within: { vec_len bytes ≤ room },
    ghost reserved: { room ≤ vec_capacity bytes },
    ghost moves: { 0 < piece },
}

impl MemSink {
    ghost use Rattle.lsp_frame.specs.Devices.{SinkIsSet};

    /// An empty sink with room for so many bytes. It takes at most `piece` bytes at a time, and its first calls
    /// are so many interruptions. Behind its room it answers 0 where `zero` is true, and else fails.
    ///
    /// The room is reserved here: `AllocError` where memory is refused.
    pub fn new(
        alloc: Global,
        room: usize,
        piece: usize,
        interruptions: u64,
        zero: bool,
    ) -> Result<Self, AllocError>
        requires { 0 < piece }
        ensures written { IfOk result (λ sink. ⟦<MemSink as ByteSink>⟧.written sink ≡ Some []) }
        ensures counts { IfOk result (λ sink. ⟦<MemSink as ByteSink>⟧.counts sink ≡ no_counts) }
        ensures settings { IfOk result (λ sink. SinkIsSet sink room piece interruptions zero) }
    {
        Ok(MemSink {
            bytes: Vec::with_capacity(alloc, room)?,
            room,
            piece,
            interruptions,
            zero,
            counts: Counts::new(),
        })
    }

    /// The bytes that it took.
    pub fn written(&self) -> &[u8]
        ensures { ⟦<MemSink as ByteSink>⟧.written self.now ≡ Some result.now }
    {
        self.bytes.as_slice()
    }
}

impl ByteSink for MemSink {
    ghost use Rattle.lsp_frame.specs.Devices.{SinkStaysSet, sink_answer};

    ghost written = { λ sink. Some sink.bytes.items };

    ghost counts = { λ sink. sink.counts };

    fn write(&mut self, buffer: &[u8]) -> Result<usize, Fail>
        ensures bound { WritesAtMost result buffer.now }
        ensures bytes { WriteAppends (⟦<MemSink as ByteSink>⟧.written self.old) (⟦<MemSink as ByteSink>⟧.written self.new) result buffer.now }
        ensures counts { ⟦<MemSink as ByteSink>⟧.counts self.new ≡ after_write (⟦<MemSink as ByteSink>⟧.counts self.old) result buffer.now }

        // It answers as it is set, and stays so set but for an interruption that came.
        ensures answer { result ≡ sink_answer self.old (length buffer.now) }
        ensures settings { SinkStaysSet self.old self.new }
    {
        if self.interruptions > 0 {
            self.interruptions -= 1;
            self.counts.add_interruption();
            return Err(Fail::Interrupted);
        }
        if buffer.is_empty() {
            self.counts.add_success();
            return Ok(0);
        }
        let left = self.room - self.bytes.len();
        if left == 0 {
            self.counts.add_error();
            return if self.zero { Ok(0) } else { Err(Fail::Error) };
        }
        let count = left.min(self.piece).min(buffer.len());
        self.bytes.extend_from_slice(&buffer[..count]).unwrap();
        self.counts.add_success();
        Ok(count)
    }
}
