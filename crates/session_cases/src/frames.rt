// Frames that are read from sources and written to sinks. The first field is the settings.
use crate::settings::{Settings, bytes_of, put_bytes};
use library_cases::{Line, Names, field};
use lsp_frame::{Frame, FrameReader, MemSink, MemSource, write_frame};
use std::alloc::{AllocError, Global};

/// Writes a body by its name, if it has one, else itself.
pub fn put_body(names: &Names, line: &mut Line, body: &[u8]) {
    let mut own = Line::new(names.alloc());
    put_bytes(&mut own, body);
    match names.name_of(own.as_str()) {
        None => line.put(own.as_str()),
        Some(name) => {
            line.put("⟦");
            line.put(name);
            line.put("⟧");
        }
    }
}

// Writes the next answer of a reader, and says whether it was a frame.
fn put_next(names: &Names, line: &mut Line, reader: &mut FrameReader<MemSource>) -> bool {
    match reader.read_frame() {
        Ok(Frame::Body(body)) => {
            line.put("<");
            put_body(names, line, body.as_slice());
            line.put("> ");
            return true;
        }
        Ok(Frame::End) => line.put("end "),
        Err(fault) => {
            line.put_number(fault.code() as u64);
            line.put(" ");
        }
    }
    false
}

// Writes the bodies of a stream, and the end or the fault behind them twice.
fn put_all(names: &Names, line: &mut Line, reader: &mut FrameReader<MemSource>) {
    for _ in 0..1000 {
        if !put_next(names, line, reader) {
            break;
        }
    }
    put_next(names, line, reader);
}

// What a stream in pieces of one size has.
fn stream(
    names: &Names,
    line: &mut Line,
    settings: Settings<'_>,
    size: &str,
    bytes: &str,
) -> Result<(), AllocError> {
    let source = settings.source(size, bytes_of(names.alloc(), bytes)?);
    let mut reader = FrameReader::new(names.alloc(), source);
    let mut own = Line::new(names.alloc());
    put_all(names, &mut own, &mut reader);
    line.put_once(size, own.as_str());
    Ok(())
}

/// The bodies of the frames that a stream has, in pieces of each size.
pub fn read_all(names: &Names, line: &mut Line, given: &str) -> Result<(), AllocError> {
    let settings = Settings::of(field(given, 1));
    for size in settings.sizes.split(' ') {
        stream(names, line, settings, size, field(given, 2))?;
    }
    Ok(())
}

// Writes what a frame's write answers: that it is whole, or the number of the fault and how many bytes went out; and these.
fn put_written(line: &mut Line, sink: &mut MemSink, body: &[u8]) {
    match write_frame(sink, body) {
        Ok(()) => line.put("whole"),
        Err(fault) => {
            line.put_number(fault.code() as u64);
            line.put(" ");
            line.put_number(fault.written as u64);
        }
    }
    line.put(":");
    put_bytes(line, sink.written());
}

// What a body is written as, in pieces of one size.
fn write_one(
    alloc: Global,
    line: &mut Line,
    settings: Settings<'_>,
    size: &str,
    given: &str,
) -> Result<(), AllocError> {
    let body = bytes_of(alloc, field(given, 3))?;
    let mut sink = settings.sink(alloc, size, field(given, 2))?;
    let mut own = Line::new(alloc);
    put_written(&mut own, &mut sink, body.as_slice());
    line.put_once(size, own.as_str());
    Ok(())
}

/// What a body is written as to a sink with so much room, in pieces of each size.
pub fn write_all(alloc: Global, line: &mut Line, given: &str) -> Result<(), AllocError> {
    let settings = Settings::of(field(given, 1));
    for size in settings.sizes.split(' ') {
        write_one(alloc, line, settings, size, given)?;
    }
    Ok(())
}
