//! Calls go through functions that promise nothing: a test then carries none of what sources and sinks promise.

use corr_io::{
    Failed, MemSink, MemSource, Sink, Source, StdSink, StdSource, count_fault, counted, open_at,
    read_some, read_some_at, write_some,
};
use corr_text::{List, Memory, Text};
use std::alloc::Global;
use std::fs::OpenOptions;
use std::io::{ErrorKind, Read, Write};
use std::os::unix::fs::FileExt;
use std::test::Fail;
use std::{fs, io};

// A list of call numbers.
fn calls(alloc: Global, numbers: &[u64]) -> Result<List<u64>, Memory> {
    let mut list = List::new(alloc);
    for n in numbers {
        list.push(*n)?;
    }
    Ok(list)
}

fn memory_source(alloc: Global, bytes: &[u8], failing: &[u64]) -> Result<MemSource, Memory> {
    Ok(MemSource::new(Text::from_bytes(alloc, bytes)?, calls(alloc, failing)?))
}

fn memory_sink(alloc: Global, failing: &[u64]) -> Result<MemSink, Memory> {
    Ok(MemSink::new(alloc, calls(alloc, failing)?))
}

fn file_source<'a>(rt: &'a HostRuntime, path: &[u8]) -> Result<StdSource<'a, HostRuntime>, Memory> {
    Ok(StdSource::new(rt, Text::from_bytes(rt.alloc(), path)?))
}

fn file_sink<'a>(rt: &'a HostRuntime, path: &[u8]) -> Result<StdSink<'a, HostRuntime>, Memory> {
    Ok(StdSink::file(rt, Text::from_bytes(rt.alloc(), path)?))
}

// Reads eight bytes at most.
fn read<S: Source + Send>(source: &mut S, bytes: &mut [u8; 8], room: usize) -> Option<usize> {
    source.read(&mut bytes[..room.min(8)]).ok()
}

// Whether a read into so much room gives these bytes.
fn gives<S: Source + Send>(source: &mut S, room: usize, want: &[u8]) -> bool {
    let mut bytes = [0; 8];
    match read(source, &mut bytes, room) {
        Some(n) => n <= 8 && &bytes[..n] == want,
        None => false,
    }
}

// Whether a read fails.
fn gives_none<S: Source>(source: &mut S) -> bool {
    source.read(&mut [0; 2]) == Err(Failed)
}

fn takes<K: Sink + Send>(sink: &mut K, piece: &[u8]) -> bool {
    sink.write(piece) == Ok(piece.len())
}

// Whether a write fails.
fn takes_none<K: Sink>(sink: &mut K, piece: &[u8]) -> bool {
    sink.write(piece) == Err(Failed)
}

#[test]
fn a_failure_is_counted(rt: HostRuntime) {
    let mut faults = 0;
    assert_eq!(rt; count_fault(&mut faults), Failed);
    assert_eq!(rt; counted(Ok(7u64), &mut faults), Ok(7));
    assert_eq!(rt; faults, 1);
    assert_eq!(rt; counted::<u64>(Err(Failed), &mut faults), Err(Failed));
    assert_eq!(rt; faults, 2);
}

#[test]
fn a_source_gives_its_bytes_in_pieces(rt: HostRuntime) -> Result<(), Fail> {
    let mut source = memory_source(rt.alloc(), b"ABCDE", &[])?;
    assert!(rt; gives(&mut source, 2, b"AB"));
    assert!(rt; gives(&mut source, 0, b""));
    assert!(rt; gives(&mut source, 1, b"C"));
    assert!(rt; gives(&mut source, 4, b"DE"));
    assert!(rt; gives(&mut source, 4, b"") && gives(&mut source, 1, b""));
    assert_eq!(rt; source.faults(), 0);
    Ok(())
}

#[test]
fn a_source_fails_at_the_calls_of_its_list(rt: HostRuntime) -> Result<(), Fail> {
    let mut source = memory_source(rt.alloc(), b"ABC", &[1, 4, 0])?;
    assert!(rt; gives_none(&mut source));
    assert_eq!(rt; source.faults(), 1);
    assert!(rt; gives(&mut source, 2, b"AB") && gives(&mut source, 2, b"C"));
    assert!(rt; gives_none(&mut source) && gives(&mut source, 2, b""));
    assert_eq!(rt; source.faults(), 2);
    Ok(())
}

#[test]
fn a_sink_keeps_what_is_written(rt: HostRuntime) -> Result<(), Fail> {
    let mut sink = memory_sink(rt.alloc(), &[2])?;
    assert_eq!(rt; sink.bytes(), b"".as_slice());
    assert!(rt; takes(&mut sink, b"AB"));
    assert!(rt; takes_none(&mut sink, b"CD"));
    assert!(rt; takes(&mut sink, b"") && takes(&mut sink, b"E"));
    assert_eq!(rt; sink.faults(), 1);
    assert_eq!(rt; sink.bytes(), b"ABE".as_slice());
    Ok(())
}

// Whether a file takes a piece after what it has, and no fault is counted.
fn is_appended(rt: &HostRuntime, piece: &[u8]) -> Result<bool, Memory> {
    let mut sink = file_sink(rt, b"out.fin")?;
    Ok(takes(&mut sink, piece) && takes(&mut sink, b"") && sink.faults() == 0)
}

#[test]
fn a_file_is_appended_to_and_read(rt: HostRuntime) -> Result<(), Fail> {
    assert!(rt; is_appended(&rt, b"REF")? && is_appended(&rt, b"1\r\n")?);
    let mut source = file_source(&rt, b"out.fin")?;
    assert!(rt; gives(&mut source, 8, b"REF1\r\n") && gives(&mut source, 8, b""));
    assert_eq!(rt; source.faults(), 0);
    Ok(())
}

// Whether a read of four bytes gives these.
fn reads<F: Read>(file: &mut F, want: &[u8]) -> bool {
    let mut bytes = [0; 4];
    match read_some(file, &mut bytes) {
        Ok(n) => n <= 4 && &bytes[..n] == want,
        Err(_) => false,
    }
}

// Whether a read of four bytes at a place gives these.
fn reads_at<F: FileExt>(file: &F, at: u64, want: &[u8]) -> bool {
    let mut bytes = [0; 4];
    match read_some_at(file, at, &mut bytes) {
        Ok(n) => n <= 4 && &bytes[..n] == want,
        Err(_) => false,
    }
}

const FILE: &str = "corr_io_test.fin";

// Whether the file of six bytes is read from where it stands, and at a place.
fn is_read(rt: &HostRuntime) -> Result<bool, Memory> {
    let path = Text::from_bytes(rt.alloc(), FILE.as_bytes())?;
    let mut how = OpenOptions::new();
    how.read(true);
    match open_at(rt, &path, &how) {
        Ok(mut file) => Ok(reads(&mut file, b"REF1") && reads_at(&file, 2, b"F1\r\n")),
        Err(_) => Ok(false),
    }
}

#[test]
fn an_open_file_is_read_from_where_it_stands_and_at_a_place(rt: HostRuntime) -> Result<(), Fail> {
    fs::write(&rt, FILE, b"REF1\r\n")?;
    assert!(rt; is_read(&rt)?);
    fs::remove_file(&rt, FILE)?;
    Ok(())
}

// Whether two reads of the file at this path fail, and are counted.
fn is_unread(rt: &HostRuntime, path: &[u8]) -> Result<bool, Memory> {
    let mut source = file_source(rt, path)?;
    Ok(gives_none(&mut source) && gives_none(&mut source) && source.faults() == 2)
}

// Whether two writes to the file at this path fail, and are counted.
fn is_unwritten(rt: &HostRuntime, path: &[u8], second: &[u8]) -> Result<bool, Memory> {
    let mut sink = file_sink(rt, path)?;
    Ok(takes_none(&mut sink, b"A") && takes_none(&mut sink, second) && sink.faults() == 2)
}

#[test]
fn a_file_that_cannot_be_had_is_a_failed_call(rt: HostRuntime) -> Result<(), Fail> {
    assert!(rt; is_unread(&rt, b"missing.fin")?);
    assert!(rt; is_unread(&rt, b"\xff.fin")?);
    assert!(rt; is_unwritten(&rt, b"missing/out.fin", b"")?);
    assert!(rt; is_unwritten(&rt, b"\xff.fin", b"")?);
    Ok(())
}

const FOLDER: &str = "corr_io_test.folder";

// What an open file answers with an error is no end of it: a folder is opened, and its read fails.
#[test]
fn the_read_of_a_folder_fails(rt: HostRuntime) -> Result<(), Fail> {
    let _ = fs::remove_dir(&rt, FOLDER);
    fs::create_dir(&rt, FOLDER)?;
    assert!(rt; is_unread(&rt, FOLDER.as_bytes())?);
    assert!(rt; is_unwritten(&rt, FOLDER.as_bytes(), b"A")?);
    fs::remove_dir(&rt, FOLDER)?;
    Ok(())
}

#[test]
fn a_full_device_fails_each_write(rt: HostRuntime) -> Result<(), Fail> {
    assert!(rt; is_unwritten(&rt, b"/dev/full", b"A")?);
    Ok(())
}

// A pipe that is closed after so many pieces.
#[derive(Drop)]
struct Pipe {
    pieces: u32,
}

impl Write for Pipe {
    fn write(&mut self, piece: &[u8]) -> io::Result<usize> {
        if self.pieces == 0 {
            return Err(io::Error::from(ErrorKind::BrokenPipe));
        }
        self.pieces -= 1;
        Ok(piece.len())
    }

    fn flush(&mut self) -> io::Result<()> {
        Ok(())
    }
}

// Writes a piece; how much of it went in.
fn went_in(pipe: &mut Pipe, piece: &[u8]) -> Option<usize> {
    write_some(pipe, piece).ok()
}

#[test]
fn a_closed_pipe_fails_each_write_after_a_piece_that_went_in(rt: HostRuntime) {
    let mut pipe = Pipe { pieces: 1 };
    assert_eq!(rt; went_in(&mut pipe, b"REF1"), Some(4));
    assert_eq!(rt; went_in(&mut pipe, b"REF2"), None);
    assert_eq!(rt; went_in(&mut pipe, b"REF2"), None);
}

#[test]
fn standard_output_takes_a_piece(rt: HostRuntime) {
    let mut sink = StdSink::out(&rt);
    assert!(rt; takes(&mut sink, b"MESSAGES\n"));
    assert_eq!(rt; sink.faults(), 0);
}
