ghost use Rattle.std.specs.Prelude.{◌<◌};

use pon_device::{DevRead, DevWrite, Failed, MemRead, MemWrite, StdRead, StdWrite, write_all};
use std::alloc::Global;
use std::io;

const TEXT: &[u8; 26] = b"abcdefghijklmnopqrstuvwxyz";

// Reads to the end of the input in at most 40 calls. Appends the bytes to `got`, and the calls that fail to `failed`.
fn read_all(reader: &mut MemRead, got: &mut Vec<u8>, failed: &mut Vec<u64>) -> Option<()> {
    let mut buf = [0; 8];
    for call in 0..40u64 {
        match reader.read(&mut buf) {
            Ok(0) => break,
            Ok(n) => got.extend_from_slice(&buf[..n]).ok()?,
            Err(Failed) => failed.push(call).ok()?,
        }
    }
    Some(())
}

// Returns whether a device that fails in the calls 0 and 2 gives the whole text.
fn reads_whole(alloc: Global, most: usize) -> Option<bool>
    requires { 0 < most }
{
    let failures = vec![in alloc; 0, 2].ok()?;
    let mut reader = MemRead::new(TEXT.to_vec(alloc).ok()?, most, failures);
    let mut got = Vec::new(alloc);
    let mut failed = Vec::new(alloc);
    read_all(&mut reader, &mut got, &mut failed)?;
    Some(got.as_slice() == TEXT.as_slice() && failed.as_slice() == [0, 2].as_slice())
}

#[test]
fn reads_in_pieces(rt: HostRuntime) {
    for most in [1usize, 5, 4096] {
        assert!(rt;
            reads_whole(rt.alloc(), most.max(1)) == Some(true),
            "in pieces of {most}"
        );
    }
}

// Returns whether a device that never fails takes the whole text.
fn writes_whole(alloc: Global, most: usize) -> bool
    requires { 0 < most }
{
    let mut writer = MemWrite::new(alloc, most, Vec::new(alloc));
    let written = write_all(&mut writer, TEXT) == Ok(());
    let flushed = writer.flush() == Ok(());
    written && flushed && writer.bytes() == TEXT.as_slice()
}

#[test]
fn writes_all_in_pieces(rt: HostRuntime) {
    for most in [1usize, 5, 4096] {
        assert!(rt;
            writes_whole(rt.alloc(), most.max(1)),
            "in pieces of {most}"
        );
    }
}

// Writes the text to a device that fails in a call, and returns the number of bytes that it holds if they begin the text
// and the write or the flush failed.
fn held_after_failure(alloc: Global, most: usize, failing: u64) -> Option<usize>
    requires { 0 < most }
{
    let mut writer = MemWrite::new(alloc, most, vec![in alloc; failing].ok()?);
    let failed = write_all(&mut writer, TEXT).is_err() || writer.flush() == Err(Failed);
    let held = writer.bytes();
    if failed && TEXT.starts_with(held) {
        Some(held.len())
    } else {
        None
    }
}

#[test]
fn holds_a_beginning_after_a_failed_write(rt: HostRuntime) {
    for (most, failing, held) in [
        (1usize, 3, 3),
        (5, 3, 15),
        (5, 0, 0),
        (4096, 0, 0),
        (4096, 1, 26),
    ] {
        let told = held_after_failure(rt.alloc(), most.max(1), failing);
        assert!(rt;
            told == Some(held),
            "in pieces of {most}, call {failing}: {told:?}"
        );
    }
}

#[test]
fn wraps_a_reader_of_std(rt: HostRuntime) {
    let mut reader = StdRead::new(TEXT.as_slice());
    let mut buf = [0; 5];
    let read = reader.read(&mut buf) == Ok(5);
    let nothing = reader.read(&mut []) == Ok(0);
    assert!(rt; read && nothing && buf.as_slice() == b"abcde".as_slice());
}

// Returns whether a writer of std takes the whole text.
fn writes_to_std(bytes: &mut Vec<u8>) -> bool {
    let mut writer = StdWrite::new(bytes);
    let written = write_all(&mut writer, TEXT) == Ok(());
    let nothing = writer.write(&[]) == Ok(0);
    written && nothing && writer.flush() == Ok(())
}

#[test]
fn wraps_a_writer_of_std(rt: HostRuntime) {
    let mut bytes = Vec::new(rt.alloc());
    let written = writes_to_std(&mut bytes);
    assert!(rt; written && bytes.as_slice() == TEXT.as_slice());
}

/// Device that fails in each read and flush, and writes nothing.
#[derive(Drop)]
struct Broken;

impl io::Read for Broken {
    fn read(&mut self, _buf: &mut [u8]) -> io::Result<usize> {
        Err(io::Error::from(io::ErrorKind::Interrupted))
    }
}

impl io::Write for Broken {
    fn write(&mut self, _buf: &[u8]) -> io::Result<usize> {
        Ok(0)
    }

    fn flush(&mut self) -> io::Result<()> {
        Err(io::Error::from(io::ErrorKind::Interrupted))
    }
}

#[test]
fn answers_that_a_device_of_std_failed(rt: HostRuntime) {
    let mut buf = [0; 5];
    let read = StdRead::new(Broken).read(&mut buf) == Err(Failed);
    let mut writer = StdWrite::new(Broken);
    let nothing = writer.write(&[]) == Ok(0);
    let written = writer.write(b"a") == Err(Failed);
    let flushed = writer.flush() == Err(Failed);
    assert!(rt; read && nothing && written && flushed);
}
