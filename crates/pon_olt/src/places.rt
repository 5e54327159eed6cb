//! Which of the files of a recording has a fault of its format.

use crate::joining::RecordingFiles;
use pon_audit::Verdict;
use pon_record::MAGIC_BYTES;
use std::fs;
use std::io::{self, Read, Seek, SeekFrom};
use std::rt::Files;

/// The place of the length of a chapter's body in the chapter, behind its tag, and the number of bytes before the body.
const LENGTH_PLACE: u64 = 1;

const HEAD_BYTES: u64 = 5;

/// A fault of the format in one of several files.
#[derive(Clone, Copy)]
enum FileFault {
    /// The file does not begin with the magic bytes of the first one.
    Magic { file: usize },
    /// The file ends inside the chapter that begins at this byte of it.
    Cut { file: usize, byte: u64 },
    /// The fault is in a chapter that begins at this byte of the file.
    Chapter { file: usize, byte: u64 },
}

// Returns the number of bytes of a file; 0 if it cannot be told.
fn length_of<R: Files>(rt: &R, name: &str) -> u64 {
    match fs::metadata(rt, name) {
        Ok(found) => found.len(),
        Err(_) => 0,
    }
}

// Reads the bytes at a place of a file. `None` if they are not all there.
fn bytes_at<const N: usize, R: Files>(rt: &R, name: &str, place: u64) -> Option<[u8; N]> {
    let mut file = fs::open(rt, name).ok()?;
    file.seek(SeekFrom::Start(place)).ok()?;
    let mut bytes = [0u8; N];
    file.read_exact(&mut bytes).ok()?;
    Some(bytes)
}

// Returns whether a file ends inside the chapter that begins at a byte of it.
fn is_cut<R: Files>(rt: &R, name: &str, byte: u64) -> bool {
    match bytes_at::<4, R>(rt, name, byte.saturating_add(LENGTH_PLACE)) {
        Some(length) => {
            let body = u64::from(u32::from_be_bytes(length));
            let end = byte.saturating_add(HEAD_BYTES).saturating_add(body);
            end > length_of(rt, name)
        }
        None => true,
    }
}

// Returns whether two files begin with the same magic bytes.
fn begin_alike<R: Files>(rt: &R, first: &str, other: &str) -> bool {
    let magic = bytes_at::<MAGIC_BYTES, R>(rt, first, 0);
    magic.is_some() && magic == bytes_at::<MAGIC_BYTES, R>(rt, other, 0)
}

// Returns the file in which the chapter at a byte of the joined files has a fault. `None` if no file has that byte.
fn fault_at<R: Files>(rt: &R, recording: &RecordingFiles, at: u64) -> Option<FileFault> {
    let mut left = at;
    for (file, name) in recording.files().iter().enumerate() {
        let is_further = file > 0;
        if is_further && left == 0 && !begin_alike(rt, recording.name(), name.as_str()) {
            return Some(FileFault::Magic { file });
        }
        let skipped = if is_further { MAGIC_BYTES as u64 } else { 0 };
        let (length, byte) = (length_of(rt, name.as_str()), left.saturating_add(skipped));
        if byte < length && is_cut(rt, name.as_str(), byte) {
            return Some(FileFault::Cut { file, byte });
        }
        if byte < length {
            return Some(FileFault::Chapter { file, byte });
        }
        left = byte.saturating_sub(length);
    }
    None
}

// Returns the name of one of the files of a recording.
fn name_of(recording: &RecordingFiles, file: usize) -> &str {
    match recording.files().get(file) {
        Some(name) => name.as_str(),
        None => "",
    }
}

/// Prints on standard error, indented, which of several files has the place of a verdict on their format.
pub(crate) fn print_place<R: Files + Eprint>(
    rt: &R,
    recording: &RecordingFiles,
    verdict: &Verdict,
) {
    let (Verdict::BadFormat { at } | Verdict::Truncated { at }) = *verdict else {
        return;
    };
    if recording.files().len() < 2 {
        return;
    }
    match fault_at(rt, recording, at as u64) {
        Some(FileFault::Magic { file }) => {
            let (name, first) = (name_of(recording, file), recording.name());
            let _ = eprintln!(rt; "  {name}: does not begin with the magic bytes of {first}");
        }
        Some(FileFault::Cut { file, byte }) => {
            let name = name_of(recording, file);
            let _ = eprintln!(rt; "  {name}: ends inside the chapter at its byte {byte}");
        }
        Some(FileFault::Chapter { file, byte }) => {
            let name = name_of(recording, file);
            let _ = eprintln!(rt; "  {name}: no chapter of the format at its byte {byte}");
        }
        None => {}
    }
}
