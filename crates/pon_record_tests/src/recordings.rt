//! A recording, and recordings written as hexadecimal digits.

use std::alloc::{AllocError, Global};
use std::process::Abort;

/// Version one: port 0 with a gap of 16 words, an Alloc-ID of 2,560 kbit/s, three maps of one structure each, a report for
/// each.
pub(crate) const RECORDING: &str = "
    504f4e5245433031 43 00000117 00 0000000000000000
    0010 00 00 0000000000000000 0000000000000000 0000 00 00000007
    01 0005 0400 00000a00 00000000 00000a00 00
    05 0000000000000000 002013ac 10020010000b13cb
    00 0000000000000000 0000000000000000 0000 00 0000000000000000 0000000000000000 0000
    04 0000000000000000 0005 01 00000064
    05 0000000000000001 002013ac 10020010000b13cb
    00 0000000000000000 0000000000000000 0000 00 0000000000000000 0000000000000000 0000
    04 0000000000000001 0005 01 00000064
    05 0000000000000002 002013ac 10020010000b13cb
    00 0000000000000000 0000000000000000 0000 00 0000000000000000 0000000000000000 0000
    04 0000000000000002 0005 01 00000064";

/// The same chapter in version two, under rule one.
pub(crate) const RECORDING_TWO: &str = "
    504f4e5245433032 43 00000118 01 00 0000000000000000
    0010 00 00 0000000000000000 0000000000000000 0000 00 00000007
    01 0005 0400 00000a00 00000000 00000a00 00
    05 0000000000000000 002013ac 10020010000b13cb
    00 0000000000000000 0000000000000000 0000 00 0000000000000000 0000000000000000 0000
    04 0000000000000000 0005 01 00000064
    05 0000000000000001 002013ac 10020010000b13cb
    00 0000000000000000 0000000000000000 0000 00 0000000000000000 0000000000000000 0000
    04 0000000000000001 0005 01 00000064
    05 0000000000000002 002013ac 10020010000b13cb
    00 0000000000000000 0000000000000000 0000 00 0000000000000000 0000000000000000 0000
    04 0000000000000002 0005 01 00000064";

/// Decodes pairs of hexadecimal digits that are separated by blanks.
pub(crate) fn bytes_of(alloc: Global, text: &str) -> Result<Vec<u8>, AllocError> {
    let digits: Vec<u8> = text
        .bytes()
        .filter(|byte| !byte.is_ascii_whitespace())
        .collect(alloc)?;
    match hex::decode(alloc, digits) {
        Ok(bytes) => Ok(bytes),
        Err(_) => Err(AllocError),
    }
}

/// Decodes such pairs with ample memory.
pub(crate) fn bytes(rt: &impl Abort, alloc: Global, text: &str) -> Vec<u8> {
    bytes_of(alloc, text).expect(rt, "memory")
}

/// Decodes such pairs, a second time if memory was refused.
pub(crate) fn bytes_again(rt: &impl Abort, alloc: Global, text: &str) -> Vec<u8> {
    match bytes_of(alloc, text) {
        Ok(bytes) => bytes,
        Err(_) => bytes(rt, alloc, text),
    }
}
