//! Functions that append the parts of a chapter to bytes.

ghost use Rattle.std.specs.Prelude.{◌≡◌, ◌++◌, IfOk, OnOk};
ghost use Rattle.pon_record.specs.declared.version.Version.{Version};
ghost use Rattle.pon_record.specs.Chapters.{FitsChapter, body_in, chapter_bytes};
ghost use Rattle.pon_record.specs.Bodies.{chapter_body};

use crate::limits::CHAPTER_TAG;
use crate::writing::entries::put_entries;
use crate::writing::fields::{put_port, put_rule, put_u64};
use crate::writing::openings::put_opening;
use pon_history::Chapter;
use pon_units::PortNo;
use std::alloc::{AllocError, Global};

/// The tag of a chapter, and room for the length of its body in 4 bytes.
const HEAD: [u8; 5] = [CHAPTER_TAG, 0, 0, 0, 0];

// Appends the rule of a chapter, the port, and the chapter.
fn put_body(bytes: &mut Vec<u8>, port: PortNo, chapter: &Chapter) -> Result<(), AllocError>
    ensures { OnOk result (bytes.new.items
        ≡ bytes.old.items ++ (body_in Version.Two).write (chapter_body port chapter.now)) }
{
    let opening = chapter.opening();
    put_rule(bytes, opening.roster().rule())?;
    put_port(bytes, port)?;
    put_u64(bytes, chapter.number())?;
    put_opening(bytes, opening)?;
    put_entries(bytes, chapter.entries())?;
    Ok(())
}

// Proves that a chapter of a port fits the format. Computes nothing.
fn prove_fits(port: PortNo, chapter: &Chapter)
    ensures { FitsChapter Version.Two (chapter_body port chapter.now) }
{
    let _port = port.get();
    let _number = chapter.number();
    let _opening = chapter.opening();
    let _entries = chapter.entries();
}

/// Returns the bytes of a chapter of a port. `Err` only if memory is refused.
pub(crate) fn chapter_bytes(
    alloc: Global,
    port: PortNo,
    chapter: &Chapter,
) -> Result<Vec<u8>, AllocError>
    ensures { IfOk result (λ bytes. bytes.items
        ≡ chapter_bytes Version.Two (chapter_body port chapter.now)) }
{
    prove_fits(port, chapter);
    let mut bytes = Vec::from_slice(alloc, &HEAD)?;
    put_body(&mut bytes, port, chapter)?;
    let size = (bytes.len() - HEAD.len()) as u32;
    bytes[1..HEAD.len()].copy_from_slice(&size.to_be_bytes());
    Ok(bytes)
}
