//! Functions that append a chapter of version one as one of version two: rule one, and a carry of 0 after each row. The
//! other bytes stay as they are. Each returns `Err` only if memory is refused.

ghost use Rattle.std.specs.Prelude.{◌≡◌, ◌∷◌, ◌++◌, ◌<◌, ◌^◌, All, OnOk};
ghost use Rattle.std.specs.Int.{to_be_bytes, w32};
ghost use Rattle.std.specs.List.{flat_map};
ghost use Rattle.pon_admit.specs.declared.rule.Rule.{Rule};
ghost use Rattle.pon_record.specs.declared.limits.TheConstants.{CHAPTER_TAG};
ghost use Rattle.pon_record.specs.declared.version.Version.{Version};
ghost use Rattle.pon_record.specs.Openings.{row_in};
ghost use Rattle.pon_record.specs.Chapters.{FitsChapter, body_in, chapter_bytes};

use crate::chapter::RawChapter;
use crate::codes;
use crate::limits::{CHAPTER_TAG, HEAD_BYTES};
use crate::row::RawRow;
use std::alloc::AllocError;

/// Number of bytes of a row of version one.
pub(crate) const ROW_BYTES: usize = 38;

/// Number of bytes of a body of version one before its rows: port 1, number 8, gap 2, profile 1, cause 1, next frame 8,
/// earlier entries 8, number of rows 2.
const ROWS_AT: usize = 31;

// Appends rows of version one, each followed by its carry.
fn put_rows(out: &mut Vec<u8>, rows: &[RawRow], bytes: &[u8]) -> Result<(), AllocError>
    requires none { All (λ r. r.carry ≡ 0) rows.now }
    requires is { bytes.now ≡ flat_map (row_in Version.One Rule.DropRemainders).write rows.now }
    ensures { OnOk result (out.new.items
        ≡ out.old.items ++ flat_map (row_in Version.Two Rule.DropRemainders).write rows.now) }
{
    let mut rest = bytes;
    for row in rows {
        let (fields, after) = rest.split_at(ROW_BYTES);
        out.extend_from_slice(fields)?;
        out.push(row.carry)?;
        rest = after;
    }
    Ok(())
}

// Appends the tag of a chapter, and the number of bytes of its body.
fn put_head(out: &mut Vec<u8>, size: usize) -> Result<(), AllocError>
    requires { size < 2 ^ 32 }
    ensures { OnOk result (out.new.items ≡ out.old.items ++ CHAPTER_TAG ∷ to_be_bytes w32 size) }
{
    let size = size as u32;
    out.push(CHAPTER_TAG)?;
    out.extend_from_slice(&size.to_be_bytes())
}

// Appends the body of a chapter of version one.
fn put_body(out: &mut Vec<u8>, chapter: &RawChapter, bytes: &[u8]) -> Result<(), AllocError>
    requires fits { FitsChapter Version.One chapter.now.body }
    requires is { bytes.now ≡ (body_in Version.One).write chapter.now.body }
    ensures { OnOk result (out.new.items
        ≡ out.old.items ++ (body_in Version.Two).write chapter.now.body) }
{
    let rows = chapter.opening.rows.as_slice();
    let (front, rest) = bytes.split_at(ROWS_AT);
    let (fields, back) = rest.split_at(ROW_BYTES * rows.len());
    out.push(codes::DROP_REMAINDERS)?;
    out.extend_from_slice(front)?;
    put_rows(out, rows, fields)?;
    out.extend_from_slice(back)?;
    Ok(())
}

/// Appends a chapter of version one, which has these bytes.
pub(crate) fn put_chapter(
    out: &mut Vec<u8>,
    chapter: &RawChapter,
    bytes: &[u8],
) -> Result<(), AllocError>
    requires fits { FitsChapter Version.One chapter.now.body }
    requires is { bytes.now ≡ chapter_bytes Version.One chapter.now.body }
    ensures { OnOk result (out.new.items
        ≡ out.old.items ++ chapter_bytes Version.Two chapter.now.body) }
{
    let (_, body) = bytes.split_at(HEAD_BYTES);
    let rows = chapter.opening.rows.as_slice();
    put_head(out, body.len() + rows.len() + 1)?;
    put_body(out, chapter, body)?;
    Ok(())
}
