//! The texts of replies and refusals. Each is appended to the replies before it.

ghost use Rattle.std.specs.Prelude.{◌≡◌, ◌+◌, ◌*◌, ◌≤◌, ◌++◌, ◌∷◌, [], OnOk, OnErr, Some, codes, decimal, length, vec_len, vec_capacity};
ghost use Rattle.hex.specs.Hex.{encode_lower};
ghost use Rattle.pon_bwmap.specs.MapBytes.{map_bytes};
ghost use Rattle.pon_history.specs.Last.{MatchesMembers};
ghost use Rattle.pon_manage.specs.Text.{cert_line, refusal_line, reply_line};

use itoa::Buffer;
use pon_bwmap::{Map, write_map};
use pon_line::LineFault;
use pon_port::{Entry, EntryRef, MadeMap, Reply};
use pon_units::{AllocId, FrameNo, MAX_STRUCTURES};
use std::alloc::AllocError;

/// Appends the refusal of a line. `Err` only if memory is refused, and then the replies are unchanged.
pub(crate) fn append_refusal(replies: &mut Vec<u8>, fault: LineFault) -> Result<(), AllocError>
    ensures ok { OnOk result (replies.new.items ≡ replies.old.items ++ refusal_line fault) }
    ensures err { OnErr result (replies.new.items ≡ replies.old.items) }
{
    let text = format!(in *replies.allocator(); "err {fault}\n")?;
    replies.extend_from_slice(text.as_bytes())
}

// Replaces the content of `room` by the bytes of a map.
fn write_bytes(room: &mut Vec<u8>, map: &Map) -> Result<(), AllocError>
    ensures bytes { OnOk result (room.new.items ≡ map_bytes map.now) }
    ensures count { OnOk result (vec_len room.new ≤ 4 + 8 * MAX_STRUCTURES) }
{
    room.resize(4 + 8 * map.rows().len(), 0)?;
    write_map(map, room.as_mut_slice());
    Ok(())
}

// Appends bytes in lower-case hexadecimal. The capacity must suffice for them.
fn append_hex(replies: &mut Vec<u8>, bytes: &[u8])
    requires { vec_len replies.old + 2 * length bytes.now ≤ vec_capacity replies.old }
    ensures text { replies.new.items ≡ replies.old.items ++ encode_lower bytes.now }
    ensures count { vec_len replies.new ≡ vec_len replies.old + 2 * length bytes.now }
    ensures capacity { vec_capacity replies.old ≤ vec_capacity replies.new }
{
    let from = replies.len();
    replies.resize(from + 2 * bytes.len(), 0).unwrap();
    hex::encode_to_slice(bytes, &mut replies.as_mut_slice()[from..]).unwrap();
}

// Appends the reply line of a map, of which the frame and the bytes are given.
fn append_bytes(replies: &mut Vec<u8>, frame: FrameNo, bytes: &[u8]) -> Result<(), AllocError>
    requires { length bytes.now ≤ 4 + 8 * MAX_STRUCTURES }
    ensures ok { OnOk result (replies.new.items ≡ replies.old.items
        ++ (codes "map " ++ (decimal frame ++ (32 ∷ encode_lower bytes.now ++ 10 ∷ [])))) }
    ensures err { OnErr result (replies.new.items ≡ replies.old.items) }
{
    let mut digits = Buffer::new();
    let frame = digits.format(frame.get()).as_bytes();
    replies.reserve(b"map  \n".len() + frame.len() + 2 * bytes.len())?;
    replies.extend_from_slice(b"map ")?;
    replies.extend_from_slice(frame)?;
    replies.extend_from_slice(b" ")?;
    append_hex(replies, bytes);
    replies.extend_from_slice(b"\n")
}

// Appends the reply line of a map. `room` is a buffer for its bytes.
fn append_map(replies: &mut Vec<u8>, room: &mut Vec<u8>, made: &MadeMap) -> Result<(), AllocError>
    ensures ok { OnOk result (replies.new.items
        ≡ replies.old.items ++ reply_line 0 (Reply.Map made.now)) }
    ensures err { OnErr result (replies.new.items ≡ replies.old.items) }
{
    write_bytes(room, &made.map)?;
    append_bytes(replies, made.frame, room.as_slice())
}

// Appends the reply line of an event that makes no map; `index` is that of its entry.
fn append_taken(replies: &mut Vec<u8>, index: usize) -> Result<(), AllocError>
    ensures ok { OnOk result (replies.new.items
        ≡ replies.old.items ++ reply_line index Reply.Taken) }
    ensures err { OnErr result (replies.new.items ≡ replies.old.items) }
{
    let mut digits = Buffer::new();
    let index = digits.format(index).as_bytes();
    replies.reserve(b"ok \n".len() + index.len())?;
    replies.extend_from_slice(b"ok ")?;
    replies.extend_from_slice(index)?;
    replies.extend_from_slice(b"\n")
}

/// Appends the reply line of an entry with this index. `room` is a buffer for the bytes of a map, with
/// any content. `Err` only if memory is refused, and then the replies are unchanged.
pub(crate) fn append_reply(
    replies: &mut Vec<u8>,
    room: &mut Vec<u8>,
    index: usize,
    entry: &Entry,
) -> Result<(), AllocError>
    ensures ok { OnOk result (replies.new.items
        ≡ replies.old.items ++ reply_line index entry.now.reply) }
    ensures err { OnErr result (replies.new.items ≡ replies.old.items) }
{
    match entry.as_ref() {
        EntryRef::Taken(_) => append_taken(replies, index),
        EntryRef::Map(made) => append_map(replies, room, made),
    }
}

/// Appends the certificate line of a map; `na` and `be` are the Alloc-IDs of its two classes. `Err` only if memory is
/// refused, and then the replies are unchanged.
pub(crate) fn append_cert(
    replies: &mut Vec<u8>,
    made: &MadeMap,
    na: &[AllocId],
    be: &[AllocId],
) -> Result<(), AllocError>
    requires { MatchesMembers made.now.cert na.now be.now }
    ensures ok { OnOk result (replies.new.items ≡ replies.old.items
        ++ cert_line (Some (record { made = made.now; na = na.now; be = be.now }))) }
    ensures err { OnErr result (replies.new.items ≡ replies.old.items) }
{
    let alloc = *replies.allocator();
    let text = made.cert.to_text(alloc, na, be)?;
    let frame = made.frame.get();
    let line = format!(in alloc; "cert {frame} {text}\n")?;
    replies.extend_from_slice(line.as_bytes())
}
