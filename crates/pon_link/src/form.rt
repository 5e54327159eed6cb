// The size and the faults of the present record, before it is whole.
ghost use Rattle.std.specs.Prelude.{◌≡◌, ◌+◌, ◌*◌, ◌≤◌, ◌<◌, ◌⊎◌, ℕ, length, false, MatchOption, OnSome};
ghost use Rattle.pon_link.specs.Reading.{KeepsForm, HasFault, HasBadSize, MayBecomeRecord, IsWithinRecord, Announces, AnnouncesMap, tag_of, header_len, bad_size as fault_of};

use crate::direction::Direction;
use crate::fault::LinkFault;
use pon_units::{MAX_SERIES, MAX_STRUCTURES};
use pon_xgtc::HLend;

/// Tag of an upstream record.
pub(crate) const UP_TAG: u8 = 0x55;

/// Tag of a downstream record.
pub(crate) const DOWN_TAG: u8 = 0x44;

fn tag(direction: Direction) -> u8
    ensures { result ≡ tag_of direction }
{
    match direction {
        Direction::Up => UP_TAG,
        Direction::Down => DOWN_TAG,
    }
}

// Returns the number of bytes from which the size of a record is known.
fn header_len(direction: Direction) -> usize
    ensures value { result ≡ header_len direction }
    ensures limit { result ≤ 14 }
{
    match direction {
        Direction::Up => 14,
        Direction::Down => 13,
    }
}

// Returns the size of a record, in bytes, from its first bytes.
fn announced_size(direction: Direction, bytes: &[u8]) -> Option<usize>
    requires { header_len direction ≤ length bytes.now }
    ensures { MatchOption result (HasBadSize direction bytes.now) (Announces direction bytes.now) }
{
    match direction {
        Direction::Up => up_size(bytes[13]),
        Direction::Down => down_size(&bytes[9..]),
    }
}

// Returns the size of a record with this count byte, in bytes.
fn up_size(count: u8) -> Option<usize>
    ensures { MatchOption result ((count ≡ 0) ⊎ (MAX_SERIES < count))
        (λ n. (1 ≤ count) × (count ≤ MAX_SERIES) × (n ≡ 14 + 4 * count)) }
{
    if count == 0 || usize::from(count) > MAX_SERIES {
        return None;
    }
    Some(14 + 4 * usize::from(count))
}

// Returns the size of a record with these bytes of a map, in bytes.
fn down_size(map: &[u8]) -> Option<usize>
    requires { 4 ≤ length map.now }
    ensures { MatchOption result ((n : ℕ) → AnnouncesMap map.now n → ⊥) (AnnouncesMap map.now) }
{
    let head = match HLend::decode(map) {
        Ok((head, _)) => head,
        Err(_) => return None,
    };
    if usize::from(head.n()) > MAX_STRUCTURES || head.p() > 0 {
        return None;
    }
    Some(13 + 8 * usize::from(head.n()))
}

// Returns why the bytes are not a prefix of a record.
pub(crate) fn form_fault(direction: Direction, bytes: &[u8]) -> Option<LinkFault>
    ensures value { MatchOption result (KeepsForm direction bytes.now)
        (λ f. HasFault record { direction = direction; held = bytes.now; ended = false } f) }
    ensures closed { OnSome result (MayBecomeRecord direction bytes.now → ⊥) }
{
    if bytes.is_empty() {
        return None;
    }
    if bytes[0] != tag(direction) {
        return Some(LinkFault::BadTag);
    }
    if bytes.len() >= header_len(direction) && announced_size(direction, bytes).is_none() {
        return Some(bad_size(direction));
    }
    None
}

fn bad_size(direction: Direction) -> LinkFault
    ensures { result ≡ fault_of direction }
{
    match direction {
        Direction::Up => LinkFault::BadCount,
        Direction::Down => LinkFault::BadMap,
    }
}

// Returns the minimum number of bytes that the record still needs: those up to its size, and after that all.
pub(crate) fn needed(direction: Direction, bytes: &[u8]) -> usize
    requires form { KeepsForm direction bytes.now }
    requires within { IsWithinRecord direction bytes.now }
    ensures untold { length bytes.now < header_len direction
        → length bytes.now + result ≡ header_len direction }
    ensures told { header_len direction ≤ length bytes.now
        → Announces direction bytes.now (length bytes.now + result) }
    ensures more { MayBecomeRecord direction bytes.now → 0 < result }
{
    let head = header_len(direction);
    if bytes.len() < head {
        return head - bytes.len();
    }
    announced_size(direction, bytes).unwrap() - bytes.len()
}
