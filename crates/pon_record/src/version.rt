ghost use Rattle.std.specs.Prelude.{◌≡◌, ◌≢◌, MatchOption, take, length, ◌≤◌};
ghost use Rattle.pon_record.specs.declared.limits.TheConstants.{MAGIC_BYTES};
ghost use Rattle.pon_record.specs.declared.version.Version.{Version};
ghost use Rattle.pon_record.specs.Recordings.{magic};

use crate::limits::{MAGIC_BYTES, MAGIC_ONE, MAGIC_TWO};

/// A version of the format, told by the first bytes of a recording.
#[derive(Clone, Copy, Debug, PartialEq, Eq)]
pub enum Version {
    /// Chapters under rule one, without rule and carries.
    One,
    /// Chapters of both rules: each has its rule, and each row its carry.
    Two,
}

impl Version {
    /// The first bytes of a recording: `PONREC01` or `PONREC02`.
    pub fn magic(self) -> [u8; MAGIC_BYTES]
        ensures { result ≡ magic self }
    {
        match self {
            Version::One => MAGIC_ONE,
            Version::Two => MAGIC_TWO,
        }
    }
}

/// Returns the version of a recording that begins with these bytes, or `None` if they begin with other magic bytes.
pub(crate) fn version_of(bytes: &[u8]) -> Option<Version>
    requires { MAGIC_BYTES ≤ length bytes.now }
    ensures { MatchOption result ((v : Version) → take MAGIC_BYTES bytes.now ≢ magic v)
        (λ v. take MAGIC_BYTES bytes.now ≡ magic v) }
{
    if bytes[..MAGIC_BYTES] == MAGIC_ONE[..] {
        return Some(Version::One);
    }
    if bytes[..MAGIC_BYTES] == MAGIC_TWO[..] {
        return Some(Version::Two);
    }
    None
}
