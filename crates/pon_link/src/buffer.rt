ghost use Rattle.std.specs.Prelude.{◌≡◌, ◌+◌, ◌≤◌, ◌++◌, length};
ghost use Rattle.pon_lists.specs.Bytes.{AreBytes};

use arrayvec::ArrayVec;

// Appends bytes for which there is room.
pub(crate) fn append<const N: usize>(bytes: &mut ArrayVec<u8, N>, more: &[u8])
    requires { length bytes.old.items + length more.now ≤ N }
    ensures { bytes.new.items ≡ bytes.old.items ++ more.now }
{
    bytes.try_extend_from_slice(more).unwrap();
}

// Proves that each number of a slice of bytes is below 256. It computes nothing.
pub(crate) fn prove_bytes(bytes: &[u8])
    ensures { AreBytes bytes.now }
{
    let _size = bytes.len();
}
