// Arrays of bytes at a place among bytes, and the little-endian numbers there.
ghost use Rattle.std.specs.Prelude.{◌≡◌, ℕ, ◌+◌, ◌*◌, ◌<◌, ◌≤◌, [], length, take, drop, slice_index_or};
ghost use Rattle.zone_table.specs.Bytes.{le16};

// So many arrays of N bytes, one after the other from this place on.
pub(crate) fn arrays_at<const N: usize>(bytes: &[u8], at: usize, count: usize) -> &[[u8; N]]
    requires some { 0 < N }
    requires inside { at + count * N ≤ length bytes.now }
    ensures len { length result.now ≡ count }
    ensures each { (i : ℕ) → i < count → slice_index_or result.now i [] ≡ take N (drop (at + i * N) bytes.now) }
{
    &bytes[at..].as_chunks().0[..count]
}

#[tactic(auto, using(crate::proofs::Arrays::le16_first))]
pub(crate) fn u16_of(array: [u8; 2]) -> u16
    ensures { result ≡ le16 array 0 }
{
    u16::from_le_bytes(array)
}

#[tactic(auto, using(crate::proofs::Arrays::le16_array))]
pub(crate) fn u16_at(bytes: &[u8], at: usize) -> u16
    requires { at + 2 ≤ length bytes.now }
    ensures { result ≡ le16 bytes.now at }
{
    u16_of(arrays_at(bytes, at, 1)[0])
}
