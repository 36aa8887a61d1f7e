//! Pieces of the bytes that a source in memory holds.
ghost use Rattle.std.specs.Prelude.{◌≡◌, ◌≤◌, length, take, drop, min};

// Copies the bytes from `at` on to the front of `into`: as many as are left, as there is room for, and `most` at the
// most.
pub fn copy_piece(bytes: &[u8], at: usize, most: usize, into: &mut [u8]) -> usize
    requires { at ≤ length bytes.now }
    ensures count { result ≡ min (min (length (drop at bytes.now)) (length into.old)) most }
    ensures copied { take result into.new ≡ take result (drop at bytes.now) }
{
    let left = &bytes[at..];
    let count = left.len().min(into.len()).min(most);
    into[..count].copy_from_slice(&left[..count]);
    count
}
