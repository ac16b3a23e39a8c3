// The bytes of little-endian numbers.
ghost use Rattle.std.specs.Prelude.{◌≡◌, ◌+◌, ◌≤◌, length, take, drop};

// The bytes that stand at a place, as many as a number takes.
// Kept: bytes and place are two arguments, since a reader that held both would require the same bound at each read.
pub(crate) fn bytes_at<const N: usize>(bytes: &[u8], place: usize) -> [u8; N]
    requires { place + N ≤ length bytes.now }
    ensures { result ≡ take N (drop place bytes.now) }
{
    *bytes[place..].first_chunk().unwrap()
}
