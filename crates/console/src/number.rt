// "All numbers are big-endian."
ghost use Rattle.std.specs.Prelude.{◌+◌, ◌≤◌, length};

// The low bytes of a number, so many of them, from a place on.
pub(crate) fn put_number(bytes: &mut [u8], at: usize, x: u32, count: usize)
    requires { (at + count ≤ length bytes.old) × (count ≤ 4) }
{
    bytes[at..at + count].copy_from_slice(&x.to_be_bytes()[4 - count..]);
}
