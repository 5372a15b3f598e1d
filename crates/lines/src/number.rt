// "All numbers are big-endian." They can be read at every place.
ghost use Rattle.std.specs.Prelude.{◌≡◌, ℕ, ◌+◌, ◌<◌, slice_index};
ghost use Rattle.rtcp.specs.Number.{byte, four, two};
ghost use Rattle.lines.specs.Number.{eight};

// What a byte past the end counts as.
const PAST: u8 = 0;

// The byte so many places on. No place is added up that may lie past the last number.
fn byte(bytes: &[u8], at: usize, on: usize) -> u8
    ensures { result ≡ byte bytes.now (at + on) }
{
    if at < bytes.len() && on < bytes.len() - at {
        bytes[at + on]
    } else {
        PAST
    }
}

// The bytes from a place on.
fn bytes_at<const N: usize>(bytes: &[u8], at: usize) -> [u8; N]
    ensures { (k : ℕ) → k < N → slice_index result k ≡ byte bytes.now (at + k) }
{
    let mut read = [0; N];
    for on in 0..N {
        read[on] = byte(bytes, at, on);
    }
    read
}

pub fn two(bytes: &[u8], at: usize) -> u16
    ensures { result ≡ two bytes.now at }
{
    u16::from_be_bytes(bytes_at(bytes, at))
}

pub fn four(bytes: &[u8], at: usize) -> u32
    ensures { result ≡ four bytes.now at }
{
    u32::from_be_bytes(bytes_at(bytes, at))
}

pub fn eight(bytes: &[u8], at: usize) -> u64
    ensures { result ≡ eight bytes.now at }
{
    u64::from_be_bytes(bytes_at(bytes, at))
}
