// Big-endian numbers of two and of four bytes: read at an index of a slice, and given as their bytes.
#![tactic(auto)]

ghost use Rattle.std.specs.Prelude.{◌≡◌, ◌+◌, ◌≤◌, length, take, drop};
ghost use Rattle.big_endian.specs.Number.{number_at, bytes_of};

// The N bytes from an index on.
fn array_at<const N: usize>(bytes: &[u8], at: usize) -> [u8; N]
    requires { at + N ≤ length bytes.now }
    ensures { result ≡ take N (drop at bytes.now) }
{
    let mut array = [0; N];
    array.copy_from_slice(&bytes[at..at + N]);
    array
}

// The number that stands in the two bytes from an index on, and in the four.
// kept: a function for each width, as the library has `from_be_bytes` and `to_be_bytes` for each type.
#[tactic(auto, using(crate::proofs::Number::number_two))]
pub fn u16_at(bytes: &[u8], at: usize) -> u16
    requires { at + 2 ≤ length bytes.now }
    ensures { result ≡ number_at 2 bytes.now at }
{
    u16::from_be_bytes(array_at(bytes, at))
}

#[tactic(auto, using(crate::proofs::Number::number_four))]
pub fn u32_at(bytes: &[u8], at: usize) -> u32
    requires { at + 4 ≤ length bytes.now }
    ensures { result ≡ number_at 4 bytes.now at }
{
    u32::from_be_bytes(array_at(bytes, at))
}

// The two bytes of a number, and the four.
#[tactic(auto, using(crate::proofs::Number::bytes_two))]
pub fn u16_bytes(v: u16) -> [u8; 2]
    ensures { result ≡ bytes_of 2 v }
{
    v.to_be_bytes()
}

#[tactic(auto, using(crate::proofs::Number::bytes_four))]
pub fn u32_bytes(v: u32) -> [u8; 4]
    ensures { result ≡ bytes_of 4 v }
{
    v.to_be_bytes()
}
