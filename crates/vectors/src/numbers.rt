// The numbers of a line, each for what it is wanted as.
use ground::twos::signed_half;

// 0 where the line has fewer.
pub(crate) fn nth(line: &[usize], i: usize) -> usize {
    line.get(i).copied().unwrap_or(0)
}

// For a parameter of fewer bits. A number that doesn't fit becomes the largest and not its low bits,
// which might be taken.
pub(crate) fn byte(n: usize) -> u8 {
    u8::try_from(n).unwrap_or(u8::MAX)
}

pub(crate) fn word(n: usize) -> u32 {
    u32::try_from(n).unwrap_or(u32::MAX)
}

// A negative number stands in a line modulo 2^64.
pub(crate) fn half(n: usize) -> i16 {
    signed_half((n % 65536) as u16)
}
