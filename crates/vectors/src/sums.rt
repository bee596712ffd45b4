//! Checksums, and numbers by chance.

/// A checksum with one number more: 31 times what it was, and the number.
pub fn folded(sum: u32, number: u32) -> u32 {
    sum.wrapping_mul(31).wrapping_add(number)
}

/// The checksum of bytes.
pub fn sum_of(bytes: &[u8]) -> u32 {
    let mut sum = 0;
    for byte in bytes {
        sum = folded(sum, *byte as u32);
    }
    sum
}

/// The next number of a linear congruence, of which the higher bits are like chance.
pub fn drawn(number: u32) -> u32 {
    number.wrapping_mul(1_664_525).wrapping_add(1_013_904_223)
}
