// Bytes and numbers by a place that may lie past the end, where they are 0. So nothing here asks a fact of its caller.

pub fn byte(bytes: &[u8], at: usize) -> u8 {
    bytes.get(at).copied().unwrap_or(0)
}

// A number of two bytes, the low one first.
pub fn two_bytes(bytes: &[u8], at: usize) -> u16 {
    u16::from_le_bytes([byte(bytes, at), byte(bytes, at.wrapping_add(1))])
}
