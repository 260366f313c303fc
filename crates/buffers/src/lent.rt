// A buffer before it is lent: a byte at each place that tells whether the place was written.
fn pattern(at: usize) -> u8 {
    ((at % 256) as u8).wrapping_add(165)
}

pub(crate) fn fill(b: &mut [u8]) {
    for (at, byte) in b.iter_mut().enumerate() {
        *byte = pattern(at);
    }
}

// Every byte from a place on is still what `fill` put there.
pub(crate) fn is_untouched(b: &[u8], from: usize) -> bool {
    b.iter()
        .enumerate()
        .skip(from)
        .all(|(at, byte)| *byte == pattern(at))
}
