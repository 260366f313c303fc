// FNV-1a, 64 bits.
const BASIS: u64 = 0xcbf29ce484222325;

const PRIME: u64 = 0x100000001b3;

pub fn hash(bytes: &[u8]) -> u64 {
    bytes
        .iter()
        .fold(BASIS, |h, b| (h ^ u64::from(*b)).wrapping_mul(PRIME))
}
