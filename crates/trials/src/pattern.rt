// The bytes that stores are tried on, and a short digest of bytes.
ghost use Rattle.std.specs.Prelude.{◌≡◌, IfOk, vec_len};

use hash::{Digest, HashFunction, MAX_PART, Message};
use sha256::Sha256;
use std::alloc::{AllocError, Global};

// Byte `at` of the pattern. No two records of a flat store over it are alike.
fn byte_at(at: u32) -> u8 {
    let mixed = at.wrapping_mul(2_654_435_761);
    ((mixed >> 7 ^ mixed >> 22) & 0xff) as u8
}

// Bytes of the pattern, from `start` on.
pub fn pattern(alloc: Global, start: u32, length: u32) -> Result<Vec<u8>, AllocError>
    ensures { IfOk result (λ bytes. vec_len bytes ≡ length) }
{
    (0..length)
        .map(|i| byte_at(start.wrapping_add(i)))
        .collect(alloc)
}

// The digest of a part together with the digest before it. No part is too long.
// A `match`, since `map_or` over a value that holds references gets no proof yet.
fn chained(last: Digest, part: &[u8]) -> Digest {
    match Message::new(part, &last) {
        Ok(message) => Sha256::hash(message),
        Err(_) => last,
    }
}

// The first eight bytes of the last digest of a chain over the parts of 65,536 bytes.
pub fn fingerprint(bytes: &[u8]) -> u64 {
    let last = bytes.chunks(MAX_PART).fold([0; 32], chained);
    u64::from_be_bytes(*last.first_chunk().unwrap())
}
