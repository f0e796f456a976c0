// Section 6.2: SHA-256 of a message in two parts, as a hash function.
ghost use Rattle.sha256.specs.Hash.{bytes, compress as compressed, final, sha256 as hashed};
ghost use Rattle.sha256.specs.Padding.{block, pad};
ghost use Rattle.sha256.specs.Sized.{of_32_bytes};
ghost use Rattle.std.proofs.Common.{rules};
ghost use Rattle.std.specs.Prelude.{◌≡◌, ◌+◌, ◌*◌, ◌≤◌, length};

use crate::constants::H0;
use crate::message::Padded;
use hash::{Digest, HashFunction, Message};
use std::array;

// The hash function of kind 1.
#[derive(Clone, Copy)]
pub struct Sha256;

impl HashFunction for Sha256 {
    // A number, as the interface has it for every hash function.
    const KIND: u8 = 1;

    ghost KIND = { 1 };

    ghost meaning = { hashed };

    ghost sized = { λ m. (of_32_bytes m).0 };

    ghost named = { Prim.search rules };

    fn hash(message: Message<'_>) -> Digest {
        bytes_of(&hash_of(&Padded::new(message)))
    }
}

// The hash value after the last block of a message.
fn hash_of(padded: &Padded<'_>) -> [u32; 8]
    ensures { result ≡ final padded.now }
{
    (0..padded.blocks()).fold(
        H0,
        |hash, i| -> [u32; 8]
            requires { 64 * i + 64 ≤ length (pad padded.now) }
            ensures { result ≡ compressed hash (block (pad padded.entry.now) i) }
        { padded.absorb(hash, i) },
    )
}

// The words of a hash value as bytes, the most significant of each first.
fn bytes_of(hash: &[u32; 8]) -> Digest
    ensures { result ≡ bytes hash.now }
{
    array::from_fn(|i| hash[i / 4].to_be_bytes()[i % 4])
}
