// SHA3-256 of FIPS 202, proved to be what `specs/` says.
#![tactic(auto)]

ghost use Rattle.sha3.specs.Sponge.{sha3_256};
ghost use Rattle.sha3.specs.Sized.{digest_length_lem};
ghost use Rattle.std.proofs.Common.{rules};

mod block;
mod keccak;
mod laws;
mod sponge;

use block::{RATE, absorb_block, joined};
use hash::{Digest, HashFunction, Message};
pub use laws::laws_stand;
use sponge::{absorb, finish};

// SHA3-256.
#[derive(Clone, Copy)]
pub struct Sha3;

impl HashFunction for Sha3 {
    // A number, as the interface has it for every hash function.
    const KIND: u8 = 2;

    ghost KIND = { 2 };

    ghost meaning = { sha3_256 };

    ghost sized = { digest_length_lem };

    ghost named = { Prim.search rules };

    fn hash(message: Message<'_>) -> Digest {
        let mut lanes = [0; 25];
        let held = absorb(&mut lanes, message.first);
        if held.is_empty() {
            let last = absorb(&mut lanes, message.second);
            return finish(lanes, last, &[]);
        }
        let Some((head, tail)) = message.second.split_at_checked(RATE - held.len()) else {
            return finish(lanes, held, message.second);
        };
        absorb_block(&mut lanes, &joined(held, head));
        let rest = absorb(&mut lanes, tail);
        finish(lanes, rest, &[])
    }
}
