// Section 5: a message as padded and parsed into blocks. It is nowhere stored as a whole.
ghost use Rattle.hash.specs.Messages.{text};
ghost use Rattle.sha256.specs.Hash.{compress as compressed};
ghost use Rattle.sha256.specs.Laid.{laid};
ghost use Rattle.sha256.specs.Padding.{block as block_of, pad};
ghost use Rattle.std.specs.Prelude.{◌≡◌, ℕ, ◌+◌, ◌*◌, ◌^◌, ◌<◌, ◌≤◌, IfSome, List, drop, length, slice_index, take};

use crate::block::compress;
use hash::Message;
use std::marker::Model;

// A message, read with its padding. Clauses see its bytes alone.
#[derive(Drop)]
pub(crate) struct Padded<'a> {
    message: Message<'a>,
}

impl<'a> Model for Padded<'a> {
    ghost Value = { List ℕ };

    ghost view = { λ p. text p.message };
}

impl<'a> Padded<'a> {
    pub(crate) fn new(message: Message<'a>) -> Padded<'a>
        ensures { result ≡ text message.entry }
    {
        Padded { message }
    }

    // How many blocks there are: after the message come the byte 0x80, zeros, and the length in 8 bytes.
    pub(crate) fn blocks(&self) -> usize
        ensures { 64 * result ≡ length (pad self.now) }
    {
        (self.message.len() + 1 + 8).div_ceil(64)
    }

    // The hash value after the block at `i`. One that is whole in a part is read there: to put each together takes 1.06 times as long.
    #[tactic(auto, using(crate::proofs::Pads::padded_below))]
    pub(crate) fn absorb(&self, hash: [u32; 8], i: usize) -> [u32; 8]
        requires { 64 * i + 64 ≤ length (pad self.now) }
        ensures { result ≡ compressed hash (block_of (pad self.now) i) }
    {
        let Message { first, second } = self.message;
        let start = 64 * i;
        if let Some(block) = whole(first, start) {
            return compress(hash, block);
        }
        if start >= first.len()
            && let Some(block) = whole(second, start - first.len())
        {
            return compress(hash, block);
        }
        compress(hash, &self.mixed(i))
    }

    // The block at `i`, put together from its pieces, each laid over zeros at its place. Few blocks need it.
    #[cold]
    #[tactic(auto, using(crate::proofs::Pads::padded_below))]
    fn mixed(&self, i: usize) -> [u8; 64]
        requires { 64 * i + 64 ≤ length (pad self.now) }
        ensures { result ≡ block_of (pad self.now) i }
    {
        let Message { first, second } = self.message;
        let start = 64 * i;
        let len = self.message.len();
        let bits = (8 * len as u64).to_be_bytes();
        let mut block = [0; 64];
        lay(&mut block, start, first, 0);
        lay(&mut block, start, second, first.len());
        lay(&mut block, start, &[0x80], len);
        lay(&mut block, start, &bits, 64 * self.blocks() - 8);
        block
    }
}

// The 64 bytes of `piece` from `at` on, if it has so many.
fn whole(piece: &[u8], at: usize) -> Option<&[u8; 64]>
    ensures { IfSome result (λ b. (at + 64 ≤ length piece.now) × (b.now ≡ take 64 (drop at piece.now))) }
{
    piece.get(at..)?.first_chunk()
}

// Lays `piece`, which begins at `at` of the padded message, over the 64 bytes from `start` on, where they meet.
fn lay(block: &mut [u8; 64], start: usize, piece: &[u8], at: usize)
    requires start { start < 2 ^ 62 }
    requires end { at + length piece.now < 2 ^ 62 }
    ensures { (k : ℕ) → k < 64 → slice_index block.new k ≡ laid piece.now at (start + k) (slice_index block.old k) }
{
    let from = start.max(at);
    let to = (start + 64).min(at + piece.len());
    if from < to {
        block[from - start..to - start].copy_from_slice(&piece[from - at..to - at]);
    }
}
