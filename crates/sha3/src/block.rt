// One block of 136 bytes, seventeen lanes: put together, into the state, padded, and the digest out of the state.
ghost use Rattle.std.specs.Prelude.{◌≡◌, ◌+◌, ◌-◌, ◌<◌, ◌≤◌, ◌++◌, length, replicate};
ghost use Rattle.sha3.specs.Keccak.{keccak_f};
ghost use Rattle.sha3.specs.Sponge.{xored, padding, squeezed};

use super::keccak::permute;
use std::array;

// The bytes of a block.
pub(crate) const RATE: usize = 136;

// Adds a block to the first lanes. By index: a `zip` with `iter_mut` would say nothing of the lanes afterwards.
fn xor_in(lanes: &mut [u64; 25], block: &[u8; RATE])
    ensures { lanes.new ≡ xored lanes.old block.now }
{
    let (words, _) = block.as_chunks::<8>();
    for (i, word) in words.iter().enumerate() {
        lanes[i] ^= u64::from_le_bytes(*word);
    }
}

// Adds a block, and permutes the state.
pub(crate) fn absorb_block(lanes: &mut [u64; 25], block: &[u8; RATE])
    ensures { lanes.new ≡ keccak_f (xored lanes.old block.now) }
{
    xor_in(lanes, block);
    permute(lanes);
}

// The block that begins with `first` and then `second`, and has zeros up to its end. The two are no `Message`: they are what is left of one.
pub(crate) fn joined(first: &[u8], second: &[u8]) -> [u8; RATE]
    requires { length first.now + length second.now ≤ 136 }
    ensures { result ≡ (first.now ++ second.now) ++ replicate (136 - (length first.now + length second.now)) 0 }
{
    let mut block = [0; RATE];
    let end = first.len() + second.len();
    block[..first.len()].copy_from_slice(first);
    block[first.len()..end].copy_from_slice(second);
    block
}

// The last block: what is left of a message, `first` and `second`, and the padding.
pub(crate) fn padded(first: &[u8], second: &[u8]) -> [u8; RATE]
    requires { length first.now + length second.now < 136 }
    ensures { result ≡ (first.now ++ second.now) ++ padding (135 - (length first.now + length second.now)) }
{
    let mut block = joined(first, second);
    block[first.len() + second.len()] = 0x06;
    block[RATE - 1] |= 0x80;
    block
}

// The bytes of the first four lanes.
pub(crate) fn squeeze(lanes: &[u64; 25]) -> [u8; 32]
    ensures { result ≡ squeezed lanes.now }
{
    array::from_fn(|i| lanes[i / 8].to_le_bytes()[i % 8])
}
