// Bytes, block by block into the state: `sponge A m` is the digest from the state A on, where m is all that is still to come.
ghost use Rattle.std.specs.Prelude.{◌≡◌, ℕ, ◌+◌, ◌<◌, List, ◌++◌, length};
ghost use Rattle.sha3.specs.Sponge.{sponge};

use super::block::{absorb_block, padded, squeeze};

// Takes the whole blocks of `bytes`, and gives what is left.
pub(crate) fn absorb<'a>(lanes: &mut [u64; 25], bytes: &'a [u8]) -> &'a [u8]
    ensures short { length result.now < 136 }
    ensures same { (m : List ℕ) → sponge lanes.new (result.now ++ m) ≡ sponge lanes.old (bytes.now ++ m) }
{
    let (blocks, rest) = bytes.as_chunks();
    for block in blocks {
        absorb_block(lanes, block);
    }
    rest
}

// Takes the last bytes, which are no whole block, and gives the digest.
pub(crate) fn finish(mut lanes: [u64; 25], first: &[u8], second: &[u8]) -> [u8; 32]
    requires { length first.now + length second.now < 136 }
    ensures { result ≡ sponge lanes (first.now ++ second.now) }
{
    absorb_block(&mut lanes, &padded(first, second));
    squeeze(&lanes)
}
