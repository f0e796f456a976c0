// The strings that are hashed: a leaf string is byte 0 and a block, a node string byte 1 and two digests.
ghost use Rattle.tree.specs.Tree.{leaf, node};
ghost use Rattle.std.specs.Prelude.{◌≡◌, []};

use hash::{Digest, HashFunction, Message};
pub use terms::BLOCK_LENGTH;

// A block of a file.
pub type Block = [u8; BLOCK_LENGTH];

// The digest of the empty string, which is the root of no blocks.
pub fn empty_digest<D: HashFunction>() -> Digest
    ensures { result ≡ D.meaning [] }
{
    D::hash(Message {
        first: &[],
        second: &[],
    })
}

// The digest of a block's leaf string.
pub fn leaf_digest<D: HashFunction>(block: &Block) -> Digest
    ensures { result ≡ D.meaning (leaf block.now) }
{
    D::hash(Message {
        first: &[0],
        second: block,
    })
}

// The digest of the node string over the digests of a left and a right part.
pub fn node_digest<D: HashFunction>(left: &Digest, right: &Digest) -> Digest
    ensures { result ≡ D.meaning (node left.now right.now) }
{
    let mut first = [1; 33];
    first[1..].copy_from_slice(left);
    D::hash(Message {
        first: &first,
        second: right,
    })
}
