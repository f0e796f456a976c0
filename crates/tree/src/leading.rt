// The root that a block and a path lead to.
ghost use Rattle.std.specs.Prelude.{◌≡◌, suc, ◌≤◌};
ghost use Rattle.tree.specs.Answers.{root_answer};
ghost use Rattle.tree.specs.Tree.{root_from, turns};

use crate::strings::{Block, leaf_digest, node_digest};
use hash::{Digest, HashFunction};
use terms::{BlockNumber, DIGEST_LENGTH, Refusal};

// What the siblings in `path` lead to from the digest `below` of block `number`, where `last` is the last block: an odd number is a right part, and the last node of a level that is even is carried up unpaired.
fn lead<D: HashFunction>(below: Digest, number: usize, last: usize, path: &[Digest]) -> Digest
    requires { number ≤ last }
    ensures { result ≡ root_from D.meaning below (turns number (suc last)) path.now }
{
    let [sibling, rest @ ..] = path else {
        return below;
    };
    if last == 0 {
        return below;
    }
    if number % 2 == 1 {
        let above = node_digest::<D>(sibling, &below);
        return lead::<D>(above, number / 2, last / 2, rest);
    }
    if number < last {
        let above = node_digest::<D>(&below, sibling);
        return lead::<D>(above, number / 2, last / 2, rest);
    }
    lead::<D>(below, number / 2, last / 2, path)
}

// The root that `block` and the digests in `path` lead to, as block `number` of `count`. It refuses a number that is not below the count. The length of `path` is the caller's to test: digests that are missing lead nowhere further, and what is left over is not read.
pub fn root_from_path<D: HashFunction>(
    number: BlockNumber,
    count: u32,
    block: &Block,
    path: &[u8],
) -> Result<Digest, Refusal>
    ensures { result ≡ root_answer D.meaning number.0 count block.now path.now }
{
    if number.0 >= count {
        return Err(Refusal::NoSuchBlock);
    }
    let (siblings, _) = path.as_chunks::<DIGEST_LENGTH>();
    let below = leaf_digest::<D>(block);
    Ok(lead::<D>(below, number.0 as usize, count as usize - 1, siblings))
}
