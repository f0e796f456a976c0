// Root and path of a file whose blocks are all at hand.
ghost use Rattle.std.specs.Prelude.{◌≡◌, ◌+◌, ◌<◌, ◌≤◌, ◌++◌, length, drop, slice_set};
ghost use Rattle.tree.specs.Answers.{path_answer, path_written};
ghost use Rattle.tree.specs.Tree.{path_length, root as root_of, path as path_of};

use crate::length::{path_length, split_point};
use crate::strings::{Block, empty_digest, leaf_digest, node_digest};
use hash::{Digest, HashFunction};
use terms::{BlockNumber, Refusal};

// The root of a list of blocks.
pub fn root<D: HashFunction>(blocks: &[Block]) -> Digest
    ensures { result ≡ root_of D.meaning blocks.now }
{
    match blocks {
        [] => empty_digest::<D>(),
        [block] => leaf_digest::<D>(block),
        _ => {
            let (first, rest) = blocks.split_at(split_point(blocks.len()));
            node_digest::<D>(&root::<D>(first), &root::<D>(rest))
        }
    }
}

// Writes a digest at `at`, and says where the next goes: the buffer is lent, and what stands behind the path in it stays.
fn put(out: &mut [Digest], at: usize, digest: Digest) -> usize
    requires { at < length out.old }
    ensures next { result ≡ at + 1 }
    ensures out { out.new ≡ slice_set out.old at digest }
{
    out[at] = digest;
    at + 1
}

// Writes the path of block `number` over the front of `out`, and says how many digests it has.
fn write_path<D: HashFunction>(blocks: &[Block], number: usize, out: &mut [Digest]) -> usize
    requires within { number < length blocks.now }
    requires room { path_length number (length blocks.now) ≤ length out.old }
    ensures long { result ≡ path_length number (length blocks.now) }
    ensures out { out.new ≡ path_of D.meaning number blocks.now ++ drop result out.old }
{
    if blocks.len() < 2 {
        return 0;
    }
    let (first, rest) = blocks.split_at(split_point(blocks.len()));
    if number < first.len() {
        let below = write_path::<D>(first, number, out);
        put(out, below, root::<D>(rest))
    } else {
        let below = write_path::<D>(rest, number - first.len(), out);
        put(out, below, root::<D>(first))
    }
}

// Writes the path of block `number`, lowest sibling first, over the front of `out`, and answers how many digests it has. It refuses a number that is not below the count, then an `out` that is too short, and leaves `out` as it was.
pub fn path<D: HashFunction>(
    blocks: &[Block],
    number: BlockNumber,
    out: &mut [Digest],
) -> Result<usize, Refusal>
    ensures answer { result ≡ path_answer number.0 (length blocks.now) (length out.old) }
    ensures out { out.new ≡ path_written D.meaning number.0 blocks.now out.old }
{
    let number = number.0 as usize;
    if number >= blocks.len() {
        return Err(Refusal::NoSuchBlock);
    }
    if out.len() < path_length(number, blocks.len()) {
        return Err(Refusal::BufferShort);
    }
    Ok(write_path::<D>(blocks, number, out))
}
