// Three separate counts, and where a record of a store lies.

mod levels;
mod records;

// The highest level. A file has at most 2 to this power blocks.
pub const TOP_LEVEL: u8 = 12;

// The most blocks that a file may have.
pub const MAX_BLOCKS: u32 = 1 << TOP_LEVEL;

// The bytes of a block, and of a digest.
pub const BLOCK_LENGTH: usize = 1024;

pub const DIGEST_LENGTH: usize = 32;

// The number of a block of a file, from 0.
#[derive(Clone, Copy, Debug, PartialEq, Eq)]
pub struct BlockNumber(pub u32);

// The number of a node among those of its level, from 0.
#[derive(Clone, Copy, Debug, PartialEq, Eq)]
pub struct NodeNumber(pub u32);

// How far a node is above the blocks, at most `TOP_LEVEL`: `Level::new` makes no other.
#[derive(Clone, Copy, Debug, PartialEq, Eq)]
pub struct Level(u8);

// Where a record lies: a block, or the node that covers the blocks
// `number × 2^level` to `(number + 1) × 2^level − 1`.
#[derive(Clone, Copy, Debug, PartialEq, Eq)]
pub enum Place {
    Block(BlockNumber),
    Node(Level, NodeNumber),
}
