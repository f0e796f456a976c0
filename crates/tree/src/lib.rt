// The Merkle tree of RFC 6962, section 2.1, over any hash function.
#![tactic(auto)]

mod blocks;
mod laws;
mod leading;
mod length;
mod strings;

pub use blocks::{path, root};
pub use laws::laws_stand;
pub use leading::root_from_path;
pub use length::path_length;
pub use strings::{BLOCK_LENGTH, Block, empty_digest, leaf_digest, node_digest};
