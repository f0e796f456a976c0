// What a hash function is to the tree above it.
#![tactic(auto)]

mod function;
mod message;

pub use function::{Digest, HashFunction};
pub use message::{MAX_PART, Message};
