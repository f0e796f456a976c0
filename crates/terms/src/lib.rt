// What every layer names: block and node numbers, levels and places; refusals.
#![tactic(auto)]

mod cause;
mod layer;
mod place;
mod refusal;
mod site;

pub use cause::Cause;
pub use layer::Layer;
pub use place::{
    BLOCK_LENGTH, BlockNumber, DIGEST_LENGTH, Level, MAX_BLOCKS, NodeNumber, Place, TOP_LEVEL,
};
pub use refusal::Refusal;
pub use site::Site;
