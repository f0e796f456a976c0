// Seals: written, read, compared; and the two fields that slips begin with too.
#![tactic(auto)]

mod header;
mod laws;
mod order;
mod seal;

pub use header::{COUNT_TAG, Header, KIND_TAG, read_head};
pub use laws::laws_stand;
pub use order::Later;
pub use order::compare::later;
pub use seal::{SEAL_LENGTH, Seal};
