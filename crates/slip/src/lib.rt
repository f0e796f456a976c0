// Slips: written, read where their bytes are, and checked under a seal.
#![tactic(auto)]

mod laws;
mod path;
mod slips;
mod writing;

pub use laws::laws_stand;
pub use slips::check::check_slip;
pub use slips::{CheckedSlip, MAX_SLIP_LENGTH, ReadSlip};
pub use writing::write_slip;
