// A store over bytes that it owns, with a place for every record.
#![tactic(auto)]

mod flat;
mod laws;
mod layout;

pub use flat::Flat;
pub use laws::{keeps_its_word, laws_stand};
