// A store whose records follow one another in bytes that it owns; the last one for a place counts.
#![tactic(auto)]

mod index;
mod laws;
mod log;
mod record;
mod records;

pub use laws::{keeps_its_word, laws_stand};
pub use log::Log;
pub use log::error::OpenError;
