// What a store is to the vault above it, and what every store tests first.
#![tactic(auto)]

mod admission;
mod asking;
mod laws;
mod store;

pub use admission::admit;
pub use asking::{ask_span, keeps_its_word};
pub use laws::laws_stand;
pub use store::{Store, Truthful};
