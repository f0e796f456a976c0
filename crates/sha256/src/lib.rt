// SHA-256, as FIPS 180-4 has it. The comments give that standard's sections.
#![tactic(auto)]

mod block;
mod constants;
mod digest;
mod laws;
mod message;
mod words;

pub use digest::Sha256;
pub use laws::laws_stand;
