// What `slipcheck` decides from the bytes of a seal and of a slip.
#![tactic(auto)]

mod judging;
#[cfg(test)]
mod tests;
mod verdict;

pub use judging::judge;
pub use verdict::{Accepted, Line, Verdict};
