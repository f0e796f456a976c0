// A store made of two, of any make: blocks in the first, nodes in the second.
#![tactic(auto)]

mod split;

pub use split::Split;
