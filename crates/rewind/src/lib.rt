// A store that is not to be believed, for trials: it answers with an old block.
#![tactic(auto)]

mod rewind;

pub use rewind::Rewind;
