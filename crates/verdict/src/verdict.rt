// What is said of a slip.
use terms::Refusal;

mod line;

pub use line::Line;

// It shows block `number` of a file of `count` blocks.
#[derive(Clone, Copy, Debug, PartialEq, Eq)]
pub struct Accepted {
    pub number: u32,
    pub count: u32,
}

pub type Verdict = Result<Accepted, Refusal>;
