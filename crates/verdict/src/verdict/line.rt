// The line that `slipcheck` prints, without its end.
ghost use Rattle.std.specs.Prelude.{Some};
ghost use Rattle.verdict.specs.Verdict.{accepted_line, line_of};

use super::{Accepted, Verdict};
use std::fmt;

impl fmt::Display for Accepted {
    ghost output = { λ v. Some (accepted_line v) };

    fn fmt<W: fmt::Write>(&self, f: &mut fmt::Formatter<W>) -> fmt::Result {
        let Accepted { number, count } = *self;
        write!(f, "accepted {number} of {count}")
    }
}

// A verdict, printed as its line: the one of what is accepted, or the refusal's own.
#[derive(Clone, Copy, Debug, PartialEq, Eq)]
pub struct Line(pub Verdict);

impl fmt::Display for Line {
    ghost output = { λ l. Some (line_of l.0) };

    fn fmt<W: fmt::Write>(&self, f: &mut fmt::Formatter<W>) -> fmt::Result {
        match &self.0 {
            Ok(accepted) => write!(f, "{accepted}"),
            Err(refusal) => write!(f, "{refusal}"),
        }
    }
}
