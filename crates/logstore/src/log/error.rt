// Why bytes were not opened as a log.
ghost use Rattle.logstore.specs.Views.{open_error_text};
ghost use Rattle.std.specs.Prelude.{Some};

use super::Log;
use std::error::Error;
use std::fmt;
use terms::Refusal;

#[derive(Debug, Drop)]
pub enum OpenError {
    // there is no memory for the index; the bytes, as they were
    NoMemory(Vec<u8>),
    // the bytes up to the used length are not all records; the empty log over the same bytes, and the refusal
    NotRecords(Log, Refusal),
}

impl fmt::Display for OpenError {
    ghost output = { λ e. Some (open_error_text e) };

    fn fmt<W: fmt::Write>(&self, f: &mut fmt::Formatter<W>) -> fmt::Result {
        match self {
            OpenError::NoMemory(_) => f.write_str("there is no memory for the index"),
            OpenError::NotRecords(_, refusal) => write!(f, "{refusal}"),
        }
    }
}

impl Error for OpenError {}
