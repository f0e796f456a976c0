ghost use Rattle.std.specs.Prelude.{◌≤◌, take, vec_len};
ghost use Rattle.logstore.specs.Index.{Agrees};
ghost use Rattle.logstore.specs.Records.{Whole};

use crate::index::Index;

pub mod error;
mod keeping;
mod making;

// A log: its bytes, how many of them are records, and where the last record for each place starts. The bytes behind the records are the
// caller's and come back by `into_bytes`, so the used length stands beside them.
#[derive(Debug, Drop)]
pub struct Log {
    bytes: Vec<u8>,
    used: usize,
    index: Index,
    ghost within: { used ≤ vec_len bytes },
    ghost whole: { Whole (take used bytes.items) },
    ghost agrees: { Agrees (take used bytes.items) index.starts.items },
}
