// A log is made from bytes, and gives them back.
ghost use Rattle.logstore.specs.Index.{slots};
ghost use Rattle.logstore.specs.Views.{Opened};
ghost use Rattle.std.specs.Prelude.{◌≡◌, replicate, None, MatchResult};

use super::Log;
use super::error::OpenError;
use crate::index::Index;
use std::alloc::{AllocFailed, Global};
use terms::Refusal;

// The log with no records, over the bytes.
fn blank_log(bytes: Vec<u8>, index: Index) -> Log
    requires { index.starts.items ≡ replicate slots None }
    ensures bytes { result.bytes ≡ bytes }
    ensures used { result.used ≡ 0 }
{
    Log {
        bytes,
        used: 0,
        index,
    }
}

impl Log {
    // A log with no records, over the bytes. Without memory for its index it gives the bytes back.
    pub fn empty(alloc: Global, bytes: Vec<u8>) -> Result<Log, AllocFailed<Vec<u8>>>
        ensures { MatchResult result (λ log. (log.bytes ≡ bytes) × (log.used ≡ 0)) (λ back. back.value ≡ bytes) }
    {
        match Index::blank(alloc) {
            Ok(index) => Ok(blank_log(bytes, index)),
            Err(_) => Err(AllocFailed { value: bytes }),
        }
    }

    // The log whose records are the first `used` bytes. Where these are not all records, the log is empty and the refusal names the first byte at
    // which no whole record stands, or the bytes' length, which `used` passes.
    pub fn open(alloc: Global, bytes: Vec<u8>, used: usize) -> Result<Log, OpenError>
        ensures { Opened bytes used result }
    {
        let length = bytes.len();
        let Ok(mut index) = Index::blank(alloc) else {
            return Err(OpenError::NoMemory(bytes));
        };
        if used > length {
            let log = blank_log(bytes, index);
            return Err(OpenError::NotRecords(log, Refusal::LogForm(length)));
        }
        let at = index.note_all(&bytes[0..used]);
        if at != used {
            index.clear();
            let log = blank_log(bytes, index);
            return Err(OpenError::NotRecords(log, Refusal::LogForm(at)));
        }
        Ok(Log { bytes, used, index })
    }

    // The bytes and the used length, as they are now.
    pub fn into_bytes(self) -> (Vec<u8>, usize)
        ensures bytes { result.0 ≡ self.bytes }
        ensures used { result.1 ≡ self.used }
    {
        let Log {
            bytes,
            used,
            index: _,
        } = self;
        (bytes, used)
    }
}
