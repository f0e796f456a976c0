// A log as a store. It is always truthful.
ghost use Rattle.logstore.specs.Views.{LogDoes, log_of};
ghost use Rattle.logstore.specs.Sized.{table_sized};
ghost use Rattle.std.specs.Prelude.{refl, take};

use super::Log;
use crate::record::{LONGEST, header_length, write_record};
use store::{Store, Truthful, admit};
use terms::{Cause, MAX_BLOCKS, Place};

impl Store for Log {
    ghost meaning = { log_of };

    ghost does = { LogDoes };

    ghost sized = { λ s _ p r e. table_sized (take s.used s.bytes.items) r p e };

    fn span(&mut self) -> u32 {
        MAX_BLOCKS
    }

    // As many of the longest records as fit the bytes that are free.
    fn room(&mut self) -> u64 {
        ((self.bytes.len() - self.used) / LONGEST) as u64
    }

    fn get(&mut self, place: Place, out: &mut [u8]) -> Result<(), Cause> {
        admit(place, out.len(), MAX_BLOCKS)?;
        let at = self.index.start(place).ok_or(Cause::Nothing)?;
        let start = at + header_length(place);
        let end = start + out.len();
        out.copy_from_slice(&self.bytes[start..end]);
        Ok(())
    }

    // Writes the record behind the last one.
    fn put(&mut self, place: Place, record: &[u8]) -> Result<(), Cause> {
        admit(place, record.len(), MAX_BLOCKS)?;
        if self.bytes.len() - self.used < LONGEST {
            return Err(Cause::Full);
        }
        let at = self.used;
        write_record(self.bytes.as_mut_slice(), at, place, record);
        self.index.note(place, at);
        self.used = at + header_length(place) + record.len();
        Ok(())
    }
}

impl Truthful for Log {
    ghost truthful = { λ s. refl };
}
