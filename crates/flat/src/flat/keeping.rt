// A flat store as a store. It is always truthful.
ghost use Rattle.flat.specs.Sized.{table_sized};
ghost use Rattle.flat.specs.Views.{FlatDoes, Lies, flat_of};
ghost use Rattle.std.specs.Prelude.{refl};

use super::Flat;
use crate::layout::offset_of;
use std::ops::Range;
use store::{Store, Truthful, admit};
use terms::{Cause, Place};

// The room of every flat store: a put uses none up.
const ROOM: u64 = 0xffff_ffff;

impl Flat {
    // Which of its bytes are the record at a place, if one of this length can lie there.
    fn part_of(&self, place: Place, length: usize) -> Result<Range<usize>, Cause>
        ensures { Lies self.now place length result }
    {
        admit(place, length, self.span)?;
        let start = offset_of(self.span, place);
        Ok(start..start + length)
    }
}

impl Store for Flat {
    ghost meaning = { flat_of };

    ghost does = { FlatDoes };

    ghost sized = { λ s _ p r e. table_sized s.bytes.items r p e };

    fn span(&mut self) -> u32 {
        self.span
    }

    fn room(&mut self) -> u64 {
        ROOM
    }

    fn get(&mut self, place: Place, out: &mut [u8]) -> Result<(), Cause> {
        let part = self.part_of(place, out.len())?;
        out.copy_from_slice(&self.bytes[part.start..part.end]);
        Ok(())
    }

    fn put(&mut self, place: Place, record: &[u8]) -> Result<(), Cause> {
        let part = self.part_of(place, record.len())?;
        self.bytes[part.start..part.end].copy_from_slice(record);
        Ok(())
    }
}

impl Truthful for Flat {
    ghost truthful = { λ s. refl };
}
