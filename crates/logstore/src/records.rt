// The records of a log, one after another.
ghost use Rattle.std.specs.Prelude.{◌≡◌, ◌-◌, length};
ghost use Rattle.std.specs.Iterator.{at_most};
ghost use Rattle.fields.specs.Fields.{from};
ghost use Rattle.logstore.specs.Records.{Step};

use crate::record::next_place;
use fields::Reader;
use std::ops::Range;
use terms::Place;

// The place of each record, with the bytes that it takes up.
#[derive(Drop)]
pub(crate) struct Records<'a> {
    reader: Reader<'a>,
}

impl<'a> Records<'a> {
    // The records from the start of the bytes on.
    pub(crate) fn new(bytes: &'a [u8]) -> Records<'a>
        ensures { result.reader ≡ from bytes.now 0 }
    {
        Records {
            reader: Reader::new(bytes),
        }
    }
}

impl Iterator for Records<'_> {
    type Item = (Place, Range<usize>);

    ghost can_next = { λ s. s.reader.end ≡ length s.reader.bytes };

    ghost next_gives = { λ s r t. Step s.reader r t.reader };

    ghost remaining = { λ s. at_most (length s.reader.bytes - s.reader.at) };

    fn next(&mut self) -> Option<(Place, Range<usize>)> {
        let start = self.reader.at();
        let place = next_place(&mut self.reader)?;
        Some((place, start..self.reader.at()))
    }
}
