// Where a reading begins, where it stands, and where it ends.
ghost use Rattle.fields.specs.Fields.{ended, from};
ghost use Rattle.std.specs.Prelude.{◌≡◌, ◌≤◌, length};

use super::Reader;
use crate::bad_field::BadField;

impl<'a> Reader<'a> {
    // A reader of all the bytes.
    pub fn new(bytes: &'a [u8]) -> Reader<'a>
        ensures { result ≡ from bytes.now 0 }
    {
        let end = bytes.len();
        Reader { bytes, at: 0, end }
    }

    // Where the next field starts: never past the end, and the end never past the bytes.
    pub fn at(&self) -> usize
        ensures value { result ≡ self.now.at }
        ensures inside { result ≤ self.now.end }
        ensures within { self.now.end ≤ length self.now.bytes }
    {
        self.at
    }

    // That nothing is left; else the offset of the first byte that is.
    pub fn finish(self) -> Result<(), BadField>
        ensures answer { result ≡ ended self.entry }
        ensures inside { self.entry.at ≤ self.entry.end }
        ensures within { self.entry.end ≤ length self.entry.bytes }
    {
        let Reader { bytes: _, at, end } = self;
        if at < end {
            return Err(BadField { at });
        }
        Ok(())
    }
}
