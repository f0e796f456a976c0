// What a seal says.
ghost use Rattle.std.specs.Prelude.{◌≡◌, ◌≤◌};
ghost use Rattle.terms.specs.Levels.{most_blocks};

use super::Seal;
use crate::header::Header;
use hash::Digest;

impl Seal {
    // The fields that it begins with.
    pub fn header(&self) -> Header
        ensures value { result ≡ record { kind = self.now.kind; count = self.now.count } }
        ensures few { self.now.count ≤ most_blocks }
    {
        let Seal { header, root: _ } = self;
        *header
    }

    // The byte of the hash's kind: any function may have been used.
    pub fn kind(&self) -> u8
        ensures value { result ≡ self.now.kind }
        ensures few { self.now.count ≤ most_blocks }
    {
        self.header.kind
    }

    // The count of blocks, which is never past the most.
    pub fn count(&self) -> u32
        ensures value { result ≡ self.now.count }
        ensures few { result ≤ most_blocks }
    {
        self.header.count
    }

    pub fn root(&self) -> Digest
        ensures value { result ≡ self.now.root }
        ensures few { self.now.count ≤ most_blocks }
    {
        self.root
    }
}
