// The records that lie at places.
ghost use Rattle.terms.specs.Places.{inside, record_length};
ghost use Rattle.std.specs.Prelude.{◌≡◌};

use super::{BLOCK_LENGTH, DIGEST_LENGTH, Place};

impl Place {
    // How many bytes the record at the place has.
    pub fn record_length(self) -> usize
        ensures { result ≡ record_length self }
    {
        match self {
            Place::Block(_) => BLOCK_LENGTH,
            Place::Node(_, _) => DIGEST_LENGTH,
        }
    }

    // Whether the place lies inside a span of blocks: the block, or every block that the node covers.
    pub fn is_inside(self, span: u32) -> bool
        ensures { result ≡ inside span self }
    {
        match self {
            Place::Block(number) => number.0 < span,
            Place::Node(level, number) => level.0 < 32 && number.0 < span >> level.0,
        }
    }
}
