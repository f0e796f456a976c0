// A flat store is made from bytes, and gives them back.
ghost use Rattle.std.specs.Prelude.{◌≡◌};

use super::Flat;
use crate::layout::{layout_length, sure_span};
use terms::MAX_BLOCKS;

impl Flat {
    // A store over the bytes as they are. Its span is that of the bytes, by what every flat store keeps.
    pub fn new(bytes: Vec<u8>) -> Flat
        ensures { result.bytes ≡ bytes }
    {
        let span = (sure_span(bytes.len())..MAX_BLOCKS)
            .find(|span| layout_length(span + 1) > bytes.len())
            .unwrap_or(MAX_BLOCKS);
        Flat { bytes, span }
    }

    // The bytes, as they are now.
    pub fn into_bytes(self) -> Vec<u8>
        ensures { result ≡ self.bytes }
    {
        let Flat { bytes, span: _ } = self;
        bytes
    }
}
