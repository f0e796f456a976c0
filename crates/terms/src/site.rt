// What a refusal points at.
use crate::place::{BlockNumber, Place};

mod offset;

#[derive(Clone, Copy, Debug, PartialEq, Eq)]
pub enum Site {
    // a record of the store
    Record(Place),
    // a block of the file
    Block(BlockNumber),
    // a byte of what was handed in
    Byte(usize),
}
