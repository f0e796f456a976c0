// Why a call is refused.
use crate::cause::Cause;
use crate::place::{BlockNumber, Place};

mod answers;

#[derive(Clone, Copy, Debug, PartialEq, Eq)]
pub enum Refusal {
    // a block, or the buffer for one, is not 1,024 bytes
    BlockLength,
    // the block number is not below the count, or a delete finds no block
    NoSuchBlock,
    // an append finds as many blocks as the file or the store may hold
    FileFull,
    // the buffer is shorter than what is to be written into it
    BufferShort,
    // the pen is out already
    PenOut,
    // the pen is another vault's, or this vault's pen is not out
    WrongPen,
    // a part handed to a hash has more than 65,536 bytes
    PartTooLong,
    // the store refused to get the record
    Get(Place, Cause),
    // the store refused to put the record
    Put(Place, Cause),
    // the root worked out from the store's records is not the vault's
    RootDiffers(BlockNumber),
    // the store has less room than there are records to put
    NoRoom,
    // no whole record of a log stands at the byte
    LogForm(usize),
    // a seal's form, length, kind, count or empty root is wrong
    SealForm,
    // the seal's count passes the store's span
    SealPastSpan,
    // the first bad field of a slip has its tag at the byte, or it is the first extra one
    SlipForm(usize),
    // the slip's kind or count is not the seal's
    OtherSeal,
    // the root that the slip leads to is not the seal's
    SlipRoot,
}
