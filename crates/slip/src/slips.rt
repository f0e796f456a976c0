// A slip: one block of a file, and the path that leads from it to the root.
use seal::Header;
use std::marker::Model;
use terms::BlockNumber;
use tree::Block;

pub mod check;
mod read;

// The tags of the fields behind the header.
pub(crate) const NUMBER_TAG: u8 = 4;

pub(crate) const BLOCK_TAG: u8 = 5;

pub(crate) const PATH_TAG: u8 = 6;

// The most bytes that a slip may have.
pub const MAX_SLIP_LENGTH: usize = 1_432;

// A slip whose form is right. It does not show its block: nothing says yet that it is the file's.
#[derive(Drop)]
pub struct ReadSlip<'a> {
    header: Header,
    number: BlockNumber,
    block: &'a Block,
    path: &'a [u8],
}

impl<'a> Model for ReadSlip<'a> {
    ghost use Rattle.std.specs.Prelude.{◌<◌};
    ghost use Rattle.slip.specs.Slip.{Slipped};

    ghost Value = { Slipped };

    ghost view = { λ x. record {
      kind = x.header.kind;
      count = x.header.count;
      number = x.number.0;
      block = x.block.now;
      path = x.path.now;
    } };

    ghost invariant = { λ x. x.number.0 < x.header.count };
}

// A slip that was checked under a seal.
#[derive(Drop)]
pub struct CheckedSlip<'a> {
    count: u32,
    number: BlockNumber,
    block: &'a Block,
}

impl<'a> Model for CheckedSlip<'a> {
    ghost use Rattle.slip.specs.Slip.{Shown};

    ghost Value = { Shown };

    ghost view = { λ x. record { number = x.number.0; count = x.count; block = x.block.now } };
}
