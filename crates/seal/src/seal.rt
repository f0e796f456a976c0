// A seal: what stays at home of a file that lies on storage nobody trusts.
use crate::header::Header;
use hash::Digest;
use std::marker::Model;

mod parts;
mod read;
mod write;

// The bytes of a seal.
pub const SEAL_LENGTH: usize = 46;

// The tag of the root's field.
const ROOT_TAG: u8 = 3;

// The kind of the hash, the count of blocks, and their root. Its form is 46 bytes.
#[derive(Clone, Copy)]
pub struct Seal {
    header: Header,
    root: Digest,
}

impl Model for Seal {
    ghost use Rattle.std.specs.Prelude.{◌≤◌};
    ghost use Rattle.seal.specs.Seal.{Sealed};
    ghost use Rattle.terms.specs.Levels.{most_blocks};

    ghost Value = { Sealed };

    ghost view = { λ s. record { kind = s.header.kind; count = s.header.count; root = s.root } };

    ghost invariant = { λ s. s.header.count ≤ most_blocks };

    ghost inverse = { λ x. record { header = record { kind = x.kind; count = x.count }; root = x.root } };
}
