// What is hashed.
ghost use Rattle.std.specs.Prelude.{◌≤◌, length};
ghost use Rattle.hash.specs.Hash.{most_part};

mod parts;

// The most bytes that one part of a message may have.
pub const MAX_PART: usize = 65_536;

// A message in two parts, one behind the other, neither of which is too long.
#[derive(Clone, Copy)]
pub struct Message<'a> {
    pub first: &'a [u8],
    pub second: &'a [u8],
    ghost first_short: { length first.now ≤ most_part },
    ghost second_short: { length second.now ≤ most_part },
}
