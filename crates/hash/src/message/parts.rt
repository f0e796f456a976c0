ghost use Rattle.hash.specs.Hash.{parted};
ghost use Rattle.hash.specs.Messages.{parts};
ghost use Rattle.std.specs.Prelude.{◌≡◌, ◌++◌, length};
ghost use Rattle.std.specs.Result.{result_map_both};

use super::{MAX_PART, Message};
use terms::Refusal;

impl<'a> Message<'a> {
    // The message of two parts. A part of more than `MAX_PART` bytes is refused.
    pub fn new(first: &'a [u8], second: &'a [u8]) -> Result<Message<'a>, Refusal>
        ensures { result_map_both parts (λ e. e) result ≡ parted first.now second.now }
    {
        if first.len() > MAX_PART || second.len() > MAX_PART {
            return Err(Refusal::PartTooLong);
        }
        Ok(Message { first, second })
    }

    // How many bytes it has.
    pub fn len(self) -> usize
        ensures { result ≡ length (self.entry.first.now ++ self.entry.second.now) }
    {
        self.first.len() + self.second.len()
    }
}
