// How many bytes the path of a block has.
ghost use Rattle.std.specs.Prelude.{◌≡◌};
ghost use Rattle.slip.specs.Slip.{path_bytes};

use terms::DIGEST_LENGTH;
use tree::path_length;

pub(crate) fn path_bytes(number: u32, count: u32) -> usize
    ensures { result ≡ path_bytes number count }
{
    DIGEST_LENGTH * path_length(number as usize, count as usize)
}
