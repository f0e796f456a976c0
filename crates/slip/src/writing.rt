// A slip as bytes.
ghost use Rattle.std.specs.Prelude.{◌≡◌, ◌+◌, ◌≤◌, ◌++◌, length, take, drop};
ghost use Rattle.slip.specs.Slip.{slip_head, slip_under, slip_write_answer, slip_written};

use crate::path::path_bytes;
use crate::slips::{BLOCK_TAG, NUMBER_TAG, PATH_TAG};
use seal::{COUNT_TAG, KIND_TAG, Seal};
use terms::{BLOCK_LENGTH, BlockNumber, Refusal};

// Where a slip's block, its path field, and the path in it begin.
const BLOCK_START: usize = 21;

const PATH_FIELD: usize = 1_045;

const PATH_START: usize = 1_048;

// Writes `src` over the bytes from `at` on, and leaves the rest.
fn write_at(out: &mut [u8], at: usize, src: &[u8])
    requires { at + length src.now ≤ length out.old }
    ensures { out.new ≡ take at out.old ++ (src.now ++ drop (at + length src.now) out.old) }
{
    let end = at + src.len();
    out[at..end].copy_from_slice(src);
}

// What stands in front of the block.
fn head(seal: &Seal, number: u32) -> [u8; BLOCK_START]
    ensures { result ≡ slip_head seal.now.kind seal.now.count number }
{
    let [a, b, c, d] = seal.count().to_be_bytes();
    let [e, f, g, h] = number.to_be_bytes();
    let kind = seal.kind();
    [
        KIND_TAG, 0, 1, kind, COUNT_TAG, 0, 4, a, b, c, d, NUMBER_TAG, 0, 4, e, f, g, h, BLOCK_TAG,
        4, 0,
    ]
}

// Writes the slip of block `number` of the seal's file over the front of `out`, and answers its length. It refuses a block of another length, a number that is not below the count, a path of another length, and then an `out` that is too short; and leaves `out` as it was.
pub fn write_slip(
    seal: &Seal,
    number: BlockNumber,
    block: &[u8],
    path: &[u8],
    out: &mut [u8],
) -> Result<usize, Refusal>
    ensures answer { result ≡ slip_write_answer (slip_under seal.now number.0 block.now path.now) out.old }
    ensures out { out.new ≡ slip_written (slip_under seal.now number.0 block.now path.now) out.old }
{
    if block.len() != BLOCK_LENGTH {
        return Err(Refusal::BlockLength);
    }
    if number.0 >= seal.count() {
        return Err(Refusal::NoSuchBlock);
    }
    if path.len() != path_bytes(number.0, seal.count()) {
        return Err(Refusal::SlipForm(PATH_FIELD));
    }
    let end = PATH_START + path.len();
    if out.len() < end {
        return Err(Refusal::BufferShort);
    }
    let [high, low] = (path.len() as u16).to_be_bytes();
    write_at(out, 0, &head(seal, number.0));
    write_at(out, BLOCK_START, block);
    write_at(out, PATH_FIELD, &[PATH_TAG, high, low]);
    write_at(out, PATH_START, path);
    Ok(end)
}
