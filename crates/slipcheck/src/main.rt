// Checks the slip on standard input under the seal in the file `seal`, and prints one line: `accepted I of N` or `refused R at P`.
#![tactic(auto)]

ghost use Rattle.std.specs.Prelude.{◌≡◌, ◌≤◌, length, take, IfOk, IfSome};

use seal::SEAL_LENGTH;
use slip::MAX_SLIP_LENGTH;
use std::io::Read;
use std::rt::Files;
use std::{fs, io};
use verdict::{Line, judge};

// One byte more than a seal, and than the longest slip, so that an extra byte is seen.
const SEAL_READ: usize = SEAL_LENGTH + 1;

const SLIP_READ: usize = MAX_SLIP_LENGTH + 1;

// Reads into `out` from the front, until it is full or nothing is left, and gives what was read.
fn read_front<'a, R: Read>(source: &mut R, out: &'a mut [u8]) -> io::Result<&'a [u8]>
    ensures most { IfOk result (λ front. length front.now ≤ length out.old) }
    ensures bytes { IfOk result (λ front. IfSome (R.remaining source.old) (λ xs. front.now ≡ take (length out.old) xs)) }
{
    let mut held = 0;
    while held < out.len() {
        let more = source.read(&mut out[held..])?;
        if more == 0 {
            break;
        }
        held += more;
    }
    Ok(&out[..held])
}

// The seal's bytes; a file that cannot be opened counts as empty.
fn read_seal<'a>(rt: &HostRuntime, out: &'a mut [u8]) -> io::Result<&'a [u8]>
    ensures { IfOk result (λ front. length front.now ≤ length out.old) }
{
    match fs::open(rt, "seal") {
        Ok(mut file) => read_front(&mut file, out),
        Err(_) => Ok(&[]),
    }
}

fn main(rt: HostRuntime) -> io::Result<()> {
    let mut seal = [0; SEAL_READ];
    let mut slip = [0; SLIP_READ];
    let seal = read_seal(&rt, &mut seal)?;
    let slip = read_front(&mut rt.stdin(), &mut slip)?;
    let line = Line(judge(seal, slip));
    println!(rt; "{line}")
}
