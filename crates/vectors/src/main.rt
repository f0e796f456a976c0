// Prints digests, roots, paths, seals and slips. The file `stdout` has what the second program makes of the same inputs.
#![tactic(auto)]

mod digest;
mod digests;
mod sample;

use digests::{print_digests, print_examples, print_limits, print_published};
use hash::HashFunction;
use sample::Sample;
use sha3::Sha3;
use sha256::Sha256;
use tree::path_length;

// The lines of the files.
fn print_files<D: HashFunction>(rt: &HostRuntime) -> anyhow::Result<()> {
    for count in 0..41 {
        let sample = Sample::new::<D>(rt, count)?;
        sample.print::<D>()?;
        if count > 0 {
            sample.print_paths::<D>()?;
        }
        if count <= 8 {
            sample.print_blocks::<D>(&[0, 1, 2, 3, 4, 5, 6, 7])?;
        }
    }
    for count in [4095, 4096] {
        let sample = Sample::new::<D>(rt, count)?;
        sample.print::<D>()?;
        sample.print_blocks::<D>(&[0, 1, 2047, 2048, 4093, 4094, 4095])?;
    }
    Ok(())
}

fn main(rt: HostRuntime) -> anyhow::Result<()> {
    print_digests::<Sha256>(&rt)?;
    print_limits::<Sha256>(&rt)?;
    print_digests::<Sha3>(&rt)?;
    print_limits::<Sha3>(&rt)?;
    print_examples::<Sha256>(&rt)?;
    print_examples::<Sha3>(&rt)?;
    print_published::<Sha3>(&rt, "a3x200", &[0xa3; 200])?;
    print_files::<Sha256>(&rt)?;
    print_files::<Sha3>(&rt)?;
    for (number, count) in [(0, 1), (4, 5), (6, 7), (3, 7), (0, 4096)] {
        println!(rt; "length {number} {count} {}", path_length(number, count))?;
    }
    Ok(())
}
