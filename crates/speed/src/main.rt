// Times each hash function over 64 MiB: 1,024 parts of 65,536 bytes, each followed by the digest before it.
// The last digest goes to standard output, and the seconds go to standard error.
#![tactic(auto)]

ghost use Rattle.std.specs.Prelude.{◌≡◌};
ghost use Rattle.speed.specs.Chain.{chain};

use hash::{Digest, HashFunction, MAX_PART, Message};
use sha3::Sha3;
use sha256::Sha256;
use std::str;
use std::time::Instant;
use terms::DIGEST_LENGTH;

const TURNS: usize = 1_024;

// The last digest of the chain.
fn chained<D: HashFunction>(part: &[u8; MAX_PART]) -> Digest
    ensures { result ≡ chain D.meaning part.now 1024 }
{
    let mut last = [0; 32];
    for _ in 0..TURNS {
        last = D::hash(Message {
            first: part,
            second: &last,
        });
    }
    last
}

// Prints the last digest, and how long the chain took.
fn timed<D: HashFunction>(
    rt: &HostRuntime,
    name: &str,
    part: &[u8; MAX_PART],
) -> anyhow::Result<()> {
    let start = Instant::now(rt)?;
    let last = chained::<D>(part);
    let seconds = start.elapsed(rt)?.as_secs_f64();
    eprintln!(rt; "{name} {seconds}")?;
    let mut digits = [0; 2 * DIGEST_LENGTH];
    hex::encode_to_slice(last, &mut digits)?;
    println!(rt; "{name} {}", str::from_utf8(&digits)?)?;
    Ok(())
}

fn main(rt: HostRuntime) -> anyhow::Result<()> {
    let part = [0x5a; MAX_PART];
    timed::<Sha256>(&rt, "sha256", &part)?;
    timed::<Sha3>(&rt, "sha3", &part)
}
