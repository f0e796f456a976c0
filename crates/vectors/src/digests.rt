// The lines of digests.
use crate::digest::{Digits, digest_of};
use hash::HashFunction;
use std::array;

const LENGTHS: [usize; 28] = [
    0, 1, 55, 56, 57, 63, 64, 65, 111, 112, 113, 119, 120, 121, 127, 128, 129, 135, 136, 137, 191,
    192, 193, 271, 272, 273, 1025, 2049,
];

// The message of the digest lines: the bytes 0 to 250, again and again.
fn message() -> [u8; 2049] {
    array::from_fn(|i| (i % 251) as u8)
}

pub fn print_digests<D: HashFunction>(rt: &HostRuntime) -> anyhow::Result<()> {
    let message = message();
    for length in LENGTHS {
        for cut in [0, length / 3, length / 2, length] {
            if let Some((whole, _)) = message.split_at_checked(length)
                && let Some((first, second)) = whole.split_at_checked(cut)
            {
                let digits = Digits(digest_of::<D>(first, second)?);
                println!(rt; "digest {} {length} {cut} {digits}", D::KIND)?;
            }
        }
    }
    Ok(())
}

// The longest parts, and parts that are too long.
pub fn print_limits<D: HashFunction>(rt: &HostRuntime) -> anyhow::Result<()> {
    let kind = D::KIND;
    let zeros = [0; 65_537];
    let ones = [1; 65_536];
    let digits = Digits(digest_of::<D>(&zeros[..65_536], &ones)?);
    println!(rt; "long {kind} 65536 65536 {digits}")?;
    for (first, second) in [(&zeros[..], &[][..]), (&[][..], &zeros[..])] {
        if let Err(refusal) = digest_of::<D>(first, second) {
            println!(rt; "refused {kind} {}", refusal.number())?;
        }
    }
    Ok(())
}

pub fn print_published<D: HashFunction>(
    rt: &HostRuntime,
    name: &str,
    text: &[u8],
) -> anyhow::Result<()> {
    let digits = Digits(digest_of::<D>(text, &[])?);
    println!(rt; "published {} {name} {digits}", D::KIND)?;
    Ok(())
}

// The examples that are published with the standards.
pub fn print_examples<D: HashFunction>(rt: &HostRuntime) -> anyhow::Result<()> {
    print_published::<D>(rt, "empty", b"")?;
    print_published::<D>(rt, "abc", b"abc")?;
    print_published::<D>(
        rt,
        "two-blocks",
        b"abcdbcdecdefdefgefghfghighijhijkijkljklmklmnlmnomnopnopq",
    )?;
    print_published::<D>(
        rt,
        "four-blocks",
        b"abcdefghbcdefghicdefghijdefghijkefghijklfghijklmghijklmnhijklmnoijklmnopjklmnopqklmnopqrlmnopqrsmnopqrstnopqrstu",
    )
}
