// Section 6.2.2: what one block of the padded message does to the hash value.
ghost use Rattle.sha256.specs.Constants.{K as constants};
ghost use Rattle.sha256.specs.Hash.{compress as compressed, round as rounded, rounds as rounds_of, schedule, words as words_of};
ghost use Rattle.sha256.specs.Ring.{ahead as ahead_of};
ghost use Rattle.std.specs.Prelude.{◌≡◌, ◌%◌, ◌<◌, slice_index, slice_set};

use crate::constants::K;
use crate::words::*;
use std::array;

// The 16 words of a block, with which the message schedule begins.
fn words(block: &[u8; 64]) -> [u32; 16]
    ensures { result ≡ words_of block.now 16 }
{
    let (words, _) = block.as_chunks::<4>();
    array::from_fn(|t| u32::from_be_bytes(words[t]))
}

// The word at `t + 16` of the schedule. `w` has the 16 before it, each at its place modulo 16.
fn ahead(w: &[u32; 16], t: usize) -> u32
    requires { t < 48 }
    ensures { result ≡ ahead_of w.now t }
{
    small_sigma1(w[(t + 14) % 16])
        .wrapping_add(w[(t + 9) % 16])
        .wrapping_add(small_sigma0(w[(t + 1) % 16]))
        .wrapping_add(w[t % 16])
}

// One round on the working variables.
fn round(v: &mut [u32; 8], k: u32, w: u32)
    ensures { v.new ≡ rounded v.old k w }
{
    let [a, b, c, d, e, f, g, h] = *v;
    let t1 = h
        .wrapping_add(big_sigma1(e))
        .wrapping_add(choose(e, f, g))
        .wrapping_add(k)
        .wrapping_add(w);
    let t2 = big_sigma0(a).wrapping_add(majority(a, b, c));
    *v = [t1.wrapping_add(t2), a, b, c, d.wrapping_add(t1), e, f, g];
}

// The round at `t`.
fn step(v: &mut [u32; 8], w: &[u32; 16], t: usize)
    requires { t < 64 }
    ensures { v.new ≡ rounded v.old (slice_index constants t) (slice_index w.now (t % 16)) }
{
    round(v, K[t], w[t % 16]);
}

// The round at `t`; the word at `t + 16` then takes the place of that at `t`.
fn turn(v: &mut [u32; 8], w: &mut [u32; 16], t: usize)
    requires { t < 48 }
    ensures variables { v.new ≡ rounded v.old (slice_index constants t) (slice_index w.old (t % 16)) }
    ensures words { w.new ≡ slice_set w.old (t % 16) (ahead_of w.old t) }
{
    step(v, w, t);
    w[t % 16] = ahead(w, t);
}

// The working variables after the 64 rounds over the schedule that begins with `words`.
// The schedule is kept in 16 words: a word is made as soon as the word 16 places before it is used up.
// The compiler unrolls a loop of eight rounds, so that no variable moves between registers; it would not unroll one of 16.
// Folds over the whole schedule and the constants, eight at a time, take 1.05 times as long, which is slower than plain C: so the loops stay.
fn rounds(hash: [u32; 8], words: [u32; 16]) -> [u32; 8]
    ensures { result ≡ rounds_of hash (schedule words) 64 }
{
    let mut v = hash;
    let mut w = words;
    for i in 0..3 {
        for j in 0..8 {
            turn(&mut v, &mut w, 16 * i + j);
        }
        for j in 8..16 {
            turn(&mut v, &mut w, 16 * i + j);
        }
    }
    for i in 6..8 {
        for j in 0..8 {
            step(&mut v, &w, 8 * i + j);
        }
    }
    v
}

// The hash value after a block.
pub(crate) fn compress(hash: [u32; 8], block: &[u8; 64]) -> [u32; 8]
    ensures { result ≡ compressed hash block.now }
{
    let v = rounds(hash, words(block));
    array::from_fn(|i| v[i].wrapping_add(hash[i]))
}
