// KECCAK-f[1600] of FIPS 202, row by row: Lane(x, y) is `a[y][x]`. Loops over five are unrolled, so that the lanes stay in registers.
ghost use Rattle.std.specs.Prelude.{◌≡◌, ℕ, ◌+◌, ◌*◌, ◌%◌, ◌<◌, [], map, slice_index, slice_index_or, bit_and, bit_xor};
ghost use Rattle.std.specs.List.{range_with_len};
ghost use Rattle.sha3.specs.Keccak.{flipped, rotated, effects, offsets, lane, θ, ρ, π, χ, keccak_f};
ghost use Rattle.sha3.specs.Rows.{lanes, IsSquare};

use std::array;

type Row = [u64; 5];

type State = [Row; 5];

// What each round adds to Lane(0, 0).
static ROUND_CONSTANTS: [u64; 24] = [
    0x0000_0000_0000_0001,
    0x0000_0000_0000_8082,
    0x8000_0000_0000_808a,
    0x8000_0000_8000_8000,
    0x0000_0000_0000_808b,
    0x0000_0000_8000_0001,
    0x8000_0000_8000_8081,
    0x8000_0000_0000_8009,
    0x0000_0000_0000_008a,
    0x0000_0000_0000_0088,
    0x0000_0000_8000_8009,
    0x0000_0000_8000_000a,
    0x0000_0000_8000_808b,
    0x8000_0000_0000_008b,
    0x8000_0000_0000_8089,
    0x8000_0000_0000_8003,
    0x8000_0000_0000_8002,
    0x8000_0000_0000_0080,
    0x0000_0000_0000_800a,
    0x8000_0000_8000_000a,
    0x8000_0000_8000_8081,
    0x8000_0000_0000_8080,
    0x0000_0000_8000_0001,
    0x8000_0000_8000_8008,
];

// By how much ρ turns each lane.
const OFFSETS: [u32; 25] = [
    0, 1, 62, 28, 27, 36, 44, 6, 55, 20, 3, 10, 43, 25, 39, 41, 45, 15, 21, 8, 18, 2, 61, 56, 14,
];

// What θ adds to each column.
fn mixed(a: &State) -> Row
    ensures { result ≡ effects (lanes a.now) }
{
    let c: Row = array::from_fn(|x| a[0][x] ^ a[1][x] ^ a[2][x] ^ a[3][x] ^ a[4][x]);
    array::from_fn(|x| c[(x + 4) % 5] ^ c[(x + 1) % 5].rotate_left(1))
}

// A row of θ.
fn added(row: Row, d: Row) -> Row
    ensures { result ≡ map (λ x. bit_xor (slice_index row x) (slice_index d x)) (range_with_len 0 5) }
{
    array::from_fn(|x| row[x] ^ d[x])
}

// θ: each column gets what its neighbours give.
fn theta(a: &State) -> State
    ensures { lanes result ≡ θ (lanes a.now) }
{
    let d = mixed(a);
    [
        added(a[0], d),
        added(a[1], d),
        added(a[2], d),
        added(a[3], d),
        added(a[4], d),
    ]
}

// The row y of ρ and π.
fn turned(a: &State, y: usize) -> Row
    requires { y < 5 }
    ensures { result ≡ map (λ x. rotated (slice_index (slice_index_or a.now x []) ((x + 3 * y) % 5)) (lane offsets ((x + 3 * y) % 5) x)) (range_with_len 0 5) }
{
    array::from_fn(|x| {
        let from = (x + 3 * y) % 5;
        a[x][from].rotate_left(OFFSETS[from + 5 * x])
    })
}

// ρ and π: each lane is turned, and goes to its new place.
fn rho_pi(a: &State) -> State
    ensures { lanes result ≡ π (ρ (lanes a.now)) }
{
    [
        turned(a, 0),
        turned(a, 1),
        turned(a, 2),
        turned(a, 3),
        turned(a, 4),
    ]
}

// A row of χ.
fn bent(row: Row) -> Row
    ensures { result ≡ map (λ x. bit_xor (slice_index row x) (bit_and (flipped (slice_index row ((x + 1) % 5))) (slice_index row ((x + 2) % 5)))) (range_with_len 0 5) }
{
    array::from_fn(|x| row[x] ^ (!row[(x + 1) % 5] & row[(x + 2) % 5]))
}

// χ: each lane is mixed with the next two of its row.
fn chi(a: &State) -> State
    ensures lanes { lanes result ≡ χ (lanes a.now) }
    ensures square { IsSquare result }
{
    a.map(bent)
}

// All 24 rounds.
fn rounds(mut a: State) -> State
    requires { IsSquare a }
    ensures lanes { lanes result ≡ keccak_f (lanes a) }
    ensures square { IsSquare result }
{
    for constant in &ROUND_CONSTANTS {
        a = chi(&rho_pi(&theta(&a)));
        // ι
        a[0][0] ^= *constant;
    }
    a
}

// KECCAK-f[1600].
pub(crate) fn permute(lanes: &mut [u64; 25])
    ensures { lanes.new ≡ keccak_f lanes.old }
{
    let (rows, _) = lanes.as_chunks();
    let a = rounds(*rows.first_chunk().unwrap());
    lanes.copy_from_slice(a.as_flattened());
}
