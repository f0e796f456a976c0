// Times the gets of logs of 10, 1,000 and 10,000 records, at the same ten places.
// A checksum of what was got goes to standard output, and the nanoseconds for a get go to standard error.
#![tactic(auto)]

ghost use Rattle.std.specs.Prelude.{◌<◌};

use anyhow::{Context, ensure};
use logstore::Log;
use std::alloc::Global;
use std::array;
use std::time::Instant;
use store::Store;
use terms::{BlockNumber, Level, NodeNumber, Place};

const GETS: u32 = 5_000_000;

// Five blocks and five nodes, each named once.
fn places() -> Option<[Place; 10]> {
    let block = |number| Place::Block(BlockNumber(number));
    let node = |level| Some(Place::Node(Level::new(level)?, NodeNumber(1)));
    Some([
        block(0),
        node(1)?,
        block(800),
        node(3)?,
        block(1600),
        node(5)?,
        block(2400),
        node(7)?,
        block(3200),
        node(9)?,
    ])
}

// The bytes of a record; a node has the first 32 of them.
fn content(record: u16) -> [u8; 1024] {
    array::from_fn(|i| ((record as usize + i) % 251) as u8)
}

// The place of a record: each tenth part of the log begins with one of the ten, and the others are blocks by number.
fn place_of(places: &[Place; 10], record: u16, records: u16) -> Place {
    let part = (records / 10).max(1);
    match places.get((record / part) as usize) {
        Some(place) if record % part == 0 => *place,
        _ => Place::Block(BlockNumber(record as u32 % 4096)),
    }
}

// A log of this many records.
fn filled(alloc: Global, places: &[Place; 10], records: u16) -> anyhow::Result<Log> {
    let bytes = vec![in alloc; 0; 1029 * records as usize]?;
    let mut log = Log::empty(alloc, bytes)?;
    for record in 0..records {
        let place = place_of(places, record, records);
        let bytes = content(record);
        let answer = log.put(place, &bytes[..place.record_length()]);
        ensure!(answer.is_ok(), "a put is refused");
    }
    Ok(log)
}

// Gets a record, and gives one of its bytes.
fn byte_of<S: Store, const N: usize>(
    store: &mut S,
    place: Place,
    record: &mut [u8; N],
    turn: usize,
) -> u8
    requires { 0 < N }
{
    let _ = store.get(place, record);
    record[turn % N]
}

// Gets the records at the places again and again, and adds a byte of each to a checksum.
fn checksum<S: Store>(store: &mut S, places: &[Place; 10]) -> u32 {
    let mut block = [0; 1024];
    let mut digest = [0; 32];
    let mut sum = 0u32;
    for turn in 0..GETS as usize {
        let place = places[7 * turn % 10];
        let byte = match place {
            Place::Block(_) => byte_of(store, place, &mut block, turn),
            Place::Node(_, _) => byte_of(store, place, &mut digest, turn),
        };
        sum = sum.wrapping_mul(31).wrapping_add(byte as u32);
    }
    sum
}

fn main(rt: HostRuntime) -> anyhow::Result<()> {
    let places = places().context("there is no such level")?;
    for records in [10, 1_000, 10_000] {
        let mut log = filled(rt.alloc(), &places, records)?;
        let start = Instant::now(&rt)?;
        let sum = checksum(&mut log, &places);
        let seconds = start.elapsed(&rt)?.as_secs_f64();
        println!(rt; "{records} {sum}")?;
        eprintln!(rt; "{records} {:.2}", seconds * 1e9 / GETS as f64)?;
    }
    Ok(())
}
