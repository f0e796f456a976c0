// What can be ordered while there is no store.
use crate::words::{Command, Fault, Words};
use std::str::FromStr;

// The most bytes that a store is made over.
const MOST: u32 = 8_388_608;

#[derive(Clone, Copy)]
pub enum Order {
    Zeros(u32),
    Pattern(u32),
    Set(usize, u8),
    Swap,
    Open(usize),
    Make(Make),
}

// A store over the bytes, or over these and the spare ones.
#[derive(Clone, Copy)]
pub enum Make {
    Alone(Kind),
    Rewind(Kind),
    Split(Kind, Kind),
}

// How a store keeps its bytes.
#[derive(Clone, Copy)]
pub enum Kind {
    Flat,
    Log,
}

impl FromStr for Kind {
    type Err = Fault;

    fn from_str(word: &str) -> Result<Kind, Fault> {
        match word {
            "flat" => Ok(Kind::Flat),
            "log" => Ok(Kind::Log),
            _ => Err(Fault::Unknown),
        }
    }
}

impl Command for Order {
    fn read(words: &mut Words<'_>) -> Result<Order, Fault> {
        match words.word()? {
            "zeros" => Ok(Order::Zeros(words.length(MOST)?)),
            "pattern" => Ok(Order::Pattern(words.length(MOST)?)),
            "set" => Ok(Order::Set(words.value()?, words.value()?)),
            "swap" => Ok(Order::Swap),
            "open" => Ok(Order::Open(words.value()?)),
            "rewind" => Ok(Order::Make(Make::Rewind(words.value()?))),
            "split" => split(words.value()?, words.value()?),
            kind => Ok(Order::Make(Make::Alone(kind.parse::<Kind>()?))),
        }
    }
}

// A split of two logs is no command.
fn split(blocks: Kind, nodes: Kind) -> Result<Order, Fault> {
    match (blocks, nodes) {
        (Kind::Log, Kind::Log) => Err(Fault::Unknown),
        _ => Ok(Order::Make(Make::Split(blocks, nodes))),
    }
}
