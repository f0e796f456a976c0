// What a store is asked.
use crate::pattern::{fingerprint, pattern};
use crate::reply::Reply;
use crate::words::{Command, Fault, Words};
use std::alloc::{AllocError, Global};
use store::Store;
use terms::{BlockNumber, Level, NodeNumber, Place};

// The longest record that is put, or buffer that is got into.
const MOST: u32 = 65_536;

// What a buffer is filled with before a get.
const UNTOUCHED: u8 = 0xa5;

#[derive(Clone, Copy)]
pub enum Question {
    Span,
    Room,
    // the length of the buffer
    Get {
        place: Place,
        length: u32,
    },
    // the length of the record, and where it starts in the pattern
    Put {
        place: Place,
        length: u32,
        start: u32,
    },
}

impl Command for Question {
    fn read(words: &mut Words<'_>) -> Result<Question, Fault> {
        match words.word()? {
            "span" => Ok(Question::Span),
            "room" => Ok(Question::Room),
            "get" => Ok(Question::Get {
                place: place(words)?,
                length: words.length(MOST)?,
            }),
            "put" => Ok(Question::Put {
                place: place(words)?,
                length: words.length(MOST)?,
                start: words.value()?,
            }),
            _ => Err(Fault::Unknown),
        }
    }
}

// The next words, as a place.
fn place(words: &mut Words<'_>) -> Result<Place, Fault> {
    match words.word()? {
        "b" => Ok(Place::Block(BlockNumber(words.value()?))),
        "n" => {
            let level = Level::new(words.value()?).ok_or(Fault::NoSuchLevel)?;
            Ok(Place::Node(level, NodeNumber(words.value()?)))
        }
        _ => Err(Fault::Unknown),
    }
}

impl Question {
    // Asks a store, and gives its reply.
    pub fn ask<S: Store>(self, alloc: Global, store: &mut S) -> Result<Reply, AllocError> {
        match self {
            Question::Span => Ok(Reply::Number(u64::from(store.span()))),
            Question::Room => Ok(Reply::Number(store.room())),
            Question::Get { place, length } => get(alloc, store, place, length),
            Question::Put {
                place,
                length,
                start,
            } => {
                let record = pattern(alloc, start, length)?;
                match store.put(place, record.as_slice()) {
                    Ok(()) => Ok(Reply::Done),
                    Err(cause) => Ok(Reply::Refused(cause)),
                }
            }
        }
    }
}

fn get<S: Store>(
    alloc: Global,
    store: &mut S,
    place: Place,
    length: u32,
) -> Result<Reply, AllocError> {
    let mut buffer = vec![in alloc; UNTOUCHED; length as usize]?;
    match store.get(place, buffer.as_mut_slice()) {
        Ok(()) => Ok(Reply::Got(fingerprint(buffer.as_slice()))),
        Err(cause) if buffer.iter().all(|byte| *byte == UNTOUCHED) => Ok(Reply::Refused(cause)),
        Err(cause) => Ok(Reply::Changed(cause)),
    }
}
