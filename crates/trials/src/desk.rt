// The bytes, and the store that is made over them.
use crate::kept::Kept;
use crate::order::{Make, Order};
use crate::pattern::pattern;
use crate::question::Question;
use crate::reply::Reply;
use crate::words::{Command, Fault};
use logstore::{Log, OpenError};
use rewind::Rewind;
use split::Split;
use std::alloc::{AllocError, Global};
use std::mem;

// A store over the bytes, or over these and the spare ones.
#[derive(Drop)]
enum Made {
    Alone(Kept),
    Rewind(Rewind<Kept>),
    Split(Split<Kept, Kept>),
}

impl Made {
    fn ask(&mut self, alloc: Global, question: Question) -> Result<Reply, AllocError> {
        match self {
            Made::Alone(store) => question.ask(alloc, store),
            Made::Rewind(store) => question.ask(alloc, store),
            Made::Split(store) => question.ask(alloc, store),
        }
    }
}

// The bytes for a store, those for the second store of a split, the store that is ordered and not made yet, and the store, which has the bytes
// while it stands.
#[derive(Drop)]
pub struct Desk {
    alloc: Global,
    bytes: Vec<u8>,
    spare: Vec<u8>,
    ordered: Option<Make>,
    made: Option<Made>,
}

impl Desk {
    pub fn new(alloc: Global) -> Desk {
        Desk {
            alloc,
            bytes: Vec::new(alloc),
            spare: Vec::new(alloc),
            ordered: None,
            made: None,
        }
    }

    // Does what a line says, and gives the reply.
    pub fn reply(&mut self, line: &str) -> anyhow::Result<Reply> {
        match self.made.take() {
            Some(made) if line == "back" => Ok(self.back(made)),
            Some(made) => self.ask(made, line),
            None => match Order::of(line) {
                Ok(order) => self.follow(order),
                Err(fault) => Ok(Reply::NoCommand(fault)),
            },
        }
    }

    // Takes the bytes back from the store, if there is one.
    pub fn end(&mut self) -> Option<Reply> {
        let made = self.made.take()?;
        Some(self.back(made))
    }

    fn back(&mut self, made: Made) -> Reply {
        let first = match made {
            Made::Alone(store) => store,
            Made::Rewind(rewind) => rewind.into_store(),
            Made::Split(split) => return self.back_both(split),
        };
        let (bytes, account) = first.into_bytes();
        self.bytes = bytes;
        Reply::Back(account)
    }

    fn back_both(&mut self, split: Split<Kept, Kept>) -> Reply {
        let (blocks, nodes) = split.into_stores();
        let (bytes, first) = blocks.into_bytes();
        let (spare, second) = nodes.into_bytes();
        self.bytes = bytes;
        self.spare = spare;
        Reply::BackBoth(first, second)
    }

    fn ask(&mut self, mut made: Made, line: &str) -> anyhow::Result<Reply> {
        let reply = match Question::of(line) {
            Ok(question) => made.ask(self.alloc, question)?,
            Err(fault) => Reply::NoCommand(fault),
        };
        self.made = Some(made);
        Ok(reply)
    }

    fn follow(&mut self, order: Order) -> anyhow::Result<Reply> {
        match order {
            Order::Zeros(length) => self.bytes = vec![in self.alloc; 0; length as usize]?,
            Order::Pattern(length) => self.bytes = pattern(self.alloc, 0, length)?,
            Order::Set(at, value) if at < self.bytes.len() => self.bytes[at] = value,
            Order::Set(_, _) => return Ok(Reply::NoCommand(Fault::Unknown)),
            Order::Swap => mem::swap(&mut self.bytes, &mut self.spare),
            Order::Open(used) => return self.open(used),
            Order::Make(make) => self.ordered = Some(make),
        }
        Ok(Reply::Done)
    }

    // Opens the bytes as a log; where they are refused, it is the empty one.
    fn open(&mut self, used: usize) -> anyhow::Result<Reply> {
        let bytes = mem::replace(&mut self.bytes, Vec::new(self.alloc));
        let (log, reply) = match Log::open(self.alloc, bytes, used) {
            Err(OpenError::NotRecords(log, refusal)) => (log, Reply::NotOpened(refusal)),
            opened => (opened?, Reply::Done),
        };
        self.made = Some(Made::Alone(Kept::Log(log)));
        Ok(reply)
    }

    // Makes the store that was ordered, if one was. The reply comes before it, since there may be no memory for the store.
    pub fn make_ordered(&mut self) -> Result<(), AllocError> {
        match self.ordered.take() {
            Some(make) => self.make(make),
            None => Ok(()),
        }
    }

    fn make(&mut self, make: Make) -> Result<(), AllocError> {
        let alloc = self.alloc;
        let bytes = mem::replace(&mut self.bytes, Vec::new(alloc));
        let made = match make {
            Make::Alone(kind) => Made::Alone(Kept::new(alloc, kind, bytes)?),
            Make::Rewind(kind) => Made::Rewind(Rewind::new(Kept::new(alloc, kind, bytes)?)),
            Make::Split(blocks, nodes) => {
                let spare = mem::replace(&mut self.spare, Vec::new(alloc));
                let blocks = Kept::new(alloc, blocks, bytes)?;
                Made::Split(Split::new(blocks, Kept::new(alloc, nodes, spare)?))
            }
        };
        self.made = Some(made);
        Ok(())
    }
}
