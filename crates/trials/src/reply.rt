// What a command is answered with.
use crate::words::Fault;
use std::fmt;
use terms::{Cause, Refusal};

#[derive(Clone, Copy)]
pub enum Reply {
    Done,
    Number(u64),
    // the fingerprint of the record got
    Got(u64),
    Refused(Cause),
    // refused, and still something was written into the buffer
    Changed(Cause),
    NotOpened(Refusal),
    NoCommand(Fault),
    Back(Account),
    BackBoth(Account, Account),
}

impl fmt::Display for Reply {
    fn fmt<W: fmt::Write>(&self, f: &mut fmt::Formatter<W>) -> fmt::Result {
        match self {
            Reply::Done => write!(f, "ok"),
            Reply::Number(number) => write!(f, "{number}"),
            Reply::Got(record) => write!(f, "ok {record:016x}"),
            Reply::Refused(cause) => write!(f, "refused {}", cause.number()),
            Reply::Changed(cause) => {
                write!(f, "refused {}, and the buffer changed", cause.number())
            }
            Reply::NotOpened(refusal) => write!(f, "{refusal}"),
            Reply::NoCommand(fault) => write!(f, "{fault}"),
            Reply::Back(bytes) => write!(f, "{bytes}"),
            Reply::BackBoth(bytes, spare) => write!(f, "{bytes}, {spare}"),
        }
    }
}

// The bytes of a store, in short; a log also says how many of them are used.
#[derive(Clone, Copy)]
pub struct Account {
    pub length: usize,
    pub fingerprint: u64,
    pub used: Option<usize>,
}

impl fmt::Display for Account {
    fn fmt<W: fmt::Write>(&self, f: &mut fmt::Formatter<W>) -> fmt::Result {
        let Account {
            length,
            fingerprint,
            used,
        } = *self;
        match used {
            None => write!(f, "flat {length} {fingerprint:016x}"),
            Some(used) => write!(f, "log {length} {fingerprint:016x} used {used}"),
        }
    }
}
