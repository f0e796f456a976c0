// A store over bytes that it owns.
ghost use Rattle.std.specs.Prelude.{◌≡◌, vec_len};
ghost use Rattle.trials.specs.Kept.{KeptDoes, Made, kept_of};
ghost use Rattle.trials.specs.Sized.{kept_sized, kept_truthful};

use crate::order::Kind;
use crate::pattern::fingerprint;
use crate::reply::Account;
use flat::Flat;
use logstore::Log;
use std::alloc::{AllocFailed, Global};
use store::{Store, Truthful};
use terms::{Cause, Place};

#[derive(Drop)]
pub enum Kept {
    Flat(Flat),
    Log(Log),
}

impl Kept {
    // The store of this kind over the bytes; a log is empty.
    pub fn new(alloc: Global, kind: Kind, bytes: Vec<u8>) -> Result<Kept, AllocFailed<Vec<u8>>>
        ensures { Made kind bytes result }
    {
        match kind {
            Kind::Flat => Ok(Kept::Flat(Flat::new(bytes))),
            Kind::Log => Ok(Kept::Log(Log::empty(alloc, bytes)?)),
        }
    }

    // The bytes, and what they are.
    pub fn into_bytes(self) -> (Vec<u8>, Account)
        ensures { result.1.length ≡ vec_len result.0 }
    {
        let (bytes, used) = match self {
            Kept::Flat(flat) => (flat.into_bytes(), None),
            Kept::Log(log) => {
                let (bytes, used) = log.into_bytes();
                (bytes, Some(used))
            }
        };
        let account = Account {
            length: bytes.len(),
            fingerprint: fingerprint(bytes.as_slice()),
            used,
        };
        (bytes, account)
    }
}

// Each call goes on to the store that is there: for an enum there is no shorter form.
impl Store for Kept {
    ghost meaning = { kept_of };

    ghost does = { KeptDoes };

    ghost sized = { kept_sized };

    fn span(&mut self) -> u32 {
        match self {
            Kept::Flat(flat) => flat.span(),
            Kept::Log(log) => log.span(),
        }
    }

    fn room(&mut self) -> u64 {
        match self {
            Kept::Flat(flat) => flat.room(),
            Kept::Log(log) => log.room(),
        }
    }

    fn get(&mut self, place: Place, out: &mut [u8]) -> Result<(), Cause> {
        match self {
            Kept::Flat(flat) => flat.get(place, out),
            Kept::Log(log) => log.get(place, out),
        }
    }

    fn put(&mut self, place: Place, record: &[u8]) -> Result<(), Cause> {
        match self {
            Kept::Flat(flat) => flat.put(place, record),
            Kept::Log(log) => log.put(place, record),
        }
    }
}

impl Truthful for Kept {
    ghost truthful = { kept_truthful };
}
