// The words of a command.
ghost use Rattle.std.specs.Prelude.{◌≤◌, IfOk};

use std::fmt;
use std::str::{FromStr, SplitWhitespace};

// Why a line is no command.
#[derive(Clone, Copy)]
pub enum Fault {
    Unknown,
    NoSuchLevel,
}

impl fmt::Display for Fault {
    fn fmt<W: fmt::Write>(&self, f: &mut fmt::Formatter<W>) -> fmt::Result {
        f.write_str(match self {
            Fault::Unknown => "unknown",
            Fault::NoSuchLevel => "no such level",
        })
    }
}

// The words of a line that are still to be read.
#[derive(Drop)]
pub struct Words<'a>(SplitWhitespace<'a>);

impl<'a> Words<'a> {
    // The next word.
    pub fn word(&mut self) -> Result<&'a str, Fault> {
        self.0.next().ok_or(Fault::Unknown)
    }

    // The next word, as a value.
    pub fn value<T: FromStr>(&mut self) -> Result<T, Fault>
    where
        T::Err: Drop,
    {
        self.word()?.parse::<T>().map_err(|_| Fault::Unknown)
    }

    // The next word, as a length of at most `most` bytes.
    pub fn length(&mut self, most: u32) -> Result<u32, Fault>
        ensures { IfOk result (λ n. n ≤ most) }
    {
        let length = self.value()?;
        if length > most {
            return Err(Fault::Unknown);
        }
        Ok(length)
    }

    // Refuses a word after the last one of a command.
    fn end(&mut self) -> Result<(), Fault> {
        match self.0.next() {
            Some(_) => Err(Fault::Unknown),
            None => Ok(()),
        }
    }
}

// What a line can say.
pub trait Command: Sized + Drop {
    // The command that the first word and some of the words after it make.
    fn read(words: &mut Words<'_>) -> Result<Self, Fault>;

    // The command that all the words of a line make.
    fn of(line: &str) -> Result<Self, Fault> {
        let mut words = Words(line.split_whitespace());
        let command = Self::read(&mut words)?;
        words.end()?;
        Ok(command)
    }
}
