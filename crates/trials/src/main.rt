// Answers commands about stores, one to a line, with one line each. The file `stdout` has what the second program answers to those in `stdin`.
//
// While there is no store:
//     zeros N, pattern N           the bytes are N zeros, or the first N of the pattern
//     set AT VALUE                 changes one of the bytes
//     swap                         the bytes and the spare bytes change places
//     flat, log, open USED,        a store over the bytes
//     rewind flat, rewind log
//     split log flat,              a store over the bytes and the spare bytes
//     split flat log,
//     split flat flat
// To a store:
//     span, room
//     get PLACE LENGTH             gets into a buffer of this length
//     put PLACE LENGTH START       puts this many bytes of the pattern, from START on
//     back                         gives the bytes back
// A PLACE is `b NUMBER` or `n LEVEL NUMBER`.
#![tactic(auto)]

mod desk;
mod kept;
mod order;
mod pattern;
mod question;
mod reply;
mod words;

use desk::Desk;
use std::io;

fn main(rt: HostRuntime) -> anyhow::Result<()> {
    let text = io::read_to_string(rt.alloc(), rt.stdin())?;
    let mut desk = Desk::new(rt.alloc());
    for line in text.as_str().lines() {
        println!(rt; "{}", desk.reply(line)?)?;
        desk.make_ordered()?;
    }
    // the lines may end before `back`
    if let Some(reply) = desk.end() {
        println!(rt; "{reply}")?;
    }
    Ok(())
}
