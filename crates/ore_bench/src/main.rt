//! The bench: it reads a linear system over an Ore algebra, and what is claimed of it.
//!
//! `main` hands the program's arguments and the standard streams to `bench` of `ore_commands`, and ends with its status
//! as a number. What the program answers is the contract of that call.
//!
//! The program stands on `ore_commands` for the top call, on `ore_reply` for the words and the status, and on `ore_io`
//! for the streams.
#![tactic(auto)]

use ore_commands::bench;
use ore_io::{StreamSink, StreamSource};
use ore_monomial::NoMemory;
use ore_reply::{ArgList, Status};
use std::env;
use std::io::ErrorKind;
use std::process::ExitCode;
use std::rt::Env;

fn main(rt: HostRuntime) -> ExitCode {
    let status = match words(&rt) {
        Ok(words) => {
            let mut source = StreamSource::new(rt.stdin());
            let mut sink = StreamSink::new(rt.stdout());
            bench(rt.alloc(), &words, &mut source, &mut sink)
        }
        Err(NoMemory) => Status::Memory,
    };
    ExitCode::from(status as u8)
}

// The program's arguments, without its name. Where one isn't UTF-8, a word that no command has stands for them.
fn words(rt: &(impl Env + AllocGlobal)) -> Result<ArgList, NoMemory> {
    let mut words = ArgList::new(rt.alloc());
    let arguments = match env::args(rt) {
        Ok(arguments) => arguments,
        Err(error) if error.kind() == ErrorKind::InvalidData => {
            words.push(b"\xff")?;
            return Ok(words);
        }
        Err(_) => return Err(NoMemory),
    };
    for word in arguments.skip(1) {
        words.push(word.as_bytes())?;
    }
    Ok(words)
}
