//! `timber`: reads a script on standard input and prints its transcript on standard output.
//!
//! Main hands the words, the streams and an open gate to `tb_top::settle`, and ends with the number of its
//! status. The contract of `settle` speaks of streams that tell their bytes; standard input and output don't.
#![tactic(auto)]

use std::alloc::AllocError;
use std::process::ExitCode;
use std::{env, io};
use tb_edge::{HostSink, HostSource, OpenGate};
use tb_top::{Status, settle};

fn main(rt: HostRuntime) -> ExitCode {
    // A word that is no UTF-8 refuses the whole list, and no words name no command.
    let words = match words(&rt) {
        Ok(words) => words,
        Err(error) if error.kind() == io::ErrorKind::OutOfMemory => {
            return ExitCode::from(Status::Memory.code());
        }
        Err(_) => Vec::new(rt.alloc()),
    };
    let mut source = HostSource::new(rt.stdin());
    let mut sink = HostSink::new(rt.stdout());
    let status = settle(&rt, rt.alloc(), &words, &mut source, &mut sink, &OpenGate);
    ExitCode::from(status.code())
}

/// The words after the program's own name.
fn words<R: env::Env + Alloc>(rt: &R) -> io::Result<Vec<String<R::A>, R::A>> {
    let mut words = Vec::new(rt.alloc());
    for word in env::args(rt)?.skip(1) {
        words.push(word).map_err(AllocError::from)?;
    }
    Ok(words)
}
