//! `citrus`: the words of the command line and standard input to standard output, standard error and the exit status.
#![tactic(auto)]

use citrus_tool::{Detail, Status, run_words, tell};
use io_edge::{StdSink, StdSource};
use prcu_marks::OpenGate;
use std::io::ErrorKind;
use std::process::ExitCode;
use std::{env, io};

fn main(rt: HostRuntime) -> ExitCode {
    let mut source = StdSource::new(rt.stdin());
    let mut sink = StdSink::new(rt.stdout());
    let mut errors = StdSink::new(rt.stderr());
    let status = match words(&rt) {
        Ok(words) => run_words(
            &rt,
            rt.alloc(),
            &words,
            &mut source,
            &mut sink,
            &mut errors,
            &OpenGate,
        ),
        Err(status) => {
            tell(status, Detail::Nothing, &mut errors);
            status
        }
    };
    ExitCode::from(status.number())
}

// The words after the program's name. One that isn't UTF-8 is in no command.
fn words(rt: &(impl env::Env + AllocGlobal)) -> Result<Vec<String>, Status> {
    let all = env::args(rt).map_err(|e| status_of(&e))?;
    all.skip(1)
        .collect(rt.alloc())
        .map_err(|_| Status::NoMemory)
}

// What it means that the words couldn't be had.
fn status_of(error: &io::Error) -> Status {
    match error.kind() {
        ErrorKind::OutOfMemory => Status::NoMemory,
        _ => Status::Usage,
    }
}
