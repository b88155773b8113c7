//! Exchanges the requests of a script between an HTTP/3 client and server over a link in memory.
#![tactic(auto)]

use qh_base::{StdSink, StdSource};
use qh_exchange::{Bench, Echo, ScriptLink, run};
use std::alloc::{AllocError, Global};
use std::env;
use std::io::ErrorKind;
use std::process::ExitCode;
use std::rt::Env;

fn main(rt: HostRuntime) -> ExitCode {
    let alloc = rt.alloc();
    let Ok(words) = words_of(&rt, alloc) else {
        return ExitCode::from(9);
    };
    let mut source = StdSource::new(rt.stdin());
    let mut sink = StdSink::new(rt.stdout());
    let mut bench = Bench {
        service: Echo::new(alloc),
        link: ScriptLink::new(alloc, 10),
    };
    ExitCode::from(run(alloc, &words, &mut source, &mut sink, &mut bench))
}

// The words behind the program's name. One that isn't UTF-8 makes them a list that asks for nothing.
fn words_of<R: Env + AllocGlobal>(rt: &R, alloc: Global) -> Result<Vec<String>, AllocError> {
    let mut words = Vec::new(alloc);
    match env::args(rt) {
        Ok(args) => {
            for word in args.skip(1) {
                words.push(word)?;
            }
        }
        Err(error) if error.kind() == ErrorKind::InvalidData => {}
        Err(_) => return Err(AllocError),
    }
    Ok(words)
}
