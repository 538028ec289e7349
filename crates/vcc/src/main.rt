//! The program `vcc`: its words, files and standard output for `vcc_main`.
#![tactic(auto)]

use std::alloc::Global;
use std::process::ExitCode;
use std::rt::Env;
use std::{env, io};
use vcc_base::file::{FileStore, OutSink};
use vcc_cli::vcc_main;
use vcc_io::refusal::Refusal;
use vcc_io::report::report;

/// The words behind the program's name.
fn words(rt: &(impl Env + AllocGlobal)) -> io::Result<Vec<String>> {
    let mut words = Vec::new(rt.alloc());
    for word in env::args(rt)?.skip(1) {
        words.push(word)?;
    }
    Ok(words)
}

fn main(rt: HostRuntime) -> ExitCode {
    let alloc: Global = rt.alloc();
    let mut out = OutSink::new(&rt);
    let words = match words(&rt) {
        Ok(words) => words,
        Err(error) if error.kind() == io::ErrorKind::OutOfMemory => {
            return ExitCode::from(report(&mut out, Err(Refusal::OutOfMemory)));
        }
        // A word that isn't UTF-8 makes no command, and neither do no words.
        Err(_) => Vec::new(alloc),
    };
    let mut store = FileStore::new(&rt);
    ExitCode::from(vcc_main(alloc, &words, &mut store, &mut out))
}
