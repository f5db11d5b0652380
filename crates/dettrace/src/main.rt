//! The program: it hands the folder, the host in memory and the standard streams to the call that is proved.
#![tactic(auto)]

use dt_adapters::{FolderStore, StdSink};
use dt_base::NoMemory;
use dt_host::NoGate;
use dt_memhost::{MemHost, Picker};
use dt_run::{Failure, dettrace, write_failure};
use std::env::{self, Env, FillError};
use std::io::ErrorKind;
use std::process::ExitCode;
use std::rt::Clock;
use std::time::{SystemTime, UNIX_EPOCH};

fn main(rt: HostRuntime) -> ExitCode {
    let alloc = rt.alloc();
    let mut err = StdSink::new(rt.stderr());
    let words = match command_words(&rt) {
        Ok(words) => words,
        Err(failure) => return ExitCode::from(write_failure(failure, &mut err)),
    };
    let picker = Picker::new(Vec::new(alloc), clock_number(&rt));
    let mut host = match MemHost::new(alloc, picker, Vec::new(alloc)) {
        Ok(host) => host,
        Err(NoMemory) => return ExitCode::from(write_failure(Failure::NoMemory, &mut err)),
    };
    let mut store = FolderStore::new(&rt);
    let mut out = StdSink::new(rt.stdout());
    ExitCode::from(dettrace(
        &rt, &words, &mut store, &mut host, &mut out, &mut err, &NoGate,
    ))
}

// The words after the program's name. Words that are no text are refused like any others.
fn command_words(rt: &HostRuntime) -> Result<Vec<String>, Failure> {
    let alloc = rt.alloc();
    match env::args(&(AfterName(rt), alloc)) {
        Ok(words) => words.collect(alloc).map_err(|_| Failure::NoMemory),
        Err(error) if error.kind() == ErrorKind::OutOfMemory => Err(Failure::NoMemory),
        Err(_) => Err(Failure::Usage),
    }
}

// The arguments from the one after the program's name on. That name is a path, which need not be text.
#[derive(Drop)]
struct AfterName<'a>(&'a HostRuntime);

impl Env for AfterName<'_> {
    fn arg(&self, i: usize, buf: &mut [u8]) -> Result<usize, FillError> {
        self.0.arg(i.saturating_add(1), buf)
    }

    fn var(&self, name: &str, buf: &mut [u8]) -> Result<usize, FillError> {
        self.0.var(name, buf)
    }

    fn var_at(&self, i: usize, buf: &mut [u8]) -> Result<usize, FillError> {
        self.0.var_at(i, buf)
    }
}

// A number that differs from run to run, from which the host makes its choices; 0 where the clock cannot be read.
fn clock_number(clock: &impl Clock) -> u64 {
    match SystemTime::now(clock) {
        Ok(now) => match now.duration_since(UNIX_EPOCH) {
            Ok(since) => (since.as_nanos() & u128::from(u64::MAX)) as u64,
            Err(_) => 0,
        },
        Err(_) => 0,
    }
}
