// What a case starts: a store with an image, a host and sinks, each with its choices and its faults.
ghost use Rattle.std.specs.Prelude.{◌≡◌, [], None, IfOk, IsTrue, option_to_list};
ghost use Rattle.dt_host.specs.World.{IsEmptyStart};
ghost use Rattle.dt_run.specs.Statuses.{is_status};
ghost use Rattle.dt_cases.specs.declared.bench.Words.TheVariants.{Stream};

use crate::error::CaseErr;
use dt_host::NoGate;
use dt_memhost::{MemHost, MemSink, MemStore, Picker};
use dt_run::dettrace;
use std::alloc::{AllocError, Global};
use std::thread::Threads;
use std::time::Clock;

/// Which words a picker gives.
#[derive(Clone, Copy, Debug)]
pub enum Words {
    /// So many zeros, by which each transfer moves one byte, and then the words of stream 0.
    Zeros(usize),
    /// Those of the stream of this number.
    Stream(u64),
    /// The five last digits of this number to base 3, from the last one on, again and again. Of up to three segments
    /// that are owed the host lets that one arrive first to which the next word points.
    Digits(u32),
}

/// One call of the program.
#[derive(Clone, Copy)]
pub struct Call<'a> {
    /// The words after the program's name.
    pub words: &'a [String],
    pub files: &'a [(&'a str, &'a [u8])],
    pub choices: Words,
    /// The number of the store's call that fails, if one does.
    pub store_fails: Option<u64>,
    /// The number of the host's call that fails, if one does.
    pub host_fails: Option<u64>,
    pub out_room: Option<u64>,
    pub err_room: Option<u64>,
}

/// What came of it: the exit status, and the bytes on standard output and on standard error.
#[derive(Drop)]
pub struct Came {
    pub status: u8,
    pub out: Vec<u8>,
    pub err: Vec<u8>,
}

// What a call of the program meets.
#[derive(Drop)]
struct Surroundings {
    store: MemStore,
    host: MemHost,
    out: MemSink,
    err: MemSink,
}

impl Came {
    // A status, and what two sinks have.
    fn of(alloc: Global, status: u8, out: &MemSink, err: &MemSink) -> Result<Self, CaseErr>
        ensures { IfOk result (λ came. came.status ≡ status) }
    {
        Ok(Came {
            status,
            out: Vec::from_slice(alloc, out.bytes())?,
            err: Vec::from_slice(alloc, err.bytes())?,
        })
    }
}

impl<'a> Call<'a> {
    /// These words on these files, with the choices of stream 1 and no faults.
    pub fn new(words: &'a [String], files: &'a [(&'a str, &'a [u8])]) -> Self
        ensures choices { result.choices ≡ Stream 1 }
        ensures store { result.store_fails ≡ None }
        ensures host { result.host_fails ≡ None }
    {
        Call {
            words,
            files,
            choices: Words::Stream(1),
            store_fails: None,
            host_fails: None,
            out_room: None,
            err_room: None,
        }
    }

    /// Makes the call.
    pub fn make<R: AllocGlobal + Clock + Threads + Sync>(&self, rt: &R) -> Result<Came, CaseErr>
        ensures { IfOk result (λ came. IsTrue (is_status came.status)) }
    {
        let alloc = rt.alloc();
        let mut met = self.surroundings(alloc)?;
        let status = dettrace(
            rt,
            self.words,
            &mut met.store,
            &mut met.host,
            &mut met.out,
            &mut met.err,
            &NoGate,
        );
        Came::of(alloc, status, &met.out, &met.err)
    }

    // What the program meets, with the choices and the faults of this call.
    fn surroundings(&self, alloc: Global) -> Result<Surroundings, CaseErr>
        ensures { IfOk result (λ met. IsEmptyStart met.host.view) }
    {
        Ok(Surroundings {
            store: self.store(alloc)?,
            host: self.host(alloc)?,
            out: sink(alloc, self.choices, self.out_room)?,
            err: sink(alloc, self.choices, self.err_room)?,
        })
    }

    fn host(&self, alloc: Global) -> Result<MemHost, CaseErr>
        ensures { IfOk result (λ host. IsEmptyStart host.view) }
    {
        let picker = picker(alloc, self.choices)?;
        Ok(MemHost::new(alloc, picker, failing_calls(alloc, self.host_fails)?)?)
    }

    fn store(&self, alloc: Global) -> Result<MemStore, CaseErr> {
        let picker = picker(alloc, self.choices)?;
        let mut store = MemStore::new(alloc, picker, failing_calls(alloc, self.store_fails)?)?;
        for (name, bytes) in self.files {
            store.insert(name, bytes)?;
        }
        Ok(store)
    }
}

fn picker(alloc: Global, words: Words) -> Result<Picker, AllocError> {
    match words {
        Words::Zeros(count) => Ok(Picker::new(vec![in alloc; 0; count]?, 0)),
        Words::Stream(number) => Ok(Picker::new(Vec::new(alloc), number)),
        Words::Digits(number) => Ok(Picker::new(digits(alloc, number)?, 0)),
    }
}

// The digits of a thousand words.
fn digits(alloc: Global, number: u32) -> Result<Vec<u32>, AllocError> {
    let mut words = Vec::new(alloc);
    for _ in 0..200 {
        let mut left = number;
        for _ in 0..5 {
            words.push(left % 3)?;
            left /= 3;
        }
    }
    Ok(words)
}

// The calls that fail: this one, if one does.
fn failing_calls(alloc: Global, call: Option<u64>) -> Result<Vec<u64>, AllocError>
    ensures { IfOk result (λ calls. calls.items ≡ option_to_list call) }
{
    let mut calls = Vec::new(alloc);
    if let Some(call) = call {
        calls.push(call)?;
    }
    Ok(calls)
}

fn sink(alloc: Global, words: Words, room: Option<u64>) -> Result<MemSink, CaseErr>
    ensures empty { IfOk result (λ sink. sink.bytes ≡ []) }
    ensures room { IfOk result (λ sink. sink.room ≡ room) }
{
    Ok(MemSink::new(alloc, picker(alloc, words)?, Vec::new(alloc), room)?)
}
