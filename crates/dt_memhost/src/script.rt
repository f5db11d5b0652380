// What a host, a store or a sink in memory goes by: the words of its choices and the calls that fail.
ghost use Rattle.std.specs.Prelude.{◌≡◌, ◌%◌, ◌<◌, ◌^◌, ◌||◌, true, false, length, map, OnOk, OnErr};
ghost use Rattle.dt_host.specs.declared.error.HostErr.TheVariants.{Failed as host_failed};
ghost use Rattle.dt_host.specs.declared.error.StoreErr.TheVariants.{Failed as store_failed};
ghost use Rattle.dt_host.specs.declared.error.SinkErr.TheVariants.{Failed as sink_failed};
ghost use Rattle.dt_memhost.specs.Picks.{length_by};
ghost use Rattle.dt_memhost.specs.Script.{script_from, is_next_listed, after_call, after_fault, after_draw};
ghost use Rattle.dt_memhost.specs.Script.{after_draws, with_stream};
ghost use Rattle.dt_memhost.specs.Script.{coming_word, words_of};

use crate::picker::Picker;
use dt_host::{HostErr, SinkErr, StoreErr};
use std::alloc::Global;
use std::marker::Model;

/// The call fails, and was counted so.
#[derive(Clone, Copy, Debug)]
pub(crate) struct Fault;

impl From<Fault> for HostErr {
    ghost from_gives = { λ _ e. e ≡ host_failed };

    fn from(_: Fault) -> Self {
        HostErr::Failed
    }
}

impl From<Fault> for StoreErr {
    ghost from_gives = { λ _ e. e ≡ store_failed };

    fn from(_: Fault) -> Self {
        StoreErr::Failed
    }
}

impl From<Fault> for SinkErr {
    ghost from_gives = { λ _ e. e ≡ sink_failed };

    fn from(_: Fault) -> Self {
        SinkErr::Failed
    }
}

/// The words of the choices and the calls that fail.
#[derive(Drop)]
pub(crate) struct Script {
    picker: Picker,
    fails: Vec<u64>,
    calls: u64,
    faults: u64,
}

impl Model for Script {
    ghost use Rattle.dt_memhost.specs.Script.{Script as ScriptState};

    ghost Value = { ScriptState };

    ghost view = { λ s. record { picks = s.picker; fails = s.fails.items; calls = s.calls; faults = s.faults } };
}

impl Script {
    ghost use Rattle.std.specs.Prelude.{◌≤◌, length};

    /// A script of words and of calls that fail, before any call.
    pub(crate) fn new(picker: Picker, fails: Vec<u64>) -> Script
        ensures { result ≡ script_from picker fails.items }
    {
        Script {
            picker,
            fails,
            calls: 0,
            faults: 0,
        }
    }

    /// How many calls failed.
    pub(crate) fn faults(&self) -> u64
        ensures value { result ≡ self.now.faults }
        ensures small { self.now.faults < 2 ^ 64 }
    {
        self.faults
    }

    /// Counts a call. It fails because it is listed, or for another reason that is known.
    pub(crate) fn begin(&mut self, refused: bool) -> Result<(), Fault>
        ensures unlisted { OnOk result ((refused || is_next_listed self.old) ≡ false) }
        ensures listed { OnErr result ((refused || is_next_listed self.old) ≡ true) }
        ensures ok { OnOk result (self.new ≡ after_call self.old) }
        ensures err { OnErr result (self.new ≡ after_fault self.old) }
        ensures later { self.old.faults ≤ self.new.faults }
    {
        self.calls = self.calls.saturating_add(1);
        if refused || self.fails.contains(&self.calls) {
            self.faults = self.faults.saturating_add(1);
            return Err(Fault);
        }
        Ok(())
    }

    /// Begins the stream of a number, and drops the words that are left.
    pub(crate) fn restart(&mut self, alloc: Global, number: u64)
        ensures { self.new ≡ with_stream self.old number }
    {
        self.picker = Picker::new(Vec::new(alloc), number);
    }

    /// The next word, which chooses what the host does where it may do several things.
    pub(crate) fn word(&mut self) -> u32
        ensures word { result ≡ coming_word self.old }
        ensures after { self.new ≡ after_draw self.old }
    {
        self.picker.word()
    }

    /// A length from 1 to `most`, by a word.
    pub(crate) fn length(&mut self, most: usize) -> usize
        requires { 0 < most }
        ensures word { result ≡ length_by (coming_word self.old) most }
        ensures after { self.new ≡ after_draw self.old }
    {
        1 + self.index(most)
    }

    /// An index below `count`, by a word.
    pub(crate) fn index(&mut self, count: usize) -> usize
        requires { 0 < count }
        ensures word { result ≡ coming_word self.old % count }
        ensures after { self.new ≡ after_draw self.old }
    {
        self.word() as usize % count
    }

    /// Fills a buffer, each byte by a word.
    pub(crate) fn fill(&mut self, buf: &mut [u8])
        ensures bytes { buf.new ≡ map (λ word. word % 256) (words_of (length buf.old) self.old) }
        ensures after { self.new ≡ after_draws (length buf.old) self.old }
    {
        for byte in buf.iter_mut() {
            *byte = self.byte();
        }
    }

    // A byte, by a word.
    fn byte(&mut self) -> u8
        ensures word { result ≡ coming_word self.old % 256 }
        ensures after { self.new ≡ after_draw self.old }
    {
        (self.word() % 256) as u8
    }
}
