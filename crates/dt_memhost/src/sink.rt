// A sink in memory.
ghost use Rattle.std.specs.Prelude.{◌≡◌, ◌<◌, length, take, Ok, Some, IfOk, OnErr, IsErrOf};
ghost use Rattle.dt_host.specs.Cause.{HasCause};
ghost use Rattle.dt_host.specs.Sink.{added, MovesSome};
ghost use Rattle.dt_memhost.specs.Sink.{empty_sink, is_full, room_for, WritesSinkBy};

use crate::picker::Picker;
use crate::script::Script;
use dt_base::NoMemory;
use dt_host::{Sink, SinkErr};
use std::alloc::Global;
use std::marker::Model;

/// A sink in memory, which chooses by words how much of a piece it takes.
#[derive(Drop)]
pub struct MemSink {
    bytes: Vec<u8>,
    room: Option<u64>,
    script: Script,
}

impl Model for MemSink {
    ghost use Rattle.dt_memhost.specs.Sink.{SinkState};

    ghost Value = { SinkState };

    ghost view = { λ s. record { bytes = s.bytes.items; room = s.room; script = s.script } };
}

impl MemSink {
    /// A sink without bytes. It fails at the calls of `fails`, numbers below 2^64 - 1 counted from 1, and
    /// once `room` bytes stand, if that is given.
    pub fn new(
        alloc: Global,
        picker: Picker,
        fails: Vec<u64>,
        room: Option<u64>,
    ) -> Result<MemSink, NoMemory>
        ensures { result ≡ Ok (empty_sink picker fails.items room) }
    {
        Ok(MemSink {
            bytes: Vec::new(alloc),
            room,
            script: Script::new(picker, fails),
        })
    }

    /// The bytes so far.
    pub fn bytes(&self) -> &[u8]
        ensures { result.now ≡ self.now.bytes }
    {
        self.bytes.as_slice()
    }

    // No more bytes have room.
    fn is_full(&self) -> bool
        ensures { result ≡ is_full self.now.room (length self.now.bytes) }
    {
        match self.room {
            None => false,
            Some(room) => room <= self.bytes.len() as u64,
        }
    }

    // How many of so many more bytes have room.
    fn room_for(&self, more: usize) -> usize
        ensures { result ≡ room_for self.now.room (length self.now.bytes) more }
    {
        match self.room {
            None => more,
            Some(room) => more.min(room.saturating_sub(self.bytes.len() as u64) as usize),
        }
    }
}

impl Sink for MemSink {
    ghost use Rattle.std.specs.Prelude.{Some};

    ghost told = { λ s. Some s.bytes };

    ghost count = { λ s. s.script.faults };

    fn faults(&self) -> u64 {
        self.script.faults()
    }

    fn write(&mut self, piece: &[u8]) -> Result<usize, SinkErr>
        requires { 0 < length piece.now }
        ensures exact { WritesSinkBy self.old piece.now result self.new }
        ensures moved { IfOk result (MovesSome (length piece.now)) }
        ensures ok { IfOk result
            (λ n. Some self.new.bytes ≡ added (Some self.old.bytes) (take n piece.now)) }
        ensures err { OnErr result (self.new.bytes ≡ self.old.bytes) }
        ensures cause { HasCause self.old.script.faults self.new.script.faults
            (IsErrOf result SinkErr.Failed) }
    {
        let full = self.is_full();
        let most = self.room_for(piece.len());
        self.script.begin(full)?;
        let count = self.script.length(most);
        let (prefix, _) = piece.split_at(count);
        self.bytes.extend_from_slice(prefix)?;
        Ok(count)
    }
}
