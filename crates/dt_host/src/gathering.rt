// A sink that gathers what is written.
ghost use Rattle.std.specs.Prelude.{◌≡◌, ◌++◌, ◌<◌, length, take, Some, IfOk, OnErr, IsErrOf};
ghost use Rattle.dt_host.specs.Cause.{HasCause};
ghost use Rattle.dt_host.specs.Sink.{added, MovesSome};

use crate::error::SinkErr;
use crate::sink::Sink;
use std::alloc::Global;
use std::marker::Model;

/// A sink that keeps all bytes and never fails; memory may run out.
#[derive(Debug, Drop)]
pub struct VecSink {
    bytes: Vec<u8>,
}

impl Model for VecSink {
    ghost use Rattle.std.specs.Prelude.{ℕ, List};

    ghost Value = { List ℕ };

    ghost view = { λ sink. sink.bytes.items };
}

impl VecSink {
    ghost use Rattle.std.specs.Prelude.{[]};

    /// A sink without bytes.
    pub fn new(alloc: Global) -> Self
        ensures { result ≡ [] }
    {
        VecSink {
            bytes: Vec::new(alloc),
        }
    }

    /// The bytes so far.
    pub fn bytes(&self) -> &[u8]
        ensures { result.now ≡ self.now }
    {
        self.bytes.as_slice()
    }
}

impl Sink for VecSink {
    ghost told = { λ bytes. Some bytes };

    ghost count = { λ _. 0 };

    fn faults(&self) -> u64 {
        0
    }

    /// Appends all of `piece`.
    fn write(&mut self, piece: &[u8]) -> Result<usize, SinkErr>
        requires { 0 < length piece.now }
        ensures whole { IfOk result (λ n. (n ≡ length piece.now) × (self.new ≡ self.old ++ piece.now)) }
        ensures moved { IfOk result (MovesSome (length piece.now)) }
        ensures ok { IfOk result (λ n. Some self.new ≡ added (Some self.old) (take n piece.now)) }
        ensures err { OnErr result (self.new ≡ self.old) }
        ensures cause { HasCause 0 0 (IsErrOf result SinkErr.Failed) }
    {
        self.bytes.extend_from_slice(piece)?;
        Ok(piece.len())
    }
}
