// Standard output and standard error.
ghost use Rattle.std.specs.Prelude.{◌≡◌, None};

use dt_host::{Sink, SinkErr};
use std::io::Write;

/// A sink over a writer, as standard output is. It tells no content: who reads it sees the bytes, and no proof does.
#[derive(Drop)]
pub struct StdSink<W> {
    writer: W,
    faults: u64,
}

impl<W> StdSink<W> {
    /// A sink before `writer` that has had no fault yet.
    pub fn new(writer: W) -> Self
        ensures over { result.writer ≡ writer }
        ensures fresh { result.faults ≡ 0 }
    {
        StdSink { writer, faults: 0 }
    }
}

impl<W: Write> Sink for StdSink<W> {
    ghost told = { λ _. None };

    ghost count = { λ sink. sink.faults };

    fn faults(&self) -> u64 {
        self.faults
    }

    // A writer that takes no byte would take none for ever, so that is a fault like an error.
    fn write(&mut self, piece: &[u8]) -> Result<usize, SinkErr> {
        match self.writer.write(piece) {
            Ok(count) if count > 0 => Ok(count),
            _ => {
                self.faults = self.faults.saturating_add(1);
                Err(SinkErr::Failed)
            }
        }
    }
}
