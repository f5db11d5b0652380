// Want of memory, told by a sink that has none.
ghost use Rattle.std.specs.Prelude.{None, IfOk};
ghost use Rattle.dt_host.specs.World.{IsEmptyStart};

use crate::anywhere::status_of;
use crate::expect::same;
use crate::program::{HELLO_INDEX, RUN_HELLO, hello};
use crate::twice::{host, outside_with, sink};
use dt_host::{Sink, SinkErr};
use dt_memhost::{MemHost, MemSink, MemStore, Picker};
use dt_run::Outside;
use std::alloc::Global;
use std::test::Fail;

// A sink that never has memory for a piece, and counts the pieces.
#[derive(Drop)]
struct Wanting {
    pieces: u64,
}

impl Sink for Wanting {
    ghost told = { λ _. None };

    ghost count = { λ _. 0 };

    fn faults(&self) -> u64 {
        0
    }

    fn write(&mut self, _piece: &[u8]) -> Result<usize, SinkErr> {
        self.pieces = self.pieces.saturating_add(1);
        Err(SinkErr::NoMemory)
    }
}

// What a run of `/hello` meets whose report wants memory.
fn with_wanting_report(alloc: Global) -> Result<Outside<MemStore, MemHost, Wanting, MemSink>, Fail>
    ensures { IfOk result (λ met. IsEmptyStart met.host.view) }
{
    let program = hello(alloc)?;
    let err = sink(alloc, 1)?;
    let out = Wanting { pieces: 0 };
    Ok(outside_with(alloc, 1, HELLO_INDEX, &program, out, err)?)
}

#[test]
fn a_report_that_wants_memory_is_status_7(rt: HostRuntime) -> Result<(), Fail> {
    let mut met = with_wanting_report(rt.alloc())?;
    same(&rt, status_of(&rt, RUN_HELLO, &mut met)?, 7);
    same(&rt, met.out.pieces, 1);
    let line = b"dettrace: out of memory\n".as_slice();
    same(&rt, met.err.bytes(), line);
    Ok(())
}

// What a run without an image meets whose error line wants memory.
fn with_wanting_line(alloc: Global) -> Result<Outside<MemStore, MemHost, MemSink, Wanting>, Fail>
    ensures { IfOk result (λ met. IsEmptyStart met.host.view) }
{
    Ok(Outside {
        store: MemStore::new(alloc, Picker::new(Vec::new(alloc), 1), Vec::new(alloc))?,
        host: host(alloc, 1)?,
        out: sink(alloc, 1)?,
        err: Wanting { pieces: 0 },
    })
}

#[test]
fn a_refusal_whose_line_wants_memory_is_status_7(rt: HostRuntime) -> Result<(), Fail> {
    let mut met = with_wanting_line(rt.alloc())?;
    same(&rt, status_of(&rt, "run", &mut met)?, 7);
    same(&rt, met.out.bytes().len(), 0);
    same(&rt, met.err.pieces, 1);
    Ok(())
}
