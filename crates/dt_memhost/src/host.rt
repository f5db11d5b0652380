// A host in memory, whose choices are a function of words.
ghost use Rattle.std.specs.Prelude.{◌≡◌, IfOk};
ghost use Rattle.dt_host.specs.World.{IsEmptyStart};
ghost use Rattle.dt_memhost.specs.Host.{empty_host};

mod calls;

use crate::forest::MemForest;
use crate::picker::Picker;
use crate::pids::MemPids;
use crate::script::Script;
use dt_base::NoMemory;
use std::alloc::Global;
use std::marker::Model;

/// A host in memory, which chooses numbers and lengths by words.
#[derive(Drop)]
pub struct MemHost {
    alloc: Global,
    forest: MemForest,
    pids: MemPids,
    script: Script,
}

impl Model for MemHost {
    ghost use Rattle.dt_memhost.specs.Host.{HostState};
    ghost use Rattle.dt_memhost.specs.inner.Codes.{host_code};

    ghost Value = { HostState };

    ghost coded = { host_code };

    ghost view = { λ h. record {
      view = record { forest = h.forest.forest; pipes = h.forest.pipes; pids = h.pids };
      orders = h.forest.orders;
      script = h.script;
    } };
}

impl MemHost {
    /// A host of nothing but a root without entries, whose number is 1. It fails at the calls of
    /// `fails`, numbers below 2^64 - 1 counted from 1.
    pub fn new(alloc: Global, picker: Picker, fails: Vec<u64>) -> Result<MemHost, NoMemory>
        ensures exact { IfOk result (λ h. h ≡ empty_host picker fails.items) }
        ensures start { IfOk result (λ h. IsEmptyStart h.view) }
    {
        Ok(MemHost {
            alloc,
            forest: MemForest::new(alloc)?,
            pids: MemPids::new(alloc),
            script: Script::new(picker, fails),
        })
    }
}
