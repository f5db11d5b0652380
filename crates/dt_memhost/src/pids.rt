// The pids of a host in memory.
ghost use Rattle.std.specs.Prelude.{◌≡◌, false, OnOk, OnErr};
ghost use Rattle.std.specs.FinSet.{empty, contains, insert, remove};
ghost use Rattle.dt_host.specs.World.{ArePids};
ghost use Rattle.dt_memhost.specs.Number.{IsChosenNumber};

use crate::number::{self, PID_NUMBERS};
use dt_base::NoMemory;
use std::alloc::Global;
use std::collections::BTreeMap;
use std::marker::Model;

/// The pids that are live.
#[derive(Drop)]
pub(crate) struct MemPids {
    // A map to nothing, and no set, so that words choose a pid by the same code as the number of a node.
    live: BTreeMap<u64, ()>,
}

impl Model for MemPids {
    ghost use Rattle.dt_host.specs.World.{HostPids, ArePids};
    ghost use Rattle.dt_host.specs.inner.Codes.{pids_code};
    ghost use Rattle.dt_memhost.specs.inner.Live.{pids_of};

    ghost Value = { HostPids };

    ghost coded = { pids_code };

    ghost invariant = { λ p. ArePids (pids_of p.live.entries) };

    ghost view = { λ p. pids_of p.live.entries };
}

impl MemPids {
    /// No pids.
    pub(crate) fn new(alloc: Global) -> MemPids
        ensures { result ≡ empty }
    {
        MemPids {
            live: BTreeMap::new(alloc),
        }
    }

    /// Does nothing: a proof learns here that the pids have 64 bits.
    pub(crate) fn bounds(&self)
        ensures { ArePids self.now }
    {
        let _live = &self.live;
    }

    /// A pid that isn't live, by a word.
    pub(crate) fn number_by(&self, word: u32) -> u64
        ensures chosen { IsChosenNumber (contains self.now) PID_NUMBERS word result }
        ensures free { contains self.now result ≡ false }
    {
        number::number_by(&self.live, PID_NUMBERS, word)
    }

    /// Adds a pid.
    pub(crate) fn add(&mut self, pid: u64) -> Result<(), NoMemory>
        ensures ok { OnOk result (self.new ≡ insert self.old pid) }
        ensures err { OnErr result (self.new ≡ self.old) }
    {
        self.live.insert(pid, ())?;
        Ok(())
    }

    /// Takes a pid out.
    pub(crate) fn remove(&mut self, pid: u64)
        ensures { self.new ≡ remove self.old pid }
    {
        self.live.remove(&pid);
    }
}
