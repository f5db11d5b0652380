// The entries of a directory in memory.
ghost use Rattle.std.specs.Prelude.{◌≡◌, None, [], ◌∷◌, ◌++◌, map, IfOk, OnOk, OnErr};
ghost use Rattle.std.specs.List.Sorted.{IsPermutation};
ghost use Rattle.std.specs.FinMap.{entries, get, insert, remove};
ghost use Rattle.dt_host.specs.Legal.{pair_of};
ghost use Rattle.dt_memhost.specs.Order.{order_without};
ghost use Rattle.dt_memhost.specs.inner.Dir.{names_of};

use dt_base::{Blob, NoMemory};
use dt_host::HostEntry;
use indexmap::IndexMap;
use std::alloc::Global;
use std::marker::Model;

/// The entries of a directory, in the order of their binding.
#[derive(Drop)]
pub(crate) struct Entries {
    names: IndexMap<Vec<u8>, u64>,
}

impl Model for Entries {
    ghost use Rattle.dt_memhost.specs.Order.{Order};
    ghost use Rattle.dt_memhost.specs.inner.Dir.{order_of};

    ghost Value = { Order };

    ghost view = { λ d. order_of d.names.entries };
}

impl Entries {
    /// No entries.
    pub(crate) fn new(alloc: Global) -> Entries
        ensures { result ≡ [] }
    {
        Entries {
            names: IndexMap::new(alloc),
        }
    }

    /// The number under a name.
    pub(crate) fn find(&self, name: &[u8]) -> Option<u64>
        ensures { result ≡ get (names_of self.now) name.now }
    {
        self.names.get(name).copied()
    }

    /// A copy of the entries, in the order of their binding.
    pub(crate) fn list(&self, alloc: Global) -> Result<Vec<HostEntry>, NoMemory>
        ensures order { IfOk result (λ found. map pair_of found.items ≡ self.now) }
        ensures each { IfOk result
            (λ found. IsPermutation (entries (names_of self.now)) (map pair_of found.items)) }
    {
        let mut found = Vec::with_capacity(alloc, self.names.len())?;
        for (name, number) in &self.names {
            let name = Blob::new(Vec::from_slice(alloc, name)?);
            found.push(HostEntry { name, ino: *number })?;
        }
        Ok(found)
    }

    /// Adds an entry whose name isn't there. It goes last.
    pub(crate) fn bind(&mut self, name: Vec<u8>, number: u64) -> Result<(), NoMemory>
        requires { get (names_of self.old) name.items ≡ None }
        ensures ok { OnOk result (self.new ≡ self.old ++ (name.items, number) ∷ []) }
        ensures names { OnOk result
            (names_of self.new ≡ insert (names_of self.old) name.items number) }
        ensures err { OnErr result (self.new ≡ self.old) }
    {
        self.names.insert(name, number)?;
        Ok(())
    }

    /// Takes the entry of that name out. The others keep their order, so the time is linear.
    pub(crate) fn unbind(&mut self, name: &[u8])
        ensures order { self.new ≡ order_without self.old name.now }
        ensures names { names_of self.new ≡ remove (names_of self.old) name.now }
    {
        self.names.shift_remove(name);
    }
}
