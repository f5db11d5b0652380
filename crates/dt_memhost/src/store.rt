// A store in memory.
ghost use Rattle.std.specs.Prelude.{◌≡◌, ◌+◌, ◌<◌, ◌++◌, length, take, drop, Ok, OnOk, OnErr, IfOk, IsErrOf};
ghost use Rattle.std.specs.Prelude.{option_map, option_copied, vec_items};
ghost use Rattle.std.specs.FinMap.{get};
ghost use Rattle.dt_host.specs.Cause.{HasCause};
ghost use Rattle.dt_host.specs.Sink.{MovesSome};
ghost use Rattle.dt_host.specs.Store.{size_of, bytes_of, ReachesTo, with_file, told_with, StoresPart};
ghost use Rattle.dt_memhost.specs.Store.{files_of, empty_store, SizesBy, ReadsStoreBy, PutsStoreBy};

use crate::picker::Picker;
use crate::script::Script;
use crate::transfer::copy_into;
use dt_base::NoMemory;
use dt_host::{Store, StoreErr};
use std::alloc::Global;
use std::collections::BTreeMap;
use std::marker::Model;

/// A store in memory, which chooses by words how much of a buffer it fills.
#[derive(Drop)]
pub struct MemStore {
    alloc: Global,
    files: BTreeMap<String, Vec<u8>>,
    script: Script,
}

impl Model for MemStore {
    ghost use Rattle.dt_memhost.specs.inner.Codes.{store_code};
    ghost use Rattle.dt_memhost.specs.Store.{StoreState, files_of};

    ghost Value = { StoreState };

    ghost coded = { store_code };

    ghost view = { λ s. record { files = files_of s.files.entries; script = s.script } };
}

impl MemStore {
    /// A store without files. It fails at the calls of `fails`, numbers below 2^64 - 1 counted from 1.
    pub fn new(alloc: Global, picker: Picker, fails: Vec<u64>) -> Result<MemStore, NoMemory>
        ensures { result ≡ Ok (empty_store picker fails.items) }
    {
        Ok(MemStore {
            alloc,
            files: BTreeMap::new(alloc),
            script: Script::new(picker, fails),
        })
    }

    /// Makes the file of that name hold these bytes. This is no call of the trait: it is not counted, and never fails
    /// as listed.
    pub fn insert(&mut self, name: &str, bytes: &[u8]) -> Result<(), NoMemory>
        ensures ok { OnOk result (self.new
            ≡ record self.old { files = with_file self.old.files name.now bytes.now }) }
        ensures err { OnErr result (self.new ≡ self.old) }
    {
        let name = String::from_str(self.alloc, name)?;
        let bytes = Vec::from_slice(self.alloc, bytes)?;
        self.files.insert(name, bytes)?;
        Ok(())
    }
}

impl Store for MemStore {
    ghost use Rattle.std.specs.Prelude.{Some};

    ghost told = { λ s. Some s.files };

    ghost count = { λ s. s.script.faults };

    fn faults(&self) -> u64 {
        self.script.faults()
    }

    fn size(&mut self, name: &str) -> Result<Option<u64>, StoreErr>
        ensures exact { SizesBy self.old name.now result self.new }
        ensures ok { IfOk result (λ size. size ≡ size_of self.old.files name.now) }
        ensures stays { Some self.new.files ≡ Some self.old.files }
        ensures cause { HasCause self.old.script.faults self.new.script.faults
            (IsErrOf result StoreErr.Failed) }
    {
        self.script.begin(false)?;
        Ok(file_named(&self.files, name).map(|bytes| bytes.len() as u64))
    }

    fn read_at(&mut self, name: &str, off: u64, buf: &mut [u8]) -> Result<usize, StoreErr>
        requires room { 0 < length buf.old }
        requires within { ReachesTo self.old.files name.now (off + length buf.old) }
        ensures exact { ReadsStoreBy self.old name.now off buf.old buf.new result self.new }
        ensures moved { IfOk result (MovesSome (length buf.old)) }
        ensures ok { IfOk result
            (λ n. buf.new ≡ take n (drop off (bytes_of self.old.files name.now))
            ++ drop n buf.old) }
        ensures stays { Some self.new.files ≡ Some self.old.files }
        ensures cause { HasCause self.old.script.faults self.new.script.faults
            (IsErrOf result StoreErr.Failed) }
    {
        self.script.begin(false)?;
        let count = self.script.length(buf.len());
        let Some(bytes) = file_named(&self.files, name) else {
            unreachable!()
        };
        copy_into(bytes, off as usize, count, buf);
        Ok(count)
    }

    fn put(&mut self, name: &str, bytes: &[u8]) -> Result<(), StoreErr>
        ensures exact { PutsStoreBy self.old name.now bytes.now result self.new }
        ensures ok { OnOk result
            (Some self.new.files ≡ told_with (Some self.old.files) name.now bytes.now) }
        ensures err { OnErr result
            (StoresPart (Some self.old.files) (Some self.new.files) name.now bytes.now) }
        ensures cause { HasCause self.old.script.faults self.new.script.faults
            (IsErrOf result StoreErr.Failed) }
    {
        self.script.begin(false)?;
        self.insert(name, bytes)?;
        Ok(())
    }
}

fn file_named<'a>(files: &'a BTreeMap<String, Vec<u8>>, name: &str) -> Option<&'a Vec<u8>>
    ensures { option_map vec_items (option_copied result)
        ≡ get (files_of files.now.entries) name.now }
{
    files.get(name)
}
