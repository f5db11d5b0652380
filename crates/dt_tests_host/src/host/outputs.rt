// A store and a sink in memory, and what may be handed to a thread.
use crate::expect::same;
use dt_base::NoMemory;
use dt_host::{NoGate, Store, sink_all, store_whole};
use dt_memhost::{MemHost, MemSink, MemStore, Picker};
use std::alloc::Global;
use std::process::Abort;
use std::test::Fail;

fn new_host(alloc: Global) -> Result<MemHost, NoMemory> {
    MemHost::new(alloc, Picker::new(Vec::new(alloc), 1), Vec::new(alloc))
}

fn new_store(alloc: Global) -> Result<MemStore, NoMemory> {
    MemStore::new(alloc, Picker::new(Vec::new(alloc), 1), Vec::new(alloc))
}

fn new_sink(alloc: Global) -> Result<MemSink, NoMemory> {
    let picker = Picker::new(Vec::new(alloc), 1);
    MemSink::new(alloc, picker, Vec::new(alloc), None)
}

#[test]
fn store_tells_what_was_put(rt: HostRuntime) -> Result<(), Fail> {
    let mut store = new_store(rt.alloc())?;
    put_twice(&mut store)?;
    let bytes = six_bytes(&rt, &mut store)?;
    same(&rt, bytes.as_slice(), b"a blob".as_slice());
    Ok(())
}

// Puts bytes under a name, and others after them.
fn put_twice(store: &mut MemStore) -> Result<(), Fail> {
    store.insert("a", b"old")?;
    store.put("a", b"a blob")?;
    Ok(())
}

// What the store tells of that name. Ends the test unless it has six bytes.
fn six_bytes(rt: &impl Abort, store: &mut MemStore) -> Result<[u8; 6], Fail> {
    assert_eq!(rt; store.size("a")?, Some(6));
    let mut bytes = [0; 6];
    store_whole(store, "a", &mut bytes)?;
    Ok(bytes)
}

#[test]
fn sink_takes_all(rt: HostRuntime) -> Result<(), Fail> {
    let mut sink = new_sink(rt.alloc())?;
    sink_all(&mut sink, b"a report")?;
    same(&rt, sink.bytes(), b"a report".as_slice());
    Ok(())
}

// Takes what one thread may hand to another.
fn hand_over<T: Send + Drop>(_value: T) {}

// Takes what threads may share.
fn share<T: Sync>(_value: &T) {}

#[test]
fn outside_in_memory_goes_to_threads(rt: HostRuntime) -> Result<(), Fail> {
    hand_over(new_host(rt.alloc())?);
    hand_over(new_store(rt.alloc())?);
    hand_over(new_sink(rt.alloc())?);
    share(&NoGate);
    Ok(())
}
