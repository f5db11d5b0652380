// Copies of plain values, with ample memory.
use crate::expect::same;
use dt_base::{Blob, Command, Entry, Image, ImageErr, NoMemory, What};
use dt_image::read_image;
use dt_memhost::{MemStore, Picker};
use dt_options::{Options, RunOptions, UsageErr, read_options};
use std::alloc::{AllocError, Global};
use std::process::Abort;
use std::test::Fail;

/// An index of one file, `/hello`.
pub const HELLO_INDEX: &[u8] =
    b"{\"version\":1,\"entries\":[{\"path\":\"/hello\",\"type\":\"file\",\"mode\":493,\"blob\":\"hello\"}]}";

fn words(alloc: Global, given: &[&str]) -> Result<Vec<String>, AllocError> {
    let mut words = Vec::new(alloc);
    for word in given {
        words.push(String::from_str(alloc, word)?)?;
    }
    Ok(words)
}

/// The image of an index with one blob.
pub fn image(alloc: Global, index: &[u8], blob: &str, bytes: &[u8]) -> Result<Image, ImageErr> {
    let mut store = store(alloc, index, blob, bytes)?;
    let (image, _input) = read_image(alloc, &mut store, "img", None)?;
    Ok(image)
}

fn store(alloc: Global, index: &[u8], blob: &str, bytes: &[u8]) -> Result<MemStore, NoMemory> {
    let mut store = MemStore::new(alloc, Picker::new(Vec::new(alloc), 1), Vec::new(alloc))?;
    store.insert("img/image.json", index)?;
    store.insert(blob, bytes)?;
    Ok(store)
}

/// What words ask of a run.
pub fn run_options(alloc: Global, given: &[&str]) -> Result<RunOptions, UsageErr> {
    match read_options(alloc, &words(alloc, given)?)? {
        Options::Run(options) => Ok(options),
        _ => Err(UsageErr::Refused),
    }
}

// Ends the test unless a copy of an entry is a file of some bytes, `/hello`.
fn expect_entry(rt: &impl Abort, entry: &Entry) -> Result<(), NoMemory> {
    let entry = entry.copy()?;
    same(rt, entry.path.as_slice(), b"/hello".as_slice());
    same(rt, entry.mode, 0o755);
    expect_file(rt, &entry.what)
}

fn expect_file(rt: &impl Abort, what: &What) -> Result<(), NoMemory> {
    match what.copy()? {
        What::File(bytes) => same(rt, bytes.as_slice(), b"some bytes".as_slice()),
        What::Dir | What::Link(_) | What::Dev(_) => assert!(rt; false, "no file"),
    }
    Ok(())
}

fn expect_link(rt: &impl Abort, what: &What) -> Result<(), NoMemory> {
    match what.copy()? {
        What::Link(target) => same(rt, target.as_slice(), b"to".as_slice()),
        What::Dir | What::File(_) | What::Dev(_) => assert!(rt; false, "no link"),
    }
    Ok(())
}

fn expect_entries(rt: &impl Abort, image: &Image) -> Result<(), NoMemory> {
    same(rt, image.entries().len(), 1);
    for entry in image.entries() {
        expect_entry(rt, entry)?;
    }
    Ok(())
}

fn image_copy(alloc: Global) -> Result<Image, ImageErr> {
    let image = image(alloc, HELLO_INDEX, "img/hello", b"some bytes")?;
    Ok(image.copy()?)
}

#[test]
fn a_copy_of_an_image_has_its_entries(rt: HostRuntime) -> Result<(), Fail> {
    let copy = image_copy(rt.alloc())?;
    expect_entries(&rt, &copy)?;
    let link = What::Link(Blob::new(Vec::from_slice(rt.alloc(), b"to")?));
    expect_link(&rt, &link)?;
    Ok(())
}

// Ends the test unless these are the words.
fn expect_words(rt: &impl Abort, found: &[Blob], words: &[&str]) -> Result<(), NoMemory> {
    same(rt, found.len(), words.len());
    for index in 0..found.len().min(words.len()) {
        let copy = found[index].copy()?;
        same(rt, copy.as_slice(), words[index].as_bytes());
    }
    Ok(())
}

fn expect_command(rt: &impl Abort, command: &Command) -> Result<(), NoMemory> {
    let command = command.copy()?;
    expect_words(rt, command.args(), &["/hello", "x"])?;
    expect_words(rt, command.env(), &["A=1", "B=2"])
}

#[test]
fn a_copy_of_a_command_has_its_words(rt: HostRuntime) -> Result<(), Fail> {
    let words = ["run", "img", "--", "A=1", "B=2", "/hello", "x"];
    let options = run_options(rt.alloc(), &words)?;
    let image = options.image.copy()?;
    same(&rt, image.as_str(), "img");
    same(&rt, options.seed, 0);
    same(&rt, options.budget, 100_000_000);
    same(&rt, options.workers, 4);
    same(&rt, options.host, None);
    expect_command(&rt, &options.command)?;
    Ok(())
}
