// A folder `img` in memory, and why it has no image.
use dt_base::{Image, ImageErr, NoMemory, Refusal};
use dt_image::read_image;
use dt_memhost::{MemStore, Picker};
use std::alloc::{AllocError, Global};

/// A blob's name, and its size in bytes.
pub type BlobSize<'a> = (&'a str, usize);

/// An index of entries that a line lists as `TYPE:PATH:MODE:NAME`, with `,` between two. The name is a file's blob and
/// a link's target. Each entry has the members of all types.
pub fn index(alloc: Global, line: &str) -> Result<String, AllocError> {
    let mut text = String::from_str(alloc, r#"{"version":1,"entries":["#)?;
    add_entries(alloc, &mut text, line)?;
    Ok(text)
}

// Adds the entries of a line to the text of an index, and its end.
fn add_entries(alloc: Global, text: &mut String, line: &str) -> Result<(), AllocError> {
    for entry in line.split(',') {
        add_entry(alloc, text, entry)?;
    }
    text.push_str("]}")
}

// Adds an entry to the text of an index, behind a comma where one stands before it.
fn add_entry(alloc: Global, text: &mut String, entry: &str) -> Result<(), AllocError> {
    if text.as_str().ends_with('}') {
        text.push_str(",")?;
    }
    let entry = entry_text(alloc, entry)?;
    text.push_str(entry.as_str())
}

fn entry_text(alloc: Global, entry: &str) -> Result<String, AllocError> {
    let mut parts = entry.split(':');
    let kind = parts.next().unwrap_or("");
    let path = parts.next().unwrap_or("");
    let mode = parts.next().unwrap_or("");
    let name = parts.next().unwrap_or("");
    format!(in alloc;
        r#"{{"type":"{kind}","path":"{path}","mode":{mode},"blob":"{name}","target":"{name}"}}"#
    )
}

/// An index of so many files with one blob, `b`.
pub fn many(alloc: Global, count: u32) -> Result<String, AllocError> {
    let mut line = String::from_str(alloc, "file:/first:420:b")?;
    add_files(alloc, &mut line, count)?;
    index(alloc, line.as_str())
}

// Adds the other ones of so many files to a line.
fn add_files(alloc: Global, line: &mut String, count: u32) -> Result<(), AllocError> {
    for i in 1..count {
        let entry = format!(in alloc; ",file:/{i}:420:b")?;
        line.push_str(entry.as_str())?;
    }
    Ok(())
}

/// A store with an index, if there is one, and blobs whose bytes are all `x`.
pub fn folder(
    alloc: Global,
    picker: Picker,
    fails: Vec<u64>,
    index: Option<&[u8]>,
    blobs: &[BlobSize<'_>],
) -> Result<MemStore, NoMemory> {
    let mut store = MemStore::new(alloc, picker, fails)?;
    fill(alloc, &mut store, index, blobs)?;
    Ok(store)
}

// Puts them into the store.
fn fill(
    alloc: Global,
    store: &mut MemStore,
    index: Option<&[u8]>,
    blobs: &[BlobSize<'_>],
) -> Result<(), NoMemory> {
    if let Some(bytes) = index {
        store.insert("img/image.json", bytes)?;
    }
    for (name, size) in blobs {
        put_blob(alloc, store, name, *size)?;
    }
    Ok(())
}

fn put_blob(alloc: Global, store: &mut MemStore, name: &str, size: usize) -> Result<(), NoMemory> {
    let path = format!(in alloc; "img/{name}")?;
    let bytes = vec![in alloc; b'x'; size]?;
    store.insert(path.as_str(), &bytes)?;
    Ok(())
}

/// A blob's path, and its bytes.
pub type BlobBytes<'a> = (&'a str, &'a [u8]);

/// The image of the entries that a line lists, over these blobs.
pub fn image_of(alloc: Global, line: &str, blobs: &[BlobBytes<'_>]) -> Result<Image, ImageErr> {
    let mut store = MemStore::new(alloc, Picker::new(Vec::new(alloc), 1), Vec::new(alloc))?;
    put_all(alloc, &mut store, line, blobs)?;
    let (image, _input) = read_image(alloc, &mut store, "img", None)?;
    Ok(image)
}

fn put_all(
    alloc: Global,
    store: &mut MemStore,
    line: &str,
    blobs: &[BlobBytes<'_>],
) -> Result<(), NoMemory> {
    let text = index(alloc, line)?;
    store.insert("img/image.json", text.as_bytes())?;
    for (path, bytes) in blobs {
        store.insert(*path, *bytes)?;
    }
    Ok(())
}

/// The same where nothing but memory can be missing, since the store never fails and the image is good.
pub fn good_image(alloc: Global, line: &str, blobs: &[BlobBytes<'_>]) -> Result<Image, NoMemory> {
    match image_of(alloc, line, blobs) {
        Ok(image) => Ok(image),
        Err(_) => Err(NoMemory),
    }
}

/// The image of the entries that a line lists, over blobs of these sizes.
pub fn image_of_sizes(
    alloc: Global,
    line: &str,
    blobs: &[BlobSize<'_>],
) -> Result<Image, ImageErr> {
    let text = index(alloc, line)?;
    let picker = Picker::new(Vec::new(alloc), 1);
    let bytes = Some(text.as_bytes());
    let mut store = folder(alloc, picker, Vec::new(alloc), bytes, blobs)?;
    let (image, _input) = read_image(alloc, &mut store, "img", None)?;
    Ok(image)
}

/// Why a folder has no image; None where it has one.
pub fn refusal(
    alloc: Global,
    index: Option<&[u8]>,
    blobs: &[BlobSize<'_>],
) -> Result<Option<Refusal>, ImageErr> {
    let picker = Picker::new(Vec::new(alloc), 1);
    let mut store = folder(alloc, picker, Vec::new(alloc), index, blobs)?;
    match read_image(alloc, &mut store, "img", None).err() {
        None => Ok(None),
        Some(ImageErr::Refused(refusal)) => Ok(Some(refusal)),
        Some(error) => Err(error),
    }
}
