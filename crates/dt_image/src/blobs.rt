// The entries of an image, with the bytes of their blobs.
ghost use Rattle.std.specs.Prelude.{◌≡◌, ◌≢◌, ◌≤◌, ℕ, [], Ok, Err, Some, IfOk, IfSome, IsTrue, map, length, is_some, option_map};
ghost use Rattle.std.specs.Prelude.{true, false, nat_le};
ghost use Rattle.std.specs.List.{list_all, All};
ghost use Rattle.std.specs.List.Sorted.{IsStrictlySortedBy};
ghost use Rattle.std.specs.FinMap.{get};
ghost use Rattle.dt_base.specs.Image.{is_dir, is_good_what, is_good_entry};
ghost use Rattle.dt_base.specs.declared.refusal.Refusal.{Refusal};
ghost use Rattle.dt_host.specs.Asks.{AsksOr};
ghost use Rattle.dt_host.specs.Store.{StoreFiles, size_of};
ghost use Rattle.dt_image.specs.ImageOf.{name_below, has_listed_parent, has_blob, is_dir_source, source_what};
ghost use Rattle.dt_image.specs.ImageOf.{source_mode};
ghost use Rattle.dt_image.specs.ImageOf.{entry_with, with_blobs};
ghost use Rattle.dt_base.specs.Profile.{is_version, file_limit};
ghost use Rattle.dt_image.specs.inner.IndexView.{source_in, entry_in, path_cmp, blob_size, HasSize, is_good_made};
ghost use Rattle.dt_image.specs.inner.IndexView.{is_sound, path_kind, path_kind_of};

use crate::folder::{bytes_in, name_below, size_in};
use crate::index::{EntryRef, SourceRef};
use crate::input::{input_size, read_input};
use dt_base::{
    Blob, ENTRY_LIMIT, Entry, Image, ImageErr, LINK_MODE, NoMemory, Refusal, What, file_limit,
};
use dt_host::Store;
use std::alloc::Global;

// An entry of an index, and the size of its blob in bytes; 0 where it has none.
#[derive(Clone, Copy, Debug)]
struct Measured<'v> {
    entry: EntryRef<'v>,
    size: u64,
}

/// The image of a version of entries that stand in order, and the input. No blob is read before the sizes of all are
/// known and within the limit.
pub fn with_blobs<S: Store>(
    alloc: Global,
    store: &mut S,
    folder: &str,
    input: Option<&str>,
    version: u64,
    order: &[EntryRef<'_>],
) -> Result<(Image, Blob), ImageErr>
    requires version { IsTrue (is_version version) }
    requires sound { IsTrue (list_all (is_sound version) (map entry_in order.now)) }
    requires rising { IsStrictlySortedBy path_cmp order.now }
    requires parents { list_all (λ entry. has_listed_parent (map entry_in order.now) (entry_in entry)) order.now
        ≡ true }
    ensures ok { IfSome (S.told store.old) (λ held.
        IfOk result (λ found. with_blobs held folder.now (option_map (λ name. name.now) input.entry) version
        (map entry_in order.now) ≡ Ok found)) }
    ensures refused { (r : Refusal) → result ≡ Err (ImageErr.Refused r) →
        IfSome (S.told store.old) (λ held. with_blobs held folder.now (option_map (λ name. name.now) input.entry) version
        (map entry_in order.now) ≡ Err r) }
    ensures unnamed { input.entry ≡ None → IfOk result (λ found. found.1 ≡ []) }
    ensures no_steps { result ≢ Err (ImageErr.Refused Refusal.BadSteps) }
    ensures asks { AsksOr S.told S.count ImageErr.Store store.old store.new result }
{
    let blobs = measure(alloc, store, folder, order)?;
    if !are_within_limit(&blobs, file_limit(version)) {
        return Err(ImageErr::Refused(Refusal::TooBig));
    }
    if !are_few(&blobs) {
        return Err(ImageErr::Refused(Refusal::TooMany));
    }
    let size = input_size(alloc, store, folder, input)?;
    let entries = read(alloc, store, folder, version, &blobs)?;
    let input = read_input(alloc, store, folder, input, size)?;
    Ok((Image::new(version, entries), input))
}

// The sizes of all blobs.
fn measure<'v, S: Store>(
    alloc: Global,
    store: &mut S,
    folder: &str,
    order: &[EntryRef<'v>],
) -> Result<Vec<Measured<'v>>, ImageErr>
    ensures entries { IfOk result (λ blobs. map (λ blob. blob.entry) blobs.items ≡ order.now) }
    ensures sizes { IfSome (S.told store.old) (λ held.
        IfOk result (λ blobs. All (HasSize held folder.now) blobs.items)) }
    ensures refused { (r : Refusal) → result ≡ Err (ImageErr.Refused r) → (r ≡ Refusal.NoBlob)
        × IfSome (S.told store.old) (λ held.
        list_all (λ entry. has_blob held folder.now entry.source) (map entry_in order.now) ≡ false) }
    ensures asks { AsksOr S.told S.count ImageErr.Store store.old store.new result }
{
    let mut blobs = Vec::new(alloc);
    for entry in order {
        blobs.push(measure_one(alloc, store, folder, *entry)?)?;
    }
    Ok(blobs)
}

fn measure_one<'v, S: Store>(
    alloc: Global,
    store: &mut S,
    folder: &str,
    entry: EntryRef<'v>,
) -> Result<Measured<'v>, ImageErr>
    ensures entry { IfOk result (λ blob. blob.entry ≡ entry.entry) }
    ensures size { IfSome (S.told store.old) (λ held. IfOk result (HasSize held folder.now)) }
    ensures refused { (r : Refusal) → result ≡ Err (ImageErr.Refused r) → (r ≡ Refusal.NoBlob)
        × IfSome (S.told store.old) (λ held.
        has_blob held folder.now (source_in entry.entry.source) ≡ false) }
    ensures asks { AsksOr S.told S.count ImageErr.Store store.old store.new result }
{
    let size = blob_size(alloc, store, folder, entry.source)?;
    Ok(Measured { entry, size })
}

// The size of the blob that a file is made from; 0 for what is made from none.
fn blob_size<S: Store>(
    alloc: Global,
    store: &mut S,
    folder: &str,
    source: SourceRef<'_>,
) -> Result<u64, ImageErr>
    ensures ok { IfSome (S.told store.old) (λ held.
        IfOk result (λ size. blob_size held folder.now (source_in source.entry) ≡ Some size)) }
    ensures refused { (r : Refusal) → result ≡ Err (ImageErr.Refused r) → (r ≡ Refusal.NoBlob)
        × IfSome (S.told store.old) (λ held. has_blob held folder.now (source_in source.entry) ≡ false) }
    ensures asks { AsksOr S.told S.count ImageErr.Store store.old store.new result }
{
    match source {
        SourceRef::File(_, blob) => size_of(alloc, store, folder, blob),
        SourceRef::Dir(_) | SourceRef::Link(_) | SourceRef::Dev(_, _) => Ok(0),
    }
}

// The size of a blob.
fn size_of<S: Store>(
    alloc: Global,
    store: &mut S,
    folder: &str,
    blob: &str,
) -> Result<u64, ImageErr>
    ensures ok { IfSome (S.told store.old) (λ held.
        IfOk result (λ size. size_of held (name_below folder.now blob.now) ≡ Some size)) }
    ensures refused { (r : Refusal) → result ≡ Err (ImageErr.Refused r) → (r ≡ Refusal.NoBlob)
        × IfSome (S.told store.old) (λ held. is_some (get held (name_below folder.now blob.now)) ≡ false) }
    ensures asks { AsksOr S.told S.count ImageErr.Store store.old store.new result }
{
    let name = name_below(alloc, folder, blob)?;
    match size_in(store, name.as_str())? {
        Some(size) => Ok(size),
        None => Err(ImageErr::Refused(Refusal::NoBlob)),
    }
}

// No blob is longer than that.
fn are_within_limit(blobs: &[Measured<'_>], limit: u64) -> bool
    ensures { result ≡ list_all (λ blob. nat_le blob.size limit) blobs.now }
{
    blobs.iter().all(|blob| blob.size <= limit)
}

// There are no more entries than an image may have.
fn are_few(blobs: &[Measured<'_>]) -> bool
    ensures { result ≡ nat_le (length blobs.now) ENTRY_LIMIT }
{
    blobs.len() as u64 <= ENTRY_LIMIT
}

// The entries of an image of that version, with their bytes.
fn read<S: Store>(
    alloc: Global,
    store: &mut S,
    folder: &str,
    version: u64,
    blobs: &[Measured<'_>],
) -> Result<Vec<Entry>, ImageErr>
    requires sizes { IfSome (S.told store.old) (λ held. All (HasSize held folder.now) blobs.now) }
    requires fit { All (λ blob. blob.size ≤ file_limit version) blobs.now }
    requires sound { All (λ blob. IsTrue (is_sound version (entry_in blob.entry))) blobs.now }
    ensures ok { IfSome (S.told store.old) (λ held. IfOk result (λ entries.
        entries.items ≡ map (λ blob. entry_with held folder.now (entry_in blob.entry)) blobs.now)) }
    ensures spots { IfOk result (λ entries.
        map path_kind entries.items ≡ map (λ blob. path_kind_of (entry_in blob.entry)) blobs.now) }
    ensures good { IfOk result (λ entries. IsTrue (list_all (is_good_entry version) entries.items)) }
    ensures answered { (r : Refusal) → result ≡ Err (ImageErr.Refused r) → ⊥ }
    ensures asks { AsksOr S.told S.count ImageErr.Store store.old store.new result }
{
    let mut entries = Vec::new(alloc);
    for blob in blobs {
        entries.push(read_one(alloc, store, folder, version, *blob)?)?;
    }
    Ok(entries)
}

fn read_one<S: Store>(
    alloc: Global,
    store: &mut S,
    folder: &str,
    version: u64,
    blob: Measured<'_>,
) -> Result<Entry, ImageErr>
    requires size { IfSome (S.told store.old) (λ held. HasSize held folder.now blob) }
    requires fits { blob.size ≤ file_limit version }
    requires sound { IsTrue (is_sound version (entry_in blob.entry)) }
    ensures ok { IfSome (S.told store.old) (λ held.
        IfOk result (λ entry. entry ≡ entry_with held folder.now (entry_in blob.entry.entry))) }
    ensures spot { IfOk result (λ entry. path_kind entry ≡ path_kind_of (entry_in blob.entry.entry)) }
    ensures good { IfOk result (λ entry. IsTrue (is_good_entry version entry)) }
    ensures answered { (r : Refusal) → result ≡ Err (ImageErr.Refused r) → ⊥ }
    ensures asks { AsksOr S.told S.count ImageErr.Store store.old store.new result }
{
    let entry = blob.entry;
    let what = make_what(alloc, store, folder, version, entry.source, blob.size)?;
    Ok(Entry {
        path: copy_of(alloc, entry.path)?,
        mode: source_mode(entry.source),
        what,
    })
}

// What a source makes in an image of that version, whose blob has that size.
fn make_what<S: Store>(
    alloc: Global,
    store: &mut S,
    folder: &str,
    version: u64,
    source: SourceRef<'_>,
    size: u64,
) -> Result<What, ImageErr>
    requires size { IfSome (S.told store.old) (λ held.
        blob_size held folder.now (source_in source) ≡ Some size) }
    requires fits { size ≤ file_limit version }
    requires sound { IsTrue (is_good_made version (source_in source)) }
    ensures ok { IfSome (S.told store.old) (λ held.
        IfOk result (λ what. what ≡ source_what held folder.now (source_in source.entry))) }
    ensures kind { IfOk result (λ what. is_dir what ≡ is_dir_source (source_in source.entry)) }
    ensures good { IfOk result (λ what. IsTrue (is_good_what version what (source_mode (source_in source.entry)))) }
    ensures answered { (r : Refusal) → result ≡ Err (ImageErr.Refused r) → ⊥ }
    ensures asks { AsksOr S.told S.count ImageErr.Store store.old store.new result }
{
    match source {
        SourceRef::File(_, blob) => {
            let name = name_below(alloc, folder, blob)?;
            let bytes = bytes_in(alloc, store, name.as_str(), size)?;
            Ok(What::File(Blob::new(bytes)))
        }
        SourceRef::Dir(_) => Ok(What::Dir),
        SourceRef::Link(target) => Ok(What::Link(copy_of(alloc, target)?)),
        SourceRef::Dev(_, device) => Ok(What::Dev(device)),
    }
}

fn source_mode(source: SourceRef<'_>) -> u32
    ensures { result ≡ source_mode (source_in source.entry) }
{
    match source {
        SourceRef::File(mode, _) | SourceRef::Dir(mode) | SourceRef::Dev(mode, _) => mode,
        SourceRef::Link(_) => LINK_MODE,
    }
}

fn copy_of(alloc: Global, text: &str) -> Result<Blob, NoMemory>
    ensures { IfOk result (λ copy. copy ≡ text.now) }
{
    Ok(Blob::new(Vec::from_slice(alloc, text.as_bytes())?))
}
