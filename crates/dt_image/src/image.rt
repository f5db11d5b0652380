// An image, read from a folder of a store.
ghost use Rattle.std.specs.Prelude.{◌≡◌, ◌≢◌, ℕ, List, [], Option, ◌≤◌, length, map, option_map, codes, vec_len, Some, None, Err, Ok, IfOk, IfSome};
ghost use Rattle.std.specs.Prelude.{IsErrOf, IsTrue};
ghost use Rattle.std.specs.List.{list_all};
ghost use Rattle.std.specs.List.Sorted.{IsStrictlySortedBy};
ghost use Rattle.std.specs.FinMap.{get};
ghost use Rattle.serde_json.specs.View.{view};
ghost use Rattle.dt_base.specs.Profile.{is_version};
ghost use Rattle.dt_base.specs.declared.refusal.Refusal.{Refusal};
ghost use Rattle.dt_host.specs.Asks.{AsksOr};
ghost use Rattle.dt_image.specs.Index.{is_good};
ghost use Rattle.dt_image.specs.inner.IndexView.{entry_in, path_cmp, is_listed, is_sound, image_in_order};
ghost use Rattle.dt_image.specs.ImageOf.{name_below, value_of, image_by, image_of, image_from};

use crate::blobs::with_blobs;
use crate::folder::{bytes_in, name_below, size_in};
use crate::index::{EntryRef, index_of, is_good};
use crate::json::parse;
use crate::order::sorted;
use crate::parents::have_parents;
use dt_base::{Blob, INDEX_LIMIT, Image, ImageErr, Refusal};
use dt_host::Store;
use serde_json::Value;
use std::alloc::Global;

/// Reads the image of a folder: `image.json`, and the blobs of the files that it lists; and the blob that is named as
/// standard input, which is empty where none is named.
pub fn read_image<S: Store>(
    alloc: Global,
    store: &mut S,
    folder: &str,
    input: Option<&str>,
) -> Result<(Image, Blob), ImageErr>
    ensures ok { IfSome (S.told store.old) (λ files. IfOk result
        (λ found. image_of files folder.now (option_map (λ name. name.now) input.entry) ≡ Ok found)) }
    ensures refused { (r : Refusal) → result ≡ Err (ImageErr.Refused r) →
        IfSome (S.told store.old) (λ files. image_of files folder.now (option_map (λ name. name.now) input.entry) ≡ Err r) }
    ensures unnamed { input.entry ≡ None → IfOk result (λ found. found.1 ≡ []) }
    ensures no_steps { result ≢ Err (ImageErr.Refused Refusal.BadSteps) }
    ensures asks { AsksOr S.told S.count ImageErr.Store store.old store.new result }
{
    let bytes = read_index(alloc, store, folder)?;
    let index = parse_index(alloc, &bytes)?;
    match index_of(alloc, &index)? {
        Some((version, entries)) => { read_entries(alloc, store, folder, input, version, &entries) }
        None => Err(ImageErr::Refused(Refusal::BadIndex)),
    }
}

// The bytes of a folder's index, within the limit.
fn read_index<S: Store>(alloc: Global, store: &mut S, folder: &str) -> Result<Vec<u8>, ImageErr>
    ensures ok { IfSome (S.told store.old) (λ files.
        IfOk result (λ bytes. get files (name_below folder.now (codes "image.json")) ≡ Some bytes.items)) }
    ensures within { IfOk result (λ bytes. vec_len bytes ≤ INDEX_LIMIT) }
    ensures refused { (r : Refusal) → result ≡ Err (ImageErr.Refused r) →
        IfSome (S.told store.old) (λ files. (input : Option (List ℕ)) → image_of files folder.now input ≡ Err r) }
    ensures no_steps { result ≢ Err (ImageErr.Refused Refusal.BadSteps) }
    ensures asks { AsksOr S.told S.count ImageErr.Store store.old store.new result }
{
    let name = name_below(alloc, folder, "image.json")?;
    index_bytes(alloc, store, name.as_str())
}

fn index_bytes<S: Store>(alloc: Global, store: &mut S, name: &str) -> Result<Vec<u8>, ImageErr>
    ensures ok { IfSome (S.told store.old) (λ files. IfOk result (λ bytes. get files name.now ≡ Some bytes.items)) }
    ensures within { IfOk result (λ bytes. vec_len bytes ≤ INDEX_LIMIT) }
    ensures refused { (r : Refusal) → result ≡ Err (ImageErr.Refused r) →
        IfSome (S.told store.old) (λ files.
        (folder : List ℕ) (input : Option (List ℕ)) → image_by files folder input (get files name.now) ≡ Err r) }
    ensures no_steps { result ≢ Err (ImageErr.Refused Refusal.BadSteps) }
    ensures asks { AsksOr S.told S.count ImageErr.Store store.old store.new result }
{
    match size_in(store, name)? {
        None => Err(ImageErr::Refused(Refusal::NoIndex)),
        Some(size) if size > INDEX_LIMIT => Err(ImageErr::Refused(Refusal::BadIndex)),
        Some(size) => bytes_in(alloc, store, name, size),
    }
}

// The JSON value of an index.
fn parse_index(alloc: Global, bytes: &[u8]) -> Result<Value, ImageErr>
    requires { length bytes.now ≤ INDEX_LIMIT }
    ensures ok { IfOk result (λ value. value_of bytes.now ≡ Some (view value)) }
    ensures refused { (r : Refusal) → result ≡ Err (ImageErr.Refused r) →
        (r ≡ Refusal.BadIndex) × (value_of bytes.now ≡ None) }
    ensures answered { IsErrOf result ImageErr.Store → ⊥ }
{
    match parse(alloc, bytes)? {
        Some(value) => Ok(value),
        None => Err(ImageErr::Refused(Refusal::BadIndex)),
    }
}

// The image of the entries of an index of that version, and the input.
fn read_entries<S: Store>(
    alloc: Global,
    store: &mut S,
    folder: &str,
    input: Option<&str>,
    version: u64,
    entries: &[EntryRef<'_>],
) -> Result<(Image, Blob), ImageErr>
    requires version { IsTrue (is_version version) }
    requires listed { IsTrue (list_all (is_listed version) (map entry_in entries.now)) }
    ensures ok { IfSome (S.told store.old) (λ held.
        IfOk result (λ found. image_from held folder.now (option_map (λ name. name.now) input.entry)
        (record { version = version; entries = map entry_in entries.now }) ≡ Ok found)) }
    ensures refused { (r : Refusal) → result ≡ Err (ImageErr.Refused r) →
        IfSome (S.told store.old) (λ held. image_from held folder.now (option_map (λ name. name.now) input.entry)
        (record { version = version; entries = map entry_in entries.now }) ≡ Err r) }
    ensures unnamed { input.entry ≡ None → IfOk result (λ found. found.1 ≡ []) }
    ensures no_steps { result ≢ Err (ImageErr.Refused Refusal.BadSteps) }
    ensures asks { AsksOr S.told S.count ImageErr.Store store.old store.new result }
{
    if !are_good(entries) {
        return Err(ImageErr::Refused(Refusal::BadPath));
    }
    match sorted(alloc, entries)? {
        Some(order) => read_order(alloc, store, folder, input, version, &order),
        None => Err(ImageErr::Refused(Refusal::Twice)),
    }
}

fn are_good(entries: &[EntryRef<'_>]) -> bool
    ensures { result ≡ list_all (λ entry. is_good (entry_in entry)) entries.now }
{
    entries.iter().all(|entry| is_good(*entry))
}

// The image of good entries in the order of their paths, each of which stands once.
fn read_order<S: Store>(
    alloc: Global,
    store: &mut S,
    folder: &str,
    input: Option<&str>,
    version: u64,
    order: &[EntryRef<'_>],
) -> Result<(Image, Blob), ImageErr>
    requires version { IsTrue (is_version version) }
    requires sound { IsTrue (list_all (is_sound version) (map entry_in order.now)) }
    requires rising { IsStrictlySortedBy path_cmp order.now }
    ensures ok { IfSome (S.told store.old) (λ held.
        IfOk result (λ found. image_in_order held folder.now (option_map (λ name. name.now) input.entry) version
        (map entry_in order.now) ≡ Ok found)) }
    ensures refused { (r : Refusal) → result ≡ Err (ImageErr.Refused r) →
        IfSome (S.told store.old) (λ held. image_in_order held folder.now (option_map (λ name. name.now) input.entry) version
        (map entry_in order.now) ≡ Err r) }
    ensures unnamed { input.entry ≡ None → IfOk result (λ found. found.1 ≡ []) }
    ensures no_steps { result ≢ Err (ImageErr.Refused Refusal.BadSteps) }
    ensures asks { AsksOr S.told S.count ImageErr.Store store.old store.new result }
{
    let found = have_parents(alloc, order)?;
    if !found {
        return Err(ImageErr::Refused(Refusal::NoParent));
    }
    with_blobs(alloc, store, folder, input, version, order)
}
