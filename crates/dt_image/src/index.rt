// The index of an image, read from its JSON value.
ghost use Rattle.std.specs.Prelude.{◌≡◌, ◌&&◌, ℕ, Some, IfOk, IfSome, ◌≤◌, option_map, codes, map, length, IsTrue};
ghost use Rattle.std.specs.List.{list_all};
ghost use Rattle.serde_json.specs.View.{view, items_view};
ghost use Rattle.dt_base.specs.Image.{is_target};
ghost use Rattle.dt_image.specs.Index.{text_at, number_at, mode_of, items_at, is_blob_byte, is_blob_name};
ghost use Rattle.dt_image.specs.Index.{is_good_source, is_good, file_of, dir_of, link_of, dev_of, device_of, source_of};
ghost use Rattle.dt_image.specs.Index.{entry_of};
ghost use Rattle.dt_base.specs.Profile.{has_devices, is_version};
ghost use Rattle.dt_image.specs.Index.{entries_of, index_of, versioned_items};
ghost use Rattle.dt_image.specs.inner.IndexView.{source_in, entry_in, has_mode, is_listed};

use dt_base::{
    Device, MODE_LIMIT, NAME_LIMIT, NoMemory, PATH_LIMIT, has_devices, has_no_nul, is_path,
    is_version,
};
use serde_json::Value;
use std::alloc::Global;

/// What an entry is made from: a file from its mode and the name of the blob with its bytes, a directory from its
/// mode, a symbolic link from its target, a device from its mode and which it is.
#[derive(Clone, Copy, Debug)]
pub enum SourceRef<'v> {
    File(u32, &'v str),
    Dir(u32),
    Link(&'v str),
    Dev(u32, Device),
}

/// An entry of an index: its path in the image, and what it is made from.
#[derive(Clone, Copy, Debug)]
pub struct EntryRef<'v> {
    pub path: &'v str,
    pub source: SourceRef<'v>,
}

/// The version of an index and its entries, in its order; None where it is no index.
#[tactic(auto, unfolding(crate::specs::Index::index_of))]
pub fn index_of(alloc: Global, index: &Value) -> Result<Option<(u64, Vec<EntryRef<'_>>)>, NoMemory>
    ensures value { IfOk result (λ found. option_map
        (λ found. record { version = found.0; entries = map entry_in found.1.items }) found
        ≡ index_of (view index.now)) }
    ensures listed { IfOk result (λ found.
        IfSome found (λ found. IsTrue (list_all (is_listed found.0) (map entry_in found.1.items)))) }
    ensures version { IfOk result (λ found. IfSome found (λ found. IsTrue (is_version found.0))) }
{
    let Some((version, items)) = versioned_items(index) else {
        return Ok(None);
    };
    match entries_of(alloc, version, items)? {
        Some(entries) => Ok(Some((version, entries))),
        None => Ok(None),
    }
}

// The version of an index, and the values of its entries.
#[tactic(auto, unfolding(crate::specs::Index::versioned_items))]
fn versioned_items(index: &Value) -> Option<(u64, &[Value])>
    ensures value { option_map (λ found. (found.0, items_view found.1.now)) result ≡ versioned_items (view index.now) }
    ensures version { IfSome result (λ found. IsTrue (is_version found.0)) }
{
    let version = number_at(index, "version")?;
    let items = items_at(index, "entries")?;
    if is_version(version) {
        Some((version, items))
    } else {
        None
    }
}

// The entries of an index of that version that all of these are.
fn entries_of<'v>(
    alloc: Global,
    version: u64,
    items: &'v [Value],
) -> Result<Option<Vec<EntryRef<'v>>>, NoMemory>
    ensures value { IfOk result (λ found.
        option_map (λ entries. map entry_in entries.items) found ≡ entries_of version (items_view items.now)) }
    ensures listed { IfOk result (λ found.
        IfSome found (λ entries. IsTrue (list_all (is_listed version) (map entry_in entries.items)))) }
{
    let mut entries = Vec::new(alloc);
    for item in items {
        match entry_of(version, item) {
            Some(entry) => entries.push(entry)?,
            None => return Ok(None),
        }
    }
    Ok(Some(entries))
}

#[tactic(auto, unfolding(crate::specs::Index::entry_of))]
fn entry_of(version: u64, entry: &Value) -> Option<EntryRef<'_>>
    ensures value { option_map entry_in result ≡ entry_of version (view entry.now) }
    ensures listed { IfSome result (λ entry. IsTrue (is_listed version (entry_in entry))) }
{
    let path = text_at(entry, "path")?;
    let kind = text_at(entry, "type")?;
    let source = source_of(version, kind, entry)?;
    Some(EntryRef { path, source })
}

fn source_of<'v>(version: u64, kind: &str, entry: &'v Value) -> Option<SourceRef<'v>>
    ensures value { option_map source_in result ≡ source_of version kind.now (view entry.now) }
    ensures mode { IfSome result (λ source. IsTrue (has_mode version (source_in source))) }
{
    if kind == "file" {
        file_of(entry)
    } else if kind == "dir" {
        dir_of(entry)
    } else if kind == "link" {
        link_of(entry)
    } else if kind == "dev" && has_devices(version) {
        dev_of(entry)
    } else {
        None
    }
}

#[tactic(auto, unfolding(crate::specs::Index::file_of))]
fn file_of(entry: &Value) -> Option<SourceRef<'_>>
    ensures value { option_map source_in result ≡ file_of (view entry.now) }
    ensures mode { (version : ℕ) → IfSome result (λ source. IsTrue (has_mode version (source_in source))) }
{
    let mode = mode_of(entry)?;
    let blob = text_at(entry, "blob")?;
    Some(SourceRef::File(mode, blob))
}

#[tactic(auto, unfolding(crate::specs::Index::dir_of))]
fn dir_of(entry: &Value) -> Option<SourceRef<'_>>
    ensures value { option_map source_in result ≡ dir_of (view entry.now) }
    ensures mode { (version : ℕ) → IfSome result (λ source. IsTrue (has_mode version (source_in source))) }
{
    let mode = mode_of(entry)?;
    Some(SourceRef::Dir(mode))
}

#[tactic(auto, unfolding(crate::specs::Index::link_of))]
fn link_of(entry: &Value) -> Option<SourceRef<'_>>
    ensures value { option_map source_in result ≡ link_of (view entry.now) }
    ensures mode { (version : ℕ) → IfSome result (λ source. IsTrue (has_mode version (source_in source))) }
{
    let target = text_at(entry, "target")?;
    Some(SourceRef::Link(target))
}

#[tactic(auto, unfolding(crate::specs::Index::dev_of))]
fn dev_of(entry: &Value) -> Option<SourceRef<'_>>
    ensures value { option_map source_in result ≡ dev_of (view entry.now) }
    ensures mode { (version : ℕ) → IsTrue (has_devices version)
        → IfSome result (λ source. IsTrue (has_mode version (source_in source))) }
{
    let mode = mode_of(entry)?;
    let device = device_of(text_at(entry, "device")?)?;
    Some(SourceRef::Dev(mode, device))
}

// The device of a name.
fn device_of(name: &str) -> Option<Device>
    ensures { result ≡ device_of name.now }
{
    if name == "null" {
        Some(Device::Null)
    } else if name == "zero" {
        Some(Device::Zero)
    } else if name == "random" {
        Some(Device::Random)
    } else {
        None
    }
}

fn text_at<'v>(value: &'v Value, name: &str) -> Option<&'v str>
    ensures { option_map (λ text. text.now) result ≡ text_at name.now (view value.now) }
{
    value.get(name).and_then(Value::as_str)
}

fn number_at(value: &Value, name: &str) -> Option<u64>
    ensures { result ≡ number_at name.now (view value.now) }
{
    value.get(name).and_then(Value::as_u64)
}

fn items_at<'v>(value: &'v Value, name: &str) -> Option<&'v [Value]>
    ensures { option_map (λ items. items_view items.now) result ≡ items_at name.now (view value.now) }
{
    let items = value.get(name).and_then(Value::as_array)?;
    Some(items.as_slice())
}

fn mode_of(entry: &Value) -> Option<u32>
    ensures value { result ≡ mode_of (view entry.now) }
    ensures within { IfSome result (λ mode. mode ≤ MODE_LIMIT) }
{
    let mode = number_at(entry, "mode")?;
    if mode <= u64::from(MODE_LIMIT) {
        Some(mode as u32)
    } else {
        None
    }
}

/// Whether an entry's path is good, and so is its blob's name or its target.
pub fn is_good(entry: EntryRef<'_>) -> bool
    ensures { result ≡ is_good (entry_in entry.entry) }
{
    is_path(entry.path.as_bytes()) && is_good_source(entry.source)
}

fn is_good_source(source: SourceRef<'_>) -> bool
    ensures { result ≡ is_good_source (source_in source.entry) }
{
    match source {
        SourceRef::File(_, blob) => is_blob_name(blob.as_bytes()),
        SourceRef::Dir(_) | SourceRef::Dev(_, _) => true,
        SourceRef::Link(target) => is_target(target.as_bytes()),
    }
}

fn is_target(target: &[u8]) -> bool
    ensures { result ≡ is_target target.now }
{
    1 <= target.len() && target.len() as u64 <= PATH_LIMIT && has_no_nul(target)
}

/// Whether a blob may have this name: 1 to 255 letters and digits of ASCII, `.`, `_` and `-`, the first no `.`.
pub fn is_blob_name(name: &[u8]) -> bool
    ensures { result ≡ is_blob_name name.now }
{
    1 <= name.len()
        && name.len() as u64 <= NAME_LIMIT
        && name.first() != Some(&b'.')
        && has_blob_bytes(name)
}

fn has_blob_bytes(name: &[u8]) -> bool
    ensures { result ≡ list_all is_blob_byte name.now }
{
    name.iter().all(|b| is_blob_byte(*b))
}

fn is_blob_byte(byte: u8) -> bool
    ensures { result ≡ is_blob_byte byte }
{
    byte.is_ascii_alphanumeric() || byte == b'.' || byte == b'_' || byte == b'-'
}
