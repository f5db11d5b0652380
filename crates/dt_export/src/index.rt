// The index of the image of a file tree.
ghost use Rattle.std.specs.Prelude.{◌≡◌, ◌≤◌, Some, Ok, Err, map, IfOk, OnOk, IsUtf8, string_bytes, true, false};
ghost use Rattle.std.specs.List.{All, list_all};
ghost use Rattle.std.specs.Str.{is_utf8};
ghost use Rattle.serde_json.specs.Data.{items_depth};
ghost use Rattle.serde_json.specs.Read.{read};
ghost use Rattle.serde_json.specs.View.{view, items_view};
ghost use Rattle.serde_json.specs.Written.{items_have_float, compact_text};
ghost use Rattle.dt_host.specs.Asks.{AsksOr};
ghost use Rattle.dt_host.specs.World.{IsLive};
ghost use Rattle.dt_tree.specs.Table.{Stands, shape_of, tree_of};
ghost use Rattle.dt_image.specs.ImageOf.{value_of};
ghost use Rattle.dt_image.specs.Paths.{paths_of, path_pair};
ghost use Rattle.dt_export.specs.declared.refusal.ExportRefusal.{ExportRefusal};
ghost use Rattle.dt_export.specs.ExportedImage.{entry_at};
ghost use Rattle.dt_export.specs.ExportedIndex.{blob_name, file_object, dir_object, link_object, dev_object, object_at};
ghost use Rattle.dt_export.specs.ExportedIndex.{index_of_objects, exported_index, is_text_entry, index_text};

use crate::refusal::{ExportErr, ExportRefusal};
use dt_base::{Blob, Device, INDEX_LIMIT};
use dt_host::Host;
use dt_image::{TreePath, device_name, paths_of};
use dt_tree::Tree;
use serde_json::{Value, json};
use std::alloc::{AllocError, Global};

/// The text of the index that lists a tree's paths, or NotText or BigIndex. Paths that are too long or too many are not
/// refused here, so the text may be no image's: `prepare_export` tries those first. The text names the blob of each
/// file by `b` and the file's inode. `version` is that of the tree.
pub fn index_text<H: Host>(
    alloc: Global,
    host: &mut H,
    tree: &Tree,
    version: u64,
) -> Result<Blob, ExportErr>
    requires stands { Stands tree.now (H.view host.old).forest }
    requires profile { let t = tree_of tree.now (H.view host.old).forest in version ≡ t.version }
    ensures ok { IfOk result (λ text. index_text version (tree_of tree.now (H.view host.old).forest) ≡ Ok text) }
    ensures refused { (r : ExportRefusal) → result ≡ Err (ExportErr.Refused r) →
        index_text version (tree_of tree.now (H.view host.old).forest) ≡ Err r }
    ensures value { IfOk result (λ text.
        value_of text ≡ Some (exported_index version (tree_of tree.now (H.view host.old).forest))) }
    ensures asks { AsksOr H.view H.count ExportErr.Host host.old host.new result }
{
    let paths = paths_of(alloc, host, tree)?;
    text_of_paths(alloc, host, tree, version, &paths)
}

/// The same, by the tree's paths.
pub fn text_of_paths<H: Host>(
    alloc: Global,
    host: &mut H,
    tree: &Tree,
    version: u64,
    paths: &[TreePath],
) -> Result<Blob, ExportErr>
    requires stands { Stands tree.now (H.view host.old).forest }
    requires paths { map path_pair paths.now ≡ paths_of (shape_of tree.now (H.view host.old).forest) }
    ensures ok { IfOk result (λ text. index_text version (tree_of tree.now (H.view host.old).forest) ≡ Ok text) }
    ensures refused { (r : ExportRefusal) → result ≡ Err (ExportErr.Refused r) →
        index_text version (tree_of tree.now (H.view host.old).forest) ≡ Err r }
    ensures value { IfOk result (λ text.
        value_of text ≡ Some (exported_index version (tree_of tree.now (H.view host.old).forest))) }
    ensures asks { AsksOr H.view H.count ExportErr.Host host.old host.new result }
{
    let objects = index_objects(alloc, host, tree, paths)?;
    let text = write_index(alloc, version, objects)?;
    if text.len() as u64 > INDEX_LIMIT {
        return Err(ExportErr::Refused(ExportRefusal::BigIndex));
    }
    Ok(Blob::new(text))
}

// The text of the index of these objects.
fn write_index(alloc: Global, version: u64, objects: Vec<Value>) -> Result<Vec<u8>, AllocError>
    requires plain { items_have_float (items_view objects.items) ≡ false }
    requires flat { items_depth (items_view objects.items) ≤ 1 }
    ensures text { IfOk result
        (λ text. text.items ≡ compact_text (index_of_objects version (map view objects.items))) }
    ensures utf8 { IfOk result (λ text. IsUtf8 text.items) }
    ensures read { IfOk result
        (λ text. read text.items ≡ Some (index_of_objects version (map view objects.items))) }
{
    let index = index_of_objects(alloc, version, objects)?;
    index.to_vec(alloc)
}

fn index_of_objects(alloc: Global, version: u64, objects: Vec<Value>) -> Result<Value, AllocError>
    ensures { IfOk result (λ index. view index ≡ index_of_objects version (map view objects.items)) }
{
    json!(in alloc; {"version": version, "entries": objects})
}

// The index's objects for these paths.
fn index_objects<H: Host>(
    alloc: Global,
    host: &mut H,
    tree: &Tree,
    paths: &[TreePath],
) -> Result<Vec<Value>, ExportErr>
    requires stands { Stands tree.now (H.view host.old).forest }
    requires live { All (λ at. IsLive (shape_of tree.now (H.view host.old).forest) at.inode) paths.now }
    ensures ok { IfOk result (λ objects. map view objects.items
        ≡ map (object_at (tree_of tree.now (H.view host.old).forest)) (map path_pair paths.now)) }
    ensures text { OnOk result (list_all is_text_entry
        (map (entry_at (tree_of tree.now (H.view host.old).forest)) (map path_pair paths.now)) ≡ true) }
    ensures refused { (r : ExportRefusal) → result ≡ Err (ExportErr.Refused r) → (r ≡ ExportRefusal.NotText)
        × (list_all is_text_entry
        (map (entry_at (tree_of tree.now (H.view host.old).forest)) (map path_pair paths.now)) ≡ false) }
    ensures asks { AsksOr H.view H.count ExportErr.Host host.old host.new result }
{
    let mut objects = Vec::new(alloc);
    for at in paths {
        objects.push(object_at(alloc, host, tree, at)?)?;
    }
    Ok(objects)
}

// The index's object for a path.
fn object_at<H: Host>(
    alloc: Global,
    host: &mut H,
    tree: &Tree,
    at: &TreePath,
) -> Result<Value, ExportErr>
    requires stands { Stands tree.now (H.view host.old).forest }
    requires live { IsLive (shape_of tree.now (H.view host.old).forest) at.now.inode }
    ensures ok { IfOk result
        (λ object. view object ≡ object_at (tree_of tree.now (H.view host.old).forest) (path_pair at.now)) }
    ensures text { OnOk result
        (is_text_entry (entry_at (tree_of tree.now (H.view host.old).forest) (path_pair at.now)) ≡ true) }
    ensures refused { (r : ExportRefusal) → result ≡ Err (ExportErr.Refused r) → (r ≡ ExportRefusal.NotText)
        × (is_text_entry (entry_at (tree_of tree.now (H.view host.old).forest) (path_pair at.now)) ≡ false) }
    ensures asks { AsksOr H.view H.count ExportErr.Host host.old host.new result }
{
    let mode = tree.meta(host, at.inode)?.mode;
    let path = text_of(at.path.as_slice())?;
    if tree.is_dir(at.inode) {
        return Ok(dir_object(alloc, mode, path)?);
    }
    if tree.is_link(at.inode) {
        let target = tree.target(host, at.inode)?;
        return Ok(link_object(alloc, path, text_of(target.as_slice())?)?);
    }
    match tree.device(at.inode) {
        Some(device) => Ok(dev_object(alloc, mode, path, device)?),
        None => Ok(file_object(alloc, at.inode, mode, path)?),
    }
}

// Bytes as a text.
fn text_of(bytes: &[u8]) -> Result<&str, ExportErr>
    ensures ok { IfOk result (λ text. text.now ≡ bytes.now) }
    ensures text { OnOk result (is_utf8 bytes.now ≡ true) }
    ensures err { (e : ExportErr) → result ≡ Err e
        → (e ≡ ExportErr.Refused ExportRefusal.NotText) × (is_utf8 bytes.now ≡ false) }
{
    match str::from_utf8(bytes) {
        Ok(text) => Ok(text),
        Err(_) => Err(ExportErr::Refused(ExportRefusal::NotText)),
    }
}

fn file_object(alloc: Global, inode: u64, mode: u32, path: &str) -> Result<Value, AllocError>
    ensures { IfOk result (λ object. view object ≡ file_object inode mode path.now) }
{
    let blob = blob_name(alloc, inode)?;
    json!(in alloc; {"type": "file", "path": path, "mode": mode, "blob": blob})
}

fn dir_object(alloc: Global, mode: u32, path: &str) -> Result<Value, AllocError>
    ensures { IfOk result (λ object. view object ≡ dir_object mode path.now) }
{
    json!(in alloc; {"type": "dir", "path": path, "mode": mode})
}

fn link_object(alloc: Global, path: &str, target: &str) -> Result<Value, AllocError>
    ensures { IfOk result (λ object. view object ≡ link_object path.now target.now) }
{
    json!(in alloc; {"type": "link", "path": path, "target": target})
}

fn dev_object(alloc: Global, mode: u32, path: &str, device: Device) -> Result<Value, AllocError>
    ensures { IfOk result (λ object. view object ≡ dev_object mode path.now device) }
{
    let name = device_name(device);
    json!(in alloc; {"type": "dev", "path": path, "mode": mode, "device": name})
}

// The name of the blob with the bytes of a file.
fn blob_name(alloc: Global, inode: u64) -> Result<String, AllocError>
    ensures { IfOk result (λ name. string_bytes name ≡ blob_name inode) }
{
    format!(in alloc; "b{inode}")
}
