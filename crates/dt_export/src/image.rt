// The image of a file tree.
ghost use Rattle.std.specs.Prelude.{◌≡◌, None, Ok, Err, map, IfOk};
ghost use Rattle.std.specs.List.{All};
ghost use Rattle.dt_host.specs.Asks.{Asks, AsksOr};
ghost use Rattle.dt_host.specs.World.{IsLive};
ghost use Rattle.dt_tree.specs.Table.{Stands, shape_of, tree_of};
ghost use Rattle.dt_image.specs.Paths.{paths_of, path_pair};
ghost use Rattle.dt_export.specs.declared.refusal.ExportRefusal.{ExportRefusal};
ghost use Rattle.dt_export.specs.ExportedImage.{image_of_tree, exported_entries, exported_image, entry_at, what_at, path_refusal};

use crate::limits::path_refusal;
use crate::refusal::ExportErr;
use dt_base::{Blob, Entry, Image, What};
use dt_host::{Host, HostErr};
use dt_image::{TreePath, paths_of};
use dt_tree::Tree;
use std::alloc::Global;

/// The image of a tree: an entry for each path below the root, in byte order; or LongPath or TooMany. Two names of one
/// file are two entries. `version` is that of the tree.
pub fn image_of_tree<H: Host>(
    alloc: Global,
    host: &mut H,
    tree: &Tree,
    version: u64,
) -> Result<Image, ExportErr>
    requires stands { Stands tree.now (H.view host.old).forest }
    requires profile { let t = tree_of tree.now (H.view host.old).forest in version ≡ t.version }
    ensures ok { IfOk result (λ image. image_of_tree (tree_of tree.now (H.view host.old).forest) ≡ Ok image) }
    ensures refused { (r : ExportRefusal) → result ≡ Err (ExportErr.Refused r) →
        image_of_tree (tree_of tree.now (H.view host.old).forest) ≡ Err r }
    ensures asks { AsksOr H.view H.count ExportErr.Host host.old host.new result }
{
    let paths = paths_of(alloc, host, tree)?;
    match path_refusal(&paths) {
        Some(refusal) => Err(ExportErr::Refused(refusal)),
        None => Ok(image_of_paths(alloc, host, tree, version, &paths)?),
    }
}

// The image of a tree, by its paths.
fn image_of_paths<H: Host>(
    alloc: Global,
    host: &mut H,
    tree: &Tree,
    version: u64,
    paths: &[TreePath],
) -> Result<Image, HostErr>
    requires stands { Stands tree.now (H.view host.old).forest }
    requires paths { map path_pair paths.now ≡ paths_of (shape_of tree.now (H.view host.old).forest) }
    requires good { path_refusal (map path_pair paths.now) ≡ None }
    requires profile { let t = tree_of tree.now (H.view host.old).forest in version ≡ t.version }
    ensures ok { IfOk result (λ image. image ≡ exported_image (tree_of tree.now (H.view host.old).forest)) }
    ensures asks { Asks H.view H.count host.old host.new result }
{
    Ok(Image::new(version, read_entries(alloc, host, tree, paths)?))
}

// The entries of these paths.
fn read_entries<H: Host>(
    alloc: Global,
    host: &mut H,
    tree: &Tree,
    paths: &[TreePath],
) -> Result<Vec<Entry>, HostErr>
    requires stands { Stands tree.now (H.view host.old).forest }
    requires live { All (λ at. IsLive (shape_of tree.now (H.view host.old).forest) at.inode) paths.now }
    ensures ok { IfOk result (λ entries. entries.items
        ≡ map (entry_at (tree_of tree.now (H.view host.old).forest)) (map path_pair paths.now)) }
    ensures asks { Asks H.view H.count host.old host.new result }
{
    let mut entries = Vec::new(alloc);
    for at in paths {
        entries.push(read_entry(host, tree, at)?)?;
    }
    Ok(entries)
}

fn read_entry<H: Host>(host: &mut H, tree: &Tree, at: &TreePath) -> Result<Entry, HostErr>
    requires stands { Stands tree.now (H.view host.old).forest }
    requires live { IsLive (shape_of tree.now (H.view host.old).forest) at.now.inode }
    ensures ok { IfOk result
        (λ entry. entry ≡ entry_at (tree_of tree.now (H.view host.old).forest) (path_pair at.now)) }
    ensures asks { Asks H.view H.count host.old host.new result }
{
    let mode = tree.meta(host, at.inode)?.mode;
    let what = read_what(host, tree, at.inode)?;
    Ok(Entry {
        path: at.path.copy()?,
        mode,
        what,
    })
}

// What stands at an inode, with its bytes or its target.
fn read_what<H: Host>(host: &mut H, tree: &Tree, inode: u64) -> Result<What, HostErr>
    requires stands { Stands tree.now (H.view host.old).forest }
    requires live { IsLive (shape_of tree.now (H.view host.old).forest) inode }
    ensures ok { IfOk result (λ what. what ≡ what_at (tree_of tree.now (H.view host.old).forest) inode) }
    ensures asks { Asks H.view H.count host.old host.new result }
{
    let _before = host.faults();
    if tree.is_dir(inode) {
        return Ok(What::Dir);
    }
    if tree.is_link(inode) {
        return Ok(What::Link(tree.target(host, inode)?));
    }
    match tree.device(inode) {
        Some(device) => Ok(What::Dev(device)),
        None => Ok(What::File(Blob::new(tree.read_file(host, inode)?))),
    }
}
