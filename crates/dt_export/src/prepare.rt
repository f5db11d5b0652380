// What an export puts into a folder.
ghost use Rattle.std.specs.Prelude.{◌≡◌, ◌<◌, ◌^◌, None, Ok, Err, map, IfOk, OnOk};
ghost use Rattle.std.specs.List.{All};
ghost use Rattle.std.specs.BTreeSet.{keys};
ghost use Rattle.dt_host.specs.Asks.{AsksOr};
ghost use Rattle.dt_host.specs.World.{Forest, IsLive};
ghost use Rattle.dt_tree.specs.Table.{Stands, shape_of, tree_of};
ghost use Rattle.dt_image.specs.Paths.{paths_of, path_pair};
ghost use Rattle.dt_export.specs.declared.refusal.ExportRefusal.{ExportRefusal};
ghost use Rattle.dt_export.specs.ExportedImage.{exported_image, image_of_tree, path_refusal};
ghost use Rattle.dt_export.specs.ExportedFiles.{exported_inodes, exported_text};
ghost use Rattle.dt_export.specs.ReadBack.{IsReadAs};
ghost use Rattle.dt_export.specs.inner.Inodes.{inodes_of_files, with_inode};

use crate::index::text_of_paths;
use crate::limits::path_refusal;
use crate::refusal::{ExportErr, ExportRefusal};
use dt_base::{Blob, NoMemory};
use dt_host::Host;
use dt_image::{TreePath, paths_of};
use dt_tree::Tree;
use std::alloc::Global;
use std::collections::BTreeSet;

/// What an export puts into a folder: the blobs of the files with these inodes, in this order, and then the index.
#[derive(Debug, Drop)]
pub struct Export {
    pub inodes: Vec<u64>,
    pub index: Blob,
}

/// What the export of a tree puts, of the version of the tree; or the first that holds of LongPath, TooMany,
/// NotText and BigIndex. Exists is asked of the folder: `has_index`.
pub fn prepare_export<H: Host>(
    alloc: Global,
    host: &mut H,
    tree: &Tree,
    version: u64,
) -> Result<Export, ExportErr>
    requires stands { Stands tree.now (H.view host.old).forest }
    requires profile { let t = tree_of tree.now (H.view host.old).forest in version ≡ t.version }
    ensures index { IfOk result (λ export.
        exported_text version (tree_of tree.now (H.view host.old).forest) ≡ Ok export.index) }
    ensures inodes { IfOk result (λ export.
        export.inodes.items ≡ exported_inodes (tree_of tree.now (H.view host.old).forest)) }
    ensures refused { (r : ExportRefusal) → result ≡ Err (ExportErr.Refused r) →
        exported_text version (tree_of tree.now (H.view host.old).forest) ≡ Err r }
    ensures image { OnOk result (image_of_tree (tree_of tree.now (H.view host.old).forest)
        ≡ Ok (exported_image (tree_of tree.now (H.view host.old).forest))) }
    ensures read_back { IfOk result (λ export. IsReadAs (tree_of tree.now (H.view host.old).forest) export.index
        (exported_image (tree_of tree.now (H.view host.old).forest))) }
    ensures asks { AsksOr H.view H.count ExportErr.Host host.old host.new result }
{
    let paths = paths_of(alloc, host, tree)?;
    match path_refusal(&paths) {
        Some(refusal) => Err(ExportErr::Refused(refusal)),
        None => prepare_paths(alloc, host, tree, version, &paths),
    }
}

// The same for the paths of a tree, which are short and few.
fn prepare_paths<H: Host>(
    alloc: Global,
    host: &mut H,
    tree: &Tree,
    version: u64,
    paths: &[TreePath],
) -> Result<Export, ExportErr>
    requires stands { Stands tree.now (H.view host.old).forest }
    requires profile { let t = tree_of tree.now (H.view host.old).forest in version ≡ t.version }
    requires paths { map path_pair paths.now ≡ paths_of (shape_of tree.now (H.view host.old).forest) }
    requires good { path_refusal (map path_pair paths.now) ≡ None }
    ensures index { IfOk result (λ export.
        exported_text version (tree_of tree.now (H.view host.old).forest) ≡ Ok export.index) }
    ensures inodes { IfOk result (λ export.
        export.inodes.items ≡ exported_inodes (tree_of tree.now (H.view host.old).forest)) }
    ensures refused { (r : ExportRefusal) → result ≡ Err (ExportErr.Refused r) →
        exported_text version (tree_of tree.now (H.view host.old).forest) ≡ Err r }
    ensures image { OnOk result (image_of_tree (tree_of tree.now (H.view host.old).forest)
        ≡ Ok (exported_image (tree_of tree.now (H.view host.old).forest))) }
    ensures read_back { IfOk result (λ export. IsReadAs (tree_of tree.now (H.view host.old).forest) export.index
        (exported_image (tree_of tree.now (H.view host.old).forest))) }
    ensures asks { AsksOr H.view H.count ExportErr.Host host.old host.new result }
{
    let index = text_of_paths(alloc, host, tree, version, paths)?;
    let inodes = inodes_of_files(alloc, tree, paths)?;
    have_64_bits(&inodes);
    Ok(Export { inodes, index })
}

// Tells the prover that each inode has 64 bits.
fn have_64_bits(inodes: &[u64])
    ensures { All (λ n. n < 2 ^ 64) inodes.now }
{}

// The inodes that paths lead to, if they are files: in rising order, each once.
fn inodes_of_files(alloc: Global, tree: &Tree, paths: &[TreePath]) -> Result<Vec<u64>, NoMemory>
    ensures { (v : Forest) → Stands tree.now v → All (λ at. IsLive (shape_of tree.now v) at.inode) paths.now
        → IfOk result (λ inodes. inodes.items ≡ inodes_of_files (shape_of tree.now v) (map path_pair paths.now)) }
{
    let mut inodes = BTreeSet::new(alloc);
    for at in paths {
        add_inode(&mut inodes, tree, at.inode)?;
    }
    let list = inodes.into_iter().collect(alloc)?;
    Ok(list)
}

// Adds an inode, if it is a file's.
fn add_inode(inodes: &mut BTreeSet<u64>, tree: &Tree, inode: u64) -> Result<(), NoMemory>
    ensures { (v : Forest) → Stands tree.now v → IsLive (shape_of tree.now v) inode
        → OnOk result (keys inodes.new ≡ with_inode (shape_of tree.now v) (keys inodes.old) inode) }
{
    if !tree.is_dir(inode) && !tree.is_link(inode) && tree.device(inode).is_none() {
        inodes.insert(inode)?;
    }
    Ok(())
}
