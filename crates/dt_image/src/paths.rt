// The paths of a file tree.
ghost use Rattle.std.specs.Prelude.{◌≡◌, ◌++◌, ◌∷◌, [], IfOk, OnOk, map, fold, codes};
ghost use Rattle.std.specs.List.{All, flat_map};
ghost use Rattle.std.specs.FinMap.{entries};
ghost use Rattle.dt_host.specs.Asks.{Asks};
ghost use Rattle.dt_tables.specs.Entries.{map_of};
ghost use Rattle.dt_tree.specs.declared.limits.TheConstants.{NODE_LIMIT, ROOT};
ghost use Rattle.dt_tree.specs.Table.{Stands, shape_of};
ghost use Rattle.dt_image.specs.Paths.{paths_below, paths_to, paths_of, with_path, path_pair};
ghost use Rattle.dt_image.specs.inner.PathView.{paths_in, listed_path, IsPlaced};

use dt_base::{Blob, NoMemory};
use dt_host::{Host, HostErr};
use dt_tree::{Listed, NODE_LIMIT, ROOT, Tree};
use std::alloc::Global;
use std::collections::BTreeMap;

/// A path of a tree, and the inode that it leads to. The root's path is empty.
#[derive(Debug, Drop)]
pub struct TreePath {
    pub path: Blob,
    pub inode: u64,
}

/// All paths below the root, in byte order.
#[tactic(auto, unfolding(crate::specs::Paths::paths_of))]
pub fn paths_of<H: Host>(alloc: Global, host: &mut H, tree: &Tree) -> Result<Vec<TreePath>, HostErr>
    requires { Stands tree.now (H.view host.old).forest }
    ensures ok { IfOk result (λ paths.
        map path_pair paths.items ≡ paths_of (shape_of tree.now (H.view host.old).forest)) }
    ensures asks { Asks H.view H.count host.old host.new result }
{
    let paths = all_paths(alloc, host, tree)?;
    Ok(in_order(alloc, paths)?)
}

// The inodes by path. Levels past the deepest directory are empty.
fn all_paths<H: Host>(
    alloc: Global,
    host: &mut H,
    tree: &Tree,
) -> Result<BTreeMap<Blob, u64>, HostErr>
    requires { Stands tree.now (H.view host.old).forest }
    ensures ok { IfOk result (λ paths.
        paths_in paths ≡ paths_to (shape_of tree.now (H.view host.old).forest) NODE_LIMIT) }
    ensures asks { Asks H.view H.count host.old host.new result }
{
    let mut paths = BTreeMap::new(alloc);
    let mut level = first_level(alloc)?;
    for _depth in 0..NODE_LIMIT {
        level = next_level(alloc, host, tree, &level)?;
        add_paths(&mut paths, &level)?;
    }
    Ok(paths)
}

// The root's path alone.
fn first_level(alloc: Global) -> Result<Vec<TreePath>, NoMemory>
    ensures { IfOk result (λ first. map path_pair first.items ≡ ([], ROOT) ∷ []) }
{
    let mut first = Vec::new(alloc);
    first.push(TreePath {
        path: Blob::new(Vec::new(alloc)),
        inode: ROOT,
    })?;
    Ok(first)
}

// The paths of the entries of all directories among these.
fn next_level<H: Host>(
    alloc: Global,
    host: &mut H,
    tree: &Tree,
    level: &[TreePath],
) -> Result<Vec<TreePath>, HostErr>
    requires stands { Stands tree.now (H.view host.old).forest }
    requires placed { All (λ at. IsPlaced (shape_of tree.now (H.view host.old).forest) (path_pair at)) level.now }
    ensures ok { IfOk result (λ next. map path_pair next.items
        ≡ flat_map (paths_below (shape_of tree.now (H.view host.old).forest)) (map path_pair level.now)) }
    ensures asks { Asks H.view H.count host.old host.new result }
{
    let mut next = Vec::new(alloc);
    for at in level {
        add_below(alloc, host, tree, &mut next, at)?;
    }
    Ok(next)
}

// Adds the paths of the entries of what stands at a path, if that is a directory.
fn add_below<H: Host>(
    alloc: Global,
    host: &mut H,
    tree: &Tree,
    next: &mut Vec<TreePath>,
    at: &TreePath,
) -> Result<(), HostErr>
    requires stands { Stands tree.now (H.view host.old).forest }
    requires placed { IsPlaced (shape_of tree.now (H.view host.old).forest) (path_pair at.now) }
    ensures ok { OnOk result (map path_pair next.new.items ≡ map path_pair next.old.items
        ++ paths_below (shape_of tree.now (H.view host.old).forest) (path_pair at.now)) }
    ensures asks { Asks H.view H.count host.old host.new result }
{
    let _before = host.faults();
    if !tree.is_dir(at.inode) {
        return Ok(());
    }
    let listed = tree.list_after(host, at.inode, Some(b".."), usize::MAX)?;
    add_listed(alloc, next, at.path.as_slice(), &listed)?;
    Ok(())
}

// Adds the paths of entries that are listed of a directory at a path.
fn add_listed(
    alloc: Global,
    next: &mut Vec<TreePath>,
    path: &[u8],
    listed: &[Listed],
) -> Result<(), NoMemory>
    ensures { OnOk result (map path_pair next.new.items ≡ map path_pair next.old.items
        ++ map (listed_path path.now) listed.now) }
{
    for entry in listed {
        next.push(TreePath {
            path: path_below(alloc, path, entry.name.as_slice())?,
            inode: entry.vino,
        })?;
    }
    Ok(())
}

// The path of an entry of a directory.
fn path_below(alloc: Global, dir: &[u8], name: &[u8]) -> Result<Blob, NoMemory>
    ensures { IfOk result (λ path. path ≡ dir.now ++ (codes "/" ++ name.now)) }
{
    let mut path = Vec::from_slice(alloc, dir)?;
    path.push(b'/')?;
    path.extend_from_slice(name)?;
    Ok(Blob::new(path))
}

// Adds paths to those found before.
fn add_paths(paths: &mut BTreeMap<Blob, u64>, level: &[TreePath]) -> Result<(), NoMemory>
    ensures { OnOk result (paths_in paths.new ≡ fold with_path (paths_in paths.old) (map path_pair level.now)) }
{
    for at in level {
        add_path(paths, at)?;
    }
    Ok(())
}

fn add_path(paths: &mut BTreeMap<Blob, u64>, at: &TreePath) -> Result<(), NoMemory>
    ensures { OnOk result (paths_in paths.new ≡ with_path (paths_in paths.old) (path_pair at.now)) }
{
    paths.insert(at.path.copy()?, at.inode)?;
    Ok(())
}

// The paths as a list.
fn in_order(alloc: Global, paths: BTreeMap<Blob, u64>) -> Result<Vec<TreePath>, NoMemory>
    ensures { IfOk result (λ list. map path_pair list.items ≡ entries (paths_in paths)) }
{
    let list = paths
        .into_iter()
        .map(|(path, inode)| TreePath { path, inode })
        .collect(alloc)?;
    Ok(list)
}
