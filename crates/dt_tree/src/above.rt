// What lies above a directory.
ghost use Rattle.std.specs.Prelude.{◌≡◌, ◌++◌, [], OnOk, is_some, not, Some, List, map, reverse, unwrap_or, IfOk};
ghost use Rattle.std.specs.Prelude.{option_map};
ghost use Rattle.dt_host.specs.Asks.{Asks};
ghost use Rattle.dt_host.specs.Legal.{pair_of};
ghost use Rattle.dt_host.specs.World.{IsDir};
ghost use Rattle.dt_tree.specs.declared.limits.TheConstants.{NODE_LIMIT};
ghost use Rattle.dt_tree.specs.Above.{parent_at, name_in, names_up, joined_names, path_of, path_text, is_below};
ghost use Rattle.dt_tree.specs.Shape.{is_removed};
ghost use Rattle.dt_tree.specs.Table.{Stands, shape_of};
ghost use Rattle.dt_tree.specs.inner.Names.{name_for};

use crate::limits::{NODE_LIMIT, ROOT};
use crate::tree::Tree;
use dt_base::{Blob, NoMemory};
use dt_host::{Host, HostEntry, HostErr};
use std::alloc::Global;

impl Tree {
    /// The path of a directory from the root; None exactly where it is removed.
    pub fn path_of<H: Host>(&self, host: &mut H, dir: u64) -> Result<Option<Blob>, HostErr>
        requires stands { Stands self.now (H.view host.old).forest }
        requires directory { IsDir (shape_of self.now (H.view host.old).forest) dir }
        ensures ok { IfOk result
            (λ path. path ≡ path_of (shape_of self.now (H.view host.old).forest) dir) }
        ensures removed { IfOk result (λ path. is_some path
            ≡ not (is_removed (shape_of self.now (H.view host.old).forest) dir)) }
        ensures asks { Asks H.view H.count host.old host.new result }
    {
        match self.names_up(host, dir)? {
            Some(names) => Ok(Some(path_text(self.alloc, names)?)),
            None => Ok(None),
        }
    }

    /// Whether a directory is `above`, or stands below it.
    pub fn is_below<H: Host>(&self, host: &H, dir: u64, above: u64) -> bool
        requires stands { Stands self.now (H.view host.now).forest }
        requires directory { IsDir (shape_of self.now (H.view host.now).forest) dir }
        ensures { result ≡ is_below (shape_of self.now (H.view host.now).forest) dir above }
    {
        let mut current = dir;
        for _i in 0..NODE_LIMIT {
            if current == above {
                return true;
            }
            match self.parent(current) {
                None => return false,
                Some(up) => current = up,
            }
        }
        false
    }

    // The names that lead from the root to a directory, the last of them first.
    fn names_up<H: Host>(&self, host: &mut H, dir: u64) -> Result<Option<Vec<Blob>>, HostErr>
        requires stands { Stands self.now (H.view host.old).forest }
        requires directory { IsDir (shape_of self.now (H.view host.old).forest) dir }
        ensures ok { IfOk result (λ names. option_map (λ names. reverse names.items) names
            ≡ names_up NODE_LIMIT (shape_of self.now (H.view host.old).forest) dir []) }
        ensures asks { Asks H.view H.count host.old host.new result }
    {
        let mut at = dir;
        let mut names = Vec::new(self.alloc);
        for _i in 0..NODE_LIMIT {
            if at == ROOT {
                return Ok(Some(names));
            }
            match self.parent(at) {
                None => return Ok(None),
                Some(above) => {
                    names.push(self.name_in(host, above, at)?)?;
                    at = above;
                }
            }
        }
        Ok(None)
    }

    // The name that a directory has for one below it.
    fn name_in<H: Host>(&self, host: &mut H, dir: u64, n: u64) -> Result<Blob, HostErr>
        requires stands { Stands self.now (H.view host.old).forest }
        requires directory { IsDir (shape_of self.now (H.view host.old).forest) n }
        requires parent { parent_at (shape_of self.now (H.view host.old).forest) n ≡ Some dir }
        ensures ok { IfOk result (λ name. name
            ≡ unwrap_or (name_in (shape_of self.now (H.view host.old).forest) dir n) []) }
        ensures asks { Asks H.view H.count host.old host.new result }
    {
        let entries = host.names(self.inode(dir).real)?;
        Ok(name_for(self.alloc, &entries, self.inode(n).real)?)
    }
}

// The first name that is for this number of the host; empty where there is none.
fn name_for(alloc: Global, entries: &[HostEntry], real: u64) -> Result<Blob, NoMemory>
    ensures { IfOk result (λ name. name ≡ unwrap_or (name_for real (map pair_of entries.now)) []) }
{
    for entry in entries {
        if entry.ino == real {
            return Ok(entry.name.copy()?);
        }
    }
    Ok(Blob::new(Vec::new(alloc)))
}

// The path of these names, the last of which comes first.
fn path_text(alloc: Global, names: Vec<Blob>) -> Result<Blob, NoMemory>
    ensures { IfOk result (λ path. path ≡ path_text (reverse names.items)) }
{
    let mut path = Vec::new(alloc);
    if names.is_empty() {
        path.push(b'/')?;
    }
    add_names(&mut path, names)?;
    Ok(Blob::new(path))
}

// Adds names to a path, each behind a `/`, the last of them first.
fn add_names(path: &mut Vec<u8>, names: Vec<Blob>) -> Result<(), NoMemory>
    ensures { OnOk result (path.new.items ≡ path.old.items ++ joined_names (reverse names.items)) }
{
    let mut names = names;
    while let Some(name) = names.pop() {
        path.push(b'/')?;
        path.extend_from_slice(name.as_slice())?;
    }
    Ok(())
}
