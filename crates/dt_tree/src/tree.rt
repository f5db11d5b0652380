// The virtual tree, and what it keeps of each node.
ghost use Rattle.std.specs.Prelude.{◌≡◌, Some, IsSome, IfOk, OnOk};
ghost use Rattle.std.specs.FinMap.{get, len};
ghost use Rattle.dt_tree.specs.Table.{vino_of};
ghost use Rattle.dt_tree.specs.inner.Tables.{with_inode, with_names, with_new, with_version, without_inode, root_table};

use crate::inode::Inode;
use crate::inodes;
use crate::limits::{FIRST_INODE, ROOT};
use dt_base::{FIRST_VERSION, NoMemory};
use std::alloc::Global;
use std::collections::BTreeMap;
use std::marker::Model;

/// The virtual tree: which node of the host each of its nodes is, what the host doesn't keep of it, and the version of
/// the image that it began as.
#[derive(Drop)]
pub struct Tree {
    pub(crate) alloc: Global,
    inodes: BTreeMap<u64, Inode>,
    by_real: BTreeMap<u64, u64>,
    next: u64,
    names: u64,
    version: u64,
}

impl Model for Tree {
    ghost use Rattle.dt_tables.specs.Entries.{map_of};
    ghost use Rattle.dt_tree.specs.Table.{Table};
    ghost use Rattle.dt_tree.specs.inner.Codes.{table_code};

    ghost Value = { Table };

    ghost coded = { table_code };

    ghost view = { λ t. record {
      inodes = map_of (λ n. n) (λ inode. inode) t.inodes.entries;
      by_real = map_of (λ n. n) (λ n. n) t.by_real.entries;
      next = t.next;
      names = t.names;
      version = t.version;
    } };
}

impl Tree {
    // The tree of a root alone.
    pub(crate) fn with_root(alloc: Global, inode: Inode) -> Result<Tree, NoMemory>
        ensures { IfOk result (λ t. t ≡ root_table inode) }
    {
        let mut inodes = BTreeMap::new(alloc);
        inodes.insert(ROOT, inode)?;
        let mut by_real = BTreeMap::new(alloc);
        by_real.insert(inode.real, ROOT)?;
        Ok(Tree {
            alloc,
            inodes,
            by_real,
            next: FIRST_INODE,
            names: 0,
            version: FIRST_VERSION,
        })
    }

    /// The version of the image that the tree began as.
    pub fn version(&self) -> u64
        ensures { result ≡ self.now.version }
    {
        self.version
    }

    // Lets the tree be one of an image of that version.
    pub(crate) fn set_version(&mut self, version: u64)
        ensures { self.new ≡ with_version self.old version }
    {
        self.version = version;
    }

    // What is kept of a node, if it is there.
    pub(crate) fn found(&self, n: u64) -> Option<Inode>
        ensures { result ≡ get self.now.inodes n }
    {
        inodes::find(&self.inodes, n)
    }

    // What is kept of a node that is there.
    pub(crate) fn inode(&self, n: u64) -> Inode
        requires { IsSome (get self.now.inodes n) }
        ensures { get self.now.inodes n ≡ Some result }
    {
        let Some(inode) = self.found(n) else {
            unreachable!()
        };
        inode
    }

    // The inode of a number at the host; 0 where it is none of a node.
    pub(crate) fn vino(&self, real: u64) -> u64
        ensures { result ≡ vino_of self.now real }
    {
        self.by_real.get(&real).copied().unwrap_or(0)
    }

    // Keeps something else of a node.
    pub(crate) fn set(&mut self, n: u64, inode: Inode)
        requires { IsSome (get self.old.inodes n) }
        ensures { self.new ≡ with_inode self.old n inode }
    {
        inodes::set(&mut self.inodes, n, inode);
    }

    // Takes a new node in, under the next inode. Want of memory is the answer where the inodes are used up.
    pub(crate) fn admit(&mut self, inode: Inode) -> Result<u64, NoMemory>
        ensures number { IfOk result (λ n. n ≡ self.old.next) }
        ensures ok { OnOk result (self.new ≡ with_new self.old inode) }
    {
        let n = self.next;
        if n == u64::MAX {
            return Err(NoMemory);
        }
        self.inodes.insert(n, inode)?;
        self.by_real.insert(inode.real, n)?;
        self.next = n + 1;
        Ok(n)
    }

    // Drops what is kept of a node, which has that number at the host.
    pub(crate) fn forget(&mut self, n: u64, real: u64)
        ensures { self.new ≡ without_inode self.old n real }
    {
        self.inodes.remove(&n);
        self.by_real.remove(&real);
    }

    // How many nodes there are.
    pub(crate) fn nodes(&self) -> u64
        ensures { result ≡ len self.now.inodes }
    {
        self.inodes.len() as u64
    }

    // The inode of the next new node, which is above all others.
    pub(crate) fn next_inode(&self) -> u64
        ensures { result ≡ self.now.next }
    {
        self.next
    }

    // How many names there are in all.
    pub(crate) fn names(&self) -> u64
        ensures { result ≡ self.now.names }
    {
        self.names
    }

    // Counts the names anew.
    pub(crate) fn set_names(&mut self, names: u64)
        ensures { self.new ≡ with_names self.old names }
    {
        self.names = names;
    }
}
