// The nodes and pipes of a host in memory, and the order of binding in each directory.
ghost use Rattle.std.specs.Prelude.{◌≡◌, ℕ, ◌+◌, ◌<◌, ◌≤◌, ◌^◌, None, [], ◌++◌, length, map, take, drop};
ghost use Rattle.std.specs.Prelude.{option_map, option_copied, unwrap_or, vec_items, IfOk, IfSome, IsSome, OnOk, OnErr};
ghost use Rattle.std.specs.List.Sorted.{IsPermutation};
ghost use Rattle.std.specs.FinMap.{entries, get};
ghost use Rattle.dt_host.specs.World.{IsFile, IsDir, IsLive, IsSized, file_at, target_at, names_at, content, entry};
ghost use Rattle.dt_base.specs.Bytes.{with_bytes_at, with_length};
ghost use Rattle.dt_host.specs.Legal.{pair_of};
ghost use Rattle.dt_memhost.specs.Number.{IsChosenNumber, is_in_either};
ghost use Rattle.dt_memhost.specs.Order.{order_at};
ghost use Rattle.dt_memhost.specs.inner.Forest.{empty_ordered, with_new_at, with_binding, without_binding};
ghost use Rattle.dt_memhost.specs.inner.Forest.{without_number, with_file_bytes, with_pipe_bytes};

use crate::dir::Entries;
use crate::node::MemNode;
use crate::nodes::{self, Nodes};
use crate::number::{self, INODE_NUMBERS};
use dt_base::{Blob, NoMemory};
use dt_host::{HostEntry, NodeKind};
use std::alloc::Global;
use std::collections::BTreeMap;
use std::marker::Model;

/// The number of the root.
pub const ROOT: u64 = 1;

/// The nodes and pipes of a host in memory, with the root.
#[derive(Drop)]
pub(crate) struct MemForest {
    alloc: Global,
    // One map of both, so that no number is one of a node and one of a pipe.
    nodes: Nodes,
    root: u64,
}

impl Model for MemForest {
    ghost use Rattle.dt_memhost.specs.inner.Forest.{OrderedForest, HasSizes};
    ghost use Rattle.dt_memhost.specs.inner.Codes.{ordered_code};
    ghost use Rattle.dt_memhost.specs.inner.Node.{nodes_of, orders_of, pipes_of};

    ghost Value = { OrderedForest };

    ghost coded = { ordered_code };

    ghost invariant = { λ f. HasSizes (record {
      forest = record { nodes = nodes_of f.nodes.entries; root = f.root };
      orders = orders_of f.nodes.entries;
      pipes = pipes_of f.nodes.entries;
    }) };

    ghost view = { λ f. record {
      forest = record { nodes = nodes_of f.nodes.entries; root = f.root };
      orders = orders_of f.nodes.entries;
      pipes = pipes_of f.nodes.entries;
    } };
}

impl MemForest {
    /// Nothing but a root without entries.
    pub(crate) fn new(alloc: Global) -> Result<MemForest, NoMemory>
        ensures { IfOk result (λ f. f ≡ empty_ordered ROOT) }
    {
        let mut nodes = BTreeMap::new(alloc);
        nodes.insert(ROOT, MemNode::Dir(Entries::new(alloc)))?;
        Ok(MemForest {
            alloc,
            nodes,
            root: ROOT,
        })
    }

    /// The number of the root. All numbers of the forest have 64 bits, and none is one of a node and one of a pipe.
    pub(crate) fn root(&self) -> u64
        ensures root { result ≡ self.now.forest.root }
        ensures sized { IsSized self.now.forest }
        ensures pipes { (n : ℕ) → IsSome (get self.now.pipes n) → n < 2 ^ 64 }
        ensures apart { (n : ℕ) → IsLive self.now.forest n → get self.now.pipes n ≡ None }
    {
        self.root
    }

    /// The bytes of the file of that number.
    pub(crate) fn bytes_at(&self, number: u64) -> Option<&Vec<u8>>
        ensures file { option_map vec_items (option_copied result) ≡ file_at self.now.forest number }
        ensures bytes { IfSome result (λ bytes. content self.now.forest number ≡ bytes.now.items) }
    {
        nodes::bytes_at(&self.nodes, number)
    }

    /// The target of the link of that number.
    pub(crate) fn target_at(&self, number: u64) -> Option<&Blob>
        ensures { option_copied result ≡ target_at self.now.forest number }
    {
        nodes::target_at(&self.nodes, number)
    }

    /// The number that a directory has under a name.
    pub(crate) fn find(&self, dir: u64, name: &[u8]) -> Option<u64>
        ensures { result ≡ entry self.now.forest dir name.now }
    {
        nodes::find(&self.nodes, dir, name)
    }

    /// The size of the file of that number, and 0 where there is no file.
    pub(crate) fn size(&self, number: u64) -> u64
        ensures { result ≡ length (content self.now.forest number) }
    {
        match self.bytes_at(number) {
            Some(bytes) => bytes.len() as u64,
            None => 0,
        }
    }

    /// A copy of the entries of a directory, in the order of their binding.
    pub(crate) fn list(&self, dir: u64) -> Result<Vec<HostEntry>, NoMemory>
        requires { IsDir self.now.forest dir }
        ensures order { IfOk result
            (λ found. map pair_of found.items ≡ order_at self.now.orders dir) }
        ensures each { IfOk result
            (λ found. IsPermutation
            (entries (names_at self.now.forest dir)) (map pair_of found.items)) }
    {
        nodes::list(&self.nodes, dir, self.alloc)
    }

    /// The number of a new node or pipe, by a word.
    pub(crate) fn number_by(&self, word: u32) -> u64
        ensures chosen { IsChosenNumber (is_in_either self.now.forest.nodes self.now.pipes) INODE_NUMBERS word result }
        ensures positive { 1 ≤ result }
        ensures free { get self.now.forest.nodes result ≡ None }
        ensures no_order { get self.now.orders result ≡ None }
        ensures no_pipe { get self.now.pipes result ≡ None }
    {
        number::number_by(&self.nodes, INODE_NUMBERS, word)
    }

    /// Puts a new node or pipe under a number.
    pub(crate) fn make(&mut self, number: u64, kind: NodeKind) -> Result<(), NoMemory>
        ensures ok { OnOk result (self.new ≡ with_new_at self.old number kind) }
        ensures err { OnErr result (self.new ≡ self.old) }
    {
        let node = MemNode::new(self.alloc, kind);
        self.nodes.insert(number, node)?;
        Ok(())
    }

    /// Adds an entry to a directory, whose name isn't there.
    pub(crate) fn bind(&mut self, dir: u64, name: &[u8], number: u64) -> Result<(), NoMemory>
        requires directory { IsDir self.old.forest dir }
        requires unnamed { entry self.old.forest dir name.now ≡ None }
        ensures ok { OnOk result (self.new ≡ with_binding self.old dir name.now number) }
        ensures err { OnErr result (self.new ≡ self.old) }
    {
        let name = Vec::from_slice(self.alloc, name)?;
        nodes::bind(&mut self.nodes, dir, name, number)
    }

    /// Writes over a file from an offset on.
    pub(crate) fn write(&mut self, number: u64, off: usize, piece: &[u8]) -> Result<(), NoMemory>
        requires file { IsFile self.old.forest number }
        requires joined { off ≤ length (content self.old.forest number) }
        requires fits { off + length piece.now < 2 ^ 64 }
        ensures ok { OnOk result (self.new
            ≡ with_file_bytes self.old number
            (with_bytes_at (content self.old.forest number) off piece.now)) }
        ensures err { OnErr result (self.new ≡ self.old) }
    {
        nodes::write(&mut self.nodes, number, off, piece)
    }

    /// Takes the entry of that name out of a directory.
    pub(crate) fn unbind(&mut self, dir: u64, name: &[u8])
        requires { IsDir self.old.forest dir }
        ensures { self.new ≡ without_binding self.old dir name.now }
    {
        nodes::unbind(&mut self.nodes, dir, name);
    }

    /// Lets go what is under a number, a node or a pipe.
    pub(crate) fn forget(&mut self, number: u64)
        ensures gone { self.new ≡ without_number self.old number }
        ensures apart { IsLive self.old.forest number → get self.old.pipes number ≡ None }
    {
        self.nodes.remove(&number);
    }

    /// Cuts a file to a length, or puts zeros behind its bytes up to it.
    pub(crate) fn cut(&mut self, number: u64, len: usize) -> Result<(), NoMemory>
        requires { IsFile self.old.forest number }
        ensures ok { OnOk result (self.new
            ≡ with_file_bytes self.old number (with_length (content self.old.forest number) len)) }
        ensures err { OnErr result (self.new ≡ self.old) }
    {
        nodes::cut(&mut self.nodes, number, len)
    }

    /// How many bytes the pipe of that number holds.
    pub(crate) fn held(&self, number: u64) -> usize
        ensures { result ≡ length (unwrap_or (get self.now.pipes number) []) }
    {
        nodes::held(&self.nodes, number)
    }

    /// Takes the oldest bytes of a pipe, so many, into the start of the buffer.
    pub(crate) fn take(&mut self, number: u64, count: usize, buf: &mut [u8])
        requires pipe { IsSome (get self.old.pipes number) }
        requires there { count ≤ length (unwrap_or (get self.old.pipes number) []) }
        requires room { count ≤ length buf.old }
        ensures bytes { buf.new
            ≡ take count (unwrap_or (get self.old.pipes number) []) ++ drop count buf.old }
        ensures left { self.new
            ≡ with_pipe_bytes self.old number (drop count (unwrap_or (get self.old.pipes number) [])) }
    {
        nodes::take(&mut self.nodes, number, count, buf);
    }

    /// Puts bytes behind those that a pipe holds.
    pub(crate) fn put(&mut self, number: u64, bytes: &[u8]) -> Result<(), NoMemory>
        requires { IsSome (get self.old.pipes number) }
        ensures ok { OnOk result (self.new
            ≡ with_pipe_bytes self.old number (unwrap_or (get self.old.pipes number) [] ++ bytes.now)) }
        ensures err { OnErr result (self.new ≡ self.old) }
    {
        nodes::put(&mut self.nodes, number, bytes)
    }
}
