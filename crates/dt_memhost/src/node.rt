// A node or a pipe in memory, and what each kind of them answers.
ghost use Rattle.std.specs.Prelude.{◌≡◌, ◌+◌, ◌≤◌, None, Some, [], ◌∷◌, ◌++◌, length, map, take, drop};
ghost use Rattle.std.specs.Prelude.{unwrap_or, option_map, option_copied, option_and_then, vec_items};
ghost use Rattle.std.specs.Prelude.{IfOk, OnOk, OnErr, IfSome};
ghost use Rattle.std.specs.List.Sorted.{IsPermutation};
ghost use Rattle.std.specs.FinMap.{entries, get, insert, remove};
ghost use Rattle.dt_host.specs.World.{file, dir, file_bytes, dir_names, link_target};
ghost use Rattle.dt_base.specs.Bytes.{with_bytes_at, with_length};
ghost use Rattle.dt_host.specs.Legal.{pair_of};
ghost use Rattle.dt_memhost.specs.Order.{order_without};
ghost use Rattle.dt_memhost.specs.inner.Node.{node_of, entries_of, held_of, new_node, new_order, new_held};

use crate::dir::Entries;
use crate::pipe::MemPipe;
use crate::transfer::{overwrite, resize};
use dt_base::{Blob, Device, NoMemory};
use dt_host::{HostEntry, NodeKind};
use std::alloc::Global;

/// A node or a pipe in memory.
#[derive(Drop)]
pub(crate) enum MemNode {
    /// The bytes of a file.
    File(Vec<u8>),
    /// The entries of a directory.
    Dir(Entries),
    /// The target of a symbolic link.
    Link(Blob),
    /// A device.
    Device(Device),
    /// What a pipe holds.
    Pipe(MemPipe),
}

impl MemNode {
    /// A new node or pipe of that kind.
    pub(crate) fn new(alloc: Global, kind: NodeKind) -> MemNode
        ensures node { node_of result ≡ new_node kind }
        ensures order { entries_of result ≡ new_order kind }
        ensures held { held_of result ≡ new_held kind }
    {
        match kind {
            NodeKind::File => MemNode::File(Vec::new(alloc)),
            NodeKind::Dir => MemNode::Dir(Entries::new(alloc)),
            NodeKind::Pipe => MemNode::Pipe(MemPipe::new(alloc)),
            NodeKind::Link(target) => MemNode::Link(target),
            NodeKind::Device(device) => MemNode::Device(device),
        }
    }

    /// The bytes of a file.
    pub(crate) fn bytes(&self) -> Option<&Vec<u8>>
        ensures { option_map vec_items (option_copied result) ≡ option_and_then file_bytes (node_of self.now) }
    {
        match self {
            MemNode::File(bytes) => Some(bytes),
            MemNode::Dir(_) | MemNode::Link(_) | MemNode::Device(_) | MemNode::Pipe(_) => None,
        }
    }

    /// The target of a link.
    pub(crate) fn target(&self) -> Option<&Blob>
        ensures { option_copied result ≡ option_and_then link_target (node_of self.now) }
    {
        match self {
            MemNode::File(_) | MemNode::Dir(_) | MemNode::Device(_) | MemNode::Pipe(_) => None,
            MemNode::Link(target) => Some(target),
        }
    }

    /// The number that a directory has under a name.
    pub(crate) fn find(&self, name: &[u8]) -> Option<u64>
        ensures { result
            ≡ option_and_then (λ names. get names name.now) (option_and_then dir_names (node_of self.now)) }
    {
        match self {
            MemNode::Dir(entries) => entries.find(name),
            MemNode::File(_) | MemNode::Link(_) | MemNode::Device(_) | MemNode::Pipe(_) => None,
        }
    }

    /// A copy of the entries, in the order of their binding; what is no directory has none.
    pub(crate) fn list(&self, alloc: Global) -> Result<Vec<HostEntry>, NoMemory>
        ensures order { IfOk result (λ found. map pair_of found.items ≡ unwrap_or (entries_of self.now) []) }
        ensures each { IfSome (option_and_then dir_names (node_of self.now))
            (λ names. IfOk result
            (λ found. IsPermutation (entries names) (map pair_of found.items))) }
    {
        match self {
            MemNode::Dir(entries) => entries.list(alloc),
            MemNode::File(_) | MemNode::Link(_) | MemNode::Device(_) | MemNode::Pipe(_) => Ok(
                Vec::new(alloc),
            ),
        }
    }

    /// Writes over a file from an offset on; any other node stays.
    pub(crate) fn write(&mut self, off: usize, piece: &[u8]) -> Result<(), NoMemory>
        requires { off ≤ length (unwrap_or (option_and_then file_bytes (node_of self.old)) []) }
        ensures ok { OnOk result
            (IfSome (option_and_then file_bytes (node_of self.old))
            (λ old. node_of self.new ≡ Some (file (with_bytes_at old off piece.now)))) }
        ensures err { OnErr result (node_of self.new ≡ node_of self.old) }
        ensures order { entries_of self.new ≡ entries_of self.old }
        ensures held { held_of self.new ≡ held_of self.old }
    {
        match self {
            MemNode::File(bytes) => overwrite(bytes, off, piece),
            MemNode::Dir(_) | MemNode::Link(_) | MemNode::Device(_) | MemNode::Pipe(_) => Ok(()),
        }
    }

    /// Adds an entry to a directory, whose name isn't there; any other node stays.
    pub(crate) fn bind(&mut self, name: Vec<u8>, number: u64) -> Result<(), NoMemory>
        requires { option_and_then (λ names. get names name.items) (option_and_then dir_names (node_of self.old))
            ≡ None }
        ensures ok { OnOk result
            (IfSome (option_and_then dir_names (node_of self.old))
            (λ old. node_of self.new ≡ Some (dir (insert old name.items number)))) }
        ensures last { OnOk result
            (IfSome (option_and_then dir_names (node_of self.old))
            (λ _. entries_of self.new
            ≡ option_map (λ order. order ++ (name.items, number) ∷ []) (entries_of self.old))) }
        ensures err { OnErr result (node_of self.new ≡ node_of self.old) }
        ensures order { OnErr result (entries_of self.new ≡ entries_of self.old) }
        ensures held { held_of self.new ≡ held_of self.old }
    {
        match self {
            MemNode::Dir(entries) => entries.bind(name, number),
            MemNode::File(_) | MemNode::Link(_) | MemNode::Device(_) | MemNode::Pipe(_) => Ok(()),
        }
    }

    /// Takes the entry of that name out of a directory; any other node stays.
    pub(crate) fn unbind(&mut self, name: &[u8])
        ensures names { IfSome (option_and_then dir_names (node_of self.old))
            (λ old. node_of self.new ≡ Some (dir (remove old name.now))) }
        ensures order { entries_of self.new
            ≡ option_map (λ order. order_without order name.now) (entries_of self.old) }
        ensures held { held_of self.new ≡ held_of self.old }
    {
        match self {
            MemNode::Dir(entries) => entries.unbind(name),
            MemNode::File(_) | MemNode::Link(_) | MemNode::Device(_) | MemNode::Pipe(_) => (),
        }
    }

    /// Cuts a file to a length, or puts zeros behind its bytes up to it; any other node stays.
    pub(crate) fn cut(&mut self, len: usize) -> Result<(), NoMemory>
        ensures ok { OnOk result
            (IfSome (option_and_then file_bytes (node_of self.old))
            (λ old. node_of self.new ≡ Some (file (with_length old len)))) }
        ensures err { OnErr result (node_of self.new ≡ node_of self.old) }
        ensures order { entries_of self.new ≡ entries_of self.old }
        ensures held { held_of self.new ≡ held_of self.old }
    {
        match self {
            MemNode::File(bytes) => resize(bytes, len),
            MemNode::Dir(_) | MemNode::Link(_) | MemNode::Device(_) | MemNode::Pipe(_) => Ok(()),
        }
    }

    /// How many bytes a pipe holds; a node holds none.
    pub(crate) fn held(&self) -> usize
        ensures { result ≡ length (unwrap_or (held_of self.now) []) }
    {
        match self {
            MemNode::Pipe(pipe) => pipe.len(),
            MemNode::File(_) | MemNode::Dir(_) | MemNode::Link(_) | MemNode::Device(_) => 0,
        }
    }

    /// Takes the oldest bytes of a pipe, so many, into the start of the buffer; a node stays.
    pub(crate) fn take(&mut self, count: usize, buf: &mut [u8])
        requires there { count ≤ length (unwrap_or (held_of self.old) []) }
        requires room { count ≤ length buf.old }
        ensures bytes { IfSome (held_of self.old)
            (λ held. buf.new ≡ take count held ++ drop count buf.old) }
        ensures left { IfSome (held_of self.old) (λ held. held_of self.new ≡ Some (drop count held)) }
        ensures node { node_of self.new ≡ node_of self.old }
        ensures order { entries_of self.new ≡ entries_of self.old }
    {
        match self {
            MemNode::Pipe(pipe) => pipe.take(count, buf),
            MemNode::File(_) | MemNode::Dir(_) | MemNode::Link(_) | MemNode::Device(_) => (),
        }
    }

    /// Puts bytes behind those that a pipe holds; a node stays.
    pub(crate) fn put(&mut self, bytes: &[u8]) -> Result<(), NoMemory>
        ensures ok { OnOk result
            (IfSome (held_of self.old) (λ held. held_of self.new ≡ Some (held ++ bytes.now))) }
        ensures err { OnErr result (held_of self.new ≡ held_of self.old) }
        ensures node { node_of self.new ≡ node_of self.old }
        ensures order { entries_of self.new ≡ entries_of self.old }
    {
        match self {
            MemNode::Pipe(pipe) => pipe.put(bytes),
            MemNode::File(_) | MemNode::Dir(_) | MemNode::Link(_) | MemNode::Device(_) => Ok(()),
        }
    }
}
