// The live nodes and pipes by number. A change at one number leaves the others.
ghost use Rattle.std.specs.Prelude.{◌≡◌, ◌≢◌, ℕ, ◌+◌, ◌≤◌, None, Some, [], ◌∷◌, ◌++◌, length, map, take, drop};
ghost use Rattle.std.specs.Prelude.{unwrap_or, option_map, option_copied, option_and_then, vec_items};
ghost use Rattle.std.specs.Prelude.{IfOk, OnOk, OnErr, IfSome};
ghost use Rattle.std.specs.Ordering.{nat_cmp};
ghost use Rattle.std.specs.BTreeMap as tree;
ghost use Rattle.std.specs.List.Sorted.{IsPermutation};
ghost use Rattle.std.specs.FinMap.{entries, get, insert, remove};
ghost use Rattle.dt_host.specs.World.{file, dir, file_bytes, dir_names, link_target};
ghost use Rattle.dt_base.specs.Bytes.{with_bytes_at, with_length};
ghost use Rattle.dt_host.specs.Legal.{pair_of};
ghost use Rattle.dt_memhost.specs.Order.{order_without};
ghost use Rattle.dt_memhost.specs.inner.Node.{node_in, order_in, held_in};

use crate::node::MemNode;
use dt_base::{Blob, NoMemory};
use dt_host::HostEntry;
use std::alloc::Global;
use std::collections::BTreeMap;

pub(crate) type Nodes = BTreeMap<u64, MemNode>;

/// The bytes of the file of that number.
pub(crate) fn bytes_at(nodes: &Nodes, number: u64) -> Option<&Vec<u8>>
    ensures { option_map vec_items (option_copied result)
        ≡ option_and_then file_bytes (node_in nodes.now number) }
{
    match nodes.get(&number) {
        Some(node) => node.bytes(),
        None => None,
    }
}

/// The target of the link of that number.
pub(crate) fn target_at(nodes: &Nodes, number: u64) -> Option<&Blob>
    ensures { option_copied result ≡ option_and_then link_target (node_in nodes.now number) }
{
    match nodes.get(&number) {
        Some(node) => node.target(),
        None => None,
    }
}

/// The number that a directory has under a name.
pub(crate) fn find(nodes: &Nodes, number: u64, name: &[u8]) -> Option<u64>
    ensures { result
        ≡ option_and_then
        (λ names. get names name.now) (option_and_then dir_names (node_in nodes.now number)) }
{
    match nodes.get(&number) {
        Some(node) => node.find(name),
        None => None,
    }
}

/// A copy of the entries of the node of that number, in the order of their binding; none where there is no node.
pub(crate) fn list(nodes: &Nodes, number: u64, alloc: Global) -> Result<Vec<HostEntry>, NoMemory>
    ensures order { IfOk result
        (λ found. map pair_of found.items ≡ unwrap_or (order_in nodes.now number) []) }
    ensures each { IfSome (option_and_then dir_names (node_in nodes.now number))
        (λ names. IfOk result (λ found. IsPermutation (entries names) (map pair_of found.items))) }
{
    match nodes.get(&number) {
        Some(node) => node.list(alloc),
        None => Ok(Vec::new(alloc)),
    }
}

/// Writes over the file of that number.
pub(crate) fn write(
    nodes: &mut Nodes,
    number: u64,
    off: usize,
    piece: &[u8],
) -> Result<(), NoMemory>
    requires { off ≤ length (unwrap_or (option_and_then file_bytes (node_in nodes.old number)) []) }
    ensures ok { OnOk result
        (IfSome (option_and_then file_bytes (node_in nodes.old number))
        (λ old. node_in nodes.new number ≡ Some (file (with_bytes_at old off piece.now)))) }
    ensures err { OnErr result (node_in nodes.new number ≡ node_in nodes.old number) }
    ensures order { order_in nodes.new number ≡ order_in nodes.old number }
    ensures held { held_in nodes.new number ≡ held_in nodes.old number }
    ensures others { (q : ℕ) → q ≢ number → tree.get nat_cmp nodes.new q ≡ tree.get nat_cmp nodes.old q }
{
    match nodes.get_mut(&number) {
        Some(node) => node.write(off, piece),
        None => Ok(()),
    }
}

/// Adds an entry to the directory of that number.
pub(crate) fn bind(nodes: &mut Nodes, number: u64, name: Vec<u8>, to: u64) -> Result<(), NoMemory>
    requires { option_and_then
        (λ names. get names name.items) (option_and_then dir_names (node_in nodes.old number))
        ≡ None }
    ensures ok { OnOk result
        (IfSome (option_and_then dir_names (node_in nodes.old number))
        (λ old. node_in nodes.new number ≡ Some (dir (insert old name.items to)))) }
    ensures last { OnOk result
        (IfSome (option_and_then dir_names (node_in nodes.old number))
        (λ _. order_in nodes.new number
        ≡ option_map (λ order. order ++ (name.items, to) ∷ []) (order_in nodes.old number))) }
    ensures err { OnErr result (node_in nodes.new number ≡ node_in nodes.old number) }
    ensures order { OnErr result (order_in nodes.new number ≡ order_in nodes.old number) }
    ensures held { held_in nodes.new number ≡ held_in nodes.old number }
    ensures others { (q : ℕ) → q ≢ number → tree.get nat_cmp nodes.new q ≡ tree.get nat_cmp nodes.old q }
{
    match nodes.get_mut(&number) {
        Some(node) => node.bind(name, to),
        None => Ok(()),
    }
}

/// Takes the entry of that name out of the directory of that number.
pub(crate) fn unbind(nodes: &mut Nodes, number: u64, name: &[u8])
    ensures names { IfSome (option_and_then dir_names (node_in nodes.old number))
        (λ old. node_in nodes.new number ≡ Some (dir (remove old name.now))) }
    ensures order { order_in nodes.new number
        ≡ option_map (λ order. order_without order name.now) (order_in nodes.old number) }
    ensures held { held_in nodes.new number ≡ held_in nodes.old number }
    ensures others { (q : ℕ) → q ≢ number → tree.get nat_cmp nodes.new q ≡ tree.get nat_cmp nodes.old q }
{
    match nodes.get_mut(&number) {
        Some(node) => node.unbind(name),
        None => (),
    }
}

/// Cuts the file of that number to a length, or puts zeros behind its bytes up to it.
pub(crate) fn cut(nodes: &mut Nodes, number: u64, len: usize) -> Result<(), NoMemory>
    ensures ok { OnOk result
        (IfSome (option_and_then file_bytes (node_in nodes.old number))
        (λ old. node_in nodes.new number ≡ Some (file (with_length old len)))) }
    ensures err { OnErr result (node_in nodes.new number ≡ node_in nodes.old number) }
    ensures order { order_in nodes.new number ≡ order_in nodes.old number }
    ensures held { held_in nodes.new number ≡ held_in nodes.old number }
    ensures others { (q : ℕ) → q ≢ number → tree.get nat_cmp nodes.new q ≡ tree.get nat_cmp nodes.old q }
{
    match nodes.get_mut(&number) {
        Some(node) => node.cut(len),
        None => Ok(()),
    }
}

/// How many bytes the pipe of that number holds; none where there is no pipe.
pub(crate) fn held(nodes: &Nodes, number: u64) -> usize
    ensures { result ≡ length (unwrap_or (held_in nodes.now number) []) }
{
    match nodes.get(&number) {
        Some(node) => node.held(),
        None => 0,
    }
}

/// Takes the oldest bytes of the pipe of that number, so many, into the start of the buffer.
pub(crate) fn take(nodes: &mut Nodes, number: u64, count: usize, buf: &mut [u8])
    requires there { count ≤ length (unwrap_or (held_in nodes.old number) []) }
    requires room { count ≤ length buf.old }
    ensures bytes { IfSome (held_in nodes.old number)
        (λ held. buf.new ≡ take count held ++ drop count buf.old) }
    ensures left { IfSome (held_in nodes.old number)
        (λ held. held_in nodes.new number ≡ Some (drop count held)) }
    ensures node { node_in nodes.new number ≡ node_in nodes.old number }
    ensures order { order_in nodes.new number ≡ order_in nodes.old number }
    ensures others { (q : ℕ) → q ≢ number → tree.get nat_cmp nodes.new q ≡ tree.get nat_cmp nodes.old q }
{
    match nodes.get_mut(&number) {
        Some(node) => node.take(count, buf),
        None => (),
    }
}

/// Puts bytes behind those that the pipe of that number holds.
pub(crate) fn put(nodes: &mut Nodes, number: u64, bytes: &[u8]) -> Result<(), NoMemory>
    ensures ok { OnOk result
        (IfSome (held_in nodes.old number)
        (λ held. held_in nodes.new number ≡ Some (held ++ bytes.now))) }
    ensures err { OnErr result (held_in nodes.new number ≡ held_in nodes.old number) }
    ensures node { node_in nodes.new number ≡ node_in nodes.old number }
    ensures order { order_in nodes.new number ≡ order_in nodes.old number }
    ensures others { (q : ℕ) → q ≢ number → tree.get nat_cmp nodes.new q ≡ tree.get nat_cmp nodes.old q }
{
    match nodes.get_mut(&number) {
        Some(node) => node.put(bytes),
        None => Ok(()),
    }
}
