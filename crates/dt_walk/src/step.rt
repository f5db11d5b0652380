// One name of a path.
ghost use Rattle.std.specs.Prelude.{◌≡◌, IfOk};
ghost use Rattle.dt_host.specs.Asks.{Asks};
ghost use Rattle.dt_host.specs.World.{Forest, IsDir, IsLive, target_at};
ghost use Rattle.dt_tree.specs.Table.{Stands, shape_of};
ghost use Rattle.dt_tree.specs.Above.{dot_dot};
ghost use Rattle.dt_walk.specs.declared.step.Found.TheVariants.{Gone};
ghost use Rattle.dt_walk.specs.Walk.{node_or, lookup_in, node_step, missing_step, step_in_dir, step_of};

use crate::place::Place;
use dt_base::{Blob, Errno, NAME_LIMIT};
use dt_host::{Host, HostErr};
use dt_tree::Tree;

/// What a look-up of one name, at the node where the walk stands, comes to.
#[derive(Clone, Copy, Debug)]
pub enum Found {
    /// A node.
    Node(u64),
    /// No node has that name.
    Missing,
    /// Nothing, nor can anything be: it is the parent of a removed directory.
    Gone,
}

/// What one name of a path does.
#[derive(Debug, Drop)]
pub enum Step {
    /// The walk goes on at this node.
    On(u64),
    /// The walk ends at this place.
    Done(Place),
    /// The walk is refused.
    Refused(Errno),
    /// The name is that of a link with this target, which is followed.
    Follow(Blob),
}

/// What one name of a path does, looked up at a node.
#[tactic(auto, unfolding(crate::specs::Walk::step_of))]
pub(crate) fn take_step<H: Host>(
    host: &mut H,
    tree: &Tree,
    at: u64,
    name: Blob,
    keep: bool,
    last: bool,
    slash: bool,
) -> Result<Step, HostErr>
    requires stands { Stands tree.now (H.view host.old).forest }
    ensures ok { IfOk result (λ step. step
        ≡ step_of (shape_of tree.now (H.view host.old).forest) keep last slash at name) }
    ensures asks { Asks H.view H.count host.old host.new result }
{
    let _before = host.faults();
    if !tree.is_dir(at) {
        return Ok(Step::Refused(Errno::NotDir));
    }
    step_in(host, tree, at, name, keep, last, slash)
}

// What one name of a path does, looked up in a directory.
fn step_in<H: Host>(
    host: &mut H,
    tree: &Tree,
    at: u64,
    name: Blob,
    keep: bool,
    last: bool,
    slash: bool,
) -> Result<Step, HostErr>
    requires stands { Stands tree.now (H.view host.old).forest }
    requires directory { IsDir (shape_of tree.now (H.view host.old).forest) at }
    ensures ok { IfOk result (λ step. step
        ≡ step_in_dir (shape_of tree.now (H.view host.old).forest) keep last slash at name) }
    ensures asks { Asks H.view H.count host.old host.new result }
{
    let _before = host.faults();
    if name.len() as u64 > NAME_LIMIT {
        return Ok(Step::Refused(Errno::NameTooLong));
    }
    match look(host, tree, at, name.as_slice())? {
        Found::Gone => Ok(Step::Refused(Errno::NoEnt)),
        Found::Missing => Ok(missing_step(at, name, last, slash)),
        Found::Node(n) => arrive(host, tree, at, name, n, keep, last, slash),
    }
}

// What is under a name of a directory.
fn look<H: Host>(host: &mut H, tree: &Tree, at: u64, name: &[u8]) -> Result<Found, HostErr>
    requires stands { Stands tree.now (H.view host.old).forest }
    requires directory { IsDir (shape_of tree.now (H.view host.old).forest) at }
    ensures ok { IfOk result
        (λ found. found ≡ lookup_in (shape_of tree.now (H.view host.old).forest) at name.now) }
    ensures asks { Asks H.view H.count host.old host.new result }
{
    let _before = host.faults();
    if name == b".".as_slice() {
        return Ok(Found::Node(at));
    }
    if name == b"..".as_slice() {
        return Ok(look_above(tree, at));
    }
    match tree.find(host, at, name)? {
        None => Ok(Found::Missing),
        Some(n) => Ok(Found::Node(n)),
    }
}

// What is under `..` of a directory.
fn look_above(tree: &Tree, at: u64) -> Found
    ensures { (v : Forest) → Stands tree.now v → IsDir (shape_of tree.now v) at
        → result ≡ node_or Gone (dot_dot (shape_of tree.now v) at) }
{
    match tree.dot_dot(at) {
        None => Found::Gone,
        Some(dir) => Found::Node(dir),
    }
}

// What a node is to a walk that came to it.
fn arrive<H: Host>(
    host: &mut H,
    tree: &Tree,
    at: u64,
    name: Blob,
    n: u64,
    keep: bool,
    last: bool,
    slash: bool,
) -> Result<Step, HostErr>
    requires stands { Stands tree.now (H.view host.old).forest }
    ensures ok { IfOk result (λ step. step
        ≡ node_step (shape_of tree.now (H.view host.old).forest) keep last slash at name n
        (target_at (shape_of tree.now (H.view host.old).forest) n)) }
    ensures asks { Asks H.view H.count host.old host.new result }
{
    let _before = host.faults();
    if tree.is_link(n) && !(last && keep) {
        return Ok(Step::Follow(tree.target(host, n)?));
    }
    if !last {
        return Ok(Step::On(n));
    }
    if slash && !tree.is_dir(n) {
        return Ok(Step::Refused(Errno::NotDir));
    }
    Ok(Step::Done(Place {
        parent: at,
        name,
        node: Some(n),
        slash,
    }))
}

// Where a path leads whose name is not there.
fn missing_step(at: u64, name: Blob, last: bool, slash: bool) -> Step
    ensures { result ≡ missing_step last slash at name }
{
    if !last {
        return Step::Refused(Errno::NoEnt);
    }
    Step::Done(Place {
        parent: at,
        name,
        node: None,
        slash,
    })
}
