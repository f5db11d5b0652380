// Looking a path up in the tree (path_resolution(7)).
ghost use Rattle.std.specs.Prelude.{◌≡◌, IfOk};
ghost use Rattle.dt_host.specs.Asks.{Asks};
ghost use Rattle.dt_host.specs.World.{IsDir};
ghost use Rattle.dt_tree.specs.Table.{Stands, shape_of};
ghost use Rattle.dt_exec.specs.Lookup.{lookup};

use dt_base::Errno;
use dt_host::{CallErr, Host, HostErr};
use dt_tree::Tree;
use dt_walk::{Last, walk};
use std::alloc::Global;

/// The node that a path leads to from a directory, each link followed. It is None where the last name alone is missing.
#[tactic(auto, unfolding(crate::specs::Lookup::lookup))]
pub fn lookup<H: Host>(
    alloc: Global,
    host: &mut H,
    tree: &Tree,
    start: u64,
    path: &[u8],
) -> Result<Result<Option<u64>, Errno>, HostErr>
    requires stands { Stands tree.now (H.view host.old).forest }
    requires directory { IsDir (shape_of tree.now (H.view host.old).forest) start }
    ensures ok { IfOk result
        (λ found. found ≡ lookup (shape_of tree.now (H.view host.old).forest) start path.now) }
    ensures asks { Asks H.view H.count host.old host.new result }
{
    match walk(alloc, host, tree, start, path, Last::Follow) {
        Ok(place) => Ok(Ok(place.node)),
        Err(CallErr::Errno(errno)) => Ok(Err(errno)),
        Err(CallErr::Host(e)) => Err(e),
    }
}
