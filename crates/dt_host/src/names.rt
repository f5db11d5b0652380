// The entries of a directory in one order, whatever order the host gives.
ghost use Rattle.std.specs.Prelude.{◌≡◌, map, IfOk};
ghost use Rattle.std.specs.FinMap.{entries};
ghost use Rattle.dt_host.specs.Asks.{Asks};
ghost use Rattle.dt_host.specs.World.{IsDir, names_at};
ghost use Rattle.dt_host.specs.Legal.{pair_of};

use crate::entry::HostEntry;
use crate::error::HostErr;
use crate::host::Host;

/// The entries of a directory, each once, in byte order of their names.
pub fn sorted_names<H: Host>(host: &mut H, dir: u64) -> Result<Vec<HostEntry>, HostErr>
    requires { IsDir (H.view host.old).forest dir }
    ensures sorted { IfOk result
        (λ found. map pair_of found.items ≡ entries (names_at (H.view host.old).forest dir)) }
    ensures asks { Asks H.view H.count host.old host.new result }
{
    let mut found = host.names(dir)?;
    found.sort()?;
    Ok(found)
}
