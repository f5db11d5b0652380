// A container that shows few events after each stop that it serves.
ghost use Rattle.std.specs.Prelude.{◌≡◌, Some, IsSome, IfOk};
ghost use Rattle.std.specs.FinMap.{get};
ghost use Rattle.dt_calls.specs.InCode.{machines_at_home, container_of, container_turn_as};
ghost use Rattle.dt_calls.specs.Settle.{turn_of_container};
ghost use Rattle.dt_calls.specs.Sound.{IsSoundContainer};
ghost use Rattle.dt_runlaws.specs.Few.{ShowsFew, HasFew};

use dt_calls::{Container, Served};
use dt_host::{Host, HostErr};
use dt_rv64::Stop;

/// Serves the stop of a process of a container that has few processes. What `Container::events` answers then is few
/// events, and the container has few processes still.
pub fn serve_among_few<H: Host>(
    container: &mut Container,
    host: &mut H,
    vpid: u32,
    stop: Stop,
) -> Result<Served, HostErr>
    requires sound { IsSoundContainer container.old (H.view host.old) }
    requires home { IsSome (get (machines_at_home container.old.places) vpid) }
    requires few { HasFew (container_of container.old (H.view host.old)) }
    ensures ok { IfOk result (λ s. turn_of_container (container_of container.old (H.view host.old)) vpid stop
        ≡ Some (container_turn_as (container_of container.new (H.view host.new)) s)) }
    ensures sound { IfOk result (λ _. IsSoundContainer container.new (H.view host.new)) }
    ensures shown { IfOk result (λ _. ShowsFew container.new.events) }
    ensures few { IfOk result (λ _. HasFew (container_of container.new (H.view host.new))) }
{
    container.serve(host, vpid, stop)
}
