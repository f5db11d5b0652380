// When what is set now is due.
ghost use Rattle.std.specs.Prelude.{◌≡◌};
ghost use Rattle.dt_virt.specs.Clock.{ticks_after};

use dt_virt::TICK_LIMIT;

/// The ticks once so many nanoseconds more have passed.
pub(crate) fn due_after(ticks: u64, more: u128) -> u64
    ensures { result ≡ ticks_after ticks more }
{
    u128::from(ticks)
        .saturating_add(more)
        .min(u128::from(TICK_LIMIT)) as u64
}
