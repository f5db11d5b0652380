// The passes of a board: what its threads know, and the slots that they hold.
ghost use Rattle.std.specs.Prelude.{◌≡◌, ℕ, ◌+◌, ◌≤◌, true, ◌∷◌, length, drop};
ghost use Rattle.std.specs.VecDeque.{deque_len, deque_capacity};
ghost use Rattle.dt_board.specs.inner.Held.{held, has, rotated};

use crate::job::Job;
use crate::view::View;
use atomic_table::Seat;
use std::collections::VecDeque;
use std::marker::Model;

/// The engine's pass. A board has one.
#[derive(Drop)]
pub struct EnginePass {
    pub(crate) seat: Seat<Option<Job>, View>,
    // The places of the slots that the seat holds, in its order: a slot that comes goes in front, and the front one is
    // the next that goes home.
    pub(crate) order: VecDeque<usize>,
}

impl Model for EnginePass {
    ghost use Rattle.std.specs.VecDeque.{deque_capacity};
    ghost use Rattle.dt_board.specs.Passes.{EnginePassView, puts_of, tries_of};
    ghost use Rattle.dt_board.specs.inner.Held.{IsEngine};

    ghost Value = { EnginePassView };

    ghost view = { λ p. record { board = p.seat.table_id; puts = puts_of p.seat.me.0; tries = tries_of p.seat.me.0 } };

    ghost invariant = { λ p. IsEngine p.seat.id p.seat.me p.order.items (deque_capacity p.order) };
}

/// A worker's pass.
#[derive(Drop)]
pub struct WorkerPass {
    pub(crate) seat: Seat<Option<Job>, View>,
    pub(crate) claimed: Option<usize>,
}

impl Model for WorkerPass {
    ghost use Rattle.dt_board.specs.Passes.{WorkerPassView, tries_of};
    ghost use Rattle.dt_board.specs.inner.Held.{IsWorker};

    ghost Value = { WorkerPassView };

    ghost view = { λ p. record { board = p.seat.table_id; claimed = p.claimed; tries = tries_of p.seat.me.0 } };

    ghost invariant = { λ p. IsWorker p.seat.me p.claimed };
}

// The index of a place in the order.
fn index_of(order: &VecDeque<usize>, place: usize) -> usize
    requires { has place order.now.items ≡ true }
    ensures { drop result order.now.items ≡ place ∷ drop (result + 1) order.now.items }
{
    for index in 0..order.len() {
        if order[index] == place {
            return index;
        }
    }
    unreachable!()
}

// Puts so many slots from the front behind the others.
fn turn(seat: &mut Seat<Option<Job>, View>, times: usize)
    requires { times ≤ length seat.old.me.1 }
    ensures seat { (seat.new.table_id ≡ seat.old.table_id) × (seat.new.id ≡ seat.old.id) }
    ensures turned { seat.new.me ≡ (seat.old.me.0, rotated times seat.old.me.1) }
{
    for _ in 0..times {
        seat.turn();
    }
}

// Brings the slot of a place to the front.
pub(crate) fn bring(seat: &mut Seat<Option<Job>, View>, order: &mut VecDeque<usize>, place: usize)
    requires holds { held seat.old.me.1 ≡ order.old.items }
    requires here { has place order.old.items ≡ true }
    ensures seat { (seat.new.table_id ≡ seat.old.table_id) × (seat.new.id ≡ seat.old.id)
        × (seat.new.me.0 ≡ seat.old.me.0) }
    ensures holds { held seat.new.me.1 ≡ order.new.items }
    ensures front { order.new.items ≡ place ∷ drop 1 order.new.items }
    ensures all { (other : ℕ) → has other order.new.items ≡ has other order.old.items }
    ensures room { (deque_len order.new ≡ deque_len order.old)
        × (deque_capacity order.new ≡ deque_capacity order.old) }
{
    let index = index_of(order, place);
    turn(seat, index);
    order.rotate_left(index);
}
