// What becomes of the places for machines after a turn.
ghost use Rattle.std.specs.Prelude.{◌≡◌, ℕ, ◌≤◌, true, length, IsSome, OnOk, if◌then◌else◌};
ghost use Rattle.std.specs.FinMap.{get, keys, remove};
ghost use Rattle.dt_procs.specs.Members.{has_live};
ghost use Rattle.dt_procs.specs.Table.{members_of};
ghost use Rattle.dt_procs.specs.declared.member.TheConstants.{PROCESS_LIMIT};
ghost use Rattle.dt_calls.specs.Ends.{has_ended};
ghost use Rattle.dt_calls.specs.InCode.{places_after_turn, with_child_place};
ghost use Rattle.dt_calls.specs.Sound.{IsPaired};

use crate::call::Newborn;
use crate::container::{Container, Served};
use dt_base::NoMemory;
use dt_tables::Numbered;

impl Container {
    /// The place of a process that ended goes, and a child gets one; where all have ended no place is left.
    pub(crate) fn settle(
        &mut self,
        vpid: u32,
        next: u32,
        served: Served,
        child: Option<Newborn>,
    ) -> Result<(), NoMemory>
        ensures { OnOk result (self.new ≡ record self.old {
          places = places_after_turn self.old.places next vpid served child;
        }) }
    {
        if served.is_end_of_all(vpid) {
            self.places = Numbered::new(self.alloc);
            return Ok(());
        }
        self.leave(vpid, served);
        self.enter(next, child)
    }

    // The place of a process that ended goes.
    fn leave(&mut self, vpid: u32, served: Served)
        ensures { self.new ≡ record self.old {
          places = (if has_ended served then remove self.old.places vpid else self.old.places);
        } }
    {
        if served.has_ended() {
            self.places.take(u64::from(vpid));
        }
    }

    // A child gets a place for its machine.
    fn enter(&mut self, next: u32, child: Option<Newborn>) -> Result<(), NoMemory>
        ensures { OnOk result (self.new ≡ record self.old { places = with_child_place self.old.places next child }) }
    {
        match child {
            Some(newborn) => {
                self.places
                    .put(u64::from(next), Some(newborn.into_machine()))?;
            }
            None => {}
        }
        Ok(())
    }

    // Each place for a machine is one of a live process, so that there are at most 64: nothing is done.
    pub(crate) fn counted(&self)
        requires paired { IsPaired self.now }
        requires live { (p : ℕ) → IsSome (get self.now.shared.tasks p)
            → has_live (members_of self.now.shared.pids) p ≡ true }
        ensures { length (keys self.now.places) ≤ PROCESS_LIMIT }
    {
        let _next = self.shared.pids.next();
    }
}
