// The end of processes.
ghost use Rattle.std.specs.Prelude.{◌≡◌, ◌≢◌, ℕ, ◌<◌, ◌^◌, IsSome, OnOk, IsErrOf, ◌++◌};
ghost use Rattle.std.specs.List.{All};
ghost use Rattle.std.specs.FinMap.{get, keys};
ghost use Rattle.dt_host.specs.Cause.{HasCause};
ghost use Rattle.dt_calls.specs.Ends.{shared_after_one_end, shared_after_kills, kill_events, shared_after_end};
ghost use Rattle.dt_calls.specs.Ends.{end_events};
ghost use Rattle.dt_calls.specs.InCode.{shared_of};
ghost use Rattle.dt_calls.specs.Sound.{IsSound};

use crate::shared::Shared;
use dt_base::abi::{SIGCHLD, SIGKILL};
use dt_base::{End, Event, FIRST_PID, NoMemory};
use dt_host::{Host, HostErr};

impl Shared {
    /// Ends a process, and after the first one all others that live: what each has open is closed, it holds its working
    /// directory no longer, and it is a zombie (_exit(2)). The ends that show are added to the events.
    #[tactic(auto, unfolding(crate::specs::Ends::shared_after_end))]
    pub fn end<H: Host>(
        &mut self,
        host: &mut H,
        vpid: u32,
        end: End,
        events: &mut Vec<Event>,
    ) -> Result<(), HostErr>
        requires sound { IsSound self.old (H.view host.old) }
        requires lives { IsSome (get self.old.tasks vpid) }
        ensures ended { OnOk result (shared_of self.new (H.view host.new)
            ≡ shared_after_end vpid end (shared_of self.old (H.view host.old))) }
        ensures shown { OnOk result (events.new.items
            ≡ events.old.items ++ end_events vpid end (shared_of self.old (H.view host.old))) }
        ensures sound { OnOk result (IsSound self.new (H.view host.new)) }
        ensures next { OnOk result (self.new.pids.next ≡ self.old.pids.next) }
        ensures others { (q : ℕ) → vpid ≢ FIRST_PID → q ≢ vpid → OnOk result
            (IsSome (get self.old.tasks q) → IsSome (get self.new.tasks q)) }
        ensures cause { HasCause (H.count host.old) (H.count host.new) (IsErrOf result HostErr.Failed) }
    {
        let _before = host.faults();
        // A proof learns here that pids fit 32 bits.
        let _next = self.pids.next();
        events.push(Event::Exit(vpid, end))?;
        self.end_one(host, vpid, end)?;
        if vpid == FIRST_PID {
            let others = self.tasks.numbers()?;
            show_kills(events, &others)?;
            self.kill_each(host, &others)?;
        }
        Ok(())
    }

    #[tactic(auto, unfolding(crate::specs::Ends::shared_after_one_end))]
    fn end_one<H: Host>(&mut self, host: &mut H, vpid: u32, end: End) -> Result<(), HostErr>
        requires sound { IsSound self.old (H.view host.old) }
        requires lives { IsSome (get self.old.tasks vpid) }
        ensures ended { OnOk result (shared_of self.new (H.view host.new)
            ≡ shared_after_one_end vpid end (shared_of self.old (H.view host.old))) }
        ensures sound { OnOk result (IsSound self.new (H.view host.new)) }
        ensures next { OnOk result (self.new.pids.next ≡ self.old.pids.next) }
        ensures cause { HasCause (H.count host.old) (H.count host.new) (IsErrOf result HostErr.Failed) }
    {
        let _before = host.faults();
        let cwd = self.cwd(vpid);
        let parent = self.pids.parent(vpid).unwrap_or(0);
        self.fs.files.drop_all(host, &mut self.fs.tree, vpid)?;
        self.fs.tree.release(host, cwd)?;
        self.tasks.take(u64::from(vpid));
        self.pids.ended(vpid, end);
        self.raise(parent, SIGCHLD);
        Ok(())
    }

    // Kills processes, one after the other.
    #[tactic(auto, unfolding(crate::specs::Ends::shared_after_kills))]
    fn kill_each<H: Host>(&mut self, host: &mut H, vpids: &[u64]) -> Result<(), HostErr>
        requires sound { IsSound self.old (H.view host.old) }
        requires all { keys self.old.tasks ≡ vpids.now }
        requires small { All (λ v. v < 2 ^ 32) vpids.now }
        ensures killed { OnOk result (shared_of self.new (H.view host.new)
            ≡ shared_after_kills vpids.now (shared_of self.old (H.view host.old))) }
        ensures sound { OnOk result (IsSound self.new (H.view host.new)) }
        ensures next { OnOk result (self.new.pids.next ≡ self.old.pids.next) }
        ensures cause { HasCause (H.count host.old) (H.count host.new) (IsErrOf result HostErr.Failed) }
    {
        let _before = host.faults();
        for vpid in vpids {
            self.end_one(host, *vpid as u32, End::Signal(SIGKILL))?;
        }
        Ok(())
    }
}

// Shows that processes were killed.
fn show_kills(events: &mut Vec<Event>, vpids: &[u64]) -> Result<(), NoMemory>
    requires { All (λ v. v < 2 ^ 32) vpids.now }
    ensures { OnOk result (events.new.items ≡ events.old.items ++ kill_events vpids.now) }
{
    for vpid in vpids {
        events.push(Event::Exit(*vpid as u32, End::Signal(SIGKILL)))?;
    }
    Ok(())
}
