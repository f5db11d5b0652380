// The table of the processes.
ghost use Rattle.std.specs.Prelude.{◌≡◌, ◌+◌, ◌<◌, ◌≤◌, ◌↔◌, IsTrue, IsSome, IfOk, OnOk, IsErrOf, false, true, length, slice_index};
ghost use Rattle.std.specs.FinSet.{empty};
ghost use Rattle.dt_host.specs.Cause.{HasCause};
ghost use Rattle.dt_host.specs.World.{OnlyPids, HostPids};
ghost use Rattle.dt_procs.specs.declared.error.ProcErr.TheVariants.{Full, Host as host_failed};
ghost use Rattle.dt_procs.specs.Members.{first_members, with_child, is_full, members_after_end, look_for};
ghost use Rattle.dt_procs.specs.Members.{members_after_reap, without_member};
ghost use Rattle.dt_procs.specs.Members.{is_got, vpids_of};
ghost use Rattle.dt_procs.specs.Members.{member_at, parent_pid, end_of, has_live};
ghost use Rattle.dt_procs.specs.Table.{members_of, table_of, Stands, IsTable};
ghost use Rattle.dt_base.specs.declared.limits.TheConstants.{FIRST_PID as FIRST};

use crate::error::ProcErr;
use crate::member::{Member, PID_LIMIT, PROCESS_LIMIT, Reaped};
use crate::row;
use crate::row::MemberRow;
use dt_base::{End, FIRST_PID};
use dt_host::{Host, HostErr};
use std::alloc::Global;
use std::marker::Model;

/// The processes of a container, in the order of their pids, each with its pid at the host.
#[derive(Drop)]
pub struct Pids {
    rows: Vec<MemberRow>,
    next: u32,
}

impl Model for Pids {
    ghost use Rattle.dt_procs.specs.Table.{Table, IsTable, table_of};

    ghost Value = { Table };

    ghost view = { λ p. table_of p.rows.items p.next };

    ghost invariant = { λ p. IsTable (table_of p.rows.items p.next) };
}

impl Pids {
    /// The first process alone, of pid 1 and without a parent. The host has no live pid before. A HostErr where it
    /// gives none.
    pub fn first<H: Host>(alloc: Global, host: &mut H) -> Result<Self, HostErr>
        requires no_pids { (H.view host.old).pids ≡ empty }
        ensures members { IfOk result (λ pids. members_of pids ≡ first_members) }
        ensures next { IfOk result (λ pids. pids.next ≡ FIRST_PID + 1) }
        ensures stands { IfOk result (λ pids. Stands pids (H.view host.new).pids) }
        ensures rest { OnlyPids (H.view host.old) (H.view host.new) }
        ensures cause { HasCause (H.count host.old) (H.count host.new)
            (IsErrOf result HostErr.Failed) }
    {
        let host_pid = host.new_pid()?;
        let mut rows = Vec::new(alloc);
        rows.push(MemberRow {
            host_pid,
            member: Member::new(FIRST_PID, 0),
        })?;
        Ok(Pids {
            rows,
            next: FIRST_PID + 1,
        })
    }

    /// A new child of a process, and its pid (fork(2)). Full exactly where there are 64 processes, zombies included;
    /// then nothing changes. Want of memory is the answer where the pids are used up. After a Host error the value may
    /// only be dropped.
    pub fn child<H: Host>(&mut self, host: &mut H, parent: u32) -> Result<u32, ProcErr>
        requires stands { Stands self.old (H.view host.old).pids }
        ensures full { (IsErrOf result Full) ↔ IsTrue (is_full (members_of self.old)) }
        ensures kept { IsErrOf result Full → self.new ≡ self.old }
        ensures unasked { IsErrOf result Full → H.view host.new ≡ H.view host.old }
        ensures vpid { IfOk result (λ vpid. vpid ≡ self.old.next) }
        ensures members { IfOk result
            (λ vpid. members_of self.new ≡ with_child (members_of self.old) vpid parent) }
        ensures next { OnOk result (self.new.next ≡ self.old.next + 1) }
        ensures stands { OnOk result (Stands self.new (H.view host.new).pids) }
        ensures rest { OnlyPids (H.view host.old) (H.view host.new) }
        ensures cause { HasCause (H.count host.old) (H.count host.new)
            (IsErrOf result (host_failed HostErr.Failed)) }
    {
        let _before = host.faults();
        if self.is_full() {
            return Err(ProcErr::Full);
        }
        Ok(self.add(host, parent)?)
    }

    // A new child, where there is room for it.
    fn add<H: Host>(&mut self, host: &mut H, parent: u32) -> Result<u32, HostErr>
        requires stands { Stands self.old (H.view host.old).pids }
        requires room { is_full (members_of self.old) ≡ false }
        ensures vpid { IfOk result (λ vpid. vpid ≡ self.old.next) }
        ensures members { IfOk result
            (λ vpid. members_of self.new ≡ with_child (members_of self.old) vpid parent) }
        ensures next { OnOk result (self.new.next ≡ self.old.next + 1) }
        ensures stands { OnOk result (Stands self.new (H.view host.new).pids) }
        ensures rest { OnlyPids (H.view host.old) (H.view host.new) }
        ensures cause { HasCause (H.count host.old) (H.count host.new)
            (IsErrOf result HostErr.Failed) }
    {
        let _before = host.faults();
        let vpid = self.next;
        if vpid >= PID_LIMIT {
            return Err(HostErr::NoMemory);
        }
        let host_pid = host.new_pid()?;
        self.rows.push(MemberRow {
            host_pid,
            member: Member::new(vpid, parent),
        })?;
        self.next = vpid + 1;
        Ok(vpid)
    }

    /// A process ends (exit(2)): it is a zombie from now on, and its children go to the first process.
    pub fn ended(&mut self, vpid: u32, end: End)
        ensures members { members_of self.new ≡ members_after_end vpid end (members_of self.old) }
        ensures next { self.new.next ≡ self.old.next }
        ensures stands { (pids : HostPids) → Stands self.old pids → Stands self.new pids }
    {
        row::end(&mut self.rows, vpid, end);
    }

    /// What a wait of a parent for one of its children, or for any, finds (wait(2)).
    pub fn look_for(&self, parent: u32, which: Option<u32>) -> Reaped
        ensures { result ≡ look_for (members_of self.now) parent which }
    {
        let rest = row::no_zombie(&self.rows, parent, which);
        match row::ready_row(&self.rows, parent, which) {
            Some(row) => row.member.found_or(rest),
            None => rest,
        }
    }

    /// A wait of a parent for one of its children, or for any: what `look_for` finds, and a zombie that is found is
    /// reaped, its pid at the host too (wait(2)). After a HostErr the value may only be dropped.
    pub fn wait_for<H: Host>(
        &mut self,
        host: &mut H,
        parent: u32,
        which: Option<u32>,
    ) -> Result<Reaped, HostErr>
        requires stands { Stands self.old (H.view host.old).pids }
        ensures found { IfOk result (λ found. found ≡ look_for (members_of self.old) parent which) }
        ensures members { IfOk result
            (λ found. members_of self.new ≡ members_after_reap (members_of self.old) found) }
        ensures next { OnOk result (self.new.next ≡ self.old.next) }
        ensures stands { OnOk result (Stands self.new (H.view host.new).pids) }
        ensures kept { is_got (look_for (members_of self.old) parent which) ≡ false
            → self.new ≡ self.old }
        ensures unasked { is_got (look_for (members_of self.old) parent which) ≡ false
            → H.view host.new ≡ H.view host.old }
        ensures rest { OnlyPids (H.view host.old) (H.view host.new) }
        ensures cause { HasCause (H.count host.old) (H.count host.new)
            (IsErrOf result HostErr.Failed) }
    {
        let _before = host.faults();
        let found = self.look_for(parent, which);
        if let Reaped::Got(vpid, _) = found {
            self.reap(host, vpid)?;
        }
        Ok(found)
    }

    // Takes a process away, and lets its pid at the host go.
    fn reap<H: Host>(&mut self, host: &mut H, vpid: u32) -> Result<(), HostErr>
        requires stands { Stands self.old (H.view host.old).pids }
        requires there { IsSome (member_at (members_of self.old) vpid) }
        ensures members { OnOk result (members_of self.new ≡ without_member (members_of self.old) vpid) }
        ensures next { OnOk result (self.new.next ≡ self.old.next) }
        ensures stands { OnOk result (Stands self.new (H.view host.new).pids) }
        ensures rest { OnlyPids (H.view host.old) (H.view host.new) }
        ensures cause { HasCause (H.count host.old) (H.count host.new)
            (IsErrOf result HostErr.Failed) }
    {
        let _before = host.faults();
        let Some(MemberRow { host_pid, .. }) = row::row_at(&self.rows, vpid) else {
            unreachable!()
        };
        host.drop_pid(host_pid)?;
        self.rows.retain(|row| !row.member.has_pid(vpid));
        Ok(())
    }

    /// Lets all processes go, at the host too, which has no live pid then.
    pub fn clear<H: Host>(self, host: &mut H) -> Result<(), HostErr>
        requires { Stands self (H.view host.old).pids }
        ensures cleared { OnOk result ((H.view host.new).pids ≡ empty) }
        ensures rest { OnlyPids (H.view host.old) (H.view host.new) }
        ensures cause { HasCause (H.count host.old) (H.count host.new)
            (IsErrOf result HostErr.Failed) }
    {
        drop_pids(host, &self.rows)
    }

    /// The pid of the parent of a process, a zombie's too; 0 at the first process (getppid(2)).
    #[tactic(auto, using(crate::proofs::Listed::by_rows))]
    pub fn parent(&self, vpid: u32) -> Option<u32>
        ensures { result ≡ parent_pid (members_of self.now) vpid }
    {
        Some(row::row_at(&self.rows, vpid)?.member.parent)
    }

    /// Whether a process is there and has not ended.
    #[tactic(auto, using(crate::proofs::Listed::by_rows))]
    pub fn lives(&self, vpid: u32) -> bool
        ensures { result ≡ has_live (members_of self.now) vpid }
    {
        row::lives(&self.rows, vpid)
    }

    /// How a process ended, if it is there and has.
    #[tactic(auto, using(crate::proofs::Listed::by_rows))]
    pub fn end(&self, vpid: u32) -> Option<End>
        ensures { result ≡ end_of (members_of self.now) vpid }
    {
        row::row_at(&self.rows, vpid)?.member.end
    }

    /// Whether no more processes may be there, zombies included.
    pub fn is_full(&self) -> bool
        ensures { result ≡ is_full (members_of self.now) }
    {
        self.rows.len() >= PROCESS_LIMIT
    }

    /// How many processes are there, zombies included.
    pub fn count(&self) -> usize
        ensures { result ≡ length (vpids_of (members_of self.now)) }
    {
        self.rows.len()
    }

    /// The pid of a process, a zombie's too, by its index in the order of their pids.
    pub fn vpid_at(&self, index: usize) -> u32
        requires { index < length (vpids_of (members_of self.now)) }
        ensures { result ≡ slice_index (vpids_of (members_of self.now)) index }
    {
        self.rows[index].member.vpid
    }

    /// The pid that the next child gets.
    pub fn next(&self) -> u32
        ensures value { result ≡ self.now.next }
        ensures sound { IsTable self.now }
    {
        self.next
    }
}

// Lets the pids at the host of some processes go. It has no others.
fn drop_pids<H: Host>(host: &mut H, rows: &[MemberRow]) -> Result<(), HostErr>
    requires { Stands (table_of rows.now FIRST) (H.view host.old).pids }
    ensures cleared { OnOk result ((H.view host.new).pids ≡ empty) }
    ensures rest { OnlyPids (H.view host.old) (H.view host.new) }
    ensures cause { HasCause (H.count host.old) (H.count host.new) (IsErrOf result HostErr.Failed) }
{
    let _before = host.faults();
    for row in rows {
        host.drop_pid(row.host_pid)?;
    }
    Ok(())
}
