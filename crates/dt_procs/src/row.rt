// A process with its pid at the host, and lists of these.
ghost use Rattle.std.specs.Prelude.{◌≡◌, map};
ghost use Rattle.std.specs.List.{list_any};
ghost use Rattle.dt_procs.specs.Members.{is_live, is_child, no_zombie};
ghost use Rattle.dt_procs.specs.inner.Rows.{row_at, ready_row, row_after_end};

use crate::member::{Member, Reaped};
use dt_base::End;

/// A process with its pid at the host.
#[derive(Clone, Copy, Debug)]
pub struct MemberRow {
    pub host_pid: u64,
    pub member: Member,
}

// The row of a pid.
pub(crate) fn row_at(rows: &[MemberRow], vpid: u32) -> Option<MemberRow>
    ensures { result ≡ row_at rows.now vpid }
{
    rows.iter().find(|row| row.member.has_pid(vpid)).copied()
}

// The first row of a zombie that is a child of this parent and asked for.
pub(crate) fn ready_row(rows: &[MemberRow], parent: u32, which: Option<u32>) -> Option<MemberRow>
    ensures { result ≡ ready_row rows.now parent which }
{
    rows.iter()
        .find(|row| row.member.is_ready(parent, which))
        .copied()
}

// Whether there is a child of this parent that is asked for.
fn has_child(rows: &[MemberRow], parent: u32, which: Option<u32>) -> bool
    ensures { result ≡ list_any (λ row. is_child parent which row.member) rows.now }
{
    rows.iter().any(|row| row.member.is_child(parent, which))
}

// What a wait finds where no child has ended: one that lives, or none.
pub(crate) fn no_zombie(rows: &[MemberRow], parent: u32, which: Option<u32>) -> Reaped
    ensures { result ≡ no_zombie (list_any (λ row. is_child parent which row.member) rows.now) }
{
    if has_child(rows, parent, which) {
        Reaped::NoneReady
    } else {
        Reaped::NoChild
    }
}

// Whether the process of this pid lives.
pub(crate) fn lives(rows: &[MemberRow], vpid: u32) -> bool
    ensures { result ≡ list_any (λ row. is_live vpid row.member) rows.now }
{
    rows.iter().any(|row| row.member.is_live(vpid))
}

// The process of this pid ends.
pub(crate) fn end(rows: &mut [MemberRow], vpid: u32, end: End)
    ensures { rows.new ≡ map (row_after_end vpid end) rows.old }
{
    for row in rows.iter_mut() {
        row.member = row.member.after_end(vpid, end);
    }
}
