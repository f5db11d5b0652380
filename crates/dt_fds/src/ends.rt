// Which ends of a pipe are open, and what becomes of the pipe when one is closed.
ghost use Rattle.std.specs.Prelude.{◌≡◌, ◌≢◌, ℕ, ◌+◌, true, false, None, Some};
ghost use Rattle.std.specs.Prelude.{IfSome, IsSome, OnOk, IsErrOf, option_map};
ghost use Rattle.std.specs.Prelude.{◌||◌, if◌then◌else◌};
ghost use Rattle.std.specs.FinMap.{get};
ghost use Rattle.dt_host.specs.Cause.{HasCause};
ghost use Rattle.dt_pipes.specs.Table.{Stands, pipes_of};
ghost use Rattle.dt_pipes.specs.Changes.{OnlyPipes};
ghost use Rattle.dt_fds.specs.Descriptions.{read_pipe, write_pipe};
ghost use Rattle.dt_fds.specs.Ends.{is_read, is_written, one_if};
ghost use Rattle.dt_fds.specs.inner.Ends.{one_if_end, last_end, without_last};

use crate::desc::{Desc, DescKind};
use dt_host::{Host, HostErr};
use dt_pipes::Pipes;
use dt_tables::Numbered;

/// Which ends of a pipe are open: each by the one description that pipe(2) made of it.
#[derive(Clone, Copy, Debug)]
pub struct Ends {
    pub read: bool,
    pub write: bool,
}

impl Ends {
    // Whether an end is open.
    fn any(self) -> bool
        ensures { result ≡ (self.read || self.write) }
    {
        self.read || self.write
    }
}

/// What a description is of that went, if one did.
pub(crate) fn kind_of(gone: &Option<Desc>) -> Option<DescKind>
    ensures { result ≡ option_map (λ (desc : Desc). desc.kind) gone.now }
{
    match gone {
        Some(desc) => Some(desc.kind),
        None => None,
    }
}

/// Notes that the description of an end, if it is one, is closed, and answers the pipe of which it was the last.
pub(crate) fn close_end(ends: &mut Numbered<Ends>, kind: Option<DescKind>) -> Option<u32>
    requires reading { IfSome kind (λ k. IfSome (read_pipe k) (λ q. is_read (get ends.old q) ≡ true)) }
    requires writing { IfSome kind (λ k. IfSome (write_pipe k) (λ q. is_written (get ends.old q) ≡ true)) }
    ensures reading { (q : ℕ) → one_if (is_read (get ends.new q)) + one_if_end q read_pipe kind
        ≡ one_if (is_read (get ends.old q)) }
    ensures writing { (q : ℕ) → one_if (is_written (get ends.new q)) + one_if_end q write_pipe kind
        ≡ one_if (is_written (get ends.old q)) }
    ensures last { result ≡ last_end ends.new kind }
{
    match kind {
        Some(DescKind::PipeRead(q)) => close_read(ends, q),
        Some(DescKind::PipeWrite(q)) => close_write(ends, q),
        Some(
            DescKind::File(_)
            | DescKind::Dir(_)
            | DescKind::Device(_)
            | DescKind::Input
            | DescKind::Stream(_),
        )
        | None => None,
    }
}

// Notes that the end of a pipe that is read from is closed.
fn close_read(ends: &mut Numbered<Ends>, q: u32) -> Option<u32>
    requires { is_read (get ends.old q) ≡ true }
    ensures others { (r : ℕ) → r ≢ q → get ends.new r ≡ get ends.old r }
    ensures read { is_read (get ends.new q) ≡ false }
    ensures write { is_written (get ends.new q) ≡ is_written (get ends.old q) }
    ensures last { result ≡ (if is_written (get ends.old q) then None else Some q) }
{
    let write = match ends.get(u64::from(q)) {
        Some(ends) => ends.write,
        None => false,
    };
    note(ends, u64::from(q), Ends { read: false, write });
    if write { None } else { Some(q) }
}

// Notes that the end of a pipe that is written to is closed.
fn close_write(ends: &mut Numbered<Ends>, q: u32) -> Option<u32>
    requires { is_written (get ends.old q) ≡ true }
    ensures others { (r : ℕ) → r ≢ q → get ends.new r ≡ get ends.old r }
    ensures read { is_read (get ends.new q) ≡ is_read (get ends.old q) }
    ensures write { is_written (get ends.new q) ≡ false }
    ensures last { result ≡ (if is_read (get ends.old q) then None else Some q) }
{
    let read = match ends.get(u64::from(q)) {
        Some(ends) => ends.read,
        None => false,
    };
    note(ends, u64::from(q), Ends { read, write: false });
    if read { None } else { Some(q) }
}

// Notes which ends of a pipe are open, where some were; nothing is kept of one that has none.
pub(crate) fn note(ends: &mut Numbered<Ends>, q: u64, noted: Ends)
    requires { IsSome (get ends.old q) }
    ensures others { (r : ℕ) → r ≢ q → get ends.new r ≡ get ends.old r }
    ensures read { is_read (get ends.new q) ≡ noted.read }
    ensures write { is_written (get ends.new q) ≡ noted.write }
{
    if noted.any() {
        ends.set(q, noted);
    } else {
        ends.take(q);
    }
}

/// Lets a pipe go, if there is one to go.
pub(crate) fn remove_pipe<H: Host>(
    pipes: &mut Pipes,
    host: &mut H,
    last: Option<u32>,
) -> Result<(), HostErr>
    requires stands { Stands pipes.old (H.view host.old).pipes }
    requires there { IfSome last (λ q. IsSome (get pipes.old.pipes q)) }
    ensures pipes { OnOk result (pipes_of pipes.new (H.view host.new).pipes
        ≡ without_last (pipes_of pipes.old (H.view host.old).pipes) last) }
    ensures next { pipes.new.next ≡ pipes.old.next }
    ensures stands { OnOk result (Stands pipes.new (H.view host.new).pipes) }
    ensures rest { OnlyPipes (H.view host.old) (H.view host.new) }
    ensures cause { HasCause (H.count host.old) (H.count host.new) (IsErrOf result HostErr.Failed) }
{
    let _before = host.faults();
    match last {
        Some(q) => pipes.remove(host, q),
        None => Ok(()),
    }
}
