// Pipes: their making, and what is read from them and written to them.
ghost use Rattle.std.specs.Prelude.{◌≡◌, ◌+◌, ◌<◌, ◌≤◌, ◌++◌, ℕ, List, None, Err, IfOk};
ghost use Rattle.std.specs.Prelude.{IfSome, IsErrOf, IsSome, OnOk, drop, length, take};
ghost use Rattle.std.specs.FinMap.{get};
ghost use Rattle.dt_base.specs.declared.errno.Errno.{Errno};
ghost use Rattle.dt_host.specs.Cause.{HasCause};
ghost use Rattle.dt_host.specs.declared.error.CallErr.TheVariants.{Errno as is_refused};
ghost use Rattle.dt_host.specs.declared.error.HostErr.TheVariants.{Failed};
ghost use Rattle.dt_tree.specs.FileTree.{FileTree};
ghost use Rattle.dt_tree.specs.Table.{Table};
ghost use Rattle.dt_pipes.specs.Changes.{OnlyPipes};
ghost use Rattle.dt_pipes.specs.declared.pipe.TheConstants.{PIPE_NUMBER_LIMIT};
ghost use Rattle.dt_host.specs.World.{PipeContents};
ghost use Rattle.dt_fds.specs.declared.desc.TheConstants.{DESCRIPTOR_LIMIT};
ghost use Rattle.dt_fds.specs.Descriptions.{description_at, slot_at, table_at, two_free, read_pipe, write_pipe};
ghost use Rattle.dt_fds.specs.Ends.{is_read, is_written, one_if};
ghost use Rattle.dt_fds.specs.OpenFiles.{pipes_at};
ghost use Rattle.dt_fds.specs.Pipes.{empty_read_flow, transfer_count, write_flow, pipe_at, pipe_content_at};
ghost use Rattle.dt_fds.specs.Holding.{pipe_call, pipe_read_call, pipe_write_call, bytes_read, with_pipe_ends};
ghost use Rattle.dt_fds.specs.Holding.{holding_of, pipe_transfer_count, read_end, write_end};
ghost use Rattle.dt_fds.specs.Backs.{IsFilesAnswer, HasEnds, HasFailed, IsBacked, IsPiped, HasHolding, HasFilesAnswer};
ghost use Rattle.dt_fds.specs.Backs.{at, holding_at};
ghost use Rattle.dt_fds.specs.inner.Ends.{pipe_end_by, as_call};

use crate::desc::{DESCRIPTOR_LIMIT, Desc, DescKind, Spot};
use crate::ends::Ends;
use crate::files::Files;
use crate::flow::Flow;
use dt_base::abi::{O_CLOEXEC, O_NONBLOCK, O_RDONLY, O_WRONLY, has_flag};
use dt_base::{Errno, PIPE_BUF, PIPE_LIMIT};
use dt_host::{CallErr, Host, HostErr};

impl Files {
    /// Makes a pipe, and opens its ends under the two lowest free descriptors, the one that is read from under the
    /// lower (pipe2(2)); `flags` may have O_CLOEXEC and O_NONBLOCK. EMFILE where not two are free.
    #[tactic(auto, unfolding(crate::specs::Holding::pipe_call))]
    pub fn pipe<H: Host>(
        &mut self,
        host: &mut H,
        pid: u32,
        flags: u32,
    ) -> Result<(u32, u32), CallErr>
        requires piped { IsPiped self.old (H.view host.old).pipes }
        requires fits { self.old.pipes.next < PIPE_NUMBER_LIMIT }
        ensures makes { (table : Table) → IsBacked (at self.old table (H.view host.old))
            → HasFilesAnswer pid (pipe_call pid flags) (at self.old table (H.view host.old))
            (at self.new table (H.view host.new)) result (H.count host.old) (H.count host.new) }
        ensures call { (t : FileTree)
            → IsFilesAnswer result (holding_of t (pipes_at self.new (H.view host.new).pipes) self.new.descriptors)
            (pipe_call pid flags
            (holding_of t (pipes_at self.old (H.view host.old).pipes) self.old.descriptors)) }
        ensures only { OnlyPipes (H.view host.old) (H.view host.new) }
        ensures cause { HasCause (H.count host.old) (H.count host.new) (HasFailed result) }
    {
        let _before = host.faults();
        let Some((read, write)) = self.two_free(pid) else {
            return Err(CallErr::Errno(Errno::MFile));
        };
        self.open_pipe(host, pid, flags, read, write)?;
        Ok((read, write))
    }

    /// The two lowest free descriptors of a process, the lower one first; none where not two are free.
    #[tactic(auto, unfolding(crate::specs::Descriptions::two_free))]
    pub fn two_free(&self, pid: u32) -> Option<(u32, u32)>
        ensures value { result ≡ two_free (table_at self.now.descriptors pid) }
        ensures table { IfSome result (λ _. IsSome (get self.now.descriptors.tables pid)) }
        ensures within { IfSome result (λ ends. ends.0 < DESCRIPTOR_LIMIT) }
        ensures within_too { IfSome result (λ ends. ends.1 < DESCRIPTOR_LIMIT) }
        ensures free { IfSome result (λ ends. slot_at self.now.descriptors pid ends.0 ≡ None) }
        ensures free_too { IfSome result (λ ends. slot_at self.now.descriptors pid ends.1 ≡ None) }
        ensures apart { IfSome result (λ ends. ends.0 < ends.1) }
    {
        let Some(first) = self.descriptors.free(pid, 0) else {
            return None;
        };
        let Some(second) = self.descriptors.free(pid, first + 1) else {
            return None;
        };
        Some((first, second))
    }

    // Makes a pipe, and opens its ends under two free descriptors.
    fn open_pipe<H: Host>(
        &mut self,
        host: &mut H,
        pid: u32,
        flags: u32,
        read: u32,
        write: u32,
    ) -> Result<(), HostErr>
        requires piped { IsPiped self.old (H.view host.old).pipes }
        requires fits { self.old.pipes.next < PIPE_NUMBER_LIMIT }
        requires table { IsSome (get self.old.descriptors.tables pid) }
        requires first { read < DESCRIPTOR_LIMIT }
        requires second { write < DESCRIPTOR_LIMIT }
        requires free { slot_at self.old.descriptors pid read ≡ None }
        requires free_too { slot_at self.old.descriptors pid write ≡ None }
        requires apart { read < write }
        ensures leaves { (table : Table) → IsBacked (at self.old table (H.view host.old))
            → HasHolding pid (with_pipe_ends (holding_at (at self.old table (H.view host.old))) pid flags read write)
            (at self.old table (H.view host.old)) (at self.new table (H.view host.new)) result
            (H.count host.old) (H.count host.new) }
        ensures opened { (t : FileTree) → OnOk result
            (holding_of t (pipes_at self.new (H.view host.new).pipes) self.new.descriptors
            ≡ with_pipe_ends
            (holding_of t (pipes_at self.old (H.view host.old).pipes) self.old.descriptors)
            pid flags read write) }
        ensures only { OnlyPipes (H.view host.old) (H.view host.new) }
        ensures cause { HasCause (H.count host.old) (H.count host.new) (IsErrOf result Failed) }
    {
        let cloexec = has_flag(flags, O_CLOEXEC);
        let q = self.pipes.make(host)?;
        self.descriptors
            .enter(pid, read, read_end(q, flags), cloexec)?;
        self.descriptors
            .enter(pid, write, write_end(q, flags), cloexec)?;
        let both = Ends {
            read: true,
            write: true,
        };
        self.ends.put(u64::from(q), both)?;
        Ok(())
    }

    /// Reads from a pipe, and answers how many bytes came into the start of the buffer: as many as the pipe holds, or
    /// as fit (read(2), pipe(7)). Where it holds nothing: 0 where nobody writes to it, else EAGAIN where calls don't
    /// wait, else it waits. EBADF where the descriptor is not of an end that is read from.
    #[tactic(auto, unfolding(crate::specs::Holding::pipe_read_call))]
    pub fn pipe_read<H: Host>(
        &mut self,
        host: &mut H,
        pid: u32,
        fd: u32,
        buf: &mut [u8],
    ) -> Result<Flow, CallErr>
        requires { IsPiped self.old (H.view host.old).pipes }
        ensures makes { (table : Table) → IsBacked (at self.old table (H.view host.old))
            → HasFilesAnswer pid (pipe_read_call pid fd (length buf.old)) (at self.old table (H.view host.old))
            (at self.new table (H.view host.new)) result (H.count host.old) (H.count host.new) }
        ensures call { (t : FileTree)
            → IsFilesAnswer result (holding_of t (pipes_at self.new (H.view host.new).pipes) self.new.descriptors)
            (pipe_read_call pid fd (length buf.old)
            (holding_of t (pipes_at self.old (H.view host.old).pipes) self.old.descriptors)) }
        ensures bytes { (table : Table) → IfOk result (λ _.
            let came = bytes_read pid fd (length buf.old) (holding_at (at self.old table (H.view host.old))) in
            buf.new ≡ came ++ drop (length came) buf.old) }
        ensures kept { (errno : Errno) → result ≡ Err (is_refused errno) → buf.new ≡ buf.old }
        ensures only { OnlyPipes (H.view host.old) (H.view host.new) }
        ensures cause { HasCause (H.count host.old) (H.count host.new) (HasFailed result) }
    {
        let _before = host.faults();
        let Some((q, nonblock)) = self.reads_from(pid, fd) else {
            return Err(CallErr::Errno(Errno::BadF));
        };
        if self.pipes.held(q) == 0 {
            return empty_read_flow(self.is_written(q), nonblock);
        }
        let count = self.pipes.take(host, q, buf)?;
        Ok(Flow::Moved(count as u64))
    }

    /// Writes to a pipe these bytes, of which `done` were moved before (write(2), pipe(7)). At most PIPE_BUF bytes go
    /// at once or not at all, of more as many as have room. Where no more can be moved now: EAGAIN, or what was
    /// moved, where calls don't wait; else it waits, or goes on where some were moved now. It is over where nobody
    /// reads. EBADF where the descriptor is not of an end that is written to.
    pub fn pipe_write<H: Host>(
        &mut self,
        host: &mut H,
        pid: u32,
        fd: u32,
        bytes: &[u8],
        done: u64,
    ) -> Result<Flow, CallErr>
        requires piped { IsPiped self.old (H.view host.old).pipes }
        requires within { done ≤ length bytes.now }
        ensures makes { (table : Table) → IsBacked (at self.old table (H.view host.old))
            → HasFilesAnswer pid (pipe_write_call pid fd bytes.now done) (at self.old table (H.view host.old))
            (at self.new table (H.view host.new)) result (H.count host.old) (H.count host.new) }
        ensures call { (t : FileTree)
            → IsFilesAnswer result (holding_of t (pipes_at self.new (H.view host.new).pipes) self.new.descriptors)
            (pipe_write_call pid fd bytes.now done
            (holding_of t (pipes_at self.old (H.view host.old).pipes) self.old.descriptors)) }
        ensures only { OnlyPipes (H.view host.old) (H.view host.new) }
        ensures cause { HasCause (H.count host.old) (H.count host.new) (HasFailed result) }
    {
        let whole = bytes.len() as u64;
        let moved = self.pipe_transfer_count(pid, fd, whole, done);
        let (_, rest) = bytes.split_at(done as usize);
        let (piece, _) = rest.split_at(moved as usize);
        self.pipe_write_part(host, pid, fd, whole, done, piece)
    }

    /// How many bytes `pipe_write` of `whole` bytes would move now, of which `done` were moved before (pipe(7)). None
    /// where the descriptor is not of an end that is written to, or nobody reads.
    pub fn pipe_transfer_count(&self, pid: u32, fd: u32, whole: u64, done: u64) -> u64
        requires ends { HasEnds self.now }
        requires within { done ≤ whole }
        ensures value { (pipes : PipeContents) → IsPiped self.now pipes
            → result ≡ pipe_transfer_count pid fd whole done self.now.descriptors (pipes_at self.now pipes) }
        ensures left { done + result ≤ whole }
        ensures few { result ≤ PIPE_LIMIT }
    {
        let Some((q, _)) = self.writes_to(pid, fd) else {
            return 0;
        };
        if !self.is_read(q) {
            return 0;
        }
        transfer_count(self.pipes.held(q) as u64, whole, done)
    }

    /// As `pipe_write` of `whole` bytes, of which only the piece is handed in that moves now: as many as
    /// `pipe_transfer_count`
    /// tells, from the offset `done` on. So a write that waits or goes on needs no copy of all its bytes. The errors
    /// are those of `pipe_write` (write(2)).
    #[tactic(auto, unfolding(crate::specs::Holding::pipe_write_call))]
    pub fn pipe_write_part<H: Host>(
        &mut self,
        host: &mut H,
        pid: u32,
        fd: u32,
        whole: u64,
        done: u64,
        piece: &[u8],
    ) -> Result<Flow, CallErr>
        requires piped { IsPiped self.old (H.view host.old).pipes }
        requires within { done ≤ whole }
        requires moves { length piece.now ≡ pipe_transfer_count pid fd whole done self.old.descriptors
            (pipes_at self.old (H.view host.old).pipes) }
        ensures makes { (table : Table) → (bytes : List ℕ) → IsBacked (at self.old table (H.view host.old))
            → length bytes ≡ whole → take (length piece.now) (drop done bytes) ≡ piece.now
            → HasFilesAnswer pid (pipe_write_call pid fd bytes done) (at self.old table (H.view host.old))
            (at self.new table (H.view host.new)) result (H.count host.old) (H.count host.new) }
        ensures call { (t : FileTree) (bytes : List ℕ) → length bytes ≡ whole
            → take (length piece.now) (drop done bytes) ≡ piece.now
            → IsFilesAnswer result (holding_of t (pipes_at self.new (H.view host.new).pipes) self.new.descriptors)
            (pipe_write_call pid fd bytes done
            (holding_of t (pipes_at self.old (H.view host.old).pipes) self.old.descriptors)) }
        ensures only { OnlyPipes (H.view host.old) (H.view host.new) }
        ensures cause { HasCause (H.count host.old) (H.count host.new) (HasFailed result) }
    {
        let _before = host.faults();
        let Some((q, nonblock)) = self.writes_to(pid, fd) else {
            return Err(CallErr::Errno(Errno::BadF));
        };
        if !self.is_read(q) {
            return Ok(Flow::Broken(done));
        }
        self.pipes.put(host, q, piece)?;
        write_flow(whole, done, piece.len() as u64, nonblock)
    }

    /// How many bytes the pipe holds of which a descriptor is an end; 0 where it is of none.
    pub fn held(&self, pid: u32, fd: u32) -> usize
        requires { HasEnds self.now }
        ensures { (pipes : PipeContents) → IsPiped self.now pipes
            → result ≡ length (pipe_content_at (pipes_at self.now pipes) (description_at self.now.descriptors pid fd)) }
    {
        match self.end_of(pid, fd) {
            Some(q) => self.pipes.held(q),
            None => 0,
        }
    }

    // The pipe of which a descriptor is an end, if it is one.
    fn end_of(&self, pid: u32, fd: u32) -> Option<u32>
        ensures { result ≡ pipe_at (description_at self.now.descriptors pid fd) }
    {
        match self.look(pid, fd) {
            Some(desc) => desc.kind.pipe(),
            None => None,
        }
    }

    // The pipe that a descriptor reads from, and whether its calls don't wait.
    fn reads_from(&self, pid: u32, fd: u32) -> Option<(u32, bool)>
        ensures { result ≡ pipe_end_by read_pipe (description_at self.now.descriptors pid fd) }
    {
        match self.look(pid, fd) {
            Some(desc) => match desc.kind.read_pipe() {
                Some(q) => Some((q, desc.nonblock)),
                None => None,
            },
            None => None,
        }
    }

    // The pipe that a descriptor writes to, and whether its calls don't wait.
    fn writes_to(&self, pid: u32, fd: u32) -> Option<(u32, bool)>
        ensures { result ≡ pipe_end_by write_pipe (description_at self.now.descriptors pid fd) }
    {
        match self.look(pid, fd) {
            Some(desc) => match desc.kind.write_pipe() {
                Some(q) => Some((q, desc.nonblock)),
                None => None,
            },
            None => None,
        }
    }

    // Whether somebody reads from a pipe.
    pub(crate) fn is_read(&self, q: u32) -> bool
        ensures { result ≡ is_read (get self.now.ends q) }
    {
        match self.ends.get(u64::from(q)) {
            Some(ends) => ends.read,
            None => false,
        }
    }

    // Whether somebody writes to a pipe.
    pub(crate) fn is_written(&self, q: u32) -> bool
        ensures { result ≡ is_written (get self.now.ends q) }
    {
        match self.ends.get(u64::from(q)) {
            Some(ends) => ends.write,
            None => false,
        }
    }
}

// The end of a pipe that is read from, as it begins.
fn read_end(q: u32, flags: u32) -> Desc
    ensures { result ≡ read_end q flags }
{
    Desc {
        kind: DescKind::PipeRead(q),
        spot: Spot::At(0),
        access: O_RDONLY as u8,
        append: false,
        nonblock: has_flag(flags, O_NONBLOCK),
    }
}

// The end of a pipe that is written to, as it begins.
fn write_end(q: u32, flags: u32) -> Desc
    ensures { result ≡ write_end q flags }
{
    Desc {
        kind: DescKind::PipeWrite(q),
        spot: Spot::At(0),
        access: O_WRONLY as u8,
        append: false,
        nonblock: has_flag(flags, O_NONBLOCK),
    }
}

// What a read answers where nothing is held.
fn empty_read_flow(written: bool, nonblock: bool) -> Result<Flow, CallErr>
    ensures { result ≡ as_call (empty_read_flow (one_if written) nonblock) }
{
    if !written {
        Ok(Flow::Moved(0))
    } else if nonblock {
        Err(CallErr::Errno(Errno::Again))
    } else {
        Ok(Flow::Wait)
    }
}

// How many bytes a write moves now.
fn transfer_count(count: u64, whole: u64, done: u64) -> u64
    requires { done ≤ whole }
    ensures value { result ≡ transfer_count count whole done }
    ensures within { done + result ≤ whole }
    ensures room { result ≤ PIPE_LIMIT }
{
    let room = PIPE_LIMIT.saturating_sub(count);
    let left = whole - done;
    if whole > PIPE_BUF {
        left.min(room)
    } else if left <= room {
        left
    } else {
        0
    }
}

// What a write answers that moved so many bytes now.
fn write_flow(whole: u64, done: u64, moved: u64, nonblock: bool) -> Result<Flow, CallErr>
    requires { done + moved ≤ whole }
    ensures { result ≡ as_call (write_flow whole done moved nonblock) }
{
    let all = done + moved;
    if all == whole {
        Ok(Flow::Moved(whole))
    } else if nonblock && all == 0 {
        Err(CallErr::Errno(Errno::Again))
    } else if nonblock {
        Ok(Flow::Moved(all))
    } else if moved == 0 {
        Ok(Flow::Wait)
    } else {
        Ok(Flow::Part(all))
    }
}
