// The table of the pipes.
ghost use Rattle.std.specs.Prelude.{◌≡◌, ℕ, ◌+◌, ◌<◌, ◌≤◌, ◌^◌, ◌==◌, ◌&&◌, ◌||◌, not, false, [], length, Some, IsOk, IsSome};
ghost use Rattle.std.specs.Prelude.{IfOk, OnOk, IsErrOf};
ghost use Rattle.std.specs.FinMap.{empty, get, insert, remove};
ghost use Rattle.dt_host.specs.Cause.{HasCause};
ghost use Rattle.dt_host.specs.World.{PipeContents};
ghost use Rattle.dt_pipes.specs.Table.{Stands, held_in, pipes_of, has_pipe};
ghost use Rattle.dt_pipes.specs.Changes.{OnlyPipes, TakesFromPipe, with_bytes_put};
ghost use Rattle.dt_pipes.specs.inner.Held.{with_held};

use crate::pipe::{FIRST_PIPE, PIPE_NUMBER_LIMIT, Pipe};
use dt_base::PIPE_LIMIT;
use dt_host::{Host, HostErr, NodeKind, put_whole, take_whole};
use dt_tables::Numbered;
use std::alloc::Global;
use std::marker::Model;

/// The pipes of a container by number. The first has number 1, each later one the next, and none is used again.
#[derive(Drop)]
pub struct Pipes {
    pipes: Numbered<Pipe>,
    next: u32,
}

impl Model for Pipes {
    ghost use Rattle.dt_pipes.specs.Table.{Table, table_of};
    ghost use Rattle.dt_pipes.specs.inner.Codes.{table_code};

    ghost Value = { Table };

    ghost coded = { table_code };

    ghost view = { λ p. table_of p.pipes p.next };
}

impl Pipes {
    /// No pipes. They stand for those of a host that has none.
    pub fn new(alloc: Global) -> Self
        ensures pipes { result.pipes ≡ empty }
        ensures next { result.next ≡ FIRST_PIPE }
        ensures stands { (host : PipeContents) → host ≡ empty → Stands result host }
    {
        Pipes {
            pipes: Numbered::new(alloc),
            next: FIRST_PIPE,
        }
    }

    /// The number that the next pipe gets.
    pub fn next(&self) -> u32
        ensures value { result ≡ self.now.next }
        ensures small { self.now.next < 2 ^ 32 }
    {
        self.next
    }

    /// A new pipe that holds nothing, and its number (pipe(2)). After a HostErr the value may only be dropped.
    pub fn make<H: Host>(&mut self, host: &mut H) -> Result<u32, HostErr>
        requires stands { Stands self.old (H.view host.old).pipes }
        requires fits { self.old.next < PIPE_NUMBER_LIMIT }
        ensures number { IfOk result (λ q. q ≡ self.old.next) }
        ensures pipes { OnOk result (pipes_of self.new (H.view host.new).pipes
            ≡ insert (pipes_of self.old (H.view host.old).pipes) self.old.next []) }
        ensures next { OnOk result (self.new.next ≡ self.old.next + 1) }
        ensures there { OnOk result
            ((r : ℕ) → has_pipe self.new r ≡ (has_pipe self.old r || (r == self.old.next))) }
        ensures stands { OnOk result (Stands self.new (H.view host.new).pipes) }
        ensures rest { OnlyPipes (H.view host.old) (H.view host.new) }
        ensures cause { HasCause (H.count host.old) (H.count host.new)
            (IsErrOf result HostErr.Failed) }
    {
        let q = self.next;
        let real = host.make(NodeKind::Pipe)?;
        self.pipes.put(u64::from(q), Pipe { real, held: 0 })?;
        self.next = q + 1;
        Ok(q)
    }

    /// How many bytes a pipe holds.
    pub fn held(&self, q: u32) -> usize
        requires { IsSome (get self.now.pipes q) }
        ensures count { (host : PipeContents) → Stands self.now host
            → result ≡ length (held_in (pipes_of self.now host) q) }
        ensures within { (host : PipeContents) → Stands self.now host → result ≤ PIPE_LIMIT }
    {
        self.get(q).held
    }

    /// Takes the oldest bytes that a pipe holds into the start of a buffer, as many as there are or as fit, and answers
    /// how many (pipe(7)). After a HostErr the value may only be dropped.
    pub fn take<H: Host>(&mut self, host: &mut H, q: u32, buf: &mut [u8]) -> Result<usize, HostErr>
        requires stands { Stands self.old (H.view host.old).pipes }
        requires there { IsSome (get self.old.pipes q) }
        ensures takes { IfOk result (TakesFromPipe (pipes_of self.old (H.view host.old).pipes) q buf.old buf.new
            (pipes_of self.new (H.view host.new).pipes)) }
        ensures next { self.new.next ≡ self.old.next }
        ensures there { (r : ℕ) → has_pipe self.new r ≡ has_pipe self.old r }
        ensures stands { OnOk result (Stands self.new (H.view host.new).pipes) }
        ensures rest { OnlyPipes (H.view host.old) (H.view host.new) }
        ensures cause { HasCause (H.count host.old) (H.count host.new)
            (IsErrOf result HostErr.Failed) }
    {
        let Pipe { real, held } = self.get(q);
        let count = take_whole(host, real, buf)?;
        self.set(q, real, held - count);
        Ok(count)
    }

    /// Puts all of `bytes` behind those that a pipe holds (pipe(7)); where there are none the host is not asked.
    /// After a HostErr the value may only be dropped.
    pub fn put<H: Host>(&mut self, host: &mut H, q: u32, bytes: &[u8]) -> Result<(), HostErr>
        requires stands { Stands self.old (H.view host.old).pipes }
        requires there { IsSome (get self.old.pipes q) }
        requires fits { length (held_in (pipes_of self.old (H.view host.old).pipes) q) + length bytes.now
            ≤ PIPE_LIMIT }
        ensures pipes { OnOk result (pipes_of self.new (H.view host.new).pipes
            ≡ with_bytes_put (pipes_of self.old (H.view host.old).pipes) q bytes.now) }
        ensures done { length bytes.now ≡ 0 → IsOk result }
        ensures kept { length bytes.now ≡ 0 → self.new ≡ self.old }
        ensures unasked { length bytes.now ≡ 0 → host.new ≡ host.old }
        ensures next { self.new.next ≡ self.old.next }
        ensures there { (r : ℕ) → has_pipe self.new r ≡ has_pipe self.old r }
        ensures stands { OnOk result (Stands self.new (H.view host.new).pipes) }
        ensures rest { OnlyPipes (H.view host.old) (H.view host.new) }
        ensures cause { HasCause (H.count host.old) (H.count host.new)
            (IsErrOf result HostErr.Failed) }
    {
        if bytes.is_empty() {
            return Ok(());
        }
        let Pipe { real, held } = self.get(q);
        put_whole(host, real, bytes)?;
        self.set(q, real, held + bytes.len());
        Ok(())
    }

    /// Lets a pipe go, at the host too. Its number is not used again. After a HostErr the value may only be dropped.
    pub fn remove<H: Host>(&mut self, host: &mut H, q: u32) -> Result<(), HostErr>
        requires stands { Stands self.old (H.view host.old).pipes }
        requires there { IsSome (get self.old.pipes q) }
        ensures pipes { OnOk result (pipes_of self.new (H.view host.new).pipes
            ≡ remove (pipes_of self.old (H.view host.old).pipes) q) }
        ensures next { self.new.next ≡ self.old.next }
        ensures there { OnOk result
            ((r : ℕ) → has_pipe self.new r ≡ (has_pipe self.old r && not (r == q))) }
        ensures stands { OnOk result (Stands self.new (H.view host.new).pipes) }
        ensures rest { OnlyPipes (H.view host.old) (H.view host.new) }
        ensures cause { HasCause (H.count host.old) (H.count host.new)
            (IsErrOf result HostErr.Failed) }
    {
        let Pipe { real, .. } = self.get(q);
        host.forget(real)?;
        self.pipes.take(u64::from(q));
        Ok(())
    }

    /// Lets all pipes go, at the host too, which has none then.
    pub fn clear<H: Host>(mut self, host: &mut H) -> Result<(), HostErr>
        requires { Stands self (H.view host.old).pipes }
        ensures cleared { OnOk result ((H.view host.new).pipes ≡ empty) }
        ensures rest { OnlyPipes (H.view host.old) (H.view host.new) }
        ensures cause { HasCause (H.count host.old) (H.count host.new)
            (IsErrOf result HostErr.Failed) }
    {
        let _before = host.faults();
        for q in FIRST_PIPE..self.next {
            self.remove_at(host, q)?;
        }
        Ok(())
    }

    // Lets the pipe of a number go, if there is one.
    fn remove_at<H: Host>(&mut self, host: &mut H, q: u32) -> Result<(), HostErr>
        requires { Stands self.old (H.view host.old).pipes }
        ensures gone { OnOk result (has_pipe self.new q ≡ false) }
        ensures others { OnOk result
            ((r : ℕ) → has_pipe self.old r ≡ false → has_pipe self.new r ≡ false) }
        ensures next { self.new.next ≡ self.old.next }
        ensures stands { OnOk result (Stands self.new (H.view host.new).pipes) }
        ensures rest { OnlyPipes (H.view host.old) (H.view host.new) }
        ensures cause { HasCause (H.count host.old) (H.count host.new)
            (IsErrOf result HostErr.Failed) }
    {
        let _before = host.faults();
        if self.pipes.contains(u64::from(q)) {
            return self.remove(host, q);
        }
        Ok(())
    }

    // The pipe of a number.
    fn get(&self, q: u32) -> Pipe
        requires { IsSome (get self.now.pipes q) }
        ensures found { get self.now.pipes q ≡ Some result }
        ensures live { (host : PipeContents) → Stands self.now host → IsSome (get host result.real) }
        ensures held { (host : PipeContents) → Stands self.now host
            → result.held ≡ length (held_in host result.real) }
        ensures within { (host : PipeContents) → Stands self.now host → result.held ≤ PIPE_LIMIT }
        ensures bytes { (host : PipeContents) → held_in (pipes_of self.now host) q ≡ held_in host result.real }
    {
        let Some(pipe) = self.pipes.get(u64::from(q)).copied() else {
            unreachable!()
        };
        pipe
    }

    // A pipe holds so many bytes from now on.
    fn set(&mut self, q: u32, real: u64, held: usize)
        requires { IsSome (get self.old.pipes q) }
        ensures { self.new ≡ with_held self.old q real held }
    {
        self.pipes.set(u64::from(q), Pipe { real, held });
    }
}
