// What keeps the nodes, the pipes and the pids of a container, and what each of its calls may answer.
ghost use Rattle.std.specs.Prelude.{◌≡◌, ℕ, ◌+◌, ◌<◌, ◌≤◌, ◌^◌, None, Some, true, length, map, IfOk, IfSome};
ghost use Rattle.std.specs.Prelude.{IsErrOf, IsSome};
ghost use Rattle.std.specs.List.Sorted.{IsPermutation};
ghost use Rattle.std.specs.FinMap.{entries};
ghost use Rattle.std.specs.FinSet.{contains};
ghost use Rattle.dt_host.specs.Cause.{HasCause};
ghost use Rattle.dt_host.specs.World.{World, IsLive, IsFile, IsDir, IsLink, IsPipe, IsSized, ArePipes, ArePids};
ghost use Rattle.dt_host.specs.World.{file_at, target_at, names_at, entry, content, pipe_bytes};
ghost use Rattle.dt_host.specs.Legal.{Makes, Binds, Unbinds, MayGo, Forgets, pair_of, Reads, Writes, Cuts, Takes, Puts};
ghost use Rattle.dt_host.specs.Legal.{MakesPid, DropsPid};

use crate::entry::HostEntry;
use crate::error::HostErr;
use crate::kind::NodeKind;
use crate::raw::RawStat;
use dt_base::{Blob, FILE_LIMIT, PIPE_LIMIT};

/// The host that keeps the nodes, the pipes and the pids of a container. Its numbers, orders and lengths are its own
/// choice.
pub trait Host {
    ghost view: { Self → World };

    ghost count: { Self → ℕ };

    /// How many calls failed so far; the counting stays at 2^64 - 1. All numbers of a host have 64 bits.
    fn faults(&self) -> u64
        ensures value { result ≡ count self.now }
        ensures small { count self.now < 2 ^ 64 }
        ensures sized { IsSized (view self.now).forest }
        ensures pipes { ArePipes (view self.now) }
        ensures pids { ArePids (view self.now).pids };

    /// The number of the root directory.
    fn root(&mut self) -> Result<u64, HostErr>
        ensures ok { IfOk result (λ n. n ≡ (view self.old).forest.root) }
        ensures stays { view self.new ≡ view self.old }
        ensures cause { HasCause (count self.old) (count self.new)
            (IsErrOf result HostErr.Failed) };

    /// Makes a node that no directory names, or a pipe, under a number that was not live.
    fn make(&mut self, kind: NodeKind) -> Result<u64, HostErr>
        ensures legal { Makes (view self.old) kind result (view self.new) }
        ensures cause { HasCause (count self.old) (count self.new)
            (IsErrOf result HostErr.Failed) };

    /// Names the node `ino` in the directory `dir`.
    fn bind(&mut self, dir: u64, name: &[u8], ino: u64) -> Result<(), HostErr>
        requires directory { IsDir (view self.old).forest dir }
        requires unnamed { entry (view self.old).forest dir name.now ≡ None }
        requires live { IsLive (view self.old).forest ino }
        ensures legal { Binds (view self.old) dir name.now ino result (view self.new) }
        ensures cause { HasCause (count self.old) (count self.new)
            (IsErrOf result HostErr.Failed) };

    /// Takes the entry of that name out of the directory `dir`.
    fn unbind(&mut self, dir: u64, name: &[u8]) -> Result<(), HostErr>
        requires directory { IsDir (view self.old).forest dir }
        requires named { IsSome (entry (view self.old).forest dir name.now) }
        ensures legal { Unbinds (view self.old) dir name.now result (view self.new) }
        ensures cause { HasCause (count self.old) (count self.new)
            (IsErrOf result HostErr.Failed) };

    /// Lets a pipe go, or a node that no directory names and that has no entries. It is not the root.
    fn forget(&mut self, ino: u64) -> Result<(), HostErr>
        requires { MayGo (view self.old) ino }
        ensures legal { Forgets (view self.old) ino result (view self.new) }
        ensures cause { HasCause (count self.old) (count self.new)
            (IsErrOf result HostErr.Failed) };

    /// The number of the node of that name; None exactly where the directory has no such entry.
    fn find(&mut self, dir: u64, name: &[u8]) -> Result<Option<u64>, HostErr>
        requires { IsDir (view self.old).forest dir }
        ensures ok { IfOk result (λ found. found ≡ entry (view self.old).forest dir name.now) }
        ensures stays { view self.new ≡ view self.old }
        ensures cause { HasCause (count self.old) (count self.new)
            (IsErrOf result HostErr.Failed) };

    /// The entries of a directory, each once, in any order.
    fn names(&mut self, dir: u64) -> Result<Vec<HostEntry>, HostErr>
        requires { IsDir (view self.old).forest dir }
        ensures ok { IfOk result
            (λ found. IsPermutation
            (entries (names_at (view self.old).forest dir)) (map pair_of found.items)) }
        ensures stays { view self.new ≡ view self.old }
        ensures cause { HasCause (count self.old) (count self.new)
            (IsErrOf result HostErr.Failed) };

    /// What is said of a node. The size of a file is true; the rest is anything.
    fn raw(&mut self, ino: u64) -> Result<RawStat, HostErr>
        requires { IsLive (view self.old).forest ino }
        ensures ok { IfOk result
            (λ raw. IfSome (file_at (view self.old).forest ino)
            (λ bytes. raw.size ≡ length bytes)) }
        ensures stays { view self.new ≡ view self.old }
        ensures cause { HasCause (count self.old) (count self.new)
            (IsErrOf result HostErr.Failed) };

    /// The target of a symbolic link.
    fn target(&mut self, ino: u64) -> Result<Blob, HostErr>
        requires { IsLink (view self.old).forest ino }
        ensures ok { IfOk result (λ target. target_at (view self.old).forest ino ≡ Some target) }
        ensures stays { view self.new ≡ view self.old }
        ensures cause { HasCause (count self.old) (count self.new)
            (IsErrOf result HostErr.Failed) };

    /// Reads bytes of a file from `off` on into the start of `buf`, and answers how many.
    /// It is 0 exactly where the buffer is empty or nothing stands from `off` on.
    fn read_at(&mut self, ino: u64, off: u64, buf: &mut [u8]) -> Result<usize, HostErr>
        requires { IsFile (view self.old).forest ino }
        ensures ok { IfOk result (Reads (content (view self.old).forest ino) off buf.old buf.new) }
        ensures stays { view self.new ≡ view self.old }
        ensures cause { HasCause (count self.old) (count self.new)
            (IsErrOf result HostErr.Failed) };

    /// Writes the first bytes of `bytes` at `off`, at least one, and answers how many.
    /// After an error some of them may have been written.
    fn write_at(&mut self, ino: u64, off: u64, bytes: &[u8]) -> Result<usize, HostErr>
        requires file { IsFile (view self.old).forest ino }
        requires joined { off ≤ length (content (view self.old).forest ino) }
        requires some { 0 < length bytes.now }
        requires fits { off + length bytes.now ≤ FILE_LIMIT }
        ensures legal { Writes (view self.old) ino off bytes.now result (view self.new) }
        ensures cause { HasCause (count self.old) (count self.new)
            (IsErrOf result HostErr.Failed) };

    /// Cuts a file to a length, or puts zeros behind its bytes up to it.
    fn cut(&mut self, ino: u64, len: u64) -> Result<(), HostErr>
        requires file { IsFile (view self.old).forest ino }
        requires fits { len ≤ FILE_LIMIT }
        ensures legal { Cuts (view self.old) ino len result (view self.new) }
        ensures cause { HasCause (count self.old) (count self.new)
            (IsErrOf result HostErr.Failed) };

    /// Takes the oldest bytes that a pipe holds into the start of `buf`, and answers how many.
    /// It is 0 exactly where the buffer is empty or the pipe holds nothing.
    fn pipe_take(&mut self, ino: u64, buf: &mut [u8]) -> Result<usize, HostErr>
        requires { IsPipe (view self.old) ino }
        ensures legal { Takes (view self.old) ino buf.old buf.new result (view self.new) }
        ensures cause { HasCause (count self.old) (count self.new)
            (IsErrOf result HostErr.Failed) };

    /// Puts the first bytes of `bytes` into a pipe, at least one, and answers how many.
    /// After an error some of them may have been put there.
    fn pipe_put(&mut self, ino: u64, bytes: &[u8]) -> Result<usize, HostErr>
        requires pipe { IsPipe (view self.old) ino }
        requires some { 0 < length bytes.now }
        requires fits { length (pipe_bytes (view self.old) ino) + length bytes.now ≤ PIPE_LIMIT }
        ensures legal { Puts (view self.old) ino bytes.now result (view self.new) }
        ensures cause { HasCause (count self.old) (count self.new)
            (IsErrOf result HostErr.Failed) };

    /// A pid that was not live, and is live from now on.
    fn new_pid(&mut self) -> Result<u64, HostErr>
        ensures legal { MakesPid (view self.old) result (view self.new) }
        ensures cause { HasCause (count self.old) (count self.new)
            (IsErrOf result HostErr.Failed) };

    /// Lets a pid go that is live.
    fn drop_pid(&mut self, p: u64) -> Result<(), HostErr>
        requires { contains (view self.old).pids p ≡ true }
        ensures legal { DropsPid (view self.old) p result (view self.new) }
        ensures cause { HasCause (count self.old) (count self.new)
            (IsErrOf result HostErr.Failed) };

    /// Which of those that wait stops next: any index among them.
    fn next_stop(&mut self, waiting: &[u32]) -> Result<usize, HostErr>
        requires { 0 < length waiting.now }
        ensures ok { IfOk result (λ index. index < length waiting.now) }
        ensures stays { view self.new ≡ view self.old }
        ensures cause { HasCause (count self.old) (count self.new)
            (IsErrOf result HostErr.Failed) };

    /// The time of the host's clock: anything.
    fn clock(&mut self) -> Result<u64, HostErr>
        ensures stays { view self.new ≡ view self.old }
        ensures cause { HasCause (count self.old) (count self.new)
            (IsErrOf result HostErr.Failed) };

    /// The count of the host's cycles: anything.
    fn cycles(&mut self) -> Result<u64, HostErr>
        ensures stays { view self.new ≡ view self.old }
        ensures cause { HasCause (count self.old) (count self.new)
            (IsErrOf result HostErr.Failed) };

    /// Fills a buffer with any bytes. After an error they may be any, too.
    fn random(&mut self, buf: &mut [u8]) -> Result<(), HostErr>
        ensures stays { view self.new ≡ view self.old }
        ensures cause { HasCause (count self.old) (count self.new)
            (IsErrOf result HostErr.Failed) };

    /// Makes its choices otherwise from now on, by this number. What it keeps stays.
    fn disturb(&mut self, n: u64) -> Result<(), HostErr>
        ensures stays { view self.new ≡ view self.old }
        ensures cause { HasCause (count self.old) (count self.new) (IsErrOf result HostErr.Failed) };
}
