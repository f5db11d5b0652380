// The calls of a host in memory.
ghost use Rattle.std.specs.Prelude.{◌≡◌, ◌+◌, ◌<◌, ◌≤◌, None, Some, true, length, map, IfOk, IfSome, IsErrOf};
ghost use Rattle.std.specs.Prelude.{IsSome};
ghost use Rattle.std.specs.List.Sorted.{IsPermutation};
ghost use Rattle.std.specs.FinMap.{entries};
ghost use Rattle.std.specs.FinSet.{contains};
ghost use Rattle.dt_host.specs.Cause.{HasCause};
ghost use Rattle.dt_host.specs.World.{IsLive, IsFile, IsDir, IsLink, IsPipe, file_at, target_at, names_at};
ghost use Rattle.dt_host.specs.World.{entry, content, pipe_bytes};
ghost use Rattle.dt_host.specs.Legal.{Makes, Binds, Unbinds, MayGo, Forgets, pair_of, Reads, Writes, Cuts};
ghost use Rattle.dt_host.specs.Legal.{Takes, Puts, MakesPid, DropsPid};
ghost use Rattle.dt_memhost.specs.Host.{RootsBy, FindsBy, MakesBy, BindsBy, UnbindsBy, ForgetsBy, NamesBy, RawBy};
ghost use Rattle.dt_memhost.specs.Host.{TargetBy, ReadsBy, WritesBy, CutsBy, MakesPidBy, DropsPidBy, StopsBy, WordBy};
ghost use Rattle.dt_memhost.specs.Host.{TakesBy, PutsBy, FillsBy, DisturbsBy};

use super::MemHost;
use crate::order::arrange;
use crate::transfer::copy_into;
use dt_base::{Blob, FILE_LIMIT, PIPE_LIMIT};
use dt_host::{Host, HostEntry, HostErr, NodeKind, RawStat};

impl Host for MemHost {
    ghost view = { λ h. h.view };

    ghost count = { λ h. h.script.faults };

    fn faults(&self) -> u64 {
        // A proof learns here that all numbers have 64 bits, and that those of pipes are no node's.
        let _root = self.forest.root();
        self.pids.bounds();
        self.script.faults()
    }

    fn root(&mut self) -> Result<u64, HostErr>
        ensures exact { RootsBy self.old result self.new }
        ensures ok { IfOk result (λ n. n ≡ self.old.view.forest.root) }
        ensures stays { self.new.view ≡ self.old.view }
        ensures cause { HasCause self.old.script.faults self.new.script.faults
            (IsErrOf result HostErr.Failed) }
    {
        self.script.begin(false)?;
        Ok(self.forest.root())
    }

    fn make(&mut self, kind: NodeKind) -> Result<u64, HostErr>
        ensures exact { MakesBy self.old kind result self.new }
        ensures legal { Makes self.old.view kind result self.new.view }
        ensures cause { HasCause self.old.script.faults self.new.script.faults
            (IsErrOf result HostErr.Failed) }
    {
        self.script.begin(false)?;
        let number = self.forest.number_by(self.script.word());
        self.forest.make(number, kind)?;
        Ok(number)
    }

    fn bind(&mut self, dir: u64, name: &[u8], ino: u64) -> Result<(), HostErr>
        requires directory { IsDir self.old.view.forest dir }
        requires unnamed { entry self.old.view.forest dir name.now ≡ None }
        requires live { IsLive self.old.view.forest ino }
        ensures exact { BindsBy self.old dir name.now ino result self.new }
        ensures legal { Binds self.old.view dir name.now ino result self.new.view }
        ensures cause { HasCause self.old.script.faults self.new.script.faults
            (IsErrOf result HostErr.Failed) }
    {
        self.script.begin(false)?;
        self.forest.bind(dir, name, ino)?;
        Ok(())
    }

    fn unbind(&mut self, dir: u64, name: &[u8]) -> Result<(), HostErr>
        requires directory { IsDir self.old.view.forest dir }
        requires named { IsSome (entry self.old.view.forest dir name.now) }
        ensures exact { UnbindsBy self.old dir name.now tt result self.new }
        ensures legal { Unbinds self.old.view dir name.now result self.new.view }
        ensures cause { HasCause self.old.script.faults self.new.script.faults
            (IsErrOf result HostErr.Failed) }
    {
        self.script.begin(false)?;
        self.forest.unbind(dir, name);
        Ok(())
    }

    fn forget(&mut self, ino: u64) -> Result<(), HostErr>
        requires { MayGo self.old.view ino }
        ensures exact { ForgetsBy self.old ino tt result self.new }
        ensures legal { Forgets self.old.view ino result self.new.view }
        ensures cause { HasCause self.old.script.faults self.new.script.faults
            (IsErrOf result HostErr.Failed) }
    {
        self.script.begin(false)?;
        self.forest.forget(ino);
        Ok(())
    }

    fn find(&mut self, dir: u64, name: &[u8]) -> Result<Option<u64>, HostErr>
        requires { IsDir self.old.view.forest dir }
        ensures exact { FindsBy self.old dir name.now result self.new }
        ensures ok { IfOk result (λ found. found ≡ entry self.old.view.forest dir name.now) }
        ensures stays { self.new.view ≡ self.old.view }
        ensures cause { HasCause self.old.script.faults self.new.script.faults
            (IsErrOf result HostErr.Failed) }
    {
        self.script.begin(false)?;
        Ok(self.forest.find(dir, name))
    }

    fn names(&mut self, dir: u64) -> Result<Vec<HostEntry>, HostErr>
        requires { IsDir self.old.view.forest dir }
        ensures exact { NamesBy self.old dir result self.new }
        ensures ok { IfOk result
            (λ found. IsPermutation
            (entries (names_at self.old.view.forest dir)) (map pair_of found.items)) }
        ensures stays { self.new.view ≡ self.old.view }
        ensures cause { HasCause self.old.script.faults self.new.script.faults
            (IsErrOf result HostErr.Failed) }
    {
        self.script.begin(false)?;
        let found = self.forest.list(dir)?;
        Ok(arrange(self.alloc, found, &mut self.script)?)
    }

    fn raw(&mut self, ino: u64) -> Result<RawStat, HostErr>
        requires { IsLive self.old.view.forest ino }
        ensures exact { RawBy self.old ino result self.new }
        ensures ok { IfOk result
            (λ raw. IfSome (file_at self.old.view.forest ino) (λ bytes. raw.size ≡ length bytes)) }
        ensures stays { self.new.view ≡ self.old.view }
        ensures cause { HasCause self.old.script.faults self.new.script.faults
            (IsErrOf result HostErr.Failed) }
    {
        self.script.begin(false)?;
        Ok(RawStat {
            size: self.forest.size(ino),
            device: u64::from(self.script.word()),
            mtime: u64::from(self.script.word()),
            blocks: u64::from(self.script.word()),
        })
    }

    fn target(&mut self, ino: u64) -> Result<Blob, HostErr>
        requires { IsLink self.old.view.forest ino }
        ensures exact { TargetBy self.old ino result self.new }
        ensures ok { IfOk result (λ target. target_at self.old.view.forest ino ≡ Some target) }
        ensures stays { self.new.view ≡ self.old.view }
        ensures cause { HasCause self.old.script.faults self.new.script.faults
            (IsErrOf result HostErr.Failed) }
    {
        self.script.begin(false)?;
        let Some(target) = self.forest.target_at(ino) else {
            unreachable!()
        };
        Ok(target.copy()?)
    }

    fn read_at(&mut self, ino: u64, off: u64, buf: &mut [u8]) -> Result<usize, HostErr>
        requires { IsFile self.old.view.forest ino }
        ensures exact { ReadsBy self.old ino off buf.old buf.new result self.new }
        ensures ok { IfOk result (Reads (content self.old.view.forest ino) off buf.old buf.new) }
        ensures stays { self.new.view ≡ self.old.view }
        ensures cause { HasCause self.old.script.faults self.new.script.faults
            (IsErrOf result HostErr.Failed) }
    {
        self.script.begin(false)?;
        let Some(bytes) = self.forest.bytes_at(ino) else {
            unreachable!()
        };
        let off = off as usize;
        let most = buf.len().min(bytes.len().saturating_sub(off));
        if most == 0 {
            return Ok(0);
        }
        let count = self.script.length(most);
        copy_into(bytes, off, count, buf);
        Ok(count)
    }

    fn write_at(&mut self, ino: u64, off: u64, bytes: &[u8]) -> Result<usize, HostErr>
        requires file { IsFile self.old.view.forest ino }
        requires joined { off ≤ length (content self.old.view.forest ino) }
        requires some { 0 < length bytes.now }
        requires fits { off + length bytes.now ≤ FILE_LIMIT }
        ensures exact { WritesBy self.old ino off bytes.now result self.new }
        ensures legal { Writes self.old.view ino off bytes.now result self.new.view }
        ensures cause { HasCause self.old.script.faults self.new.script.faults
            (IsErrOf result HostErr.Failed) }
    {
        self.script.begin(false)?;
        let count = self.script.length(bytes.len());
        let (prefix, _) = bytes.split_at(count);
        self.forest.write(ino, off as usize, prefix)?;
        Ok(count)
    }

    fn cut(&mut self, ino: u64, len: u64) -> Result<(), HostErr>
        requires file { IsFile self.old.view.forest ino }
        requires fits { len ≤ FILE_LIMIT }
        ensures exact { CutsBy self.old ino len result self.new }
        ensures legal { Cuts self.old.view ino len result self.new.view }
        ensures cause { HasCause self.old.script.faults self.new.script.faults
            (IsErrOf result HostErr.Failed) }
    {
        self.script.begin(false)?;
        self.forest.cut(ino, len as usize)?;
        Ok(())
    }

    fn pipe_take(&mut self, ino: u64, buf: &mut [u8]) -> Result<usize, HostErr>
        requires { IsPipe self.old.view ino }
        ensures exact { TakesBy self.old ino buf.old buf.new result self.new }
        ensures legal { Takes self.old.view ino buf.old buf.new result self.new.view }
        ensures cause { HasCause self.old.script.faults self.new.script.faults
            (IsErrOf result HostErr.Failed) }
    {
        self.script.begin(false)?;
        let most = buf.len().min(self.forest.held(ino));
        if most == 0 {
            return Ok(0);
        }
        let count = self.script.length(most);
        self.forest.take(ino, count, buf);
        Ok(count)
    }

    fn pipe_put(&mut self, ino: u64, bytes: &[u8]) -> Result<usize, HostErr>
        requires pipe { IsPipe self.old.view ino }
        requires some { 0 < length bytes.now }
        requires fits { length (pipe_bytes self.old.view ino) + length bytes.now ≤ PIPE_LIMIT }
        ensures exact { PutsBy self.old ino bytes.now result self.new }
        ensures legal { Puts self.old.view ino bytes.now result self.new.view }
        ensures cause { HasCause self.old.script.faults self.new.script.faults
            (IsErrOf result HostErr.Failed) }
    {
        self.script.begin(false)?;
        let count = self.script.length(bytes.len());
        let (prefix, _) = bytes.split_at(count);
        self.forest.put(ino, prefix)?;
        Ok(count)
    }

    fn new_pid(&mut self) -> Result<u64, HostErr>
        ensures exact { MakesPidBy self.old result self.new }
        ensures legal { MakesPid self.old.view result self.new.view }
        ensures cause { HasCause self.old.script.faults self.new.script.faults
            (IsErrOf result HostErr.Failed) }
    {
        self.script.begin(false)?;
        let pid = self.pids.number_by(self.script.word());
        self.pids.add(pid)?;
        Ok(pid)
    }

    fn drop_pid(&mut self, p: u64) -> Result<(), HostErr>
        requires { contains self.old.view.pids p ≡ true }
        ensures exact { DropsPidBy self.old p tt result self.new }
        ensures legal { DropsPid self.old.view p result self.new.view }
        ensures cause { HasCause self.old.script.faults self.new.script.faults
            (IsErrOf result HostErr.Failed) }
    {
        self.script.begin(false)?;
        self.pids.remove(p);
        Ok(())
    }

    fn next_stop(&mut self, waiting: &[u32]) -> Result<usize, HostErr>
        requires { 0 < length waiting.now }
        ensures exact { StopsBy self.old (length waiting.now) result self.new }
        ensures ok { IfOk result (λ index. index < length waiting.now) }
        ensures stays { self.new.view ≡ self.old.view }
        ensures cause { HasCause self.old.script.faults self.new.script.faults
            (IsErrOf result HostErr.Failed) }
    {
        self.script.begin(false)?;
        Ok(self.script.index(waiting.len()))
    }

    fn clock(&mut self) -> Result<u64, HostErr>
        ensures exact { WordBy self.old result self.new }
        ensures stays { self.new.view ≡ self.old.view }
        ensures cause { HasCause self.old.script.faults self.new.script.faults
            (IsErrOf result HostErr.Failed) }
    {
        self.script.begin(false)?;
        Ok(u64::from(self.script.word()))
    }

    fn cycles(&mut self) -> Result<u64, HostErr>
        ensures exact { WordBy self.old result self.new }
        ensures stays { self.new.view ≡ self.old.view }
        ensures cause { HasCause self.old.script.faults self.new.script.faults
            (IsErrOf result HostErr.Failed) }
    {
        self.script.begin(false)?;
        Ok(u64::from(self.script.word()))
    }

    fn random(&mut self, buf: &mut [u8]) -> Result<(), HostErr>
        ensures exact { FillsBy self.old buf.old buf.new tt result self.new }
        ensures stays { self.new.view ≡ self.old.view }
        ensures cause { HasCause self.old.script.faults self.new.script.faults
            (IsErrOf result HostErr.Failed) }
    {
        self.script.begin(false)?;
        self.script.fill(buf);
        Ok(())
    }

    fn disturb(&mut self, n: u64) -> Result<(), HostErr>
        ensures exact { DisturbsBy self.old n tt result self.new }
        ensures stays { self.new.view ≡ self.old.view }
        ensures cause { HasCause self.old.script.faults self.new.script.faults
            (IsErrOf result HostErr.Failed) }
    {
        self.script.begin(false)?;
        self.script.restart(self.alloc, n);
        Ok(())
    }
}
