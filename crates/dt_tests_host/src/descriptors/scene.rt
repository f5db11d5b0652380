// The open files of a first process, over the tree of a small image at a host in memory.
ghost use Rattle.std.specs.Prelude.{◌≡◌, false, None, IfOk, IfSome, OnOk};
ghost use Rattle.dt_tree.specs.declared.limits.TheConstants.{ROOT};
ghost use Rattle.dt_tree.specs.Calls.{MayDrop};
ghost use Rattle.dt_tree.specs.Table.{shape_of};
ghost use Rattle.dt_fds.specs.Descriptions.{IsKind, IsDesc, description_at, is_of_dir, pipe_of};
ghost use Rattle.dt_fds.specs.Backs.{IsBacked, IsIn, at};
ghost use Rattle.dt_tests_host.specs.Answered.{answered};
ghost use Rattle.dt_tests_host.specs.declared.descriptors.step.Outcome.TheVariants.{Refused};

use super::image::image;
use super::step::{Outcome, RDWR};
use dt_base::NoMemory;
use dt_base::abi::{O_APPEND, O_NONBLOCK, has_flag};
use dt_fds::{DESCRIPTOR_LIMIT, Desc, DescKind, Files, Spot};
use dt_host::{CallErr, Host, HostErr, NodeKind};
use dt_memhost::{MemHost, Picker};
use dt_pipes::PIPE_NUMBER_LIMIT;
use dt_tree::{ROOT, Tree};
use std::alloc::Global;

/// The process.
pub const PID: u32 = 1;

/// A child of it, once there is one.
pub const CHILD: u32 = 2;

// The words of the host, each of which chooses the least that it may.
const ZEROS: usize = 1_000;

/// A host that numbers nodes from 1 on, the tree of the image, and the open files of the process.
#[derive(Drop)]
pub struct Scene {
    pub host: MemHost,
    pub tree: Tree,
    pub files: Files,
}

impl Scene {
    /// Nothing but the input and the output streams is open.
    pub fn new(alloc: Global) -> Result<Scene, HostErr>
        ensures { IfOk result (λ scene. IsBacked (at scene.files scene.tree scene.host.view)) }
    {
        let zeros = Picker::new(vec![in alloc; 0; ZEROS]?, 1);
        let mut host = MemHost::new(alloc, zeros, Vec::new(alloc))?;
        let mut tree = Tree::new(alloc, &mut host)?;
        tree.install(&mut host, &image(alloc)?)?;
        let files = Files::first(alloc, PID)?;
        Ok(Scene { host, tree, files })
    }

    /// Opens a description under the lowest free descriptor.
    pub fn add(&mut self, pid: u32, kind: DescKind) -> Result<Outcome, HostErr>
        requires backed { IsBacked (at self.old.files self.old.tree self.old.host.view) }
        requires good { IsKind kind }
        requires there { IsIn (shape_of self.old.tree self.old.host.view.forest) kind }
        requires no_end { pipe_of kind ≡ None }
        ensures { OnOk result (IsBacked (at self.new.files self.new.tree self.new.host.view)) }
    {
        let desc = desc(kind);
        let added = self.files.add(&self.host, &mut self.tree, pid, desc, false);
        answered(added.map(|fd| Outcome::Fd(fd)))
    }

    /// Opens the input again, 61 times or until that is refused, and counts how often it was done.
    pub fn fill(&mut self, pid: u32) -> Result<Outcome, HostErr>
        requires { IsBacked (at self.old.files self.old.tree self.old.host.view) }
        ensures { OnOk result (IsBacked (at self.new.files self.new.tree self.new.host.view)) }
    {
        for count in 0..61 {
            if let Outcome::Refused(_) = self.add(pid, DescKind::Input)? {
                return Ok(Outcome::Count(count));
            }
        }
        Ok(Outcome::Count(61))
    }

    /// Closes these descriptors, up to the first that is refused.
    pub fn close_each(&mut self, pid: u32, fds: &[u32]) -> Result<Outcome, HostErr>
        requires { IsBacked (at self.old.files self.old.tree self.old.host.view) }
        ensures { OnOk result (IsBacked (at self.new.files self.new.tree self.new.host.view)) }
    {
        for fd in fds {
            if let Outcome::Refused(errno) = self.close(pid, *fd)? {
                return Ok(Outcome::Refused(errno));
            }
        }
        Ok(Outcome::Done)
    }

    /// Closes a descriptor.
    pub fn close(&mut self, pid: u32, fd: u32) -> Result<Outcome, HostErr>
        requires { IsBacked (at self.old.files self.old.tree self.old.host.view) }
        ensures { OnOk result (IsBacked (at self.new.files self.new.tree self.new.host.view)) }
    {
        let closed = self.files.close(&mut self.host, &mut self.tree, pid, fd);
        answered(closed.map(|()| Outcome::Done))
    }

    /// Duplicates a descriptor to the lowest free one from one on, which may be the limit.
    pub fn dup(&mut self, pid: u32, fd: u32, from: u32, cloexec: bool) -> Result<Outcome, HostErr>
        requires { IsBacked (at self.old.files self.old.tree self.old.host.view) }
        ensures { OnOk result (IsBacked (at self.new.files self.new.tree self.new.host.view)) }
    {
        if from as usize > DESCRIPTOR_LIMIT {
            return Ok(Outcome::Misused);
        }
        let duplicated = self.files.dup(pid, fd, from, cloexec);
        answered(duplicated.map(|new| Outcome::Fd(new)))
    }

    /// Duplicates a descriptor to another one.
    pub fn dup3(&mut self, pid: u32, old: u32, new: u32) -> Result<Outcome, HostErr>
        requires { IsBacked (at self.old.files self.old.tree self.old.host.view) }
        ensures { OnOk result (IsBacked (at self.new.files self.new.tree self.new.host.view)) }
    {
        if old == new {
            return Ok(Outcome::Misused);
        }
        let duplicated = self
            .files
            .dup_at(&mut self.host, &mut self.tree, pid, old, new, false);
        answered(duplicated.map(|()| Outcome::Done))
    }

    /// Gives a child a table like that of the process; a child that was there before ends first.
    pub fn fork(&mut self, pid: u32) -> Result<Outcome, HostErr>
        requires { IsBacked (at self.old.files self.old.tree self.old.host.view) }
        ensures { OnOk result (IsBacked (at self.new.files self.new.tree self.new.host.view)) }
    {
        if pid == CHILD {
            return Ok(Outcome::Misused);
        }
        self.files.drop_all(&mut self.host, &mut self.tree, CHILD)?;
        self.files.share_all(pid, CHILD)?;
        Ok(Outcome::Done)
    }

    /// Goes to an offset of a descriptor, which is of no directory.
    pub fn seek(&mut self, pid: u32, fd: u32, offset: u64) -> Result<Outcome, HostErr>
        requires { IsBacked (at self.old.files self.old.tree self.old.host.view) }
        ensures { OnOk result (IsBacked (at self.new.files self.new.tree self.new.host.view)) }
    {
        if is_of_dir(&self.files, pid, fd) {
            return Ok(Outcome::Misused);
        }
        self.files.set_place(pid, fd, Spot::At(offset));
        Ok(Outcome::Done)
    }

    /// Gives the description of a descriptor these flags, of O_APPEND and O_NONBLOCK.
    pub fn set_flags(&mut self, pid: u32, fd: u32, flags: u32) -> Result<Outcome, HostErr>
        requires { IsBacked (at self.old.files self.old.tree self.old.host.view) }
        ensures { OnOk result (IsBacked (at self.new.files self.new.tree self.new.host.view)) }
    {
        if !has_flag(O_APPEND | O_NONBLOCK, flags) {
            return Ok(Outcome::Misused);
        }
        self.files.set_flags(
            pid,
            fd,
            has_flag(flags, O_APPEND),
            has_flag(flags, O_NONBLOCK),
        );
        Ok(Outcome::Done)
    }

    /// Sets or clears the close-on-exec bit of a descriptor.
    pub fn set_cloexec(&mut self, pid: u32, fd: u32, cloexec: bool) -> Result<Outcome, HostErr>
        requires { IsBacked (at self.old.files self.old.tree self.old.host.view) }
        ensures { OnOk result (IsBacked (at self.new.files self.new.tree self.new.host.view)) }
    {
        self.files.set_cloexec(pid, fd, cloexec);
        Ok(Outcome::Done)
    }

    /// Closes the descriptors whose close-on-exec bit is set.
    pub fn exec(&mut self, pid: u32) -> Result<Outcome, HostErr>
        requires { IsBacked (at self.old.files self.old.tree self.old.host.view) }
        ensures { OnOk result (IsBacked (at self.new.files self.new.tree self.new.host.view)) }
    {
        self.files.close_exec(&mut self.host, &mut self.tree, pid)?;
        Ok(Outcome::Done)
    }

    /// Closes all descriptors.
    pub fn exit(&mut self, pid: u32) -> Result<Outcome, HostErr>
        requires { IsBacked (at self.old.files self.old.tree self.old.host.view) }
        ensures { OnOk result (IsBacked (at self.new.files self.new.tree self.new.host.view)) }
    {
        self.files.drop_all(&mut self.host, &mut self.tree, pid)?;
        Ok(Outcome::Done)
    }

    /// Makes a pipe, and tells the descriptors of its ends.
    pub fn pipe(&mut self, pid: u32, flags: u32) -> Result<Outcome, HostErr>
        requires { IsBacked (at self.old.files self.old.tree self.old.host.view) }
        ensures { OnOk result (IsBacked (at self.new.files self.new.tree self.new.host.view)) }
    {
        if self.files.pipes.next() >= PIPE_NUMBER_LIMIT {
            return Ok(Outcome::Misused);
        }
        let made = self.files.pipe(&mut self.host, pid, flags);
        answered(made.map(|(read, write)| Outcome::Ends(read, write)))
    }

    // Reads from a pipe.
    fn read(&mut self, pid: u32, fd: u32, buf: &mut [u8]) -> Result<Outcome, HostErr>
        requires { IsBacked (at self.old.files self.old.tree self.old.host.view) }
        ensures { OnOk result (IsBacked (at self.new.files self.new.tree self.new.host.view)) }
    {
        let read = self.files.pipe_read(&mut self.host, pid, fd, buf);
        answered(read.map(|flow| Outcome::Flowed(flow)))
    }

    /// Writes bytes to a pipe, of which so many are done.
    pub fn write(&mut self, pid: u32, fd: u32, bytes: &[u8], done: u64) -> Result<Outcome, HostErr>
        requires { IsBacked (at self.old.files self.old.tree self.old.host.view) }
        ensures { OnOk result (IsBacked (at self.new.files self.new.tree self.new.host.view)) }
    {
        if done > bytes.len() as u64 {
            return Ok(Outcome::Misused);
        }
        let written = self.files.pipe_write(&mut self.host, pid, fd, bytes, done);
        answered(written.map(|flow| Outcome::Flowed(flow)))
    }

    /// Reads from a pipe into a buffer that holds the first of these bytes, and is to hold the others then.
    pub fn read_into(
        &mut self,
        alloc: Global,
        pid: u32,
        fd: u32,
        before: &[u8],
        after: &[u8],
    ) -> Result<Outcome, HostErr>
        requires { IsBacked (at self.old.files self.old.tree self.old.host.view) }
        ensures { OnOk result (IsBacked (at self.new.files self.new.tree self.new.host.view)) }
    {
        if before.len() != after.len() {
            return Ok(Outcome::Misused);
        }
        let mut buf = Vec::from_slice(alloc, before)?;
        let outcome = self.read(pid, fd, &mut buf)?;
        match first_difference(&buf, after) {
            Some(index) => Ok(Outcome::WrongBytes { index }),
            None => Ok(outcome),
        }
    }

    /// Writes bytes to a pipe that tell where they stand, of which so many are done.
    pub fn write_long(
        &mut self,
        alloc: Global,
        pid: u32,
        fd: u32,
        count: usize,
        done: u64,
    ) -> Result<Outcome, HostErr>
        requires { IsBacked (at self.old.files self.old.tree self.old.host.view) }
        ensures { OnOk result (IsBacked (at self.new.files self.new.tree self.new.host.view)) }
    {
        let bytes = numbered(alloc, 0, count)?;
        self.write(pid, fd, &bytes, done)
    }

    /// Reads all that a pipe holds, which is to be the bytes of such a write from one on.
    pub fn read_long(
        &mut self,
        alloc: Global,
        pid: u32,
        fd: u32,
        from: usize,
    ) -> Result<Outcome, HostErr>
        requires { IsBacked (at self.old.files self.old.tree self.old.host.view) }
        ensures { OnOk result (IsBacked (at self.new.files self.new.tree self.new.host.view)) }
    {
        let held = self.held(pid, fd);
        let before = vec![in alloc; 0; held]?;
        let after = numbered(alloc, from, held)?;
        self.read_into(alloc, pid, fd, &before, &after)
    }

    /// How many bytes a pipe holds.
    pub fn held(&self, pid: u32, fd: u32) -> usize
        requires { IsBacked (at self.now.files self.now.tree self.now.host.view) }
    {
        self.files.held(pid, fd)
    }

    /// Opens what has a name in the root, which is no link and no device.
    pub fn open(&mut self, pid: u32, name: &[u8]) -> Result<Outcome, HostErr>
        requires { IsBacked (at self.old.files self.old.tree self.old.host.view) }
        ensures { OnOk result (IsBacked (at self.new.files self.new.tree self.new.host.view)) }
    {
        let Some(inode) = self.tree.find(&mut self.host, ROOT, name)? else {
            return Ok(Outcome::Absent);
        };
        if self.tree.is_dir(inode) {
            self.add(pid, DescKind::Dir(inode))
        } else if self.tree.is_link(inode) {
            Ok(Outcome::Misused)
        } else if self.tree.device(inode).is_some() {
            Ok(Outcome::Misused)
        } else {
            self.add(pid, DescKind::File(inode))
        }
    }

    /// Takes a name out of the root that is there, and of no directory that has entries.
    pub fn unlink(&mut self, name: &[u8]) -> Result<Outcome, HostErr>
        requires { IsBacked (at self.old.files self.old.tree self.old.host.view) }
        ensures { OnOk result (IsBacked (at self.new.files self.new.tree self.new.host.view)) }
    {
        let Some(inode) = self.tree.find(&mut self.host, ROOT, name)? else {
            return Ok(Outcome::Misused);
        };
        if self.tree.is_dir(inode) {
            if !self.tree.is_bare(&mut self.host, inode)? {
                return Ok(Outcome::Misused);
            }
            return self.drop_name(name);
        }
        self.drop_name(name)
    }

    // Takes a name out of the root that may be taken out.
    fn drop_name(&mut self, name: &[u8]) -> Result<Outcome, HostErr>
        requires backed { IsBacked (at self.old.files self.old.tree self.old.host.view) }
        requires may { MayDrop (shape_of self.old.tree self.old.host.view.forest) ROOT name.now }
        ensures { OnOk result (IsBacked (at self.new.files self.new.tree self.new.host.view)) }
    {
        let dropped = self.tree.drop_name(&mut self.host, ROOT, name, 1_000);
        answered(dropped.map(|()| Outcome::Done))
    }

    /// The inode and the size of what a descriptor refers to; none where it is not open, or is of no node.
    pub fn stat(&mut self, pid: u32, fd: u32) -> Result<Outcome, HostErr>
        requires { IsBacked (at self.old.files self.old.tree self.old.host.view) }
        ensures { OnOk result (IsBacked (at self.new.files self.new.tree self.new.host.view)) }
    {
        let Some(desc) = self.files.look(pid, fd) else {
            return Ok(Outcome::Absent);
        };
        let Some(inode) = desc.kind.inode() else {
            return Ok(Outcome::Absent);
        };
        let meta = self.tree.meta(&mut self.host, inode)?;
        Ok(Outcome::Node {
            inode,
            size: meta.size,
        })
    }

    /// Makes a node, and tells the number that the host gives it: the least that no node and no pipe has.
    pub fn make_node(&mut self) -> Result<u64, HostErr> {
        self.host.make(NodeKind::File)
    }
}

// What a call comes to that may be refused. A failure of the host stays one.
fn answered(call: Result<Outcome, CallErr>) -> Result<Outcome, HostErr>
    ensures { result ≡ answered Refused call }
{
    match call {
        Ok(outcome) => Ok(outcome),
        Err(CallErr::Errno(errno)) => Ok(Outcome::Refused(errno)),
        Err(CallErr::Host(error)) => Err(error),
    }
}

// Whether a descriptor is open and of a directory.
fn is_of_dir(files: &Files, pid: u32, fd: u32) -> bool
    ensures { result ≡ false →
        IfSome (description_at files.now.descriptors pid fd) (λ desc. is_of_dir desc.kind ≡ false) }
{
    match files.look(pid, fd) {
        Some(desc) => match desc.kind {
            DescKind::Dir(_) => true,
            DescKind::File(_)
            | DescKind::Device(_)
            | DescKind::PipeRead(_)
            | DescKind::PipeWrite(_)
            | DescKind::Input
            | DescKind::Stream(_) => false,
        },
        None => false,
    }
}

// The first index at which bytes are not those that are wanted, which are as many.
fn first_difference(found: &[u8], wanted: &[u8]) -> Option<usize> {
    for index in 0..found.len().min(wanted.len()) {
        if found[index] != wanted[index] {
            return Some(index);
        }
    }
    None
}

// Bytes that tell where they stand, from one of them on.
fn numbered(alloc: Global, from: usize, count: usize) -> Result<Vec<u8>, NoMemory> {
    let mut bytes = Vec::new(alloc);
    for offset in 0..count {
        bytes.push((from.wrapping_add(offset) % 251) as u8)?;
    }
    Ok(bytes)
}

// A description to read and write, at the start.
fn desc(kind: DescKind) -> Desc
    requires { IsKind kind }
    ensures kind { result.kind ≡ kind }
    ensures good { IsDesc result }
{
    let spot = match kind {
        DescKind::Dir(_) => Spot::After(None),
        DescKind::File(_)
        | DescKind::Device(_)
        | DescKind::PipeRead(_)
        | DescKind::PipeWrite(_)
        | DescKind::Input
        | DescKind::Stream(_) => Spot::At(0),
    };
    Desc {
        kind,
        spot,
        access: RDWR,
        append: false,
        nonblock: false,
    }
}
