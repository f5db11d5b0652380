// A host in memory, and the node or the pipe that the rows of a test are about.
ghost use Rattle.std.specs.Prelude.{◌≡◌, IfOk};
ghost use Rattle.dt_host.specs.World.{IsEmptyStart};
ghost use Rattle.dt_tests_host.specs.Subject.{IsOf};

use super::step::{Ask, DirCall, FileCall, Outcome, PipeCall};
use super::{ask, directory, file, pipe};
use dt_base::NoMemory;
use dt_host::{Host, HostErr, NodeKind};
use dt_memhost::{MemHost, Picker};
use std::alloc::Global;

/// What a host in memory goes by.
#[derive(Clone, Copy)]
pub struct Script<'a> {
    /// The words that it chooses by.
    pub words: &'a [u32],
    /// The number of the stream whose words come after those.
    pub stream: u64,
    /// The calls that fail, counted from 1.
    pub fails: &'a [u64],
}

impl Script<'_> {
    /// The host, before any call.
    pub fn host(&self, alloc: Global) -> Result<MemHost, HostErr>
        ensures { IfOk result (λ host. IsEmptyStart host.view) }
    {
        let words = Vec::from_slice(alloc, self.words)?;
        let fails = Vec::from_slice(alloc, self.fails)?;
        Ok(new_host(alloc, words, self.stream, fails)?)
    }
}

// A host that goes by this, before any call.
fn new_host(
    alloc: Global,
    words: Vec<u32>,
    stream: u64,
    fails: Vec<u64>,
) -> Result<MemHost, NoMemory>
    ensures { IfOk result (λ host. IsEmptyStart host.view) }
{
    MemHost::new(alloc, Picker::new(words, stream), fails)
}

/// What the rows of a test are about. The first call of the host makes it, or finds the root.
#[derive(Clone, Copy)]
pub enum At {
    Root,
    Dir,
    File,
    Pipe,
}

/// A host in memory, and the node or the pipe that the rows are about.
#[derive(Drop)]
pub struct Scene {
    pub host: MemHost,
    pub kind: NodeKind,
    pub number: u64,
    /// How many bytes a pipe holds at most.
    pub most: u64,
}

impl Scene {
    /// The host after its first call.
    pub fn new(alloc: Global, at: At, script: &Script<'_>) -> Result<Scene, HostErr>
        ensures { IfOk result (λ scene. IsOf scene.host.view scene.kind scene.number scene.most) }
    {
        let host = script.host(alloc)?;
        match at {
            At::Root => Scene::at_root(host),
            At::Dir => Scene::at_dir(host),
            At::File => Scene::at_file(host),
            At::Pipe => Scene::at_pipe(host),
        }
    }

    // The root of the host.
    fn at_root(mut host: MemHost) -> Result<Scene, HostErr>
        requires { IsEmptyStart host.view }
        ensures { IfOk result (λ scene. IsOf scene.host.view scene.kind scene.number scene.most) }
    {
        let number = host.root()?;
        Ok(Scene {
            host,
            kind: NodeKind::Dir,
            number,
            most: 0,
        })
    }

    // A new directory.
    fn at_dir(mut host: MemHost) -> Result<Scene, HostErr>
        ensures { IfOk result (λ scene. IsOf scene.host.view scene.kind scene.number scene.most) }
    {
        let number = host.make(NodeKind::Dir)?;
        Ok(Scene {
            host,
            kind: NodeKind::Dir,
            number,
            most: 0,
        })
    }

    // A new file.
    fn at_file(mut host: MemHost) -> Result<Scene, HostErr>
        ensures { IfOk result (λ scene. IsOf scene.host.view scene.kind scene.number scene.most) }
    {
        let number = host.make(NodeKind::File)?;
        Ok(Scene {
            host,
            kind: NodeKind::File,
            number,
            most: 0,
        })
    }

    // A new pipe.
    fn at_pipe(mut host: MemHost) -> Result<Scene, HostErr>
        ensures { IfOk result (λ scene. IsOf scene.host.view scene.kind scene.number scene.most) }
    {
        let number = pipe::make_pipe(&mut host)?;
        Ok(Scene {
            host,
            kind: NodeKind::Pipe,
            number,
            most: 0,
        })
    }

    /// Asks the host for something that it chooses.
    pub fn ask(&mut self, alloc: Global, call: Ask) -> Result<Outcome, HostErr>
        requires { IsOf self.old.host.view self.old.kind self.old.number self.old.most }
        ensures { IsOf self.new.host.view self.new.kind self.new.number self.new.most }
    {
        ask::answer(&mut self.host, alloc, call)
    }

    /// Does something in the directory.
    pub fn in_dir(&mut self, call: DirCall) -> Result<Outcome, HostErr>
        requires { IsOf self.old.host.view self.old.kind self.old.number self.old.most }
        ensures { IsOf self.new.host.view self.new.kind self.new.number self.new.most }
    {
        match &self.kind {
            NodeKind::Dir => directory::make(&mut self.host, self.number, call),
            NodeKind::File | NodeKind::Pipe | NodeKind::Link(_) | NodeKind::Device(_) => {
                Ok(Outcome::Misused)
            },
        }
    }

    /// Does something with the file.
    pub fn in_file(&mut self, alloc: Global, call: FileCall) -> Result<Outcome, HostErr>
        requires { IsOf self.old.host.view self.old.kind self.old.number self.old.most }
        ensures { IsOf self.new.host.view self.new.kind self.new.number self.new.most }
    {
        match &self.kind {
            NodeKind::File => file::make(&mut self.host, alloc, self.number, call),
            NodeKind::Dir | NodeKind::Pipe | NodeKind::Link(_) | NodeKind::Device(_) => {
                Ok(Outcome::Misused)
            },
        }
    }

    /// Does something with the pipe.
    pub fn in_pipe(&mut self, alloc: Global, call: PipeCall) -> Result<Outcome, HostErr>
        requires { IsOf self.old.host.view self.old.kind self.old.number self.old.most }
        ensures { IsOf self.new.host.view self.new.kind self.new.number self.new.most }
    {
        match &self.kind {
            NodeKind::Pipe => {
                pipe::make(&mut self.host, alloc, self.number, &mut self.most, call)
            }
            NodeKind::Dir | NodeKind::File | NodeKind::Link(_) | NodeKind::Device(_) => {
                Ok(Outcome::Misused)
            },
        }
    }
}
