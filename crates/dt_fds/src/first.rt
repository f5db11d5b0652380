// The open files of a container's first process.
ghost use Rattle.std.specs.Prelude.{◌≡◌, ℕ, IfOk, OnOk};
ghost use Rattle.std.specs.FinMap.{empty};
ghost use Rattle.dt_host.specs.World.{Forest};
ghost use Rattle.dt_host.specs.World.{PipeContents};
ghost use Rattle.dt_pipes.specs.Table.{Stands};
ghost use Rattle.dt_pipes.specs.declared.pipe.TheConstants.{FIRST_PIPE};
ghost use Rattle.dt_fds.specs.Ends.{AreCounted};
ghost use Rattle.dt_fds.specs.Pipes.{PipesView};
ghost use Rattle.dt_fds.specs.Backs.{AllIn, AllEnds, descriptions_of};
ghost use Rattle.dt_fds.specs.Descriptions.{IsDesc, first_desc, first_files, with_opened_lowest, readers, writers};

use crate::desc::{Desc, DescKind, Spot};
use crate::descriptors::Descriptors;
use crate::files::Files;
use dt_base::NoMemory;
use dt_base::abi::{O_RDONLY, O_WRONLY};
use dt_pipes::Pipes;
use dt_tables::Numbered;
use std::alloc::Global;

impl Files {
    /// The open files of the first process: descriptor 0 is the input, 1 and 2 are the output streams. There is no
    /// pipe.
    pub fn first(alloc: Global, pid: u32) -> Result<Files, NoMemory>
        ensures files { IfOk result (λ files. files.descriptors ≡ first_files pid) }
        ensures nodes { IfOk result (λ files. (n : ℕ) → descriptions_of files.descriptors n ≡ 0) }
        ensures all_in { IfOk result (λ files. (v : Forest) → AllIn v files.descriptors) }
        ensures all_ends { IfOk result (λ files. (pipes : PipesView) → AllEnds pipes files.descriptors) }
        ensures no_pipes { IfOk result (λ files. files.pipes.pipes ≡ empty) }
        ensures next { IfOk result (λ files. files.pipes.next ≡ FIRST_PIPE) }
        ensures counted { IfOk result (λ files. AreCounted files.descriptors files.ends) }
        ensures stands { IfOk result (λ files. (host : PipeContents) → host ≡ empty → Stands files.pipes host) }
    {
        let descriptors = Descriptors::first(alloc, pid)?;
        Ok(Files {
            descriptors,
            pipes: Pipes::new(alloc),
            ends: Numbered::new(alloc),
        })
    }
}

impl Descriptors {
    // The descriptors of the first process.
    #[tactic(auto, unfolding(crate::specs::Descriptions::first_files))]
    fn first(alloc: Global, pid: u32) -> Result<Descriptors, NoMemory>
        ensures files { IfOk result (λ files. files ≡ first_files pid) }
        ensures nodes { IfOk result (λ files. (n : ℕ) → descriptions_of files n ≡ 0) }
        ensures all_in { IfOk result (λ files. (v : Forest) → AllIn v files) }
        ensures all_ends { IfOk result (λ files. (pipes : PipesView) → AllEnds pipes files) }
        ensures reading { IfOk result (λ files. (q : ℕ) → readers files q ≡ 0) }
        ensures writing { IfOk result (λ files. (q : ℕ) → writers files q ≡ 0) }
    {
        let mut files = Descriptors::none(alloc, pid)?;
        files.enter_lowest(pid, first_desc(DescKind::Input, O_RDONLY as u8))?;
        files.enter_lowest(pid, first_desc(DescKind::Stream(1), O_WRONLY as u8))?;
        files.enter_lowest(pid, first_desc(DescKind::Stream(2), O_WRONLY as u8))?;
        Ok(files)
    }

    // Opens a description under the lowest free descriptor, if there is one.
    #[tactic(auto, unfolding(crate::specs::Descriptions::with_opened_lowest))]
    fn enter_lowest(&mut self, pid: u32, desc: Desc) -> Result<(), NoMemory>
        requires { IsDesc desc }
        ensures { OnOk result (self.new ≡ with_opened_lowest pid desc self.old) }
    {
        match self.free(pid, 0) {
            Some(fd) => self.enter(pid, fd, desc, false),
            None => Ok(()),
        }
    }
}

// A description of the input or of a stream.
fn first_desc(kind: DescKind, access: u8) -> Desc
    ensures { result ≡ first_desc kind access }
{
    Desc {
        kind,
        spot: Spot::At(0),
        access,
        append: false,
        nonblock: false,
    }
}
