// How a run in play begins and how its report ends.
ghost use Rattle.std.specs.Prelude.{◌≡◌, [], ◌++◌, true, false, Some, IsSome, IfSome, IfOk, OnOk, IsErrOf};
ghost use Rattle.std.specs.FinMap.{empty};
ghost use Rattle.dt_base.specs.declared.limits.TheConstants.{FIRST_PID as FIRST};
ghost use Rattle.dt_host.specs.Asks.{Asks};
ghost use Rattle.dt_host.specs.Cause.{HasCause};
ghost use Rattle.dt_host.specs.Sink.{added, AddsPart};
ghost use Rattle.dt_host.specs.World.{IsEmptyStart};
ghost use Rattle.dt_image.specs.Report.{header};
ghost use Rattle.dt_procs.specs.Members.{end_of};
ghost use Rattle.dt_procs.specs.Table.{members_of};
ghost use Rattle.dt_sched.specs.Core.{over_core};
ghost use Rattle.dt_tree.specs.Table.{Stands};
ghost use Rattle.dt_calls.specs.InCode.{shared_of};
ghost use Rattle.dt_calls.specs.Sound.{IsSoundContainer};
ghost use Rattle.dt_engine.specs.Run.{status_by};
ghost use Rattle.dt_engine.specs.Playing.{first_playing, last_text};
ghost use Rattle.dt_engine.specs.InPlay.{playing_of, IsFull, IsInPlay};

use crate::engine::Engine;
use crate::error::RunErr;
use crate::state::State;
use crate::status::{ENDED_OTHERWISE, ENDED_ZERO, NOT_ENDED};
use dt_base::{Command, End, FIRST_PID, Image, NoMemory, Verdict};
use dt_calls::{Container, Launch};
use dt_host::{Host, HostErr, Sink, sink_all};
use dt_image::{header, tree_lines, verdict_text};
use dt_sched::Core;
use dt_tables::Numbered;
use std::alloc::Global;

impl State {
    /// A run that is over before its first turn.
    pub fn over(
        alloc: Global,
        container: Container,
        budget: u64,
        verdict: Verdict,
    ) -> Result<Self, NoMemory>
        ensures { IfOk result (λ s. s
            ≡ record { container = container; core = over_core budget verdict; stops = empty }) }
    {
        Ok(State {
            container,
            core: Core::over(alloc, budget, verdict)?,
            stops: Numbered::new(alloc),
        })
    }
}

impl Engine {
    /// Installs an image at a host that holds nothing, launches a command in it, and writes the report's first line.
    /// Where the program can't be started a verdict stands at once. `budget` is counted in steps.
    pub fn begin<H: Host, O: Sink>(
        alloc: Global,
        host: &mut H,
        out: &mut O,
        image: &Image,
        command: &Command,
        seed: u64,
        budget: u64,
    ) -> Result<Self, RunErr>
        requires { IsEmptyStart (H.view host.old) }
        ensures run { IfOk result
            (λ e. first_playing image.now command.now seed budget ≡ playing_of e (H.view host.new)) }
        ensures wrote { OnOk result (O.told out.new ≡ added (O.told out.old) (header image.now.version)) }
        ensures part { AddsPart (O.told out.old) (O.told out.new) (header image.now.version) }
        ensures whole { IfOk result (λ e. IsInPlay e) }
        ensures sound { IfOk result (λ e. IsSoundContainer e.state.container (H.view host.new)) }
        ensures full { IfOk result (λ e. let begun = playing_of e (H.view host.new) in IsFull begun.state) }
        ensures open { IfOk result (λ e. e.finished ≡ false) }
        ensures host { HasCause (H.count host.old) (H.count host.new) (IsErrOf result RunErr.Host) }
        ensures sink { HasCause (O.count out.old) (O.count out.new) (IsErrOf result RunErr.Sink) }
    {
        let _before = out.faults();
        let engine = Engine::start(alloc, host, image, command, seed, budget)?;
        let first = header(alloc, image.version())?;
        sink_all(out, first.as_slice())?;
        Ok(engine)
    }

    // Installs an image and launches a command in it.
    fn start<H: Host>(
        alloc: Global,
        host: &mut H,
        image: &Image,
        command: &Command,
        seed: u64,
        budget: u64,
    ) -> Result<Self, HostErr>
        requires { IsEmptyStart (H.view host.old) }
        ensures run { IfOk result
            (λ e. first_playing image.now command.now seed budget ≡ playing_of e (H.view host.new)) }
        ensures whole { IfOk result (λ e. IsInPlay e) }
        ensures sound { IfOk result (λ e. IsSoundContainer e.state.container (H.view host.new)) }
        ensures full { IfOk result (λ e. let begun = playing_of e (H.view host.new) in IsFull begun.state) }
        ensures open { IfOk result (λ e. e.finished ≡ false) }
        ensures cause { HasCause (H.count host.old) (H.count host.new) (IsErrOf result HostErr.Failed) }
    {
        let mut container = Container::install(alloc, host, image, seed)?;
        match container.launch(host, command)? {
            Launch::Started => Ok(Engine {
                alloc,
                state: State::new(alloc, container, budget)?,
                verdict: None,
                finished: false,
            }),
            Launch::NoStart(errno) => {
                let verdict = Verdict::NoStart(errno);
                Ok(Engine {
                    alloc,
                    state: State::over(alloc, container, budget, verdict)?,
                    verdict: Some(verdict),
                    finished: false,
                })
            }
        }
    }

    /// Writes the end of the report, once, where the run is over. The answer is the status of the program.
    pub fn finish<H: Host, O: Sink>(&mut self, host: &mut H, out: &mut O) -> Result<u8, RunErr>
        requires over { IsSome self.old.verdict }
        requires open { self.old.finished ≡ false }
        requires sound { IsSoundContainer self.old.state.container (H.view host.old) }
        ensures status { IfOk result
            (λ status. status ≡ status_by (end_of (members_of self.old.state.container.shared.pids) FIRST)) }
        ensures wrote { OnOk result (IfSome self.old.verdict (λ verdict. O.told out.new ≡ added (O.told out.old)
            (last_text verdict (shared_of self.old.state.container.shared (H.view host.old))))) }
        ensures part { IfSome self.old.verdict (λ verdict. AddsPart (O.told out.old) (O.told out.new)
            (last_text verdict (shared_of self.old.state.container.shared (H.view host.old)))) }
        ensures finished { OnOk result (self.new ≡ record self.old { finished = true }) }
        ensures stays { H.view host.new ≡ H.view host.old }
        ensures host { HasCause (H.count host.old) (H.count host.new) (IsErrOf result RunErr.Host) }
        ensures sink { HasCause (O.count out.old) (O.count out.new) (IsErrOf result RunErr.Sink) }
    {
        let _before = (host.faults(), out.faults());
        let Some(verdict) = self.verdict else {
            unreachable!()
        };
        let text = last_text(self.alloc, host, &verdict, &self.state.container)?;
        sink_all(out, &text)?;
        self.finished = true;
        Ok(status_by(self.state.container.end(FIRST_PID)))
    }
}

// The verdict's line and the lines of the tree.
fn last_text<H: Host>(
    alloc: Global,
    host: &mut H,
    verdict: &Verdict,
    container: &Container,
) -> Result<Vec<u8>, HostErr>
    requires { Stands container.now.shared.fs.tree (H.view host.old).forest }
    ensures ok { IfOk result (λ text. text.items
        ≡ last_text verdict.now (shared_of container.now.shared (H.view host.old))) }
    ensures asks { Asks H.view H.count host.old host.new result }
{
    let verdict = verdict_text(alloc, verdict)?;
    let tree = tree_lines(alloc, host, container.tree())?;
    let mut text = Vec::from_slice(alloc, verdict.as_slice())?;
    text.extend_from_slice(tree.as_slice())?;
    Ok(text)
}

// The status of a run by its first process's end.
fn status_by(end: Option<End>) -> u8
    ensures { result ≡ status_by end }
{
    match end {
        Some(End::Code(0)) => ENDED_ZERO,
        Some(_) => ENDED_OTHERWISE,
        None => NOT_ENDED,
    }
}
