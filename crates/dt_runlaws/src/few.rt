// Laws of how much a turn shows: at most 65 events, at most one of them an output, of at most 0x7ffff000 bytes, as many
// as one call moves. Where these laws say that processes are few, they say too that each task is that of a live one.
ghost use Rattle.dt_runlaws.specs.Few.{ProcessTurnsShowFew, ContainersBeginFew, LaunchesLeaveFew, ContainersShowFew};
ghost use Rattle.dt_runlaws.specs.FewRun.{StatesShowFew, FirstStatesHaveFew, AdmissionsShowFew, PlayingsKeepFew, RunsShowFew};

/// A turn of a process that has a task shows few events and leaves few processes, where there are few before it.
pub fn turn_shows_few_events()
    ensures { ProcessTurnsShowFew }
{}

/// At first a container has few processes.
pub fn container_begins_with_few_processes()
    ensures { ContainersBeginFew }
{}

/// Once a program was launched in it, or could not be started, a container has few processes, if it had few before and
/// process 1 had a task.
pub fn launch_leaves_few_processes()
    ensures { LaunchesLeaveFew }
{}

/// After each stop that was served a container has few processes, and its last turn showed few events, if it had few
/// processes before.
pub fn container_shows_few_events()
    ensures { ContainersShowFew }
{}

/// A turn of a run that has few processes shows few events and leaves few processes.
pub fn turn_of_run_shows_few_events()
    ensures { StatesShowFew }
{}

/// Before its first turn each run has few processes.
pub fn run_begins_with_few_processes()
    ensures { FirstStatesHaveFew }
{}

/// An admission to a run that has few processes shows few events and leaves few processes, whichever machines are lent.
pub fn admission_shows_few_events()
    ensures { AdmissionsShowFew }
{}

/// A run that has few processes has few still after a machine was lent, after one came back with the segment that it
/// ran, and after happenings.
pub fn run_keeps_few_processes()
    ensures { PlayingsKeepFew }
{}

/// Each turn that a run takes shows few events.
pub fn each_turn_of_a_run_shows_few_events()
    ensures { RunsShowFew }
{}
