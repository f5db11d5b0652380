// Laws of turns and runs: what the order in which segments are run cannot change.
ghost use Rattle.dt_engine.specs.Ahead.{TurnAhead, RanAhead, TurnAway, RunsAlike};
ghost use Rattle.dt_engine.specs.Left.{ReportByParts, HappeningsLeave, AdmissionLeaves, AwayStays, LendLeaves, ReturnLeaves};
ghost use Rattle.dt_engine.specs.Lent.{ReturnRuns};
ghost use Rattle.dt_engine.specs.Played.{PlayedTurns};
ghost use Rattle.dt_engine.specs.Playing.{RestAtFirst};
ghost use Rattle.dt_engine.specs.Run.{RunByTurns};

/// A run is a turn and, unless that is the last one, the run from there.
pub fn run_is_a_turn_and_the_run_from_there()
    ensures { RunByTurns }
{}

/// A turn after segments ran ahead of it is the turn.
pub fn turn_does_not_see_what_ran_ahead()
    ensures { TurnAhead }
{}

/// One segment more leaves what running ahead gives.
pub fn running_ahead_again_changes_nothing()
    ensures { RanAhead }
{}

/// A turn sees no machine of another process.
pub fn turn_does_not_see_machines_that_are_away()
    ensures { TurnAway }
{}

/// Runs from states that are the same once all segments were run are the same.
pub fn runs_do_not_see_what_ran_ahead()
    ensures { RunsAlike }
{}

/// Before the first turn all of a run is left.
pub fn all_of_a_run_is_left_at_first()
    ensures { RestAtFirst }
{}

/// Which segments are run when, and between which turns, changes nothing that a run shows.
pub fn happenings_come_to_turns()
    ensures { PlayedTurns }
{}

/// A machine that was lent and comes back from its segment has run that of its process.
pub fn machine_that_comes_back_has_run_its_segment()
    ensures { ReturnRuns }
{}

/// A report is its first line, what the run shows, and its end.
pub fn report_is_its_parts()
    ensures { ReportByParts }
{}

/// What happenings show, and what is left after them, was left before.
pub fn happenings_show_the_first_of_what_is_left()
    ensures { HappeningsLeave }
{}

/// What an admission shows, and what is left after it, was left before, also where machines are away.
pub fn admission_shows_the_first_of_what_is_left()
    ensures { AdmissionLeaves }
{}

/// What is away before a turn is away after it, unless all processes have ended.
pub fn machine_that_is_away_stays_away()
    ensures { AwayStays }
{}

/// A machine that is lent is one more that is away.
pub fn machine_that_is_lent_is_away()
    ensures { LendLeaves }
{}

/// Where a machine comes back from its segment as much is left of the run as before.
pub fn machine_that_comes_back_leaves_as_much()
    ensures { ReturnLeaves }
{}
