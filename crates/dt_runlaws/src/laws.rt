// Laws of what was shown of a run: each call carries it on, and what was written is a prefix of the report.
ghost use Rattle.dt_runlaws.specs.Carried.{BeginShows, MayLendOwed, OwesAtHome, LendShows, LentIsAway, ReturnShows};
ghost use Rattle.dt_runlaws.specs.Carried.{AdmissionShows, HappeningsShow, NothingLent, VerdictShows, VerdictReports};
ghost use Rattle.dt_runlaws.specs.Carried.{BeginWrites, ShownIsPrefix, AdmissionWrites, HappeningsWrite, EndWrites};
ghost use Rattle.dt_runlaws.specs.Carried.{PrefixIsPart, PointsShow};

/// Before the first turn nothing was shown, and nothing is lent.
pub fn beginning_shows_nothing()
    ensures { BeginShows }
{}

/// A machine may be lent just where its process owes a segment and it is not lent.
pub fn machine_may_be_lent_where_its_process_owes()
    ensures { MayLendOwed }
{}

/// A process that owes a segment has its machine at home, unless that is lent.
pub fn process_that_owes_has_its_machine_at_home()
    ensures { OwesAtHome }
{}

/// Where a machine is lent what was shown stays so.
pub fn lending_shows_nothing()
    ensures { LendShows }
{}

/// A machine that is lent is not at home.
pub fn machine_that_is_lent_is_not_at_home()
    ensures { LentIsAway }
{}

/// Where a machine comes back from its segment what was shown stays so, also where its process has ended.
pub fn returning_shows_nothing()
    ensures { ReturnShows }
{}

/// An admission shows its events, whatever is lent.
pub fn admission_shows_its_events()
    ensures { AdmissionShows }
{}

/// Happenings show their events, where nothing is lent.
pub fn happenings_show_their_events()
    ensures { HappeningsShow }
{}

/// Where nothing is lent each live process has its machine at home.
pub fn with_nothing_lent_all_machines_are_at_home()
    ensures { NothingLent }
{}

/// Where a verdict stands everything was shown.
pub fn verdict_shows_everything()
    ensures { VerdictShows }
{}

/// Where a verdict stands the report is what was shown, the verdict and the tree.
pub fn verdict_ends_the_report()
    ensures { VerdictReports }
{}

/// A prefix of the first line is a prefix of the report.
pub fn first_line_is_a_prefix()
    ensures { BeginWrites }
{}

/// What was shown is a prefix of the report.
pub fn what_was_shown_is_a_prefix()
    ensures { ShownIsPrefix }
{}

/// What was shown, and behind it a prefix of what an admission shows, is a prefix of the report.
pub fn admission_writes_a_prefix()
    ensures { AdmissionWrites }
{}

/// What was shown, and behind it a prefix of what happenings show, is a prefix of the report, where nothing is lent.
pub fn happenings_write_a_prefix()
    ensures { HappeningsWrite }
{}

/// Where a verdict stands what was shown, and behind it a prefix of the verdict and the tree, is a prefix of the
/// report.
pub fn end_writes_a_prefix()
    ensures { EndWrites }
{}

/// What is such a prefix was added as a prefix of the report.
pub fn prefix_is_a_part_of_the_report()
    ensures { PrefixIsPart }
{}

/// Whatever the actions of a driver are, what was shown after them, and what is left then, is the run.
pub fn actions_show_the_first_of_a_run()
    ensures { PointsShow }
{}
