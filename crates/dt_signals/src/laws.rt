// Laws of handlers.
ghost use Rattle.dt_signals.specs.Laws.{EntryLeavesItsFrame, ReturnGivesBack};

/// A handler's frame can be read from its start on.
pub fn entry_leaves_its_frame()
    ensures { EntryLeavesItsFrame }
{}

/// A return from a handler gives back what its entry kept.
pub fn return_gives_back_what_the_entry_kept()
    ensures { ReturnGivesBack }
{}
