// Laws of what the table says.
ghost use Rattle.dt_procs.specs.Laws.{WaitFindsTheLowest};

/// Of the zombies that are asked for a wait finds the one of the lowest pid.
pub fn wait_finds_the_lowest()
    ensures { WaitFindsTheLowest }
{}
