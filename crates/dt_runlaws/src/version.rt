// Laws of what a run keeps of its image and its command, and of what images of the first version have.
ghost use Rattle.dt_runlaws.specs.Version.{RunsKeepVersion, StatesKeepVersion, FirstVersionHasNoAtomics};
ghost use Rattle.dt_runlaws.specs.Version.{AtomicsAreUnknown, StepsKeepAtomics, FirstVersionIs, EmptyInputIsAtItsEnd};

/// The tree that a run leaves keeps the version of the run's image.
pub fn run_keeps_the_version_of_its_image()
    ensures { RunsKeepVersion }
{}

/// In each state of a run the tree keeps the version of the image, the input is the command's, and each machine at home
/// has atomics just where the version has them.
pub fn each_state_of_a_run_keeps_the_version()
    ensures { StatesKeepVersion }
{}

/// In a run on an image of the first version no machine at home has atomics.
pub fn no_machine_of_the_first_version_has_atomics()
    ensures { FirstVersionHasNoAtomics }
{}

/// To a machine without atomics the word of each atomic is one that is unknown: a fault of SIGILL that leaves the machine.
pub fn atomics_are_unknown_to_a_machine_without_them()
    ensures { AtomicsAreUnknown }
{}

/// A step leaves whether a machine has atomics, and what one without them has reserved.
pub fn step_keeps_whether_there_are_atomics()
    ensures { StepsKeepAtomics }
{}

/// Images of the first version have the limits and the names of old: files of at most 16 MiB, no devices, no atomics, a
/// report that begins with 1, and no input where none is named.
pub fn first_version_has_what_it_had()
    ensures { FirstVersionIs }
{}

/// A read of the standard input where it is empty answers 0, and changes nothing but that the description is said to stand
/// where it stood.
pub fn read_of_an_empty_input_answers_0()
    ensures { EmptyInputIsAtItsEnd }
{}
