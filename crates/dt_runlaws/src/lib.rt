//! What follows from the contracts of a run in play, in whatever order its calls come: laws, and clients that show that
//! the laws suffice.
#![tactic(auto)]

mod driver;
mod few;
mod laws;
mod served;
mod version;

pub use driver::{Action, Driver, LentMachine, drive};
pub use few::{
    admission_shows_few_events, container_begins_with_few_processes, container_shows_few_events,
    each_turn_of_a_run_shows_few_events, launch_leaves_few_processes,
    run_begins_with_few_processes, run_keeps_few_processes, turn_of_run_shows_few_events,
    turn_shows_few_events,
};
pub use laws::{
    actions_show_the_first_of_a_run, admission_shows_its_events, admission_writes_a_prefix,
    beginning_shows_nothing, end_writes_a_prefix, first_line_is_a_prefix,
    happenings_show_their_events, happenings_write_a_prefix, lending_shows_nothing,
    machine_may_be_lent_where_its_process_owes, machine_that_is_lent_is_not_at_home,
    prefix_is_a_part_of_the_report, process_that_owes_has_its_machine_at_home,
    returning_shows_nothing, verdict_ends_the_report, verdict_shows_everything,
    what_was_shown_is_a_prefix, with_nothing_lent_all_machines_are_at_home,
};
pub use served::serve_among_few;
pub use version::{
    atomics_are_unknown_to_a_machine_without_them, each_state_of_a_run_keeps_the_version,
    first_version_has_what_it_had, no_machine_of_the_first_version_has_atomics,
    read_of_an_empty_input_answers_0, run_keeps_the_version_of_its_image,
    step_keeps_whether_there_are_atomics,
};
