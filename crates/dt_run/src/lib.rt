//! A run: from words, a store and a host to a report.
//!
//! `dettrace` is the call that the program makes. Its clauses say that what is written is the report of one
//! function of the image, the command, the seed and the budget, whatever the host chooses.
#![tactic(auto)]

mod demo;
mod export;
mod failure;
mod listed;
mod run;
pub mod status;
mod top;
mod twice;

pub use dt_engine::{
    Admitted, Engine, Happening, RunErr, admission_shows_the_first_of_what_is_left,
    all_of_a_run_is_left_at_first, happenings_come_to_turns,
    happenings_show_the_first_of_what_is_left, machine_that_comes_back_has_run_its_segment,
    machine_that_comes_back_leaves_as_much, machine_that_is_away_stays_away,
    machine_that_is_lent_is_away, report_is_its_parts, run_is_a_turn_and_the_run_from_there,
    running_ahead_again_changes_nothing, runs_do_not_see_what_ran_ahead,
    turn_does_not_see_machines_that_are_away, turn_does_not_see_what_ran_ahead,
};
pub use failure::Failure;
pub use run::run_container;
pub use top::{dettrace, write_failure};
pub use twice::{Outside, run_twice};
