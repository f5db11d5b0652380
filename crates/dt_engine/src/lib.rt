//! A run in play: its turns, and what it shows.
//!
//! An `Engine` lends machines, takes them back with their segments run, and admits turns. What it shows is what the
//! definition of a run says, in whatever order that is done.
#![tactic(auto)]

mod engine;
mod error;
mod happening;
mod laws;
mod play;
mod start;
mod state;
pub mod status;
mod turn;

pub use engine::Engine;
pub use error::RunErr;
pub use happening::{Admitted, Happening};
pub use laws::{
    admission_shows_the_first_of_what_is_left, all_of_a_run_is_left_at_first,
    happenings_come_to_turns, happenings_show_the_first_of_what_is_left,
    machine_that_comes_back_has_run_its_segment, machine_that_comes_back_leaves_as_much,
    machine_that_is_away_stays_away, machine_that_is_lent_is_away, report_is_its_parts,
    run_is_a_turn_and_the_run_from_there, running_ahead_again_changes_nothing,
    runs_do_not_see_what_ran_ahead, turn_does_not_see_machines_that_are_away,
    turn_does_not_see_what_ran_ahead,
};
