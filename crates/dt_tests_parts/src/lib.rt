//! Tests of calls below the run, and of one that is in play: the queue in whole schedules, happenings in any order, a
//! container's machine, copies of plain values, and numbers.
#![tactic(auto)]

#[cfg(test)]
mod adapters;
#[cfg(test)]
mod calls;
#[cfg(test)]
mod container;
#[cfg(test)]
mod copies;
#[cfg(test)]
mod deadlocks;
#[cfg(test)]
mod driver;
#[cfg(test)]
mod engine;
#[cfg(test)]
mod expect;
#[cfg(test)]
mod happenings;
#[cfg(test)]
mod limits;
#[cfg(test)]
mod many;
#[cfg(test)]
mod numbers;
#[cfg(test)]
mod trio;
