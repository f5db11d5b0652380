//! Tests of whole calls of the program that need code: two runs, a number for the host, a store of which nothing is
//! known, the first fault, steps with a cache, want of memory, and a turn beside a segment.
#![tactic(auto)]

#[cfg(test)]
mod anywhere;
#[cfg(test)]
mod beside;
#[cfg(test)]
mod choices;
#[cfg(test)]
mod expect;
#[cfg(test)]
mod first;
#[cfg(test)]
mod memory;
#[cfg(test)]
mod program;
#[cfg(test)]
mod steps;
#[cfg(test)]
mod twice;
