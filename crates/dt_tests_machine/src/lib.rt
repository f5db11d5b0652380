//! Tests of the machine and of what lies below it: memory and its calls, executables and their first stacks,
//! instructions, the assembler, logical time and seeded words.
#![tactic(auto)]

#[cfg(test)]
mod assembler;
#[cfg(test)]
mod atomic_vectors;
#[cfg(test)]
mod atomics;
#[cfg(test)]
mod boards;
#[cfg(test)]
mod breaks;
#[cfg(test)]
mod clocks;
#[cfg(test)]
mod crews;
#[cfg(test)]
mod encodings;
#[cfg(test)]
mod expect;
#[cfg(test)]
mod files;
#[cfg(test)]
mod guests;
#[cfg(test)]
mod instructions;
#[cfg(test)]
mod limits;
#[cfg(test)]
mod machines;
#[cfg(test)]
mod mappings;
#[cfg(test)]
mod ranges;
#[cfg(test)]
mod refusals;
#[cfg(test)]
mod rights;
#[cfg(test)]
mod running;
#[cfg(test)]
mod segments;
#[cfg(test)]
mod sharing;
#[cfg(test)]
mod sizes;
#[cfg(test)]
mod spaces;
#[cfg(test)]
mod stacks;
#[cfg(test)]
mod standards;
#[cfg(test)]
mod vectors;
#[cfg(test)]
mod workers;
