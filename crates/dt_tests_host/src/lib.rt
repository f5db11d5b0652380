//! Tests of what lies between the calls of a guest and the host: the outside in memory, the virtual tree, open file
//! descriptions, images and the words of the command line.
#![tactic(auto)]

#[cfg(test)]
mod descriptors;
#[cfg(test)]
mod expect;
#[cfg(test)]
mod host;
#[cfg(test)]
mod image;
#[cfg(test)]
mod tree;
