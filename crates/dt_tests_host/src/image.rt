//! Images, the texts of a report and the words of the command line.

pub mod folder;
mod images;
mod limits;
mod reports;
mod words;
