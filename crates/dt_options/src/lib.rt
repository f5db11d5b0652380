//! The words of the command line, read into what they ask for.
#![tactic(auto)]

mod options;

pub use options::{
    DemoOptions, ExportOptions, Options, RunOptions, StepsOptions, UsageErr, WORKERS_LIMIT,
    read_options,
};
