//! Tables of values by number, which contracts see as finite maps; and the laws of finite maps after a change.
#![tactic(auto)]

mod numbered;

pub use numbered::Numbered;
