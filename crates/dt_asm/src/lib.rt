//! A small assembler of RV64IM: words of instructions, and guests as ELF files.
#![tactic(auto)]

mod classes;
mod code;
mod demo;
mod encoder;
mod error;
mod guest;
mod guests;
mod headers;
mod item;
mod labels;
mod loads;
mod shapes;

pub use demo::demo_image;
pub use encoder::encode;
pub use error::AsmErr;
pub use guest::Guest;
pub use guests::{cat1, first, hello, late, trio};
