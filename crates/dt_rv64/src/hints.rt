// What is kept from step to step so that the next is fast.
use crate::memo::Memo;
use dt_space::PageHint;

/// Where pages of code and of data were found last, and what words stand for. It belongs to whoever runs segments. Any
/// hints may be used with any machine, and no answer depends on them.
#[derive(Debug, Drop)]
pub struct Hints {
    pub code: PageHint,
    pub data: PageHint,
    pub memo: Memo,
}

impl Hints {
    /// Hints of nothing yet. No clause says which they are, since any are right.
    pub fn new() -> Self {
        Hints {
            code: PageHint::new(),
            data: PageHint::new(),
            memo: Memo::new(),
        }
    }
}
