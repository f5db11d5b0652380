// The whole input of a step.
ghost use Rattle.std.specs.Prelude.{◌≡◌};
ghost use Rattle.std.specs.Bool.{Decides};

use dt_base::{Blob, Command, Entry, Image, What};

/// All that a step's run depends on. The budget is counted in steps of the machine.
#[derive(Drop)]
pub struct StepInput {
    pub image: Image,
    pub command: Command,
    pub seed: u64,
    pub budget: u64,
}

impl StepInput {
    // Whether it is the same input.
    pub(crate) fn is_same(&self, other: &StepInput) -> bool
        ensures { Decides result (self.now ≡ other.now) }
    {
        self.seed == other.seed
            && self.budget == other.budget
            && is_same_command(&self.command, &other.command)
            && is_same_image(&self.image, &other.image)
    }
}

fn is_same_command(a: &Command, b: &Command) -> bool
    ensures { Decides result (a.now ≡ b.now) }
{
    are_same_words(a.args(), b.args()) && are_same_words(a.env(), b.env()) && a.input() == b.input()
}

fn are_same_words(a: &[Blob], b: &[Blob]) -> bool
    ensures { Decides result (a.now ≡ b.now) }
{
    a == b
}

fn is_same_image(a: &Image, b: &Image) -> bool
    ensures { Decides result (a.now ≡ b.now) }
{
    a.version() == b.version() && are_same_entries(a.entries(), b.entries())
}

fn are_same_entries(a: &[Entry], b: &[Entry]) -> bool
    ensures { Decides result (a.now ≡ b.now) }
{
    if a.len() != b.len() {
        return false;
    }
    for i in 0..a.len() {
        if !is_same_entry(&a[i], &b[i]) {
            return false;
        }
    }
    true
}

fn is_same_entry(a: &Entry, b: &Entry) -> bool
    ensures { Decides result (a.now ≡ b.now) }
{
    a.mode == b.mode && a.path == b.path && is_same_what(&a.what, &b.what)
}

fn is_same_what(a: &What, b: &What) -> bool
    ensures { Decides result (a.now ≡ b.now) }
{
    match (a, b) {
        (What::File(a), What::File(b)) => a == b,
        (What::Link(a), What::Link(b)) => a == b,
        (What::Dir, What::Dir) => true,
        (What::Dev(a), What::Dev(b)) => a == b,
        _ => false,
    }
}
