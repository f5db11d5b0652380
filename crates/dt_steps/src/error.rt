// Why steps came to no status.
ghost use Rattle.std.specs.Prelude.{◌≡◌};
ghost use Rattle.dt_engine.specs.declared.error.RunErr.TheVariants.{NoMemory as OutOfMemory};
ghost use Rattle.dt_steps.specs.declared.error.StepsErr.TheVariants.{Run as run_failed};
ghost use Rattle.dt_steps.specs.inner.Errors.{steps_err_of_none};

use crate::step::NoImage;
use dt_base::NoMemory;
use dt_engine::RunErr;
use thiserror::Error;

/// Why steps came to no status: a run was not completed, or between two steps the tree has no image.
#[derive(Clone, Copy, Debug, PartialEq, Eq, Error)]
pub enum StepsErr {
    #[error("{0}")]
    Run(RunErr),
    #[error("a path is longer than a path may be")]
    LongPath,
    #[error("there are more paths than an image may have entries")]
    TooMany,
}

impl From<RunErr> for StepsErr {
    ghost from_gives = { λ e r. r ≡ run_failed e };

    fn from(e: RunErr) -> Self {
        StepsErr::Run(e)
    }
}

impl From<NoMemory> for StepsErr {
    ghost from_gives = { λ _ r. r ≡ run_failed OutOfMemory };

    fn from(_: NoMemory) -> Self {
        StepsErr::Run(RunErr::NoMemory)
    }
}

impl From<NoImage> for StepsErr {
    ghost from_gives = { λ none r. r ≡ steps_err_of_none none };

    fn from(none: NoImage) -> Self {
        match none {
            NoImage::LongPath => StepsErr::LongPath,
            NoImage::TooMany => StepsErr::TooMany,
        }
    }
}
