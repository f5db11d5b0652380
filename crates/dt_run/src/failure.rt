// Why there is no whole report: its line on the error stream, and its exit status.
ghost use Rattle.std.specs.Prelude.{◌≡◌};
ghost use Rattle.dt_run.specs.Failure.{failure_status, failure_line};
ghost use Rattle.dt_run.specs.declared.failure.Failure.TheVariants.{NoMemory as OutOfMemory};

use crate::status::{
    EXPORT_REFUSED, HOST_FAULT, IMAGE_REFUSED, OUT_OF_MEMORY, OUTPUT_FAULT, STORE_FAULT,
    WORDS_REFUSED,
};
use dt_base::{ImageErr, NoMemory, Refusal};
use dt_engine::RunErr;
use dt_export::{ExportErr, ExportRefusal};
use dt_host::{HostErr, StoreErr};
use dt_options::UsageErr;
use dt_steps::StepsErr;
use std::alloc::AllocError;

/// Why there is no whole report, no export after it, or no image between two steps.
#[derive(Clone, Copy, Debug, PartialEq, Eq)]
pub enum Failure {
    /// The words of the command line are refused.
    Usage,
    /// The image is refused.
    Image(Refusal),
    /// The export is refused, or between two steps the image of the tree.
    Export(ExportRefusal),
    /// The store failed.
    Store,
    /// The host failed.
    Host,
    /// The sink of the report failed.
    Output,
    /// Memory ran out.
    NoMemory,
}

impl Failure {
    /// The status that the program ends with.
    pub fn status(self) -> u8
        ensures { result ≡ failure_status self }
    {
        match self {
            Failure::Usage => WORDS_REFUSED,
            Failure::Image(_) => IMAGE_REFUSED,
            Failure::Export(_) => EXPORT_REFUSED,
            Failure::Store => STORE_FAULT,
            Failure::Host => HOST_FAULT,
            Failure::Output => OUTPUT_FAULT,
            Failure::NoMemory => OUT_OF_MEMORY,
        }
    }

    /// The line on the error stream. It takes no memory, since that may be what is wanting.
    pub fn line(self) -> &'static str
        ensures { result.now ≡ failure_line self }
    {
        match self {
            Failure::Usage =>
                "dettrace: usage: dettrace run IMAGE [--seed N] [--budget N] [--workers N] \
                [--host N] [--stdin NAME] -- [NAME=VALUE ..] PROGRAM [ARG ..]\n",
            Failure::Image(refusal) => image_line(refusal),
            Failure::Export(refusal) => export_line(refusal),
            Failure::Store => "dettrace: store fault\n",
            Failure::Host => "dettrace: host fault\n",
            Failure::Output => "dettrace: output fault\n",
            Failure::NoMemory => "dettrace: out of memory\n",
        }
    }
}

fn image_line(refusal: Refusal) -> &'static str
    ensures { result.now ≡ failure_line (Failure.Image refusal) }
{
    match refusal {
        Refusal::NoIndex => "dettrace: image refused: 1 NoIndex\n",
        Refusal::BadIndex => "dettrace: image refused: 2 BadIndex\n",
        Refusal::BadPath => "dettrace: image refused: 3 BadPath\n",
        Refusal::Twice => "dettrace: image refused: 4 Twice\n",
        Refusal::NoParent => "dettrace: image refused: 5 NoParent\n",
        Refusal::NoBlob => "dettrace: image refused: 6 NoBlob\n",
        Refusal::TooBig => "dettrace: image refused: 7 TooBig\n",
        Refusal::TooMany => "dettrace: image refused: 8 TooMany\n",
        Refusal::NoInput => "dettrace: image refused: 9 NoInput\n",
        Refusal::InputBig => "dettrace: image refused: 10 InputBig\n",
        Refusal::BadSteps => "dettrace: image refused: 11 BadSteps\n",
    }
}

fn export_line(refusal: ExportRefusal) -> &'static str
    ensures { result.now ≡ failure_line (Failure.Export refusal) }
{
    match refusal {
        ExportRefusal::Exists => "dettrace: export refused: 1 Exists\n",
        ExportRefusal::LongPath => "dettrace: export refused: 2 LongPath\n",
        ExportRefusal::TooMany => "dettrace: export refused: 3 TooMany\n",
        ExportRefusal::NotText => "dettrace: export refused: 4 NotText\n",
        ExportRefusal::BigIndex => "dettrace: export refused: 5 BigIndex\n",
    }
}

impl From<UsageErr> for Failure {
    ghost use Rattle.dt_run.specs.inner.Failures.{failure_of_usage};

    ghost from_gives = { λ e f. f ≡ failure_of_usage e };

    fn from(e: UsageErr) -> Self {
        match e {
            UsageErr::Refused => Failure::Usage,
            UsageErr::NoMemory => Failure::NoMemory,
        }
    }
}

impl From<ImageErr> for Failure {
    ghost use Rattle.dt_run.specs.inner.Failures.{failure_of_image};

    ghost from_gives = { λ e f. f ≡ failure_of_image e };

    fn from(e: ImageErr) -> Self {
        match e {
            ImageErr::Refused(refusal) => Failure::Image(refusal),
            ImageErr::Store => Failure::Store,
            ImageErr::NoMemory => Failure::NoMemory,
        }
    }
}

impl From<RunErr> for Failure {
    ghost use Rattle.dt_run.specs.inner.Failures.{failure_of_run};

    ghost from_gives = { λ e f. f ≡ failure_of_run e };

    fn from(e: RunErr) -> Self {
        match e {
            RunErr::Host => Failure::Host,
            RunErr::Sink => Failure::Output,
            RunErr::NoMemory => Failure::NoMemory,
        }
    }
}

impl From<ExportErr> for Failure {
    ghost use Rattle.dt_run.specs.inner.Failures.{failure_of_export};

    ghost from_gives = { λ e f. f ≡ failure_of_export e };

    fn from(e: ExportErr) -> Self {
        match e {
            ExportErr::Refused(refusal) => Failure::Export(refusal),
            ExportErr::Host => Failure::Host,
            ExportErr::NoMemory => Failure::NoMemory,
        }
    }
}

impl From<StepsErr> for Failure {
    ghost use Rattle.dt_run.specs.inner.Failures.{failure_of_steps};

    ghost from_gives = { λ e f. f ≡ failure_of_steps e };

    fn from(e: StepsErr) -> Self {
        match e {
            StepsErr::Run(e) => Failure::from(e),
            StepsErr::LongPath => Failure::Export(ExportRefusal::LongPath),
            StepsErr::TooMany => Failure::Export(ExportRefusal::TooMany),
        }
    }
}

impl From<StoreErr> for Failure {
    ghost use Rattle.dt_run.specs.inner.Failures.{failure_of_store};

    ghost from_gives = { λ e f. f ≡ failure_of_store e };

    fn from(e: StoreErr) -> Self {
        match e {
            StoreErr::Failed => Failure::Store,
            StoreErr::NoMemory => Failure::NoMemory,
        }
    }
}

impl From<HostErr> for Failure {
    ghost use Rattle.dt_run.specs.inner.Failures.{failure_of_host};

    ghost from_gives = { λ e f. f ≡ failure_of_host e };

    fn from(e: HostErr) -> Self {
        match e {
            HostErr::Failed => Failure::Host,
            HostErr::NoMemory => Failure::NoMemory,
        }
    }
}

impl From<AllocError> for Failure {
    ghost from_gives = { λ _ f. f ≡ OutOfMemory };

    fn from(_: AllocError) -> Self {
        Failure::NoMemory
    }
}

impl From<NoMemory> for Failure {
    ghost from_gives = { λ _ f. f ≡ OutOfMemory };

    fn from(_: NoMemory) -> Self {
        Failure::NoMemory
    }
}
