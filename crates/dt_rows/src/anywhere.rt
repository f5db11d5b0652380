// What a run tells of its words, on a store of which nothing may be known.
ghost use Rattle.std.specs.Prelude.{◌≡◌, ◌⊎◌, ℕ, List, Some, None, map, string_bytes, IsTrue};
ghost use Rattle.dt_base.specs.Command.{Words};
ghost use Rattle.dt_base.specs.Image.{ImageParts, IsImage};
ghost use Rattle.dt_host.specs.World.{IsEmptyStart};
ghost use Rattle.dt_options.specs.Options.{Form, form_of};
ghost use Rattle.dt_run.specs.declared.status.TheConstants.{WORDS_REFUSED, OUT_OF_MEMORY};
ghost use Rattle.dt_run.specs.Outcome.{status_of_outcome};
ghost use Rattle.dt_run.specs.Statuses.{is_run_status};
ghost use Rattle.dt_run.specs.Wanted.{outcome_on};

use crate::expect::same;
use crate::program::{HELLO_INDEX, RUN_HELLO, hello, strings};
use crate::twice::outside;
use dt_host::{Gate, Host, NoGate, Sink, Store};
use dt_run::{Outside, dettrace};
use std::test::Fail;
use std::thread::Threads;
use std::time::Clock;

// Runs what the words ask for. A run that was completed is one of the words on some image, both well formed, with some
// input, or steps with some commands, and the status is its own. (A demonstration is the same on each image.) Words that
// ask for nothing are refused, or memory is wanting: both add nothing to the report.
fn run<
    R: AllocGlobal + Clock + Threads + Sync,
    S: Store,
    H: Host + Send,
    O: Sink + Send,
    E: Sink,
    G: Gate + Sync,
>(rt: &R, words: &[String], met: &mut Outside<S, H, O, E>, gate: &G) -> u8
    requires { IsEmptyStart (H.view met.old.host) }
    ensures completed { IsTrue (is_run_status result) → (form : Form) × (image : ImageParts)
        × (input : List ℕ) × (commands : List Words) × (form_of (map string_bytes words.now) ≡ Some form) × IsImage image
        × (result ≡ status_of_outcome (outcome_on form (image, input) commands)) }
    ensures refused { form_of (map string_bytes words.now) ≡ None
        → ((result ≡ WORDS_REFUSED) ⊎ (result ≡ OUT_OF_MEMORY)) × (O.told met.new.out ≡ O.told met.old.out) }
{
    dettrace(
        rt,
        words,
        &mut met.store,
        &mut met.host,
        &mut met.out,
        &mut met.err,
        gate,
    )
}

/// The status of what the lines of a text ask for, at a host that holds nothing.
pub fn status_of<
    R: AllocGlobal + Clock + Threads + Sync,
    S: Store,
    H: Host + Send,
    O: Sink + Send,
    E: Sink,
>(rt: &R, words: &str, met: &mut Outside<S, H, O, E>) -> Result<u8, Fail>
    requires { IsEmptyStart (H.view met.old.host) }
{
    status_beside(rt, words, met, &NoGate)
}

/// The same, where the workers pass a gate.
pub fn status_beside<
    R: AllocGlobal + Clock + Threads + Sync,
    S: Store,
    H: Host + Send,
    O: Sink + Send,
    E: Sink,
    G: Gate + Sync,
>(rt: &R, words: &str, met: &mut Outside<S, H, O, E>, gate: &G) -> Result<u8, Fail>
    requires { IsEmptyStart (H.view met.old.host) }
{
    let words = strings(rt.alloc(), words)?;
    Ok(run(rt, &words, met, gate))
}

// The status of these words where `/hello` is the image's one file.
fn status_with_hello<R: AllocGlobal + Clock + Threads + Sync>(
    rt: &R,
    words: &str,
) -> Result<u8, Fail> {
    let program = hello(rt.alloc())?;
    let mut met = outside(rt.alloc(), 3, HELLO_INDEX, &program)?;
    status_of(rt, words, &mut met)
}

#[test]
fn a_completed_run_is_one_of_the_words_on_an_image(rt: HostRuntime) -> Result<(), Fail> {
    same(&rt, status_with_hello(&rt, RUN_HELLO)?, 0);
    same(&rt, status_with_hello(&rt, "run\nimg")?, 2);
    Ok(())
}
