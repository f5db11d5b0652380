// Two runs of the same words on the same files agree, whatever hosts and streams they have.
ghost use Rattle.std.specs.Prelude.{◌≡◌, ◌⊎◌, map, string_bytes, IsSome, IsTrue};
ghost use Rattle.dt_host.specs.World.{IsEmptyStart};
ghost use Rattle.dt_options.specs.Options.{form_of};
ghost use Rattle.dt_run.specs.declared.status.TheConstants.{WORDS_REFUSED, STORE_FAULT, OUT_OF_MEMORY};
ghost use Rattle.dt_engine.specs.HoldsTree.{HoldSame};
ghost use Rattle.dt_run.specs.SomeRun.{AddsExportText};
ghost use Rattle.dt_run.specs.Exports.{MayPut};
ghost use Rattle.dt_run.specs.Statuses.{is_run_status, precedes_run, precedes_export};
ghost use Rattle.dt_run.specs.Agree.{AskTheSame, is_decided, AddAlike, AddLineAlike, IsCaused};

use crate::top::dettrace;
use dt_host::{Gate, Host, Sink, Store};
use std::thread::Threads;
use std::time::Clock;

/// What a run meets outside: the store of its image, the host that keeps its nodes, and the streams for the report and
/// for the error line.
#[derive(Drop)]
pub struct Outside<S, H, O, E> {
    pub store: S,
    pub host: H,
    pub out: O,
    pub err: E,
}

/// Runs what the words ask for twice, at two hosts that hold nothing, on stores that tell the same files; the answers
/// are the two statuses. Each run has words of its own, which may differ in the number of workers and in the number that
/// disturbs the host.
///
/// The contract says only in what two runs agree, in words that need no machine, no call and no schedule, but for the
/// report of an export whose store failed. What a run does is the contract of `dettrace`: a body that ran nothing and
/// answered 0 twice would meet this one.
pub fn run_twice<
    R: AllocGlobal + Clock + Threads + Sync,
    S: Store,
    T: Store,
    H: Host + Send,
    I: Host + Send,
    O: Sink + Send,
    P: Sink + Send,
    E: Sink,
    F: Sink,
    G: Gate + Sync,
>(
    rt: &R,
    words: &[String],
    other_words: &[String],
    first: &mut Outside<S, H, O, E>,
    second: &mut Outside<T, I, P, F>,
    gate: &G,
) -> (u8, u8)
    requires first { IsEmptyStart (H.view first.old.host) }
    requires second { IsEmptyStart (I.view second.old.host) }
    requires known { IsSome (S.told first.old.store) }
    requires same { T.told second.old.store ≡ S.told first.old.store }
    requires request { AskTheSame (map string_bytes words.now) (map string_bytes other_words.now) }

    // Where both statuses are decided they are equal. Words that are refused are refused again, unless memory is
    // wanting.
    ensures status { IsTrue (is_decided result.0) → IsTrue (is_decided result.1) → result.0 ≡ result.1 }
    ensures refused { (result.0 ≡ WORDS_REFUSED → (result.1 ≡ WORDS_REFUSED) ⊎ (result.1 ≡ OUT_OF_MEMORY))
        × (result.1 ≡ WORDS_REFUSED → (result.0 ≡ WORDS_REFUSED) ⊎ (result.0 ≡ OUT_OF_MEMORY)) }

    // Whatever fails, prefixes of the same bytes are added, at 2 and 3 none of them, and at 4 none, or all that is written
    // before an export.
    ensures report { AddAlike result.0 result.1
        (O.told first.old.out) (O.told first.new.out) (P.told second.old.out) (P.told second.new.out) }
    ensures nothing { (IsTrue (precedes_run result.0) → O.told first.new.out ≡ O.told first.old.out)
        × (IsTrue (precedes_run result.1) → P.told second.new.out ≡ P.told second.old.out) }
    ensures stored { result.0 ≡ STORE_FAULT → (O.told first.new.out ≡ O.told first.old.out)
        ⊎ AddsExportText (S.told first.old.store) (map string_bytes words.now)
        (O.told first.old.out) (O.told first.new.out) }
    ensures other_stored { result.1 ≡ STORE_FAULT → (P.told second.new.out ≡ P.told second.old.out)
        ⊎ AddsExportText (T.told second.old.store) (map string_bytes other_words.now)
        (P.told second.old.out) (P.told second.new.out) }

    // Where both statuses are decided the error streams get the same line.
    ensures line { IsTrue (is_decided result.0) → IsTrue (is_decided result.1) → AddLineAlike
        (E.told first.old.err) (E.told first.new.err) (E.count first.old.err) (E.count first.new.err)
        (F.told second.old.err) (F.told second.new.err) (F.count second.old.err) (F.count second.new.err) }

    // After runs that were completed both hosts hold the same names, kinds, bytes and targets, and both stores the same
    // files.
    ensures tree { IsTrue (is_run_status result.0) → IsTrue (is_run_status result.1)
        → HoldSame (H.view first.new.host).forest (I.view second.new.host).forest }

    ensures files { IsTrue (is_run_status result.0) → IsTrue (is_run_status result.1)
        → S.told first.new.store ≡ T.told second.new.store }

    // A status that is not decided has its cause, or memory was wanting. The stores are only read, but that exports may
    // put indices and blobs into their folders, unless they are refused.
    ensures caused { IsCaused result.0 (S.count first.old.store) (S.count first.new.store)
        (H.count first.old.host) (H.count first.new.host) (O.count first.old.out) (O.count first.new.out) }
    ensures other_caused { IsCaused result.1 (T.count second.old.store) (T.count second.new.store)
        (I.count second.old.host) (I.count second.new.host) (P.count second.old.out) (P.count second.new.out) }
    ensures keeps { MayPut (form_of (map string_bytes words.now))
        (S.told first.old.store) (S.told first.new.store) }
    ensures other_keeps { MayPut (form_of (map string_bytes other_words.now))
        (T.told second.old.store) (T.told second.new.store) }
    ensures untouched { (IsTrue (precedes_export result.0) → S.told first.new.store ≡ S.told first.old.store)
        × (IsTrue (precedes_export result.1) → T.told second.new.store ≡ T.told second.old.store) }
{
    let one = dettrace(
        rt,
        words,
        &mut first.store,
        &mut first.host,
        &mut first.out,
        &mut first.err,
        gate,
    );
    let other = dettrace(
        rt,
        other_words,
        &mut second.store,
        &mut second.host,
        &mut second.out,
        &mut second.err,
        gate,
    );
    (one, other)
}
