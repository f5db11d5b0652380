// The blob that is named as standard input.
ghost use Rattle.std.specs.Prelude.{◌≡◌, ◌≢◌, ◌≤◌, List, [], ℕ, None, Some, Err, Ok, Option, IfOk, IfSome, length, option_map};
ghost use Rattle.dt_base.specs.declared.limits.TheConstants.{FILE_LIMIT as MOST};
ghost use Rattle.dt_base.specs.declared.refusal.Refusal.{Refusal};
ghost use Rattle.dt_host.specs.Asks.{AsksOr};
ghost use Rattle.dt_host.specs.Store.{size_of};
ghost use Rattle.dt_image.specs.ImageOf.{name_below, named_input};
ghost use Rattle.dt_image.specs.inner.Input.{HasInputSize};

use crate::folder::{bytes_in, name_below, size_in};
use crate::index::is_blob_name;
use dt_base::{Blob, FILE_LIMIT, ImageErr, Refusal};
use dt_host::Store;
use std::alloc::Global;

/// The size of the blob that is named; 0 where none is.
pub(crate) fn input_size<S: Store>(
    alloc: Global,
    store: &mut S,
    folder: &str,
    input: Option<&str>,
) -> Result<u64, ImageErr>
    ensures ok { IfSome (S.told store.old) (λ held.
        IfOk result (HasInputSize held folder.now (option_map (λ name. name.now) input.entry))) }
    ensures within { IfOk result (λ size. size ≤ MOST) }
    ensures refused { (r : Refusal) → result ≡ Err (ImageErr.Refused r) → IfSome (S.told store.old)
        (λ held. named_input held folder.now (option_map (λ name. name.now) input.entry) ≡ Err r) }
    ensures no_steps { result ≢ Err (ImageErr.Refused Refusal.BadSteps) }
    ensures asks { AsksOr S.told S.count ImageErr.Store store.old store.new result }
{
    let _before = store.faults();
    let Some(blob) = input else {
        return Ok(0);
    };
    if !is_blob_name(blob.as_bytes()) {
        return Err(ImageErr::Refused(Refusal::NoInput));
    }
    let name = name_below(alloc, folder, blob)?;
    match size_in(store, name.as_str())? {
        None => Err(ImageErr::Refused(Refusal::NoInput)),
        Some(size) if size > FILE_LIMIT => Err(ImageErr::Refused(Refusal::InputBig)),
        Some(size) => Ok(size),
    }
}

/// The bytes of the blob that is named, which has that size; none where no blob is.
pub(crate) fn read_input<S: Store>(
    alloc: Global,
    store: &mut S,
    folder: &str,
    input: Option<&str>,
    size: u64,
) -> Result<Blob, ImageErr>
    requires size { IfSome (S.told store.old)
        (λ held. HasInputSize held folder.now (option_map (λ name. name.now) input) size) }
    requires within { size ≤ MOST }
    ensures ok { IfSome (S.told store.old) (λ held.
        IfOk result (λ bytes. named_input held folder.now (option_map (λ name. name.now) input.entry) ≡ Ok bytes)) }
    ensures unnamed { input.entry ≡ None → IfOk result (λ bytes. bytes ≡ []) }
    ensures answered { (r : Refusal) → result ≡ Err (ImageErr.Refused r) → ⊥ }
    ensures asks { AsksOr S.told S.count ImageErr.Store store.old store.new result }
{
    let _before = store.faults();
    let Some(blob) = input else {
        return Ok(Blob::new(Vec::new(alloc)));
    };
    let name = name_below(alloc, folder, blob)?;
    Ok(Blob::new(bytes_in(alloc, store, name.as_str(), size)?))
}
