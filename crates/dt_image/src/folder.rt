// Files of a folder of a store.
ghost use Rattle.std.specs.Prelude.{◌≡◌, ◌≤◌, Some, Err, IfOk, IfSome, string_bytes, vec_len};
ghost use Rattle.std.specs.FinMap.{get};
ghost use Rattle.dt_base.specs.declared.refusal.Refusal.{Refusal};
ghost use Rattle.dt_host.specs.Asks.{AsksOr};
ghost use Rattle.dt_host.specs.Store.{size_of};
ghost use Rattle.dt_image.specs.ImageOf.{name_below};
ghost use Rattle.dt_image.specs.inner.StoreFault.{image_err};

use dt_base::{FILE_LIMIT, ImageErr, Refusal};
use dt_host::{Store, StoreErr, store_whole};
use std::alloc::{AllocError, Global};

/// The store's name of a file in a folder.
pub fn name_below(alloc: Global, folder: &str, file: &str) -> Result<String, AllocError>
    ensures { IfOk result (λ name. string_bytes name ≡ name_below folder.now file.now) }
{
    format!(in alloc; "{folder}/{file}")
}

/// The size of a file of the store, if there is one.
pub fn size_in<S: Store>(store: &mut S, name: &str) -> Result<Option<u64>, ImageErr>
    ensures ok { IfSome (S.told store.old) (λ files. IfOk result (λ size. size ≡ size_of files name.now)) }
    ensures answered { (r : Refusal) → result ≡ Err (ImageErr.Refused r) → ⊥ }
    ensures asks { AsksOr S.told S.count ImageErr.Store store.old store.new result }
{
    match store.size(name) {
        Ok(size) => Ok(size),
        Err(error) => Err(image_err(error)),
    }
}

/// The bytes of a file of the store, by its size.
pub fn bytes_in<S: Store>(
    alloc: Global,
    store: &mut S,
    name: &str,
    size: u64,
) -> Result<Vec<u8>, ImageErr>
    requires there { IfSome (S.told store.old) (λ files. size_of files name.now ≡ Some size) }
    requires within { size ≤ FILE_LIMIT }
    ensures ok { IfSome (S.told store.old) (λ files. IfOk result (λ bytes. get files name.now ≡ Some bytes.items)) }
    ensures len { IfOk result (λ bytes. vec_len bytes ≡ size) }
    ensures answered { (r : Refusal) → result ≡ Err (ImageErr.Refused r) → ⊥ }
    ensures asks { AsksOr S.told S.count ImageErr.Store store.old store.new result }
{
    let mut bytes = vec![in alloc; 0; size as usize]?;
    match store_whole(store, name, &mut bytes) {
        Ok(()) => Ok(bytes),
        Err(error) => Err(image_err(error)),
    }
}

fn image_err(error: StoreErr) -> ImageErr
    ensures { result ≡ image_err error }
{
    match error {
        StoreErr::Failed => ImageErr::Store,
        StoreErr::NoMemory => ImageErr::NoMemory,
    }
}
