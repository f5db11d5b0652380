// The folder that an export goes to.
ghost use Rattle.std.specs.Prelude.{◌≡◌, IfOk, IfSome};
ghost use Rattle.dt_host.specs.Asks.{AsksOr};
ghost use Rattle.dt_host.specs.declared.error.StoreErr.{StoreErr};
ghost use Rattle.dt_export.specs.ExportedFiles.{has_index};

use dt_host::{Store, StoreErr};
use dt_image::name_below;
use std::alloc::Global;

/// Whether a folder of a store has an index already.
pub fn has_index<S: Store>(alloc: Global, store: &mut S, folder: &str) -> Result<bool, StoreErr>
    ensures ok { IfSome (S.told store.old) (λ files. IfOk result (λ found. found ≡ has_index files folder.now)) }
    ensures asks { AsksOr S.told S.count StoreErr.Failed store.old store.new result }
{
    let name = name_below(alloc, folder, "image.json")?;
    Ok(store.size(name.as_str())?.is_some())
}
