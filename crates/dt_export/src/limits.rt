// The limits that the paths of an image keep.
ghost use Rattle.std.specs.Prelude.{◌≡◌, nat_lt, length, map};
ghost use Rattle.std.specs.List.{list_any};
ghost use Rattle.dt_base.specs.declared.limits.TheConstants.{PATH_LIMIT};
ghost use Rattle.dt_export.specs.ExportedImage.{path_refusal};
ghost use Rattle.dt_image.specs.Paths.{path_pair};

use crate::refusal::ExportRefusal;
use dt_base::{ENTRY_LIMIT, PATH_LIMIT};
use dt_image::TreePath;

/// Why no image has these paths; None where one may have them.
pub fn path_refusal(paths: &[TreePath]) -> Option<ExportRefusal>
    ensures { result ≡ path_refusal (map path_pair paths.now) }
{
    if has_long_path(paths) {
        return Some(ExportRefusal::LongPath);
    }
    if paths.len() as u64 > ENTRY_LIMIT {
        return Some(ExportRefusal::TooMany);
    }
    None
}

// A path has more bytes than a path may have.
fn has_long_path(paths: &[TreePath]) -> bool
    ensures { result ≡ list_any (λ at. nat_lt PATH_LIMIT (length at.path)) paths.now }
{
    paths.iter().any(|at| at.path.len() as u64 > PATH_LIMIT)
}
