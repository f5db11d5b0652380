// Where a path that a call is handed begins.
ghost use Rattle.std.specs.Prelude.{◌≡◌, IfOk};
ghost use Rattle.dt_host.specs.World.{IsDir};
ghost use Rattle.dt_callbase.specs.Scene.{description_of};
ghost use Rattle.dt_callbase.specs.Sound.{Sound, stage, scene};
ghost use Rattle.dt_callbase.specs.Start.{dir_of_description, start_of};
ghost use Rattle.dt_tree.specs.Table.{shape_of};

use crate::fs::Fs;
use dt_base::abi::{AT_FDCWD, low_word, signed_word};
use dt_base::{Caller, Errno, begins_with_slash};
use dt_fds::DescKind;
use dt_host::Host;
use dt_space::Space;
use dt_tree::ROOT;

// The directory that a descriptor refers to.
#[tactic(auto, using(crate::proofs::Described::is_there))]
fn dir_of_descriptor<H: Host>(
    fs: &Fs,
    host: &H,
    caller: &Caller,
    space: &Space,
    fd: u32,
) -> Result<u64, Errno>
    requires { Sound (stage fs.now (H.view host.now) caller.now space.now) }
    ensures value { result ≡ dir_of_description
        (description_of (scene (stage fs.now (H.view host.now) caller.now space.now)) fd) }
    ensures is_dir { IfOk result (IsDir (shape_of fs.now.tree (H.view host.now).forest)) }
{
    let Some(desc) = fs.files.look(caller.vpid, fd) else {
        return Err(Errno::BadF);
    };
    match desc.kind {
        DescKind::Dir(n) => Ok(n),
        DescKind::File(_)
        | DescKind::Device(_)
        | DescKind::PipeRead(_)
        | DescKind::PipeWrite(_)
        | DescKind::Input
        | DescKind::Stream(_) => Err(Errno::NotDir),
    }
}

/// Where a path is looked up first.
pub fn start_of<H: Host>(
    fs: &Fs,
    host: &H,
    caller: &Caller,
    space: &Space,
    dirfd: u64,
    path: &[u8],
) -> Result<u64, Errno>
    requires { Sound (stage fs.now (H.view host.now) caller.now space.now) }
    ensures value { result ≡ start_of
        (scene (stage fs.now (H.view host.now) caller.now space.now)) dirfd path.now }
    ensures is_dir { IfOk result (IsDir (shape_of fs.now.tree (H.view host.now).forest)) }
{
    if begins_with_slash(path) {
        return Ok(ROOT);
    }
    if signed_word(dirfd) == AT_FDCWD {
        return Ok(caller.cwd);
    }
    dir_of_descriptor(fs, host, caller, space, low_word(dirfd))
}
