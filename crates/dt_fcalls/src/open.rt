//! The call that opens files and directories (openat(2)).
ghost use Rattle.std.specs.Prelude.{◌≡◌, ◌≤◌, None, false, IfOk, OnOk, IsTrue};
ghost use Rattle.dt_base.specs.Path.{has_no_nul};
ghost use Rattle.dt_fds.specs.Backs.{IsIn};
ghost use Rattle.dt_fds.specs.Descriptions.{IsDesc, pipe_of};
ghost use Rattle.dt_host.specs.Asks.{Asks};
ghost use Rattle.dt_base.specs.declared.limits.TheConstants.{MODE_LIMIT as MOST};
ghost use Rattle.dt_fcalls.specs.inner.Steps.{Steps};
ghost use Rattle.dt_host.specs.World.{Forest, IsFile, IsDir, IsDevice, IsLive};
ghost use Rattle.dt_tree.specs.Calls.{IsNewName};
ghost use Rattle.dt_tree.specs.Table.{Stands, shape_of, tree_of};
ghost use Rattle.dt_fcalls.specs.Open.{access_of, is_exclusive, open_rule, desc_of, file_desc, dir_desc, device_desc, open_reply};
ghost use Rattle.dt_fcalls.specs.Open.{file_creation, create_reply, open_missing_reply, open_refusal, file_truncation};
ghost use Rattle.dt_fcalls.specs.Open.{truncate_reply, open_found_reply};
ghost use Rattle.dt_fcalls.specs.Open.{open_at_reply, is_full, place_of_path, open_path_reply, openat_row};
ghost use Rattle.dt_callbase.specs.Places.{IsFound};
ghost use Rattle.dt_callbase.specs.Sound.{Sound, HasRowReply, HasReplyOf, stage, scene};

use dt_base::abi::{
    O_ACCMODE, O_APPEND, O_CLOEXEC, O_CREAT, O_DIRECTORY, O_EXCL, O_LARGEFILE, O_NOCTTY,
    O_NOFOLLOW, O_NONBLOCK, O_RDONLY, O_RDWR, O_TRUNC, O_WRONLY, has_flag, low_word,
};
use dt_base::{Answer, Blob, Caller, Errno, MODE_LIMIT, What};
use dt_callbase::{Fs, LastLink, masked_mode, start_of, walk_from};
use dt_fds::{Desc, DescKind, Spot};
use dt_host::{CallErr, Host, HostErr};
use dt_space::{Space, path_argument};
use dt_tree::Tree;
use dt_walk::Place;
use std::alloc::Global;

/// The flags that openat(2) takes. O_NOCTTY and O_LARGEFILE have no effect.
pub const OPEN_FLAGS: u32 = O_WRONLY
    | O_RDWR
    | O_CREAT
    | O_EXCL
    | O_NOCTTY
    | O_TRUNC
    | O_APPEND
    | O_NONBLOCK
    | O_LARGEFILE
    | O_DIRECTORY
    | O_NOFOLLOW
    | O_CLOEXEC;

// The access mode.
fn access_of(flags: u32) -> u8
    ensures value { result ≡ access_of flags }
    ensures few { result ≤ O_ACCMODE }
{
    (flags & O_ACCMODE) as u8
}

// Whether only a new file is opened.
fn is_exclusive(flags: u32) -> bool
    ensures { result ≡ is_exclusive flags }
{
    has_flag(flags, O_CREAT) && has_flag(flags, O_EXCL)
}

// What becomes of a link that is the last name.
fn open_rule(flags: u32) -> LastLink
    ensures { result ≡ open_rule flags }
{
    if is_exclusive(flags) {
        LastLink::Keep
    } else if has_flag(flags, O_NOFOLLOW) {
        LastLink::KeepWithoutSlash
    } else {
        LastLink::Follow
    }
}

// A description as these flags ask for it.
fn desc_of(kind: DescKind, spot: Spot, flags: u32) -> Desc
    ensures { result ≡ desc_of kind spot flags }
{
    Desc {
        kind,
        spot,
        access: access_of(flags),
        append: has_flag(flags, O_APPEND),
        nonblock: has_flag(flags, O_NONBLOCK),
    }
}

// Opens a description under the lowest free descriptor, and answers that.
#[tactic(auto, using(crate::proofs::Kept::holding_kept))]
fn open_desc<H: Host>(
    fs: &mut Fs,
    host: &H,
    caller: &Caller,
    space: &Space,
    desc: Desc,
    flags: u32,
) -> Result<Answer, HostErr>
    requires sound { Sound (stage fs.old (H.view host.now) caller.now space.now) }
    requires good { IsDesc desc }
    requires there { IsIn (shape_of fs.old.tree (H.view host.now).forest) desc.kind }
    requires no_end { pipe_of desc.kind ≡ None }
    ensures { HasReplyOf (open_reply flags desc) (stage fs.old (H.view host.now) caller.now space.now)
        (stage fs.new (H.view host.now) caller.now space.now) result (H.count host.now) (H.count host.now) }
{
    match fs.files.add(
        host,
        &mut fs.tree,
        caller.vpid,
        desc,
        has_flag(flags, O_CLOEXEC),
    ) {
        Ok(fd) => Ok(Answer::Value(u64::from(fd))),
        Err(CallErr::Errno(errno)) => Ok(Answer::Refused(errno)),
        Err(CallErr::Host(error)) => Err(error),
    }
}

// Opens a file at its start.
fn open_file<H: Host>(
    fs: &mut Fs,
    host: &H,
    caller: &Caller,
    space: &Space,
    flags: u32,
    n: u64,
) -> Result<Answer, HostErr>
    requires sound { Sound (stage fs.old (H.view host.now) caller.now space.now) }
    requires file { IsFile (shape_of fs.old.tree (H.view host.now).forest) n }
    requires access { access_of flags ≤ 2 }
    ensures { HasReplyOf (open_reply flags (file_desc flags n)) (stage fs.old (H.view host.now) caller.now space.now)
        (stage fs.new (H.view host.now) caller.now space.now) result (H.count host.now) (H.count host.now) }
{
    let desc = desc_of(DescKind::File(n), Spot::At(0), flags);
    open_desc(fs, host, caller, space, desc, flags)
}

// Opens a directory at the start of its listing.
fn open_dir<H: Host>(
    fs: &mut Fs,
    host: &H,
    caller: &Caller,
    space: &Space,
    flags: u32,
    n: u64,
) -> Result<Answer, HostErr>
    requires sound { Sound (stage fs.old (H.view host.now) caller.now space.now) }
    requires directory { IsDir (shape_of fs.old.tree (H.view host.now).forest) n }
    requires access { access_of flags ≤ 2 }
    ensures { HasReplyOf (open_reply flags (dir_desc flags n)) (stage fs.old (H.view host.now) caller.now space.now)
        (stage fs.new (H.view host.now) caller.now space.now) result (H.count host.now) (H.count host.now) }
{
    let desc = desc_of(DescKind::Dir(n), Spot::After(None), flags);
    open_desc(fs, host, caller, space, desc, flags)
}

// Opens a device.
fn open_device<H: Host>(
    fs: &mut Fs,
    host: &H,
    caller: &Caller,
    space: &Space,
    flags: u32,
    n: u64,
) -> Result<Answer, HostErr>
    requires sound { Sound (stage fs.old (H.view host.now) caller.now space.now) }
    requires device { IsDevice (shape_of fs.old.tree (H.view host.now).forest) n }
    requires access { access_of flags ≤ 2 }
    ensures { HasReplyOf (open_reply flags (device_desc flags n)) (stage fs.old (H.view host.now) caller.now space.now)
        (stage fs.new (H.view host.now) caller.now space.now) result (H.count host.now) (H.count host.now) }
{
    let desc = desc_of(DescKind::Device(n), Spot::At(0), flags);
    open_desc(fs, host, caller, space, desc, flags)
}

fn make_file<H: Host>(
    alloc: Global,
    fs: &mut Fs,
    host: &mut H,
    caller: &Caller,
    space: &Space,
    place: &Place,
    mode: u32,
) -> Result<Result<u64, Errno>, HostErr>
    requires sound { Sound (stage fs.old (H.view host.old) caller.now space.now) }
    requires new { IsNewName (tree_of fs.old.tree (H.view host.old).forest) place.now.parent place.now.name }
    requires mode { mode ≤ MOST }
    ensures step { Steps (file_creation mode place.now) (stage fs.old (H.view host.old) caller.now space.now)
        (stage fs.new (H.view host.new) caller.now space.now) result (H.count host.old) (H.count host.new) }
    ensures file { IfOk result (λ made. IfOk made (IsFile (shape_of fs.new.tree (H.view host.new).forest))) }
{
    let stamp = fs.next_stamp();
    let what = What::File(Blob::new(Vec::new(alloc)));
    match fs.tree.make_node(
        host,
        place.parent,
        place.name.as_slice(),
        &what,
        mode,
        stamp,
    ) {
        Ok(n) => {
            fs.clock.stamp();
            Ok(Ok(n))
        }
        Err(CallErr::Errno(errno)) => Ok(Err(errno)),
        Err(CallErr::Host(error)) => Err(error),
    }
}

// Makes a file at a place, and opens it.
#[tactic(auto, using(crate::proofs::Kept::goes_on))]
fn create<H: Host>(
    alloc: Global,
    fs: &mut Fs,
    host: &mut H,
    caller: &Caller,
    space: &Space,
    flags: u32,
    mode: u32,
    place: &Place,
) -> Result<Answer, HostErr>
    requires sound { Sound (stage fs.old (H.view host.old) caller.now space.now) }
    requires new { IsNewName (tree_of fs.old.tree (H.view host.old).forest) place.now.parent place.now.name }
    requires access { access_of flags ≤ 2 }
    ensures { HasReplyOf (create_reply flags mode place.now) (stage fs.old (H.view host.old) caller.now space.now)
        (stage fs.new (H.view host.new) caller.now space.now) result (H.count host.old) (H.count host.new) }
{
    let _before = host.faults();
    let mode = masked_mode(mode & MODE_LIMIT, caller.umask);
    match make_file(alloc, fs, host, caller, space, place, mode)? {
        Ok(n) => open_file(fs, host, caller, space, flags, n),
        Err(errno) => Ok(Answer::Refused(errno)),
    }
}

// Opens a path at whose place there is nothing.
fn open_missing<H: Host>(
    alloc: Global,
    fs: &mut Fs,
    host: &mut H,
    caller: &Caller,
    space: &Space,
    flags: u32,
    mode: u32,
    place: &Place,
) -> Result<Answer, HostErr>
    requires sound { Sound (stage fs.old (H.view host.old) caller.now space.now) }
    requires place { IsFound (shape_of fs.old.tree (H.view host.old).forest) place.now }
    requires missing { place.now.node ≡ None }
    requires access { access_of flags ≤ 2 }
    ensures { HasReplyOf (open_missing_reply flags mode place.now) (stage fs.old (H.view host.old) caller.now space.now)
        (stage fs.new (H.view host.new) caller.now space.now) result (H.count host.old) (H.count host.new) }
{
    let _before = host.faults();
    if !has_flag(flags, O_CREAT) {
        return Ok(Answer::Refused(Errno::NoEnt));
    }
    if place.slash {
        return Ok(Answer::Refused(Errno::IsDir));
    }
    create(alloc, fs, host, caller, space, flags, mode, place)
}

// Why a node is not opened, if so.
fn open_refusal(tree: &Tree, flags: u32, n: u64) -> Option<Errno>
    ensures { (v : Forest) → Stands tree.now v → result ≡ open_refusal (shape_of tree.now v) flags n }
{
    if is_exclusive(flags) {
        return Some(Errno::Exist);
    }
    if tree.is_link(n) {
        return Some(Errno::Loop);
    }
    if tree.is_dir(n)
        && (u32::from(access_of(flags)) != O_RDONLY
            || has_flag(flags, O_CREAT)
            || has_flag(flags, O_TRUNC))
    {
        return Some(Errno::IsDir);
    }
    if !tree.is_dir(n) && has_flag(flags, O_DIRECTORY) {
        return Some(Errno::NotDir);
    }
    None
}

// Cuts a file to no bytes.
fn cut_file<H: Host>(
    fs: &mut Fs,
    host: &mut H,
    caller: &Caller,
    space: &Space,
    n: u64,
) -> Result<Result<(), Errno>, HostErr>
    requires sound { Sound (stage fs.old (H.view host.old) caller.now space.now) }
    requires file { IsFile (shape_of fs.old.tree (H.view host.old).forest) n }
    ensures step { Steps (file_truncation n) (stage fs.old (H.view host.old) caller.now space.now)
        (stage fs.new (H.view host.new) caller.now space.now) result (H.count host.old) (H.count host.new) }
    ensures file { OnOk result (IsFile (shape_of fs.new.tree (H.view host.new).forest) n) }
{
    let stamp = fs.next_stamp();
    match fs.tree.cut(host, n, 0, stamp) {
        Ok(()) => {
            fs.clock.stamp();
            Ok(Ok(()))
        }
        Err(CallErr::Errno(errno)) => Ok(Err(errno)),
        Err(CallErr::Host(error)) => Err(error),
    }
}

// Cuts a file to no bytes, and opens it.
#[tactic(auto, using(crate::proofs::Kept::goes_on))]
fn cut_and_open<H: Host>(
    fs: &mut Fs,
    host: &mut H,
    caller: &Caller,
    space: &Space,
    flags: u32,
    n: u64,
) -> Result<Answer, HostErr>
    requires sound { Sound (stage fs.old (H.view host.old) caller.now space.now) }
    requires file { IsFile (shape_of fs.old.tree (H.view host.old).forest) n }
    requires access { access_of flags ≤ 2 }
    ensures { HasReplyOf (truncate_reply flags n) (stage fs.old (H.view host.old) caller.now space.now)
        (stage fs.new (H.view host.new) caller.now space.now) result (H.count host.old) (H.count host.new) }
{
    let _before = host.faults();
    match cut_file(fs, host, caller, space, n)? {
        Ok(()) => open_file(fs, host, caller, space, flags, n),
        Err(errno) => Ok(Answer::Refused(errno)),
    }
}

// Opens a node, unless there is a reason not to.
fn open_node<H: Host>(
    fs: &mut Fs,
    host: &mut H,
    caller: &Caller,
    space: &Space,
    flags: u32,
    n: u64,
) -> Result<Answer, HostErr>
    requires sound { Sound (stage fs.old (H.view host.old) caller.now space.now) }
    requires live { IsLive (shape_of fs.old.tree (H.view host.old).forest) n }
    requires access { access_of flags ≤ 2 }
    ensures { HasReplyOf (open_found_reply flags n) (stage fs.old (H.view host.old) caller.now space.now)
        (stage fs.new (H.view host.new) caller.now space.now) result (H.count host.old) (H.count host.new) }
{
    let _before = host.faults();
    if let Some(errno) = open_refusal(&fs.tree, flags, n) {
        return Ok(Answer::Refused(errno));
    }
    if fs.tree.is_dir(n) {
        return open_dir(fs, host, caller, space, flags, n);
    }
    if fs.tree.device(n).is_some() {
        return open_device(fs, host, caller, space, flags, n);
    }
    if has_flag(flags, O_TRUNC) {
        return cut_and_open(fs, host, caller, space, flags, n);
    }
    open_file(fs, host, caller, space, flags, n)
}

// Opens what stands at the place of a path, or makes it.
fn open_place<H: Host>(
    alloc: Global,
    fs: &mut Fs,
    host: &mut H,
    caller: &Caller,
    space: &Space,
    flags: u32,
    mode: u32,
    place: &Place,
) -> Result<Answer, HostErr>
    requires sound { Sound (stage fs.old (H.view host.old) caller.now space.now) }
    requires place { IsFound (shape_of fs.old.tree (H.view host.old).forest) place.now }
    requires access { access_of flags ≤ 2 }
    ensures { HasReplyOf (open_at_reply flags mode place.now place.now.node)
        (stage fs.old (H.view host.old) caller.now space.now)
        (stage fs.new (H.view host.new) caller.now space.now) result (H.count host.old) (H.count host.new) }
{
    match place.node {
        Some(n) => open_node(fs, host, caller, space, flags, n),
        None => open_missing(alloc, fs, host, caller, space, flags, mode, place),
    }
}

// The place of a path that is to be opened.
#[tactic(auto, unfolding(crate::specs::Open::place_of_path))]
fn place_of_path<H: Host>(
    alloc: Global,
    fs: &Fs,
    host: &mut H,
    caller: &Caller,
    space: &Space,
    dirfd: u64,
    flags: u32,
    path: &[u8],
) -> Result<Result<Place, Errno>, HostErr>
    requires sound { Sound (stage fs.now (H.view host.old) caller.now space.now) }
    requires no_nul { IsTrue (has_no_nul path.now) }
    ensures place { IfOk result (λ found. found
        ≡ place_of_path (scene (stage fs.now (H.view host.old) caller.now space.now)) dirfd flags path.now) }
    ensures found { IfOk result (λ found.
        IfOk found (IsFound (shape_of fs.now.tree (H.view host.old).forest))) }
    ensures asks { Asks H.view H.count host.old host.new result }
{
    let _before = host.faults();
    match start_of(fs, host, caller, space, dirfd, path) {
        Ok(start) => walk_from(alloc, &fs.tree, host, start, path, open_rule(flags)),
        Err(errno) => Ok(Err(errno)),
    }
}

// Opens what a path led to.
#[tactic(auto, unfolding(crate::specs::Open::open_path_reply), using(crate::proofs::Kept::in_other_words))]
fn open_found<H: Host>(
    alloc: Global,
    fs: &mut Fs,
    host: &mut H,
    caller: &Caller,
    space: &Space,
    dirfd: u64,
    flags: u32,
    mode: u32,
    path: &[u8],
    found: Result<Place, Errno>,
) -> Result<Answer, HostErr>
    requires sound { Sound (stage fs.old (H.view host.old) caller.now space.now) }
    requires free { is_full (scene (stage fs.old (H.view host.old) caller.now space.now)) ≡ false }
    requires value { found
        ≡ place_of_path (scene (stage fs.old (H.view host.old) caller.now space.now)) dirfd flags path.now }
    requires found { IfOk found (IsFound (shape_of fs.old.tree (H.view host.old).forest)) }
    requires access { access_of flags ≤ 2 }
    ensures { HasReplyOf (open_path_reply dirfd flags mode path.now)
        (stage fs.old (H.view host.old) caller.now space.now)
        (stage fs.new (H.view host.new) caller.now space.now) result (H.count host.old) (H.count host.new) }
{
    let _before = host.faults();
    match found {
        Ok(place) => open_place(alloc, fs, host, caller, space, flags, mode, &place),
        Err(errno) => Ok(Answer::Refused(errno)),
    }
}

// Opens a path that was read.
#[tactic(auto, unfolding(crate::specs::Open::open_path_reply), using(crate::proofs::Kept::after_asking))]
fn open_path<H: Host>(
    alloc: Global,
    fs: &mut Fs,
    host: &mut H,
    caller: &Caller,
    space: &Space,
    dirfd: u64,
    flags: u32,
    mode: u32,
    path: &[u8],
) -> Result<Answer, HostErr>
    requires sound { Sound (stage fs.old (H.view host.old) caller.now space.now) }
    requires no_nul { IsTrue (has_no_nul path.now) }
    requires access { access_of flags ≤ 2 }
    ensures { HasReplyOf (open_path_reply dirfd flags mode path.now)
        (stage fs.old (H.view host.old) caller.now space.now)
        (stage fs.new (H.view host.new) caller.now space.now) result (H.count host.old) (H.count host.new) }
{
    let _before = host.faults();
    if fs.files.is_full(caller.vpid) {
        return Ok(Answer::Refused(Errno::MFile));
    }
    let found = place_of_path(alloc, fs, host, caller, space, dirfd, flags, path)?;
    open_found(
        alloc, fs, host, caller, space, dirfd, flags, mode, path, found,
    )
}

/// openat(2): opens what a path leads to, or makes a file, and answers the lowest free descriptor. Flags that are not
/// among OPEN_FLAGS and the access mode 3 are not supported. The errors are EINVAL (O_CREAT with O_DIRECTORY), those of
/// the path's text, EMFILE, those of the walk; where nothing is there ENOENT, EISDIR (the path ends in a slash), ENOENT
/// (the directory is removed) and ENOSPC; and else EEXIST, ELOOP, EISDIR and ENOTDIR.
#[tactic(auto, unfolding(crate::specs::Open::openat_row), using(crate::proofs::Kept::in_other_words))]
pub fn openat<H: Host>(
    alloc: Global,
    fs: &mut Fs,
    host: &mut H,
    caller: &Caller,
    space: &Space,
    args: [u64; 6],
) -> Result<Answer, HostErr>
    requires { Sound (stage fs.old (H.view host.old) caller.now space.now) }
    ensures { HasRowReply openat_row args (stage fs.old (H.view host.old) caller.now space.now)
        (stage fs.new (H.view host.new) caller.now space.now) result
        (H.count host.old) (H.count host.new) }
{
    let _before = host.faults();
    let flags = low_word(args[2]);
    if flags | OPEN_FLAGS != OPEN_FLAGS || flags & O_ACCMODE == O_ACCMODE {
        return Ok(Answer::Unsupported);
    }
    if has_flag(flags, O_CREAT) && has_flag(flags, O_DIRECTORY) {
        return Ok(Answer::Refused(Errno::Inval));
    }
    match path_argument(space, args[1])? {
        Ok(path) => open_path(
            alloc,
            fs,
            host,
            caller,
            space,
            args[0],
            flags,
            low_word(args[3]),
            path.as_slice(),
        ),
        Err(errno) => Ok(Answer::Refused(errno)),
    }
}
