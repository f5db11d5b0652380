//! The call that lists a directory (getdents64(2)).
ghost use Rattle.std.specs.Prelude.{◌≡◌, ◌≢◌, ◌+◌, ◌*◌, ◌<◌, ◌≤◌, ◌++◌, length, take, true, false, Some, IfOk, IfSome};
ghost use Rattle.std.specs.Prelude.{OnOk, not, is_some, option_map};
ghost use Rattle.dt_base.specs.Abi.{low_word, byte_count};
ghost use Rattle.dt_fds.specs.Descriptions.{description_at, is_of_dir};
ghost use Rattle.dt_host.specs.World.{Forest, IsDir};
ghost use Rattle.dt_space.specs.Write.{pages_after_store};
ghost use Rattle.dt_tree.specs.Shape.{is_removed};
ghost use Rattle.dt_tree.specs.Table.{Stands, shape_of};
ghost use Rattle.dt_iocalls.specs.Entries.{record_len, dirent, dirents, fitting_entries, entries_fill_reply};
ghost use Rattle.dt_iocalls.specs.Entries.{fitting_entries_reply};
ghost use Rattle.dt_iocalls.specs.Entries.{left_entries_reply, entries_left};
ghost use Rattle.dt_iocalls.specs.Entries.{listing_reply, getdents64_row};
ghost use Rattle.dt_iocalls.specs.Offsets.{name_of};
ghost use Rattle.dt_callbase.specs.Arguments.{argument};
ghost use Rattle.dt_callbase.specs.Sound.{Sound, HasRowReply, HasReplyOf, HasReply, stage, scene};

use dt_base::abi::{byte_count, low_word};
use dt_base::{Answer, Blob, Caller, Errno, NoMemory};
use dt_callbase::Fs;
use dt_fds::{DescKind, Spot};
use dt_host::{Host, HostErr};
use dt_space::{Space, WriteErr};
use dt_tree::{Listed, Tree};
use std::alloc::Global;

/// Where the name begins in `struct linux_dirent64`.
pub const DIRENT_NAME: usize = 19;

/// What the length of a record is a multiple of.
pub const DIRENT_ALIGN: usize = 8;

// Bytes of the shortest record.
const LEAST_RECORD: u64 = 24;

// How long the record of a name is.
fn record_len(name: &[u8]) -> usize
    ensures value { result ≡ record_len name.now }
    ensures least { DIRENT_NAME + length name.now < result }
    ensures most { result ≤ DIRENT_NAME + length name.now + DIRENT_ALIGN }
{
    (DIRENT_NAME + name.len() + DIRENT_ALIGN) / DIRENT_ALIGN * DIRENT_ALIGN
}

// Appends the record of an entry.
fn add_record(bytes: &mut Vec<u8>, entry: &Listed) -> Result<(), NoMemory>
    ensures { OnOk result (bytes.new.items ≡ bytes.old.items ++ dirent entry.now) }
{
    let name = entry.name.as_slice();
    let len = record_len(name);
    bytes.extend_from_slice(&entry.vino.to_le_bytes())?;
    bytes.extend_from_slice(&[0; 8])?;
    bytes.extend_from_slice(&(len as u64).to_le_bytes()[..2])?;
    bytes.push(entry.kind)?;
    bytes.extend_from_slice(name)?;
    bytes.extend_from_slice(&[0; DIRENT_ALIGN][..len - DIRENT_NAME - name.len()])?;
    Ok(())
}

// The records of entries, one behind the other.
fn records(alloc: Global, entries: &[Listed]) -> Result<Vec<u8>, NoMemory>
    ensures { IfOk result (λ bytes. bytes.items ≡ dirents entries.now) }
{
    let mut bytes = Vec::new(alloc);
    for entry in entries {
        add_record(&mut bytes, entry)?;
    }
    Ok(bytes)
}

// How many of the first entries have records that fit.
fn fitting_count(entries: &[Listed], room: u64) -> usize
    ensures { take result entries.now ≡ fitting_entries room entries.now }
{
    let mut left = room;
    for (count, entry) in entries.iter().enumerate() {
        let len = record_len(entry.name.as_slice()) as u64;
        if len > left {
            return count;
        }
        left -= len;
    }
    entries.len()
}

// Whether a directory is removed.
fn is_removed(tree: &Tree, dir: u64) -> bool
    ensures { (v : Forest) → Stands tree.now v → IsDir (shape_of tree.now v) dir
        → result ≡ is_removed (shape_of tree.now v) dir }
{
    tree.dot_dot(dir).is_none()
}

/// getdents64(2): puts the records of the next entries of a directory into a buffer, as many as fit, and answers how
/// many bytes these are; at the end of the listing that is 0. The errors are EBADF, ENOTDIR, ENOENT (the directory is
/// removed), EINVAL (not even the next one fits), and EFAULT.
#[tactic(auto, unfolding(crate::specs::Entries::getdents64_row), using(crate::proofs::Described::node_in))]
pub fn getdents64<H: Host>(
    alloc: Global,
    fs: &mut Fs,
    host: &mut H,
    caller: &Caller,
    space: &mut Space,
    args: [u64; 6],
) -> Result<Answer, HostErr>
    requires { Sound (stage fs.old (H.view host.old) caller.now space.old) }
    ensures { HasRowReply getdents64_row args (stage fs.old (H.view host.old) caller.now space.old)
        (stage fs.new (H.view host.new) caller.now space.new) result
        (H.count host.old) (H.count host.new) }
{
    let _before = host.faults();
    let Some(desc) = fs.files.look(caller.vpid, low_word(args[0])) else {
        return Ok(Answer::Refused(Errno::BadF));
    };
    let DescKind::Dir(n) = desc.kind else {
        return Ok(Answer::Refused(Errno::NotDir));
    };
    let last = name_of(&desc.spot)?;
    list(alloc, fs, host, caller, space, args, n, last)
}

// The name after which a listing goes on, if it has begun.
fn name_of(spot: &Spot) -> Result<Option<Blob>, NoMemory>
    ensures { IfOk result (λ name. name ≡ name_of spot.now) }
{
    match spot {
        Spot::After(Some(name)) => Ok(Some(name.copy()?)),
        Spot::After(None) | Spot::At(_) => Ok(None),
    }
}

// Lists a directory from a name on.
#[tactic(auto, unfolding(crate::specs::Entries::listing_reply), using(crate::proofs::Left::tells_first, crate::proofs::Scenes::after_asking))]
fn list<H: Host>(
    alloc: Global,
    fs: &mut Fs,
    host: &mut H,
    caller: &Caller,
    space: &mut Space,
    args: [u64; 6],
    n: u64,
    last: Option<Blob>,
) -> Result<Answer, HostErr>
    requires sound { Sound (stage fs.old (H.view host.old) caller.now space.old) }
    requires directory { IsDir (shape_of fs.old.tree (H.view host.old).forest) n }
    requires of_dir { IfSome (description_at fs.old.files.descriptors caller.now.vpid (low_word (argument args 0)))
        (λ desc. true ≡ is_of_dir desc.kind) }
    ensures { HasReplyOf (listing_reply (low_word (argument args 0)) (argument args 1)
        (byte_count (argument args 2)) n last)
        (stage fs.old (H.view host.old) caller.now space.old)
        (stage fs.new (H.view host.new) caller.now space.new) result
        (H.count host.old) (H.count host.new) }
{
    let _before = host.faults();
    if is_removed(&fs.tree, n) {
        return Ok(Answer::Refused(Errno::NoEnt));
    }
    let count = byte_count(args[2]);
    let most = (count / LEAST_RECORD + 1) as usize;
    let after = match &last {
        Some(name) => Some(name.as_slice()),
        None => None,
    };
    let entries = fs.tree.list_after(host, n, after, most)?;
    tell_left(
        alloc,
        fs,
        host,
        caller,
        space,
        low_word(args[0]),
        args[1],
        count,
        entries,
    )
}

// Tells the first of these entries, as far as they fit.
#[tactic(auto, using(crate::proofs::Scenes::in_other_words))]
fn tell_left<H: Host>(
    alloc: Global,
    fs: &mut Fs,
    host: &H,
    caller: &Caller,
    space: &mut Space,
    fd: u32,
    buffer: u64,
    count: u64,
    mut entries: Vec<Listed>,
) -> Result<Answer, HostErr>
    requires sound { Sound (stage fs.old (H.view host.now) caller.now space.old) }
    requires of_dir { IfSome (description_at fs.old.files.descriptors caller.now.vpid fd)
        (λ desc. true ≡ is_of_dir desc.kind) }
    ensures { HasReply (left_entries_reply fd buffer count (scene (stage fs.old (H.view host.now) caller.now space.old))
        entries.items)
        (stage fs.old (H.view host.now) caller.now space.old) (stage fs.new (H.view host.now) caller.now space.new)
        result (H.count host.now) (H.count host.now) }
{
    if entries.is_empty() {
        return Ok(Answer::Value(0));
    }
    let fitting = fitting_count(&entries, count);
    entries.truncate(fitting);
    tell(alloc, fs, host, caller, space, fd, buffer, entries)
}

// Tells these entries.
#[tactic(auto, using(crate::proofs::Scenes::in_other_words, crate::proofs::Left::tells_last))]
fn tell<H: Host>(
    alloc: Global,
    fs: &mut Fs,
    host: &H,
    caller: &Caller,
    space: &mut Space,
    fd: u32,
    buffer: u64,
    mut entries: Vec<Listed>,
) -> Result<Answer, HostErr>
    requires sound { Sound (stage fs.old (H.view host.now) caller.now space.old) }
    requires of_dir { IfSome (description_at fs.old.files.descriptors caller.now.vpid fd)
        (λ desc. true ≡ is_of_dir desc.kind) }
    ensures { HasReply (fitting_entries_reply fd buffer
        (scene (stage fs.old (H.view host.now) caller.now space.old)) entries.items)
        (stage fs.old (H.view host.now) caller.now space.old) (stage fs.new (H.view host.now) caller.now space.new)
        result (H.count host.now) (H.count host.now) }
{
    let bytes = records(alloc, &entries)?;
    match entries.pop() {
        Some(last) => fill_records(fs, host, caller, space, fd, buffer, &bytes, last.name),
        None => Ok(Answer::Refused(Errno::Inval)),
    }
}

// Fills a buffer with these records, and lets the listing go on after a name.
#[tactic(auto, using(crate::proofs::Described::same_nodes))]
fn fill_records<H: Host>(
    fs: &mut Fs,
    host: &H,
    caller: &Caller,
    space: &mut Space,
    fd: u32,
    buffer: u64,
    bytes: &[u8],
    last: Blob,
) -> Result<Answer, HostErr>
    requires sound { Sound (stage fs.old (H.view host.now) caller.now space.old) }
    requires of_dir { IfSome (description_at fs.old.files.descriptors caller.now.vpid fd)
        (λ desc. true ≡ is_of_dir desc.kind) }
    ensures { HasReply (entries_fill_reply (scene (stage fs.old (H.view host.now) caller.now space.old)) fd (Some last)
        (length bytes.now) (pages_after_store space.old buffer bytes.now))
        (stage fs.old (H.view host.now) caller.now space.old) (stage fs.new (H.view host.now) caller.now space.new)
        result (H.count host.now) (H.count host.now) }
{
    match space.write_bytes(buffer, bytes) {
        Ok(()) => {}
        Err(WriteErr::Miss(_)) => return Ok(Answer::Refused(Errno::Fault)),
        Err(WriteErr::NoMemory) => return Err(HostErr::NoMemory),
    }
    fs.files.set_place(caller.vpid, fd, Spot::After(Some(last)));
    Ok(Answer::Value(bytes.len() as u64))
}
