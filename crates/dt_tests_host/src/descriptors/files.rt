// The open files of a first process.
use super::scene::PID;
use crate::expect::same_at;
use dt_base::NoMemory;
use dt_fds::{DescKind, Files};
use std::process::Abort;

// What a descriptor of a process is of, and its access mode.
fn of(files: &Files, pid: u32, fd: u32) -> Option<(DescKind, u8)> {
    match files.look(pid, fd) {
        Some(desc) => Some((desc.kind, desc.access)),
        None => None,
    }
}

// Processes and descriptors, what each is of with its access mode, and its close-on-exec bit.
type FirstRow = (u32, u32, Option<(DescKind, u8)>, Option<bool>);

const FIRST: &[FirstRow] = &[
    (PID, 0, Some((DescKind::Input, 0)), Some(false)),
    (PID, 1, Some((DescKind::Stream(1), 1)), Some(false)),
    (PID, 2, Some((DescKind::Stream(2), 1)), Some(false)),
    (PID, 3, None, None),
    (2, 0, None, None),
];

// Ends the test unless the descriptors are what these rows say.
fn expect_first(rt: &impl Abort, files: &Files, rows: &[FirstRow]) {
    for (pid, fd, kind, cloexec) in rows {
        let found = (of(files, *pid, *fd), files.is_cloexec(*pid, *fd));
        same_at(rt, (*pid, *fd), found, (*kind, *cloexec));
    }
}

#[test]
fn the_first_process_alone_has_the_input_and_two_output_streams(
    rt: HostRuntime,
) -> Result<(), NoMemory> {
    expect_first(&rt, &Files::first(rt.alloc(), PID)?, FIRST);
    Ok(())
}

// A kind, its inode, and the pipe that it is the read end or the write end of.
type KindRow = (DescKind, Option<u64>, Option<u32>, Option<u32>);

const KINDS: &[KindRow] = &[
    (DescKind::File(5), Some(5), None, None),
    (DescKind::Dir(6), Some(6), None, None),
    (DescKind::PipeRead(7), None, Some(7), None),
    (DescKind::PipeWrite(8), None, None, Some(8)),
    (DescKind::Input, None, None, None),
    (DescKind::Stream(1), None, None, None),
];

// Ends the test unless each kind has the inode and the ends that its row says; both ends are of the pipe.
fn expect_kinds(rt: &impl Abort, rows: &[KindRow]) {
    for (kind, inode, read, write) in rows {
        let ends = (kind.read_pipe(), kind.write_pipe(), kind.pipe());
        same_at(rt, *kind, kind.inode(), *inode);
        same_at(rt, *kind, ends, (*read, *write, read.or(*write)));
    }
}

#[test]
fn a_description_has_an_inode_or_a_pipe_or_neither(rt: HostRuntime) {
    expect_kinds(&rt, KINDS);
}
