// What open descriptions keep in the tree.
use super::image::{DIR, FILE, NEXT};
use super::play::{Table, expect_all, play};
use super::step::Call::{
    Close, Dup, Dup3, DupCloexec, Exec, Exit, Fork, Open, OpenInput, SetCloexec, Stat, Unlink,
};
use super::step::Outcome::{self, Absent, Bool, Description, Done, Fd, Node, Refused};
use super::step::Query::{DescriptionOf, IsDir};
use super::step::Row::{self, Check, CheckInChild, Do, DoInChild};
use super::step::{RDONLY, RDWR, WRONLY};
use crate::expect::same;
use dt_base::Errno;
use dt_fds::DescKind;
use dt_host::HostErr;

// The node of the file.
const HELLO: Outcome = Node {
    inode: FILE,
    size: 5,
};

const FILE_WITHOUT_A_NAME: &[Row] = &[
    Do(Open(b"f"), Fd(3)),
    Do(Dup { fd: 3, from: 0 }, Fd(4)),
    Do(Unlink(b"f"), Done),
    Do(Close(3), Done),
    Do(Stat(4), HELLO),
    Do(Close(4), Done),
    Do(Stat(4), Absent),
];

const FILE_WITH_A_NAME: &[Row] = &[
    Do(Open(b"f"), Fd(3)),
    Do(Close(3), Done),
    Do(Open(b"f"), Fd(3)),
];

const DIRECTORY_WITHOUT_A_NAME: &[Row] = &[
    Do(Open(b"d"), Fd(3)),
    Do(Unlink(b"d"), Done),
    Do(Open(b"d"), Absent),
    Check(IsDir(DIR), Bool(true)),
    Do(Close(3), Done),
    Check(IsDir(DIR), Bool(false)),
];

const PLACE_TAKEN: &[Row] = &[
    Do(Open(b"d"), Fd(3)),
    Do(Unlink(b"d"), Done),
    Do(Dup3 { old: 9, new: 3 }, Refused(Errno::BadF)),
    Check(IsDir(DIR), Bool(true)),
    Do(Dup3 { old: 0, new: 3 }, Done),
    Check(IsDir(DIR), Bool(false)),
    Check(DescriptionOf(3), Description(DescKind::Input, RDONLY)),
];

const PROCESS_ENDS: &[Row] = &[
    Do(Open(b"d"), Fd(3)),
    Do(Open(b"f"), Fd(4)),
    Do(Dup { fd: 3, from: 63 }, Fd(63)),
    Do(Unlink(b"d"), Done),
    Do(Unlink(b"f"), Done),
    Do(Exit, Done),
    Check(DescriptionOf(63), Absent),
    Check(IsDir(DIR), Bool(false)),
    Do(OpenInput, Refused(Errno::MFile)),
];

#[test]
fn all_nodes_go_with_their_process(rt: HostRuntime) -> Result<(), HostErr> {
    same(&rt, play(rt.alloc(), PROCESS_ENDS)?, (None, DIR, FILE));
    Ok(())
}

const PARENT_ENDS_FIRST: &[Row] = &[
    Do(Open(b"d"), Fd(3)),
    Do(Fork, Done),
    Do(Unlink(b"d"), Done),
    Do(Exit, Done),
    Check(DescriptionOf(3), Absent),
    CheckInChild(DescriptionOf(3), Description(DescKind::Dir(DIR), RDWR)),
    Check(IsDir(DIR), Bool(true)),
    DoInChild(Exit, Done),
    Check(IsDir(DIR), Bool(false)),
];

const CHILD_ENDS_FIRST: &[Row] = &[
    Do(Open(b"d"), Fd(3)),
    Do(Unlink(b"d"), Done),
    Do(Fork, Done),
    DoInChild(Exit, Done),
    Check(IsDir(DIR), Bool(true)),
    Do(Close(3), Done),
    Check(IsDir(DIR), Bool(false)),
];

const MARKED: &[Row] = &[
    Do(Open(b"d"), Fd(3)),
    Do(Open(b"f"), Fd(4)),
    Do(DupCloexec { fd: 4, from: 63 }, Fd(63)),
    Do(Unlink(b"d"), Done),
    Do(SetCloexec(3, true), Done),
    Do(Exec, Done),
    Check(DescriptionOf(3), Absent),
    Check(DescriptionOf(63), Absent),
    Do(Stat(4), HELLO),
    Check(DescriptionOf(2), Description(DescKind::Stream(2), WRONLY)),
    Check(IsDir(DIR), Bool(false)),
];

const TABLES: &[Table] = &[
    (
        "a file without a name stays until its last descriptor is closed",
        FILE_WITHOUT_A_NAME,
        FILE,
    ),
    (
        "a file with a name stays when it is closed",
        FILE_WITH_A_NAME,
        NEXT,
    ),
    (
        "a directory without a name stays while it is open",
        DIRECTORY_WITHOUT_A_NAME,
        DIR,
    ),
    (
        "a descriptor is closed before another takes its place",
        PLACE_TAKEN,
        DIR,
    ),
    (
        "a node goes with the last of the processes that share it",
        PARENT_ENDS_FIRST,
        DIR,
    ),
    (
        "a node stays while the parent has it open",
        CHILD_ENDS_FIRST,
        DIR,
    ),
    ("execve closes what is marked", MARKED, DIR),
];

#[test]
fn nodes_stay_as_long_as_they_are_open(rt: HostRuntime) -> Result<(), HostErr> {
    expect_all(&rt, rt.alloc(), TABLES)
}
