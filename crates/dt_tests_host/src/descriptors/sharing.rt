// What descriptors of one description share.
use super::image::NEXT;
use super::play::{Table, expect_all};
use super::step::Call::{
    Close, Dup, Dup3, DupCloexec, Exec, Fork, Open, OpenInput, Seek, SetCloexec, SetFlags,
};
use super::step::Outcome::{Absent, Bool, Done, Fd, Offset, StatusFlags};
use super::step::Query::{CloexecOf, FlagsOf, OffsetOf};
use super::step::Row::{self, Check, CheckInChild, Do, DoInChild};
use dt_base::abi::{O_APPEND, O_NONBLOCK};
use dt_host::HostErr;

const OFFSETS: &[Row] = &[
    Do(OpenInput, Fd(3)),
    Do(Dup { fd: 3, from: 0 }, Fd(4)),
    Do(Seek { fd: 3, offset: 9 }, Done),
    Check(OffsetOf(4), Offset(9)),
    Check(OffsetOf(0), Offset(0)),
    Do(
        Seek {
            fd: 4,
            offset: u64::MAX,
        },
        Done,
    ),
    Check(OffsetOf(3), Offset(u64::MAX)),
    Do(Seek { fd: 5, offset: 1 }, Done),
    Check(OffsetOf(5), Absent),
];

const FLAGS: &[Row] = &[
    Do(OpenInput, Fd(3)),
    Do(Dup3 { old: 3, new: 7 }, Done),
    Do(SetFlags(7, O_APPEND), Done),
    Check(FlagsOf(3), StatusFlags(O_APPEND)),
    Do(SetFlags(3, O_NONBLOCK), Done),
    Check(FlagsOf(7), StatusFlags(O_NONBLOCK)),
    Do(SetFlags(8, O_APPEND | O_NONBLOCK), Done),
    Check(FlagsOf(8), Absent),
    Check(FlagsOf(0), StatusFlags(0)),
];

const BITS: &[Row] = &[
    Do(DupCloexec { fd: 0, from: 0 }, Fd(3)),
    Check(CloexecOf(0), Bool(false)),
    Check(CloexecOf(3), Bool(true)),
    Do(SetCloexec(0, true), Done),
    Do(SetCloexec(3, false), Done),
    Check(CloexecOf(0), Bool(true)),
    Check(CloexecOf(3), Bool(false)),
    Do(SetCloexec(4, true), Done),
    Check(CloexecOf(4), Absent),
];

const CHILD_GOES_ON: &[Row] = &[
    Do(Open(b"f"), Fd(3)),
    Do(Seek { fd: 3, offset: 2 }, Done),
    Do(Fork, Done),
    CheckInChild(OffsetOf(3), Offset(2)),
    Do(Seek { fd: 3, offset: 4 }, Done),
    CheckInChild(OffsetOf(3), Offset(4)),
    DoInChild(Seek { fd: 3, offset: 5 }, Done),
    Check(OffsetOf(3), Offset(5)),
    DoInChild(SetFlags(3, O_APPEND | O_NONBLOCK), Done),
    Check(FlagsOf(3), StatusFlags(O_APPEND | O_NONBLOCK)),
];

const TABLE_OF_A_CHILD: &[Row] = &[
    Do(DupCloexec { fd: 0, from: 0 }, Fd(3)),
    Do(Fork, Done),
    CheckInChild(CloexecOf(0), Bool(false)),
    CheckInChild(CloexecOf(3), Bool(true)),
    DoInChild(SetCloexec(3, false), Done),
    Check(CloexecOf(3), Bool(true)),
    Do(Close(0), Done),
    CheckInChild(CloexecOf(0), Bool(false)),
    Do(OpenInput, Fd(0)),
    Do(Exec, Done),
    Check(CloexecOf(3), Absent),
    CheckInChild(CloexecOf(3), Bool(false)),
];

const TABLES: &[Table] = &[
    ("a duplicate shares the offset", OFFSETS, NEXT),
    ("a duplicate shares the flags", FLAGS, NEXT),
    ("a duplicate has a close on exec bit of its own", BITS, NEXT),
    (
        "a child goes on where its parent stopped",
        CHILD_GOES_ON,
        NEXT,
    ),
    ("a child has descriptors of its own", TABLE_OF_A_CHILD, NEXT),
];

#[test]
fn descriptors_of_one_description_share_what_is_its(rt: HostRuntime) -> Result<(), HostErr> {
    expect_all(&rt, rt.alloc(), TABLES)
}
