// Which descriptors calls give and take.
use super::image::NEXT;
use super::play::{Table, expect_all};
use super::step::Call::{Close, Dup, Dup3, Exit, Fill, Fork, OpenInput};
use super::step::Outcome::{Absent, Bool, Count, Description, Done, Fd, Refused};
use super::step::Query::{CloexecOf, DescriptionOf, IsFull};
use super::step::Row::{self, Check, CheckInChild, Do, DoInChild};
use super::step::{RDONLY, RDWR};
use dt_base::Errno;
use dt_fds::DescKind;
use dt_host::HostErr;

const LOWEST: &[Row] = &[
    Do(OpenInput, Fd(3)),
    Do(OpenInput, Fd(4)),
    Do(Close(1), Done),
    Do(Close(3), Done),
    Do(OpenInput, Fd(1)),
    Do(Dup { fd: 0, from: 0 }, Fd(3)),
    Do(Dup { fd: 0, from: 9 }, Fd(9)),
    Do(OpenInput, Fd(5)),
];

const FULL: &[Row] = &[
    Do(Fill, Count(61)),
    Do(OpenInput, Refused(Errno::MFile)),
    Do(Dup { fd: 0, from: 0 }, Refused(Errno::MFile)),
    Do(Dup { fd: 99, from: 0 }, Refused(Errno::BadF)),
    Do(Close(63), Done),
    Do(Dup { fd: 0, from: 64 }, Refused(Errno::MFile)),
    Do(Dup { fd: 0, from: 10 }, Fd(63)),
];

// The greatest number that a call can name a descriptor by.
const MAX: u32 = u32::MAX;

// Descriptor 0 stays, which dup3(2) closes only once it knows the other to be open.
const NOT_OPEN: &[Row] = &[
    Do(Close(3), Refused(Errno::BadF)),
    Do(Dup { fd: 3, from: 0 }, Refused(Errno::BadF)),
    Do(Dup3 { old: 3, new: 0 }, Refused(Errno::BadF)),
    Check(DescriptionOf(3), Absent),
    Check(CloexecOf(3), Absent),
    Do(Close(63), Refused(Errno::BadF)),
    Do(Dup { fd: 63, from: 0 }, Refused(Errno::BadF)),
    Do(Dup3 { old: 63, new: 0 }, Refused(Errno::BadF)),
    Check(DescriptionOf(63), Absent),
    Check(CloexecOf(63), Absent),
    Do(Close(64), Refused(Errno::BadF)),
    Do(Dup { fd: 64, from: 0 }, Refused(Errno::BadF)),
    Do(Dup3 { old: 64, new: 0 }, Refused(Errno::BadF)),
    Check(DescriptionOf(64), Absent),
    Check(CloexecOf(64), Absent),
    Do(Close(MAX), Refused(Errno::BadF)),
    Do(Dup { fd: MAX, from: 0 }, Refused(Errno::BadF)),
    Do(Dup3 { old: MAX, new: 0 }, Refused(Errno::BadF)),
    Check(DescriptionOf(MAX), Absent),
    Check(CloexecOf(MAX), Absent),
    Check(DescriptionOf(0), Description(DescKind::Input, RDONLY)),
];

const PAST_THE_LIMIT: &[Row] = &[
    Do(Dup3 { old: 0, new: 64 }, Refused(Errno::BadF)),
    Do(Dup3 { old: 0, new: MAX }, Refused(Errno::BadF)),
    Do(Dup3 { old: 0, new: 63 }, Done),
    Check(DescriptionOf(63), Description(DescKind::Input, RDONLY)),
];

const SHARED: &[Row] = &[
    Do(Fill, Count(61)),
    Do(Fork, Done),
    CheckInChild(IsFull, Bool(true)),
    CheckInChild(DescriptionOf(63), Description(DescKind::Input, RDWR)),
    Do(Close(63), Done),
    Check(IsFull, Bool(false)),
    CheckInChild(IsFull, Bool(true)),
    DoInChild(Exit, Done),
    CheckInChild(DescriptionOf(63), Absent),
    Check(DescriptionOf(62), Description(DescKind::Input, RDWR)),
];

const TABLES: &[Table] = &[
    ("the lowest free descriptor is given", LOWEST, NEXT),
    ("a 65th descriptor is refused", FULL, NEXT),
    ("descriptors that are not open are refused", NOT_OPEN, NEXT),
    (
        "a duplicate is refused past the limit",
        PAST_THE_LIMIT,
        NEXT,
    ),
    ("a full table is shared", SHARED, NEXT),
];

#[test]
fn descriptors_are_given_and_taken(rt: HostRuntime) -> Result<(), HostErr> {
    expect_all(&rt, rt.alloc(), TABLES)
}
