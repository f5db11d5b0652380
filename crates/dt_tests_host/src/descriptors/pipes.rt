// Pipes: what reads and writes of them come to, and how long they stay.
use super::image::NEXT;
use super::play::{Table, expect, expect_all, expect_at};
use super::step::Call::{
    Close, CloseEach, Dup, Dup3, Exec, Exit, Fill, Fork, Pipe, Read, ReadLong, SetFlags, Write,
    WriteLong, WriteRest,
};
use super::step::Outcome::{
    self, Absent, Bool, Count, Description, Done, Ends, Fd, Flowed, Refused, StatusFlags,
};
use super::step::Query::{CloexecOf, DescriptionOf, FlagsOf, Held, TwoFree};
use super::step::Row::{self, Check, Do, DoInChild};
use super::step::{RDONLY, WRONLY};
use dt_base::Errno;
use dt_base::abi::{O_CLOEXEC, O_NONBLOCK};
use dt_fds::{DescKind, Flow};
use dt_host::HostErr;
use std::alloc::Global;
use std::process::Abort;

// The descriptors of the ends of a first pipe.
const READ: u32 = 3;

const WRITE: u32 = 4;

// What each may be duplicated to.
const READ_TOO: u32 = 5;

const WRITE_TOO: u32 = 6;

// The number that the host gives next where it has a pipe, which has the number before.
const AFTER_ONE_PIPE: u64 = NEXT + 1;

// The same where it has two.
const AFTER_TWO_PIPES: u64 = NEXT + 2;

// A pipe is made.
const PIPED: Row = Do(Pipe(0), Ends(READ, WRITE));

// Each end of it gets another descriptor.
const READ_TWICE: Row = Do(
    Dup {
        fd: READ,
        from: READ_TOO,
    },
    Fd(READ_TOO),
);

const WRITE_TWICE: Row = Do(
    Dup {
        fd: WRITE,
        from: WRITE_TOO,
    },
    Fd(WRITE_TOO),
);

// What a pipe may hold before a write.
const HELD: [usize; 6] = [0, 61_439, 61_440, 61_441, 65_535, 65_536];

// How many of so many bytes a write moves, for each of these.
const MOVED: &[(usize, [usize; 6])] = &[
    (0, [0, 0, 0, 0, 0, 0]),
    (1, [1, 1, 1, 1, 1, 0]),
    (4_096, [4_096, 4_096, 4_096, 0, 0, 0]),
    (4_097, [4_097, 4_097, 4_096, 4_095, 1, 0]),
    (65_536, [65_536, 4_097, 4_096, 4_095, 1, 0]),
    (65_537, [65_536, 4_097, 4_096, 4_095, 1, 0]),
    (200_000, [65_536, 4_097, 4_096, 4_095, 1, 0]),
];

// A write of so many bytes, of which some are done, to a pipe with these flags that holds so many: what it comes to,
// and how many bytes it moves.
#[derive(Clone, Copy)]
struct Written {
    flags: u32,
    held: usize,
    count: usize,
    done: u64,
    outcome: Outcome,
    moved: usize,
}

impl Written {
    fn rows(self) -> [Row; 4] {
        [
            Do(Pipe(self.flags), Ends(READ, WRITE)),
            Do(
                WriteLong {
                    fd: WRITE,
                    count: self.held,
                    done: 0,
                },
                Flowed(Flow::Moved(self.held as u64)),
            ),
            Do(
                WriteLong {
                    fd: WRITE,
                    count: self.count,
                    done: self.done,
                },
                self.outcome,
            ),
            Check(Held(WRITE), Count(self.held.saturating_add(self.moved))),
        ]
    }
}

// What a write comes to that moved so many of so many bytes.
fn answer(count: usize, moved: usize, nonblock: bool) -> Outcome {
    if moved == count || nonblock && moved > 0 {
        Flowed(Flow::Moved(moved as u64))
    } else if nonblock {
        Refused(Errno::Again)
    } else if moved > 0 {
        Flowed(Flow::Part(moved as u64))
    } else {
        Flowed(Flow::Wait)
    }
}

// Ends the test unless a write comes to that.
fn expect_written(rt: &impl Abort, alloc: Global, written: Written) -> Result<(), HostErr> {
    let at = (written.flags, written.held, written.count, written.done);
    expect(rt, alloc, at, &written.rows())
}

// Ends the test unless a write of so many bytes moves so many, at each count of bytes that a pipe may hold before it.
fn expect_moved(
    rt: &impl Abort,
    alloc: Global,
    count: usize,
    moves: &[usize],
    nonblock: bool,
) -> Result<(), HostErr> {
    let held = HELD.as_slice();
    for index in 0..held.len().min(moves.len()) {
        let written = written_at(held[index], count, moves[index], nonblock);
        expect_written(rt, alloc, written)?;
    }
    Ok(())
}

// A write of so many bytes that moves so many, to a pipe that holds so many.
fn written_at(held: usize, count: usize, moved: usize, nonblock: bool) -> Written {
    Written {
        flags: if nonblock { O_NONBLOCK } else { 0 },
        held,
        count,
        done: 0,
        outcome: answer(count, moved, nonblock),
        moved,
    }
}

// The same of a write that may wait and of one that may not, for each row of such a table.
fn expect_all_moved(
    rt: &impl Abort,
    alloc: Global,
    table: &[(usize, [usize; 6])],
) -> Result<(), HostErr> {
    for (count, moves) in table {
        expect_moved(rt, alloc, *count, moves, false)?;
        expect_moved(rt, alloc, *count, moves, true)?;
    }
    Ok(())
}

#[test]
fn a_write_moves_what_has_room_and_few_bytes_at_once(rt: HostRuntime) -> Result<(), HostErr> {
    expect_all_moved(&rt, rt.alloc(), MOVED)
}

// A write of 200,000 bytes: the flags, what is held, how many bytes are done, what it comes to, and how many it moves.
type WriteRow = (u32, usize, u64, Flow, usize);

const GOES_ON: &[WriteRow] = &[
    (0, 65_536, 65_536, Flow::Wait, 0),
    (0, 65_535, 65_536, Flow::Part(65_537), 1),
    (0, 0, 65_536, Flow::Part(131_072), 65_536),
    (0, 65_536, 199_999, Flow::Wait, 0),
    (0, 65_535, 199_999, Flow::Moved(200_000), 1),
    (0, 65_536, 200_000, Flow::Moved(200_000), 0),
    (O_NONBLOCK, 65_536, 65_536, Flow::Moved(65_536), 0),
    (O_NONBLOCK, 65_535, 65_536, Flow::Moved(65_537), 1),
];

// Ends the test unless each such write comes to what its row says.
fn expect_all_written(rt: &impl Abort, alloc: Global, table: &[WriteRow]) -> Result<(), HostErr> {
    for (flags, held, done, flow, moved) in table {
        let written = Written {
            flags: *flags,
            held: *held,
            count: 200_000,
            done: *done,
            outcome: Flowed(*flow),
            moved: *moved,
        };
        expect_written(rt, alloc, written)?;
    }
    Ok(())
}

#[test]
fn a_write_goes_on_from_what_is_done(rt: HostRuntime) -> Result<(), HostErr> {
    expect_all_written(&rt, rt.alloc(), GOES_ON)
}

// As much of 200,000 bytes is written each time as has room, and all that is held is read.
const LONG_WRITE: &[Row] = &[
    PIPED,
    Do(
        WriteLong {
            fd: WRITE,
            count: 200_000,
            done: 0,
        },
        Flowed(Flow::Part(65_536)),
    ),
    Do(ReadLong { fd: READ, from: 0 }, Flowed(Flow::Moved(65_536))),
    Do(
        WriteLong {
            fd: WRITE,
            count: 200_000,
            done: 65_536,
        },
        Flowed(Flow::Part(131_072)),
    ),
    Do(
        ReadLong {
            fd: READ,
            from: 65_536,
        },
        Flowed(Flow::Moved(65_536)),
    ),
    Do(
        WriteLong {
            fd: WRITE,
            count: 200_000,
            done: 131_072,
        },
        Flowed(Flow::Part(196_608)),
    ),
    Do(
        ReadLong {
            fd: READ,
            from: 131_072,
        },
        Flowed(Flow::Moved(65_536)),
    ),
    Do(
        WriteLong {
            fd: WRITE,
            count: 200_000,
            done: 196_608,
        },
        Flowed(Flow::Moved(200_000)),
    ),
    Do(
        ReadLong {
            fd: READ,
            from: 196_608,
        },
        Flowed(Flow::Moved(3_392)),
    ),
    Check(Held(READ), Count(0)),
];

#[test]
fn a_long_write_comes_out_whole(rt: HostRuntime) -> Result<(), HostErr> {
    expect(&rt, rt.alloc(), "a long write", LONG_WRITE)
}

// What is written, the descriptors that are closed then, a buffer, what a read into it comes to that may wait and one
// that may not, and the buffer after either.
type ReadRow = (
    &'static [u8],
    &'static [u32],
    &'static [u8],
    Outcome,
    Outcome,
    &'static [u8],
);

const READS: &[ReadRow] = &[
    (
        b"abc",
        &[],
        b"",
        Flowed(Flow::Moved(0)),
        Flowed(Flow::Moved(0)),
        b"",
    ),
    (
        b"abc",
        &[],
        b"--",
        Flowed(Flow::Moved(2)),
        Flowed(Flow::Moved(2)),
        b"ab",
    ),
    (
        b"abc",
        &[],
        b"---",
        Flowed(Flow::Moved(3)),
        Flowed(Flow::Moved(3)),
        b"abc",
    ),
    (
        b"abc",
        &[],
        b"-----",
        Flowed(Flow::Moved(3)),
        Flowed(Flow::Moved(3)),
        b"abc--",
    ),
    (
        b"abc",
        &[WRITE],
        b"--",
        Flowed(Flow::Moved(2)),
        Flowed(Flow::Moved(2)),
        b"ab",
    ),
    (
        b"",
        &[],
        b"--",
        Flowed(Flow::Wait),
        Refused(Errno::Again),
        b"--",
    ),
    (
        b"",
        &[WRITE],
        b"--",
        Flowed(Flow::Moved(0)),
        Flowed(Flow::Moved(0)),
        b"--",
    ),
];

// Ends the test unless such a read of a pipe with these flags comes to this.
fn expect_read(
    rt: &impl Abort,
    alloc: Global,
    flags: u32,
    row: &ReadRow,
    outcome: Outcome,
) -> Result<(), HostErr> {
    let (written, closes, before, _, _, after) = *row;
    let rows = [
        Do(Pipe(flags), Ends(READ, WRITE)),
        Do(
            Write(WRITE, written),
            Flowed(Flow::Moved(written.len() as u64)),
        ),
        Do(CloseEach(closes), Done),
        Do(Read(READ, before, after), outcome),
    ];
    expect_at(
        rt,
        alloc,
        (written.len(), before.len(), flags),
        &rows,
        AFTER_ONE_PIPE,
    )
}

// The same of a read that may wait and of one that may not, for each of these rows.
fn expect_all_read(rt: &impl Abort, alloc: Global, table: &[ReadRow]) -> Result<(), HostErr> {
    for row in table {
        expect_read(rt, alloc, 0, row, row.3)?;
        expect_read(rt, alloc, O_NONBLOCK, row, row.4)?;
    }
    Ok(())
}

#[test]
fn a_read_brings_what_is_held_or_fits(rt: HostRuntime) -> Result<(), HostErr> {
    expect_all_read(&rt, rt.alloc(), READS)
}

const WITHOUT_A_WRITER: &[Row] = &[
    PIPED,
    Do(Write(WRITE, b"abc"), Flowed(Flow::Moved(3))),
    Do(Close(WRITE), Done),
    Do(Read(READ, b"--", b"ab"), Flowed(Flow::Moved(2))),
    Do(Read(READ, b"ab", b"cb"), Flowed(Flow::Moved(1))),
    Do(Read(READ, b"cb", b"cb"), Flowed(Flow::Moved(0))),
];

const DIRECTIONS: &[Row] = &[
    PIPED,
    Do(Read(WRITE, b"-", b"-"), Refused(Errno::BadF)),
    Do(Write(READ, b"a"), Refused(Errno::BadF)),
    Do(Read(0, b"-", b"-"), Refused(Errno::BadF)),
    Do(Write(1, b"a"), Refused(Errno::BadF)),
    Do(Read(READ_TOO, b"-", b"-"), Refused(Errno::BadF)),
    Check(Held(WRITE), Count(0)),
];

// The descriptors that are closed of two of each end, and the number that the host gives then.
type CloseRow = (&'static [u32], u64);

const CLOSES: &[CloseRow] = &[
    (&[], AFTER_ONE_PIPE),
    (&[READ, WRITE], AFTER_ONE_PIPE),
    (&[READ_TOO, WRITE_TOO], AFTER_ONE_PIPE),
    (&[READ, READ_TOO, WRITE], AFTER_ONE_PIPE),
    (&[WRITE, WRITE_TOO, READ], AFTER_ONE_PIPE),
    (&[READ, READ_TOO, WRITE, WRITE_TOO], NEXT),
    (&[WRITE, WRITE_TOO, READ, READ_TOO], NEXT),
    (&[READ, WRITE, READ_TOO, WRITE_TOO], NEXT),
    (&[WRITE_TOO, READ_TOO, WRITE, READ], NEXT),
];

// Ends the test unless the host gives its number after each of these rows.
fn expect_all_closed(rt: &impl Abort, alloc: Global, table: &[CloseRow]) -> Result<(), HostErr> {
    for (closes, number) in table {
        let rows = [PIPED, READ_TWICE, WRITE_TWICE, Do(CloseEach(*closes), Done)];
        expect_at(rt, alloc, *closes, &rows, *number)?;
    }
    Ok(())
}

#[test]
fn a_pipe_goes_with_its_last_descriptor(rt: HostRuntime) -> Result<(), HostErr> {
    expect_all_closed(&rt, rt.alloc(), CLOSES)
}

// The descriptors that are closed of two of each end, and what a write of two bytes, the first of which is done, and a
// read come to then.
type HalfRow = (&'static [u32], Outcome, &'static [u8], Outcome);

const HALVES: &[HalfRow] = &[
    (&[], Flowed(Flow::Moved(2)), b"b", Flowed(Flow::Moved(1))),
    (
        &[READ, WRITE],
        Flowed(Flow::Moved(2)),
        b"b",
        Flowed(Flow::Moved(1)),
    ),
    (
        &[READ, READ_TOO],
        Flowed(Flow::Broken(1)),
        b"-",
        Refused(Errno::BadF),
    ),
    (&[WRITE_TOO], Refused(Errno::BadF), b"-", Flowed(Flow::Wait)),
    (
        &[WRITE, WRITE_TOO],
        Refused(Errno::BadF),
        b"-",
        Flowed(Flow::Moved(0)),
    ),
];

// Ends the test unless such a write and such a read come to what each of these rows says.
fn expect_all_halves(rt: &impl Abort, alloc: Global, table: &[HalfRow]) -> Result<(), HostErr> {
    for (closes, write, after, read) in table {
        let rest = WriteRest {
            fd: WRITE_TOO,
            bytes: b"ab",
            done: 1,
        };
        let rows = [
            PIPED,
            READ_TWICE,
            WRITE_TWICE,
            Do(CloseEach(*closes), Done),
            Do(rest, *write),
            Do(Read(READ_TOO, b"-", *after), *read),
        ];
        expect_at(rt, alloc, *closes, &rows, AFTER_ONE_PIPE)?;
    }
    Ok(())
}

#[test]
fn an_end_is_closed_with_its_last_descriptor(rt: HostRuntime) -> Result<(), HostErr> {
    expect_all_halves(&rt, rt.alloc(), HALVES)
}

const DUPLICATED_OVER: &[Row] = &[
    PIPED,
    Do(Dup3 { old: 0, new: WRITE }, Done),
    Do(Read(READ, b"-", b"-"), Flowed(Flow::Moved(0))),
    Do(Dup3 { old: 0, new: READ }, Done),
];

// A child shares the pipe, and the process ends.
const PARENT_ENDS: &[Row] = &[PIPED, Do(Fork, Done), Do(Exit, Done)];

// The child ends too.
const BOTH_END: &[Row] = &[PIPED, Do(Fork, Done), Do(Exit, Done), DoInChild(Exit, Done)];

// The flags that a pipe is made with, the bit and the flags of both ends, and the number that the host gives after an
// execve.
type FlagRow = (u32, bool, u32, u64);

const FLAGS: &[FlagRow] = &[
    (0, false, 0, AFTER_ONE_PIPE),
    (O_NONBLOCK, false, O_NONBLOCK, AFTER_ONE_PIPE),
    (O_CLOEXEC, true, 0, NEXT),
    (O_CLOEXEC | O_NONBLOCK, true, O_NONBLOCK, NEXT),
];

// Ends the test unless both ends have what each of these rows says.
fn expect_all_flags(rt: &impl Abort, alloc: Global, table: &[FlagRow]) -> Result<(), HostErr> {
    for (flags, cloexec, status, number) in table {
        let rows = [
            Do(Pipe(*flags), Ends(READ, WRITE)),
            Check(CloexecOf(READ), Bool(*cloexec)),
            Check(FlagsOf(READ), StatusFlags(*status)),
            Check(CloexecOf(WRITE), Bool(*cloexec)),
            Check(FlagsOf(WRITE), StatusFlags(*status)),
            Do(Exec, Done),
        ];
        expect_at(rt, alloc, *flags, &rows, *number)?;
    }
    Ok(())
}

#[test]
fn both_ends_have_the_flags(rt: HostRuntime) -> Result<(), HostErr> {
    expect_all_flags(&rt, rt.alloc(), FLAGS)
}

const ONLY_THE_READ_END: &[Row] = &[
    PIPED,
    Do(SetFlags(READ, O_NONBLOCK), Done),
    Do(Read(READ, b"-", b"-"), Refused(Errno::Again)),
    Do(
        WriteLong {
            fd: WRITE,
            count: 65_537,
            done: 0,
        },
        Flowed(Flow::Part(65_536)),
    ),
    Do(Write(WRITE, b"a"), Flowed(Flow::Wait)),
];

#[test]
fn only_the_end_whose_flag_is_set_does_not_wait(rt: HostRuntime) -> Result<(), HostErr> {
    expect(&rt, rt.alloc(), "only the read end", ONLY_THE_READ_END)
}

const TWO_PIPES: &[Row] = &[
    Check(TwoFree, Ends(READ, WRITE)),
    PIPED,
    Check(
        DescriptionOf(READ),
        Description(DescKind::PipeRead(1), RDONLY),
    ),
    Check(
        DescriptionOf(WRITE),
        Description(DescKind::PipeWrite(1), WRONLY),
    ),
    Do(Close(WRITE), Done),
    Do(Close(1), Done),
    Do(Pipe(0), Ends(1, WRITE)),
    Check(DescriptionOf(1), Description(DescKind::PipeRead(2), RDONLY)),
    Check(
        DescriptionOf(WRITE),
        Description(DescKind::PipeWrite(2), WRONLY),
    ),
];

// Each pipe is gone before the next is made: the host gives its number again, and the table of the pipes does not.
const PIPES_IN_TURN: &[Row] = &[
    PIPED,
    Do(CloseEach(&[READ, WRITE]), Done),
    PIPED,
    Check(
        DescriptionOf(READ),
        Description(DescKind::PipeRead(2), RDONLY),
    ),
    Check(
        DescriptionOf(WRITE),
        Description(DescKind::PipeWrite(2), WRONLY),
    ),
];

const NO_ROOM: &[Row] = &[
    Do(Fill, Count(61)),
    Do(Pipe(0), Refused(Errno::MFile)),
    Do(Close(63), Done),
    Do(Pipe(0), Refused(Errno::MFile)),
    Check(TwoFree, Absent),
    Check(DescriptionOf(63), Absent),
    Do(Close(10), Done),
    Do(Pipe(0), Ends(10, 63)),
    Check(
        DescriptionOf(10),
        Description(DescKind::PipeRead(1), RDONLY),
    ),
];

const TABLES: &[Table] = &[
    (
        "what was written stays without a writer",
        WITHOUT_A_WRITER,
        AFTER_ONE_PIPE,
    ),
    ("each end has its own direction", DIRECTIONS, AFTER_ONE_PIPE),
    ("dup3 over an end closes it", DUPLICATED_OVER, NEXT),
    (
        "the read end has the lower descriptor",
        TWO_PIPES,
        AFTER_TWO_PIPES,
    ),
    (
        "a pipe gets a number that none had before",
        PIPES_IN_TURN,
        AFTER_ONE_PIPE,
    ),
    ("a pipe needs two free descriptors", NO_ROOM, AFTER_ONE_PIPE),
    (
        "a pipe stays with the child of a process that ends",
        PARENT_ENDS,
        AFTER_ONE_PIPE,
    ),
    (
        "a pipe goes with the last process that has it",
        BOTH_END,
        NEXT,
    ),
];

#[test]
fn pipes_are_made_used_and_closed(rt: HostRuntime) -> Result<(), HostErr> {
    expect_all(&rt, rt.alloc(), TABLES)
}
