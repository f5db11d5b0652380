// What is told of nodes, and what comes from the host.
use super::play::{Table, expect_all};
use super::row::Call::{DotDot, PathOf, Target, Tell};
use super::row::Outcome::{Dir, Text, Told};
use super::row::Row;
use dt_host::HostErr;
use dt_tree::ROOT;

const NODES: &[Row] = &[
    Row(Tell(b"/"), Told(4, 0o755, 3, 4096, 0)),
    Row(Tell(b"/d"), Told(4, 0o755, 2, 4096, 0)),
    Row(Tell(b"/hello"), Told(8, 0o4711, 1, 5, 0)),
    Row(Tell(b"/d/up"), Told(10, 0o777, 1, 2, 0)),
];

const TEXTS: &[Row] = &[
    Row(Target(b"l"), Text(b"hello")),
    Row(PathOf(ROOT), Text(b"/")),
    Row(PathOf(2), Text(b"/d")),
    Row(DotDot(2), Dir(1)),
    Row(DotDot(1), Dir(1)),
];

const TABLES: &[Table<'static>] = &[
    ("nodes are told of", 1, NODES),
    ("targets and paths come from the host", 2, TEXTS),
];

#[test]
fn nodes_are_told_of_and_targets_come_from_the_host(rt: HostRuntime) -> Result<(), HostErr> {
    expect_all(&rt, rt.alloc(), TABLES)
}
