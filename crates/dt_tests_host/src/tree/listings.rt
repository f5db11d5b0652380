// Listings of directories, by pieces.
use super::play::{Table, expect_all};
use super::row::Call::List;
use super::row::Outcome::Lists;
use super::row::Row;
use dt_base::abi::{DT_DIR, DT_LNK, DT_REG};
use dt_host::HostErr;
use dt_tree::ROOT;

const PIECES: &[Row] = &[
    Row(
        List(ROOT, None, 3),
        Lists(&[(".", 1, DT_DIR), ("..", 1, DT_DIR), ("d", 2, DT_DIR)]),
    ),
    Row(
        List(ROOT, Some(b"d"), 2),
        Lists(&[("hello", 5, DT_REG), ("l", 6, DT_LNK)]),
    ),
    Row(
        List(ROOT, Some(b"m0"), 9),
        Lists(&[("s", 8, DT_LNK), ("t", 9, DT_LNK)]),
    ),
    Row(List(ROOT, Some(b"t"), 9), Lists(&[])),
    Row(List(ROOT, None, 0), Lists(&[])),
];

const DOTS: &[Row] = &[
    Row(
        List(2, None, 9),
        Lists(&[(".", 2, 4), ("..", 1, 4), ("f", 3, 8), ("up", 4, 10)]),
    ),
    Row(List(2, Some(b"."), 2), Lists(&[("..", 1, 4), ("f", 3, 8)])),
    Row(
        List(2, Some(b".."), 9),
        Lists(&[("f", 3, 8), ("up", 4, 10)]),
    ),
    Row(List(2, Some(b"!"), 9), Lists(&[("f", 3, 8), ("up", 4, 10)])),
];

const TABLES: &[Table<'static>] = &[
    ("directories are listed by pieces", 1, PIECES),
    ("dots come first", 2, DOTS),
];

#[test]
fn directories_are_listed_by_pieces(rt: HostRuntime) -> Result<(), HostErr> {
    expect_all(&rt, rt.alloc(), TABLES)
}
