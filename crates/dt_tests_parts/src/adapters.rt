// What the adapters make of the machine's answers, and how they count its faults.
use crate::expect::{same, same_at};
use dt_adapters::{FolderStore, StdSink};
use dt_host::{Sink, SinkErr, Store, StoreErr};
use std::fs::File;
use std::io::{ErrorKind, Write};
use std::process::Abort;
use std::rt::Files;
use std::test::Fail;
use std::{fs, io};

// A writer that takes so many bytes of each piece at most, or fails.
#[derive(Drop)]
struct Writer {
    most: Option<usize>,
}

impl Write for Writer {
    fn write(&mut self, piece: &[u8]) -> io::Result<usize> {
        match self.most {
            Some(most) => Ok(piece.len().min(most)),
            None => Err(io::Error::from(ErrorKind::BrokenPipe)),
        }
    }

    fn flush(&mut self) -> io::Result<()> {
        Ok(())
    }
}

// What a writer takes at most, what a sink before it answers to three bytes, and how many faults it counts then.
type Row = (Option<usize>, Result<usize, SinkErr>, u64);

const ROWS: &[Row] = &[
    (Some(9), Ok(3), 0),
    (Some(2), Ok(2), 0),
    (Some(0), Err(SinkErr::Failed), 1),
    (None, Err(SinkErr::Failed), 1),
];

fn expect_row(rt: &impl Abort, row: &Row) {
    let (most, answer, faults) = *row;
    let mut sink = StdSink::new(Writer { most });
    same_at(rt, most, sink.faults(), 0);
    same_at(rt, most, sink.write(b"abc"), answer);
    same_at(rt, most, sink.faults(), faults);
}

fn expect_rows(rt: &impl Abort, rows: &[Row]) {
    for row in rows {
        expect_row(rt, row);
    }
}

#[test]
fn a_sink_passes_on_a_part_and_counts_a_writer_that_takes_nothing(rt: HostRuntime) {
    expect_rows(&rt, ROWS);
}

#[test]
fn a_sink_counts_each_fault(rt: HostRuntime) {
    let mut sink = StdSink::new(Writer { most: None });
    for faults in 1..4 {
        same_at(&rt, faults, sink.write(b"abc"), Err(SinkErr::Failed));
        same_at(&rt, faults, sink.faults(), faults);
    }
}

const FOLDER: &str = "folder_store_test";

const ABC: &str = "folder_store_test/abc";

const NOTHING: &str = "folder_store_test/nothing";

const PUT: &str = "folder_store_test/put";

// Where the bytes of `PUT` are written at first.
const BESIDE: &str = "folder_store_test/.put.new";

fn make_folder<F: AllocGlobal + Files<File = File>>(files: &F) -> io::Result<()> {
    let _ = fs::remove_dir_all(files, FOLDER);
    fs::create_dir(files, FOLDER)?;
    fs::write(files, ABC, b"abc".as_slice())
}

fn expect_reads<F: AllocGlobal + Files<File = File>>(rt: &impl Abort, store: &mut FolderStore<F>) {
    let mut piece = [0; 4];
    same(rt, store.size(ABC), Ok(Some(3)));
    same(rt, store.read_at(ABC, 1, &mut piece), Ok(2));
    same(rt, piece, *b"bc\0\0");
    same(rt, store.size(NOTHING), Ok(None));
    same(rt, store.faults(), 0);
}

fn expect_faults<F: AllocGlobal + Files<File = File>>(rt: &impl Abort, store: &mut FolderStore<F>) {
    expect_no_size(rt, store, "a folder", FOLDER);
    same(rt, store.faults(), 1);
    let through = "folder_store_test/abc/nothing";
    expect_no_size(rt, store, "a path through a file", through);
    same(rt, store.faults(), 2);
    expect_no_piece(rt, store, "a file that has ended", ABC, 3);
    same(rt, store.faults(), 3);
    expect_no_piece(rt, store, "a file that is gone", NOTHING, 0);
    same(rt, store.faults(), 4);
}

fn expect_no_size<F: AllocGlobal + Files<File = File>>(
    rt: &impl Abort,
    store: &mut FolderStore<F>,
    what: &str,
    path: &str,
) {
    same_at(rt, what, store.size(path), Err(StoreErr::Failed));
}

fn expect_no_piece<F: AllocGlobal + Files<File = File>>(
    rt: &impl Abort,
    store: &mut FolderStore<F>,
    what: &str,
    path: &str,
    offset: u64,
) {
    let mut piece = [0; 4];
    let read = store.read_at(path, offset, &mut piece);
    same_at(rt, what, read, Err(StoreErr::Failed));
}

#[test]
fn a_store_reads_what_is_there_and_counts_what_is_not(rt: HostRuntime) -> Result<(), Fail> {
    make_folder(&rt)?;
    let mut store = FolderStore::new(&rt);
    expect_reads(&rt, &mut store);
    expect_faults(&rt, &mut store);
    fs::remove_dir_all(&rt, FOLDER)?;
    Ok(())
}

// Puts two files under one name, the second over what a run that was killed left beside it.
fn expect_puts<F: AllocGlobal + Files<File = File>>(
    rt: &impl Abort,
    files: &F,
    store: &mut FolderStore<F>,
) -> io::Result<()> {
    same(rt, store.put(PUT, b"a longer text"), Ok(()));
    fs::write(files, BESIDE, b"left".as_slice())?;
    same(rt, store.put(PUT, b"abc"), Ok(()));
    let mut piece = [0; 4];
    same(rt, store.size(PUT), Ok(Some(3)));
    same(rt, store.read_at(PUT, 0, &mut piece), Ok(3));
    same(rt, piece, *b"abc\0");
    same(rt, store.size(BESIDE), Ok(None));
    same(rt, store.faults(), 0);
    Ok(())
}

// A folder is no place for a file, and no file is put into a folder that is missing.
fn expect_put_faults<F: AllocGlobal + Files<File = File>>(
    rt: &impl Abort,
    store: &mut FolderStore<F>,
) {
    same(rt, store.put(FOLDER, b"abc"), Err(StoreErr::Failed));
    same(rt, store.faults(), 1);
    same(rt, store.size(".folder_store_test.new"), Ok(None));
    let missing = "folder_store_test/nothing/put";
    same(rt, store.put(missing, b"abc"), Err(StoreErr::Failed));
    same(rt, store.faults(), 2);
}

#[test]
fn a_store_puts_a_file_in_place_of_another_and_leaves_nothing_beside_it(
    rt: HostRuntime,
) -> Result<(), Fail> {
    make_folder(&rt)?;
    let mut store = FolderStore::new(&rt);
    expect_puts(&rt, &&rt, &mut store)?;
    expect_put_faults(&rt, &mut store);
    fs::remove_dir_all(&rt, FOLDER)?;
    Ok(())
}
