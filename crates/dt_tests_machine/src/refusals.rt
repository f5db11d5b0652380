// Each reason why a file is no executable, at its bounds.
use crate::expect::{same, same_at};
use crate::files::{BODY_SIZE, Header, body, file, headers_alone, load, patched};
use dt_base::NoMemory;
use dt_elf::{ElfErr, read_elf};
use std::alloc::Global;
use std::fmt::Debug;
use std::process::Abort;
use std::test::Fail;

// A request for a program interpreter.
const INTERP: Header = Header {
    kind: 3,
    flags: 4,
    offset: 0,
    vaddr: 0,
    filesz: 0,
    memsz: 0,
};

// Why a file is no executable.
fn refusal_of(alloc: Global, file: &[u8]) -> Option<ElfErr> {
    read_elf(alloc, file).err()
}

// Ends the test unless a file that is cut to these lengths is refused so.
fn expect_cut(rt: &impl Abort, alloc: Global, whole: &[u8], cuts: &[(usize, Option<ElfErr>)]) {
    for (length, refusal) in cuts {
        let (cut, _) = whole.split_at((*length).min(whole.len()));
        same_at(rt, *length, refusal_of(alloc, cut), *refusal);
    }
}

// Ends the test unless a file with these headers and a body is refused so.
fn expect_refused<A: Debug + Drop + Copy>(
    rt: &impl Abort,
    alloc: Global,
    at: A,
    headers: &[Header],
    refusal: Option<ElfErr>,
) -> Result<(), Fail> {
    let bytes = file(alloc, headers)?;
    same_at(rt, at, refusal_of(alloc, &bytes), refusal);
    Ok(())
}

const CUTS: &[(usize, Option<ElfErr>)] = &[
    (0, Some(ElfErr::Short)),
    (4, Some(ElfErr::Short)),
    (63, Some(ElfErr::Short)),
    (64, Some(ElfErr::Short)),
    (119, Some(ElfErr::Short)),
    (120, None),
];

#[test]
fn a_file_whose_headers_run_past_its_end_is_short(rt: HostRuntime) -> Result<(), Fail> {
    let alloc = rt.alloc();
    let whole = headers_alone(alloc, &[load(5, 0, 0x1_0000, 120, 120)])?;
    expect_cut(&rt, alloc, &whole, CUTS);
    let hello = dt_asm::hello(alloc)?.elf()?;
    expect_cut(&rt, alloc, &hello, &[(100, Some(ElfErr::Short))]);
    let many = patched(alloc, &hello, 56, &[0xff, 0xff])?;
    same(&rt, refusal_of(alloc, &many), Some(ElfErr::Short));
    Ok(())
}

// The table of no program headers stands at offset 0, so it ends before the file does.
#[test]
fn a_file_without_program_headers_is_short_below_64_bytes(rt: HostRuntime) -> Result<(), Fail> {
    let alloc = rt.alloc();
    let whole = patched(alloc, &headers_alone(alloc, &[])?, 32, &[0])?;
    same(&rt, whole.len(), 64);
    let cuts = [(63, Some(ElfErr::Short)), (64, Some(ElfErr::Header))];
    expect_cut(&rt, alloc, &whole, &cuts);
    Ok(())
}

// A file with its table of one program header, and the same table once more behind three bytes.
fn with_two_tables(alloc: Global) -> Result<Vec<u8>, NoMemory> {
    let mut whole = headers_alone(alloc, &[load(5, 0, 0x1_0000, 1, 1)])?;
    let table = second_part(alloc, &whole)?;
    add_parts(&mut whole, &table)?;
    Ok(whole)
}

// A copy of what stands behind the first 64 bytes.
fn second_part(alloc: Global, whole: &[u8]) -> Result<Vec<u8>, NoMemory> {
    let (_, table) = whole.split_at(64.min(whole.len()));
    Ok(Vec::from_slice(alloc, table)?)
}

fn add_parts(whole: &mut Vec<u8>, table: &[u8]) -> Result<(), NoMemory> {
    whole.extend_from_slice(&[0; 3])?;
    whole.extend_from_slice(table)?;
    Ok(())
}

// Ends the test unless a file whose table is said to stand at this offset is refused so.
fn expect_moved(
    rt: &impl Abort,
    alloc: Global,
    whole: &[u8],
    offset: u64,
    refusal: Option<ElfErr>,
) -> Result<(), Fail> {
    let moved = patched(alloc, whole, 32, &u64::to_le_bytes(offset))?;
    same_at(rt, offset, refusal_of(alloc, &moved), refusal);
    Ok(())
}

#[test]
fn the_table_of_program_headers_may_stand_anywhere_in_the_file(
    rt: HostRuntime,
) -> Result<(), Fail> {
    let alloc = rt.alloc();
    let whole = with_two_tables(alloc)?;
    expect_moved(&rt, alloc, &whole, 123, None)?;
    expect_moved(&rt, alloc, &whole, 124, Some(ElfErr::Short))?;
    expect_moved(&rt, alloc, &whole, u64::MAX, Some(ElfErr::Short))
}

// Ends the test unless a file with this byte at an offset is refused so.
fn expect_patched(
    rt: &impl Abort,
    alloc: Global,
    good: &[u8],
    offset: usize,
    byte: u8,
    refusal: Option<ElfErr>,
) -> Result<(), Fail> {
    let bad = patched(alloc, good, offset, &[byte])?;
    same_at(rt, (offset, byte), refusal_of(alloc, &bad), refusal);
    Ok(())
}

const BAD_BYTES: &[(usize, u8, ElfErr)] = &[
    (0, 0x7e, ElfErr::Magic),
    (1, b'e', ElfErr::Magic),
    (2, b'l', ElfErr::Magic),
    (3, b'f', ElfErr::Magic),
    (4, 1, ElfErr::Class),
    (5, 2, ElfErr::Class),
    (6, 0, ElfErr::Class),
    (16, 1, ElfErr::Kind),
    (16, 3, ElfErr::Kind),
    (17, 1, ElfErr::Kind),
    (18, 242, ElfErr::Machine),
    (18, 244, ElfErr::Machine),
    (19, 1, ElfErr::Machine),
    (28, 0x40, ElfErr::Header),
    (29, 1, ElfErr::Header),
    (54, 55, ElfErr::Header),
    (54, 57, ElfErr::Header),
    (55, 1, ElfErr::Header),
    (56, 0, ElfErr::Header),
    (56, 65, ElfErr::Header),
];

// Ends the test unless a file with each of these bytes is refused.
fn expect_bad(rt: &impl Abort, alloc: Global, good: &[u8]) -> Result<(), Fail> {
    for (offset, byte, refusal) in BAD_BYTES {
        expect_patched(rt, alloc, good, *offset, *byte, Some(*refusal))?;
    }
    Ok(())
}

#[test]
fn fields_of_the_header_are_refused_beside_what_they_are_to_be(
    rt: HostRuntime,
) -> Result<(), Fail> {
    let alloc = rt.alloc();
    let good = file(alloc, &[load(5, 0, 0x1_0000, 200, 200)])?;
    same(&rt, refusal_of(alloc, &good), None);
    expect_bad(&rt, alloc, &good)
}

const UNREAD: &[usize] = &[7, 8, 15, 20, 40, 48, 52, 58, 60, 62, 88, 112];

// Ends the test unless a file with other bytes at these offsets is an executable.
fn expect_unread(rt: &impl Abort, alloc: Global, good: &[u8]) -> Result<(), Fail> {
    for offset in UNREAD {
        expect_patched(rt, alloc, good, *offset, 0xff, None)?;
    }
    Ok(())
}

// The entry of a file with these bytes for it.
fn entry_of(alloc: Global, good: &[u8], entry: &[u8]) -> Result<u64, Fail> {
    let file = patched(alloc, good, 24, entry)?;
    Ok(read_elf(alloc, &file)?.entry)
}

#[test]
fn bytes_that_nothing_reads_refuse_nothing(rt: HostRuntime) -> Result<(), Fail> {
    let alloc = rt.alloc();
    let good = file(alloc, &[load(5, 0, 0x1_0000, 200, 200)])?;
    expect_unread(&rt, alloc, &good)?;
    let highest = entry_of(alloc, &good, &[0xff, 0xff, 0xff, 0xff, 0x3f])?;
    same(&rt, highest, 0x3f_ffff_ffff);
    Ok(())
}

// Ends the test unless a file with this segment behind one that is not loaded is refused so.
fn expect_segment(
    rt: &impl Abort,
    alloc: Global,
    segment: Header,
    refusal: Option<ElfErr>,
) -> Result<(), Fail> {
    let none = load(0, u64::MAX, 0, u64::MAX, 0);
    let at = (segment.offset, segment.vaddr, segment.memsz);
    expect_refused(rt, alloc, at, &[none, segment], refusal)
}

// The end of a file with two program headers.
const END: u64 = 64 + 2 * 56 + BODY_SIZE;

const NO_SEGMENT: Option<ElfErr> = Some(ElfErr::Segment);

// Segments by their offsets, addresses, and sizes in the file and in memory, each with why it is refused.
const BOUNDS: &[(u64, u64, u64, u64, Option<ElfErr>)] = &[
    (0, 0x1_0000, 10, 10, None),
    (0, 0x1_0000, 11, 10, NO_SEGMENT),
    (END - 10, 0x1_0000, 10, 10, None),
    (END - 9, 0x1_0000, 10, 10, NO_SEGMENT),
    (END, 0x1_0000, 0, 10, None),
    (END + 1, 0x1_0000, 0, 10, NO_SEGMENT),
    (u64::MAX, 0x1_0000, 1, 10, NO_SEGMENT),
    (u64::MAX, 0x1_0000, 2, 10, NO_SEGMENT),
    (0, 0x1000, 0, 1, None),
    (0, 0xfff, 0, 1, NO_SEGMENT),
    (0, 0x1f_ffff_f000, 0, 4096, None),
    (0, 0x1f_ffff_f000, 0, 4097, NO_SEGMENT),
    (0, 0x1000, 0, u64::MAX, NO_SEGMENT),
    (0, u64::MAX, 0, 1, NO_SEGMENT),
];

// Ends the test unless each of them is refused so.
fn expect_bounds(rt: &impl Abort, alloc: Global) -> Result<(), Fail> {
    for (offset, vaddr, filesz, memsz, refusal) in BOUNDS {
        let segment = load(5, *offset, *vaddr, *filesz, *memsz);
        expect_segment(rt, alloc, segment, *refusal)?;
    }
    Ok(())
}

#[test]
fn a_segment_is_refused_one_past_each_of_its_bounds(rt: HostRuntime) -> Result<(), Fail> {
    same(&rt, END, body(2).saturating_add(BODY_SIZE));
    let none = load(0, u64::MAX, 0, u64::MAX, 0);
    expect_segment(&rt, rt.alloc(), none, Some(ElfErr::Segment))?;
    expect_bounds(&rt, rt.alloc())
}

// Ends the test unless a file with one segment and another at this address is refused so, in both orders.
fn expect_beside(
    rt: &impl Abort,
    alloc: Global,
    vaddr: u64,
    memsz: u64,
    refusal: Option<ElfErr>,
) -> Result<(), Fail> {
    let one = load(5, 0, 0x1_0000, 100, 200);
    let other = load(6, 0, vaddr, 0, memsz);
    expect_refused(rt, alloc, (vaddr, memsz), &[one, other], refusal)?;
    expect_refused(rt, alloc, (vaddr, memsz), &[other, one], refusal)
}

const BESIDE: &[(u64, u64, Option<ElfErr>)] = &[
    (0x1_00c8, 10, None),
    (0x1_00c7, 10, Some(ElfErr::Overlap)),
    (0xfff6, 10, None),
    (0xfff6, 11, Some(ElfErr::Overlap)),
    (0x1_0000, 200, Some(ElfErr::Overlap)),
    (0x1_0064, 1, Some(ElfErr::Overlap)),
    (0x8000, 0x1_0000, Some(ElfErr::Overlap)),
    (0x1_0064, 0, None),
];

fn expect_all_beside(rt: &impl Abort, alloc: Global) -> Result<(), Fail> {
    for (vaddr, memsz, refusal) in BESIDE {
        expect_beside(rt, alloc, *vaddr, *memsz, *refusal)?;
    }
    Ok(())
}

#[test]
fn segments_that_touch_do_not_overlap_and_those_that_share_a_byte_do(
    rt: HostRuntime,
) -> Result<(), Fail> {
    expect_all_beside(&rt, rt.alloc())?;
    let three = [
        load(5, 0, 0x1_0000, 100, 200),
        load(4, 0, 0x2_0000, 0, 1),
        load(6, 0, 0x1_0010, 0, 1),
    ];
    expect_refused(&rt, rt.alloc(), "three", &three, Some(ElfErr::Overlap))
}

#[test]
fn an_interpreter_of_no_bytes_is_refused(rt: HostRuntime) -> Result<(), Fail> {
    let one = load(5, 0, 0x1_0000, 100, 200);
    let refusal = Some(ElfErr::Interp);
    expect_refused(&rt, rt.alloc(), "last", &[one, INTERP], refusal)?;
    expect_refused(&rt, rt.alloc(), "first", &[INTERP, one], refusal)
}

// A file that has each of the faults.
fn faulty(alloc: Global) -> Result<Vec<u8>, NoMemory> {
    let misplaced = load(5, 0, 0x1_0000, 11, 10);
    let headers = [INTERP, load(5, 0, 0x1_0000, 1, 1), misplaced];
    let mut bytes = headers_alone(alloc, &headers)?;
    for (offset, fault) in FAULTS {
        put(&mut bytes, *offset, *fault);
    }
    Ok(bytes)
}

// Puts a byte at an offset.
fn put(bytes: &mut [u8], offset: usize, byte: u8) {
    if let Some(there) = bytes.get_mut(offset) {
        *there = byte;
    }
}

const FAULTS: &[(usize, u8)] = &[(0, 0), (4, 0), (16, 0), (18, 0), (54, 0), (35, 1)];

// What is told, and the byte at an offset that mends it.
const MENDED: &[(ElfErr, usize, u8)] = &[
    (ElfErr::Short, 35, 0),
    (ElfErr::Magic, 0, 0x7f),
    (ElfErr::Class, 4, 2),
    (ElfErr::Kind, 16, 2),
    (ElfErr::Machine, 18, 243),
    (ElfErr::Header, 54, 56),
    (ElfErr::Segment, 64 + 112 + 32, 10),
    (ElfErr::Overlap, 64 + 112 + 18, 2),
    (ElfErr::Interp, 64, 4),
];

// Ends the test unless a file's faults are told in this order, each once the one before it is mended.
fn expect_mended(rt: &impl Abort, alloc: Global, bytes: &mut [u8]) {
    for (refusal, offset, mended) in MENDED {
        same(rt, refusal_of(alloc, bytes), Some(*refusal));
        put(bytes, *offset, *mended);
    }
}

// A file with all faults loses one after the other: each patch mends the one that was told.
#[test]
fn the_first_fault_is_told(rt: HostRuntime) -> Result<(), Fail> {
    let mut bytes = faulty(rt.alloc())?;
    expect_mended(&rt, rt.alloc(), &mut bytes);
    same(&rt, refusal_of(rt.alloc(), &bytes), None);
    Ok(())
}
