// Numbers of the lowest crate that no program of these tests reaches, and the first byte of a path.
use crate::expect::same_at;
use dt_base::abi::byte_count;
use dt_base::begins_with_slash;
use std::test::Fail;

// What a program asks to have moved, and what one call moves at most (MAX_RW_COUNT: 2 GiB less a page).
const COUNTS: [(u64, u64); 6] = [
    (0, 0),
    (1, 1),
    (0x7fff_efff, 0x7fff_efff),
    (0x7fff_f000, 0x7fff_f000),
    (0x7fff_f001, 0x7fff_f000),
    (u64::MAX, 0x7fff_f000),
];

#[test]
fn transfers_end_at_their_limit(rt: HostRuntime) -> Result<(), Fail> {
    for (asked, moved) in COUNTS {
        same_at(&rt, asked, byte_count(asked), moved);
    }
    Ok(())
}

#[test]
fn a_path_from_the_root_begins_with_a_slash(rt: HostRuntime) -> Result<(), Fail> {
    let from_root: [&str; 4] = ["/", "//", "/a", "/a/"];
    let others: [&str; 6] = ["", ".", "a", "a/", " /", "\\"];
    for path in from_root {
        assert!(rt; begins_with_slash(path.as_bytes()), "{path}");
    }
    for path in others {
        assert!(rt; !begins_with_slash(path.as_bytes()), "{path}");
    }
    Ok(())
}
