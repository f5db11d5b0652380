// The texts of a report.
ghost use Rattle.dt_host.specs.World.{IsEmptyStart};

use super::folder::{BlobBytes, image_of, image_of_sizes};
use crate::expect::{same, same_at};
use dt_base::{Blob, End, Errno, Event, Image, NoMemory, Verdict};
use dt_image::{event_text, events_text, header, tree_lines, verdict_text};
use dt_memhost::{MemHost, Picker};
use dt_tree::Tree;
use std::alloc::{AllocError, Global};
use std::process::Abort;
use std::test::Fail;

#[test]
fn events_as_text(rt: HostRuntime) -> Result<(), Fail> {
    let first = header(rt.alloc(), 1)?;
    same(&rt, first.as_slice(), b"dettrace 1\n".as_slice());
    let second = header(rt.alloc(), 2)?;
    same(&rt, second.as_slice(), b"dettrace 2\n".as_slice());
    let hello = Vec::from_slice(rt.alloc(), b"hello\n")?;
    let events = [
        Event::Out(1, Blob::new(hello)),
        Event::Exit(2, End::Signal(9)),
        Event::Exit(1, End::Code(0)),
    ];
    same(
        &rt,
        event_text(rt.alloc(), &events[0])?.as_slice(),
        b"out 1 6\nhello\n\n".as_slice(),
    );
    same(
        &rt,
        events_text(rt.alloc(), &events)?.as_slice(),
        b"out 1 6\nhello\n\nexit 2 signal 9\nexit 1 code 0\n".as_slice(),
    );
    Ok(())
}

const VERDICTS: &[(Verdict, &[u8])] = &[
    (Verdict::Ended, b"verdict ended\n"),
    (Verdict::Deadlock, b"verdict deadlock\n"),
    (Verdict::Budget, b"verdict budget\n"),
    (Verdict::Unsupported(2, 198), b"verdict unsupported 2 198\n"),
    (Verdict::NoStart(Errno::NoEnt), b"verdict nostart 2\n"),
];

// Ends the test unless each verdict has that text.
fn expect_verdicts(
    rt: &impl Abort,
    alloc: Global,
    rows: &[(Verdict, &[u8])],
) -> Result<(), NoMemory> {
    for (verdict, want) in rows {
        same(rt, verdict_text(alloc, verdict)?.as_slice(), *want);
    }
    Ok(())
}

#[test]
fn verdicts_as_text(rt: HostRuntime) -> Result<(), NoMemory> {
    expect_verdicts(&rt, rt.alloc(), VERDICTS)
}

// How many words of 0 a host takes first, and the number of the stream whose words come after those.
type Words = (usize, u64);

const STREAM: Words = (0, 1);

// Of the first host each word is 0, since it takes fewer for a small tree.
const SIX_HOSTS: &[Words] = &[(1_000, 1), (0, 0), (0, 1), (0, 2), (0, 3), (0, u64::MAX)];

// The blobs of images.
const BLOBS: &[BlobBytes<'static>] = &[("img/abc", b"abc"), ("img/empty", b"")];

// The lines of the tree of this image, whose host chooses by these words.
fn lines_of(alloc: Global, image: &Image, words: Words) -> Result<Blob, Fail> {
    let picker = Picker::new(vec![in alloc; 0; words.0]?, words.1);
    let mut host = MemHost::new(alloc, picker, Vec::new(alloc))?;
    lines_at(alloc, &mut host, image)
}

// The lines of the tree of this image, over a host that is new.
fn lines_at(alloc: Global, host: &mut MemHost, image: &Image) -> Result<Blob, Fail>
    requires { IsEmptyStart host.old.view }
{
    let mut tree = Tree::new(alloc, host)?;
    tree.install(host, image)?;
    Ok(tree_lines(alloc, host, &tree)?)
}

#[test]
fn lines_stand_in_order_of_whole_paths_whatever_the_host_chooses(
    rt: HostRuntime,
) -> Result<(), Fail> {
    let line = "file:/a.b:420:abc,file:/a b:420:abc,dir:/a:493:,file:/a/b:420:empty,link:/l:0:a/b";
    let want: &[u8] = b"tree 5\n\
        dir 2 0755 0 /a\n\
        file 3 0644 0 3 ba7816bf8f01cfea414140de5dae2223b00361a396177a9cb410ff61f20015ad /a%20b\n\
        file 4 0644 0 3 ba7816bf8f01cfea414140de5dae2223b00361a396177a9cb410ff61f20015ad /a.b\n\
        file 5 0644 0 0 e3b0c44298fc1c149afbf4c8996fb92427ae41e4649b934ca495991b7852b855 /a/b\n\
        link 6 0 /l a/b\n";
    let image = image_of(rt.alloc(), line, BLOBS)?;
    expect_lines(&rt, rt.alloc(), &image, SIX_HOSTS, want)
}

// Ends the test unless an image has these lines, by whichever of these words the host chooses.
fn expect_lines(
    rt: &impl Abort,
    alloc: Global,
    image: &Image,
    hosts: &[Words],
    want: &[u8],
) -> Result<(), Fail> {
    for words in hosts {
        let lines = lines_of(alloc, image, *words)?;
        same_at(rt, *words, lines.as_slice(), want);
    }
    Ok(())
}

#[test]
fn paths_and_targets_are_escaped(rt: HostRuntime) -> Result<(), Fail> {
    let line = "dir:/%~:7:,dir:/%~/\u{e9}:4095:,link:/%~/\u{e9}/\u{7f}:0:a b%\u{e9}";
    let want: &[u8] = b"tree 3\n\
        dir 2 0007 0 /%25~\n\
        dir 3 7777 0 /%25~/%C3%A9\n\
        link 4 0 /%25~/%C3%A9/%7F a%20b%25%C3%A9\n";
    let image = image_of(rt.alloc(), line, BLOBS)?;
    expect_lines(&rt, rt.alloc(), &image, &[STREAM], want)
}

// The entries of a thousand directories, each in the one before, and the lines that a report has of them.
fn levels(alloc: Global) -> Result<(String, String), AllocError> {
    let mut line = String::from_str(alloc, "dir:/d:493:")?;
    let mut want = String::from_str(alloc, "tree 1000\ndir 2 0755 0 /d\n")?;
    add_levels(alloc, &mut line, &mut want)?;
    Ok((line, want))
}

// Adds those of all directories below the first.
fn add_levels(alloc: Global, line: &mut String, want: &mut String) -> Result<(), AllocError> {
    for inode in 3..1_002u32 {
        let path = "/d".repeat(alloc, inode as usize - 1)?;
        add_level(alloc, line, want, inode, path.as_str())?;
    }
    Ok(())
}

fn add_level(
    alloc: Global,
    line: &mut String,
    want: &mut String,
    inode: u32,
    path: &str,
) -> Result<(), AllocError> {
    let entry = format!(in alloc; ",dir:{path}:493:")?;
    line.push_str(entry.as_str())?;
    let wanted = format!(in alloc; "dir {inode} 0755 0 {path}\n")?;
    want.push_str(wanted.as_str())
}

#[test]
fn a_tree_of_a_thousand_levels_has_a_line_for_each(rt: HostRuntime) -> Result<(), Fail> {
    let (line, want) = levels(rt.alloc())?;
    let image = image_of(rt.alloc(), line.as_str(), &[])?;
    let lines = lines_of(rt.alloc(), &image, STREAM)?;
    same(&rt, lines.as_slice() == want.as_bytes(), true);
    Ok(())
}

#[test]
fn the_longest_file_has_its_line(rt: HostRuntime) -> Result<(), Fail> {
    let want: &[u8] = b"tree 1\nfile 2 0644 0 16777216 \
        a06c26cbac8b80704f420222dae5658b88ff2da96702d12ef7a4223e9361f7c1 /big\n";
    let blobs = [("big", 16_777_216)];
    let image = image_of_sizes(rt.alloc(), "file:/big:420:big", &blobs)?;
    expect_lines(&rt, rt.alloc(), &image, &[STREAM], want)
}
