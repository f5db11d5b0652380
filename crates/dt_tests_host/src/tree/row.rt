// What a test does at a tree, row by row, and what each call is to come to.
use dt_base::{Blob, Errno};
use dt_tree::{Listed, Meta};
use dt_walk::{Last, Place};

/// A call, and what it is to come to.
#[derive(Clone, Copy)]
pub struct Row<'a>(pub Call<'a>, pub Outcome<'a>);

/// A call of a tree, or a walk in it.
#[derive(Clone, Copy)]
pub enum Call<'a> {
    /// A path is walked from the root, and a link that is its last name is followed or kept.
    Walk(&'a [u8], Last),
    /// What is told of the node that a path leads to, where a link that is its last name is kept.
    Tell(&'a [u8]),
    /// What is told of a file in the root.
    TellFile(&'a [u8]),
    /// The target of a link in the root.
    Target(&'a [u8]),
    /// The path of a directory.
    PathOf(u64),
    /// The directory that `..` names in a directory.
    DotDot(u64),
    /// A directory is listed, behind a name or from its start: so many entries at most.
    List(u64, Option<&'a [u8]>, usize),
    /// Bytes are written to a file in the root, at an offset; the time is 1,000.
    Write(&'a [u8], u64, &'a [u8]),
    /// A file in the root gets another length; the time is 2,000.
    Cut(&'a [u8], u64),
    /// A node is made in the root, under the name `new`; the time is 3,000.
    Make(NewNode<'a>),
    /// A file in the root gets a second name there, `other`; the time is 4,000.
    Link(&'a [u8]),
    /// A file in the root gets the name `moved` there; the time is 5,000.
    Move(&'a [u8]),
    /// A name in the root is taken away, unless it is that of a directory with entries; the time is 6,000.
    Drop(&'a [u8]),
    /// What the host itself holds where names lead to from its root: the kind of node, and the names in a directory,
    /// the first 16 bytes of a file or the target of a link.
    Held(&'a [&'a str]),
}

/// A node that is made.
#[derive(Clone, Copy)]
pub enum NewNode<'a> {
    /// A file of these bytes.
    File(&'a [u8]),
    Dir,
    /// A link to `hello`.
    Link,
}

/// What a call is to come to.
#[derive(Clone, Copy)]
pub enum Outcome<'a> {
    /// It is done, and answers nothing.
    Done,
    /// It is refused.
    Refused(Errno),
    /// A place: its directory, its name, the node there, and whether the path ends in a slash.
    Leads(u64, &'a [u8], Option<u64>, bool),
    /// A node's type, mode, links, size and stamp.
    Told(u8, u32, u32, u64, u64),
    /// A node's size and stamp, whatever else is told of it.
    Sized(u64, u64),
    /// A target or a path.
    Text(&'a [u8]),
    /// A directory.
    Dir(u64),
    /// Names, inodes and types.
    Lists(&'a [(&'a str, u64, u8)]),
}

/// What a call came to.
#[derive(Debug, Drop)]
pub enum Found {
    Done,
    Refused(Errno),
    Place(Place),
    Meta(Meta),
    Text(Blob),
    Dir(u64),
    Entries(Vec<Listed>),
    /// Nothing, since what it asks for is not there, or a name that it gives is there. No outcome is that.
    Absent,
}

/// Whether a call came to what it was to come to.
pub fn is_met(wanted: &Outcome, found: &Found) -> bool {
    match (wanted, found) {
        (Outcome::Done, Found::Done) => true,
        (Outcome::Refused(wanted), Found::Refused(errno)) => errno == wanted,
        (Outcome::Leads(parent, name, node, slash), Found::Place(place)) => {
            place.parent == *parent
                && place.name.as_slice() == *name
                && place.node == *node
                && place.slash == *slash
        }
        (Outcome::Told(kind, mode, nlink, size, stamp), Found::Meta(m)) => {
            (m.kind, m.mode, m.nlink, m.size, m.stamp) == (*kind, *mode, *nlink, *size, *stamp)
        }
        (Outcome::Sized(size, stamp), Found::Meta(m)) => (m.size, m.stamp) == (*size, *stamp),
        (Outcome::Text(bytes), Found::Text(text)) => text.as_slice() == *bytes,
        (Outcome::Dir(wanted), Found::Dir(dir)) => dir == wanted,
        (Outcome::Lists(wanted), Found::Entries(entries)) => are_listed(entries, wanted),
        _ => false,
    }
}

// Whether the entries are of these names, inodes and types.
fn are_listed(entries: &[Listed], wanted: &[(&str, u64, u8)]) -> bool {
    if entries.len() != wanted.len() {
        return false;
    }
    for index in 0..entries.len() {
        if !is_listed(&entries[index], wanted[index]) {
            return false;
        }
    }
    true
}

fn is_listed(entry: &Listed, wanted: (&str, u64, u8)) -> bool {
    let (name, inode, kind) = wanted;
    entry.name.as_slice() == name.as_bytes() && entry.vino == inode && entry.kind == kind
}
