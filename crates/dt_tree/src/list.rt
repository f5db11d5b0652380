// Listings of directories.
ghost use Rattle.std.specs.Prelude.{◌≡◌, ◌++◌, List, map, codes, IfOk, OnOk, option_map, false};
ghost use Rattle.dt_host.specs.Asks.{Asks};
ghost use Rattle.dt_host.specs.World.{Forest, IsDir, IsLive};
ghost use Rattle.dt_tree.specs.Shape.{is_removed};
ghost use Rattle.dt_tree.specs.Listing.{type_at, rank, is_listed_after, is_left, listed_entry, listing, next_of};
ghost use Rattle.dt_tree.specs.Table.{Stands, kind_of, shape_of};
ghost use Rattle.dt_tree.specs.inner.Lists.{with_listed, listed_host_entry};
ghost use Rattle.dt_tree.specs.inner.Kinds.{type_for};

use crate::inode::Kind;
use crate::tree::Tree;
use dt_base::abi::{DT_CHR, DT_DIR, DT_LNK, DT_REG};
use dt_base::{Blob, NoMemory};
use dt_host::{Host, HostEntry, HostErr, sorted_names};

/// An entry of a listing: its name, the inode that it names, and the type of that node.
#[derive(Debug, Drop)]
pub struct Listed {
    pub name: Blob,
    pub vino: u64,
    pub kind: u8,
}

// Where a name stands in a listing: `.` first, `..` second, and all others after them.
fn rank(name: &[u8]) -> u8
    ensures { result ≡ rank name.now }
{
    if name == b".".as_slice() {
        0
    } else if name == b"..".as_slice() {
        1
    } else {
        2
    }
}

// Whether a name comes after another in a listing.
fn is_listed_after(last: &[u8], name: &[u8]) -> bool
    ensures { result ≡ is_listed_after last.now name.now }
{
    let (a, b) = (rank(last), rank(name));
    a < b || (a == b && last.cmp(name).is_lt())
}

// Whether a name is left in a listing that has come to `last`, or has not begun.
fn is_left(last: Option<&[u8]>, name: &[u8]) -> bool
    ensures { result ≡ is_left (option_map (λ l. l.now) last.entry) name.now }
{
    match last {
        Some(last) => is_listed_after(last, name),
        None => true,
    }
}

/// The type that an entry for a node of this kind has.
pub(crate) fn type_of(kind: Kind) -> u8
    ensures { result ≡ type_for kind }
{
    match kind {
        Kind::File => DT_REG,
        Kind::Dir => DT_DIR,
        Kind::Link => DT_LNK,
        Kind::Device(_) => DT_CHR,
    }
}

impl Tree {
    // The type of a node; 0 where there is none.
    fn type_at(&self, vino: u64) -> u8
        ensures { (v : Forest) → Stands self.now v → result ≡ type_at (shape_of self.now v) vino }
    {
        match self.found(vino) {
            Some(inode) => type_of(inode.kind),
            None => 0,
        }
    }

    // Lists one entry more, where there is room for it and it is left.
    fn add(
        &self,
        list: &mut Vec<Listed>,
        last: Option<&[u8]>,
        most: usize,
        name: &[u8],
        vino: u64,
    ) -> Result<(), NoMemory>
        ensures { (v : Forest) → Stands self.now v → OnOk result (list.new.items
            ≡ with_listed (option_map (λ l. l.now) last.entry) most list.old.items
            (listed_entry (shape_of self.now v) (name.now, vino))) }
    {
        if list.len() < most && is_left(last, name) {
            list.push(Listed {
                name: Blob::new(Vec::from_slice(self.alloc, name)?),
                vino,
                kind: self.type_at(vino),
            })?;
        }
        Ok(())
    }

    // Lists the entries of a directory of the host.
    fn add_all(
        &self,
        list: &mut Vec<Listed>,
        last: Option<&[u8]>,
        most: usize,
        entries: &[HostEntry],
    ) -> Result<(), NoMemory>
        ensures { (v : Forest) → Stands self.now v → (before : List Listed)
            → list.old.items ≡ next_of (option_map (λ l. l.now) last.entry) most before
            → OnOk result (list.new.items ≡ next_of (option_map (λ l. l.now) last.entry) most
            (before ++ map (listed_host_entry self.now v) entries.now)) }
    {
        for entry in entries {
            let vino = self.vino(entry.ino);
            self.add(list, last, most, entry.name.as_slice(), vino)?;
        }
        Ok(())
    }

    /// The first `most` entries of a directory that come after `last`, or from the start. They come in the order
    /// `.`, `..`, then all other names by their bytes. `..` of the root is the root.
    pub fn list_after<H: Host>(
        &self,
        host: &mut H,
        dir: u64,
        last: Option<&[u8]>,
        most: usize,
    ) -> Result<Vec<Listed>, HostErr>
        requires stands { Stands self.now (H.view host.old).forest }
        requires directory { IsDir (shape_of self.now (H.view host.old).forest) dir }
        requires there { is_removed (shape_of self.now (H.view host.old).forest) dir ≡ false }
        ensures ok { IfOk result (λ list. list.items ≡ next_of (option_map (λ l. l.now) last.entry) most
            (listing (shape_of self.now (H.view host.old).forest) dir)) }
        ensures asks { Asks H.view H.count host.old host.new result }
    {
        let entries = sorted_names(host, self.inode(dir).real)?;
        let mut list = Vec::new(self.alloc);
        self.add(&mut list, last, most, b".", dir)?;
        self.add(&mut list, last, most, b"..", self.dot_dot(dir).unwrap_or(0))?;
        self.add_all(&mut list, last, most, &entries)?;
        Ok(list)
    }
}
