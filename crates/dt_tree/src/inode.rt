// What a tree keeps of a node.
ghost use Rattle.std.specs.Prelude.{◌≡◌, None};
ghost use Rattle.dt_tree.specs.Table.{device_of_kind};

use dt_base::Device;

/// What kind of node it is.
#[derive(Clone, Copy, Debug, PartialEq, Eq)]
pub enum Kind {
    File,
    Dir,
    Link,
    Device(Device),
}

impl Kind {
    // Which device it is, if it is one.
    pub(crate) fn device(self) -> Option<Device>
        ensures { result ≡ device_of_kind self }
    {
        match self {
            Kind::Device(device) => Some(device),
            Kind::File | Kind::Dir | Kind::Link => None,
        }
    }
}

/// What a tree keeps of a node: its number at the host, its mode, stamp and holds, and for speed its kind,
/// how many names it has, and the directory that names it if it is one.
#[derive(Clone, Copy, Debug)]
pub struct Inode {
    pub real: u64,
    pub mode: u32,
    pub stamp: u64,
    pub holds: u64,
    pub kind: Kind,
    pub names: u32,
    pub up: Option<u64>,
}

impl Inode {
    // A node that is new: without a name, and not held.
    pub(crate) fn new(real: u64, kind: Kind, mode: u32, stamp: u64) -> Inode
        ensures { result ≡ record {
          real = real;
          mode = mode;
          stamp = stamp;
          holds = 0;
          kind = kind;
          names = 0;
          up = None;
        } }
    {
        Inode {
            real,
            mode,
            stamp,
            holds: 0,
            kind,
            names: 0,
            up: None,
        }
    }
}
