//! The layout of `struct stat` on 64-bit RISC-V, and what its fields hold (asm-generic/stat.h).
ghost use Rattle.std.specs.Prelude.{◌≡◌, ◌+◌, ◌≤◌, length};
ghost use Rattle.dt_fcalls.specs.declared.stat.TheConstants.{STAT_LEN as LEN};
ghost use Rattle.dt_callbase.specs.declared.wall_time.TheConstants.{NANOSECONDS as HALF};
ghost use Rattle.dt_fcalls.specs.Stat.{type_bits, device_number, st_blocks, node_status, outer_status, stream_status, pipe_status};
ghost use Rattle.dt_fcalls.specs.Stat.{with_identity, with_size_fields, with_time, stat_bytes};
ghost use Rattle.dt_fcalls.specs.Stat.{stat_of, stream_stat, pipe_stat};

use dt_base::abi::{
    AT_EMPTY_PATH, AT_NO_AUTOMOUNT, AT_SYMLINK_NOFOLLOW, DT_CHR, DT_DIR, DT_LNK, DT_REG, S_IFCHR,
    S_IFDIR, S_IFIFO, S_IFLNK, S_IFREG,
};
use dt_base::{Device, put32, put64};
use dt_callbase::wall_time::{FIRST_SECOND, NANOSECONDS, SECOND_TICKS};
use dt_tree::Meta;

/// The flags that newfstatat(2) takes.
pub const STAT_FLAGS: u32 = AT_SYMLINK_NOFOLLOW | AT_NO_AUTOMOUNT | AT_EMPTY_PATH;

/// Bytes of `struct stat`.
pub const STAT_LEN: usize = 128;

/// Where the number of the device stands, 8 bytes (each constant ST_.. is an offset).
pub const ST_DEV: usize = 0;

/// The inode, 8 bytes.
pub const ST_INO: usize = 8;

/// The type and the mode, 4 bytes.
pub const ST_MODE: usize = 16;

/// The link count, 4 bytes.
pub const ST_NLINK: usize = 20;

/// Which device it is, 8 bytes; 0 where it is none.
pub const ST_RDEV: usize = 32;

/// The size in bytes, 8 bytes.
pub const ST_SIZE: usize = 48;

/// The size of a block that reads and writes do best with, 4 bytes.
pub const ST_BLKSIZE: usize = 56;

/// The sectors that the node takes, 8 bytes.
pub const ST_BLOCKS: usize = 64;

/// The time of the last access: 8 bytes of seconds, and 8 of nanoseconds (as of the next two).
pub const ST_ATIME: usize = 72;

/// The time of the last modification.
pub const ST_MTIME: usize = 88;

/// The time of the last change of what is kept of the node.
pub const ST_CTIME: usize = 104;

/// The type and the mode of the input and of the output streams: a character device that its owner reads and writes,
/// and its group writes.
pub const STREAM_MODE: u32 = S_IFCHR | 0o620;

/// The type and the mode of either end of a pipe: a FIFO that its owner reads and writes.
pub const PIPE_MODE: u32 = S_IFIFO | 0o600;

/// The inode of the input and of the output streams, past all inodes of a tree. A pipe's is this plus its number.
pub const STREAM_INODE: u64 = 0x1_0000_0000;

/// The number of the one device.
pub const DEVICE: u64 = 1;

/// The number of the null device: major 1, minor 3 (null(4), makedev(3), as the next two).
pub const NULL_DEVICE: u64 = 0x103;

/// The number of the device of zeros.
pub const ZERO_DEVICE: u64 = 0x105;

/// The number of the device of random bytes (random(4)).
pub const RANDOM_DEVICE: u64 = 0x108;

/// What st_blksize says.
pub const BLOCK_SIZE: u32 = 4_096;

/// Bytes of a sector, which st_blocks counts (stat(2)).
pub const SECTOR_SIZE: u64 = 512;

// The bits of a mode that tell the type of a node.
fn type_bits(kind: u8) -> u32
    ensures { result ≡ type_bits kind }
{
    match kind {
        DT_DIR => S_IFDIR,
        DT_LNK => S_IFLNK,
        DT_CHR => S_IFCHR,
        _ => S_IFREG,
    }
}

// The number of a device; 0 of what is none.
fn device_number(device: Option<Device>) -> u64
    ensures { result ≡ device_number device }
{
    match device {
        Some(Device::Null) => NULL_DEVICE,
        Some(Device::Zero) => ZERO_DEVICE,
        Some(Device::Random) => RANDOM_DEVICE,
        None => 0,
    }
}

// The sectors of a node.
fn blocks(meta: &Meta) -> u64
    ensures { result ≡ st_blocks meta.now }
{
    if meta.kind == DT_REG {
        meta.size.div_ceil(SECTOR_SIZE)
    } else {
        0
    }
}

/// What a status tells.
#[derive(Clone, Copy, Debug)]
pub struct Status {
    pub inode: u64,
    /// The type and the mode.
    pub mode: u32,
    pub nlink: u32,
    /// The number of the device that it is; 0 where it is none.
    pub device: u64,
    /// The size in bytes.
    pub size: u64,
    /// The sectors that it takes.
    pub blocks: u64,
    /// The logical time of its last change.
    pub stamp: u64,
}

impl Status {
    fn of_node(inode: u64, meta: &Meta, device: Option<Device>) -> Self
        ensures { result ≡ node_status inode meta.now device }
    {
        Status {
            inode,
            mode: type_bits(meta.kind) | meta.mode,
            nlink: meta.nlink,
            device: device_number(device),
            size: meta.size,
            blocks: blocks(meta),
            stamp: meta.stamp,
        }
    }

    // The status of what is outside the tree.
    fn of_outer(inode: u64, mode: u32) -> Self
        ensures { result ≡ outer_status inode mode }
    {
        Status {
            inode,
            mode,
            nlink: 1,
            device: 0,
            size: 0,
            blocks: 0,
            stamp: 0,
        }
    }

    // The status of the input and of the output streams.
    fn of_stream() -> Self
        ensures { result ≡ stream_status }
    {
        Status::of_outer(STREAM_INODE, STREAM_MODE)
    }

    // The status of either end of the pipe of this number.
    fn of_pipe(q: u32) -> Self
        ensures { result ≡ pipe_status q }
    {
        Status::of_outer(STREAM_INODE + u64::from(q), PIPE_MODE)
    }

    // Puts what tells which node it is.
    fn put_identity(self, bytes: &mut [u8])
        requires { length bytes.old ≡ LEN }
        ensures value { bytes.new ≡ with_identity self bytes.old }
        ensures length { length bytes.new ≡ LEN }
    {
        put64(bytes, ST_DEV, DEVICE);
        put64(bytes, ST_INO, self.inode);
        put32(bytes, ST_MODE, self.mode);
        put32(bytes, ST_NLINK, self.nlink);
        put64(bytes, ST_RDEV, self.device);
    }

    // Puts what tells its size.
    fn put_size(self, bytes: &mut [u8])
        requires { length bytes.old ≡ LEN }
        ensures value { bytes.new ≡ with_size_fields self bytes.old }
        ensures length { length bytes.new ≡ LEN }
    {
        put64(bytes, ST_SIZE, self.size);
        put32(bytes, ST_BLKSIZE, BLOCK_SIZE);
        put64(bytes, ST_BLOCKS, self.blocks);
    }

    // The bytes of struct stat.
    #[tactic(auto, unfolding(crate::specs::Stat::stat_bytes))]
    fn bytes(self) -> [u8; STAT_LEN]
        ensures { result ≡ stat_bytes self }
    {
        let mut bytes = [0; STAT_LEN];
        self.put_identity(&mut bytes);
        self.put_size(&mut bytes);
        put_time(&mut bytes, ST_ATIME, self.stamp);
        put_time(&mut bytes, ST_MTIME, self.stamp);
        put_time(&mut bytes, ST_CTIME, self.stamp);
        bytes
    }
}

// Puts a time at an offset.
fn put_time(bytes: &mut [u8], at: usize, stamp: u64)
    requires length { length bytes.old ≡ LEN }
    requires within { at + HALF + 8 ≤ LEN }
    ensures value { bytes.new ≡ with_time at stamp bytes.old }
    ensures length { length bytes.new ≡ LEN }
{
    put64(bytes, at, FIRST_SECOND + stamp / SECOND_TICKS);
    put64(bytes, at + NANOSECONDS, stamp % SECOND_TICKS);
}

/// The bytes of a node's status.
pub(crate) fn stat_of(inode: u64, meta: &Meta, device: Option<Device>) -> [u8; STAT_LEN]
    ensures { result ≡ stat_of inode meta.now device }
{
    Status::of_node(inode, meta, device).bytes()
}

/// The bytes of the status of the input and of the output streams.
pub(crate) fn stream_stat() -> [u8; STAT_LEN]
    ensures { result ≡ stream_stat }
{
    Status::of_stream().bytes()
}

/// The bytes of the status of either end of the pipe of this number.
pub(crate) fn pipe_stat(q: u32) -> [u8; STAT_LEN]
    ensures { result ≡ pipe_stat q }
{
    Status::of_pipe(q).bytes()
}
