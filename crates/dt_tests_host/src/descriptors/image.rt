// A small image: an empty directory and a file.
use crate::image::folder::good_image;
use dt_base::{Image, NoMemory};
use std::alloc::Global;

/// The inode of the directory `/d`, which is also the number that the host gives it.
pub const DIR: u64 = 2;

/// The same of the file `/f`.
pub const FILE: u64 = 3;

/// The number that the host gives next, after the root and these.
pub const NEXT: u64 = 4;

/// An empty directory `/d`, and a file `/f` of the five bytes `hello`.
pub fn image(alloc: Global) -> Result<Image, NoMemory> {
    let blobs = [("img/f", b"hello".as_slice())];
    good_image(alloc, "dir:/d:493:,file:/f:420:f", &blobs)
}
