// The tree's part of a report.
ghost use Rattle.std.specs.Prelude.{◌≡◌, ◌<◌, ◌++◌, ◌↔◌, ℕ, List, Some, map, OnOk, IfOk, string_bytes};
ghost use Rattle.std.specs.List.{All, Contains, flat_map};
ghost use Rattle.hex.specs.Hex.{encode_lower};
ghost use Rattle.percent_encoding.specs.AsciiSet.{contains};
ghost use Rattle.sha2.specs.Sha256.{sha256};
ghost use Rattle.dt_host.specs.Asks.{Asks};
ghost use Rattle.dt_host.specs.World.{IsLive};
ghost use Rattle.dt_tree.specs.Table.{Stands, shape_of, tree_of};
ghost use Rattle.dt_image.specs.Paths.{LeadsTo, paths_of, path_pair};
ghost use Rattle.dt_image.specs.Report.{dev_line, device_name};
ghost use Rattle.dt_image.specs.Report.{escaped_set, is_escaped, file_line, dir_line, link_line, mode_text, path_line};
ghost use Rattle.dt_image.specs.Report.{tree_header, tree_text};

use crate::paths::{TreePath, paths_of};
use dt_base::{Blob, Device, NoMemory};
use dt_host::{Host, HostErr};
use dt_tree::{Meta, Tree};
use percent_encoding::{AsciiSet, CONTROLS, ascii_set, percent_encode};
use sha2::{Digest, Sha256};
use std::alloc::{AllocError, Global};
use std::io::Write;

// They are written as `%` and two digits, and so is each byte past ASCII.
const ESCAPED: AsciiSet = ascii_set!(CONTROLS.add(b' ').add(b'%'));

// The bytes of ASCII that a path is shown without: the controls, space and `%`.
fn escaped_bytes() -> AsciiSet
    ensures value { result ≡ escaped_set }
    ensures bytes { (b : ℕ) → b < 128 → contains result b ≡ is_escaped b }
{
    ESCAPED
}

/// The lines of a tree: `tree`, how many follow, and for each path below the root in byte order what stands there.
pub fn tree_lines<H: Host>(alloc: Global, host: &mut H, tree: &Tree) -> Result<Blob, HostErr>
    requires { Stands tree.now (H.view host.old).forest }
    ensures ok { IfOk result (λ text. text ≡ tree_text (tree_of tree.now (H.view host.old).forest)) }
    ensures exact { (path : List ℕ) (n : ℕ) →
        Contains (paths_of (shape_of tree.now (H.view host.old).forest)) (path, n)
        ↔ LeadsTo (shape_of tree.now (H.view host.old).forest) path n }
    ensures asks { Asks H.view H.count host.old host.new result }
{
    let paths = paths_of(alloc, host, tree)?;
    let mut text = Vec::new(alloc);
    write_tree_header(&mut text, paths.len())?;
    write_lines(alloc, host, tree, &mut text, &paths)?;
    Ok(Blob::new(text))
}

fn write_tree_header(text: &mut Vec<u8>, count: usize) -> Result<(), NoMemory>
    ensures { OnOk result (text.new.items ≡ text.old.items ++ tree_header count) }
{
    write!(text, "tree {count}\n").map_err(|_| NoMemory)
}

// Writes a line for each of these paths.
fn write_lines<H: Host>(
    alloc: Global,
    host: &mut H,
    tree: &Tree,
    text: &mut Vec<u8>,
    paths: &[TreePath],
) -> Result<(), HostErr>
    requires stands { Stands tree.now (H.view host.old).forest }
    requires live { All (λ at. IsLive (shape_of tree.now (H.view host.old).forest) at.inode) paths.now }
    ensures ok { OnOk result (text.new.items ≡ text.old.items
        ++ flat_map (path_line (tree_of tree.now (H.view host.old).forest)) (map path_pair paths.now)) }
    ensures asks { Asks H.view H.count host.old host.new result }
{
    for at in paths {
        write_line(alloc, host, tree, text, at)?;
    }
    Ok(())
}

fn write_line<H: Host>(
    alloc: Global,
    host: &mut H,
    tree: &Tree,
    text: &mut Vec<u8>,
    at: &TreePath,
) -> Result<(), HostErr>
    requires stands { Stands tree.now (H.view host.old).forest }
    requires live { IsLive (shape_of tree.now (H.view host.old).forest) at.now.inode }
    ensures ok { OnOk result (text.new.items ≡ text.old.items
        ++ path_line (tree_of tree.now (H.view host.old).forest) (path_pair at.now)) }
    ensures asks { Asks H.view H.count host.old host.new result }
{
    let meta = tree.meta(host, at.inode)?;
    if tree.is_dir(at.inode) {
        return Ok(write_dir(alloc, text, at, meta)?);
    }
    if tree.is_link(at.inode) {
        let target = tree.target(host, at.inode)?;
        return Ok(write_link(text, at, meta, target.as_slice())?);
    }
    match tree.device(at.inode) {
        Some(device) => Ok(write_device(alloc, text, at, meta, device)?),
        None => {
            let bytes = tree.read_file(host, at.inode)?;
            Ok(write_file(alloc, text, at, meta, &bytes)?)
        }
    }
}

#[tactic(auto, unfolding(crate::specs::Report::dir_line))]
fn write_dir(alloc: Global, text: &mut Vec<u8>, at: &TreePath, meta: Meta) -> Result<(), NoMemory>
    ensures { OnOk result (text.new.items ≡ text.old.items
        ++ dir_line at.now.inode meta.mode meta.stamp at.now.path) }
{
    let (inode, stamp) = (at.inode, meta.stamp);
    let mode = mode_text(alloc, meta.mode)?;
    let path = percent_encode(at.path.as_slice(), escaped_bytes());
    write!(text, "dir {inode} {mode} {stamp} {path}\n").map_err(|_| NoMemory)
}

#[tactic(auto, unfolding(crate::specs::Report::link_line))]
fn write_link(text: &mut Vec<u8>, at: &TreePath, meta: Meta, target: &[u8]) -> Result<(), NoMemory>
    ensures { OnOk result (text.new.items ≡ text.old.items
        ++ link_line at.now.inode meta.stamp at.now.path target.now) }
{
    let (inode, stamp) = (at.inode, meta.stamp);
    let path = percent_encode(at.path.as_slice(), escaped_bytes());
    let target = percent_encode(target, escaped_bytes());
    write!(text, "link {inode} {stamp} {path} {target}\n").map_err(|_| NoMemory)
}

#[tactic(auto, unfolding(crate::specs::Report::dev_line))]
fn write_device(
    alloc: Global,
    text: &mut Vec<u8>,
    at: &TreePath,
    meta: Meta,
    device: Device,
) -> Result<(), NoMemory>
    ensures { OnOk result (text.new.items ≡ text.old.items
        ++ dev_line at.now.inode meta.mode meta.stamp device at.now.path) }
{
    let (inode, stamp) = (at.inode, meta.stamp);
    let mode = mode_text(alloc, meta.mode)?;
    let name = device_name(device);
    let path = percent_encode(at.path.as_slice(), escaped_bytes());
    write!(text, "dev {inode} {mode} {stamp} {name} {path}\n").map_err(|_| NoMemory)
}

/// The name of a device, as an index and a report show it.
pub fn device_name(device: Device) -> &'static str
    ensures { result.now ≡ device_name device }
{
    match device {
        Device::Null => "null",
        Device::Zero => "zero",
        Device::Random => "random",
    }
}

#[tactic(auto, unfolding(crate::specs::Report::file_line))]
fn write_file(
    alloc: Global,
    text: &mut Vec<u8>,
    at: &TreePath,
    meta: Meta,
    bytes: &[u8],
) -> Result<(), NoMemory>
    ensures { OnOk result (text.new.items ≡ text.old.items
        ++ file_line at.now.inode meta.mode meta.stamp at.now.path bytes.now) }
{
    let (inode, stamp, size) = (at.inode, meta.stamp, bytes.len());
    let mode = mode_text(alloc, meta.mode)?;
    let digest = digest_text(alloc, bytes)?;
    let path = percent_encode(at.path.as_slice(), escaped_bytes());
    write!(text, "file {inode} {mode} {stamp} {size} {digest} {path}\n").map_err(|_| NoMemory)
}

#[tactic(auto, using(crate::proofs::Modes::padded_mode))]
fn mode_text(alloc: Global, mode: u32) -> Result<String, AllocError>
    ensures { IfOk result (λ text. string_bytes text ≡ mode_text mode) }
{
    format!(in alloc; "{mode:04o}")
}

fn digest_text(alloc: Global, bytes: &[u8]) -> Result<String, AllocError>
    ensures { IfOk result (λ text. string_bytes text ≡ encode_lower (sha256 bytes.now)) }
{
    hex::encode(alloc, Sha256::digest(bytes))
}
