// What is done with a file of a host.
ghost use Rattle.std.specs.Prelude.{◌≡◌};
ghost use Rattle.dt_host.specs.World.{IsFile};

use super::ask::{brought, done};
use super::directory::raw;
use super::step::{FileCall, Outcome};
use dt_base::FILE_LIMIT;
use dt_host::{Host, HostErr, read_whole, write_whole};
use dt_memhost::MemHost;
use std::alloc::Global;

/// Makes a call with the file.
pub fn make(
    host: &mut MemHost,
    alloc: Global,
    file: u64,
    call: FileCall,
) -> Result<Outcome, HostErr>
    requires { IsFile host.old.view.forest file }
    ensures { IsFile host.new.view.forest file }
{
    match call {
        FileCall::Write(bytes) => write(host, file, bytes),
        FileCall::Cut(length) => cut(host, file, length),
        FileCall::Read(most, bytes) => brought(read(host, alloc, file, 0, most), bytes),
        FileCall::Raw => raw_file(host, file),
    }
}

/// Writes bytes at the start of the file.
pub fn write(host: &mut MemHost, file: u64, bytes: &[u8]) -> Result<Outcome, HostErr>
    requires { IsFile host.old.view.forest file }
    ensures { IsFile host.new.view.forest file }
{
    if bytes.len() as u64 > FILE_LIMIT {
        return Ok(Outcome::Misused);
    }
    done(write_whole(host, file, 0, bytes))
}

// Cuts the file to a length, or puts zeros behind its bytes up to it.
fn cut(host: &mut MemHost, file: u64, length: u64) -> Result<Outcome, HostErr>
    requires { IsFile host.old.view.forest file }
    ensures { IsFile host.new.view.forest file }
{
    if length > FILE_LIMIT {
        return Ok(Outcome::Misused);
    }
    done(host.cut(file, length))
}

/// What comes of at most so many bytes of the file, from an offset on.
pub fn read(
    host: &mut MemHost,
    alloc: Global,
    file: u64,
    offset: u64,
    most: usize,
) -> Result<Vec<u8>, HostErr>
    requires { IsFile host.old.view.forest file }
    ensures { host.new.view ≡ host.old.view }
{
    let mut buf = vec![in alloc; 1; most]?;
    let count = read_whole(host, file, offset, &mut buf)?;
    buf.truncate(count);
    Ok(buf)
}

// What the host says of the file.
fn raw_file(host: &mut MemHost, file: u64) -> Result<Outcome, HostErr>
    requires { IsFile host.old.view.forest file }
    ensures { host.new.view ≡ host.old.view }
{
    raw(host, file)
}
