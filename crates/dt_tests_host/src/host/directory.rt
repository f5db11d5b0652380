// What is done in a directory of a host.
ghost use Rattle.std.specs.Prelude.{◌≡◌};
ghost use Rattle.dt_host.specs.World.{IsDir, IsLive};

use super::ask::{done, failed};
use super::step::{DirCall, Outcome};
use dt_host::{Host, HostEntry, HostErr, sorted_names};
use dt_memhost::MemHost;

/// Makes a call in the directory.
pub fn make(host: &mut MemHost, dir: u64, call: DirCall) -> Result<Outcome, HostErr>
    requires { IsDir host.old.view.forest dir }
    ensures { IsDir host.new.view.forest dir }
{
    match call {
        DirCall::BindItself(name) => bind_itself(host, dir, name.as_bytes()),
        DirCall::Unbind(name) => unbind_there(host, dir, name.as_bytes()),
        DirCall::Names(names) => check_names(host.names(dir), dir, names),
        DirCall::SortedNames(names) => check_names(sorted_names(host, dir), dir, names),
        DirCall::Raw => raw_dir(host, dir),
    }
}

// Names a directory in itself, where it has no such name yet.
fn bind_itself(host: &mut MemHost, dir: u64, name: &[u8]) -> Result<Outcome, HostErr>
    requires { IsDir host.old.view.forest dir }
    ensures { IsDir host.new.view.forest dir }
{
    match host.find(dir, name)? {
        Some(_) => Ok(Outcome::Misused),
        None => done(host.bind(dir, name, dir)),
    }
}

// Takes a name out of a directory, where it has that name.
fn unbind_there(host: &mut MemHost, dir: u64, name: &[u8]) -> Result<Outcome, HostErr>
    requires { IsDir host.old.view.forest dir }
    ensures { IsDir host.new.view.forest dir }
{
    match host.find(dir, name)? {
        Some(_) => done(host.unbind(dir, name)),
        None => Ok(Outcome::Misused),
    }
}

// What a list of entries came to, which are to have these names and that number.
fn check_names(
    answer: Result<Vec<HostEntry>, HostErr>,
    number: u64,
    names: &[&str],
) -> Result<Outcome, HostErr> {
    match answer {
        Ok(found) if are_named(&found, number, names) => Ok(Outcome::Done),
        Ok(_) => Ok(Outcome::WrongNames),
        Err(error) => failed(error),
    }
}

// Whether the entries have these names, in this order, and are all of that node.
fn are_named(found: &[HostEntry], ino: u64, names: &[&str]) -> bool {
    if found.len() != names.len() {
        return false;
    }
    for index in 0..found.len() {
        if !is_named(&found[index], ino, names[index]) {
            return false;
        }
    }
    true
}

fn is_named(entry: &HostEntry, ino: u64, name: &str) -> bool {
    entry.ino == ino && entry.name.as_slice() == name.as_bytes()
}

// What the host says of the directory.
fn raw_dir(host: &mut MemHost, dir: u64) -> Result<Outcome, HostErr>
    requires { IsDir host.old.view.forest dir }
    ensures { host.new.view ≡ host.old.view }
{
    raw(host, dir)
}

/// What the host says of a node.
pub fn raw(host: &mut MemHost, number: u64) -> Result<Outcome, HostErr>
    requires { IsLive host.old.view.forest number }
    ensures { host.new.view ≡ host.old.view }
{
    match host.raw(number) {
        Ok(raw) => Ok(Outcome::Raw(raw)),
        Err(error) => failed(error),
    }
}
