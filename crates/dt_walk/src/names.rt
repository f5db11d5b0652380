// The names of a path.
ghost use Rattle.std.specs.Prelude.{◌≡◌, [], ◌∷◌, ◌++◌, not, reverse, IfOk, OnOk};
ghost use Rattle.std.specs.List.{filter};
ghost use Rattle.dt_walk.specs.Walk.{is_nil, path_names, ends_in_slash, start_of};

use dt_base::{Blob, NoMemory, begins_with_slash};
use dt_tree::ROOT;
use std::alloc::Global;

/// Whether a text ends in a slash.
pub fn ends_in_slash(text: &[u8]) -> bool
    ensures { result ≡ ends_in_slash text.now }
{
    match text.last() {
        Some(b) => *b == b'/',
        None => false,
    }
}

/// Where the names of a text are looked up first, for a walk that stands at a node.
pub(crate) fn start_of(at: u64, text: &[u8]) -> u64
    ensures { result ≡ start_of at text.now }
{
    if begins_with_slash(text) { ROOT } else { at }
}

/// Puts the names of a text before others. The first name of all stands last.
pub(crate) fn push_names(alloc: Global, text: &[u8], names: &mut Vec<Blob>) -> Result<(), NoMemory>
    ensures { OnOk result (reverse names.new.items ≡ path_names text.now ++ reverse names.old.items) }
{
    let mut more = path_names(alloc, text)?;
    while let Some(name) = more.pop() {
        names.push(name)?;
    }
    Ok(())
}

// The names of a text, the first of them first.
fn path_names(alloc: Global, text: &[u8]) -> Result<Vec<Blob>, NoMemory>
    ensures { IfOk result (λ names. names.items ≡ path_names text.now) }
{
    let mut names = Vec::new(alloc);
    let mut begun = Vec::new(alloc);
    for b in text {
        if *b == b'/' {
            add_name(&mut names, begun)?;
            begun = Vec::new(alloc);
        } else {
            begun.push(*b)?;
        }
    }
    add_name(&mut names, begun)?;
    Ok(names)
}

// Adds a name, unless it is empty.
fn add_name(names: &mut Vec<Blob>, name: Vec<u8>) -> Result<(), NoMemory>
    ensures { OnOk result (names.new.items
        ≡ names.old.items ++ filter (λ name. not (is_nil name)) (name.items ∷ [])) }
{
    if name.is_empty() {
        return Ok(());
    }
    names.push(Blob::new(name))?;
    Ok(())
}
