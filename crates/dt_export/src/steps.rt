// The steps of a run of several commands, read from a file in an image's folder.
ghost use Rattle.std.specs.Prelude.{◌≡◌, ◌≤◌, ℕ, Some, None, Err, IfOk, IfSome, length, option_map, option_and_then, vec_items, vec_len};
ghost use Rattle.std.specs.Prelude.{codes, nat_le, ◌&&◌, []};
ghost use Rattle.std.specs.List.{list_all};
ghost use Rattle.std.specs.FinMap.{get};
ghost use Rattle.serde_json.specs.Find.{get as member, as_array};
ghost use Rattle.serde_json.specs.View.{view, items_view};
ghost use Rattle.dt_base.specs.Assignment.{is_assignment};
ghost use Rattle.dt_base.specs.Path.{has_no_nul};
ghost use Rattle.dt_base.specs.declared.refusal.Refusal.{Refusal};
ghost use Rattle.dt_host.specs.Asks.{AsksOr};
ghost use Rattle.dt_export.specs.Steps.{texts_in, texts_of, env_by, is_step, step_words, steps_in};
ghost use Rattle.dt_export.specs.Steps.{if_steps, steps_of, steps_at, IsListed};

use dt_base::{Blob, Command, INDEX_LIMIT, ImageErr, NoMemory, Refusal, has_no_nul, is_assignment};
use dt_host::Store;
use dt_image::{bytes_in, is_blob_name, name_below, parse, size_in};
use serde_json::Value;
use std::alloc::Global;

/// How many steps a file may list, at most.
pub const STEP_LIMIT: u64 = 64;

/// Reads the commands that a file of a folder lists: a JSON array of 1 to 64 objects. Each has `args`, one text or more,
/// and maybe `env`, texts of the form NAME=VALUE; no text holds a NUL. All else is BadSteps, also where no blob may have
/// the file's name, it is missing, or it has over 4,194,304 bytes. Other members of an object are not looked at, and the
/// last of a member that stands twice counts.
pub fn read_steps<S: Store>(
    alloc: Global,
    store: &mut S,
    folder: &str,
    file: &str,
) -> Result<Vec<Command>, ImageErr>
    ensures ok { IfSome (S.told store.old)
        (λ files. IfOk result (λ steps. steps_at files folder.now file.now ≡ Some steps.items)) }
    ensures listed { IfOk result (λ steps. IsListed steps.items) }
    ensures refused { (r : Refusal) → result ≡ Err (ImageErr.Refused r) → (r ≡ Refusal.BadSteps)
        × IfSome (S.told store.old) (λ files. steps_at files folder.now file.now ≡ None) }
    ensures asks { AsksOr S.told S.count ImageErr.Store store.old store.new result }
{
    match find_steps(alloc, store, folder, file)? {
        Some(steps) => Ok(steps),
        None => Err(ImageErr::Refused(Refusal::BadSteps)),
    }
}

// The steps that a file of a folder lists, if it lists some.
fn find_steps<S: Store>(
    alloc: Global,
    store: &mut S,
    folder: &str,
    file: &str,
) -> Result<Option<Vec<Command>>, ImageErr>
    ensures steps { IfSome (S.told store.old) (λ files.
        IfOk result (λ found. option_map vec_items found ≡ steps_at files folder.now file.now)) }
    ensures listed { IfOk result (λ found. IfSome found (λ steps. IsListed steps.items)) }
    ensures answered { (r : Refusal) → result ≡ Err (ImageErr.Refused r) → ⊥ }
    ensures asks { AsksOr S.told S.count ImageErr.Store store.old store.new result }
{
    match read_file(alloc, store, folder, file)? {
        Some(bytes) => Ok(steps_of(alloc, &bytes)?),
        None => Ok(None),
    }
}

// The bytes of a file of a folder; None where no blob may have its name, it is missing, or it is too long.
fn read_file<S: Store>(
    alloc: Global,
    store: &mut S,
    folder: &str,
    file: &str,
) -> Result<Option<Vec<u8>>, ImageErr>
    ensures steps { IfSome (S.told store.old) (λ files. IfOk result (λ found.
        option_and_then steps_of (option_map vec_items found) ≡ steps_at files folder.now file.now)) }
    ensures within { IfOk result (λ found. IfSome found (λ bytes. vec_len bytes ≤ INDEX_LIMIT)) }
    ensures answered { (r : Refusal) → result ≡ Err (ImageErr.Refused r) → ⊥ }
    ensures asks { AsksOr S.told S.count ImageErr.Store store.old store.new result }
{
    if !is_blob_name(file.as_bytes()) {
        return Ok(None);
    }
    let name = name_below(alloc, folder, file)?;
    read_named(alloc, store, name.as_str())
}

// The bytes of a file of the store; None where it is missing or too long.
fn read_named<S: Store>(
    alloc: Global,
    store: &mut S,
    name: &str,
) -> Result<Option<Vec<u8>>, ImageErr>
    ensures steps { IfSome (S.told store.old) (λ files. IfOk result (λ found.
        option_and_then steps_of (option_map vec_items found) ≡ option_and_then steps_of (get files name.now))) }
    ensures within { IfOk result (λ found. IfSome found (λ bytes. vec_len bytes ≤ INDEX_LIMIT)) }
    ensures answered { (r : Refusal) → result ≡ Err (ImageErr.Refused r) → ⊥ }
    ensures asks { AsksOr S.told S.count ImageErr.Store store.old store.new result }
{
    match size_in(store, name)? {
        None => Ok(None),
        Some(size) if size > INDEX_LIMIT => Ok(None),
        Some(size) => Ok(Some(bytes_in(alloc, store, name, size)?)),
    }
}

// The steps that bytes list, if they list some.
#[tactic(auto, unfolding(crate::specs::Steps::steps_of))]
fn steps_of(alloc: Global, bytes: &[u8]) -> Result<Option<Vec<Command>>, NoMemory>
    requires { length bytes.now ≤ INDEX_LIMIT }
    ensures { IfOk result (λ found. option_map vec_items found ≡ steps_of bytes.now) }
{
    let Some(value) = parse(alloc, bytes)? else {
        return Ok(None);
    };
    match items_of(&value) {
        Some(items) => few_steps(alloc, items),
        None => Ok(None),
    }
}

// The steps that these values are, if each is one and there are not too few or too many.
fn few_steps(alloc: Global, items: &[Value]) -> Result<Option<Vec<Command>>, NoMemory>
    ensures { IfOk result
        (λ found. option_map vec_items found ≡ option_and_then if_steps (steps_in (items_view items.now))) }
{
    if !are_few(items) {
        return Ok(None);
    }
    steps_in(alloc, items)
}

// Whether a file may list so many steps.
fn are_few(items: &[Value]) -> bool
    ensures { result ≡ (nat_le 1 (length items.now) && nat_le (length items.now) STEP_LIMIT) }
{
    !items.is_empty() && items.len() as u64 <= STEP_LIMIT
}

fn steps_in(alloc: Global, items: &[Value]) -> Result<Option<Vec<Command>>, NoMemory>
    ensures { IfOk result (λ found. option_map vec_items found ≡ steps_in (items_view items.now)) }
{
    let mut steps = Vec::new(alloc);
    for item in items {
        match step_words(alloc, item)? {
            Some(step) => steps.push(step)?,
            None => return Ok(None),
        }
    }
    Ok(Some(steps))
}

#[tactic(auto, unfolding(crate::specs::Steps::step_words))]
fn step_words(alloc: Global, step: &Value) -> Result<Option<Command>, NoMemory>
    ensures { IfOk result (λ found. found ≡ step_words (view step.now)) }
{
    let Some(args) = args_of(alloc, step)? else {
        return Ok(None);
    };
    let Some(env) = env_of(alloc, step)? else {
        return Ok(None);
    };
    if is_step(&args, &env) {
        Ok(Some(Command::new(args, env)))
    } else {
        Ok(None)
    }
}

fn args_of(alloc: Global, step: &Value) -> Result<Option<Vec<Blob>>, NoMemory>
    ensures { IfOk result (λ found.
        option_map vec_items found ≡ option_and_then texts_of (member (codes "args") (view step.now))) }
{
    match step.get("args") {
        Some(args) => texts_of(alloc, args),
        None => Ok(None),
    }
}

// The environment of a step; it is empty where the step names none.
fn env_of(alloc: Global, step: &Value) -> Result<Option<Vec<Blob>>, NoMemory>
    ensures { IfOk result (λ found.
        option_map vec_items found ≡ env_by (member (codes "env") (view step.now))) }
{
    match step.get("env") {
        Some(env) => texts_of(alloc, env),
        None => Ok(Some(Vec::new(alloc))),
    }
}

// The texts of an array, if the value is one of texts alone.
fn texts_of(alloc: Global, value: &Value) -> Result<Option<Vec<Blob>>, NoMemory>
    ensures { IfOk result (λ found. option_map vec_items found ≡ texts_of (view value.now)) }
{
    match items_of(value) {
        Some(items) => texts_in(alloc, items),
        None => Ok(None),
    }
}

fn texts_in(alloc: Global, items: &[Value]) -> Result<Option<Vec<Blob>>, NoMemory>
    ensures { IfOk result (λ found. option_map vec_items found ≡ texts_in (items_view items.now)) }
{
    let mut texts = Vec::new(alloc);
    for item in items {
        match item.as_str() {
            Some(text) => texts.push(Blob::new(Vec::from_slice(alloc, text.as_bytes())?))?,
            None => return Ok(None),
        }
    }
    Ok(Some(texts))
}

fn items_of(value: &Value) -> Option<&[Value]>
    ensures { option_map (λ items. items_view items.now) result ≡ as_array (view value.now) }
{
    let items = value.as_array()?;
    Some(items.as_slice())
}

// Whether a step may have these words.
fn is_step(args: &[Blob], env: &[Blob]) -> bool
    ensures { result ≡ is_step (record { args = args.now; env = env.now; input = [] }) }
{
    !args.is_empty() && have_no_nul(args) && have_no_nul(env) && are_assignments(env)
}

fn have_no_nul(words: &[Blob]) -> bool
    ensures { result ≡ list_all has_no_nul words.now }
{
    words.iter().all(|word| has_no_nul(word.as_slice()))
}

fn are_assignments(words: &[Blob]) -> bool
    ensures { result ≡ list_all is_assignment words.now }
{
    words.iter().all(|word| is_assignment(word.as_slice()))
}
