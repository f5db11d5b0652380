// A run whose last file tree is put into a folder, as an image.
ghost use Rattle.std.specs.Prelude.{◌≡◌, ◌≤◌, ◌⊎◌, Err, codes, IfOk, OnOk, IfErr, OnErr, IsErrOf};
ghost use Rattle.std.specs.List.{All};
ghost use Rattle.dt_host.specs.Cause.{HasCause};
ghost use Rattle.dt_host.specs.World.{IsEmptyStart, IsFile};
ghost use Rattle.dt_tree.specs.Table.{Stands, shape_of, tree_of};
ghost use Rattle.dt_export.specs.declared.refusal.ExportRefusal.{ExportRefusal as Refusal};
ghost use Rattle.dt_export.specs.ExportedFiles.{blob_at};
ghost use Rattle.dt_image.specs.ImageOf.{name_below};
ghost use Rattle.dt_engine.specs.Run.{run_of};
ghost use Rattle.dt_host.specs.Store.{told_with, StoresPart};
ghost use Rattle.dt_run.specs.Outcome.{exported};
ghost use Rattle.dt_run.specs.Exports.{HasPut, ChangesFolder, PutsPart};
ghost use Rattle.dt_engine.specs.Completed.{reported, Finishes};
ghost use Rattle.dt_run.specs.inner.Exporting.{told_with_blobs, PutsTree, PutsBlobs, IsPutFault, FailsPut, FailsExport};

use crate::failure::Failure;
use crate::top::run_image;
use dt_base::Image;
use dt_export::prepare_export;
use dt_host::{Gate, Host, Sink, Store, StoreErr};
use dt_options::ExportOptions;
use dt_tree::Tree;
use std::alloc::Global;
use std::thread::Threads;
use std::time::Clock;

/// Makes the run that the options ask for on an image, and puts its last file tree into the folder that they name. The
/// answer is the run's status.
pub fn run_export<
    R: AllocGlobal + Clock + Threads + Sync,
    S: Store,
    H: Host + Send,
    O: Sink + Send,
    G: Gate + Sync,
>(
    rt: &R,
    options: &ExportOptions,
    image: &Image,
    store: &mut S,
    host: &mut H,
    out: &mut O,
    gate: &G,
) -> Result<u8, Failure>
    requires empty { IsEmptyStart (H.view host.old) }
    requires budget { (1 ≤ options.now.run.budget) × (options.now.run.budget ≤ 1000000000) }
    requires workers { (1 ≤ options.now.run.workers) × (options.now.run.workers ≤ 64) }
    ensures completed { IfOk result (λ status.
        let run = run_of image.now options.now.run.command options.now.run.seed options.now.run.budget in
        Finishes (reported image.now.version run) status (O.told out.old) (O.told out.new) (H.view host.new)
        × HasPut (exported options.now.to (reported image.now.version run)) (S.told store.old) (S.told store.new)) }
    ensures failed { IfErr result (λ f.
        let run = run_of image.now options.now.run.command options.now.run.seed options.now.run.budget in
        FailsExport f (exported options.now.to (reported image.now.version run)) (O.told out.old) (O.told out.new)) }
    ensures keeps { ChangesFolder options.now.to (S.told store.old) (S.told store.new) }
    ensures begun { OnErr result ((S.told store.new ≡ S.told store.old)
        ⊎ (let run = run_of image.now options.now.run.command options.now.run.seed options.now.run.budget in
        PutsPart (O.told out.old) (O.told out.new) (S.told store.old) (S.told store.new)
        (exported options.now.to (reported image.now.version run)))) }
    ensures output_stays { result ≡ Err Failure.Output → S.told store.new ≡ S.told store.old }
    ensures refused_stays { (r : Refusal) → result ≡ Err (Failure.Export r) → S.told store.new ≡ S.told store.old }
    ensures store { HasCause (S.count store.old) (S.count store.new) (IsErrOf result Failure.Store) }
    ensures host { HasCause (H.count host.old) (H.count host.new) (IsErrOf result Failure.Host) }
    ensures output { HasCause (O.count out.old) (O.count out.new) (IsErrOf result Failure.Output) }
{
    let _before = store.faults();
    let ended = run_image(rt, &options.run, image, host, out, gate)?;
    put_tree(
        rt.alloc(),
        host,
        store,
        ended.container.tree(),
        options.to.as_str(),
    )?;
    Ok(ended.status)
}

// Puts the export of a tree into a folder: the blobs, and then the index.
fn put_tree<H: Host, S: Store>(
    alloc: Global,
    host: &mut H,
    store: &mut S,
    tree: &Tree,
    folder: &str,
) -> Result<(), Failure>
    requires { Stands tree.now (H.view host.old).forest }
    ensures put { OnOk result
        (PutsTree (tree_of tree.now (H.view host.old).forest) folder.now (S.told store.old) (S.told store.new)) }
    ensures failed { IfErr result (λ f.
        FailsPut f (tree_of tree.now (H.view host.old).forest) folder.now (S.told store.old) (S.told store.new)) }
    ensures keeps { ChangesFolder folder.now (S.told store.old) (S.told store.new) }
    ensures stays { H.view host.new ≡ H.view host.old }
    ensures host { HasCause (H.count host.old) (H.count host.new) (IsErrOf result Failure.Host) }
    ensures store { HasCause (S.count store.old) (S.count store.new) (IsErrOf result Failure.Store) }
{
    let export = prepare_export(alloc, host, tree, tree.version())?;
    put_blobs(alloc, host, store, tree, folder, &export.inodes)?;
    put_index(alloc, store, folder, export.index.as_slice())?;
    Ok(())
}

// Puts the blobs of the files with these inodes into a folder, in their order.
fn put_blobs<H: Host, S: Store>(
    alloc: Global,
    host: &mut H,
    store: &mut S,
    tree: &Tree,
    folder: &str,
    inodes: &[u64],
) -> Result<(), Failure>
    requires stands { Stands tree.now (H.view host.old).forest }
    requires files { All (IsFile (shape_of tree.now (H.view host.old).forest)) inodes.now }
    ensures put { OnOk result (S.told store.new ≡ told_with_blobs (S.told store.old) folder.now
        (tree_of tree.now (H.view host.old).forest) inodes.now) }
    ensures part { OnErr result (PutsBlobs (tree_of tree.now (H.view host.old).forest) folder.now inodes.now
        (S.told store.old) (S.told store.new)) }
    ensures fault { IfErr result IsPutFault }
    ensures keeps { ChangesFolder folder.now (S.told store.old) (S.told store.new) }
    ensures stays { H.view host.new ≡ H.view host.old }
    ensures host { HasCause (H.count host.old) (H.count host.new) (IsErrOf result Failure.Host) }
    ensures store { HasCause (S.count store.old) (S.count store.new) (IsErrOf result Failure.Store) }
{
    let _before = (host.faults(), store.faults());
    for inode in inodes {
        put_blob(alloc, host, store, tree, folder, *inode)?;
    }
    Ok(())
}

// Puts the blob of a file into a folder.
fn put_blob<H: Host, S: Store>(
    alloc: Global,
    host: &mut H,
    store: &mut S,
    tree: &Tree,
    folder: &str,
    inode: u64,
) -> Result<(), Failure>
    requires stands { Stands tree.now (H.view host.old).forest }
    requires file { IsFile (shape_of tree.now (H.view host.old).forest) inode }
    ensures put { OnOk result (let blob = blob_at (tree_of tree.now (H.view host.old).forest) inode in
        S.told store.new ≡ told_with (S.told store.old) (name_below folder.now blob.0) blob.1) }
    ensures part { OnErr result (let blob = blob_at (tree_of tree.now (H.view host.old).forest) inode in
        StoresPart (S.told store.old) (S.told store.new) (name_below folder.now blob.0) blob.1) }
    ensures fault { IfErr result IsPutFault }
    ensures keeps { ChangesFolder folder.now (S.told store.old) (S.told store.new) }
    ensures stays { H.view host.new ≡ H.view host.old }
    ensures host { HasCause (H.count host.old) (H.count host.new) (IsErrOf result Failure.Host) }
    ensures store { HasCause (S.count store.old) (S.count store.new) (IsErrOf result Failure.Store) }
{
    let _before = store.faults();
    let name = format!(in alloc; "{folder}/b{inode}")?;
    let bytes = tree.read_file(host, inode)?;
    store.put(name.as_str(), &bytes)?;
    Ok(())
}

// Puts the index into a folder.
fn put_index<S: Store>(
    alloc: Global,
    store: &mut S,
    folder: &str,
    text: &[u8],
) -> Result<(), StoreErr>
    ensures put { OnOk result
        (S.told store.new ≡ told_with (S.told store.old) (name_below folder.now (codes "image.json")) text.now) }
    ensures part { OnErr result (StoresPart (S.told store.old) (S.told store.new)
        (name_below folder.now (codes "image.json")) text.now) }
    ensures keeps { ChangesFolder folder.now (S.told store.old) (S.told store.new) }
    ensures cause { HasCause (S.count store.old) (S.count store.new) (IsErrOf result StoreErr.Failed) }
{
    let _before = store.faults();
    let name = format!(in alloc; "{folder}/image.json")?;
    store.put(name.as_str(), text)
}
