// The steps of which changes are made: each changes the host and what is kept together, and the tree in one way.
ghost use Rattle.std.specs.Prelude.{◌≡◌, ℕ, ◌<◌, ◌≤◌, ◌==◌, ◌&&◌, not, None, Some, IsSome, IsTrue, IfSome, IfOk, OnOk};
ghost use Rattle.std.specs.Prelude.{IsErrOf};
ghost use Rattle.std.specs.FinMap.{get};
ghost use Rattle.dt_base.specs.Image.{is_good_what};
ghost use Rattle.dt_host.specs.Cause.{HasCause};
ghost use Rattle.dt_host.specs.World.{Forest, IsDir, IsLive, entry, with_entry, without_entry, OnlyForest};
ghost use Rattle.dt_tree.specs.declared.limits.TheConstants.{ROOT, NAMES_LIMIT};
ghost use Rattle.dt_tree.specs.Shape.{name_count_of, name_count};
ghost use Rattle.dt_tree.specs.Table.{IsMirror, Stands, kind_of, shape_of, tree_of};
ghost use Rattle.dt_tree.specs.FileTree.{IsTreeBut};
ghost use Rattle.dt_tree.specs.Changes.{new_node, with_nameless, with_shape, tree_with_new, tree_with_stamp};
ghost use Rattle.dt_tree.specs.Changes.{without_unused, without_unused_found};
ghost use Rattle.dt_tree.specs.inner.Created.{IsMadeAt, MayCreate};

use crate::inode::{Inode, Kind};
use crate::limits::{NAMES_LIMIT, ROOT};
use crate::tree::Tree;
use dt_base::What;
use dt_host::{Host, HostErr, NodeKind, write_whole};

fn kind_of_new(what: &What) -> Kind
    ensures { result ≡ kind_of (new_node what.now) }
{
    match what {
        What::File(_) => Kind::File,
        What::Dir => Kind::Dir,
        What::Link(_) => Kind::Link,
        What::Dev(device) => Kind::Device(*device),
    }
}

// Makes a node at the host.
fn make_real<H: Host>(host: &mut H, what: &What, mode: u32) -> Result<u64, HostErr>
    requires { (version : ℕ) × IsTrue (is_good_what version what.now mode) }
    ensures made { IfOk result (IsMadeAt (H.view host.old) (new_node what.now) (H.view host.new)) }
    ensures rest { OnlyForest (H.view host.old) (H.view host.new) }
    ensures cause { HasCause (H.count host.old) (H.count host.new)
        (IsErrOf result HostErr.Failed) }
{
    match what {
        What::File(bytes) => {
            let real = host.make(NodeKind::File)?;
            write_whole(host, real, 0, bytes.as_slice())?;
            Ok(real)
        }
        What::Dir => host.make(NodeKind::Dir),
        What::Link(target) => host.make(NodeKind::Link(target.copy()?)),
        What::Dev(device) => host.make(NodeKind::Device(*device)),
    }
}

// Whether a node but the root has neither names nor holds, by what is kept of it.
fn is_unused(n: u64, inode: Inode) -> bool
    ensures { result ≡ (not (n == ROOT) && (inode.names == 0) && (inode.holds == 0)) }
{
    n != ROOT && inode.names == 0 && inode.holds == 0
}

impl Tree {
    // Makes a node that has no name yet.
    fn make<H: Host>(
        &mut self,
        host: &mut H,
        what: &What,
        mode: u32,
        stamp: u64,
    ) -> Result<u64, HostErr>
        requires stands { Stands self.old (H.view host.old).forest }
        requires good { IsTrue (is_good_what self.old.version what.now mode) }
        ensures number { IfOk result (λ n. n ≡ self.old.next) }
        ensures mirrors { OnOk result (IsMirror self.new (H.view host.new).forest) }
        ensures tree { OnOk result (tree_of self.new (H.view host.new).forest
            ≡ with_nameless (tree_of self.old (H.view host.old).forest) (new_node what.now) mode stamp) }
        ensures rest { OnlyForest (H.view host.old) (H.view host.new) }
        ensures cause { HasCause (H.count host.old) (H.count host.new)
            (IsErrOf result HostErr.Failed) }
    {
        let kind = kind_of_new(what);
        let real = make_real(host, what, mode)?;
        Ok(self.admit(Inode::new(real, kind, mode, stamp))?)
    }

    // Gives a node a name. Want of memory is the answer where the tree has as many names as it may.
    pub(crate) fn bind<H: Host>(
        &mut self,
        host: &mut H,
        dir: u64,
        name: &[u8],
        n: u64,
    ) -> Result<(), HostErr>
        requires mirrors { IsMirror self.old (H.view host.old).forest }
        requires directory { IsDir (shape_of self.old (H.view host.old).forest) dir }
        requires free { entry (shape_of self.old (H.view host.old).forest) dir name.now ≡ None }
        requires live { IsLive (shape_of self.old (H.view host.old).forest) n }
        ensures room { OnOk result
            (name_count (shape_of self.old (H.view host.old).forest) < NAMES_LIMIT) }
        ensures mirrors { OnOk result (IsMirror self.new (H.view host.new).forest) }
        ensures tree { OnOk result (tree_of self.new (H.view host.new).forest
            ≡ with_shape (tree_of self.old (H.view host.old).forest)
            (with_entry (shape_of self.old (H.view host.old).forest) dir name.now n)) }
        ensures rest { OnlyForest (H.view host.old) (H.view host.new) }
        ensures cause { HasCause (H.count host.old) (H.count host.new)
            (IsErrOf result HostErr.Failed) }
    {
        let _before = host.faults();
        let names = self.names();
        if names >= NAMES_LIMIT {
            return Err(HostErr::NoMemory);
        }
        let inode = self.inode(n);
        host.bind(self.inode(dir).real, name, inode.real)?;
        self.set(
            n,
            Inode {
                names: inode.names + 1,
                up: Some(dir),
                ..inode
            },
        );
        self.set_names(names + 1);
        Ok(())
    }

    // Takes the name of the node `n` away.
    pub(crate) fn unbind<H: Host>(
        &mut self,
        host: &mut H,
        dir: u64,
        name: &[u8],
        n: u64,
    ) -> Result<(), HostErr>
        requires mirrors { IsMirror self.old (H.view host.old).forest }
        requires here { entry (shape_of self.old (H.view host.old).forest) dir name.now ≡ Some n }
        requires once { IsDir (shape_of self.old (H.view host.old).forest) n
            → name_count_of (shape_of self.old (H.view host.old).forest) n ≤ 1 }
        ensures mirrors { OnOk result (IsMirror self.new (H.view host.new).forest) }
        ensures tree { OnOk result (tree_of self.new (H.view host.new).forest
            ≡ with_shape (tree_of self.old (H.view host.old).forest)
            (without_entry (shape_of self.old (H.view host.old).forest) dir name.now)) }
        ensures rest { OnlyForest (H.view host.old) (H.view host.new) }
        ensures cause { HasCause (H.count host.old) (H.count host.new)
            (IsErrOf result HostErr.Failed) }
    {
        let names = self.names();
        let inode = self.inode(n);
        host.unbind(self.inode(dir).real, name)?;
        self.set(
            n,
            Inode {
                names: inode.names - 1,
                up: None,
                ..inode
            },
        );
        self.set_names(names - 1);
        Ok(())
    }

    // Takes away the name of what a directory has under it, where it has something there.
    pub(crate) fn unbind_found<H: Host>(
        &mut self,
        host: &mut H,
        dir: u64,
        name: &[u8],
        found: Option<u64>,
    ) -> Result<(), HostErr>
        requires mirrors { IsMirror self.old (H.view host.old).forest }
        requires directory { IsDir (shape_of self.old (H.view host.old).forest) dir }
        requires found { found ≡ entry (shape_of self.old (H.view host.old).forest) dir name.now }
        requires once { IfSome found (λ n. IsDir (shape_of self.old (H.view host.old).forest) n
            → name_count_of (shape_of self.old (H.view host.old).forest) n ≤ 1) }
        ensures mirrors { OnOk result (IsMirror self.new (H.view host.new).forest) }
        ensures tree { OnOk result (tree_of self.new (H.view host.new).forest
            ≡ with_shape (tree_of self.old (H.view host.old).forest)
            (without_entry (shape_of self.old (H.view host.old).forest) dir name.now)) }
        ensures rest { OnlyForest (H.view host.old) (H.view host.new) }
        ensures cause { HasCause (H.count host.old) (H.count host.new)
            (IsErrOf result HostErr.Failed) }
    {
        let _before = host.faults();
        match found {
            None => Ok(()),
            Some(n) => self.unbind(host, dir, name, n),
        }
    }

    // Notes when a node was modified.
    pub(crate) fn stamp(&mut self, n: u64, stamp: u64)
        requires { IsSome (get self.old.inodes n) }
        ensures mirrors { (v : Forest) → IsMirror self.old v → IsMirror self.new v }
        ensures tree { (v : Forest) → IsMirror self.old v
            → tree_of self.new v ≡ tree_with_stamp (tree_of self.old v) n stamp }
    {
        let inode = self.inode(n);
        self.set(n, Inode { stamp, ..inode });
    }

    // Lets a node go that has neither names nor holds. Any other stays.
    pub(crate) fn sweep<H: Host>(&mut self, host: &mut H, n: u64) -> Result<(), HostErr>
        requires mirrors { IsMirror self.old (H.view host.old).forest }
        requires tree { IsTreeBut (Some n) (tree_of self.old (H.view host.old).forest) }
        requires live { IsLive (shape_of self.old (H.view host.old).forest) n }
        ensures mirrors { OnOk result (IsMirror self.new (H.view host.new).forest) }
        ensures tree { OnOk result (tree_of self.new (H.view host.new).forest
            ≡ without_unused (tree_of self.old (H.view host.old).forest) n) }
        ensures rest { OnlyForest (H.view host.old) (H.view host.new) }
        ensures cause { HasCause (H.count host.old) (H.count host.new)
            (IsErrOf result HostErr.Failed) }
    {
        let _before = host.faults();
        let inode = self.inode(n);
        if !is_unused(n, inode) {
            return Ok(());
        }
        host.forget(inode.real)?;
        self.forget(n, inode.real);
        Ok(())
    }

    // The same of what a directory had under a name, where it had something there.
    pub(crate) fn sweep_found<H: Host>(
        &mut self,
        host: &mut H,
        found: Option<u64>,
    ) -> Result<(), HostErr>
        requires mirrors { IsMirror self.old (H.view host.old).forest }
        requires tree { IsTreeBut found (tree_of self.old (H.view host.old).forest) }
        requires live { IfSome found (IsLive (shape_of self.old (H.view host.old).forest)) }
        ensures mirrors { OnOk result (IsMirror self.new (H.view host.new).forest) }
        ensures tree { OnOk result (tree_of self.new (H.view host.new).forest
            ≡ without_unused_found found (tree_of self.old (H.view host.old).forest)) }
        ensures rest { OnlyForest (H.view host.old) (H.view host.new) }
        ensures cause { HasCause (H.count host.old) (H.count host.new)
            (IsErrOf result HostErr.Failed) }
    {
        let _before = host.faults();
        match found {
            None => Ok(()),
            Some(n) => self.sweep(host, n),
        }
    }

    // Makes a node and gives it a name.
    pub(crate) fn create<H: Host>(
        &mut self,
        host: &mut H,
        dir: u64,
        name: &[u8],
        what: &What,
        mode: u32,
        stamp: u64,
    ) -> Result<u64, HostErr>
        requires stands { Stands self.old (H.view host.old).forest }
        requires may { MayCreate (tree_of self.old (H.view host.old).forest) dir name.now what.now mode }
        ensures number { IfOk result (λ n. n ≡ self.old.next) }
        ensures stands { OnOk result (Stands self.new (H.view host.new).forest) }
        ensures tree { OnOk result (tree_of self.new (H.view host.new).forest
            ≡ tree_with_new (tree_of self.old (H.view host.old).forest) dir name.now
            (new_node what.now) mode stamp) }
        ensures rest { OnlyForest (H.view host.old) (H.view host.new) }
        ensures cause { HasCause (H.count host.old) (H.count host.new)
            (IsErrOf result HostErr.Failed) }
    {
        let n = self.make(host, what, mode, stamp)?;
        self.bind(host, dir, name, n)?;
        Ok(n)
    }
}
