// The bytes of a file, changed.
ghost use Rattle.std.specs.Prelude.{◌≡◌, ◌+◌, ◌≤◌, length, OnOk, IsErrOf};
ghost use Rattle.dt_base.specs.declared.limits.TheConstants.{FILE_LIMIT};
ghost use Rattle.dt_base.specs.Profile.{file_limit};
ghost use Rattle.dt_host.specs.declared.error.CallErr.TheVariants.{Host as host_failed};
ghost use Rattle.dt_host.specs.Cause.{HasCause};
ghost use Rattle.dt_host.specs.World.{IsFile, OnlyForest};
ghost use Rattle.dt_tree.specs.Calls.{IsTreeAnswer, UnlessFailed, KeepsHeld, write_at_of, cut_of};
ghost use Rattle.dt_tree.specs.Changes.{tree_after_write, tree_after_truncate};
ghost use Rattle.dt_tree.specs.Table.{Stands, shape_of, tree_of};
ghost use Rattle.dt_tree.specs.inner.Files.{with_padding, with_padded_write};

use crate::tree::Tree;
use dt_base::{Errno, file_limit};
use dt_host::{CallErr, Host, HostErr, write_whole};

// Puts zeros behind the bytes of a file at the host up to `off`, where it is shorter.
fn pad<H: Host>(host: &mut H, real: u64, off: u64) -> Result<(), HostErr>
    requires file { IsFile (H.view host.old).forest real }
    requires fits { off ≤ FILE_LIMIT }
    ensures padded { OnOk result (H.view host.new ≡ with_padding (H.view host.old) real off) }
    ensures rest { OnlyForest (H.view host.old) (H.view host.new) }
    ensures cause { HasCause (H.count host.old) (H.count host.new) (IsErrOf result HostErr.Failed) }
{
    let size = host.raw(real)?.size;
    if size >= off {
        return Ok(());
    }
    host.cut(real, off)
}

// Writes bytes over a file at the host from `off` on, with zeros in the gap where that lies past its end.
fn write_padded<H: Host>(host: &mut H, real: u64, off: u64, bytes: &[u8]) -> Result<(), HostErr>
    requires file { IsFile (H.view host.old).forest real }
    requires fits { off + length bytes.now ≤ FILE_LIMIT }
    ensures padded { OnOk result
        (H.view host.new ≡ with_padded_write (H.view host.old) real off bytes.now) }
    ensures rest { OnlyForest (H.view host.old) (H.view host.new) }
    ensures cause { HasCause (H.count host.old) (H.count host.new) (IsErrOf result HostErr.Failed) }
{
    pad(host, real, off)?;
    write_whole(host, real, off, bytes)
}

impl Tree {
    // Writes bytes over a file that stays within its limit.
    fn write_within<H: Host>(
        &mut self,
        host: &mut H,
        vino: u64,
        off: u64,
        bytes: &[u8],
        stamp: u64,
    ) -> Result<(), HostErr>
        requires stands { Stands self.old (H.view host.old).forest }
        requires file { IsFile (shape_of self.old (H.view host.old).forest) vino }
        requires fits { off + length bytes.now ≤ file_limit self.old.version }
        ensures stands { OnOk result (Stands self.new (H.view host.new).forest) }
        ensures tree { OnOk result (tree_of self.new (H.view host.new).forest
            ≡ tree_after_write (tree_of self.old (H.view host.old).forest) vino off bytes.now stamp) }
        ensures held { OnOk result (KeepsHeld (tree_of self.old (H.view host.old).forest)
            (tree_of self.new (H.view host.new).forest)) }
        ensures rest { OnlyForest (H.view host.old) (H.view host.new) }
        ensures cause { HasCause (H.count host.old) (H.count host.new)
            (IsErrOf result HostErr.Failed) }
    {
        write_padded(host, self.inode(vino).real, off, bytes)?;
        self.stamp(vino, stamp);
        Ok(())
    }

    // Cuts a file to a length within its limit, or puts zeros behind its bytes up to it.
    fn cut_within<H: Host>(
        &mut self,
        host: &mut H,
        vino: u64,
        len: u64,
        stamp: u64,
    ) -> Result<(), HostErr>
        requires stands { Stands self.old (H.view host.old).forest }
        requires file { IsFile (shape_of self.old (H.view host.old).forest) vino }
        requires fits { len ≤ file_limit self.old.version }
        ensures stands { OnOk result (Stands self.new (H.view host.new).forest) }
        ensures tree { OnOk result (tree_of self.new (H.view host.new).forest
            ≡ tree_after_truncate (tree_of self.old (H.view host.old).forest) vino len stamp) }
        ensures held { OnOk result (KeepsHeld (tree_of self.old (H.view host.old).forest)
            (tree_of self.new (H.view host.new).forest)) }
        ensures rest { OnlyForest (H.view host.old) (H.view host.new) }
        ensures cause { HasCause (H.count host.old) (H.count host.new)
            (IsErrOf result HostErr.Failed) }
    {
        host.cut(self.inode(vino).real, len)?;
        self.stamp(vino, stamp);
        Ok(())
    }

    /// Writes bytes over a file from `off` on, with zeros in the gap where that lies past its end. The file gets the
    /// stamp. EFBIG where it would pass the limit of the tree's version.
    pub fn write_at<H: Host>(
        &mut self,
        host: &mut H,
        vino: u64,
        off: u64,
        bytes: &[u8],
        stamp: u64,
    ) -> Result<(), CallErr>
        requires stands { Stands self.old (H.view host.old).forest }
        requires file { IsFile (shape_of self.old (H.view host.old).forest) vino }
        ensures done { IsTreeAnswer result (tree_of self.new (H.view host.new).forest)
            (write_at_of (tree_of self.old (H.view host.old).forest) vino off bytes.now stamp) }
        ensures stands { UnlessFailed result (Stands self.new (H.view host.new).forest) }
        ensures held { UnlessFailed result (KeepsHeld (tree_of self.old (H.view host.old).forest)
            (tree_of self.new (H.view host.new).forest)) }
        ensures rest { OnlyForest (H.view host.old) (H.view host.new) }
        ensures cause { HasCause (H.count host.old) (H.count host.new)
            (IsErrOf result (host_failed HostErr.Failed)) }
    {
        let _before = host.faults();
        if off.saturating_add(bytes.len() as u64) > file_limit(self.version()) {
            return Err(CallErr::Errno(Errno::FBig));
        }
        Ok(self.write_within(host, vino, off, bytes, stamp)?)
    }

    /// Cuts a file to a length, or puts zeros behind its bytes up to it (ftruncate(2)). The file gets the stamp. EFBIG
    /// where it would pass the limit of the tree's version.
    pub fn cut<H: Host>(
        &mut self,
        host: &mut H,
        vino: u64,
        len: u64,
        stamp: u64,
    ) -> Result<(), CallErr>
        requires stands { Stands self.old (H.view host.old).forest }
        requires file { IsFile (shape_of self.old (H.view host.old).forest) vino }
        ensures done { IsTreeAnswer result (tree_of self.new (H.view host.new).forest)
            (cut_of (tree_of self.old (H.view host.old).forest) vino len stamp) }
        ensures stands { UnlessFailed result (Stands self.new (H.view host.new).forest) }
        ensures held { UnlessFailed result (KeepsHeld (tree_of self.old (H.view host.old).forest)
            (tree_of self.new (H.view host.new).forest)) }
        ensures rest { OnlyForest (H.view host.old) (H.view host.new) }
        ensures cause { HasCause (H.count host.old) (H.count host.new)
            (IsErrOf result (host_failed HostErr.Failed)) }
    {
        let _before = host.faults();
        if len > file_limit(self.version()) {
            return Err(CallErr::Errno(Errno::FBig));
        }
        Ok(self.cut_within(host, vino, len, stamp)?)
    }
}
