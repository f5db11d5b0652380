// Bytes of a file, read into memory of their own.
ghost use Rattle.std.specs.Prelude.{◌≡◌, ◌+◌, ◌<◌, ◌^◌, length, take, drop, IfOk};
ghost use Rattle.dt_host.specs.Asks.{Asks};
ghost use Rattle.dt_host.specs.World.{IsFile, content};
ghost use Rattle.dt_tree.specs.Table.{Stands, shape_of};

use crate::tree::Tree;
use dt_base::FILE_LIMIT;
use dt_host::{Host, HostErr};

impl Tree {
    /// At most `most` bytes of a file, from an offset on. No more memory is taken than for what is left of the file.
    pub fn read_part<H: Host>(
        &self,
        host: &mut H,
        inode: u64,
        offset: u64,
        most: u64,
    ) -> Result<Vec<u8>, HostErr>
        requires stands { Stands self.now (H.view host.old).forest }
        requires file { IsFile (shape_of self.now (H.view host.old).forest) inode }
        ensures ok { IfOk result (λ bytes. bytes.items
            ≡ take most (drop offset (content (shape_of self.now (H.view host.old).forest) inode))) }
        ensures fits { IfOk result (λ bytes. offset + length bytes.items < 2 ^ 64) }
        ensures asks { Asks H.view H.count host.old host.new result }
    {
        let left = self.meta(host, inode)?.size.saturating_sub(offset);
        let mut bytes = vec![in self.alloc; 0; left.min(most) as usize]?;
        self.read_at(host, inode, offset, &mut bytes)?;
        Ok(bytes)
    }

    /// All the bytes of a file.
    pub fn read_file<H: Host>(&self, host: &mut H, inode: u64) -> Result<Vec<u8>, HostErr>
        requires stands { Stands self.now (H.view host.old).forest }
        requires file { IsFile (shape_of self.now (H.view host.old).forest) inode }
        ensures ok { IfOk result
            (λ bytes. bytes.items ≡ content (shape_of self.now (H.view host.old).forest) inode) }
        ensures asks { Asks H.view H.count host.old host.new result }
    {
        self.read_part(host, inode, 0, FILE_LIMIT)
    }
}
