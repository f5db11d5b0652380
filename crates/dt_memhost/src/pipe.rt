// A pipe in memory.
ghost use Rattle.std.specs.Prelude.{◌≡◌, ◌≤◌, [], ◌++◌, length, take, drop, OnOk, OnErr};

use dt_base::NoMemory;
use std::alloc::Global;
use std::marker::Model;
use std::mem;

/// The bytes that a pipe holds, the oldest first: those of `oldest` that were not taken, and then those of `rest`,
/// where all go that come. So each byte is copied in and out once, and a transfer moves none of those that stay.
#[derive(Drop)]
pub(crate) struct MemPipe {
    oldest: Vec<u8>,
    taken: usize,
    rest: Vec<u8>,
}

impl Model for MemPipe {
    ghost use Rattle.std.specs.Prelude.{ℕ, List, ◌++◌, ◌≤◌, drop, vec_len};

    ghost Value = { List ℕ };

    ghost view = { λ p. drop p.taken p.oldest.items ++ p.rest.items };

    ghost invariant = { λ p. p.taken ≤ vec_len p.oldest };
}

impl MemPipe {
    /// A pipe that holds nothing.
    pub(crate) fn new(alloc: Global) -> MemPipe
        ensures { result ≡ [] }
    {
        MemPipe {
            oldest: Vec::new(alloc),
            taken: 0,
            rest: Vec::new(alloc),
        }
    }

    /// How many bytes it holds.
    pub(crate) fn len(&self) -> usize
        ensures { result ≡ length self.now }
    {
        self.oldest.len() - self.taken + self.rest.len()
    }

    /// Takes its oldest bytes, so many, into the start of the buffer.
    pub(crate) fn take(&mut self, count: usize, buf: &mut [u8])
        requires there { count ≤ length self.old }
        requires room { count ≤ length buf.old }
        ensures bytes { buf.new ≡ take count self.old ++ drop count buf.old }
        ensures left { self.new ≡ drop count self.old }
    {
        let (_, first) = self.oldest.split_at(self.taken);
        let inside = count.min(first.len());
        let (upper, _) = first.split_at(inside);
        let (lower, _) = self.rest.split_at(count - inside);
        buf[..inside].copy_from_slice(upper);
        buf[inside..count].copy_from_slice(lower);
        self.let_go(count);
    }

    // Lets its oldest bytes go, so many.
    fn let_go(&mut self, count: usize)
        requires { count ≤ length self.old }
        ensures { self.new ≡ drop count self.old }
    {
        let first = self.oldest.len() - self.taken;
        if count < first {
            self.taken += count;
            return;
        }
        mem::swap(&mut self.oldest, &mut self.rest);
        self.taken = count - first;
        self.rest.clear();
    }

    /// Puts bytes behind those that it holds.
    pub(crate) fn put(&mut self, bytes: &[u8]) -> Result<(), NoMemory>
        ensures ok { OnOk result (self.new ≡ self.old ++ bytes.now) }
        ensures err { OnErr result (self.new ≡ self.old) }
    {
        self.rest.extend_from_slice(bytes)?;
        Ok(())
    }
}
