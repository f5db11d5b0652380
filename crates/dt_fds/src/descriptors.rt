// The descriptors of processes, and what they refer to.
ghost use Rattle.std.specs.Prelude.{◌≡◌, ℕ, ◌+◌, ◌-◌, ◌<◌, ◌≤◌, ◌==◌, cond, false, None, Some, IsSome, IfSome, IfOk};
ghost use Rattle.std.specs.Prelude.{OnOk, OnErr, is_some, unwrap_or, slice_set, length, replicate, []};
ghost use Rattle.std.specs.Option.{option_copied, is_none};
ghost use Rattle.std.specs.List.{position};
ghost use Rattle.std.specs.FinMap.{get, insert, remove};
ghost use Rattle.dt_fds.specs.Backs.{KeepsNodes};
ghost use Rattle.dt_fds.specs.declared.desc.TheConstants.{DESCRIPTOR_LIMIT};
ghost use Rattle.dt_fds.specs.Descriptions.{IsDesc, empty_descriptions, table_at, slot_at, description_at, cloexec_at};
ghost use Rattle.dt_fds.specs.Descriptions.{lowest_free, with_slot, with_table, with_new_description, with_opened};
ghost use Rattle.dt_fds.specs.Descriptions.{with_duplicate, without_slot};
ghost use Rattle.dt_fds.specs.Descriptions.{without_unreferenced, unreferenced, with_description, at_spot, with_flags};
ghost use Rattle.dt_fds.specs.Descriptions.{is_after, is_of_dir};
ghost use Rattle.dt_fds.specs.Descriptions.{without_table};

use crate::desc::{DESCRIPTOR_LIMIT, Desc, DescKind, Slot, Spot};
use dt_base::NoMemory;
use dt_base::abi::O_RDONLY;
use dt_tables::Numbered;
use std::alloc::Global;
use std::marker::Model;

/// The open file descriptions, and for each process by its pid a table of descriptors that refer to them.
#[derive(Drop)]
pub struct Descriptors {
    descs: Numbered<Desc>,
    // How many descriptors refer to each description.
    counts: Numbered<u64>,
    tables: Numbered<[Option<Slot>; DESCRIPTOR_LIMIT]>,
    next: u64,
}

impl Model for Descriptors {
    ghost use Rattle.dt_fds.specs.Descriptions.{Descriptions};
    ghost use Rattle.dt_fds.specs.inner.Codes.{descriptions_code};
    ghost use Rattle.dt_fds.specs.inner.Counts.{Counts};

    ghost Value = { Descriptions };

    ghost coded = { descriptions_code };

    ghost view = { λ f. record { descs = f.descs; tables = f.tables; next = f.next } };

    ghost invariant = { λ f. Counts f.descs f.counts f.tables f.next };
}

impl Descriptors {
    /// The open file description that a descriptor refers to; none exactly where the process has no such descriptor.
    #[tactic(auto, unfolding(crate::specs::Descriptions::description_at))]
    pub(crate) fn look(&self, pid: u32, fd: u32) -> Option<&Desc>
        ensures desc { option_copied result ≡ description_at self.now pid fd }
        ensures open { is_some (option_copied result) ≡ is_some (slot_at self.now pid fd) }
        ensures good { IfSome (option_copied result) IsDesc }
    {
        match self.slot(pid, fd) {
            Some(slot) => {
                self.living(pid, fd, slot);
                self.desc(slot.number)
            }
            None => None,
        }
    }

    /// Whether no descriptor of a process is free.
    pub(crate) fn is_full(&self, pid: u32) -> bool
        ensures { result ≡ is_none (lowest_free (table_at self.now pid) 0) }
    {
        self.free(pid, 0).is_none()
    }

    /// Whether a process has a table of descriptors.
    pub(crate) fn has_table(&self, pid: u32) -> bool
        ensures { result ≡ is_some (get self.now.tables pid) }
    {
        self.tables.contains(u64::from(pid))
    }

    /// A descriptor's close-on-exec bit; none where the process has no such descriptor (fcntl(2), F_GETFD).
    pub(crate) fn is_cloexec(&self, pid: u32, fd: u32) -> Option<bool>
        ensures { result ≡ cloexec_at self.now pid fd }
    {
        match self.slot(pid, fd) {
            Some(slot) => Some(slot.cloexec),
            None => None,
        }
    }

    // The slot of a descriptor, if it is open.
    #[tactic(auto, unfolding(crate::specs::Descriptions::slot_at))]
    pub(crate) fn slot(&self, pid: u32, fd: u32) -> Option<Slot>
        ensures slot { result ≡ slot_at self.now pid fd }
        ensures there { IfSome result (λ _. IsSome (get self.now.tables pid)) }
        ensures within { IfSome result (λ _. fd < DESCRIPTOR_LIMIT) }
    {
        match self.tables.get(u64::from(pid)) {
            Some(table) => match table.get(fd as usize) {
                Some(slot) => *slot,
                None => None,
            },
            None => None,
        }
    }

    // The description of that number, if it is open.
    pub(crate) fn desc(&self, number: u64) -> Option<&Desc>
        ensures desc { option_copied result ≡ get self.now.descs number }
        ensures good { IfSome (option_copied result) IsDesc }
    {
        self.descs.get(number)
    }

    // What an open descriptor refers to is open: nothing is done.
    pub(crate) fn living(&self, pid: u32, fd: u32, slot: Slot)
        requires here { slot_at self.now pid fd ≡ Some slot }
        ensures { IsSome (get self.now.descs slot.number) }
    {
        let _ = &self.descs;
    }

    // A table has a slot for each descriptor that may be open: nothing is done.
    pub(crate) fn sized(&self, pid: u32)
        requires { IsSome (get self.now.tables pid) }
        ensures { length (table_at self.now pid) ≡ DESCRIPTOR_LIMIT }
    {
        let _ = &self.tables;
    }

    // The lowest free descriptor from a given one on, if there is one.
    #[tactic(auto, unfolding(crate::specs::Descriptions::lowest_free))]
    pub(crate) fn free(&self, pid: u32, from: u32) -> Option<u32>
        ensures value { result ≡ lowest_free (table_at self.now pid) from }
        ensures there { IfSome result (λ _. IsSome (get self.now.tables pid)) }
        ensures within { IfSome result (λ fd. fd < DESCRIPTOR_LIMIT) }
        ensures free { IfSome result (λ fd. slot_at self.now pid fd ≡ None) }
    {
        let found = self.tables.get(u64::from(pid)).copied();
        match found {
            Some(table) => first_free(&table, from),
            None => None,
        }
    }

    // The tables of one process that has nothing open.
    pub(crate) fn none(alloc: Global, pid: u32) -> Result<Descriptors, NoMemory>
        ensures { IfOk result (λ files. files ≡ empty_descriptions pid) }
    {
        let mut tables = Numbered::new(alloc);
        tables.put(u64::from(pid), [None; DESCRIPTOR_LIMIT])?;
        Ok(Descriptors {
            descs: Numbered::new(alloc),
            counts: Numbered::new(alloc),
            tables,
            next: 1,
        })
    }

    // Lets a free descriptor refer to a description.
    #[tactic(auto, unfolding(crate::specs::Descriptions::with_slot))]
    pub(crate) fn place(&mut self, pid: u32, fd: u32, slot: Slot) -> Result<(), NoMemory>
        requires table { IsSome (get self.old.tables pid) }
        requires within { fd < DESCRIPTOR_LIMIT }
        requires free { slot_at self.old pid fd ≡ None }
        requires living { IsSome (get self.old.descs slot.number) }
        ensures ok { OnOk result (self.new ≡ with_slot self.old pid fd (Some slot)) }
        ensures err { OnErr result (self.new ≡ self.old) }
    {
        raise(&mut self.counts, slot.number)?;
        put_slot(&mut self.tables, pid, fd, Some(slot));
        Ok(())
    }

    // Frees a descriptor, and gives the description that goes with it if it was the last that referred to it.
    #[tactic(auto, unfolding(crate::specs::Descriptions::without_slot, crate::specs::Descriptions::with_slot, crate::specs::Descriptions::without_unreferenced, crate::specs::Descriptions::unreferenced))]
    pub(crate) fn clear(&mut self, pid: u32, fd: u32, slot: Slot) -> Option<Desc>
        requires here { slot_at self.old pid fd ≡ Some slot }
        ensures files { self.new ≡ without_slot self.old pid fd slot.number }
        ensures gone { result ≡ unreferenced (with_slot self.old pid fd None) slot.number }
    {
        put_slot(&mut self.tables, pid, fd, None);
        lower(&mut self.counts, &mut self.descs, slot.number)
    }

    // Lets a free descriptor refer to a new description. Want of memory is the answer where the numbers are used up.
    #[tactic(auto, unfolding(crate::specs::Descriptions::with_slot, crate::specs::Descriptions::with_new_description))]
    pub(crate) fn enter(
        &mut self,
        pid: u32,
        fd: u32,
        desc: Desc,
        cloexec: bool,
    ) -> Result<(), NoMemory>
        requires table { IsSome (get self.old.tables pid) }
        requires within { fd < DESCRIPTOR_LIMIT }
        requires free { slot_at self.old pid fd ≡ None }
        requires good { IsDesc desc }
        ensures fresh { get self.old.descs self.old.next ≡ None }
        ensures ok { OnOk result (self.new ≡ with_opened self.old pid fd desc cloexec) }
    {
        let number = self.next;
        if number == u64::MAX {
            return Err(NoMemory);
        }
        self.descs.put(number, desc)?;
        match self.counts.put(number, 1) {
            Ok(()) => {
                put_slot(&mut self.tables, pid, fd, Some(Slot { number, cloexec }));
                self.next = number + 1;
                Ok(())
            }
            Err(_) => {
                self.descs.take(number);
                Err(NoMemory)
            }
        }
    }

    // Gives an open description another offset, or point in its listing.
    #[tactic(auto, unfolding(crate::specs::Descriptions::with_description))]
    pub(crate) fn move_to(&mut self, number: u64, spot: Spot)
        requires living { IsSome (get self.old.descs number) }
        requires kind { IfSome (get self.old.descs number)
            (λ desc. is_after spot ≡ is_of_dir desc.kind) }
        ensures files { self.new ≡ with_description self.old number (at_spot spot) }
        ensures nodes { (p : ℕ) → KeepsNodes p self.old self.new }
    {
        put_spot(&mut self.descs, number, spot);
    }

    // Gives an open description other flags.
    #[tactic(auto, unfolding(crate::specs::Descriptions::with_description))]
    pub(crate) fn flag(&mut self, number: u64, append: bool, nonblock: bool)
        requires { IsSome (get self.old.descs number) }
        ensures files { self.new ≡ with_description self.old number (with_flags append nonblock) }
        ensures nodes { (p : ℕ) → KeepsNodes p self.old self.new }
    {
        put_flags(&mut self.descs, number, append, nonblock);
    }

    // Gives an open descriptor another close-on-exec bit.
    #[tactic(auto, unfolding(crate::specs::Descriptions::with_slot))]
    pub(crate) fn mark(&mut self, pid: u32, fd: u32, slot: Slot, cloexec: bool)
        requires here { slot_at self.old pid fd ≡ Some slot }
        ensures files { self.new ≡ with_duplicate self.old pid fd slot cloexec }
        ensures nodes { KeepsNodes pid self.old self.new }
    {
        let number = slot.number;
        put_slot(&mut self.tables, pid, fd, Some(Slot { number, cloexec }));
    }

    // Gives a process that has no table one whose descriptors are free.
    pub(crate) fn begin(&mut self, pid: u32) -> Result<(), NoMemory>
        requires { get self.old.tables pid ≡ None }
        ensures ok { OnOk result
            (self.new ≡ with_table self.old pid (replicate DESCRIPTOR_LIMIT None)) }
        ensures err { OnErr result (self.new ≡ self.old) }
    {
        self.tables.put(u64::from(pid), [None; DESCRIPTOR_LIMIT])?;
        Ok(())
    }

    // Takes away the table of a process that has nothing open.
    pub(crate) fn forget(&mut self, pid: u32)
        requires { (fd : ℕ) → fd < DESCRIPTOR_LIMIT → slot_at self.old pid fd ≡ None }
        ensures files { self.new ≡ without_table self.old pid }
        ensures nodes { KeepsNodes pid self.old self.new }
    {
        self.tables.take(u64::from(pid));
    }
}

// Puts this into a table, at the index of a descriptor.
fn put_slot(
    tables: &mut Numbered<[Option<Slot>; DESCRIPTOR_LIMIT]>,
    pid: u32,
    fd: u32,
    slot: Option<Slot>,
)
    requires table { IsSome (get tables.old pid) }
    requires within { fd < DESCRIPTOR_LIMIT }
    ensures { tables.new ≡ insert tables.old pid
        (slice_set (unwrap_or (get tables.old pid) []) fd slot) }
{
    match tables.get(u64::from(pid)).copied() {
        Some(mut table) => {
            table[fd as usize] = slot;
            tables.set(u64::from(pid), table);
        }
        None => {}
    }
}

// Gives a description another offset, or point in its listing.
fn put_spot(descs: &mut Numbered<Desc>, n: u64, spot: Spot)
    requires { IsSome (get descs.old n) }
    ensures { IfSome (get descs.old n) (λ old. descs.new ≡ insert descs.old n (at_spot spot old)) }
{
    let old = descs.swap(n, blank());
    descs.set(n, Desc { spot, ..old });
}

// Gives a description other flags.
fn put_flags(descs: &mut Numbered<Desc>, n: u64, append: bool, nonblock: bool)
    requires { IsSome (get descs.old n) }
    ensures { IfSome (get descs.old n)
        (λ old. descs.new ≡ insert descs.old n (with_flags append nonblock old)) }
{
    let old = descs.swap(n, blank());
    descs.set(
        n,
        Desc {
            append,
            nonblock,
            ..old
        },
    );
}

// What stands in the place of a description while that is changed.
fn blank() -> Desc {
    Desc {
        kind: DescKind::Input,
        spot: Spot::At(0),
        access: O_RDONLY as u8,
        append: false,
        nonblock: false,
    }
}

// Counts one more. Want of memory is the answer where there are as many as can be counted.
fn raise(counts: &mut Numbered<u64>, n: u64) -> Result<(), NoMemory>
    requires { IsSome (get counts.old n) }
    ensures ok { OnOk result
        (counts.new ≡ insert counts.old n (unwrap_or (get counts.old n) 0 + 1)) }
    ensures err { OnErr result (counts.new ≡ counts.old) }
{
    match counts.get(n).copied() {
        Some(count) if count < u64::MAX => {
            counts.set(n, count + 1);
            Ok(())
        }
        Some(_) | None => Err(NoMemory),
    }
}

// Counts one less; with the last the description goes.
fn lower(counts: &mut Numbered<u64>, descs: &mut Numbered<Desc>, n: u64) -> Option<Desc>
    requires { 0 < unwrap_or (get counts.old n) 0 }
    ensures gone { result ≡ cond (unwrap_or (get counts.old n) 0 == 1) (get descs.old n) None }
    ensures descs { descs.new
        ≡ cond (unwrap_or (get counts.old n) 0 == 1) (remove descs.old n) descs.old }
    ensures counts { counts.new ≡ cond (unwrap_or (get counts.old n) 0 == 1)
        (remove counts.old n) (insert counts.old n (unwrap_or (get counts.old n) 0 - 1)) }
{
    match counts.get(n).copied() {
        Some(1) => {
            counts.take(n);
            descs.take(n)
        }
        Some(count) => {
            counts.set(n, count - 1);
            None
        }
        None => None,
    }
}

// The lowest free index of a table from a given one on.
#[tactic(auto, unfolding(crate::specs::Descriptions::lowest_free), using(crate::proofs::Slots::behind_all))]
fn first_free(table: &[Option<Slot>; DESCRIPTOR_LIMIT], from: u32) -> Option<u32>
    ensures value { result ≡ lowest_free table.now from }
    ensures within { IfSome result (λ fd. fd < DESCRIPTOR_LIMIT) }
{
    if from as usize >= DESCRIPTOR_LIMIT {
        return None;
    }
    let (_, rest) = table.split_at(from as usize);
    match first_none(rest) {
        Some(i) => Some(from + i as u32),
        None => None,
    }
}

// The first index at which there is nothing.
fn first_none(rest: &[Option<Slot>]) -> Option<usize>
    ensures value { result ≡ position is_none rest.now }
    ensures within { IfSome result (λ i. i < length rest.now) }
{
    rest.iter().position(|slot| slot.is_none())
}
