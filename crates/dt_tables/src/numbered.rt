// Values by number, which contracts see as a finite map.
ghost use Rattle.std.specs.Prelude.{◌≡◌, ◌≢◌, ℕ, Some, IsSome, is_some, nat_eq, IfOk, OnOk, OnErr};
ghost use Rattle.std.specs.Option.{option_copied, option_copied_mut};
ghost use Rattle.std.specs.Borrow.{sem};
ghost use Rattle.std.specs.FinMap.{FinMap, get, insert, remove, empty, keys};
ghost use Rattle.std.specs.Ordering.{nat_cmp};
ghost use Rattle.std.specs.HashMap as hash;
ghost use Rattle.dt_tables.specs.Lent.{LendsValue};

use std::alloc::{AllocError, Global};
use std::collections::HashMap;
use std::marker::Model;
use std::mem;

/// Values by number. They are found by a hash, so that a look-up among many takes as long as one among few.
#[derive(Drop)]
pub struct Numbered<X: Drop> {
    alloc: Global,
    map: HashMap<u64, X>,
}

impl<X: Drop> Model for Numbered<X> {
    ghost use Rattle.std.specs.Ordering.{nat_cmp};
    ghost use Rattle.std.specs.FinMap.{FinMap, code};
    ghost use Rattle.std.specs.Coded.{coded_ℕ};
    ghost use Rattle.dt_tables.specs.Entries.{map_of};

    ghost Value = { FinMap nat_cmp X };

    ghost coded = { code coded_ℕ X.code };

    ghost view = { λ m. map_of (λ n. n) (λ x. x) m.map.entries };
}

impl<X: Drop> Numbered<X> {
    /// No values.
    pub fn new(alloc: Global) -> Self
        ensures { result ≡ empty }
    {
        Numbered {
            alloc,
            map: HashMap::new(alloc),
        }
    }

    /// The value of a number, if it has one.
    pub fn get(&self, n: u64) -> Option<&X>
        ensures { option_copied result ≡ get self.now n }
    {
        self.map.get(&n)
    }

    /// Whether a number has a value.
    pub fn contains(&self, n: u64) -> bool
        ensures { result ≡ is_some (get self.now n) }
    {
        self.get(n).is_some()
    }

    /// The numbers that have a value, rising; fails only for want of memory.
    pub fn numbers(&self) -> Result<Vec<u64>, AllocError>
        ensures { IfOk result (λ numbers. numbers.items ≡ keys self.now) }
    {
        let mut numbers = unsorted_numbers(self.alloc, &self.map)?;
        numbers.sort_unstable();
        Ok(numbers)
    }

    /// The value of a number for writing, if it has one.
    pub fn get_mut(&mut self, n: u64) -> Option<&mut X>
        ensures* writes_back { sem 𝓛 (LendsValue X.row self.entry n result) }
        ensures value { option_copied_mut result ≡ get self.old n }
    {
        self.map.get_mut(&n)
    }

    /// Gives a number a value, in the place of one that it may have.
    pub fn put(&mut self, n: u64, x: X) -> Result<(), AllocError>
        ensures ok { OnOk result (self.new ≡ insert self.old n x) }
        ensures err { OnErr result (self.new ≡ self.old) }
    {
        self.map.insert(n, x)?;
        Ok(())
    }

    /// Puts another value in the place of one.
    pub fn set(&mut self, n: u64, x: X)
        requires { IsSome (get self.old n) }
        ensures { self.new ≡ insert self.old n x }
    {
        replace(&mut self.map, n, x);
    }

    /// Puts another value in the place of one, and gives that one.
    pub fn swap(&mut self, n: u64, x: X) -> X
        requires { IsSome (get self.old n) }
        ensures found { get self.old n ≡ Some result }
        ensures map { self.new ≡ insert self.old n x }
    {
        exchange(&mut self.map, n, x)
    }

    /// Takes the value of a number away, if it has one, and gives it.
    pub fn take(&mut self, n: u64) -> Option<X>
        ensures found { result ≡ get self.old n }
        ensures map { self.new ≡ remove self.old n }
    {
        self.map.remove(&n)
    }
}

// The numbers that have a value, each once.
fn unsorted_numbers<X: Drop>(alloc: Global, map: &HashMap<u64, X>) -> Result<Vec<u64>, AllocError>
    ensures numbers { IfOk result (λ numbers. numbers.items ≡ hash.keys map.now) }
    ensures unique { hash.IsUnique nat_eq map.now }
{
    map.keys().copied().collect(alloc)
}

// Puts another value in the place of one.
fn replace<X: Drop>(map: &mut HashMap<u64, X>, n: u64, x: X)
    requires { IsSome (hash.get nat_eq map.old n) }
    ensures here { hash.get nat_eq map.new n ≡ Some x }
    ensures others { (q : ℕ) → q ≢ n → hash.get nat_eq map.new q ≡ hash.get nat_eq map.old q }
{
    match map.get_mut(&n) {
        Some(place) => *place = x,
        None => {}
    }
}

// Puts another value in the place of one, and gives that one.
fn exchange<X: Drop>(map: &mut HashMap<u64, X>, n: u64, x: X) -> X
    requires { IsSome (hash.get nat_eq map.old n) }
    ensures found { hash.get nat_eq map.old n ≡ Some result }
    ensures here { hash.get nat_eq map.new n ≡ Some x }
    ensures others { (q : ℕ) → q ≢ n → hash.get nat_eq map.new q ≡ hash.get nat_eq map.old q }
{
    let Some(place) = map.get_mut(&n) else {
        unreachable!()
    };
    mem::replace(place, x)
}
