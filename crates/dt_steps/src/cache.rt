// A cache of steps.
ghost use Rattle.std.specs.Prelude.{◌≡◌, ◌≤◌, [], Ok, IfOk, OnOk, OnErr, IfSome, IfNone};
ghost use Rattle.std.specs.Option.{option_copied};
ghost use Rattle.dt_steps.specs.Steps.{run_of_step, image_after};
ghost use Rattle.dt_steps.specs.Cache.{IsCached, Knows, with_step};

use crate::input::StepInput;
use dt_base::{Blob, Image, NoMemory};
use std::alloc::Global;
use std::marker::Model;

/// How many steps a cache has room for at most.
pub const CACHE_LIMIT: usize = 64;

/// A step that has ended: its whole input, its report and its status, and the image of the tree that it left.
#[derive(Drop)]
pub struct CachedStep {
    pub input: StepInput,
    pub report: Blob,
    pub status: u8,
    pub left: Image,
}

/// Steps that have ended, the oldest first. Where there is no room for another one the first goes.
#[derive(Drop)]
pub struct Cache {
    alloc: Global,
    room: usize,
    steps: Vec<CachedStep>,
}

impl Model for Cache {
    ghost use Rattle.dt_steps.specs.Cache.{CacheView, IsCache};

    ghost Value = { CacheView };

    ghost view = { λ c. record { steps = c.steps.items; room = c.room } };

    ghost invariant = { λ c. IsCache (record { steps = c.steps.items; room = c.room }) };
}

impl Cache {
    /// A cache without steps, with room for so many, at most 64. Where it has room for none it keeps none.
    pub fn new(alloc: Global, room: usize) -> Result<Self, NoMemory>
        requires { room ≤ CACHE_LIMIT }
        ensures { IfOk result (λ cache. cache ≡ record { steps = []; room = room }) }
    {
        Ok(Cache {
            alloc,
            room,
            steps: Vec::with_capacity(alloc, room)?,
        })
    }

    /// The steps, the oldest first.
    pub fn steps(&self) -> &[CachedStep]
        ensures { result.now ≡ self.now.steps }
    {
        &self.steps
    }

    // The step that has this input, if it is there.
    pub(crate) fn find(&self, input: &StepInput) -> Option<&CachedStep>
        ensures input { IfSome (option_copied result) (λ step. step.input ≡ input.now) }
        ensures cached { IfSome (option_copied result) IsCached }
        ensures known { IfSome result (λ _. Knows self.now input.now) }
        ensures missing { IfNone result (Knows self.now input.now → ⊥) }
    {
        for step in &self.steps {
            if step.input.is_same(input) {
                return Some(step);
            }
        }
        None
    }

    // Keeps a step, where there is room for any.
    pub(crate) fn keep(
        &mut self,
        input: StepInput,
        report: &[u8],
        status: u8,
        left: &Image,
    ) -> Result<(), NoMemory>
        requires { IsCached (record { input = input; report = report.now; status = status; left = left.now }) }
        ensures ok { OnOk result (self.new ≡ with_step self.old input (Ok left.now)) }
        ensures err { OnErr result (self.new ≡ self.old) }
    {
        if self.room == 0 {
            return Ok(());
        }
        self.add(CachedStep {
            input,
            report: Blob::new(Vec::from_slice(self.alloc, report)?),
            status,
            left: left.copy()?,
        })
    }

    // Adds a step behind the others. Where there is no room for it the first goes.
    fn add(&mut self, step: CachedStep) -> Result<(), NoMemory>
        requires cached { IsCached step }
        requires room { 1 ≤ self.old.room }
        ensures ok { OnOk result (self.new ≡ with_step self.old step.input (Ok step.left)) }
        ensures err { OnErr result (self.new ≡ self.old) }
    {
        let full = self.steps.len() == self.room;
        self.steps.push(step)?;
        if full {
            self.steps.remove(0);
        }
        Ok(())
    }
}
