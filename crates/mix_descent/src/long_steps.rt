// A list of long steps.
ghost use Rattle.std.specs.Prelude.{◌≡◌, ◌<◌, ◌++◌, ◌∷◌, [], length, slice_index_or, OnErr, OnOk};

use crate::long_step::LongStep;
use mix_num::Memory;
use std::alloc::Global;
use std::marker::Model;

/// Long steps in order.
#[derive(Drop)]
pub struct LongSteps {
    steps: Vec<LongStep>,
}

impl Model for LongSteps {
    ghost use Rattle.std.specs.Prelude.{List};
    ghost use Rattle.mix_descent.specs.declared.long_step.LongStep.{LongStep as Long};

    ghost Value = { List Long };

    ghost view = { λ list. list.steps.items };
}

impl LongSteps {
    /// No step. It takes no memory.
    pub fn new(alloc: Global) -> Self
        ensures { result ≡ [] }
    {
        LongSteps {
            steps: Vec::new(alloc),
        }
    }

    /// Adds a step at the end. Where memory is wanting, the list stays as it is.
    pub fn push(&mut self, step: LongStep) -> Result<(), Memory>
        ensures ok { OnOk result (self.new ≡ self.old ++ step ∷ []) }
        ensures err { OnErr result (self.new ≡ self.old) }
    {
        self.steps.push(step)?;
        Ok(())
    }

    /// How many steps there are.
    pub fn len(&self) -> usize
        ensures { result ≡ length self.now }
    {
        self.steps.len()
    }

    /// The step at a place, from 0.
    pub fn get(&self, place: usize) -> &LongStep
        requires { place < length self.now }
        ensures { result.now ≡ slice_index_or self.now place result.now }
    {
        &self.steps[place]
    }
}
