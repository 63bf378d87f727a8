ghost use Rattle.std.specs.Prelude.{◌≡◌, map};
ghost use Rattle.std.specs.List.{list_any};
ghost use Rattle.flt_script.specs.Behind.{has_earlier_store};
ghost use Rattle.flt_step.specs.Step.{has_store_step};

use crate::fault::LineFault;
use crate::lane::add_lane_step;
use flt_step::Step;
use std::alloc::{AllocError, Global};

/// The block under way.
#[derive(Drop)]
pub(crate) struct OpenBlock {
    pub(crate) lanes: Vec<Vec<Step>>,
    /// Whether a lane has a `save`, `drain` or `get`.
    used: bool,
    /// Whether a lane before the last has one.
    used_earlier: bool,
    ghost told: { used ≡ list_any has_store_step (map (λ lane. lane.items) lanes.items) },
    ghost told_earlier: { used_earlier ≡ has_earlier_store (map (λ lane. lane.items) lanes.items) },
}

impl OpenBlock {
    ghost use Rattle.std.specs.Prelude.{[], ◌∷◌, ◌++◌, OnOk};
    ghost use Rattle.flt_script.specs.Gives.{IsAsDefined};
    ghost use Rattle.flt_script.specs.Next.{line_cause_of, with_lane_step};

    /// No lane.
    pub(crate) fn new(alloc: Global) -> OpenBlock
        ensures { result.lanes.items ≡ [] }
    {
        OpenBlock {
            lanes: Vec::new(alloc),
            used: false,
            used_earlier: false,
        }
    }

    /// Adds a step to the last lane.
    pub(crate) fn add_step(&mut self, step: Step) -> Result<(), LineFault>
        ensures { IsAsDefined (λ _. map (λ lane. lane.items) self.new.lanes.items) line_cause_of result
            (with_lane_step step (map (λ lane. lane.items) self.old.lanes.items)) }
    {
        let is_store_step = step.is_store_step();
        add_lane_step(&mut self.lanes, self.used_earlier, step)?;
        self.used |= is_store_step;
        Ok(())
    }

    /// Adds a lane without steps.
    pub(crate) fn add_lane(&mut self, alloc: Global) -> Result<(), AllocError>
        ensures { OnOk result (map (λ lane. lane.items) self.new.lanes.items ≡ map (λ lane. lane.items) self.old.lanes.items ++ [] ∷ []) }
    {
        self.lanes.push(Vec::new(alloc))?;
        self.used_earlier = self.used;
        Ok(())
    }
}
