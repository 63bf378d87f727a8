ghost use Rattle.std.specs.Prelude.{◌≡◌, ◌&&◌, ◌||◌, OnErr, map, not};
ghost use Rattle.flt_script.specs.Behind.{has_earlier_store};
ghost use Rattle.flt_script.specs.Gives.{IsAsDefined};
ghost use Rattle.flt_script.specs.Next.{line_cause_of, with_lane_step};
ghost use Rattle.flt_step.specs.Step.{is_lane_step, is_store_step};

use crate::fault::{LineCause, LineFault};
use flt_step::Step;

/// Adds a step to the last lane of a block, with whether a lane before it has a `save`, `drain` or `get`.
pub(crate) fn add_lane_step(
    lanes: &mut Vec<Vec<Step>>,
    used_earlier: bool,
    step: Step,
) -> Result<(), LineFault>
    requires { used_earlier ≡ has_earlier_store (map (λ lane. lane.items) lanes.old.items) }
    ensures added { IsAsDefined (λ _. map (λ lane. lane.items) lanes.new.items) line_cause_of result (with_lane_step step (map (λ lane. lane.items) lanes.old.items)) }
    ensures kept { OnErr result (map (λ lane. lane.items) lanes.new.items ≡ map (λ lane. lane.items) lanes.old.items) }
{
    let Some(lane) = lanes.last_mut() else {
        return Err(LineFault::Cause(LineCause::Block));
    };
    if !may_stand(&step, used_earlier) {
        return Err(LineFault::Cause(LineCause::Block));
    }
    lane.push(step)?;
    Ok(())
}

/// Whether a step is allowed in the last lane.
fn may_stand(step: &Step, used_earlier: bool) -> bool
    ensures { result ≡ not (not (is_lane_step step.now) || is_store_step step.now && used_earlier) }
{
    step.is_lane_step() && !(step.is_store_step() && used_earlier)
}
