//! A step, made at once.
ghost use Rattle.std.specs.Prelude.{◌≡◌};
ghost use Rattle.flt_dcm.specs.Whole.{config_of, unit_seen};
ghost use Rattle.flt_step.specs.declared.step.Step.{Step};
ghost use Rattle.flt_life_model.specs.Actions.{IsPossible, action_of};
ghost use Rattle.flt_life_model.specs.Answers.{told_with};
ghost use Rattle.flt_lives.specs.Living.{IsUnderWay};
ghost use Rattle.flt_live.specs.Answered.{IsUp};
ghost use Rattle.flt_live.specs.Made.{IsNoArm, MakesStep};

use flt_config::ValidConfig;
use flt_dcm::{ReplyKind, Unit};
use flt_flash::Blocks;
use flt_life_model::{Action, Answer, StepAnswer};
use flt_lives::{Buffers, NoJournal, drain, get, make_step};
use flt_queue::JobQueue;
use flt_store::Store;

/// Makes a step that arms nothing, and answers it. If the answer is a response, its bytes are among the buffers.
#[inline(always)]
pub(crate) fn make<D: Blocks + Drop>(
    unit: &mut Unit,
    queue: &mut JobQueue,
    store: &mut Store<D>,
    config: &ValidConfig,
    buffers: &mut Buffers,
    action: Action,
) -> StepAnswer<ReplyKind>
    requires same { config_of unit.old ≡ config.now }
    requires up { IsUp config.now (unit_seen unit.old) queue.old store.old }
    requires possible { IsPossible config.now action }
    requires no_arm { IsNoArm action }
    ensures config { config_of unit.new ≡ config_of unit.old }
    ensures up { IsUp config.now (unit_seen unit.new) queue.new store.new }
    ensures made { (step : Step) → action_of step ≡ action → MakesStep config.now step (told_with buffers.new.response.items result)
        (unit_seen unit.old) (unit_seen unit.new) queue.old queue.new store.old store.new }
{
    match action {
        Action::Queue(op) => {
            let reply = queue.apply(&op);
            StepAnswer::Queue(Answer { place: 0, reply })
        }
        Action::Drain => {
            let (written, failed) = drain(queue, store, config);
            StepAnswer::Drained { written, failed }
        }
        Action::Get(block) => get(store, config, block),
        Action::Arm(_) => unreachable!(),
        plain => make_step(unit, store, config, buffers, plain, 0, &mut NoJournal),
    }
}
