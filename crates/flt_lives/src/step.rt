//! The steps of a life.
ghost use Rattle.std.specs.Prelude.{◌≡◌, ◌≤◌, ◌∷◌, [], ℕ, List, length};
ghost use Rattle.flt_config.specs.Durable.{Fits};
ghost use Rattle.flt_model.specs.Start.{Start, History};
ghost use Rattle.flt_model.specs.Answer.{answer};
ghost use Rattle.flt_model.specs.Durable.{saved_after};
ghost use Rattle.flt_model.specs.declared.call.Op.TheVariants as ops;
ghost use Rattle.flt_flash.specs.Calls.{Follows};
ghost use Rattle.flt_store_model.specs.Holding.{SameApplications};
ghost use Rattle.flt_dcm.specs.ReplyKind.{reply_with};
ghost use Rattle.flt_dcm.specs.Unit.{Stands, Takes, IsAdmitted, IsTesterCall};
ghost use Rattle.flt_dcm.specs.Whole.{config_of, unit_seen};
ghost use Rattle.flt_store.specs.Store.{driver_of};
ghost use Rattle.flt_life_model.specs.declared.action.Action.TheVariants as actions;
ghost use Rattle.flt_life_model.specs.Actions.{call_count, response_size};
ghost use Rattle.flt_life_model.specs.Answers.{told_with, response_length, reply_size};
ghost use Rattle.flt_lives.specs.Carried.{IsAtPlace, with_calls, with_save};
ghost use Rattle.flt_lives.specs.Living.{IsUnderWay};
ghost use Rattle.flt_lives.specs.Steps.{AreOnTheirWay, IsPlainAction, MakesPlainStep, StepLeaves};

use crate::buffers::Buffers;
use crate::calls::CallJournal;
use flt_config::{Persist, ValidConfig};
use flt_dcm::{ReplyKind, Unit};
use flt_flash::Blocks;
use flt_life_model::{Action, Answer, StepAnswer};
use flt_model::{Op, RESPONSE};
use flt_store::Store;

/// Makes a call of the machine that is neither a snapshot nor a save.
fn call(unit: &mut Unit, op: &Op, buffers: &mut Buffers) -> ReplyKind
    requires under_way { IsUnderWay (config_of unit.old) (unit_seen unit.old) }
    requires admitted { IsAdmitted (config_of unit.old) op.now }
    ensures config { config_of unit.new ≡ config_of unit.old }
    ensures under_way { IsUnderWay (config_of unit.old) (unit_seen unit.new) }
    ensures stands { (life : Start) (past : History) → Stands life past (unit_seen unit.old) → Stands life (op.now ∷ past) (unit_seen unit.new) }
    ensures answer { (life : Start) (past : History) → Stands life past (unit_seen unit.old)
        → reply_with result buffers.new.response.items ≡ answer life past op.now }
    ensures no_response { ¬ IsTesterCall op.now → reply_size (reply_with result buffers.new.response.items) ≡ 0 }
{
    unit.apply_into(op, &mut buffers.response)
}

/// Takes the durable state, in place of the one that `state` holds.
fn take_snapshot(unit: &Unit, state: &mut Persist)
    requires under_way { IsUnderWay (config_of unit.now) (unit_seen unit.now) }
    ensures stands { Takes ops.Snapshot (unit_seen unit.now) (unit_seen unit.now) }
    ensures taken { (life : Start) (past : History) → Stands life past (unit_seen unit.now) → state.new ≡ saved_after life past }
    ensures fits { Fits (config_of unit.now) state.new }
{
    unit.persist(state);
}

/// Saves the durable state, and answers it: the machine takes a snapshot, and then the number if the save was answered with one.
fn save<D: Blocks + Drop, J: CallJournal>(
    unit: &mut Unit,
    store: &mut Store<D>,
    config: &ValidConfig,
    buffers: &mut Buffers,
    journal: &mut J,
) -> StepAnswer<ReplyKind>
    requires room { 2 ≤ J.left journal.old }
    requires ready { AreOnTheirWay config.now unit.old store.old }
    ensures ready { AreOnTheirWay config.now unit.new store.new }
    ensures made { (response : List ℕ) → MakesPlainStep config.now actions.Save (unit_seen unit.old) (unit_seen unit.new) store.old store.new (told_with response result) }
    ensures written { (response : List ℕ) → J.takes (with_save (told_with response result) []) journal.old journal.new }
    ensures size { (response : List ℕ) → response_length result response ≡ 0 }
    ensures placed { (place : ℕ) (response : List ℕ) → IsAtPlace place (told_with response result) }
    ensures applications { SameApplications (driver_of store.old).value (driver_of store.new).value }
    ensures keeps_driver { Follows (driver_of store.old) (driver_of store.new) }
{
    take_snapshot(unit, &mut buffers.state);
    journal.write(Op::Snapshot);
    match store.save(config, &buffers.state) {
        Ok(generation) => {
            let op = Op::Saved { generation };
            call(unit, &op, buffers);
            journal.write(op);
            StepAnswer::Saved(generation)
        }
        Err(fault) => StepAnswer::SaveFailed(fault),
    }
}

/// Makes a step that leaves the queue and the application blocks alone, writes its calls to a journal, and answers it; an answer of the
/// machine has this place. If the answer is a response, its bytes are among the buffers.
#[inline(always)]
pub fn make_step<D: Blocks + Drop, J: CallJournal>(
    unit: &mut Unit,
    store: &mut Store<D>,
    config: &ValidConfig,
    buffers: &mut Buffers,
    action: Action,
    place: u32,
    journal: &mut J,
) -> StepAnswer<ReplyKind>
    requires room { call_count action ≤ J.left journal.old }
    requires ready { AreOnTheirWay config.now unit.old store.old }
    requires step { IsPlainAction config.now action (driver_of store.old).device }
    ensures ready { AreOnTheirWay config.now unit.new store.new }
    ensures made { MakesPlainStep config.now action (unit_seen unit.old) (unit_seen unit.new) store.old store.new (told_with buffers.new.response.items result) }
    ensures written { J.takes (with_calls action (told_with buffers.new.response.items result) []) journal.old journal.new }
    ensures placed { IsAtPlace place (told_with buffers.new.response.items result) }
    ensures size { length buffers.new.response.items ≤ RESPONSE → response_length result buffers.new.response.items ≤ response_size action }
    ensures leaves { StepLeaves action (driver_of store.old) (driver_of store.new) }
{
    match action {
        Action::Call(op) => {
            let reply = call(unit, &op, buffers);
            journal.write(op);
            StepAnswer::Dem(Answer { place, reply })
        }
        Action::Save => save(unit, store, config, buffers, journal),
        Action::Arm(arm) => {
            store.arm(arm);
            StepAnswer::Armed
        }
        Action::Queue(_) | Action::Drain | Action::Get(_) => unreachable!(),
    }
}
