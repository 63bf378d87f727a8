//! The steps of lane 0, on a machine without a lock.
ghost use Rattle.std.specs.Prelude.{◌≡◌, ◌+◌, ◌≤◌, ◌∷◌, [], All, List, sum_by};
ghost use Rattle.flt_store_model.specs.Holding.{SameApplications};
ghost use Rattle.flt_dcm.specs.Whole.{config_of};
ghost use Rattle.flt_step.specs.Part.{parts_of};
ghost use Rattle.flt_store.specs.Store.{driver_of};
ghost use Rattle.flt_life_model.specs.Actions.{action_of, IsPossible, arm_count, arms_of, all_arms};
ghost use Rattle.flt_life_model.specs.declared.action.Action.{Action};
ghost use Rattle.flt_lives.specs.Alone.{AreAlone, actions_in};
ghost use Rattle.flt_lives.specs.Living.{HasRoomFor};
ghost use Rattle.flt_lives.specs.Steps.{AreOnTheirWay, GivesArms, HasTakenSteps, IsNewAccount, IsPlainStep, TakesStep};

use crate::account::Account;
use crate::buffers::Buffers;
use crate::engine::{Engine, Lived};
use crate::step::make_step;
use flt_config::ValidConfig;
use flt_dcm::Unit;
use flt_flash::Blocks;
use flt_life_model::{Boot, CallRoom, LifeRoom, action_of, life_of};
use flt_step::{Part, Step};
use flt_store::Store;
use std::alloc::{AllocError, Global};

/// Makes a step, and writes its calls and its answer after those of the steps before it.
fn take_step<D: Blocks + Drop>(
    unit: &mut Unit,
    store: &mut Store<D>,
    config: &ValidConfig,
    buffers: &mut Buffers,
    step: &Step,
    account: &mut Account,
)
    requires ready { AreOnTheirWay config.now unit.old store.old }
    requires step { IsPlainStep config.now (action_of step.now) (driver_of store.old).device }
    requires room { HasRoomFor account.old (action_of step.now ∷ []) }
    ensures ready { AreOnTheirWay config.now unit.new store.new }
    ensures takes { TakesStep config.now (action_of step.now) unit.old unit.new store.old store.new account.old account.new }
    ensures room { (rest : List Action) → HasRoomFor account.old (action_of step.now ∷ rest) → HasRoomFor account.new rest }
    ensures applications { SameApplications (driver_of store.old).value (driver_of store.new).value }
    ensures gives { GivesArms (arms_of (action_of step.now)) (arm_count (action_of step.now)) (driver_of store.old) (driver_of store.new) }
{
    let action = action_of(step);
    let place = account.journal.len() as u32;
    let answer = make_step(
        unit,
        store,
        config,
        buffers,
        action,
        place,
        &mut account.journal,
    );
    account.replies.keep(answer, buffers.response.as_slice());
}

/// Makes steps one after the other.
fn take_steps<D: Blocks + Drop>(
    unit: &mut Unit,
    store: &mut Store<D>,
    config: &ValidConfig,
    buffers: &mut Buffers,
    parts: &[Part],
    account: &mut Account,
)
    requires ready { AreOnTheirWay config.now unit.old store.old }
    requires alone { AreAlone (parts_of parts.now) }
    requires possible { All (IsPossible config.now) (actions_in parts.now) }
    requires arms { (driver_of store.old).device.bench.armed + sum_by arm_count (actions_in parts.now) ≤ 64 }
    requires room { HasRoomFor account.old (actions_in parts.now) }
    requires fresh { IsNewAccount account.old }
    ensures ready { AreOnTheirWay config.now unit.new store.new }
    ensures taken { HasTakenSteps config.now (parts_of parts.now) unit.old unit.new store.old store.new account.new }
    ensures applications { SameApplications (driver_of store.old).value (driver_of store.new).value }
    ensures gives { GivesArms (all_arms (actions_in parts.now)) (sum_by arm_count (actions_in parts.now)) (driver_of store.old) (driver_of store.new) }
{
    for part in parts {
        let Part::One(step) = part else {
            unreachable!()
        };
        take_step(unit, store, config, buffers, step, account);
    }
}

/// Makes the steps of lane 0, in lives without blocks of lanes and without write jobs, on a machine without a lock and without a
/// queue.
#[derive(Drop)]
pub struct Plain {
    /// The status machine, whatever calls it had in the lives before.
    pub unit: Unit,
}

impl<D: Blocks + Drop> Engine<D> for Plain {
    ghost machine_config = { λ plain. config_of plain.unit };

    ghost can_make = { AreAlone };

    fn live(
        self,
        alloc: Global,
        store: &mut Store<D>,
        config: &ValidConfig,
        buffers: &mut Buffers,
        generation: u32,
        parts: &[Part],
        room: LifeRoom<'_>,
    ) -> Result<Lived<Plain>, AllocError> {
        let Plain { mut unit } = self;
        let LifeRoom {
            own,
            lanes: _,
            told,
            replies,
        } = room;
        let calls = CallRoom::for_parts(parts);
        let journal = Vec::with_capacity(alloc, calls.machine as usize)?;
        let mut account = Account {
            journal,
            replies: own,
        };
        unit.boot(&buffers.state);
        let start = buffers.state.twin();
        take_steps(&mut unit, store, config, buffers, parts, &mut account);
        let Account {
            journal,
            replies: own,
        } = account;
        let boot = Boot::Started { generation, start };
        let queue = Vec::new(alloc);
        Ok(Lived {
            engine: Plain { unit },
            life: life_of(boot, journal, queue, own, told, replies),
        })
    }
}
