//! Who makes the steps of a life.
ghost use Rattle.std.specs.Prelude.{◌≡◌, IfOk, OnErr, List, sum_by};
ghost use Rattle.flt_config.specs.declared.config.Config.{Config};
ghost use Rattle.flt_step.specs.declared.step.Step.{Step};
ghost use Rattle.flt_step.specs.Part.{PartOf, parts_of};
ghost use Rattle.flt_store.specs.Store.{driver_of, numbered};
ghost use Rattle.flt_life_model.specs.Lives.{view_of};
ghost use Rattle.flt_life_model.specs.Parts.{arms_in};
ghost use Rattle.flt_life_model.specs.Room.{IsLifeRoom};
ghost use Rattle.flt_lives.specs.Lives.{FitInLife, HasStarted, IsLifeFrom, StaysAlive};

use crate::buffers::Buffers;
use flt_config::ValidConfig;
use flt_flash::Blocks;
use flt_life_model::{Life, LifeRoom};
use flt_step::Part;
use flt_store::Store;
use std::alloc::{AllocError, Global};

/// A life, and the engine that made its steps.
#[derive(Drop)]
pub struct Lived<E> {
    /// The engine, ready for the next life.
    pub engine: E,
    /// The calls and the answers of the life.
    pub life: Life,
}

/// Makes the steps of a life that was started, on a machine of its own.
pub trait Engine<D: Blocks + Drop>: Sized {
    /// The configuration of its machine.
    ghost machine_config: { Self → Config };

    /// Which parts it can make.
    ghost can_make: { List (PartOf Step) → Type 0 };

    /// Makes the steps of these parts, from the state that a start-up restored under this number, over the store that it left. The
    /// answers go to the room that was taken for them. The error means that memory ran out, and comes before the first step: the store and the flash
    /// are as they were. Afterwards the buffers hold anything.
    fn live(
        self,
        alloc: Global,
        store: &mut Store<D>,
        config: &ValidConfig,
        buffers: &mut Buffers,
        generation: u32,
        parts: &[Part],
        room: LifeRoom<'_>,
    ) -> Result<Lived<Self>, AllocError>
        requires same { machine_config self ≡ config.now }
        requires can { can_make (parts_of parts.now) }
        requires started { HasStarted config.now (numbered generation buffers.old.state) store.old }
        requires fit { FitInLife config.now (driver_of store.old).device parts.now }
        requires room { IsLifeRoom (parts_of parts.now) room }
        ensures same { IfOk result (λ lived. machine_config lived.engine ≡ config.now) }
        ensures lived { IfOk result (λ lived. IsLifeFrom config.now (numbered generation buffers.old.state)
            (driver_of store.old) (driver_of store.new) (view_of (parts_of parts.now) lived.life)) }
        ensures untouched { OnErr result (driver_of store.new ≡ driver_of store.old) }
        ensures stays { StaysAlive config.now (sum_by arms_in (parts_of parts.now)) store.old store.new };
}
