//! Lives, each from its power-up on, one after the other.
ghost use Rattle.std.specs.Prelude.{◌≡◌, ◌<◌, [], List, All, IfOk, length};
ghost use Rattle.flt_step.specs.declared.step.Step.{Step};
ghost use Rattle.flt_step.specs.Part.{PartOf, parts_of};
ghost use Rattle.flt_store.specs.Store.{driver_of};
ghost use Rattle.flt_store.specs.Cause.{HasRoom};
ghost use Rattle.flt_life_model.specs.declared.life.Boot.TheVariants as boots;
ghost use Rattle.flt_life_model.specs.Lives.{is_refused, view_of};
ghost use Rattle.flt_lives.specs.Devices.{CanLiveOn};
ghost use Rattle.flt_lives.specs.Lives.{AreLivedThrough, FitInLife, IsLivedThrough, LeavesSound};

use crate::buffers::Buffers;
use crate::dark::dark_life;
use crate::engine::{Engine, Lived};
use flt_config::ValidConfig;
use flt_flash::Blocks;
use flt_life_model::{Boot, Life, LifeRoom};
use flt_step::Part;
use flt_store::{StartFault, Store};
use std::alloc::{AllocError, Global};

/// A life whose start-up was refused.
fn refused(alloc: Global, fault: StartFault) -> Life
    ensures { (parts : List (PartOf Step)) → view_of parts result ≡ record {
      parts = parts;
      boot = boots.Refused fault;
      journal = [];
      queue = [];
      own = [];
      lanes = [];
    } }
{
    Life {
        boot: Boot::Refused(fault),
        journal: Vec::new(alloc),
        queue: Vec::new(alloc),
        replies: Vec::new(alloc),
    }
}

/// Lives from one power-up to the next: the power comes, the store starts up, and the engine makes the steps. Memory is taken before the
/// power comes, and by the engine before the first step.
pub fn run_life<D: Blocks + Drop, E: Engine<D> + Drop>(
    alloc: Global,
    engine: E,
    store: &mut Store<D>,
    config: &ValidConfig,
    buffers: &mut Buffers,
    parts: &[Part],
) -> Result<Lived<E>, AllocError>
    requires same { E.machine_config engine ≡ config.now }
    requires can { E.can_make (parts_of parts.now) }
    requires room { HasRoom config.now (driver_of store.old).room }
    requires boots { 0 < (driver_of store.old).device.bench.boots_left }
    requires fit { FitInLife config.now (driver_of store.old).device parts.now }
    ensures same { IfOk result (λ lived. E.machine_config lived.engine ≡ config.now) }
    ensures lived { IfOk result (λ lived. IsLivedThrough config.now (driver_of store.old) (driver_of store.new) (view_of (parts_of parts.now) lived.life)) }
    ensures stays_sound { LeavesSound config.now 1 (driver_of store.old) (driver_of store.new) }
{
    let room = LifeRoom::for_parts(alloc, parts)?;
    store.power_up();
    match store.start_up(config, &mut buffers.state) {
        Ok(generation) => engine.live(alloc, store, config, buffers, generation, parts, room),
        Err(StartFault::Flash) => {
            let life = dark_life(alloc, store, parts, room);
            Ok(Lived { engine, life })
        }
        Err(fault) => {
            let life = refused(alloc, fault);
            Ok(Lived { engine, life })
        }
    }
}

fn is_refused(life: &Life) -> bool
    ensures { result ≡ is_refused life.now.boot }
{
    match life.boot {
        Boot::Refused(_) => true,
        Boot::Started { .. } | Boot::Dark => false,
    }
}

/// Lives one after the other, up to the first that is refused, whose steps the engine makes. The error means that there was no memory
/// for the next life: the device has a boot for each life that was begun, or is as it was, and a sound image is still sound.
pub fn run_lives<D: Blocks + Drop, E: Engine<D> + Drop>(
    alloc: Global,
    engine: E,
    store: &mut Store<D>,
    config: &ValidConfig,
    lives: &[Vec<Part>],
) -> Result<Vec<Life>, AllocError>
    requires same { E.machine_config engine ≡ config.now }
    requires can { All (λ life. E.can_make (parts_of life.items)) lives.now }
    requires room { HasRoom config.now (driver_of store.old).room }
    requires ready { CanLiveOn config.now (driver_of store.old).device lives.now }
    ensures lived { IfOk result (λ lived. AreLivedThrough D.Blocks config.now (driver_of store.old) (driver_of store.new) lives.now lived.items) }
    ensures stays_sound { LeavesSound config.now (length lives.now) (driver_of store.old) (driver_of store.new) }
{
    let mut engine = engine;
    let mut buffers = Buffers::new(config);
    let mut lived = Vec::with_capacity(alloc, lives.len())?;
    for parts in lives {
        let next = run_life(alloc, engine, store, config, &mut buffers, parts)?;
        engine = next.engine;
        let life = next.life;
        let ends = is_refused(&life);
        lived.push(life)?;
        if ends {
            return Ok(lived);
        }
    }
    Ok(lived)
}
