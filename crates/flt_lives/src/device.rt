//! Lives over a device.
ghost use Rattle.std.specs.Prelude.{◌≡◌, All};
ghost use Rattle.flt_dcm.specs.Whole.{config_of};
ghost use Rattle.flt_step.specs.Part.{parts_of};
ghost use Rattle.flt_flash.specs.Blocks.{device_of};
ghost use Rattle.flt_life_model.specs.Lives.{lists};
ghost use Rattle.flt_lives.specs.Alone.{AreAlone};
ghost use Rattle.flt_lives.specs.Devices.{CanLiveOn, LivesOn};

use crate::driver::Driver;
use crate::engine::Engine;
use crate::lives::run_lives;
use crate::plain::Plain;
use flt_config::ValidConfig;
use flt_dcm::Unit;
use flt_image::{block_table, fee_numbers, laws};
use flt_life_model::Life;
use flt_nvm::Nvm;
use flt_step::Part;
use flt_store::Store;
use std::alloc::Global;

/// The lives of a run, or none if memory ran out, and the device as they left it.
#[derive(Drop)]
pub struct Run<D> {
    /// The lives in the order in which they were lived; the last alone may be refused.
    pub lives: Option<Vec<Life>>,
    /// The device after the last of them.
    pub device: D,
}

/// Lives one after the other over a device, up to the first that is refused, whose steps the engine makes. The device has room for the
/// blocks of an image, and for a boot of each life; the lives have at most 65,536 steps in all, and whether their parts are possible is
/// checked by `are_possible` of flt_life_model.
pub fn run_on_device<D: Driver, E: Engine<D> + Drop>(
    alloc: Global,
    engine: E,
    device: D::Device,
    config: &ValidConfig,
    lives: &[Vec<Part>],
) -> Run<D::Device>
    requires same { E.machine_config engine ≡ config.now }
    requires can { All (λ life. E.can_make (parts_of life.items)) lives.now }
    requires serves { D.serves config.now (D.device_state device) }
    requires ready { CanLiveOn config.now (device_of (D.device_state device)) lives.now }
    ensures { LivesOn (D.medium config.now) config.now (device_of (D.device_state device)) (device_of (D.device_state result.device))
        (lists lives.now) result.lives }
{
    let Ok(numbers) = fee_numbers(alloc) else {
        return Run {
            lives: None,
            device,
        };
    };
    let Ok(table) = block_table(alloc) else {
        return Run {
            lives: None,
            device,
        };
    };
    laws::numbers_are_distinct();
    match D::open(alloc, device, config, numbers) {
        Err(refused) => Run {
            lives: None,
            device: refused.device,
        },
        Ok(driver) => {
            laws::numbers_serve_table();
            let mut store = Store::make(Nvm::make(driver, table));
            let lives = run_lives(alloc, engine, &mut store, config, lives).ok();
            Run {
                lives,
                device: store.retire().close(),
            }
        }
    }
}

/// The same lives on a machine without a lock; none has a block of lanes or a write job.
pub fn run_alone<D: Driver>(
    alloc: Global,
    unit: Unit,
    device: D::Device,
    config: &ValidConfig,
    lives: &[Vec<Part>],
) -> Run<D::Device>
    requires same { config_of unit ≡ config.now }
    requires alone { All (λ life. AreAlone (parts_of life.items)) lives.now }
    requires serves { D.serves config.now (D.device_state device) }
    requires ready { CanLiveOn config.now (device_of (D.device_state device)) lives.now }
    ensures { LivesOn (D.medium config.now) config.now (device_of (D.device_state device)) (device_of (D.device_state result.device))
        (lists lives.now) result.lives }
{
    run_on_device::<D, Plain>(alloc, Plain { unit }, device, config, lives)
}
