//! Drivers over the kinds of device that lives are made over.
ghost use Rattle.std.specs.Prelude.{◌≡◌, ◌≢◌, ◌≤◌, IfErr, IfOk};
ghost use Rattle.std.specs.List.{AllPairs};
ghost use Rattle.flt_config.specs.declared.config.Config.{Config};
ghost use Rattle.flt_flash.specs.State.{FlashState};
ghost use Rattle.flt_store_model.specs.Layout.{numbers};
ghost use Rattle.flt_store.specs.Cause.{HasRoom};
ghost use Rattle.flt_flash.specs.Blocks.{device_of};
ghost use Rattle.flt_life_model.specs.Moment.{Medium};
ghost use Rattle.flt_lives.specs.Linked.{KeepsOn};

use flt_config::ValidConfig;
use flt_ea::{Ea, Eeprom};
use flt_fee::Fee;
use flt_flash::{Bench, Blocks, Refused};
use std::alloc::Global;

/// A driver of blocks that is opened over a device of its kind, and gives it back.
pub trait Driver: Blocks + Drop + Sized {
    /// The device beneath.
    type Device: Drop;

    /// What a device holds and has counted.
    ghost device_state: { Self.Device → FlashState };

    /// Where a device keeps the blocks of an image, under a configuration.
    ghost medium: { Config → Medium };

    /// Such a device has room for the blocks of an image under the configuration.
    ghost serves: { Config → FlashState → Type 0 };

    /// A driver for the numbers of an image. The error means that memory ran out, and hands the device back.
    fn open(
        alloc: Global,
        device: Self::Device,
        config: &ValidConfig,
        given: Vec<u16>,
    ) -> Result<Self, Refused<Self::Device>>
        requires serves { serves config.now (device_state device) }
        requires numbers { given.items ≡ numbers }
        requires distinct { AllPairs (λ a b. a ≢ b) given.items }
        ensures device { IfOk result (λ driver. (Self.state driver).device ≡ device_of (device_state device)) }
        ensures numbers { IfOk result (λ driver. (Self.state driver).numbers ≡ numbers) }
        ensures room { IfOk result (λ driver. HasRoom config.now (Self.state driver).room) }
        ensures refused { IfErr result (λ refused. refused.device ≡ device) };

    /// The device, as the driver left it.
    fn close(self) -> Self::Device
        ensures { device_of (device_state result) ≡ (Self.state self).device };

    /// What a driver says of its blocks is what the image of its device says.
    ghost keeps: { (c : Config) → KeepsOn Self.Blocks c (medium c) };
}

impl<B: Bench + Drop> Driver for Fee<B> {
    ghost use Rattle.flt_lives.specs.Media.{sectors, is_on_sectors};

    type Device = B;

    ghost device_state = { B.state };

    ghost medium = { sectors };

    ghost serves = { λ c flash. c.pages ≤ flash.pages };

    fn open(
        alloc: Global,
        device: B,
        config: &ValidConfig,
        given: Vec<u16>,
    ) -> Result<Fee<B>, Refused<B>> {
        Fee::make(alloc, device, config.config().pages, given)
    }

    fn close(self) -> B {
        self.retire()
    }

    ghost keeps = { λ c driver given room. is_on_sectors c driver.at.used driver.numbers driver.is_stale driver.has_mounted driver.tally.calls driver.tally.last_failed
        (B.state driver.flash) driver.least given room };
}

impl<E: Eeprom + Drop> Driver for Ea<E> {
    ghost use Rattle.flt_lives.specs.Media.{units, is_on_units};

    type Device = E;

    ghost device_state = { E.state };

    ghost medium = { units };

    // Ten units for each number of an image.
    ghost serves = { λ c device. 1090 ≤ device.pages };

    fn open(
        alloc: Global,
        device: E,
        _config: &ValidConfig,
        given: Vec<u16>,
    ) -> Result<Ea<E>, Refused<E>> {
        Ea::make(alloc, device, given)
    }

    fn close(self) -> E {
        self.retire()
    }

    ghost keeps = { λ c driver given room. is_on_units c driver.numbers driver.is_stale driver.has_mounted driver.tally.calls driver.tally.last_failed (E.state driver.device) given };
}
