//! An EEPROM that a file keeps.
ghost use Rattle.std.specs.Prelude.{◌≡◌, ◌*◌, ◌<◌, length, IfOk, IfSome, OnOk, OnErr, IsTrue};
ghost use Rattle.flt_flash.specs.State.{Operates};
ghost use Rattle.flt_flash.specs.Tearing.{IsTorn};
ghost use Rattle.flt_ea.specs.State.{with_unit};
ghost use Rattle.flt_file.specs.Layout.{units_in};
ghost use Rattle.flt_file.specs.KeptOf.{kept_of};

use crate::kept::Kept;
use crate::{ByteStore, LoadFault};
use flt_ea::Eeprom;
use flt_flash::{Arm, FlashFailed};
use std::alloc::Global;

/// An EEPROM of units of 32 bytes, in the bytes of a store: unit after unit. Nothing else is in them.
///
/// It has one life: it is off until its one power-up. When its store fails, the write answers `FlashFailed` and the device goes off for
/// good; what the store then keeps of the unit is between what was and what was asked. To go on, open it again. An arm has no effect, and
/// is not known.
#[derive(Drop)]
pub struct EepromFile<B: ByteStore> {
    kept: Kept<B>,
    units: u16,
    ghost most: { units < 65536 },
    ghost size: { length (kept_of B.told kept).bytes ≡ 32 * units },
}

impl<B: ByteStore + Drop> EepromFile<B> {
    ghost use Rattle.flt_file.specs.EepromFile.{eeprom_file_state, unit_bytes, first_eeprom};

    /// The EEPROM of this many units that the bytes of this store are. It is off, and its power may come once.
    ///
    /// # Errors
    ///
    /// `Memory` if memory ran out; `Store` if the store could not be read. The store is as it was, and is let go.
    pub fn load(alloc: Global, store: B, units: u16) -> Result<EepromFile<B>, LoadFault>
        requires { IfSome (B.told store) (λ held. length held ≡ 32 * units) }
        ensures first { IfOk result (λ device. eeprom_file_state B.told device ≡ first_eeprom units (unit_bytes B.told device)) }
        ensures bytes { IfOk result (λ device. IfSome (B.told store) (λ held. unit_bytes B.told device ≡ held)) }
    {
        let kept = Kept::load(alloc, store, 32 * units as usize)?;
        Ok(EepromFile { kept, units })
    }

    /// The store, as the operations left it.
    pub fn into_store(self) -> B
        ensures { IfSome (B.told result) (λ held. (eeprom_file_state B.told self).image ≡ units_in (eeprom_file_state B.told self).pages held) }
    {
        self.kept.into_store()
    }
}

impl<B: ByteStore + Drop> Eeprom for EepromFile<B> {
    ghost use Rattle.flt_file.specs.EepromFile.{eeprom_file_state};
    ghost use Rattle.flt_file.specs.Shape.{eeprom_shape};

    ghost state = { eeprom_file_state B.told };

    ghost shape = { λ device. eeprom_shape device };

    fn units(&self) -> u16 {
        self.units
    }

    #[tactic(auto, using(crate::proofs::Operating::carried_operates))]
    fn read_unit(&mut self, unit: u16, out: &mut [u8; 32]) -> Result<(), FlashFailed> {
        self.kept.read(unit as usize, out)
    }

    #[tactic(auto, using(crate::proofs::Operating::carried_operates))]
    fn write_unit(&mut self, unit: u16, bytes: &[u8; 32]) -> Result<(), FlashFailed>
        requires { unit < (eeprom_file_state B.told self.old).pages }
        ensures written { OnOk result ((eeprom_file_state B.told self.new).image ≡ with_unit (eeprom_file_state B.told self.old).image unit bytes.now) }
        ensures torn { OnErr result (IsTorn (eeprom_file_state B.told self.old).image (with_unit (eeprom_file_state B.told self.old).image unit bytes.now)
            (eeprom_file_state B.told self.new).image) }
        ensures operation { Operates (eeprom_file_state B.told self.old) (eeprom_file_state B.told self.new) result }

        // It is off after a failure.
        ensures off { OnErr result (IsTrue (eeprom_file_state B.told self.new).is_off) }
    {
        self.kept.write(unit as usize, bytes)
    }

    fn operations(&self) -> u64 {
        self.kept.operations()
    }

    fn boots_left(&self) -> u16 {
        self.kept.boots_left()
    }

    fn armed(&self) -> u8 {
        0
    }

    fn arm(&mut self, _arm: Arm) {}

    #[tactic(auto, using(crate::proofs::Operating::powered_up))]
    fn power_up(&mut self) {
        self.kept.power_up();
    }
}
