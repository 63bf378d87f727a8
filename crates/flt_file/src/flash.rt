//! A flash of two sectors that a file keeps.
ghost use Rattle.std.specs.Prelude.{◌≡◌, ◌+◌, ◌*◌, ◌^◌, ◌<◌, ◌≤◌, ℕ, [], ◌∷◌, length, replicate, IfOk, IfSome, OnOk, OnErr, IsTrue, slice_index, slice_set};
ghost use Rattle.flt_flash.specs.Image.{page_at, programmed, erased, blank_page};
ghost use Rattle.flt_flash.specs.Tearing.{IsTorn};
ghost use Rattle.flt_flash.specs.State.{Operates, counted_up};
ghost use Rattle.flt_file.specs.Layout.{image_in};
ghost use Rattle.flt_file.specs.KeptOf.{kept_of};

use crate::kept::Kept;
use crate::{ByteStore, LoadFault};
use flt_flash::{Arm, Bench, Flash, FlashFailed};
use std::alloc::Global;

/// A flash of two sectors of pages of 32 bytes, in the bytes of a store: page after page, sector 1 after sector 0. Nothing else is in
/// them.
///
/// It has one life: it is off until its one power-up. When its store fails, the program or erase answers `FlashFailed` and the flash goes
/// off for good; what the store then keeps of the page or the sector is between what was and what was asked. To go on, open it again. An
/// arm has no effect, and is not known.
#[derive(Drop)]
pub struct FlashFile<B: ByteStore> {
    kept: Kept<B>,
    pages: u16,
    blank: Vec<u8>,
    first_wear: u64,
    second_wear: u64,
    ghost most: { pages < 65536 },
    ghost size: { length (kept_of B.told kept).bytes ≡ 64 * pages },
    ghost all_blank: { blank.items ≡ replicate (32 * pages) 255 },
    ghost most_first_wear: { first_wear < 2 ^ 64 },
    ghost most_second_wear: { second_wear < 2 ^ 64 },
}

impl<B: ByteStore + Drop> FlashFile<B> {
    ghost use Rattle.flt_file.specs.FlashFile.{flash_file_state, sector_bytes, first_flash};

    /// The flash of two sectors of this many pages, 2 to 1,024, that the bytes of this store are. It is off, and its power may come once.
    ///
    /// # Errors
    ///
    /// `Memory` if memory ran out; `Store` if the store could not be read. The store is as it was, and is let go.
    pub fn load(alloc: Global, store: B, pages: u16) -> Result<FlashFile<B>, LoadFault>
        requires least { 2 ≤ pages }
        requires most { pages ≤ 1024 }
        requires size { IfSome (B.told store) (λ held. length held ≡ 64 * pages) }
        ensures first { IfOk result (λ flash. flash_file_state B.told flash ≡ first_flash pages (sector_bytes B.told flash)) }
        ensures bytes { IfOk result (λ flash. IfSome (B.told store) (λ held. sector_bytes B.told flash ≡ held)) }
    {
        let blank = Vec::from_elem(alloc, 255u8, 32 * pages as usize)?;
        let kept = Kept::load(alloc, store, 64 * pages as usize)?;
        Ok(FlashFile {
            kept,
            pages,
            blank,
            first_wear: 0,
            second_wear: 0,
        })
    }

    /// The store, as the operations left it.
    pub fn into_store(self) -> B
        ensures { IfSome (B.told result) (λ held. (flash_file_state B.told self).image ≡ image_in (flash_file_state B.told self).pages held) }
    {
        self.kept.into_store()
    }
}

impl<B: ByteStore + Drop> Flash for FlashFile<B> {
    ghost use Rattle.flt_file.specs.FlashFile.{flash_file_state};
    ghost use Rattle.flt_file.specs.Shape.{flash_shape};

    ghost state = { flash_file_state B.told };

    ghost shape = { λ flash. flash_shape flash };

    fn pages(&self) -> u16 {
        self.pages
    }

    #[tactic(auto, using(crate::proofs::Operating::carried_operates))]
    fn read_page(&mut self, sector: u8, page: u16, out: &mut [u8; 32]) -> Result<(), FlashFailed> {
        let number = sector as usize * self.pages as usize + page as usize;
        self.kept.read(number, out)
    }

    #[tactic(auto, using(crate::proofs::Operating::carried_operates))]
    fn program(&mut self, sector: u8, page: u16, bytes: &[u8; 32]) -> Result<(), FlashFailed>
        requires sector { sector < 2 }
        requires page { page < (flash_file_state B.told self.old).pages }
        requires blank { page_at (flash_file_state B.told self.old).image sector page ≡ blank_page }
        ensures programmed { OnOk result ((flash_file_state B.told self.new).image ≡ programmed (flash_file_state B.told self.old).image sector page bytes.now) }
        ensures torn { OnErr result (IsTorn (flash_file_state B.told self.old).image (programmed (flash_file_state B.told self.old).image sector page bytes.now)
            (flash_file_state B.told self.new).image) }
        ensures wear { (flash_file_state B.told self.new).wear ≡ (flash_file_state B.told self.old).wear }
        ensures operation { Operates (flash_file_state B.told self.old) (flash_file_state B.told self.new) result }

        // It is off after a failure.
        ensures off { OnErr result (IsTrue (flash_file_state B.told self.new).is_off) }
    {
        let number = sector as usize * self.pages as usize + page as usize;
        self.kept.write(number, bytes)
    }

    #[tactic(auto, using(crate::proofs::Operating::carried_operates))]
    fn erase(&mut self, sector: u8) -> Result<(), FlashFailed>
        requires { sector < 2 }
        ensures erased { OnOk result ((flash_file_state B.told self.new).image ≡ erased (flash_file_state B.told self.old).image sector) }
        ensures torn { OnErr result (IsTorn (flash_file_state B.told self.old).image (erased (flash_file_state B.told self.old).image sector)
            (flash_file_state B.told self.new).image) }
        ensures wear { (flash_file_state B.told self.new).wear ≡ slice_set (flash_file_state B.told self.old).wear sector
            (counted_up (slice_index (flash_file_state B.told self.old).wear sector)) }
        ensures operation { Operates (flash_file_state B.told self.old) (flash_file_state B.told self.new) result }

        // It is off after a failure.
        ensures off { OnErr result (IsTrue (flash_file_state B.told self.new).is_off) }
    {
        count_erase(sector, &mut self.first_wear, &mut self.second_wear);
        let first = sector as usize * self.pages as usize;
        self.kept.write(first, &self.blank)
    }

    fn operations(&self) -> u64 {
        self.kept.operations()
    }

    fn wear(&self, sector: u8) -> u64 {
        if sector == 0 {
            self.first_wear
        } else {
            self.second_wear
        }
    }
}

impl<B: ByteStore + Drop> Bench for FlashFile<B> {
    fn boots_left(&self) -> u16 {
        self.kept.boots_left()
    }

    fn armed(&self) -> u8 {
        0
    }

    fn arm(&mut self, _arm: Arm) {}

    #[tactic(auto, using(crate::proofs::Operating::powered_up))]
    fn power_up(&mut self) {
        self.kept.power_up();
    }
}

/// Counts an erase of one of two sectors.
fn count_erase(sector: u8, first: &mut u64, second: &mut u64)
    requires { sector < 2 }
    ensures { first.new ∷ second.new ∷ [] ≡ slice_set (first.old ∷ second.old ∷ []) sector
        (counted_up (slice_index (first.old ∷ second.old ∷ []) sector)) }
{
    if sector == 0 {
        *first = first.saturating_add(1);
    } else {
        *second = second.saturating_add(1);
    }
}
