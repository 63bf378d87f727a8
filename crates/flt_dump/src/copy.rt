//! A copy of an image.
ghost use Rattle.std.specs.Prelude.{◌≡◌, ◌+◌, ◌*◌, ◌/◌, ◌%◌, ◌<◌, ◌≤◌, ◌∷◌, [], IfOk, OnOk, take, drop, length};
ghost use Rattle.flt_flash.specs.Memory.{power_of};
ghost use Rattle.flt_dump.specs.Quiet.{IsPowerQuiet};

use flt_flash::{Arm, Bench, Flash, FlashFailed, FlashMem};
use std::alloc::{AllocError, Global};

/// A flash with an image, on which every operation succeeds: it is on, and no arm is made on it.
#[derive(Drop)]
pub(crate) struct ImageCopy {
    flash: FlashMem,
    ghost quiet: { IsPowerQuiet (power_of flash) },
}

impl ImageCopy {
    ghost use Rattle.flt_dump.specs.Copy.{copy_state};

    /// A flash with this image of 4 to 2,048 pages, an even number, sector 0's pages first. The error means that memory ran out.
    pub(crate) fn of(alloc: Global, image: Vec<[u8; 32]>) -> Result<ImageCopy, AllocError>
        requires even { length image.items % 2 ≡ 0 }
        requires least { 4 ≤ length image.items }
        requires most { length image.items ≤ 2048 }
        ensures pages { IfOk result (λ copy. (copy_state copy).pages ≡ length image.items / 2) }
        ensures image { IfOk result (λ copy. let pages = length image.items / 2 in
            (copy_state copy).image ≡ take pages image.items ∷ drop pages image.items ∷ []) }
    {
        let flash = FlashMem::of(alloc, image, 0)?;
        Ok(ImageCopy { flash })
    }
}

impl Flash for ImageCopy {
    ghost use Rattle.flt_dump.specs.Copy.{copy_state};
    ghost use Rattle.flt_dump.specs.Shape.{copy_shape};

    ghost state = { copy_state };

    ghost shape = { copy_shape };

    fn pages(&self) -> u16 {
        self.flash.pages()
    }

    fn read_page(&mut self, sector: u8, page: u16, out: &mut [u8; 32]) -> Result<(), FlashFailed> {
        self.flash.read_page(sector, page, out)
    }

    fn program(&mut self, sector: u8, page: u16, bytes: &[u8; 32]) -> Result<(), FlashFailed> {
        self.flash.program(sector, page, bytes)
    }

    fn erase(&mut self, sector: u8) -> Result<(), FlashFailed> {
        self.flash.erase(sector)
    }

    fn operations(&self) -> u64 {
        self.flash.operations()
    }

    fn wear(&self, sector: u8) -> u64 {
        self.flash.wear(sector)
    }
}

impl Bench for ImageCopy {
    ghost use Rattle.flt_dump.specs.Copy.{copy_state};

    fn boots_left(&self) -> u16 {
        self.flash.boots_left()
    }

    fn armed(&self) -> u8 {
        0
    }

    fn arm(&mut self, _arm: Arm) {}

    fn power_up(&mut self) {
        self.flash.power_up();
    }
}
