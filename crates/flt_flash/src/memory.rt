//! A flash in memory, and the bench that cuts its power and makes its operations fail.
ghost use Rattle.std.specs.Prelude.{◌≡◌, false, ◌^◌, ◌+◌, ◌-◌, ◌*◌, ◌/◌, ◌%◌, ◌<◌, ◌≤◌, take, drop, [], ◌∷◌, ◌++◌, length, replicate, is_err, OnOk, OnErr, IfOk, slice_index, slice_set};
ghost use Rattle.flt_flash.specs.State.{first_state, Operates, counted_up, CanArm, Arms, PowersUp};
ghost use Rattle.flt_flash.specs.Tearing.{IsTorn};
ghost use Rattle.flt_flash.specs.Image.{page_at, programmed, erased, blank_page};
ghost use Rattle.flt_flash.specs.Arms.{arms_told_with};
ghost use Rattle.flt_flash.specs.Power.{first_power};
ghost use Rattle.flt_flash.specs.PageArrays.{all_pages};

use crate::boot::Boots;
use crate::made::ArmsTold;
use crate::pages::outcome;
use crate::power::Power;
use crate::{Arm, ArmMade, Bench, Flash, FlashFailed, PageArray};
use arrayvec::ArrayVec;
use std::alloc::{AllocError, Global};

/// A flash in memory that reports everything, its arms while at most 64 were made. It reserves its memory when it is made, and touches that of
/// a page when it or a later one is written.
#[derive(Drop)]
pub struct FlashMem {
    pages: u16,
    first: PageArray,
    second: PageArray,
    power: Power,
    first_wear: u64,
    second_wear: u64,
    arms: ArmsTold,
    boots: Boots,
    ghost most: { pages < 65536 },
    ghost most_operations: { power.operations < 2 ^ 64 },
    ghost most_first_wear: { first_wear < 2 ^ 64 },
    ghost most_second_wear: { second_wear < 2 ^ 64 },
    ghost first_size: { first.count ≡ pages },
    ghost second_size: { second.count ≡ pages },
    ghost boots_first: { boots.first.count ≡ pages },
    ghost boots_second: { boots.second.count ≡ pages },
}

impl FlashMem {
    ghost use Rattle.flt_flash.specs.Memory.{flash_state, power_of};
    ghost use Rattle.flt_flash.specs.Boots.{boot_at};

    /// A blank flash of two sectors of 2 to 1,024 pages, whose power may come back `boots` times. The error means that memory ran out.
    pub fn blank(alloc: Global, pages: u16, boots: u16) -> Result<FlashMem, AllocError>
        requires least { 2 ≤ pages }
        requires most { pages ≤ 1024 }
        ensures state { IfOk result (λ flash. flash_state flash ≡ first_state pages (replicate pages blank_page) (replicate pages blank_page) boots) }
        ensures power { IfOk result (λ flash. power_of flash ≡ first_power) }
    {
        let first = PageArray::blank(alloc, pages as usize)?;
        let second = PageArray::blank(alloc, pages as usize)?;
        Self::made(alloc, pages, first, second, boots)
    }

    /// A flash with this image of 4 to 2,048 pages, an even number, sector 0's pages first, whose power may come back
    /// `boots` times. The error means that memory ran out; the image is let go then.
    pub fn of(alloc: Global, image: Vec<[u8; 32]>, boots: u16) -> Result<FlashMem, AllocError>
        requires even { length image.items % 2 ≡ 0 }
        requires least { 4 ≤ length image.items }
        requires most { length image.items ≤ 2048 }
        ensures state { IfOk result (λ flash. let pages = length image.items / 2 in
            flash_state flash ≡ first_state pages (take pages image.items) (drop pages image.items) boots) }
        ensures power { IfOk result (λ flash. power_of flash ≡ first_power) }
    {
        let pages = image.len() / 2;
        let first = PageArray::of(alloc, &image[..pages])?;
        let second = PageArray::of(alloc, &image[pages..])?;
        Self::made(alloc, pages as u16, first, second, boots)
    }

    fn made(
        alloc: Global,
        pages: u16,
        first: PageArray,
        second: PageArray,
        boots: u16,
    ) -> Result<FlashMem, AllocError>
        requires first { first.count ≡ pages }
        requires second { second.count ≡ pages }
        ensures state { IfOk result (λ flash. flash_state flash ≡ first_state pages (all_pages first) (all_pages second) boots) }
        ensures power { IfOk result (λ flash. power_of flash ≡ first_power) }
    {
        let boots = Boots::reserved(alloc, pages as usize, pages as usize, boots)?;
        Ok(FlashMem {
            pages,
            first,
            second,
            power: Power {
                is_off: false,
                faults: 0,
                operations: 0,
                standing: ArrayVec::new(),
            },
            first_wear: 0,
            second_wear: 0,
            arms: ArmsTold::none(),
            boots,
        })
    }

    /// A page as it is; it counts for no operation.
    pub fn page(&self, sector: u8, page: u16) -> &[u8; 32]
        requires sector { sector < 2 }
        requires page { page < (flash_state self.now).pages }
        ensures { result.now ≡ page_at (flash_state self.now).image sector page }
    {
        if sector == 0 {
            self.first.page(page as usize)
        } else {
            self.second.page(page as usize)
        }
    }

    /// A page as it was at a power-up, the first one being number 0. There is one for each `power_up`.
    pub fn boot_page(&self, boot: u16, sector: u8, page: u16) -> &[u8; 32]
        requires boot { boot < length (flash_state self.now).bench.boots }
        requires sector { sector < 2 }
        requires page { page < (flash_state self.now).pages }
        ensures { result.now ≡ page_at (boot_at (flash_state self.now).bench.boots boot).image sector page }
    {
        if sector == 0 {
            self.boots.page(boot, page as usize)
        } else {
            self.boots.page(boot, self.pages as usize + page as usize)
        }
    }
}

impl Flash for FlashMem {
    ghost use Rattle.flt_flash.specs.Memory.{EraseFails, ProgramFails, flash_state, power_of};
    ghost use Rattle.flt_flash.specs.Shape.{shape_of};
    ghost use Rattle.flt_flash.specs.Power.{read_fails, power_after_read};

    ghost state = { flash_state };

    ghost shape = { shape_of };

    fn pages(&self) -> u16 {
        self.pages
    }

    fn read_page(&mut self, sector: u8, page: u16, out: &mut [u8; 32]) -> Result<(), FlashFailed>
        requires sector { sector < 2 }
        requires page { page < (flash_state self.old).pages }
        ensures read { OnOk result (out.new ≡ page_at (flash_state self.old).image sector page) }
        ensures image { (flash_state self.new).image ≡ (flash_state self.old).image }
        ensures off { (flash_state self.new).is_off ≡ (flash_state self.old).is_off }
        ensures wear { (flash_state self.new).wear ≡ (flash_state self.old).wear }
        ensures operation { Operates (flash_state self.old) (flash_state self.new) result }

        // It fails exactly where the power is off or an arm mutes the page, and uses up the arms that mute it.
        ensures fails { is_err result ≡ read_fails sector page (power_of self.old) }
        ensures power { power_of self.new ≡ power_after_read sector page (power_of self.old) }
    {
        if self.power.count_read(sector, page) {
            return Err(FlashFailed);
        }
        *out = *self.page(sector, page);
        Ok(())
    }

    fn program(&mut self, sector: u8, page: u16, bytes: &[u8; 32]) -> Result<(), FlashFailed>
        requires sector { sector < 2 }
        requires page { page < (flash_state self.old).pages }
        requires blank { page_at (flash_state self.old).image sector page ≡ blank_page }
        ensures programmed { OnOk result ((flash_state self.new).image ≡ programmed (flash_state self.old).image sector page bytes.now) }
        ensures torn { OnErr result (IsTorn (flash_state self.old).image (programmed (flash_state self.old).image sector page bytes.now) (flash_state self.new).image) }
        ensures wear { (flash_state self.new).wear ≡ (flash_state self.old).wear }
        ensures operation { Operates (flash_state self.old) (flash_state self.new) result }

        // It fails exactly where the power is off or an arm acts at it, and is torn by the pattern.
        ensures fails { ProgramFails self.old self.new sector page bytes.now result }
    {
        let failing = self.power.count_write();
        if sector == 0 {
            self.first.write(page as usize, bytes, failing);
        } else {
            self.second.write(page as usize, bytes, failing);
        }
        outcome(failing)
    }

    fn erase(&mut self, sector: u8) -> Result<(), FlashFailed>
        requires { sector < 2 }
        ensures erased { OnOk result ((flash_state self.new).image ≡ erased (flash_state self.old).image sector) }
        ensures torn { OnErr result (IsTorn (flash_state self.old).image (erased (flash_state self.old).image sector) (flash_state self.new).image) }
        ensures wear { (flash_state self.new).wear ≡ slice_set (flash_state self.old).wear sector (counted_up (slice_index (flash_state self.old).wear sector)) }
        ensures operation { Operates (flash_state self.old) (flash_state self.new) result }

        // It fails exactly where the power is off or an arm acts at it, and is torn by the pattern.
        ensures fails { EraseFails self.old self.new sector result }
    {
        let failing = self.power.count_write();
        if sector == 0 {
            self.first_wear = self.first_wear.saturating_add(1);
            self.first.erase(failing);
        } else {
            self.second_wear = self.second_wear.saturating_add(1);
            self.second.erase(failing);
        }
        outcome(failing)
    }

    fn operations(&self) -> u64 {
        self.power.operations
    }

    fn wear(&self, sector: u8) -> u64 {
        if sector == 0 {
            self.first_wear
        } else {
            self.second_wear
        }
    }
}

impl Bench for FlashMem {
    ghost use Rattle.flt_flash.specs.Memory.{flash_state, power_of};

    fn boots_left(&self) -> u16 {
        self.boots.left()
    }

    fn armed(&self) -> u8 {
        self.power.standing.len() as u8
    }

    fn arm(&mut self, arm: Arm)
        requires room { (flash_state self.old).bench.armed < 64 }
        requires number { CanArm arm }
        ensures arms { Arms arm (flash_state self.old) (flash_state self.new) }

        // The arm comes after those that were there, and is reported where at most 64 were made.
        ensures power { power_of self.new ≡ record (power_of self.old) { standing = (power_of self.old).standing ++ arm ∷ [] } }
        ensures told { (flash_state self.new).bench.arms ≡ arms_told_with (flash_state self.old).bench.arms
            (record { arm = arm; boots = length (flash_state self.old).bench.boots; faults = (flash_state self.old).faults }) }
    {
        self.power.standing.push(arm);
        self.arms.take(ArmMade {
            arm,
            boots: self.boots.used(),
            faults: self.power.faults,
        });
    }

    fn power_up(&mut self)
        requires { 0 < (flash_state self.old).bench.boots_left }
        ensures powers_up { PowersUp (flash_state self.old) (flash_state self.new) }

        // The arms that were there remain.
        ensures power { power_of self.new ≡ record (power_of self.old) { is_off = false } }
    {
        self.boots
            .save(self.power.faults, &self.first, &self.second);
        self.power.is_off = false;
    }
}
