//! A flash of two sectors, and the bench that cuts its power.
ghost use Rattle.std.specs.Prelude.{◌≡◌, ◌<◌, OnOk, OnErr, slice_index, slice_set};
ghost use Rattle.flt_flash.specs.Image.{page_at, programmed, erased, blank_page};
ghost use Rattle.flt_flash.specs.Tearing.{IsTorn};
ghost use Rattle.flt_flash.specs.State.{FlashState, HasShape, Operates, counted_up, CanArm, Arms, PowersUp};

use crate::Arm;
use thiserror::Error;

/// A read, program or erase did not succeed. It comes only where the flash's count of faults rose.
#[derive(Clone, Copy, Debug, PartialEq, Eq, Error)]
#[error("an operation of the device failed")]
pub struct FlashFailed;

/// A flash of two sectors, 0 and 1, of as many pages of 32 bytes each. An erased bit is 1; a program makes bits 0.
///
/// While it is off every read, program and erase fails, raises the count of faults, and changes nothing else but the
/// counts of operations and of erases. A flash that is no bench has no boots, none left, and no arms.
pub trait Flash {
    /// The image, the power, the counts, and what a bench keeps, which no operation here adds to.
    ghost state: { Self → FlashState };

    /// The pages in each sector.
    fn pages(&self) -> u16
        ensures { result ≡ (state self.now).pages };

    /// Reads a page. A read, one that fails too, changes no bit and turns the flash neither off nor on; one that fails says nothing
    /// of `out`. At `Err` read the page again.
    fn read_page(&mut self, sector: u8, page: u16, out: &mut [u8; 32]) -> Result<(), FlashFailed>
        requires sector { sector < 2 }
        requires page { page < (state self.old).pages }
        ensures read { OnOk result (out.new ≡ page_at (state self.old).image sector page) }
        ensures image { (state self.new).image ≡ (state self.old).image }
        ensures off { (state self.new).is_off ≡ (state self.old).is_off }
        ensures wear { (state self.new).wear ≡ (state self.old).wear }
        ensures operation { Operates (state self.old) (state self.new) result };

    /// Programs a page that is blank. At `Err` each of its bits is as before or as asked: read the page, and program another one.
    fn program(&mut self, sector: u8, page: u16, bytes: &[u8; 32]) -> Result<(), FlashFailed>
        requires sector { sector < 2 }
        requires page { page < (state self.old).pages }
        requires blank { page_at (state self.old).image sector page ≡ blank_page }
        ensures programmed { OnOk result ((state self.new).image ≡ programmed (state self.old).image sector page bytes.now) }
        ensures torn { OnErr result (IsTorn (state self.old).image (programmed (state self.old).image sector page bytes.now) (state self.new).image) }
        ensures wear { (state self.new).wear ≡ (state self.old).wear }
        ensures operation { Operates (state self.old) (state self.new) result };

    /// Makes every bit of a sector 1. At `Err` each of its bits is as before or 1: erase the sector again before a page is programmed.
    fn erase(&mut self, sector: u8) -> Result<(), FlashFailed>
        requires { sector < 2 }
        ensures erased { OnOk result ((state self.new).image ≡ erased (state self.old).image sector) }
        ensures torn { OnErr result (IsTorn (state self.old).image (erased (state self.old).image sector) (state self.new).image) }
        ensures wear { (state self.new).wear ≡ slice_set (state self.old).wear sector (counted_up (slice_index (state self.old).wear sector)) }
        ensures operation { Operates (state self.old) (state self.new) result };

    /// How many reads, programs and erases were made, failed ones too. It stays at 2^64 - 1.
    fn operations(&self) -> u64
        ensures { result ≡ (state self.now).operations };

    /// How many erases of a sector were made, failed ones too. It stays at 2^64 - 1.
    fn wear(&self, sector: u8) -> u64
        requires { sector < 2 }
        ensures { result ≡ slice_index (state self.now).wear sector };

    ghost shape: { (flash : Self) → HasShape (state flash) };
}

/// A flash whose power and faults are commanded.
pub trait Bench: Flash {
    /// How often the power may still come back.
    fn boots_left(&self) -> u16
        ensures { result ≡ (Self.state self.now).bench.boots_left };

    /// How many arms remain, 64 at most.
    fn armed(&self) -> u8
        ensures { result ≡ (Self.state self.now).bench.armed };

    /// Makes an arm, which remains until it has fired, over power-ups too.
    fn arm(&mut self, arm: Arm)
        requires room { (Self.state self.old).bench.armed < 64 }
        requires number { CanArm arm }
        ensures { Arms arm (Self.state self.old) (Self.state self.new) };

    /// Turns the flash on, changes no bit, and adds the count of faults and the image to the list of boots.
    fn power_up(&mut self)
        requires { 0 < (Self.state self.old).bench.boots_left }
        ensures { PowersUp (Self.state self.old) (Self.state self.new) };
}
