//! The driver over two sectors.
ghost use Rattle.std.specs.Prelude.{◌≡◌, ◌≢◌, ◌+◌, ◌-◌, ◌^◌, ◌<◌, ◌≤◌, length, true, false, Contains};
ghost use Rattle.std.specs.Prelude.{IsFalse, IfOk, IfErr, IfSome, OnOk, OnErr, Ok, Some, None};
ghost use Rattle.std.specs.List.{AllPairs};
ghost use Rattle.std.proofs.Props.{props};
ghost use Rattle.flt_flash.specs.Content.{invalid, bytes as holding};
ghost use Rattle.flt_flash.specs.Image.{sector_at};
ghost use Rattle.flt_flash.specs.Blocks.{byte_pages, device_of, live_pages, record_pages};
ghost use Rattle.flt_flash.specs.Calls.{BlockCalls, CountsCallOf, CountsMount, Changes, Costs, MountCosts, ReadsAlone, ReadsContent, NeverFull, ReadCosts, SameSpent, SameValues, Settles};
ghost use Rattle.flt_flash.specs.declared.blocks.BlockFault.TheVariants.{Full, SequenceSpent};
ghost use Rattle.flt_sector_model.specs.Blocks.{current, block_value};
ghost use Rattle.flt_pages.specs.LogHolds.{record_content};
ghost use Rattle.flt_pages.specs.Switch.{MovesRecords};
ghost use Rattle.flt_pages.specs.RecordPlace.{IsAt, TellsPlaces};
ghost use Rattle.flt_fee.specs.Costs.{SpendsAtMost, MakesRoom};
ghost use Rattle.flt_fee.specs.Mounted.{IsMounted};
ghost use Rattle.flt_fee.specs.Wear.{StaysEven, UnlessFlash};

use flt_flash::{Arm, Bench, BlockFault, Blocks, Flash, Found, Refused, Tally};
use flt_pages::{
    CurrentSector, Numbers, RecordPlace, append_record, byte_pages, current_sector, find_places,
    forget, live_pages, note, place_of, read_record, set_up_flash, switch_sectors,
};
use std::alloc::{AllocError, Global};

/// A table of blocks without records.
fn no_places(alloc: Global, many: usize) -> Result<Vec<Option<RecordPlace>>, AllocError>
    ensures { IfOk result (λ places. length places.items ≡ many) }
{
    let mut places = Vec::with_capacity(alloc, many)?;
    for _place in 0..many {
        places.push(None)?;
    }
    Ok(places)
}

/// The block numbers with their index, and a table of as many blocks without records.
fn tables(
    alloc: Global,
    numbers: Vec<u16>,
) -> Result<(Numbers, Vec<Option<RecordPlace>>), AllocError>
    ensures numbers { IfOk result (λ made. made.0 ≡ numbers.items) }
    ensures places { IfOk result (λ made. length made.1.items ≡ length numbers.items) }
{
    let numbers = Numbers::make(alloc, numbers)?;
    let places = no_places(alloc, numbers.len())?;
    Ok((numbers, places))
}

/// Blocks of 1 to 128 bytes in the records of two sectors, of which it uses the same number of pages each, from the first one.
///
/// It keeps the current sector with its used pages and its sequence number, the page where its log ends, the place of each block's
/// current record, a count of its calls, and the block of the last one that the flash failed. A mount looks at the log once, and no
/// other call looks at it. Its room is two pages less than the used ones. It is spent where the sequence number is 2^32 - 1, and a
/// record is stuck where it is spent and the record does not fit after the log.
#[derive(Drop)]
pub struct Fee<F: Flash> {
    flash: F,
    at: CurrentSector,
    numbers: Numbers,
    is_stale: bool,
    has_mounted: bool,
    tally: Tally,
    end: u16,
    places: Vec<Option<RecordPlace>>,
    ghost within: { at.used ≤ (F.state flash).pages },
    ghost least: { 4 ≤ at.used },
    ghost distinct: { AllPairs (λ a b. a ≢ b) numbers },
    ghost sized: { length places.items ≡ length numbers },
    ghost mounted: { IsMounted is_stale has_mounted at numbers (F.state flash).image end },
    ghost table: { IsFalse is_stale → TellsPlaces numbers places.items (sector_at (F.state flash).image at.sector) end
        (block_value at.used numbers (F.state flash).image) } by { Prim.hlevel props },
}

impl<F: Flash> Fee<F> {
    ghost use Rattle.flt_fee.specs.Fee.{state_by, fee_state, uncounted_of};
    ghost use Rattle.flt_fee.specs.Stored.{CanBeStored, IsPartOfCall, IsPartOfMount, RefusesRecord, StoresRecord};

    /// Appends a record after the log, where it fits.
    fn append(&mut self, block: u16, bytes: &[u8], valid: bool) -> Result<(), BlockFault>
        requires not_stale { IsFalse (uncounted_of F.state self.old).is_stale }
        requires can { CanBeStored (uncounted_of F.state self.old).numbers block (length bytes.now) valid }
        requires room { self.old.end + 2 + byte_pages (length bytes.now) ≤ self.old.at.used }
        ensures changes { Changes (uncounted_of F.state self.old) (uncounted_of F.state self.new) block (record_content valid bytes.now) (length bytes.now) result }
        ensures part { IsPartOfCall F.state self.old self.new result }
        ensures never_full { NeverFull result }
        ensures spends { OnOk result (SpendsAtMost (record_pages (length bytes.now)) (F.state self.old.flash) (F.state self.new.flash)) }
        ensures even { StaysEven self.old.at.used (F.state self.old.flash) (F.state self.new.flash) }
    {
        let page = self.end;
        self.is_stale = true;
        append_record(&mut self.flash, self.at.sector, page, block, bytes, valid)?;
        let length = bytes.len() as u16;
        let place = RecordPlace {
            page,
            length,
            valid,
        };
        note(&self.numbers, &mut self.places, block, true, place);
        self.end = page + 2 + byte_pages(length);
        self.is_stale = false;
        Ok(())
    }

    /// Begins the first sector: the mount of a flash of which no sector is valid.
    fn format(&mut self) -> Result<(), BlockFault>
        requires { current self.old.at.used (F.state self.old.flash).image ≡ Ok None }
        ensures mounts { IsPartOfMount F.state self.old self.new result }
        ensures operations { (F.state self.new.flash).operations ≤ (F.state self.old.flash).operations + 3 }
        ensures even { UnlessFlash result (StaysEven self.old.at.used (F.state self.old.flash) (F.state self.new.flash)) }
    {
        self.is_stale = true;
        set_up_flash(&mut self.flash, self.at.used)?;
        forget(&mut self.places);
        self.at = CurrentSector {
            sector: 0,
            used: self.at.used,
            sequence: 1,
        };
        self.end = 2;
        self.has_mounted = true;
        self.is_stale = false;
        Ok(())
    }

    /// Looks at the flash as a power-up left it.
    fn look(&mut self) -> Result<(), BlockFault>
        ensures mounts { IsPartOfMount F.state self.old self.new result }
        ensures operations { (F.state self.new.flash).operations ≤ (F.state self.old.flash).operations + (self.old.at.used + 3) }
        ensures even { UnlessFlash result (StaysEven self.old.at.used (F.state self.old.flash) (F.state self.new.flash)) }
    {
        self.is_stale = true;
        match current_sector(&mut self.flash, self.at.used)? {
            None => self.format(),
            Some(at) => {
                let end = find_places(&mut self.flash, at, &self.numbers, &mut self.places)?;
                self.at = at;
                self.end = end;
                self.has_mounted = true;
                self.is_stale = false;
                Ok(())
            }
        }
    }

    /// Mounts a stale driver.
    fn settle(&mut self) -> Result<(), BlockFault>
        ensures mounts { IsPartOfMount F.state self.old self.new result }
        ensures kept { IsFalse (uncounted_of F.state self.old).is_stale → IsFalse (uncounted_of F.state self.new).is_stale }
        ensures nothing { IsFalse (uncounted_of F.state self.old).is_stale → (result ≡ Ok tt) × (self.new ≡ self.old) }
        ensures even { UnlessFlash result (StaysEven self.old.at.used (F.state self.old.flash) (F.state self.new.flash)) }
    {
        if self.is_stale { self.look() } else { Ok(()) }
    }

    /// The pages of the current records of all blocks.
    fn live(&self) -> u16
        requires { IsFalse (uncounted_of F.state self.now).is_stale }
        ensures { result ≡ live_pages (uncounted_of F.state self.now) }
    {
        live_pages(&self.places)
    }

    /// Makes the other sector the current one, with a copy of all that the blocks hold.
    fn switch(&mut self) -> Result<(), BlockFault>
        requires not_stale { IsFalse (uncounted_of F.state self.old).is_stale }
        requires next { self.old.at.sequence + 1 < 2 ^ 32 }
        requires room { 2 + live_pages (uncounted_of F.state self.old) ≤ self.old.at.used }
        ensures moves { OnOk result (MovesRecords (live_pages (uncounted_of F.state self.old)) self.old.at.sector self.new.end (F.state self.old.flash)
            (F.state self.new.flash)) }
        ensures values { SameValues (uncounted_of F.state self.old) (uncounted_of F.state self.new) }
        ensures part { IsPartOfCall F.state self.old self.new result }
        ensures never_full { NeverFull result }
        ensures even { UnlessFlash result (StaysEven self.old.at.used (F.state self.old.flash) (F.state self.new.flash)) }
    {
        self.is_stale = true;
        let end = switch_sectors(&mut self.flash, self.at, &self.numbers, &mut self.places)?;
        self.at = CurrentSector {
            sector: 1 - self.at.sector,
            used: self.at.used,
            sequence: self.at.sequence + 1,
        };
        self.end = end;
        self.is_stale = false;
        Ok(())
    }

    /// Makes room after the log for a record of this length, by a switch where it does not fit.
    fn make_room(&mut self, block: u16, size: u16) -> Result<(), BlockFault>
        requires not_stale { IsFalse (uncounted_of F.state self.old).is_stale }
        requires most { size ≤ 128 }
        ensures room { OnOk result (self.new.end + record_pages size ≤ self.new.at.used) }
        ensures made { OnOk result (MakesRoom self.old.at.used self.old.end (live_pages (uncounted_of F.state self.old)) size self.old.at.sector
            (F.state self.old.flash) (F.state self.new.flash)) }
        ensures refuses { RefusesRecord (uncounted_of F.state self.old) (uncounted_of F.state self.new) (F.state self.old.flash) (F.state self.new.flash) block
            size result }
        ensures values { SameValues (uncounted_of F.state self.old) (uncounted_of F.state self.new) }
        ensures part { IsPartOfCall F.state self.old self.new result }
        ensures even { UnlessFlash result (StaysEven self.old.at.used (F.state self.old.flash) (F.state self.new.flash)) }
    {
        let needed = 2 + byte_pages(size);
        if needed <= self.at.used - self.end {
            return Ok(());
        }
        let live = self.live();
        if needed > self.at.used - 2 - live {
            Err(BlockFault::Full { live, needed })
        } else if self.at.sequence == u32::MAX {
            Err(BlockFault::SequenceSpent)
        } else {
            self.switch()
        }
    }

    /// Gives a block these bytes, or makes it invalid.
    fn put(&mut self, block: u16, bytes: &[u8], valid: bool) -> Result<(), BlockFault>
        requires can { CanBeStored (uncounted_of F.state self.old).numbers block (length bytes.now) valid }
        ensures changes { Changes (uncounted_of F.state self.old) (uncounted_of F.state self.new) block (record_content valid bytes.now) (length bytes.now) result }
        ensures part { IsPartOfCall F.state self.old self.new result }
        ensures stored { StoresRecord self.old.at.used (uncounted_of F.state self.old) (uncounted_of F.state self.new) block (length bytes.now) result }
        ensures costs { Costs (uncounted_of F.state self.old) (uncounted_of F.state self.new) (length bytes.now) }
        ensures even { UnlessFlash result (StaysEven self.old.at.used (F.state self.old.flash) (F.state self.new.flash)) }
    {
        self.settle()?;
        self.make_room(block, bytes.len() as u16)?;
        self.append(block, bytes, valid)
    }

    /// The place of a block's current record, if it has one.
    fn place(&self, block: u16) -> Option<RecordPlace>
        requires not_stale { IsFalse (uncounted_of F.state self.now).is_stale }
        requires number { Contains (uncounted_of F.state self.now).numbers block }
        ensures { IsAt (sector_at (F.state self.now.flash).image self.now.at.sector) self.now.at.used ((uncounted_of F.state self.now).value block) result }
    {
        place_of(&self.numbers, &self.places, block)
    }

    /// Reads a block.
    fn get(&mut self, block: u16, out: &mut [u8; 128]) -> Result<Found, BlockFault>
        requires { Contains (uncounted_of F.state self.old).numbers block }
        ensures found { IfOk result (λ found. ReadsContent ((uncounted_of F.state self.old).value block) found out.old out.new) }
        ensures nothing { OnErr result (out.new ≡ out.old) }
        ensures reads { ReadsAlone (uncounted_of F.state self.old) (uncounted_of F.state self.new) result }
        ensures count { self.new.tally ≡ self.old.tally }
        ensures costs { ReadCosts (uncounted_of F.state self.old) (uncounted_of F.state self.new) block }
        ensures even { UnlessFlash result (StaysEven self.old.at.used (F.state self.old.flash) (F.state self.new.flash)) }
    {
        self.settle()?;
        match self.place(block) {
            None => Ok(Found::Missing),
            Some(place) if place.valid => {
                read_record(&mut self.flash, self.at.sector, place, out)?;
                Ok(Found::Bytes(place.length as usize))
            }
            Some(_) => Ok(Found::Invalid),
        }
    }

    /// A driver over this flash of `used` pages in each sector, for these block numbers. It is stale, and has not mounted.
    /// It takes the memory of a place and of a row of the index for each number, and no other call takes any. At `Err` there was
    /// not enough memory: the flash comes back as it was, and the driver can be made when memory is free.
    pub fn make(alloc: Global, flash: F, used: u16, numbers: Vec<u16>) -> Result<Fee<F>, Refused<F>>
        requires least { 4 ≤ used }
        requires most { used ≤ (F.state flash).pages }
        requires distinct { AllPairs (λ a b. a ≢ b) numbers.items }
        ensures made { IfOk result (λ fee. fee_state F.state fee ≡ state_by used numbers.items true false (F.state flash)) }
        ensures numbers { IfOk result (λ fee. (fee_state F.state fee).numbers ≡ numbers.items) }
        ensures refused { IfErr result (λ refused. refused.device ≡ flash) }
    {
        match tables(alloc, numbers) {
            Err(AllocError) => Err(Refused { device: flash }),
            Ok((numbers, places)) => Ok(Fee {
                flash,
                at: CurrentSector {
                    sector: 0,
                    used,
                    sequence: 0,
                },
                numbers,
                is_stale: true,
                has_mounted: false,
                tally: Tally::none(),
                end: 0,
                places,
            }),
        }
    }

    /// The flash, as the driver left it: what the driver said of its device is true of it, and each sector has the pages that the
    /// driver used, two more than its room.
    pub fn retire(self) -> F
        ensures device { device_of (F.state result) ≡ (fee_state F.state self).device }
        ensures pages { IfSome (fee_state F.state self).room (λ room. room + 2 ≤ (F.state result).pages) }
    {
        self.flash
    }
}

impl<F: Bench> Blocks for Fee<F> {
    ghost use Rattle.flt_pages.proofs.Short.{value_is_short};
    ghost use Rattle.flt_fee.specs.Fee.{fee_state};
    ghost use Rattle.flt_fee.specs.Refusal.{first_holds};
    ghost use Rattle.flt_fee.specs.Stored.{StoresOnSectors, WearsEvenly};

    ghost state = { fee_state F.state };

    ghost stuck_is_spent = { λ driver block size. first_holds _ _ };

    ghost settled_has_mounted = { λ driver. driver.mounted.mounted };

    ghost mounted_is_sound = { λ driver. driver.mounted.undamaged };

    ghost bytes_are_short = { λ driver block. value_is_short driver.at.used driver.numbers (F.state driver.flash).image block };

    fn mount(&mut self) -> Result<(), BlockFault>
        ensures values { SameValues (fee_state F.state self.old) (fee_state F.state self.new) }
        ensures spent { SameSpent (fee_state F.state self.old) (fee_state F.state self.new) }
        ensures calls { BlockCalls (fee_state F.state self.old) (fee_state F.state self.new) result }
        ensures once { CountsMount (fee_state F.state self.old) (fee_state F.state self.new) }
        ensures never_full { NeverFull result }
        ensures stale { Settles result (fee_state F.state self.new) }
        ensures costs { MountCosts (fee_state F.state self.old) (fee_state F.state self.new) }

        // The sectors wear evenly.
        ensures even { WearsEvenly F.state self.old self.new }
    {
        self.tally.count();
        self.look()
    }

    fn write(&mut self, block: u16, bytes: &[u8]) -> Result<(), BlockFault>
        requires number { Contains (fee_state F.state self.old).numbers block }
        requires least { 1 ≤ length bytes.now }
        requires most { length bytes.now ≤ 128 }
        ensures changes { Changes (fee_state F.state self.old) (fee_state F.state self.new) block (holding bytes.now) (length bytes.now) result }
        ensures calls { BlockCalls (fee_state F.state self.old) (fee_state F.state self.new) result }
        ensures once { CountsCallOf block (fee_state F.state self.old) (fee_state F.state self.new) result }
        ensures stale { Settles result (fee_state F.state self.new) }

        // It is refused exactly where there is no room or no number for it, and it costs no switch where its record fits after the log.
        // The sectors wear evenly.
        ensures sectors { StoresOnSectors F.state self.old self.new block (length bytes.now) result }
    {
        self.tally.count();
        let answer = self.put(block, bytes, true);
        self.tally.note(block, &answer);
        answer
    }

    fn read(&mut self, block: u16, out: &mut [u8; 128]) -> Result<Found, BlockFault>
        requires { Contains (fee_state F.state self.old).numbers block }
        ensures found { IfOk result (λ found. ReadsContent ((fee_state F.state self.old).value block) found out.old out.new) }
        ensures nothing { OnErr result (out.new ≡ out.old) }
        ensures once { CountsCallOf block (fee_state F.state self.old) (fee_state F.state self.new) result }
        ensures reads { ReadsAlone (fee_state F.state self.old) (fee_state F.state self.new) result }

        // A driver that is not stale looks at no log: it reads the pages of the record's bytes alone.
        ensures costs { ReadCosts (fee_state F.state self.old) (fee_state F.state self.new) block }

        // The sectors wear evenly.
        ensures even { WearsEvenly F.state self.old self.new }
    {
        self.tally.count();
        let answer = self.get(block, out);
        self.tally.note(block, &answer);
        answer
    }

    fn look_up(&self, block: u16) -> Found {
        match self.place(block) {
            None => Found::Missing,
            Some(place) if place.valid => Found::Bytes(place.length as usize),
            Some(_) => Found::Invalid,
        }
    }

    fn invalidate(&mut self, block: u16) -> Result<(), BlockFault>
        requires { Contains (fee_state F.state self.old).numbers block }
        ensures changes { Changes (fee_state F.state self.old) (fee_state F.state self.new) block invalid 0 result }
        ensures calls { BlockCalls (fee_state F.state self.old) (fee_state F.state self.new) result }
        ensures once { CountsCallOf block (fee_state F.state self.old) (fee_state F.state self.new) result }
        ensures stale { Settles result (fee_state F.state self.new) }

        // It is refused exactly where there is no room or no number for it, and it costs no switch where its record fits after the log.
        // The sectors wear evenly.
        ensures sectors { StoresOnSectors F.state self.old self.new block 0 result }
    {
        self.tally.count();
        let answer = self.put(block, &[], false);
        self.tally.note(block, &answer);
        answer
    }

    fn spent(&self) -> bool {
        self.at.sequence == u32::MAX
    }

    fn boots_left(&self) -> u16 {
        self.flash.boots_left()
    }

    fn armed(&self) -> u8 {
        self.flash.armed()
    }

    fn arm(&mut self, arm: Arm) {
        self.flash.arm(arm);
    }

    fn power_up(&mut self) {
        self.is_stale = true;
        self.flash.power_up();
    }
}
