//! A driver of blocks over an EEPROM.
ghost use Rattle.std.specs.Prelude.{◌≡◌, ◌≢◌, ◌+◌, ◌<◌, ◌≤◌, ◌*◌, ℕ, true, false, length, Contains, Ok, None, IfOk, IfErr, OnOk, OnErr, IsFalse, slice_index_or};
ghost use Rattle.std.specs.List.{AllPairs};
ghost use Rattle.flt_flash.specs.Blocks.{byte_pages, device_of, record_pages};
ghost use Rattle.flt_flash.specs.Content.{invalid, bytes as holding, size_of};
ghost use Rattle.flt_flash.specs.Calls.{BlockCalls, CountsCallOf, CountsMount, Changes, Costs, MountCosts, ReadCosts, NeverFull, ReadsAlone, ReadsContent, SameImage, SameSpent, SameValues, Settles};
ghost use Rattle.flt_code.specs.Word.{is_length};
ghost use Rattle.flt_pages.specs.LogHolds.{record_content};
ghost use Rattle.flt_ea.specs.Image.{gate_unit, is_stuck_in};
ghost use Rattle.flt_ea.specs.Mounted.{IsMounted};
ghost use Rattle.flt_ea.specs.Refusal.{AnswersBy, SpendsUnlessFlash};

use crate::place::{is_last, next_place, next_sequence, some_is_last};
use crate::record::{read_bytes, write_record};
use crate::scan::scan;
use crate::{Eeprom, Gate, Held};
use flt_flash::{Arm, BlockFault, Blocks, Found, Refused, Tally};
use flt_pages::Numbers;
use std::alloc::{AllocError, Global};

fn empty_table(alloc: Global, size: usize) -> Result<Vec<Option<Held>>, AllocError>
    ensures { IfOk result (λ table. length table.items ≡ size) }
{
    let mut table = Vec::with_capacity(alloc, size)?;
    for _position in 0..size {
        table.push(None)?;
    }
    Ok(table)
}

/// The block numbers with their index, and a table of as many empty places.
fn tables(alloc: Global, numbers: Vec<u16>) -> Result<(Numbers, Vec<Option<Held>>), AllocError>
    ensures numbers { IfOk result (λ made. made.0 ≡ numbers.items) }
    ensures table { IfOk result (λ made. length made.1.items ≡ length numbers.items) }
{
    let numbers = Numbers::make(alloc, numbers)?;
    let table = empty_table(alloc, numbers.len())?;
    Ok((numbers, table))
}

/// The unit of the gate of a place.
fn gate_unit(position: usize, place: u8) -> u16
    requires position { position < 6553 }
    requires place { place < 2 }
    ensures { result ≡ gate_unit position place }
{
    10 * position as u16 + 5 * place as u16
}

/// Blocks of 1 to 128 bytes over an EEPROM: each has two places of five units, and is written to the one that is not current.
///
/// It keeps the current place of each block, and a count of its calls. A mount reads each gate once and writes nothing, and no other call reads a gate.
/// Its room is not limited. It is spent where some block has come to the sequence number 2^32 - 1, and a record is stuck where its
/// own block has.
#[derive(Drop)]
pub struct Ea<E: Eeprom> {
    device: E,
    numbers: Numbers,
    table: Vec<Option<Held>>,
    is_stale: bool,
    has_mounted: bool,
    tally: Tally,
    ghost within: { 10 * length numbers ≤ (E.state device).pages },
    ghost size: { length table.items ≡ length numbers },
    ghost distinct: { AllPairs (λ a b. a ≢ b) numbers },
    ghost mounted: { IsMounted is_stale has_mounted numbers (E.state device).image table.items },
}

impl<E: Eeprom> Ea<E> {
    ghost use Rattle.flt_ea.specs.Driver.{state_by};
    ghost use Rattle.flt_ea.specs.Ea.{ea_state, uncounted_of};

    /// A driver over this device for these block numbers. It is stale, and has not mounted. It takes the memory of a place and of
    /// a row of the index for each number, and no other call takes any. At `Err` there was not enough memory: the device comes back as it was, and
    /// the driver can be made when memory is free.
    pub fn make(alloc: Global, device: E, numbers: Vec<u16>) -> Result<Ea<E>, Refused<E>>
        requires units { 10 * length numbers.items ≤ (E.state device).pages }
        requires distinct { AllPairs (λ a b. a ≢ b) numbers.items }
        ensures made { IfOk result (λ ea. ea_state E.state ea ≡ state_by numbers.items true false (E.state device)) }
        ensures refused { IfErr result (λ refused. refused.device ≡ device) }
    {
        match tables(alloc, numbers) {
            Err(AllocError) => Err(Refused { device }),
            Ok((numbers, table)) => Ok(Ea {
                device,
                numbers,
                table,
                is_stale: true,
                has_mounted: false,
                tally: Tally::none(),
            }),
        }
    }

    /// The device, as the driver left it.
    pub fn retire(self) -> E
        ensures { device_of (E.state result) ≡ (ea_state E.state self).device }
    {
        self.device
    }

    /// Looks at the device as a power-up left it: each gate is read once, and nothing is written.
    fn look(&mut self) -> Result<(), BlockFault>
        ensures values { SameValues (uncounted_of E.state self.old) (uncounted_of E.state self.new) }
        ensures calls { BlockCalls (uncounted_of E.state self.old) (uncounted_of E.state self.new) result }
        ensures count { self.new.tally ≡ self.old.tally }
        ensures never_full { NeverFull result }
        ensures stale { Settles result (uncounted_of E.state self.new) }
        ensures image { (E.state self.new.device).image ≡ (E.state self.old.device).image }
        ensures operations { (E.state self.new.device).operations ≤ (E.state self.old.device).operations + 2 * length (uncounted_of E.state self.old).numbers }
    {
        self.is_stale = true;
        scan(&mut self.device, &self.numbers, &mut self.table)?;
        self.is_stale = false;
        self.has_mounted = true;
        Ok(())
    }

    /// Mounts a stale driver.
    fn settle(&mut self) -> Result<(), BlockFault>
        ensures values { SameValues (uncounted_of E.state self.old) (uncounted_of E.state self.new) }
        ensures calls { BlockCalls (uncounted_of E.state self.old) (uncounted_of E.state self.new) result }
        ensures count { self.new.tally ≡ self.old.tally }
        ensures never_full { NeverFull result }
        ensures stale { Settles result (uncounted_of E.state self.new) }
        ensures image { (E.state self.new.device).image ≡ (E.state self.old.device).image }
        ensures kept { IsFalse (uncounted_of E.state self.old).is_stale → IsFalse (uncounted_of E.state self.new).is_stale }
        ensures nothing { IsFalse (uncounted_of E.state self.old).is_stale → (result ≡ Ok tt) × (self.new ≡ self.old) }
    {
        if self.is_stale { self.look() } else { Ok(()) }
    }

    /// Where a block is among the numbers.
    fn position(&self, block: u16) -> usize
        requires { Contains (uncounted_of E.state self.now).numbers block }
        ensures within { result < length (uncounted_of E.state self.now).numbers }
        ensures is { slice_index_or (uncounted_of E.state self.now).numbers result 0 ≡ block }
    {
        self.numbers.index_of(block).unwrap()
    }

    /// Gives a block of a driver that is not stale these bytes, or makes it invalid.
    fn store(&mut self, block: u16, bytes: &[u8], valid: bool) -> Result<(), BlockFault>
        requires not_stale { IsFalse (uncounted_of E.state self.old).is_stale }
        requires number { Contains (uncounted_of E.state self.old).numbers block }
        requires most { length bytes.now ≤ 128 }
        requires length { is_length valid (length bytes.now) ≡ true }
        ensures changes { Changes (uncounted_of E.state self.old) (uncounted_of E.state self.new) block (record_content valid bytes.now) (length bytes.now) result }
        ensures calls { BlockCalls (uncounted_of E.state self.old) (uncounted_of E.state self.new) result }
        ensures count { self.new.tally ≡ self.old.tally }
        ensures stale { Settles result (uncounted_of E.state self.new) }
        ensures answers { AnswersBy (is_stuck_in (uncounted_of E.state self.old).numbers (E.state self.old.device).image block) result }
        ensures spends { SpendsUnlessFlash (record_pages (length bytes.now)) (E.state self.old.device) (E.state self.new.device) result }
    {
        let position = self.position(block);
        let held = self.table[position];
        if is_last(held) {
            return Err(BlockFault::SequenceSpent);
        }
        let place = next_place(held);
        let gate = Gate {
            block,
            length: bytes.len() as u16,
            valid,
            sequence: next_sequence(held),
        };
        self.is_stale = true;
        write_record(&mut self.device, gate_unit(position, place), &gate, bytes)?;
        self.table[position] = Some(Held { place, gate });
        self.is_stale = false;
        Ok(())
    }

    /// Gives a block these bytes, or makes it invalid.
    fn put(&mut self, block: u16, bytes: &[u8], valid: bool) -> Result<(), BlockFault>
        requires number { Contains (uncounted_of E.state self.old).numbers block }
        requires most { length bytes.now ≤ 128 }
        requires length { is_length valid (length bytes.now) ≡ true }
        ensures changes { Changes (uncounted_of E.state self.old) (uncounted_of E.state self.new) block (record_content valid bytes.now) (length bytes.now) result }
        ensures calls { BlockCalls (uncounted_of E.state self.old) (uncounted_of E.state self.new) result }
        ensures count { self.new.tally ≡ self.old.tally }
        ensures stale { Settles result (uncounted_of E.state self.new) }
        ensures answers { AnswersBy (is_stuck_in (uncounted_of E.state self.old).numbers (E.state self.old.device).image block) result }
        ensures costs { Costs (uncounted_of E.state self.old) (uncounted_of E.state self.new) (length bytes.now) }
    {
        self.settle()?;
        self.store(block, bytes, valid)
    }

    /// Reads a block of a driver that is not stale.
    fn find(&mut self, block: u16, out: &mut [u8; 128]) -> Result<Found, BlockFault>
        requires not_stale { IsFalse (uncounted_of E.state self.old).is_stale }
        requires number { Contains (uncounted_of E.state self.old).numbers block }
        ensures found { IfOk result (λ found. ReadsContent ((uncounted_of E.state self.old).value block) found out.old out.new) }
        ensures nothing { OnErr result (out.new ≡ out.old) }
        ensures calls { BlockCalls (uncounted_of E.state self.old) (uncounted_of E.state self.new) result }
        ensures count { self.new.tally ≡ self.old.tally }
        ensures never_full { NeverFull result }
        ensures stale { IsFalse (uncounted_of E.state self.new).is_stale }
        ensures image { SameImage (uncounted_of E.state self.old) (uncounted_of E.state self.new) }
        ensures spends { OnOk result ((E.state self.new.device).operations ≤ (E.state self.old.device).operations
            + byte_pages (size_of ((uncounted_of E.state self.old).value block))) }
    {
        let position = self.position(block);
        match self.table[position] {
            None => Ok(Found::Missing),
            Some(held) if !held.gate.valid => Ok(Found::Invalid),
            Some(held) => {
                let gate = gate_unit(position, held.place);
                read_bytes(&mut self.device, gate, held.gate.length, out)?;
                Ok(Found::Bytes(held.gate.length as usize))
            }
        }
    }

    /// Reads a block.
    fn get(&mut self, block: u16, out: &mut [u8; 128]) -> Result<Found, BlockFault>
        requires { Contains (uncounted_of E.state self.old).numbers block }
        ensures found { IfOk result (λ found. ReadsContent ((uncounted_of E.state self.old).value block) found out.old out.new) }
        ensures nothing { OnErr result (out.new ≡ out.old) }
        ensures reads { ReadsAlone (uncounted_of E.state self.old) (uncounted_of E.state self.new) result }
        ensures count { self.new.tally ≡ self.old.tally }
        ensures costs { ReadCosts (uncounted_of E.state self.old) (uncounted_of E.state self.new) block }
    {
        self.settle()?;
        self.find(block, out)
    }
}

impl<E: Eeprom> Blocks for Ea<E> {
    ghost use Rattle.flt_ea.specs.Ea.{ea_state};
    ghost use Rattle.flt_ea.specs.Laws.{stuck_is_spent, value_is_short};

    ghost state = { ea_state E.state };

    ghost stuck_is_spent = { λ driver block size. stuck_is_spent driver.numbers (E.state driver.device).image block };

    ghost settled_has_mounted = { λ driver. driver.mounted.mounted };

    ghost mounted_is_sound = { λ driver. driver.mounted.undamaged };

    ghost bytes_are_short = { λ driver block. value_is_short driver.numbers (E.state driver.device) (E.shape driver.device) driver.within block };

    fn mount(&mut self) -> Result<(), BlockFault>
        ensures values { SameValues (ea_state E.state self.old) (ea_state E.state self.new) }
        ensures calls { BlockCalls (ea_state E.state self.old) (ea_state E.state self.new) result }
        ensures once { CountsMount (ea_state E.state self.old) (ea_state E.state self.new) }
        ensures never_full { NeverFull result }
        ensures stale { Settles result (ea_state E.state self.new) }
        ensures spent { SameSpent (ea_state E.state self.old) (ea_state E.state self.new) }
        ensures costs { MountCosts (ea_state E.state self.old) (ea_state E.state self.new) }

        // It writes nothing.
        ensures image { SameImage (ea_state E.state self.old) (ea_state E.state self.new) }
    {
        self.tally.count();
        self.look()
    }

    fn write(&mut self, block: u16, bytes: &[u8]) -> Result<(), BlockFault>
        requires number { Contains (ea_state E.state self.old).numbers block }
        requires least { 1 ≤ length bytes.now }
        requires most { length bytes.now ≤ 128 }
        ensures changes { Changes (ea_state E.state self.old) (ea_state E.state self.new) block (holding bytes.now) (length bytes.now) result }
        ensures calls { BlockCalls (ea_state E.state self.old) (ea_state E.state self.new) result }
        ensures once { CountsCallOf block (ea_state E.state self.old) (ea_state E.state self.new) result }
        ensures stale { Settles result (ea_state E.state self.new) }
        ensures costs { Costs (ea_state E.state self.old) (ea_state E.state self.new) (length bytes.now) }

        // It is refused exactly where its block has no sequence number left.
        ensures answers { AnswersBy (is_stuck_in (ea_state E.state self.old).numbers (E.state self.old.device).image block) result }
    {
        self.tally.count();
        let answer = self.put(block, bytes, true);
        self.tally.note(block, &answer);
        answer
    }

    fn read(&mut self, block: u16, out: &mut [u8; 128]) -> Result<Found, BlockFault> {
        self.tally.count();
        let answer = self.get(block, out);
        self.tally.note(block, &answer);
        answer
    }

    fn look_up(&self, block: u16) -> Found {
        match self.table[self.position(block)] {
            None => Found::Missing,
            Some(held) if held.gate.valid => Found::Bytes(held.gate.length as usize),
            Some(_) => Found::Invalid,
        }
    }

    fn invalidate(&mut self, block: u16) -> Result<(), BlockFault>
        requires { Contains (ea_state E.state self.old).numbers block }
        ensures changes { Changes (ea_state E.state self.old) (ea_state E.state self.new) block invalid 0 result }
        ensures calls { BlockCalls (ea_state E.state self.old) (ea_state E.state self.new) result }
        ensures once { CountsCallOf block (ea_state E.state self.old) (ea_state E.state self.new) result }
        ensures stale { Settles result (ea_state E.state self.new) }
        ensures costs { Costs (ea_state E.state self.old) (ea_state E.state self.new) 0 }

        // It is refused exactly where its block has no sequence number left.
        ensures answers { AnswersBy (is_stuck_in (ea_state E.state self.old).numbers (E.state self.old.device).image block) result }
    {
        self.tally.count();
        let answer = self.put(block, &[], false);
        self.tally.note(block, &answer);
        answer
    }

    fn spent(&self) -> bool {
        some_is_last(&self.table)
    }

    fn boots_left(&self) -> u16 {
        self.device.boots_left()
    }

    fn armed(&self) -> u8 {
        self.device.armed()
    }

    fn arm(&mut self, arm: Arm) {
        self.device.arm(arm);
    }

    fn power_up(&mut self) {
        self.is_stale = true;
        self.device.power_up();
    }
}
