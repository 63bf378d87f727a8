//! The power of a flash in memory, its counts, and the arms that remain, in the order in which they were made.
ghost use Rattle.std.specs.Prelude.{◌≡◌, ◌≤◌, ◌||◌, if◌then◌else◌, is_some, map};
ghost use Rattle.std.specs.List.{filter, find, list_any};
ghost use Rattle.arrayvec.specs.ArrayVec.{array_vec_len};
ghost use Rattle.flt_flash.specs.State.{counted_up};
ghost use Rattle.flt_flash.specs.Arms.{after_write, mutes, after_read, stands, acting, standing_after_write, standing_after_read, is_due_cut, is_due_fault};

use crate::{Arm, Pattern};
use arrayvec::ArrayVec;

fn bring_nearer(arms: &mut [Arm])
    ensures { arms.new ≡ map after_write arms.old }
{
    for arm in arms.iter_mut() {
        *arm = arm.after_write();
    }
}

fn use_up(arms: &mut [Arm], sector: u8, page: u16)
    ensures { arms.new ≡ map (after_read sector page) arms.old }
{
    for arm in arms.iter_mut() {
        *arm = arm.after_read(sector, page);
    }
}

fn keep_standing(arms: &mut ArrayVec<Arm, 64>)
    ensures items { arms.new.items ≡ filter stands arms.old.items }
    ensures fewer { array_vec_len arms.new ≤ array_vec_len arms.old }
{
    arms.retain(|arm| arm.stands());
}

fn first_cut(met: &[Arm]) -> Option<Arm>
    ensures { result ≡ find is_due_cut met.now }
{
    for arm in met {
        if arm.is_due_cut() {
            return Some(*arm);
        }
    }
    None
}

fn first_fault(met: &[Arm]) -> Option<Arm>
    ensures { result ≡ find is_due_fault met.now }
{
    for arm in met {
        if arm.is_due_fault() {
            return Some(*arm);
        }
    }
    None
}

fn acting(met: &[Arm]) -> Option<Arm>
    ensures { result ≡ acting met.now }
{
    first_cut(met).or(first_fault(met))
}

/// Counts a read of a page where arms remain, and says whether one makes it fail. It is not inlined, so that a read without them is short.
#[inline(never)]
fn count_read_under(arms: &mut ArrayVec<Arm, 64>, sector: u8, page: u16) -> bool
    ensures muted { result ≡ list_any (mutes sector page) arms.old.items }
    ensures stand { arms.new.items ≡ standing_after_read sector page arms.old.items }
    ensures fewer { array_vec_len arms.new ≤ array_vec_len arms.old }
{
    let muted = arms.as_slice().iter().any(|arm| arm.mutes(sector, page));
    use_up(arms.as_mut_slice(), sector, page);
    keep_standing(arms);
    muted
}

/// Whether a device in memory is off, its counts of faults and of operations, and the arms that remain.
#[derive(Drop)]
pub struct Power {
    pub is_off: bool,
    pub faults: u64,
    pub operations: u64,
    pub standing: ArrayVec<Arm, 64>,
}

impl Power {
    ghost use Rattle.flt_flash.specs.Power.{power_state, next_arm, cuts, failing_by, read_fails};

    fn count_fault(&mut self)
        ensures { self.new ≡ record self.old { faults = counted_up self.old.faults } }
    {
        self.faults = self.faults.saturating_add(1);
    }

    /// Counts a program or erase, and says by which pattern it fails, if it does.
    pub fn count_write(&mut self) -> Option<Pattern>
        ensures fails { result ≡ failing_by (power_state self.old) }
        ensures off { self.new.is_off ≡ (self.old.is_off || cuts (next_arm (power_state self.old))) }
        ensures faults { self.new.faults ≡ (if is_some result then counted_up self.old.faults else self.old.faults) }
        ensures operations { self.new.operations ≡ counted_up self.old.operations }
        ensures standing { self.new.standing.items ≡ (if self.old.is_off then self.old.standing.items else standing_after_write self.old.standing.items) }
        ensures fewer { array_vec_len self.new.standing ≤ array_vec_len self.old.standing }
    {
        self.operations = self.operations.saturating_add(1);
        if self.is_off {
            self.count_fault();
            return Some(Pattern::Nothing);
        }
        bring_nearer(self.standing.as_mut_slice());
        let acts = acting(self.standing.as_slice());
        keep_standing(&mut self.standing);
        match acts {
            Some(Arm::Cut { pattern, .. }) => {
                self.is_off = true;
                self.count_fault();
                Some(pattern)
            }
            Some(Arm::Fault { pattern, .. }) => {
                self.count_fault();
                Some(pattern)
            }
            _ => None,
        }
    }

    /// Counts a read of a page, and says whether it fails.
    #[inline(always)]
    pub fn count_read(&mut self, sector: u8, page: u16) -> bool
        ensures fails { result ≡ read_fails sector page (power_state self.old) }
        ensures off { self.new.is_off ≡ self.old.is_off }
        ensures faults { self.new.faults ≡ (if result then counted_up self.old.faults else self.old.faults) }
        ensures operations { self.new.operations ≡ counted_up self.old.operations }
        ensures standing { self.new.standing.items ≡ (if self.old.is_off then self.old.standing.items
            else standing_after_read sector page self.old.standing.items) }
        ensures fewer { array_vec_len self.new.standing ≤ array_vec_len self.old.standing }
    {
        self.operations = self.operations.saturating_add(1);
        if self.is_off {
            self.count_fault();
            return true;
        }
        if !self.standing.is_empty() && count_read_under(&mut self.standing, sector, page) {
            self.count_fault();
            return true;
        }
        false
    }
}
