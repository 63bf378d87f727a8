//! The images that the power-ups of a device in memory found.
ghost use Rattle.std.specs.Prelude.{◌≡◌, ◌+◌, ◌-◌, ◌*◌, ◌^◌, ◌<◌, ◌≤◌, ℕ, List, [], ◌∷◌, ◌++◌, length, vec_capacity, slice_index_or, slice_set, IfOk};
ghost use Rattle.flt_flash.specs.Changes.{blank_image, changed_by, AreReached};
ghost use Rattle.flt_flash.specs.PageArrays.{all_pages};

use crate::PageArray;
use crate::array::BLANK;
use std::alloc::{AllocError, Global};

/// A page that was not as at the power-up before.
#[derive(Clone, Copy)]
pub struct PageChange {
    /// Its number; where the image has two sectors the pages of the second are counted on from those of the first.
    pub page: u32,
    /// What it held.
    pub bytes: [u8; 32],
}

/// A power-up.
#[derive(Clone, Copy)]
pub struct BootMark {
    /// The count of faults at its moment.
    pub faults: u64,
    /// How many of the changes lead from a blank image to the one that it found.
    pub changes: u64,
}

/// The power-ups of a device in memory: of each the pages that changed since the one before. All room is reserved when it is made.
#[derive(Drop)]
pub struct Boots {
    /// The power-ups.
    pub marks: Vec<BootMark>,
    /// The changes of all of them, in order.
    pub changes: Vec<PageChange>,
    /// The first sector as the last power-up found it, and a blank one at first.
    pub first: PageArray,
    /// The second sector, of no page where the device has one sector alone.
    pub second: PageArray,
    /// How many power-ups there may be.
    pub most: u16,
    ghost most_fits: { most < 65536 },
    ghost size: { first.count + second.count < 2 ^ 32 },
    ghost fit: { length marks.items ≤ most },
    ghost marks_room: { most ≤ vec_capacity marks },
    ghost changes_room: { most * (first.count + second.count) ≤ vec_capacity changes },
    ghost changes_fit: { length changes.items ≤ length marks.items * (first.count + second.count) },
    ghost reached: { AreReached (length changes.items) marks.items },
    ghost last_is: { all_pages first ++ all_pages second ≡ changed_by (blank_image (first.count + second.count)) changes.items },
}

impl Boots {
    ghost use Rattle.flt_flash.specs.Boots.{boots_of, left_of, AddsOne, pages_then};

    /// The room of this many power-ups of a device of two sectors of this many pages, which is filled as they come. The error
    /// means that memory ran out.
    pub fn reserved(
        alloc: Global,
        first: usize,
        second: usize,
        boots: u16,
    ) -> Result<Boots, AllocError>
        requires { first + second < 2 ^ 32 }
        ensures none { IfOk result (λ made. made.marks.items ≡ []) }
        ensures left { IfOk result (λ made. left_of made ≡ boots) }
        ensures first { IfOk result (λ made. made.first.count ≡ first) }
        ensures second { IfOk result (λ made. made.second.count ≡ second) }
    {
        let marks = Vec::with_capacity(alloc, boots as usize)?;
        let changes = Vec::with_capacity(alloc, boots as usize * (first + second))?;
        let first = PageArray::blank(alloc, first)?;
        let second = PageArray::blank(alloc, second)?;
        Ok(Boots {
            marks,
            changes,
            first,
            second,
            most: boots,
        })
    }

    /// How many power-ups were saved.
    pub fn used(&self) -> u16
        ensures { result ≡ length self.now.marks.items }
    {
        self.marks.len() as u16
    }

    /// How many may still come.
    pub fn left(&self) -> u16
        ensures { result ≡ left_of self.now }
    {
        self.most - self.marks.len() as u16
    }

    /// Saves a power-up of a device of these two sectors.
    pub fn save(&mut self, faults: u64, first: &PageArray, second: &PageArray)
        requires left { 0 < left_of self.old }
        requires first { first.now.count ≡ self.old.first.count }
        requires second { second.now.count ≡ self.old.second.count }
        ensures { AddsOne faults (all_pages first.now ++ all_pages second.now) self.old self.new }
    {
        keep_changes(&mut self.first, &mut self.changes, 0, first);
        keep_changes(&mut self.second, &mut self.changes, first.count, second);
        self.marks.push_reserved(BootMark {
            faults,
            changes: self.changes.len() as u64,
        });
    }

    /// A page as the power-up of this number found it, the first one being number 0.
    pub fn page(&self, boot: u16, page: usize) -> &[u8; 32]
        requires boot { boot < length self.now.marks.items }
        requires page { page < self.now.first.count + self.now.second.count }
        ensures { (none : BootMark) → result.now ≡ slice_index_or (pages_then self.now (slice_index_or self.now.marks.items boot none).changes) page [] }
    {
        let mut found = &BLANK;
        for index in 0..self.marks[boot as usize].changes as usize {
            let change = &self.changes[index];
            if change.page as usize == page {
                found = &change.bytes;
            }
        }
        found
    }
}

/// Takes the pages that are not as in the sector kept: into it, and after the changes, where its first page has the number `from`.
fn keep_changes(last: &mut PageArray, changes: &mut Vec<PageChange>, from: usize, pages: &PageArray)
    requires same { pages.now.count ≡ last.old.count }
    requires size { from + last.old.count < 2 ^ 32 }
    requires room { length changes.old.items + last.old.count ≤ vec_capacity changes.old }
    ensures count { last.new.count ≡ last.old.count }
    ensures pages { all_pages last.new ≡ all_pages pages.now }
    ensures few { length changes.new.items ≤ length changes.old.items + last.old.count }
    ensures behind { (added : List PageChange) × (changes.new.items ≡ changes.old.items ++ added) }
    ensures lead { (blank before after : List (List ℕ)) → length before ≡ from
        → changed_by blank changes.old.items ≡ before ++ (all_pages last.old ++ after)
        → changed_by blank changes.new.items ≡ before ++ (all_pages last.new ++ after) }
    ensures room { vec_capacity changes.old ≤ vec_capacity changes.new }
{
    let reached = last.front.len().max(pages.front.len());
    for index in 0..reached {
        keep_change(last, changes, from, index, pages.page(index));
    }
}

/// Takes a page if it is not as in the sector kept.
fn keep_change(
    last: &mut PageArray,
    changes: &mut Vec<PageChange>,
    from: usize,
    page: usize,
    bytes: &[u8; 32],
)
    requires within { page < last.old.count }
    requires size { from + page < 2 ^ 32 }
    requires room { length changes.old.items < vec_capacity changes.old }
    ensures count { last.new.count ≡ last.old.count }
    ensures pages { all_pages last.new ≡ slice_set (all_pages last.old) page bytes.now }
    ensures few { length changes.new.items ≤ length changes.old.items + 1 }
    ensures behind { (added : List PageChange) × (changes.new.items ≡ changes.old.items ++ added) }
    ensures lead { (blank before after : List (List ℕ)) → length before ≡ from
        → changed_by blank changes.old.items ≡ before ++ (all_pages last.old ++ after)
        → changed_by blank changes.new.items ≡ before ++ (all_pages last.new ++ after) }
    ensures room { vec_capacity changes.old ≤ vec_capacity changes.new }
{
    if *last.page(page) != *bytes {
        last.write(page, bytes, None);
        changes.push_reserved(PageChange {
            page: (from + page) as u32,
            bytes: *bytes,
        });
    }
}
