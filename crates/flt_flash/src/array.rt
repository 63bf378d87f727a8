//! The pages of a sector in memory, of which the blank ones at its end take none.
ghost use Rattle.std.specs.Prelude.{◌≡◌, ◌+◌, ◌≤◌, ◌<◌, [], length, replicate, vec_capacity, Some, IfNone, IfSome, IfOk, OnSome, slice_index_or, slice_set};
ghost use Rattle.flt_flash.specs.declared.arm.Pattern.TheVariants.{Nothing};
ghost use Rattle.flt_flash.specs.Tearing.{IsTornSector};
ghost use Rattle.flt_flash.specs.Image.{blank_page, ArePages};
ghost use Rattle.flt_flash.specs.Arms.{IsProgrammedBy, IsErasedBy};

use crate::Pattern;
use crate::pages::{BLANK_PAGE, pages_of, tear_sector, write_page};
use std::alloc::{AllocError, Global};

/// A page for which no memory was taken.
pub(crate) static BLANK: [u8; 32] = [255; 32];

/// The pages of a sector. Its memory is reserved when it is made, and first touched as far as a page is written.
#[derive(Drop)]
pub struct PageArray {
    /// The pages as far as one was written.
    pub front: Vec<[u8; 32]>,
    /// How many pages there are; those after the front are blank.
    pub count: usize,
    ghost fits: { length front.items ≤ count },
    ghost room: { count ≤ vec_capacity front },
    ghost bytes: { ArePages front.items },
}

impl PageArray {
    ghost use Rattle.flt_flash.specs.PageArrays.{all_pages};

    /// This many blank pages. The error means that memory ran out.
    pub fn blank(alloc: Global, count: usize) -> Result<PageArray, AllocError>
        ensures pages { IfOk result (λ array. all_pages array ≡ replicate count blank_page) }
        ensures count { IfOk result (λ array. array.count ≡ count) }
    {
        let front = Vec::with_capacity(alloc, count)?;
        Ok(PageArray { front, count })
    }

    /// These pages. The error means that memory ran out.
    pub fn of(alloc: Global, pages: &[[u8; 32]]) -> Result<PageArray, AllocError>
        ensures pages { IfOk result (λ array. all_pages array ≡ pages.now) }
        ensures count { IfOk result (λ array. array.count ≡ length pages.now) }
    {
        let front = pages_of(alloc, pages)?;
        Ok(PageArray {
            front,
            count: pages.len(),
        })
    }

    /// A page.
    pub fn page(&self, page: usize) -> &[u8; 32]
        requires { page < self.now.count }
        ensures { result.now ≡ slice_index_or (all_pages self.now) page [] }
    {
        if page < self.front.len() {
            &self.front[page]
        } else {
            &BLANK
        }
    }

    /// Takes memory for this many pages, or more; the pages are as they were.
    fn reach(&mut self, pages: usize)
        requires { pages ≤ self.old.count }
        ensures pages { all_pages self.new ≡ all_pages self.old }
        ensures count { self.new.count ≡ self.old.count }
        ensures reached { pages ≤ length self.new.front.items }
    {
        for _page in self.front.len()..pages {
            self.front.push_reserved(BLANK_PAGE);
        }
    }

    /// Writes a page, or tears it by the pattern.
    pub fn write(&mut self, page: usize, bytes: &[u8; 32], failing: Option<Pattern>)
        requires { page < self.old.count }
        ensures whole { IfNone failing (all_pages self.new ≡ slice_set (all_pages self.old) page bytes.now) }
        ensures torn { OnSome failing (IsTornSector (all_pages self.old) (slice_set (all_pages self.old) page bytes.now) (all_pages self.new)) }
        ensures by_pattern { IfSome failing (λ pattern. IsProgrammedBy pattern (all_pages self.old) page bytes.now (all_pages self.new)) }
        ensures untouched { failing ≡ Some Nothing → all_pages self.new ≡ all_pages self.old }
        ensures count { self.new.count ≡ self.old.count }
    {
        self.reach(page + 1);
        write_page(&mut self.front, page, bytes, failing);
    }

    /// Erases all pages, or tears the erase by the pattern.
    pub fn erase(&mut self, failing: Option<Pattern>)
        ensures whole { IfNone failing (all_pages self.new ≡ replicate (length (all_pages self.old)) blank_page) }
        ensures torn { OnSome failing (IsTornSector (all_pages self.old) (replicate (length (all_pages self.old)) blank_page) (all_pages self.new)) }
        ensures by_pattern { IfSome failing (λ pattern. IsErasedBy pattern (all_pages self.old) (all_pages self.new)) }
        ensures untouched { failing ≡ Some Nothing → all_pages self.new ≡ all_pages self.old }
        ensures count { self.new.count ≡ self.old.count }
    {
        match failing {
            None => self.front.clear(),
            Some(pattern) => {
                self.reach(self.count);
                tear_sector(&mut self.front, pattern);
            }
        }
    }
}
