//! The block numbers of a driver.
ghost use Rattle.std.specs.Prelude.{◌≡◌, ◌≢◌, ◌<◌, ◌==◌, ℕ, length, IfOk, IfSome, IfNone, Some, slice_index_or};
ghost use Rattle.std.specs.List.{list_any};

use std::alloc::{AllocError, Global};
use std::marker::Model;

/// A block number, and its position among those that were given.
#[derive(Clone, Copy)]
struct Row {
    number: u16,
    index: usize,
}

/// The block numbers of a driver in the order in which they were given, with an index by which a number below 1,024 is found at once,
/// and any other in as many steps as halvings of the list.
#[derive(Drop)]
pub struct Numbers {
    given: Vec<u16>,
    rows: Vec<Row>,
    hints: Vec<u16>,
}

/// The numbers that have a hint are those below this one.
const HINTS: usize = 1024;

/// A hint for each number below `HINTS`: at which row it is, if it has one. A wrong hint costs a search, and no answer rests on it.
fn hints_of(alloc: Global, rows: &[Row]) -> Result<Vec<u16>, AllocError> {
    let mut hints = Vec::with_capacity(alloc, HINTS)?;
    hints.resize(HINTS, 0)?;
    for (at, row) in rows.iter().enumerate() {
        let number = row.number as usize;
        if number < hints.len() && at < 65536 {
            hints[number] = at as u16;
        }
    }
    Ok(hints)
}

impl Model for Numbers {
    ghost use Rattle.std.specs.Prelude.{List, ℕ};

    ghost Value = { List ℕ };

    ghost use Rattle.flt_pages.specs.Numbers.{given_of, IsIndexed};

    ghost view = { given_of };

    ghost invariant = { IsIndexed };
}

impl Numbers {
    ghost use Rattle.flt_pages.specs.Next.{IsLeastFrom};

    /// These numbers, with their index. The error means that memory ran out.
    pub fn make(alloc: Global, given: Vec<u16>) -> Result<Numbers, AllocError>
        ensures { IfOk result (λ numbers. numbers ≡ given.items) }
    {
        let mut rows = Vec::with_capacity(alloc, given.len())?;
        for (index, number) in given.iter().enumerate() {
            rows.push(Row {
                number: *number,
                index,
            })?;
        }
        rows.sort_unstable_by_key(|row| row.number);
        let hints = hints_of(alloc, &rows)?;
        Ok(Numbers { given, rows, hints })
    }

    /// How many numbers there are.
    pub fn len(&self) -> usize
        ensures { result ≡ length self.now }
    {
        self.given.len()
    }

    /// The number at this index.
    pub fn at(&self, index: usize) -> u16
        requires { index < length self.now }
        ensures { result ≡ slice_index_or self.now index 0 }
    {
        self.given[index]
    }

    /// The index of a block whose hint is right.
    #[inline(always)]
    fn hinted(&self, block: u16) -> Option<usize>
        ensures { IfSome result (λ index. (index < length self.now) × (slice_index_or self.now index 0 ≡ block)) }
    {
        let hint = *self.hints.get(block as usize)?;
        let row = self.rows.get(hint as usize)?;
        if row.number == block {
            Some(row.index)
        } else {
            None
        }
    }

    /// The index of a block among the numbers.
    pub fn index_of(&self, block: u16) -> Option<usize>
        ensures found { IfSome result (λ index. (index < length self.now) × (slice_index_or self.now index 0 ≡ block)) }
        ensures none { IfNone result ((k : ℕ) → k < length self.now → slice_index_or self.now k 0 ≢ block) }
    {
        if let Some(index) = self.hinted(block) {
            return Some(index);
        }
        match self.rows.binary_search_by_key(&block, |row| row.number) {
            Ok(at) => Some(self.rows[at].index),
            Err(_) => None,
        }
    }

    /// Whether a block is one of the numbers.
    pub fn contains(&self, block: u16) -> bool
        ensures { result ≡ list_any (λ number. number == block) self.now }
    {
        self.index_of(block).is_some()
    }

    /// The number after `from - 1` in ascending order, where the hint of that is right and the number is `from` or more.
    #[inline(always)]
    fn hinted_from(&self, from: u32) -> Option<u16>
        ensures { IfSome result (λ number. IsLeastFrom from self.now (Some number)) }
    {
        let before = from.checked_sub(1)?;
        let hint = *self.hints.get(before as usize)? as usize;
        let row = self.rows.get(hint)?;
        let next = self.rows.get(hint + 1)?;
        if u32::from(row.number) < from && from <= u32::from(next.number) {
            Some(next.number)
        } else {
            None
        }
    }

    /// The least of the numbers from `from` on.
    pub fn next_from(&self, from: u32) -> Option<u16>
        ensures { IsLeastFrom from self.now result }
    {
        if let Some(number) = self.hinted_from(from) {
            return Some(number);
        }
        let at = self
            .rows
            .partition_point(|row| u32::from(row.number) < from);
        if at < self.rows.len() {
            Some(self.rows[at].number)
        } else {
            None
        }
    }
}
