//! The table of data identifiers.
ghost use Rattle.std.specs.Prelude.{◌≡◌, ℕ, ◌+◌, ◌<◌, ◌≤◌, ◌^◌, ◌↔◌, [], ◌∷◌, ◌++◌, length, Some, Err, IsTrue, OnOk, OnErr, IsSome, IsNone, IfSome, find, option_map, option_copied};
ghost use Rattle.std.specs.Borrow.{Bor};
ghost use Rattle.flt_config.specs.Ranges.{frame_width};
ghost use Rattle.flt_model.specs.Frame.{did_value, big_endian, did_bytes, frame_bytes};
ghost use Rattle.flt_did.specs.declared.signals.Signals.{Signals as SignalValues};
ghost use Rattle.flt_did.specs.Rows.{rows_dids, row_did, is_did};
ghost use Rattle.flt_did.specs.Serves.{HasAll, Serves};

use crate::Signals;
use crate::keyed::find_row;
use crate::row::{Reader, Row};
use arrayvec::ArrayVec;
use flt_config::{DIDS, DidUse, EventCfg, FRAME, Frame};
use thiserror::Error;

/// Why a data identifier is not added. The table stays as it was.
#[derive(Clone, Copy, PartialEq, Eq, Debug, Error)]
pub enum TableFault {
    /// The table already has the identifier.
    #[error("the table already has the data identifier")]
    DidTwice,
    /// The table does not have it, and all its rows are taken.
    #[error("all rows of the table are taken")]
    TableFull,
}

/// The data identifiers that a frame may hold, at most `ROWS`, each with its width in bytes and its
/// function.
#[derive(Drop)]
pub struct DidTable<const ROWS: usize> {
    rows: ArrayVec<Option<Row>, ROWS>,
    ghost filled: { length (rows_dids rows.items) ≡ length rows.items },
}

impl<const ROWS: usize> DidTable<ROWS> {
    ghost use Rattle.flt_did.specs.Table.{dids_of};

    /// A table without data identifiers.
    pub fn new() -> Self
        ensures { dids_of result ≡ [] }
    {
        DidTable {
            rows: ArrayVec::new(),
        }
    }

    /// Adds a data identifier of 1 to 8 bytes. Its function must be callable on all signals, return the
    /// specified value of the identifier, and fit the width: the table keeps these facts
    /// with it.
    pub fn add(&mut self, id: u16, width: u8, read: Reader) -> Result<(), TableFault>
        requires width { (1 ≤ width) × (width ≤ 8) }
        requires callable { (s : Bor SignalValues) → Reader.pre read s }
        requires value { (s : Bor SignalValues) (r : ℕ) → Reader.post read s r → did_value id s.now.values ≡ Some r }
        requires narrow { (s : Bor SignalValues) (r : ℕ) → Reader.post read s r → r < 256 ^ width }
        ensures ok { OnOk result (dids_of self.new ≡ dids_of self.old ++ record { id = id; width = width } ∷ []) }
        ensures err { OnErr result (dids_of self.new ≡ dids_of self.old) }
        ensures twice { (result ≡ Err TableFault.DidTwice) ↔ IsSome (find (is_did id) (dids_of self.old)) }
        ensures full { (result ≡ Err TableFault.TableFull) ↔ (IsNone (find (is_did id) (dids_of self.old)) × (length (dids_of self.old) ≡ ROWS)) }
    {
        if self.width(id).is_some() {
            return Err(TableFault::DidTwice);
        }
        if self.rows.is_full() {
            return Err(TableFault::TableFull);
        }
        self.insert(Row { id, width, read });
        Ok(())
    }

    /// Adds a row whose data identifier the table does not have, where not all its rows are taken.
    pub fn insert(&mut self, row: Row)
        requires new { IsNone (find (is_did row.id) (dids_of self.old)) }
        requires room { length (dids_of self.old) < ROWS }
        ensures { dids_of self.new ≡ dids_of self.old ++ row_did row ∷ [] }
    {
        self.rows.push(Some(row));
    }

    /// The row of a data identifier, if it was added.
    #[tactic(auto, using(crate::proofs::RowsLemmas::found_did))]
    fn row(&self, id: u16) -> Option<&Row>
        ensures found { option_map row_did (option_copied result) ≡ find (is_did id) (dids_of self.now) }
        ensures named { IfSome result (λ row. row.now.id ≡ id) }
    {
        find_row(&self.rows, id)
    }

    /// The width of a data identifier in bytes, if it was added.
    pub fn width(&self, id: u16) -> Option<u8>
        ensures { result ≡ option_map (λ did. did.width) (find (is_did id) (dids_of self.now)) }
    {
        match self.row(id) {
            Some(row) => Some(row.width),
            None => None,
        }
    }

    /// Whether the table has the data identifier, with its width.
    fn has(&self, did: DidUse) -> bool
        ensures { IsTrue result ↔ (find (is_did did.id) (dids_of self.now) ≡ Some did) }
    {
        match self.width(did.id) {
            Some(width) => width == did.width,
            None => false,
        }
    }

    /// Whether the table has each of these data identifiers, with its width.
    pub fn has_all(&self, dids: &[DidUse]) -> bool
        ensures { IsTrue result ↔ HasAll (dids_of self.now) dids.now }
    {
        dids.iter().all(
            |did| -> bool
                ensures { IsTrue result ↔ (find (is_did did.now.id) (dids_of self.entry.now) ≡ Some did.now) }
            { self.has(*did) },
        )
    }

    /// Whether the table has each data identifier of each event, with its width.
    pub fn serves(&self, events: &[EventCfg]) -> bool
        ensures { IsTrue result ↔ Serves (dids_of self.now) events.now }
    {
        events.iter().all(
            |event| -> bool
                ensures { IsTrue result ↔ HasAll (dids_of self.entry.now) event.now.dids.items }
            { self.has_all(&event.dids) },
        )
    }

    /// The values of the data identifiers at these signals, one after another in the order of the
    /// list, each big-endian in its width.
    pub fn frame(&self, dids: &ArrayVec<DidUse, DIDS>, signals: &Signals) -> Frame
        requires present { HasAll (dids_of self.now) dids.now.items }
        requires fits { frame_width dids.now.items ≤ FRAME }
        ensures { result.items ≡ frame_bytes dids.now.items signals.now.values }
    {
        let mut frame = ArrayVec::new();
        for did in dids.as_slice() {
            self.put_value(&mut frame, *did, signals);
        }
        frame
    }

    /// Appends the value of a data identifier of the table at these signals, big-endian in its width.
    fn put_value(&self, frame: &mut Frame, did: DidUse, signals: &Signals)
        requires present { find (is_did did.id) (dids_of self.now) ≡ Some did }
        requires room { length frame.old.items + did.width ≤ FRAME }
        ensures bytes { frame.new.items ≡ frame.old.items ++ did_bytes signals.now.values did }
        ensures length { length frame.new.items ≡ length frame.old.items + did.width }
    {
        match self.row(did.id) {
            Some(row) => {
                let bytes = (row.read)(signals).to_be_bytes();
                frame
                    .try_extend_from_slice(&bytes[8 - row.width as usize..])
                    .unwrap();
            }
            None => unreachable!(),
        }
    }
}
