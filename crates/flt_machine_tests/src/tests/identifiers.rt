//! The table of data identifiers, and the stored functions at the ends of the signals.
use super::{holds, holds_at};
use arrayvec::ArrayVec;
use flt_config::{DIDS, DidUse, SignalIndex};
use flt_did::{
    DidTable, Signals, TableFault, did_0101, did_0102, did_0103, did_0104, did_0105, did_0106,
    did_0107,
};

/// The table of three rows, full of 0101, 0102 and 0103.
fn full() -> DidTable<3> {
    let mut table = DidTable::new();
    let _first = table.add(0x0101, 2, did_0101).is_ok();
    let _second = table.add(0x0102, 2, did_0102).is_ok();
    let _third = table.add(0x0103, 1, did_0103).is_ok();
    table
}

/// The widths by their data identifiers.
static WIDTHS: [(u16, Option<u8>); 4] = [
    (0x0101, Some(2)),
    (0x0102, Some(2)),
    (0x0103, Some(1)),
    (0x0104, None),
];

#[test]
fn refuses_a_second_row_and_a_row_too_many(rt: HostRuntime) {
    let mut table = full();
    let second = table.add(0x0101, 2, did_0101);
    holds(&rt, second == Err(TableFault::DidTwice), "a second row");
    let fourth = table.add(0x0104, 4, did_0104);
    holds(&rt, fourth == Err(TableFault::TableFull), "a fourth row");
    for (id, width) in &WIDTHS {
        holds_at(
            &rt,
            table.width(*id) == *width,
            "the width of",
            *id as usize,
        );
    }
}

/// Signals of which two are not 0.
fn signals() -> Signals {
    let mut signals = Signals::zero();
    signals.set(SignalIndex::new(0), 258);
    signals.set(SignalIndex::new(2), 7);
    signals
}

#[test]
fn a_frame_has_its_values_in_order(rt: HostRuntime) {
    let mut table: DidTable<3> = DidTable::new();
    assert!(&rt; table.add(0x0101, 2, did_0101).is_ok());
    assert!(&rt; table.add(0x0103, 1, did_0103).is_ok());
    let mut uses: ArrayVec<DidUse, DIDS> = ArrayVec::new();
    uses.push(DidUse {
        id: 0x0103,
        width: 1,
    });
    uses.push(DidUse {
        id: 0x0101,
        width: 2,
    });
    let frame = table.frame(&uses, &signals());
    let is_in_order = frame.as_slice() == [0x07, 0x01, 0x02].as_slice();
    holds(&rt, is_in_order, "the frame");
}

/// The signals, all at their greatest.
fn greatest() -> Signals {
    let mut signals = Signals::zero();
    for index in 0..8u8 {
        signals.set(SignalIndex::new(index), 65535);
    }
    signals
}

#[test]
fn tells_the_values_at_the_ends_of_the_signals(rt: HostRuntime) {
    let signals = Signals::zero();
    let are_zero = did_0105(&signals) == 0 && did_0107(&signals) == 0;
    holds(&rt, are_zero, "of signals that are 0");
    let signals = greatest();
    holds(&rt, did_0101(&signals) == 65535, "0101");
    holds(&rt, did_0102(&signals) == 65535, "0102");
    holds(&rt, did_0103(&signals) == 255, "0103");
    holds(&rt, did_0104(&signals) == 4_294_967_295, "0104");
    holds(&rt, did_0105(&signals) == 255, "0105");
    holds(&rt, did_0106(&signals) == 65535, "0106");
    let whole = 18_446_744_073_709_551_615;
    holds(&rt, did_0107(&signals) == whole, "0107");
}
