//! The table of subscribers, and the values of the three kinds.
use super::holds;
use flt_notify::{Change, SubFault, SubTable, note_0, note_1, note_2};

#[test]
fn refuses_a_kind_twice_and_a_row_too_many(rt: HostRuntime) {
    let mut table: SubTable<2> = SubTable::new();
    holds(&rt, table.value(0).is_none(), "an empty table");
    holds(&rt, table.add(0, note_0).is_ok(), "the first kind");
    let is_twice = table.add(0, note_0) == Err(SubFault::KindTwice);
    holds(&rt, is_twice, "the first kind again");
    holds(&rt, table.add(2, note_2).is_ok(), "the second kind");
    let is_full = table.add(1, note_1) == Err(SubFault::TableFull);
    holds(&rt, is_full, "a third kind");
    let is_twice = table.add(2, note_2) == Err(SubFault::KindTwice);
    holds(&rt, is_twice, "the second kind again");
    let values = (table.value(0), table.value(1), table.value(2));
    holds(&rt, values == (Some(0), None, Some(0)), "the values");
}

#[test]
fn refuses_a_second_kind_in_one_row(rt: HostRuntime) {
    let mut table: SubTable<1> = SubTable::new();
    holds(&rt, table.add(0, note_0).is_ok(), "the first kind");
    let is_full = table.add(1, note_1) == Err(SubFault::TableFull);
    holds(&rt, is_full, "a second kind");
    let is_twice = table.add(0, note_0) == Err(SubFault::KindTwice);
    holds(&rt, is_twice, "the first kind again");
}

/// A change of event 1 from 50 to 2F.
static CHANGE: Change = Change {
    place: 9,
    event: 1,
    before: 0x50,
    after: 0x2F,
};

#[test]
fn values_are_those_of_their_kinds(rt: HostRuntime) {
    let are_counted = note_0(0, &CHANGE) == 1
        && note_0(4_294_967_294, &CHANGE) == 4_294_967_295
        && note_0(4_294_967_295, &CHANGE) == 4_294_967_295;
    holds(&rt, are_counted, "the counts of changes");
    let is_last = note_1(4_294_967_295, &CHANGE) == 0x0001_502F;
    holds(&rt, is_last, "the last change");
    let are_summed = note_2(0, &CHANGE) == 0x0001_502F
        && note_2(1, &CHANGE) == 0x0001_504E
        && note_2(4_294_967_295, &CHANGE) == 0x0001_5010;
    holds(&rt, are_summed, "the checksums");
}
