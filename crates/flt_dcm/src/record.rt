//! The records of one DTC (ISO 14229-1, service 0x19, sub-functions 0x04 and 0x06).
ghost use Rattle.std.specs.Prelude.{◌≡◌, ◌<◌, ◌≤◌, ◌+◌, ◌++◌, [], ◌∷◌, length, Some};
ghost use Rattle.flt_config.specs.Ranges.{frame_width};
ghost use Rattle.flt_model.specs.Response.{selects, where_selected, identified_values, snapshot, snapshots, extended_data};
ghost use Rattle.flt_dem.specs.View.{event_seen};

use arrayvec::ArrayVec;
use flt_config::{DIDS, DidUse, EntryState, FRAME};
use flt_dem::DemState;
use flt_uds::{RESPONSE, put_bytes};

/// The first snapshot record, and the extended data record of the occurrences.
const FIRST: u8 = 0x01;

/// The most recent snapshot record, and the extended data record of the clean cycles.
const SECOND: u8 = 0x02;

/// Both records.
const BOTH: u8 = 0xFF;

/// The bytes before the records: the service, the sub-function, the DTC and its status.
const HEAD: usize = 6;

/// Whether a record number asks for this record.
fn selects(number: u8, which: u8) -> bool
    ensures { result ≡ selects number which }
{
    number == which || number == BOTH
}

/// Appends each data identifier with its value in the frame.
fn put_values(dids: &[DidUse], frame: &[u8], out: &mut ArrayVec<u8, RESPONSE>)
    requires { length out.old.items + length (identified_values dids.now frame.now) ≤ RESPONSE }
    ensures { out.new.items ≡ out.old.items ++ identified_values dids.now frame.now }
{
    let mut rest = frame;
    for did in dids {
        let (value, behind) = rest.split_at((did.width as usize).min(rest.len()));
        put_bytes(&did.id.to_be_bytes(), out);
        put_bytes(value, out);
        rest = behind;
    }
}

/// Appends a snapshot record, if the record number asks for it: its number, the number of its data identifiers, and
/// each of these with its value.
fn put_snapshot(
    number: u8,
    which: u8,
    dids: &[DidUse],
    frame: &[u8],
    out: &mut ArrayVec<u8, RESPONSE>,
)
    requires few { length dids.now ≤ DIDS }
    requires room { length out.old.items + length (where_selected number which (snapshot dids.now which frame.now)) ≤ RESPONSE }
    ensures { out.new.items ≡ out.old.items ++ where_selected number which (snapshot dids.now which frame.now) }
{
    if selects(number, which) {
        put_bytes(&[which, dids.len() as u8], out);
        put_values(dids, frame, out);
    }
}

/// Appends the snapshot records of an entry that the record number asks for.
fn put_frames(entry: &EntryState, number: u8, dids: &[DidUse], out: &mut ArrayVec<u8, RESPONSE>)
    requires few { length dids.now ≤ DIDS }
    requires narrow { frame_width dids.now ≤ FRAME }
    requires room { length out.old.items ≤ HEAD }
    ensures { out.new.items ≡ out.old.items ++ snapshots dids.now number (Some entry.now) }
{
    put_snapshot(number, FIRST, dids, &entry.first, out);
    put_snapshot(number, SECOND, dids, &entry.recent, out);
}

/// The data identifiers of an event.
fn dids_of(dem: &DemState, event: u16) -> &[DidUse]
    requires { event < length dem.now.durable.config.events.items }
    ensures dids { result.now ≡ (event_seen dem.now event).dids }
    ensures few { length result.now ≤ DIDS }
    ensures narrow { frame_width result.now ≤ FRAME }
{
    &dem.config().config().events[event as usize].dids
}

/// Appends the snapshot records of an event that the record number asks for, if it has an entry.
pub(crate) fn put_snapshots(
    dem: &DemState,
    event: u16,
    number: u8,
    out: &mut ArrayVec<u8, RESPONSE>,
)
    requires event { event < length dem.now.durable.config.events.items }
    requires room { length out.old.items ≤ HEAD }
    ensures { out.new.items ≡ out.old.items ++ snapshots (event_seen dem.now event).dids number (event_seen dem.now event).entry }
{
    if let Some(entry) = dem.entry(event) {
        put_frames(entry, number, dids_of(dem, event), out);
    }
}

/// Appends a record of extended data of one byte, if the record number asks for it.
fn put_datum(number: u8, which: u8, datum: u8, out: &mut ArrayVec<u8, RESPONSE>)
    requires { length out.old.items + 2 ≤ RESPONSE }
    ensures { out.new.items ≡ out.old.items ++ where_selected number which (which ∷ datum ∷ []) }
{
    if selects(number, which) {
        put_bytes(&[which, datum], out);
    }
}

/// Appends the extended data of an event that the record number asks for, if it has an entry: how often it
/// occurred, and how many clean cycles have ended since it failed, at most 255.
pub(crate) fn put_extended_data(
    dem: &DemState,
    event: u16,
    number: u8,
    out: &mut ArrayVec<u8, RESPONSE>,
)
    requires event { event < length dem.now.durable.config.events.items }
    requires room { length out.old.items ≤ HEAD }
    ensures { out.new.items ≡ out.old.items ++ extended_data (event_seen dem.now event).state number (event_seen dem.now event).entry }
{
    if let Some(entry) = dem.entry(event) {
        let clean = dem.state(event).clean.min(255) as u8;
        put_datum(number, FIRST, entry.occurrence, out);
        put_datum(number, SECOND, clean, out);
    }
}
