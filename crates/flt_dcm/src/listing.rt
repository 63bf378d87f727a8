//! Lists of DTCs, in order of event number (ISO 14229-1, service 0x19, sub-functions 0x02, 0x03, 0x0A and 0x14).
ghost use Rattle.std.specs.Prelude.{◌≡◌, ◌<◌, ◌≤◌, ◌+◌, ◌++◌, ◌∷◌, [], length, is_some};
ghost use Rattle.std.specs.List.{flat_map};
ghost use Rattle.flt_model.specs.Response.{is_masked, is_prefailed, with_status, with_counter, records_of};
ghost use Rattle.flt_dem.specs.View.{event_seen, rules_of, manager_view};
ghost use Rattle.flt_dcm.specs.Listing.{listed, head_of};

use arrayvec::ArrayVec;
use flt_config::{ENTRIES, EVENTS};
use flt_dem::DemState;
use flt_uds::{RESPONSE, put_bytes, put_dtc_with};

/// The status bits that this server supports: all of them (DTCStatusAvailabilityMask).
pub(crate) const AVAILABILITY_MASK: u8 = 0xFF;

/// A list of DTCs.
#[derive(Clone, Copy)]
pub(crate) enum Listing {
    /// Those whose status has a bit in common with the mask, each with its status.
    ByMask(u8),
    /// All, each with its status.
    Supported,
    /// Those whose fault detection counter is from 1 to 126, each with this counter.
    Counters,
}

/// The number of configured events.
pub(crate) fn event_count(dem: &DemState) -> u16
    ensures count { result ≡ length dem.now.durable.config.events.items }
    ensures events { result ≤ EVENTS }
    ensures entries { length dem.now.durable.memory.entries ≤ ENTRIES }
{
    dem.config().config().events.len() as u16
}

/// The DTC of an event.
pub(crate) fn dtc_of(dem: &DemState, event: u16) -> u32
    requires { event < length dem.now.durable.config.events.items }
    ensures dtc { result ≡ (rules_of dem.now event).dtc }
    ensures three { result ≤ 0xFFFFFE }
{
    dem.config().config().events[event as usize].dtc
}

/// Whether the status of an event has a bit in common with a mask.
pub(crate) fn is_masked(dem: &DemState, event: u16, mask: u8) -> bool
    requires { event < length dem.now.durable.config.events.items }
    ensures { result ≡ is_masked mask (event_seen dem.now event) }
{
    dem.state(event).status & mask != 0
}

/// Appends the DTC of an event and its status byte.
pub(crate) fn put_status(dem: &DemState, event: u16, out: &mut ArrayVec<u8, RESPONSE>)
    requires event { event < length dem.now.durable.config.events.items }
    requires room { length out.old.items + 4 ≤ RESPONSE }
    ensures { out.new.items ≡ out.old.items ++ with_status (event_seen dem.now event) }
{
    put_dtc_with(dtc_of(dem, event), dem.state(event).status, out);
}

/// Appends the two snapshot record numbers of an event, if it has an entry.
fn put_records(dem: &DemState, event: u16, has_entry: bool, out: &mut ArrayVec<u8, RESPONSE>)
    requires event { event < length dem.now.durable.config.events.items }
    requires entry { has_entry ≡ is_some (event_seen dem.now event).entry }
    requires room { length out.old.items + length (records_of (event_seen dem.now event)) ≤ RESPONSE }
    ensures { out.new.items ≡ out.old.items ++ records_of (event_seen dem.now event) }
{
    if has_entry {
        let dtc = dtc_of(dem, event);
        put_dtc_with(dtc, 0x01, out);
        put_dtc_with(dtc, 0x02, out);
    }
}

/// Appends the DTC of an event and its fault detection counter, if that is on its way to failed.
fn put_counter(dem: &DemState, event: u16, out: &mut ArrayVec<u8, RESPONSE>)
    requires event { event < length dem.now.durable.config.events.items }
    requires room { length out.old.items + length (listed Listing.Counters (event_seen dem.now event)) ≤ RESPONSE }
    ensures { out.new.items ≡ out.old.items ++ listed Listing.Counters (event_seen dem.now event) }
{
    let counter = dem.detection_counter(event);
    if 0 < counter && counter < 127 {
        put_dtc_with(dtc_of(dem, event), counter.unsigned_abs(), out);
    }
}

impl Listing {
    /// Appends the beginning of a response with the list.
    fn put_head(self, out: &mut ArrayVec<u8, RESPONSE>)
        requires { length out.old.items + length (head_of self) ≤ RESPONSE }
        ensures { out.new.items ≡ out.old.items ++ head_of self }
    {
        match self {
            Listing::ByMask(_) => put_bytes(&[0x59, 0x02, AVAILABILITY_MASK], out),
            Listing::Supported => put_bytes(&[0x59, 0x0A, AVAILABILITY_MASK], out),
            Listing::Counters => put_bytes(&[0x59, 0x14], out),
        }
    }

    /// Appends what the list has of an event.
    fn put_event(self, dem: &DemState, event: u16, out: &mut ArrayVec<u8, RESPONSE>)
        requires event { event < length dem.now.durable.config.events.items }
        requires room { length out.old.items + length (listed self (event_seen dem.now event)) ≤ RESPONSE }
        ensures { out.new.items ≡ out.old.items ++ listed self (event_seen dem.now event) }
    {
        match self {
            Listing::ByMask(mask) => {
                if is_masked(dem, event, mask) {
                    put_status(dem, event, out);
                }
            }
            Listing::Supported => put_status(dem, event, out),
            Listing::Counters => put_counter(dem, event, out),
        }
    }

    /// Appends the beginning of a response with the list, and what the list has of each event in turn.
    pub fn put(self, dem: &DemState, out: &mut ArrayVec<u8, RESPONSE>)
        requires { length out.old.items ≡ 0 }
        ensures { out.new.items ≡ head_of self ++ flat_map (listed self) (manager_view dem.now).events }
    {
        self.put_head(out);
        for event in 0..event_count(dem) {
            self.put_event(dem, event, out);
        }
    }
}

/// Writes the response of the DTCs with an entry, each with its two snapshot record numbers. One pass over the entries
/// finds the events that have one.
pub(crate) fn put_stored(dem: &DemState, out: &mut ArrayVec<u8, RESPONSE>)
    requires { length out.old.items ≡ 0 }
    ensures { out.new.items ≡ (0x59 ∷ 0x03 ∷ []) ++ flat_map records_of (manager_view dem.now).events }
{
    put_bytes(&[0x59, 0x03], out);
    let stored = dem.stored();
    let count = event_count(dem);
    for event in 0..count {
        put_records(dem, event, stored[event as usize], out);
    }
}
