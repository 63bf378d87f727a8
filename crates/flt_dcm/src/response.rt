//! The positive response to a request that was read (ISO 14229-1, in this profile).
ghost use Rattle.std.specs.Prelude.{◌≡◌, ◌<◌, [], length, filter, find, position, Some, None, OnOk, OnErr, IfOk};
ghost use Rattle.std.specs.Result.{result_ok};
ghost use Rattle.flt_config.specs.Validity.{has_dtc};
ghost use Rattle.flt_model.specs.Response.{is_masked, is_of_dtc, positive, sub_of_session, sub_of_setting};
ghost use Rattle.flt_dem.specs.View.{manager_view};
ghost use Rattle.flt_dem.specs.Notes.{noted_by};
ghost use Rattle.flt_dem.specs.View.{noted_at};
ghost use Rattle.flt_dcm.specs.Requests.{IsEventOf};
ghost use Rattle.flt_dcm.specs.Unknown.{ClearsNone};

use crate::listing::{AVAILABILITY_MASK, Listing, event_count, is_masked, put_status, put_stored};
use crate::record::{put_extended_data, put_snapshots};
use arrayvec::ArrayVec;
use flt_dem::{DemState, Which};
use flt_uds::{RESPONSE, Request, put_bytes};

/// The group of all DTCs.
pub(crate) const ALL_DTCS: u32 = 0xFFFFFF;

/// No event has the DTC.
#[derive(Clone, Copy)]
pub(crate) struct UnknownDtc;

/// The event that has a DTC.
pub(crate) fn event_of(dem: &DemState, dtc: u32) -> Result<u16, UnknownDtc>
    ensures position { result_ok result ≡ position (has_dtc dtc) dem.now.durable.config.events.items }
    ensures known { IfOk result (IsEventOf dtc dem.now) }
    ensures unknown { OnErr result (find (is_of_dtc dtc) (manager_view dem.now).events ≡ None) }
{
    match dem.find(dtc) {
        Some(event) => Ok(event),
        None => Err(UnknownDtc),
    }
}

/// The sub-function of a session.
fn sub_of_session(extended: bool) -> u8
    ensures { result ≡ sub_of_session extended }
{
    if extended { 0x03 } else { 0x01 }
}

/// The sub-function of a setting.
fn sub_of_setting(on: bool) -> u8
    ensures { result ≡ sub_of_setting on }
{
    if on { 0x01 } else { 0x02 }
}

/// The number of events whose status has a bit in common with a mask.
fn count_masked(dem: &DemState, mask: u8) -> u16
    ensures { result ≡ length (filter (is_masked mask) (manager_view dem.now).events) }
{
    let mut count = 0;
    for event in 0..event_count(dem) {
        if is_masked(dem, event, mask) {
            count += 1;
        }
    }
    count
}

/// Which noted event a sub-function asks for.
fn which_of(sub: u8) -> Which
    ensures { (dem : DemState) → noted_by result dem.durable.notes ≡ noted_at dem.durable.notes sub }
{
    match sub {
        0x0B => Which::FirstFailed,
        0x0C => Which::FirstConfirmed,
        0x0D => Which::RecentFailed,
        _ => Which::RecentConfirmed,
    }
}

/// Writes the number of DTCs whose status has a bit in common with a mask, after the mask of supported bits and the DTC
/// format identifier of ISO 14229-1 (0x01).
fn put_count(dem: &DemState, mask: u8, out: &mut ArrayVec<u8, RESPONSE>)
    requires { out.old.items ≡ [] }
    ensures { positive (manager_view dem.now) (Request.Count mask) ≡ Some out.new.items }
{
    let [high, low] = count_masked(dem, mask).to_be_bytes();
    put_bytes(&[0x59, 0x01, AVAILABILITY_MASK, 0x01, high, low], out);
}

/// Writes the noted DTC with its status, if one is noted.
fn put_noted(dem: &DemState, sub: u8, out: &mut ArrayVec<u8, RESPONSE>)
    requires { out.old.items ≡ [] }
    ensures { positive (manager_view dem.now) (Request.Noted sub) ≡ Some out.new.items }
{
    put_bytes(&[0x59, sub, AVAILABILITY_MASK], out);
    if let Some(event) = dem.noted(which_of(sub)) {
        if event < event_count(dem) {
            put_status(dem, event, out);
        }
    }
}

/// Writes that a DTC, or all DTCs, are cleared.
fn put_clear(dem: &DemState, dtc: u32, out: &mut ArrayVec<u8, RESPONSE>) -> Result<(), UnknownDtc>
    requires { out.old.items ≡ [] }
    ensures ok { OnOk result (positive (manager_view dem.now) (Request.Clear dtc) ≡ Some out.new.items) }
    ensures err { OnErr result (positive (manager_view dem.now) (Request.Clear dtc) ≡ None) }
    ensures unknown { OnErr result (ClearsNone dem.now (Request.Clear dtc)) }
{
    if dtc == ALL_DTCS {
        put_bytes(&[0x54], out);
        return Ok(());
    }
    event_of(dem, dtc)?;
    put_bytes(&[0x54], out);
    Ok(())
}

/// Writes the requested snapshot records of a DTC.
fn put_snapshots_of(
    dem: &DemState,
    dtc: u32,
    number: u8,
    out: &mut ArrayVec<u8, RESPONSE>,
) -> Result<(), UnknownDtc>
    requires { out.old.items ≡ [] }
    ensures ok { OnOk result (positive (manager_view dem.now) (Request.Snapshot dtc number) ≡ Some out.new.items) }
    ensures err { OnErr result (positive (manager_view dem.now) (Request.Snapshot dtc number) ≡ None) }
{
    let event = event_of(dem, dtc)?;
    put_bytes(&[0x59, 0x04], out);
    put_status(dem, event, out);
    put_snapshots(dem, event, number, out);
    Ok(())
}

/// Writes the requested extended data of a DTC.
fn put_extended_data_of(
    dem: &DemState,
    dtc: u32,
    number: u8,
    out: &mut ArrayVec<u8, RESPONSE>,
) -> Result<(), UnknownDtc>
    requires { out.old.items ≡ [] }
    ensures ok { OnOk result (positive (manager_view dem.now) (Request.Extended dtc number) ≡ Some out.new.items) }
    ensures err { OnErr result (positive (manager_view dem.now) (Request.Extended dtc number) ≡ None) }
{
    let event = event_of(dem, dtc)?;
    put_bytes(&[0x59, 0x06], out);
    put_status(dem, event, out);
    put_extended_data(dem, event, number, out);
    Ok(())
}

/// Writes the positive response to a request. If its DTC is unknown there is no such response, and nothing is written.
pub(crate) fn put_positive(
    dem: &DemState,
    request: Request,
    out: &mut ArrayVec<u8, RESPONSE>,
) -> Result<(), UnknownDtc>
    requires { out.old.items ≡ [] }
    ensures ok { OnOk result (positive (manager_view dem.now) request ≡ Some out.new.items) }
    ensures err { OnErr result (positive (manager_view dem.now) request ≡ None) }
    ensures unknown { OnErr result (ClearsNone dem.now request) }
{
    match request {
        Request::Session { extended } => {
            put_bytes(
                &[0x50, sub_of_session(extended), 0x00, 0x32, 0x01, 0xF4],
                out,
            );
            Ok(())
        }
        Request::Present => {
            put_bytes(&[0x7E, 0x00], out);
            Ok(())
        }
        Request::Clear { dtc } => put_clear(dem, dtc, out),
        Request::Setting { on } => {
            put_bytes(&[0xC5, sub_of_setting(on)], out);
            Ok(())
        }
        Request::Count { mask } => {
            put_count(dem, mask, out);
            Ok(())
        }
        Request::ByMask { mask } => {
            Listing::ByMask(mask).put(dem, out);
            Ok(())
        }
        Request::Snapshots => {
            put_stored(dem, out);
            Ok(())
        }
        Request::Snapshot { dtc, number } => put_snapshots_of(dem, dtc, number, out),
        Request::Extended { dtc, number } => put_extended_data_of(dem, dtc, number, out),
        Request::Supported => {
            Listing::Supported.put(dem, out);
            Ok(())
        }
        Request::Noted { sub } => {
            put_noted(dem, sub, out);
            Ok(())
        }
        Request::Counters => {
            Listing::Counters.put(dem, out);
            Ok(())
        }
    }
}
