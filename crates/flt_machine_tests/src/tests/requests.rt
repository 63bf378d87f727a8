//! The requests of the profile, written as a table of their own, against every service, sub-function and length.
ghost use Rattle.std.specs.Prelude.{◌≡◌, length};

use super::{holds, holds_at};
use arrayvec::ArrayVec;
use flt_uds::{
    Asked, Negative, REQUEST_OUT_OF_RANGE, RESPONSE, Request, put_bytes, put_dtc, put_dtc_with,
    put_negative, read,
};

/// A request of the profile: the service, the sub-function where it has one, the two lengths that it may have, and
/// what it asks for where FF FF FF 01 follow.
type Row = (u8, Option<u8>, [usize; 2], Request);

static REQUESTS: [Row; 17] = [
    (
        0x10,
        Some(0x01),
        [2, 2],
        Request::Session { extended: false },
    ),
    (
        0x10,
        Some(0x03),
        [2, 2],
        Request::Session { extended: true },
    ),
    (0x14, None, [4, 4], Request::Clear { dtc: 0xFFFFFF }),
    (0x19, Some(0x01), [3, 3], Request::Count { mask: 0xFF }),
    (0x19, Some(0x02), [3, 3], Request::ByMask { mask: 0xFF }),
    (0x19, Some(0x03), [2, 2], Request::Snapshots),
    (
        0x19,
        Some(0x04),
        [6, 6],
        Request::Snapshot {
            dtc: 0xFFFFFF,
            number: 0x01,
        },
    ),
    (
        0x19,
        Some(0x06),
        [6, 6],
        Request::Extended {
            dtc: 0xFFFFFF,
            number: 0x01,
        },
    ),
    (0x19, Some(0x0A), [2, 2], Request::Supported),
    (0x19, Some(0x0B), [2, 2], Request::Noted { sub: 0x0B }),
    (0x19, Some(0x0C), [2, 2], Request::Noted { sub: 0x0C }),
    (0x19, Some(0x0D), [2, 2], Request::Noted { sub: 0x0D }),
    (0x19, Some(0x0E), [2, 2], Request::Noted { sub: 0x0E }),
    (0x19, Some(0x14), [2, 2], Request::Counters),
    (0x3E, Some(0x00), [2, 2], Request::Present),
    (0x85, Some(0x01), [2, 5], Request::Setting { on: true }),
    (0x85, Some(0x02), [2, 5], Request::Setting { on: false }),
];

/// Whether the table has the service.
fn is_known(service: u8) -> bool {
    for row in &REQUESTS {
        if row.0 == service {
            return true;
        }
    }
    false
}

/// The row of a service, and of a sub-function where it has one.
fn row_of(service: u8, sub: u8) -> Option<&'static Row> {
    for row in &REQUESTS {
        if row.0 == service && (row.1.is_none() || row.1 == Some(sub)) {
            return Some(row);
        }
    }
    None
}

/// What the table has for a request of these first two bytes and this length.
fn by_table(service: u8, second: u8, length: usize, extended: bool) -> Result<Asked, u8> {
    let sub = second & 0x7F;
    let has_sub = service != 0x14;
    if !is_known(service) {
        return Err(0x11);
    }
    if service == 0x85 && !extended {
        return Err(0x7F);
    }
    if has_sub && length == 1 {
        return Err(0x13);
    }
    match row_of(service, sub) {
        None => Err(0x12),
        Some(row) => {
            if row.2[0] != length && row.2[1] != length {
                return Err(0x13);
            }
            let dtc = u32::from(second) * 65_536 + 0xFFFF;
            let request = if has_sub {
                row.3
            } else {
                Request::Clear { dtc }
            };
            Ok(Asked {
                request,
                silent: has_sub && second != sub,
            })
        }
    }
}

/// The answer to a request, with the code alone where it is refused for its own service.
fn answer(bytes: &[u8], extended: bool) -> Result<Asked, u8> {
    if bytes.is_empty() {
        return Err(0);
    }
    match read(bytes, extended) {
        Ok(asked) => Ok(asked),
        Err(negative) => {
            if negative.service == bytes[0] {
                Err(negative.code)
            } else {
                Err(0)
            }
        }
    }
}

/// How many of the lengths 1 to 16 are not answered as the table has it.
fn differences(service: u8, second: u8, extended: bool) -> u32 {
    let mut bytes = [0xFF; 16];
    bytes[0] = service;
    bytes[1] = second;
    bytes[5] = 0x01;
    let mut differences = 0u32;
    for length in 1..17usize {
        if answer(&bytes[..length], extended) != by_table(service, second, length, extended) {
            differences = differences.saturating_add(1);
        }
    }
    differences
}

#[test]
fn every_service_sub_function_and_length_is_answered_by_the_table(rt: HostRuntime) {
    for service in 0..=255u8 {
        for second in 0..=255u8 {
            let are_none = differences(service, second, false) == 0
                && differences(service, second, true) == 0;
            let front = u32::from(service) * 256 + u32::from(second);
            holds_at(
                &rt,
                are_none,
                "the request that begins with",
                front as usize,
            );
        }
    }
}

/// Whether a request is read as one for this.
fn asks(bytes: &[u8], extended: bool, request: Request, silent: bool) -> bool {
    answer(bytes, extended) == Ok(Asked { request, silent })
}

/// Whether a request is refused with this code.
fn is_refused(bytes: &[u8], extended: bool, code: u8) -> bool {
    answer(bytes, extended) == Err(code)
}

#[test]
fn a_record_is_the_first_the_second_or_both(rt: HostRuntime) {
    let dtc = 0x123456;
    for number in 0..=255u8 {
        let first = [0x19, 0x04, 0x12, 0x34, 0x56, number];
        let second = [0x19, 0x86, 0x12, 0x34, 0x56, number];
        let is_so = if number == 1 || number == 2 || number == 255 {
            asks(&first, false, Request::Snapshot { dtc, number }, false)
                && asks(&second, true, Request::Extended { dtc, number }, true)
        } else {
            is_refused(&first, false, 0x31) && is_refused(&second, true, 0x31)
        };
        holds_at(&rt, is_so, "the record", number as usize);
    }
}

#[test]
fn the_option_bytes_of_a_setting_are_all_ff(rt: HostRuntime) {
    for byte in 0..=254u8 {
        let are_refused = is_refused(&[0x85, 0x01, byte, 0xFF, 0xFF], true, 0x31)
            && is_refused(&[0x85, 0x02, 0xFF, byte, 0xFF], true, 0x31)
            && is_refused(&[0x85, 0x82, 0xFF, 0xFF, byte], true, 0x31)
            && is_refused(&[0x85, 0x02, 0xFF, 0xFF, byte], false, 0x7F);
        holds_at(&rt, are_refused, "the option byte", byte as usize);
    }
}

#[test]
fn every_mask_and_dtc_is_handed_on(rt: HostRuntime) {
    for mask in 0..=255u8 {
        let dtc = 0x010000 + u32::from(mask) * 256 + 0xFE;
        let clear = [0x14, 0x01, mask, 0xFE];
        let are_handed_on = asks(&[0x19, 0x01, mask], false, Request::Count { mask }, false)
            && asks(&[0x19, 0x82, mask], false, Request::ByMask { mask }, true)
            && asks(&clear, false, Request::Clear { dtc }, false);
        holds_at(&rt, are_handed_on, "the mask", mask as usize);
    }
}

/// A negative response, a DTC with its status, a byte and a DTC.
static FRONT: [u8; 11] = [
    0x7F, 0x19, 0x31, 0x12, 0x34, 0x56, 0x2F, 0x01, 0x12, 0x34, 0x5A,
];

/// A response with them, put one after the other.
fn front() -> ArrayVec<u8, RESPONSE>
    ensures { length result.items ≡ 11 }
{
    let mut out = ArrayVec::new();
    let service = 0x19;
    let code = REQUEST_OUT_OF_RANGE;
    put_negative(&Negative { service, code }, &mut out);
    put_dtc_with(0x123456, 0x2F, &mut out);
    put_bytes(&[0x01], &mut out);
    put_dtc(0x12345A, &mut out);
    out
}

#[test]
fn puts_append_until_the_response_is_full(rt: HostRuntime) {
    let mut out = front();
    holds(&rt, out.as_slice() == FRONT.as_slice(), "the front");
    put_bytes(&[0xAA; RESPONSE - 11], &mut out);
    let is_full = out.len() == RESPONSE && out[RESPONSE - 1] == 0xAA;
    holds(&rt, is_full, "the last byte");
}
