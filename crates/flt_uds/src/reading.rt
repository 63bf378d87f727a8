//! What the bytes of a request ask for.
ghost use Rattle.std.specs.Prelude.{◌≡◌, ◌<◌, ◌∷◌, IfOk, if◌then◌else◌, length};
ghost use Rattle.flt_model.specs.NegativeCode.{request_out_of_range};
ghost use Rattle.flt_model.specs.Request.{asked, asked_clear, asked_with_sub, contents, dtc_of, is_record_number, refused};
ghost use Rattle.flt_model.specs.declared.request.Asked.{Asked as AskedRequest};
ghost use Rattle.flt_uds.specs.Form.{meant};
ghost use Rattle.flt_uds.specs.Spelling.{IsRequest};

use crate::code::{
    INCORRECT_LENGTH, REQUEST_OUT_OF_RANGE, SERVICE_NOT_SUPPORTED,
    SERVICE_NOT_SUPPORTED_IN_SESSION, SUB_FUNCTION_NOT_SUPPORTED,
};
use crate::form::{CLEAR, DTC_SETTING, Form, form_of, has_sub_functions};
use flt_model::{Asked, Negative, Request};

/// Bit 7 of a sub-function, which suppresses a positive response.
const SUPPRESS: u8 = 0x80;

/// A DTC of three bytes, big-endian.
fn dtc_of(high: u8, middle: u8, low: u8) -> u32
    ensures { result ≡ dtc_of high middle low }
{
    u32::from_be_bytes([0, high, middle, low])
}

/// The record number: the first, the second or both.
fn record_number(number: u8) -> Result<u8, u8>
    ensures { result ≡ (if is_record_number number then Ok number else Err request_out_of_range) }
{
    match number {
        0x01 | 0x02 | 0xFF => Ok(number),
        _ => Err(REQUEST_OUT_OF_RANGE),
    }
}

/// What is asked by the bytes after the sub-function, or the negative code.
fn contents(asked: Form, rest: &[u8]) -> Result<Request, u8>
    ensures { result ≡ contents (meant asked) rest.now }
{
    match (asked, rest) {
        (Form::Plain(request), []) => Ok(request),
        (Form::Count, [mask]) => Ok(Request::Count { mask: *mask }),
        (Form::ByMask, [mask]) => Ok(Request::ByMask { mask: *mask }),
        (Form::Snapshot, [high, middle, low, number]) => {
            let number = record_number(*number)?;
            let dtc = dtc_of(*high, *middle, *low);
            Ok(Request::Snapshot { dtc, number })
        }
        (Form::Extended, [high, middle, low, number]) => {
            let number = record_number(*number)?;
            let dtc = dtc_of(*high, *middle, *low);
            Ok(Request::Extended { dtc, number })
        }
        (Form::Optioned(request), [] | [0xFF, 0xFF, 0xFF]) => Ok(request),
        (Form::Optioned(_), [_, _, _]) => Err(REQUEST_OUT_OF_RANGE),
        _ => Err(INCORRECT_LENGTH),
    }
}

/// The negative response of a service with a code.
fn refused(service: u8, code: u8) -> Result<Asked, Negative>
    ensures { result ≡ refused service code }
{
    Err(Negative { service, code })
}

/// A clear of a DTC, which has no sub-function.
fn asked_clear(rest: &[u8]) -> Result<Asked, Negative>
    ensures { result ≡ asked_clear rest.now }
{
    match rest {
        [high, middle, low] => Ok(Asked {
            request: Request::Clear {
                dtc: dtc_of(*high, *middle, *low),
            },
            silent: false,
        }),
        _ => refused(CLEAR, INCORRECT_LENGTH),
    }
}

/// What is asked by the bytes after the service, which has sub-functions, or the negative code.
fn asked_with_sub(service: u8, rest: &[u8]) -> Result<Asked, Negative>
    ensures { result ≡ asked_with_sub service rest.now }
{
    let [sub, rest @ ..] = rest else {
        return refused(service, INCORRECT_LENGTH);
    };
    let Some(form) = form_of(service, *sub % SUPPRESS) else {
        return refused(service, SUB_FUNCTION_NOT_SUPPORTED);
    };
    match contents(form, rest) {
        Ok(request) => Ok(Asked {
            request,
            silent: *sub >= SUPPRESS,
        }),
        Err(code) => refused(service, code),
    }
}

/// What is asked by a service and the bytes after it.
fn asked_of(service: u8, rest: &[u8], extended: bool) -> Result<Asked, Negative>
    ensures { result ≡ asked extended (service ∷ rest.now) }
{
    if service == CLEAR {
        asked_clear(rest)
    } else if !has_sub_functions(service) {
        refused(service, SERVICE_NOT_SUPPORTED)
    } else if service == DTC_SETTING && !extended {
        refused(service, SERVICE_NOT_SUPPORTED_IN_SESSION)
    } else {
        asked_with_sub(service, rest)
    }
}

/// Reads a request of a tester in the extended session, or in the default one.
///
/// The bytes begin with the service and, if it has one, its sub-function, whose bit 7 suppresses a positive
/// response. If the request is refused, the error has its service and the first of these codes that applies:
/// the service is not one of this profile (0x11), it is not available in the session (0x7F), its sub-function is missing
/// (0x13) or unknown (0x12), the length is wrong (0x13), a record number or option byte is unknown (0x31). The layer
/// above checks whether its DTC is known.
pub fn read(bytes: &[u8], extended: bool) -> Result<Asked, Negative>
    requires { 0 < length bytes.now }
    ensures exact { result ≡ asked extended bytes.now }
    ensures spelled { IfOk result (λ asked. IsRequest extended bytes.now asked) }
    ensures every { (asked : AskedRequest) → IsRequest extended bytes.now asked → result ≡ Ok asked }
{
    let [service, rest @ ..] = bytes else {
        unreachable!()
    };
    asked_of(*service, rest, extended)
}
