//! What follows each sub-function (ISO 14229-1, in this profile).
ghost use Rattle.std.specs.Prelude.{◌≡◌, option_map};
ghost use Rattle.flt_model.specs.Request.{form_of, has_sub_functions};
ghost use Rattle.flt_uds.specs.Form.{meant};

use flt_model::Request;

/// Diagnostic session control.
pub(crate) const SESSION_CONTROL: u8 = 0x10;

/// Clear diagnostic information, the only service without sub-functions.
pub(crate) const CLEAR: u8 = 0x14;

/// Read DTC information.
pub(crate) const READ_DTC: u8 = 0x19;

/// Tester present.
pub(crate) const TESTER_PRESENT: u8 = 0x3E;

/// Control DTC setting.
pub(crate) const DTC_SETTING: u8 = 0x85;

/// What follows a sub-function.
#[derive(Clone, Copy)]
pub(crate) enum Form {
    /// Nothing.
    Plain(Request),
    /// A status mask, whose DTCs are counted.
    Count,
    /// A status mask, whose DTCs are listed.
    ByMask,
    /// A DTC of three bytes, and the number of a snapshot record.
    Snapshot,
    /// A DTC of three bytes, and the number of a record of extended data.
    Extended,
    /// Nothing, or three option bytes.
    Optioned(Request),
}

/// The service is one of those with sub-functions.
pub(crate) fn has_sub_functions(service: u8) -> bool
    ensures { result ≡ has_sub_functions service }
{
    matches!(
        service,
        SESSION_CONTROL | READ_DTC | TESTER_PRESENT | DTC_SETTING
    )
}

fn session_form(sub: u8) -> Option<Form>
    ensures { option_map meant result ≡ form_of SESSION_CONTROL sub }
{
    match sub {
        0x01 => Some(Form::Plain(Request::Session { extended: false })),
        0x03 => Some(Form::Plain(Request::Session { extended: true })),
        _ => None,
    }
}

fn read_form(sub: u8) -> Option<Form>
    ensures { option_map meant result ≡ form_of READ_DTC sub }
{
    match sub {
        0x01 => Some(Form::Count),
        0x02 => Some(Form::ByMask),
        0x03 => Some(Form::Plain(Request::Snapshots)),
        0x04 => Some(Form::Snapshot),
        0x06 => Some(Form::Extended),
        0x0A => Some(Form::Plain(Request::Supported)),
        0x0B | 0x0C | 0x0D | 0x0E => Some(Form::Plain(Request::Noted { sub })),
        0x14 => Some(Form::Plain(Request::Counters)),
        _ => None,
    }
}

fn present_form(sub: u8) -> Option<Form>
    ensures { option_map meant result ≡ form_of TESTER_PRESENT sub }
{
    match sub {
        0x00 => Some(Form::Plain(Request::Present)),
        _ => None,
    }
}

fn setting_form(sub: u8) -> Option<Form>
    ensures { option_map meant result ≡ form_of DTC_SETTING sub }
{
    match sub {
        0x01 => Some(Form::Optioned(Request::Setting { on: true })),
        0x02 => Some(Form::Optioned(Request::Setting { on: false })),
        _ => None,
    }
}

/// What follows a sub-function of a service, if the service has it.
pub(crate) fn form_of(service: u8, sub: u8) -> Option<Form>
    ensures { option_map meant result ≡ form_of service sub }
{
    match service {
        SESSION_CONTROL => session_form(sub),
        READ_DTC => read_form(sub),
        TESTER_PRESENT => present_form(sub),
        DTC_SETTING => setting_form(sub),
        _ => None,
    }
}
