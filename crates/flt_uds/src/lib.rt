//! The bytes of requests and responses (ISO 14229-1, services 0x10, 0x14, 0x19, 0x3E and 0x85, in this profile).
//!
//! It depends on `flt_model`, whose `specs/Request` says what the bytes of a request ask for, or with which code they are
//! refused. The layer above uses `read`, which answers exactly that, and the puts, which append bytes to a response.
#![tactic(auto)]

mod code;
mod form;
mod put;
mod reading;

pub use code::{
    INCORRECT_LENGTH, REQUEST_OUT_OF_RANGE, SERVICE_NOT_SUPPORTED,
    SERVICE_NOT_SUPPORTED_IN_SESSION, SUB_FUNCTION_NOT_SUPPORTED,
};
pub use flt_model::{Asked, Negative, REQUEST, RESPONSE, Request};
pub use put::{NEGATIVE_RESPONSE, put_bytes, put_dtc, put_dtc_with, put_negative};
pub use reading::read;
