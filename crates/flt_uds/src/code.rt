//! The negative response codes (ISO 14229-1, annex A; when each is answered is this profile's).

/// The service is not one of this profile (serviceNotSupported).
pub const SERVICE_NOT_SUPPORTED: u8 = 0x11;

/// The sub-function is not one of the service (subFunctionNotSupported).
pub const SUB_FUNCTION_NOT_SUPPORTED: u8 = 0x12;

/// The length is not that of the request (incorrectMessageLengthOrInvalidFormat).
pub const INCORRECT_LENGTH: u8 = 0x13;

/// What the request names does not exist (requestOutOfRange).
pub const REQUEST_OUT_OF_RANGE: u8 = 0x31;

/// The service is not available in the tester's session (serviceNotSupportedInActiveSession).
pub const SERVICE_NOT_SUPPORTED_IN_SESSION: u8 = 0x7F;
