//! The response codes that browsers are given, as numbers (docs/PROTOCOL.md, "Message").

use hdl_msg::ResponseCode;

pub(crate) const SUCCESS: u32 = ResponseCode::Success as u32;

pub(crate) const SERVER_BUSY: u32 = ResponseCode::ServerBusy as u32;

pub(crate) const OPERATION_DENIED: u32 = ResponseCode::OperationDenied as u32;

pub(crate) const HANDLE_NOT_FOUND: u32 = ResponseCode::HandleNotFound as u32;

pub(crate) const INVALID_HANDLE: u32 = ResponseCode::InvalidHandle as u32;

pub(crate) const VALUE_NOT_FOUND: u32 = ResponseCode::ValueNotFound as u32;

pub(crate) const SERVICE_REFERRAL: u32 = ResponseCode::ServiceReferral as u32;

/// That aliases lead on too far (a name of RFC 3652, section 2.2.2.2); our servers never send it.
pub(crate) const TOO_FAR: u32 = 6;
