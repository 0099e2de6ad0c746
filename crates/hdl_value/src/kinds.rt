//! The types of values that have a meaning, to a service or to those that ask it (RFC 3651, section 3.1). A service acts by
//! HS_ADMIN, HS_VLIST and HS_SECKEY alone. It stores values of any other type as they were sent.

/// An administrator: its permissions, and a reference to its key.
pub const HS_ADMIN: &[u8] = b"HS_ADMIN";

/// A list of references. If the list is an administrator, each of them is one.
pub const HS_VLIST: &[u8] = b"HS_VLIST";

/// A secret key. An administrator uses it to respond to a challenge.
pub const HS_SECKEY: &[u8] = b"HS_SECKEY";

/// A public key.
pub const HS_PUBKEY: &[u8] = b"HS_PUBKEY";

/// The servers of a prefix.
pub const HS_SITE: &[u8] = b"HS_SITE";

/// Another handle, which is asked for in this one's place.
pub const HS_ALIAS: &[u8] = b"HS_ALIAS";

/// Why a handle leads nowhere any more (our profile).
pub const HS_GONE: &[u8] = b"HS_GONE";

/// The address that a browser is sent to.
pub const URL: &[u8] = b"URL";

/// Several locations, in XML, of which a browser is sent to one.
pub const LOCATIONS: &[u8] = b"10320/loc";
