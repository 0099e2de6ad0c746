//! For how long a reply may be kept.

use hdl_msg::{ContentView, ReplyView, ResponseCode, Values};
use std::alloc::Global;

/// The kind of a TTL that is a moment.
const ABSOLUTE: u8 = 1;

/// The least TTL of values, in seconds. None where there are no values, one is faulty or kept until a moment, or memory was refused.
fn least_ttl(alloc: Global, values: Values<'_>) -> Option<u64> {
    let mut least = None;
    for cut in values {
        let value = cut.read(alloc).ok()?;
        let [kind, a, b, c, d] = value.ttl;
        if kind == ABSOLUTE {
            return None;
        }
        let seconds = u64::from(u32::from_be_bytes([a, b, c, d]));
        least = Some(seconds.min(least.unwrap_or(seconds)));
    }
    least
}

/// For how many seconds a reply may be kept: for the least TTL of its values, and where it says that the handle isn't there without a limit. None: it isn't
/// kept, as any other refusal.
pub(crate) fn lifetime(alloc: Global, reply: &ReplyView<'_>) -> Option<u64> {
    match reply.content {
        ContentView::Values { values, .. } => least_ttl(alloc, values),
        ContentView::Empty if reply.code() == Some(ResponseCode::HandleNotFound) => Some(u64::MAX),
        _ => None,
    }
}
