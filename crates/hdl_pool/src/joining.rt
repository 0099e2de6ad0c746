//! Joining payloads.

ghost use Rattle.std.specs.Prelude.{◌≡◌, slice_set, option_map, Some, IfOk};
ghost use Rattle.hdl_frame.specs.Whole.{whole_payload};
ghost use Rattle.hdl_pool.specs.Assembly.{lists};

use std::alloc::{AllocError, Global};

/// The concatenation of these payloads by number, with this one under this number. `None` if another one hasn't come.
/// Memory for `message_len` octets is taken at once.
pub(crate) fn joined_with(
    alloc: Global,
    message_len: usize,
    payloads: &[Option<Vec<u8>>],
    number: usize,
    payload: &[u8],
) -> Result<Option<Vec<u8>>, AllocError>
    ensures { IfOk result (λ message. option_map (λ v. v.items) message
        ≡ whole_payload (slice_set (lists payloads.now) number (Some payload.now))) }
{
    let mut message = Vec::with_capacity(alloc, message_len)?;
    for (k, stored) in payloads.iter().enumerate() {
        if k == number {
            message.extend_from_slice(payload)?;
        } else {
            let Some(stored) = stored else {
                return Ok(None);
            };
            message.extend_from_slice(stored)?;
        }
    }
    Ok(Some(message))
}
