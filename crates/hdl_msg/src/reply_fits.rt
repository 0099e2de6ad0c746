//! What the types of a reply's parts say of them: they fit their fields.

ghost use Rattle.std.specs.Prelude.{◌≡◌, length};
ghost use Rattle.hdl_limits.specs.Octets.{AreOctets};
ghost use Rattle.hdl_msg.specs.Reply.{CanBeWritten, ContentFits, DigestFits, PartsFit, content_read, parts_read, reply_parts};

use crate::replies::{Reply, ReplyContent};
use crate::request_fits::{header_fits, strings_fit, values_fit};
use hdl_auth::algorithm::Digest;
use hdl_value::string_fits;

fn sha1_fits(octets: [u8; 20])
    ensures length { length octets ≡ 20 }
    ensures octets { AreOctets octets }
{
    let _ = octets.as_slice();
}

fn sha256_fits(octets: [u8; 32])
    ensures length { length octets ≡ 32 }
    ensures octets { AreOctets octets }
{
    let _ = octets.as_slice();
}

fn nonce_fits(octets: [u8; 16])
    ensures length { length octets ≡ 16 }
    ensures octets { AreOctets octets }
{
    let _ = octets.as_slice();
}

fn digest_fits(digest: Option<Digest>)
    ensures { DigestFits digest }
{
    match digest {
        Some(Digest::Sha1(octets)) => sha1_fits(octets),
        Some(Digest::Sha256(octets)) => sha256_fits(octets),
        None => {}
    }
}

fn content_fits(content: &ReplyContent)
    requires { CanBeWritten content.now }
    ensures { ContentFits (content_read content.now) }
{
    match content {
        ReplyContent::Values {
            wire,
            handle,
            values,
        } => {
            string_fits(handle.as_slice());
            values_fit(*wire, values.as_slice());
        }
        ReplyContent::Handles { handles } => strings_fit(handles.as_slice()),
        ReplyContent::Nothing => {}
        ReplyContent::Referral { prefix } => string_fits(prefix.as_slice()),
        ReplyContent::Nonce { nonce } => nonce_fits(*nonce),
        ReplyContent::Empty => {}
        ReplyContent::Site { octets } => string_fits(octets.as_slice()),
    }
}

/// The parts of a reply fit their fields, where its lengths and counts do.
pub(crate) fn reply_fits(reply: &Reply)
    requires { CanBeWritten reply.now.content }
    ensures { PartsFit (parts_read (reply_parts reply.now)) }
{
    header_fits(reply.header);
    digest_fits(reply.digest);
    content_fits(&reply.content);
}
