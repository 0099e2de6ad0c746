//! Reading of replies, in the grammar that they are written in. No memory is taken.

ghost use Rattle.std.specs.Prelude.{◌≡◌, IfOk, OnErr};
ghost use Rattle.hdl_value.specs.Reading.{Reads};
ghost use Rattle.hdl_msg.specs.Reply.{ReplyParts, SpellsReply, content_seen, reply_seen};
ghost use Rattle.hdl_msg.specs.Reading.{digest_at, announced_digest_at, prefix_in, shown_values_in, handles_in, nothing_in, referral_in, nonce_in, empty_in, content_in, reply_body_in, reply_at};

use crate::fields::Header;
use crate::lists::{Strings, Values};
use crate::message::{MsgFault, header_and_body};
use crate::replies::{ADMIN_PREFIX, NO_VALUES};
use crate::reply_view::{ContentView, ReplyForm, ReplyView, announces_digest};
use hdl_auth::algorithm::{Algorithm, Digest};
use hdl_value::{Wire, octet_at, string_at, u32_at};

/// The octet of a hash function and as many octets as its digests have, and what follows.
#[tactic(auto, unfolding(crate::specs::Reading::digest_at))]
fn digest_at(octets: &[u8]) -> Option<(Digest, &[u8])>
    ensures { Reads (λ x. (x.0, x.1.now)) result (digest_at octets.now) }
{
    let (first, rest) = octet_at(octets)?;
    if first == Algorithm::Sha1.octet() {
        let (sha1, rest) = rest.split_first_chunk::<20>()?;
        return Some((Digest::Sha1(*sha1), rest));
    }
    if first == Algorithm::Sha256.octet() {
        let (sha256, rest) = rest.split_first_chunk::<32>()?;
        return Some((Digest::Sha256(*sha256), rest));
    }
    None
}

/// A digest where one is announced, and what follows.
#[tactic(auto, unfolding(crate::specs::Reading::announced_digest_at))]
fn announced_digest_at(announced: bool, octets: &[u8]) -> Option<(Option<Digest>, &[u8])>
    ensures { Reads (λ x. (x.0, x.1.now)) result (announced_digest_at announced octets.now) }
{
    if !announced {
        return Some((None, octets));
    }
    let (digest, rest) = digest_at(octets)?;
    Some((Some(digest), rest))
}

#[tactic(auto, unfolding(crate::specs::Reading::shown_values_in))]
fn shown_values(wire: Wire, octets: &[u8]) -> Option<ContentView<'_>>
    ensures { Reads content_seen result (shown_values_in wire octets.now) }
{
    let (handle, rest) = string_at(octets)?;
    let (values, rest) = Values::read(wire, rest)?;
    if !rest.is_empty() {
        return None;
    }
    Some(ContentView::Values { handle, values })
}

#[tactic(auto, unfolding(crate::specs::Reading::handles_in))]
fn handles(octets: &[u8]) -> Option<ContentView<'_>>
    ensures { Reads content_seen result (handles_in octets.now) }
{
    let (handles, rest) = Strings::read(octets)?;
    if !rest.is_empty() {
        return None;
    }
    Some(ContentView::Handles { handles })
}

#[tactic(auto, unfolding(crate::specs::Reading::nothing_in))]
fn nothing(octets: &[u8]) -> Option<ContentView<'_>>
    ensures { Reads content_seen result (nothing_in octets.now) }
{
    if !octets.is_empty() {
        return None;
    }
    Some(ContentView::Nothing)
}

/// The prefix in the administrative handle that a referral names.
#[tactic(auto, unfolding(crate::specs::Reading::prefix_in))]
fn prefix_in(octets: &[u8]) -> Option<&[u8]>
    ensures { Reads (λ p. p.now) result (prefix_in octets.now) }
{
    let (front, prefix) = octets.split_at_checked(ADMIN_PREFIX.len())?;
    if front != ADMIN_PREFIX {
        return None;
    }
    Some(prefix)
}

#[tactic(auto, unfolding(crate::specs::Reading::referral_in))]
fn referral(octets: &[u8]) -> Option<ContentView<'_>>
    ensures { Reads content_seen result (referral_in octets.now) }
{
    let (authority, rest) = string_at(octets)?;
    let (count, rest) = u32_at(rest)?;
    if !rest.is_empty() {
        return None;
    }
    if count != NO_VALUES {
        return None;
    }
    let prefix = prefix_in(authority)?;
    Some(ContentView::Referral { prefix })
}

#[tactic(auto, unfolding(crate::specs::Reading::nonce_in))]
fn nonce(octets: &[u8]) -> Option<ContentView<'_>>
    ensures { Reads content_seen result (nonce_in octets.now) }
{
    let (text, rest) = string_at(octets)?;
    if !rest.is_empty() {
        return None;
    }
    let (nonce, behind) = text.split_first_chunk::<16>()?;
    if !behind.is_empty() {
        return None;
    }
    Some(ContentView::Nonce { nonce })
}

#[tactic(auto, unfolding(crate::specs::Reading::empty_in))]
fn empty(octets: &[u8]) -> Option<ContentView<'_>>
    ensures { Reads content_seen result (empty_in octets.now) }
{
    let (text, rest) = string_at(octets)?;
    if !rest.is_empty() {
        return None;
    }
    if !text.is_empty() {
        return None;
    }
    Some(ContentView::Empty)
}

/// The content of this form, all of the octets.
#[tactic(auto, unfolding(crate::specs::Reading::content_in))]
fn content_in(wire: Wire, form: ReplyForm, octets: &[u8]) -> Option<ContentView<'_>>
    ensures { Reads content_seen result (content_in wire form octets.now) }
{
    match form {
        ReplyForm::Values => shown_values(wire, octets),
        ReplyForm::Handles => handles(octets),
        ReplyForm::Nothing => nothing(octets),
        ReplyForm::Referral => referral(octets),
        ReplyForm::Nonce => nonce(octets),
        ReplyForm::Empty => empty(octets),
        ReplyForm::Site => Some(ContentView::Site { octets }),
    }
}

/// The body behind this header, all of the octets.
#[tactic(auto, unfolding(crate::specs::Reading::reply_body_in))]
fn reply_body(wire: Wire, header: Header, octets: &[u8]) -> Option<ReplyView<'_>>
    ensures { Reads reply_seen result (reply_body_in wire header octets.now) }
{
    let (digest, rest) = announced_digest_at(announces_digest(header), octets)?;
    let content = content_in(wire, ReplyForm::of(header), rest)?;
    Some(ReplyView {
        header,
        digest,
        content,
    })
}

#[tactic(auto, unfolding(crate::specs::Reading::reply_at, crate::specs::Message::message_at))]
fn whole_reply(wire: Wire, octets: &[u8]) -> Option<ReplyView<'_>>
    ensures { Reads reply_seen result (reply_at wire octets.now) }
{
    let (header, body, rest) = header_and_body(octets)?;
    let (credential, behind_credential) = string_at(rest)?;
    if !behind_credential.is_empty() {
        return None;
    }
    if !credential.is_empty() {
        return None;
    }
    reply_body(wire, header, body)
}

/// The reply that the octets of a message are, all of them (RFC 3652, section 2.2, in our profile): header, BodyLength octets
/// of body, and an empty credential. Malformed where they are none.
///
/// A reply tells by itself what it carries: its header announces a digest by ReturnDigest or code 402, and the form of the
/// content by the code, with code 1 by the operation. So nothing need be known of the request. The octet before a digest tells
/// its hash function, and so how many octets it has; every other octet there is Malformed. A short reply is one of code 3 or 4.
///
/// It takes no memory, and time linear in the octets. Values are cut by the layout that is said alone, as in a request: `CutValue::read` copies
/// one, or tells its fault. The envelope, and whether its RequestId is that of the request, are the caller's.
pub fn read_reply(wire: Wire, octets: &[u8]) -> Result<ReplyView<'_>, MsgFault>
    ensures read { IfOk result (λ reply. SpellsReply wire octets.now (reply_seen reply)) }
    ensures malformed { OnErr result ((parts : ReplyParts) → SpellsReply wire octets.now parts → ⊥) }
{
    match whole_reply(wire, octets) {
        Some(reply) => Ok(reply),
        None => Err(MsgFault::Malformed),
    }
}
