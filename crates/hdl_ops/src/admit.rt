//! What is tested before the table is looked at.

ghost use Rattle.std.specs.Prelude.{◌≡◌, ◌≤◌, length, option_map, is_some, unwrap_or, IfOk, IfSome};
ghost use Rattle.std.specs.Option.{ForSome, option_map_or};
ghost use Rattle.hdl_name.specs.Name.{canonical, prefix, sent_prefix};
ghost use Rattle.hdl_name.specs.Tests.{is_handle};
ghost use Rattle.hdl_ops.specs.Admission.{handle_in, request_algorithm};
ghost use Rattle.hdl_ops.specs.Requests.{sent_handle};
ghost use Rattle.hdl_ops.specs.Views.{algorithms_by, hosted_by, IsAdmitted};

use crate::decision::{Decision, HashedRequest};
use crate::owner::Owner;
use crate::requests::{creates_or_deletes, is_list, is_unused, sent_handle};
use crate::written::is_bad_write;
use hdl_auth::algorithm::Algorithm;
use hdl_limits::{NAME_MAX, Octets};
use hdl_msg::{ReplyContent, Request, ResponseCode};
use hdl_name::{Name, NameFault, names_decided};
use hdl_rows::Refused;
use std::alloc::{AllocError, Global};

/// What comes of the tests before the table is looked at.
#[derive(Drop)]
pub(crate) enum Admitted {
    Refused(Decision),
    Passed(Name),
}

/// The name that octets are, if they are one.
#[tactic(auto, unfolding(crate::specs::Admission::handle_in))]
pub(crate) fn read_name(alloc: Global, octets: &[u8]) -> Result<Option<Name>, Refused>
    ensures handle { IfOk result (λ name. option_map canonical name ≡ handle_in octets.now) }
    ensures sent { IfOk result (λ name. IfSome name (λ name. name ≡ octets.now)) }
    ensures there { IfOk result (λ name. is_some name ≡ is_handle octets.now) }
{
    names_decided();
    match Name::read(alloc, octets) {
        Ok(name) => Ok(Some(name)),
        Err(NameFault::Memory) => Err(Refused),
        Err(_) => Ok(None),
    }
}

/// The hash function of a name's prefix on the owner's lanes, if there is a name and its prefix is hosted for the owner.
fn hosted_algorithm(owner: &Owner<'_>, name: &Option<Name>) -> Option<Algorithm>
    ensures hosted { ForSome name.now (λ name. is_some result ≡ hosted_by owner.now (prefix name)) }
    ensures algorithm { unwrap_or result Algorithm.Sha1 ≡ option_map_or (λ name. algorithms_by owner.now (prefix name)) name.now Algorithm.Sha1 }
{
    match name {
        Some(name) => owner.tenants.hosting(owner.publisher, name),
        None => None,
    }
}

/// A request on a lane of its owner, whose name is read and whose prefix is looked up.
#[derive(Drop)]
pub struct NamedRequest<'a> {
    pub owner: &'a Owner<'a>,
    pub asked: HashedRequest<'a>,
    /// The handle that it names, if that is a name.
    name: Option<Name>,
    /// Whether that handle's prefix is hosted for the owner.
    is_hosted: bool,
    ghost handle: { option_map canonical name ≡ handle_in (sent_handle asked.request.now.operation) },
    ghost sent: { ForSome name (λ name. name ≡ sent_handle asked.request.now.operation) },
    ghost hosted: { ForSome name (λ name. is_hosted ≡ hosted_by owner.now (prefix name)) },
}

impl<'a> NamedRequest<'a> {
    /// Reads the name of a request on a lane of its owner. Its hash function is that of the prefix of the handle that it names, where
    /// this is hosted for the owner, else SHA-1. Refused only for want of memory.
    pub fn of_owner(
        owner: &'a Owner<'a>,
        request: &'a Request<'a>,
    ) -> Result<NamedRequest<'a>, Refused>
        ensures owner { IfOk result (λ it. it.owner ≡ owner.entry) }
        ensures asked { IfOk result (λ it. it.asked ≡ record { algorithm = request_algorithm (algorithms_by owner.now) request.now; request = request.entry }) }
    {
        let name = read_name(owner.alloc, sent_handle(request.body()))?;
        let hosted = hosted_algorithm(owner, &name);
        let algorithm = hosted.unwrap_or(Algorithm::Sha1);
        Ok(NamedRequest {
            owner,
            asked: HashedRequest { algorithm, request },
            name,
            is_hosted: hosted.is_some(),
        })
    }

    /// Reads the name of a request on a lane of its owner, whose hash function is known. Refused only for want of memory.
    pub fn read(owner: &'a Owner<'a>, asked: HashedRequest<'a>) -> Result<NamedRequest<'a>, Refused>
        ensures owner { IfOk result (λ it. it.owner ≡ owner.entry) }
        ensures asked { IfOk result (λ it. it.asked ≡ asked.entry) }
    {
        let name = read_name(owner.alloc, sent_handle(asked.request.body()))?;
        let is_hosted = hosted_algorithm(owner, &name).is_some();
        Ok(NamedRequest {
            owner,
            asked,
            name,
            is_hosted,
        })
    }
}

fn sent_prefix(alloc: Global, name: &Name) -> Result<Octets, AllocError>
    ensures octets { IfOk result (λ octets. octets ≡ sent_prefix name.now) }
    ensures short { IfOk result (λ octets. length octets ≤ NAME_MAX) }
{
    let _ = name.sent();
    Ok(Octets::new(Vec::from_slice(alloc, name.prefix_sent())?))
}

fn refusal_with(code: ResponseCode, content: ReplyContent) -> Admitted
    ensures { result ≡ Admitted.Refused (record { code = code; content = content; change = None }) }
{
    Admitted::Refused(Decision {
        code,
        content,
        change: None,
    })
}

/// Tests the request before the table is looked at.
#[tactic(auto, unfolding(crate::specs::First::first, crate::specs::Admission::refusal, crate::specs::Decisions::refusal_decision), using(crate::proofs::Lengths::empty_fits, crate::proofs::Lengths::referral_fits))]
pub(crate) fn admit(request: NamedRequest<'_>) -> Result<Admitted, Refused>
    ensures { IfOk result (λ admitted. IsAdmitted (hosted_by request.entry.owner.now) request.entry.asked.request.now admitted) }
{
    let NamedRequest {
        owner,
        asked,
        name,
        is_hosted,
        ..
    } = request;
    let body = asked.request.body();
    if is_unused(body) {
        return Ok(refusal_with(ResponseCode::OperationDenied, ReplyContent::Empty));
    }
    let Some(name) = name else {
        return Ok(refusal_with(ResponseCode::InvalidHandle, ReplyContent::Empty));
    };
    if is_list(body) && !name.is_admin_handle() {
        return Ok(refusal_with(ResponseCode::InvalidHandle, ReplyContent::Empty));
    }
    if creates_or_deletes(body) && name.is_admin_handle() {
        return Ok(refusal_with(ResponseCode::OperationDenied, ReplyContent::Empty));
    }
    if !is_hosted {
        let prefix = sent_prefix(owner.alloc, &name)?;
        let referral = ReplyContent::Referral { prefix };
        return Ok(refusal_with(ResponseCode::ServiceReferral, referral));
    }
    if is_bad_write(asked.request) {
        return Ok(refusal_with(ResponseCode::ValueInvalid, ReplyContent::Empty));
    }
    Ok(Admitted::Passed(name))
}
