//! The key that a proof names, and what it may do.

ghost use Rattle.std.specs.Prelude.{◌≡◌, Some, option_map, IfOk};
ghost use Rattle.hdl_name.specs.Name.{canonical, prefix};
ghost use Rattle.hdl_value.specs.Refs.{place_of};
ghost use Rattle.hdl_rows.specs.Table.{AreRefusalsAfter};
ghost use Rattle.hdl_reach.specs.Cost.{ReadsWithin};
ghost use Rattle.hdl_reach.specs.Views.{mask_of};
ghost use Rattle.hdl_cache.specs.Cost.{mask_cost};
ghost use Rattle.hdl_msg.specs.Views.{operation_of};
ghost use Rattle.hdl_msg.specs.Codes.{response_number};
ghost use Rattle.hdl_ops.specs.Admission.{handle_in};
ghost use Rattle.hdl_ops.specs.Cost.{key_cost};
ghost use Rattle.hdl_ops.specs.Proven.{admin_octets, target, key_of, MaskOf, IsCodeForKey, IsCodeForProof};
ghost use Rattle.hdl_ops.specs.Requests.{sent_handle};
ghost use Rattle.hdl_ops.specs.TableViews as views;
ghost use Rattle.hdl_ops.specs.Views.{table_view_of, proof_of};

use crate::admit::read_name;
use crate::decision::{Proof, TableView};
use crate::proven::{code_after_key, code_before_key};
use crate::requests::creates;
use hdl_cache::Masked;
use hdl_msg::{Body, Request, ResponseCode};
use hdl_name::Name;
use hdl_rows::Refused;
use hdl_value::{AdminMask, Reference};
use std::alloc::{AllocError, Global};

/// The key's reference, if its handle is a name.
fn key_of(alloc: Global, proof: &Proof<'_>) -> Result<Option<Reference>, Refused>
    ensures { IfOk result (λ key. option_map place_of key ≡ key_of (proof_of proof.now)) }
{
    match read_name(alloc, proof.response.handle)? {
        Some(name) => Ok(Some(Reference {
            name,
            index: proof.response.index,
        })),
        None => Ok(None),
    }
}

/// The octets of a prefix's administrative handle.
fn admin_octets(alloc: Global, prefix: &[u8]) -> Result<Vec<u8>, AllocError>
    ensures { IfOk result (λ octets. octets.items ≡ admin_octets prefix.now) }
{
    let mut octets = Vec::from_slice(alloc, b"0.na/")?;
    octets.extend_from_slice(prefix)?;
    Ok(octets)
}

/// The administrative handle of the prefix of a name, if it isn't too long.
fn admin_handle(alloc: Global, name: &Name) -> Result<Option<Name>, Refused>
    ensures { IfOk result (λ admin. option_map canonical admin ≡ handle_in (admin_octets (prefix name.now))) }
{
    let octets = admin_octets(alloc, name.prefix())?;
    read_name(alloc, &octets)
}

/// What the key may do as an administrator of the request's target.
#[tactic(auto, unfolding(crate::specs::Proven::target))]
fn mask_of<R: Masked>(
    alloc: Global,
    rows: &mut R,
    body: &Body<'_>,
    name: &Name,
    key: &Reference,
) -> Result<Option<AdminMask>, Refused>
    requires named { name.now ≡ sent_handle (operation_of body.now) }
    ensures unchanged { R.content rows.new ≡ R.content rows.old }
    ensures mask { IfOk result (λ mask. MaskOf (R.content rows.old) (target (operation_of body.now)) (Some (place_of key.now)) (mask_of mask)) }
    ensures count { AreRefusalsAfter result (R.refused rows.old) (R.refused rows.new) }
    ensures cost { ReadsWithin (R.content rows.old) mask_cost (R.reads rows.old) (R.reads rows.new) }
{
    if !creates(body) {
        return rows.mask(name, key);
    }
    match admin_handle(alloc, name)? {
        Some(target) => rows.mask(&target, key),
        None => Ok(None),
    }
}

/// The code for the key: its value is looked at only if it is an administrator.
fn code_for_key<R: Masked>(
    alloc: Global,
    rows: &mut R,
    request: &Request<'_>,
    table_view: &TableView,
    name: &Name,
    proof: &Proof<'_>,
) -> Result<ResponseCode, Refused>
    requires named { name.now ≡ sent_handle request.now.operation }
    ensures unchanged { R.content rows.new ≡ R.content rows.old }
    ensures code { IfOk result (λ code. IsCodeForKey (R.content rows.old) (table_view_of table_view.now) request.now (proof_of proof.now) (response_number code)) }
    ensures count { AreRefusalsAfter result (R.refused rows.old) (R.refused rows.new) }
    ensures cost { ReadsWithin (R.content rows.old) key_cost (R.reads rows.old) (R.reads rows.new) }
{
    let Some(key) = key_of(alloc, proof)? else {
        return Ok(ResponseCode::NotAuthorized);
    };
    let Some(mask) = mask_of(alloc, rows, request.body(), name, &key)? else {
        return Ok(ResponseCode::NotAuthorized);
    };
    let value = rows.at(&key)?;
    Ok(code_after_key(request, table_view, proof, mask, &value))
}

/// The code of the table of decision for a request with a proof.
pub(crate) fn code_for_proof<R: Masked>(
    alloc: Global,
    rows: &mut R,
    request: &Request<'_>,
    table_view: &TableView,
    name: &Name,
    proof: &Proof<'_>,
) -> Result<ResponseCode, Refused>
    requires named { name.now ≡ sent_handle request.now.operation }
    requires table_view { table_view_of table_view.now ≡ views.bare (views.table_view (R.content rows.old) request.now) }
    ensures unchanged { R.content rows.new ≡ R.content rows.old }
    ensures code { IfOk result (λ code. IsCodeForProof (R.content rows.old) request.now (proof_of proof.now) (response_number code)) }
    ensures count { AreRefusalsAfter result (R.refused rows.old) (R.refused rows.new) }
    ensures cost { ReadsWithin (R.content rows.old) key_cost (R.reads rows.old) (R.reads rows.new) }
{
    match code_before_key(request, table_view, proof) {
        Some(code) => Ok(code),
        None => code_for_key(alloc, rows, request, table_view, name, proof),
    }
}
