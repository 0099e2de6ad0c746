//! Decisions.

ghost use Rattle.std.specs.Prelude.{◌≡◌, None, IfOk, IfSome, OnOk, IsTrue};
ghost use Rattle.hdl_auth.specs.declared.algorithm.Algorithm.{Algorithm};
ghost use Rattle.hdl_reach.specs.Cost.{ReadsWithin};
ghost use Rattle.hdl_rows.specs.Table.{HaveTheirIndexes, AreRefusalsAfter};
ghost use Rattle.hdl_ops.specs.Admission.{refusal};
ghost use Rattle.hdl_ops.specs.Cost.{decision_cost};
ghost use Rattle.hdl_ops.specs.Decisions as decisions;
ghost use Rattle.hdl_ops.specs.Decisions.{Decides, DecidesBy};
ghost use Rattle.hdl_ops.specs.Replies.{fits};
ghost use Rattle.hdl_ops.specs.Requests.{sent_handle, handle_of};
ghost use Rattle.hdl_ops.specs.TableViews.{table_view};
ghost use Rattle.hdl_ops.specs.Tables.{CanApply};
ghost use Rattle.hdl_ops.specs.Views.{decision_of, hosted_by, level_of, proof_of};

use crate::admit::{Admitted, NamedRequest, admit};
use crate::anyone::code_for_anyone;
use crate::decision::{Decision, HashedRequest, Level, Proof};
use crate::keys::code_for_proof;
use crate::seeing::{is_granted, look, see};
use crate::whole_decision::whole_decision;
use hdl_cache::Masked;
use hdl_name::Name;
use hdl_rows::{Refused, Rows};
use hdl_value::Reference;
use std::alloc::Global;

/// The decision about a request that came as it is, and that the tests before the table let pass.
fn decide_for_anyone<R: Rows>(
    alloc: Global,
    asked: &HashedRequest<'_>,
    rows: &mut R,
    name: Name,
) -> Result<Decision, Refused>
    requires named { name ≡ sent_handle asked.now.request.now.operation }
    ensures unchanged { R.content rows.new ≡ R.content rows.old }
    ensures decided { IfOk result (λ d. DecidesBy asked.now.algorithm (R.content rows.old) asked.now.request.now decisions.Anyone None (decision_of d)) }
    ensures carried { IfOk result (λ d. IsTrue (fits asked.now.algorithm asked.now.request.now d.content)) }
    ensures by_index { OnOk result (HaveTheirIndexes (R.content rows.old) (handle_of asked.now.request.now) (table_view (R.content rows.old) asked.now.request.now).values) }
    ensures count { AreRefusalsAfter result (R.refused rows.old) (R.refused rows.new) }
    ensures cost { ReadsWithin (R.content rows.old) (decision_cost decisions.Anyone asked.now.request.now.operation) (R.reads rows.old) (R.reads rows.new) }
{
    let seen = look(alloc, rows, asked.request, &name)?;
    let code = code_for_anyone(asked.request, &seen);
    if is_granted(code) {
        let mut place = Reference { name, index: 0 };
        let seen = see(alloc, rows, asked.request, &Level::Anyone, &mut place, seen)?;
        return whole_decision(alloc, asked, &Level::Anyone, seen, code, place.name);
    }
    whole_decision(alloc, asked, &Level::Anyone, seen, code, name)
}

/// The decision about a request that came back with a proof.
fn decide_with_proof<R: Masked>(
    alloc: Global,
    asked: &HashedRequest<'_>,
    rows: &mut R,
    name: Name,
    proof: &Proof<'_>,
) -> Result<Decision, Refused>
    requires named { name ≡ sent_handle asked.now.request.now.operation }
    ensures unchanged { R.content rows.new ≡ R.content rows.old }
    ensures decided { IfOk result (λ d. DecidesBy asked.now.algorithm (R.content rows.old) asked.now.request.now (decisions.Proven (proof_of proof.now)) None (decision_of d)) }
    ensures carried { IfOk result (λ d. IsTrue (fits asked.now.algorithm asked.now.request.now d.content)) }
    ensures by_index { OnOk result (HaveTheirIndexes (R.content rows.old) (handle_of asked.now.request.now) (table_view (R.content rows.old) asked.now.request.now).values) }
    ensures count { AreRefusalsAfter result (R.refused rows.old) (R.refused rows.new) }
    ensures cost { ReadsWithin (R.content rows.old) (decision_cost (decisions.Proven (proof_of proof.now)) asked.now.request.now.operation) (R.reads rows.old) (R.reads rows.new) }
{
    let seen = look(alloc, rows, asked.request, &name)?;
    let code = code_for_proof(alloc, rows, asked.request, &seen, &name, proof)?;
    let level = Level::Proven(*proof);
    if is_granted(code) {
        let mut place = Reference { name, index: 0 };
        let seen = see(alloc, rows, asked.request, &level, &mut place, seen)?;
        return whole_decision(alloc, asked, &level, seen, code, place.name);
    }
    whole_decision(alloc, asked, &level, seen, code, name)
}

/// The decision about a request on a lane of its owner, by the prefixes that are hosted for it. The table stays as it is, and a mask
/// that is kept of it isn't looked for again.
///
/// Refused: the table refused a look, and its count rose by one; or memory for the decision was refused, and the count is as
/// it was. What is carried fits into the message of a reply, and a change meets the conditions of its write. What it reads of the table
/// is bounded (`cost`): the heads of the values of the handle that is named; of a resolution that is granted the values that it shows, as many as a
/// message takes; behind a proof the key, and the handles of a list that is granted.
pub fn decide<R: Masked>(
    request: NamedRequest<'_>,
    rows: &mut R,
    level: &Level<'_>,
) -> Result<Decision, Refused>
    ensures unchanged { R.content rows.new ≡ R.content rows.old }
    ensures decided { IfOk result (λ d. Decides (hosted_by request.entry.owner.now) request.entry.asked.algorithm (R.content rows.old) request.entry.asked.request.now (level_of level.now) (decision_of d)) }
    ensures carried { IfOk result (λ d. IsTrue (fits request.entry.asked.algorithm request.entry.asked.request.now d.content)) }
    ensures can_apply { IfOk result (λ d. IfSome d.change (λ change. CanApply (R.content rows.old) change)) }
    ensures count { AreRefusalsAfter result (R.refused rows.old) (R.refused rows.new) }
    ensures cost { ReadsWithin (R.content rows.old) (decision_cost (level_of level.now) request.entry.asked.request.now.operation) (R.reads rows.old) (R.reads rows.new) }
{
    let alloc = request.owner.alloc;
    let asked = request.asked;
    match admit(request)? {
        Admitted::Refused(decision) => Ok(decision),
        Admitted::Passed(name) => match level {
            Level::Anyone => decide_for_anyone(alloc, &asked, rows, name),
            Level::Proven(proof) => decide_with_proof(alloc, &asked, rows, name, proof),
        },
    }
}
