//! The orders of forms, carried out. What someone else changed meanwhile isn't overwritten.

ghost use Rattle.std.specs.Prelude.{◌≡◌, ◌↔◌, IfOk, IsTrue};
ghost use Rattle.hdl_proxy.specs.declared.answer.Status.{Status};
ghost use Rattle.hdl_rest.specs.Orders.{CarriesOrder};
ghost use Rattle.hdl_rest.specs.Since.{AskedSince};
ghost use Rattle.hdl_forms.specs.Guarded.{CarriesForm, IsAsShown, is_of_shown};
ghost use Rattle.hdl_forms.specs.Pages.{IsFormPage};
ghost use Rattle.hdl_forms.specs.Taken.{page_status};

use crate::confirm::conflict_page;
use crate::draft::{Draft, Task};
use crate::pages::FilledForm;
use crate::results::result_page;
use hdl_proxy::Answer;
use hdl_rest::{ChangeServer, Order, carry_out, value_there};
use hdl_value::Value;
use std::alloc::{AllocError, Global};

/// Whether a value is changed or removed that the form showed.
fn is_of_shown(task: Task) -> bool
    ensures { result ≡ is_of_shown task }
{
    matches!(task, Task::Change | Task::Remove)
}

/// Whether the value is as the form showed it.
fn is_as_shown(draft: &Draft, value: &Value) -> bool
    ensures { IsTrue result ↔ IsAsShown draft.now value.now }
{
    let [a, b, c, d] = draft.ttl.to_be_bytes();
    value.kind.as_slice() == draft.kind.as_slice()
        && value.bytes.as_slice() == draft.old.as_slice()
        && value.ttl == [0, a, b, c, d]
        && value.permissions == draft.permissions
}

/// The page of what comes of a form's order.
fn carry_on<S: ChangeServer>(
    alloc: Global,
    service: &mut S,
    order: &Order,
    body: &[u8],
    form: &FilledForm,
    kept: u32,
) -> Result<Answer, AllocError>
    ensures asked { AskedSince S.ChangeServer service.old service.new (CarriesOrder order.now body.now result) }
    ensures page { IfOk result (λ page. (status : Status) × IsFormPage status page) }
{
    let answer = carry_out(alloc, service, order, body)?;
    result_page(alloc, form, &answer, kept)
}

/// Carries out the order of a form, and makes the page. A value that is changed or removed is read just before: if it isn't as the form showed it, nothing is done, and the page shows both. Browsers keep what was there before a change for up to this many seconds.
pub fn carry_form<S: ChangeServer>(
    alloc: Global,
    service: &mut S,
    order: &Order,
    body: &[u8],
    form: FilledForm,
    kept: u32,
) -> Result<Answer, AllocError>
    ensures asked { AskedSince S.ChangeServer service.old service.new (CarriesForm order.now body.now form.draft result) }
    ensures page { IfOk result (λ page. (status : Status) × IsFormPage status page) }
{
    if !is_of_shown(form.draft.task) {
        return carry_on(alloc, service, order, body, &form, kept);
    }
    match value_there(alloc, service, order, form.draft.index)? {
        Ok(Some(value)) if is_as_shown(&form.draft, &value) => {
            carry_on(alloc, service, order, body, &form, kept)
        }
        Ok(there) => conflict_page(alloc, form, there),
        Err(answer) => result_page(alloc, &form, &answer, kept),
    }
}
