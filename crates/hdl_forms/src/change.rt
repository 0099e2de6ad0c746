//! The order that a form with a key is.

ghost use Rattle.std.specs.Prelude.{◌≡◌, ◌<◌, ◌^◌, ◌∷◌, [], length, option_map, IfOk, IfSome};
ghost use Rattle.hdl_value_lines.specs.Fields.{IsReferenceOf};
ghost use Rattle.hdl_proxy.specs.Json.{IsJsonOf};
ghost use Rattle.hdl_forms.specs.Change.{IsActOf, IsBodyOf, IsKeyOf, admin_value, among_of, is_create, value_of, values_of, way_of};

use crate::draft::{Draft, Task, is_remove};
use hdl_client::Key;
use hdl_limits::Octets;
use hdl_name::Name;
use hdl_proxy::{Answer, CacheControl, values_answer};
use hdl_rest::{ChangeAction, Order, WriteMode};
use hdl_value::{HS_ADMIN, RawRefs, Value, put_string, put_u16, put_u32};
use hdl_value_lines::read_reference;
use std::alloc::{AllocError, Global};

/// All permissions of an administrator.
const ALL: u16 = 4095;

/// The index of the administrator of a new handle.
const ADMIN_INDEX: u32 = 100;

/// How long values of a new handle may be kept, in seconds.
const DAY_SECONDS: u32 = 86_400;

/// Public values that administrators may change.
const PUBLIC: u8 = 0b1110;

/// What was typed as the key and as its secret.
#[derive(Clone, Copy)]
pub struct TypedKey<'a> {
    pub key: &'a str,
    pub secret: &'a str,
}

/// Why there is no order.
#[derive(Clone, Copy, Debug, PartialEq, Eq)]
pub enum TypedFault {
    /// The key isn't INDEX:HANDLE.
    Key,
    /// The secret is empty.
    Secret,
    Memory,
}

impl From<AllocError> for TypedFault {
    ghost use Rattle.std.specs.Prelude.{◌≡◌};
    ghost use Rattle.hdl_forms.specs.declared.change.TypedFault.TheVariants.{Memory};

    ghost from_gives = { λ _ e. e ≡ Memory };

    fn from(_e: AllocError) -> TypedFault {
        TypedFault::Memory
    }
}

/// An order, and the body that it takes: a record in JSON, or nothing.
#[derive(Drop)]
pub struct FormOrder {
    pub order: Order,
    pub body: Vec<u8>,
}

fn octets(alloc: Global, text: &[u8]) -> Result<Octets, AllocError>
    ensures { IfOk result (λ octets. octets ≡ text.now) }
{
    Ok(Octets::new(Vec::from_slice(alloc, text)?))
}

/// The value that a change writes.
#[tactic(auto, unfolding(crate::specs::Change::value_of))]
fn value_of(alloc: Global, draft: &Draft) -> Result<Value, AllocError>
    ensures { IfOk result (λ value. value ≡ value_of draft.now) }
{
    let [a, b, c, d] = draft.ttl.to_be_bytes();
    Ok(Value {
        index: draft.index,
        kind: octets(alloc, draft.kind.as_slice())?,
        bytes: octets(alloc, draft.text.as_slice())?,
        ttl: [0, a, b, c, d],
        permissions: draft.permissions,
        timestamp: 0,
        references: RawRefs::new(Vec::new(alloc)),
    })
}

/// The value by which a key may change a new handle.
#[tactic(auto, unfolding(crate::specs::Change::admin_value))]
fn admin_value(alloc: Global, index: u32, handle: &[u8]) -> Result<Value, AllocError>
    requires { length handle.now < 2 ^ 32 }
    ensures { IfOk result (λ value. value ≡ admin_value index handle.now) }
{
    let mut data = Vec::new(alloc);
    put_u16(&mut data, ALL)?;
    put_string(&mut data, handle)?;
    put_u32(&mut data, index)?;
    let [a, b, c, d] = DAY_SECONDS.to_be_bytes();
    Ok(Value {
        index: ADMIN_INDEX,
        kind: octets(alloc, HS_ADMIN)?,
        bytes: Octets::new(data),
        ttl: [0, a, b, c, d],
        permissions: PUBLIC,
        timestamp: 0,
        references: RawRefs::new(Vec::new(alloc)),
    })
}

pub(crate) fn is_create(task: Task) -> bool
    ensures { result ≡ is_create task }
{
    matches!(task, Task::Create)
}

/// The values that a change sends.
fn values_of(
    alloc: Global,
    draft: &Draft,
    index: u32,
    handle: &[u8],
) -> Result<Vec<Value>, AllocError>
    requires { length handle.now < 2 ^ 32 }
    ensures { IfOk result (λ values. values.items ≡ values_of draft.now index handle.now) }
{
    let mut values = Vec::new(alloc);
    if is_create(draft.task) {
        values.push(admin_value(alloc, index, handle)?)?;
    }
    values.push(value_of(alloc, draft)?)?;
    Ok(values)
}

fn only(alloc: Global, index: u32) -> Result<Vec<u32>, AllocError>
    ensures { IfOk result (λ indexes. indexes.items ≡ index ∷ []) }
{
    let mut indexes = Vec::new(alloc);
    indexes.push(index)?;
    Ok(indexes)
}

/// How values are put: one that is there is modified, a new one is added where its index is free, and a handle is created where it isn't there.
fn way_of(task: Task) -> WriteMode
    ensures { result ≡ way_of task }
{
    match task {
        Task::Change | Task::Remove => WriteMode::Merge,
        Task::Add => WriteMode::Add,
        Task::Create => WriteMode::Create,
    }
}

/// The indexes among which values are put; any in a new handle.
fn among_of(alloc: Global, draft: &Draft) -> Result<Option<Vec<u32>>, AllocError>
    ensures { IfOk result (λ among. option_map (λ v. v.items) among ≡ among_of draft.now) }
{
    if is_create(draft.task) {
        return Ok(None);
    }
    Ok(Some(only(alloc, draft.index)?))
}

/// What the order does.
fn act_of(alloc: Global, draft: &Draft) -> Result<ChangeAction, AllocError>
    ensures { IfOk result (IsActOf draft.now) }
{
    if is_remove(draft.task) {
        let indexes = only(alloc, draft.index)?;
        return Ok(ChangeAction::Remove { indexes });
    }
    let among = among_of(alloc, draft)?;
    Ok(ChangeAction::Put {
        way: way_of(draft.task),
        among,
    })
}

/// The record in JSON of a change.
fn record_of(
    alloc: Global,
    name: &[u8],
    draft: &Draft,
    index: u32,
    handle: &[u8],
) -> Result<Vec<u8>, AllocError>
    requires { length handle.now < 2 ^ 32 }
    ensures { IfOk result (λ body. IsJsonOf name.now (values_of draft.now index handle.now) body.items) }
{
    let values = values_of(alloc, draft, index, handle)?;
    let Answer { body, .. } = values_answer(alloc, name, &values, CacheControl::Never)?;
    Ok(body)
}

/// The body that the order takes.
fn body_of(
    alloc: Global,
    name: &[u8],
    draft: &Draft,
    index: u32,
    handle: &[u8],
) -> Result<Vec<u8>, AllocError>
    requires { length handle.now < 2 ^ 32 }
    ensures { IfOk result (λ body. IsBodyOf name.now draft.now index handle.now body.items) }
{
    if is_remove(draft.task) {
        return Ok(Vec::new(alloc));
    }
    record_of(alloc, name, draft, index, handle)
}

/// The key that was typed, of a handle that is a name.
fn reference_in(words: &str) -> Option<(u32, &str)>
    ensures { IfSome result (λ r. IsReferenceOf words.now r.0 r.1.now × (length r.1.now < 2 ^ 32)) }
{
    read_reference(words)
}

/// The key that was typed, without the spaces at its ends, with its secret.
pub(crate) fn key_of(alloc: Global, typed: TypedKey<'_>) -> Result<Key, TypedFault>
    ensures key { IfOk result (IsKeyOf typed.entry.key.now typed.entry.secret.now) }
    ensures short { IfOk result (λ key. length key.handle < 2 ^ 32) }
{
    let Some((index, handle)) = reference_in(typed.key.trim()) else {
        return Err(TypedFault::Key);
    };
    if typed.secret.is_empty() {
        return Err(TypedFault::Secret);
    }
    Ok(Key {
        handle: octets(alloc, handle.as_bytes())?,
        index,
        secret: octets(alloc, typed.secret.as_bytes())?,
    })
}

/// The order that a change of this handle by this key is: the same as one of HTTP. What the form doesn't name isn't touched.
pub fn order_of(
    alloc: Global,
    name: Name,
    draft: &Draft,
    typed: TypedKey<'_>,
) -> Result<FormOrder, TypedFault>
    ensures name { IfOk result (λ made. made.order.name ≡ name) }
    ensures key { IfOk result (λ made. IsKeyOf typed.entry.key.now typed.entry.secret.now made.order.key) }
    ensures act { IfOk result (λ made. IsActOf draft.now made.order.act) }
    ensures body { IfOk result (λ made. IsBodyOf name draft.now made.order.key.index made.order.key.handle made.body.items) }
{
    let key = key_of(alloc, typed)?;
    let body = body_of(alloc, name.sent(), draft, key.index, key.handle.as_slice())?;
    let act = act_of(alloc, draft)?;
    Ok(FormOrder {
        order: Order { name, key, act },
        body,
    })
}
