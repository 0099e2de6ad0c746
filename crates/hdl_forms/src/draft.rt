//! A change of one value, as a form says it.

ghost use Rattle.std.specs.Prelude.{◌≡◌, ◌⊎◌, ◌↔◌, IfOk, IfErr, IsTrue};
ghost use Rattle.std.specs.List.{list_all};
ghost use Rattle.hdl_value.specs.Reading.{Reads};
ghost use Rattle.hdl_value_lines.specs.Fields.{is_graphic, is_word};
ghost use Rattle.hdl_proxy.specs.Query.{texts_of};
ghost use Rattle.hdl_forms.specs.Draft.{IsAliasUsable, IsDraftFault, IsPlainHandle, IsUrlUsable, IsUsable, are_printed, draft_in, first_named, index_in, index_of, is_alias, is_free, is_open, is_own_type, is_printed, is_remove, is_reserved, is_short, is_type, kind_of, line_in, old_of, open_kind, permissions_of, short_kind, task_named, task_of, text_of, ttl_of, typed, word_in};

use crate::address::is_address;
use hdl_limits::{DATA_MAX, Octets, TYPE_MAX};
use hdl_name::is_name;
use hdl_proxy::{Pair, is_followed};
use hdl_value::{HS_ALIAS, HS_GONE, URL};
use hdl_value_lines::{number_in, permissions_in};
use std::alloc::{AllocError, Global};

/// How the types begin by whose values the service or the proxy acts.
const RESERVED: &[u8] = b"HS_";

/// What is done with a value, or with a handle that isn't there yet.
#[derive(Clone, Copy, PartialEq, Eq)]
pub enum Task {
    Change,
    Add,
    Remove,
    Create,
}

/// A change of one value. It has no key and no secret.
#[derive(Drop)]
pub struct Draft {
    pub task: Task,
    pub index: u32,
    pub kind: Octets,
    pub ttl: u32,
    pub permissions: u8,
    /// The text before, which is shown beside the new one.
    pub old: Octets,
    pub text: Octets,
}

/// What is wrong with a form: the first of these in the order of its fields.
#[derive(Clone, Copy, Debug, PartialEq, Eq)]
pub enum DraftFault {
    Task,
    Index,
    /// The type isn't one word of graphic ASCII.
    Type,
    TypeLong,
    /// The service or the proxy acts by values of the type.
    TypeReserved,
    Ttl,
    Permissions,
    Text,
    /// The text is no URL that is followed.
    Url,
    /// The text of an alias is no handle.
    Alias,
    Memory,
}

impl From<AllocError> for DraftFault {
    ghost use Rattle.std.specs.Prelude.{◌≡◌};
    ghost use Rattle.hdl_forms.specs.declared.draft.DraftFault.TheVariants.{Memory};

    ghost from_gives = { λ _ e. e ≡ Memory };

    fn from(_e: AllocError) -> DraftFault {
        DraftFault::Memory
    }
}

/// The value of the first field of this name.
pub(crate) fn first_named<'a>(pairs: &'a [Pair], name: &str) -> Option<&'a str>
    ensures { Reads (λ t. t.now) result (first_named name.now (texts_of pairs.now)) }
{
    for pair in pairs {
        if pair.0.as_str() == name {
            return Some(pair.1.as_str());
        }
    }
    None
}

/// The same of a field that is typed, without the spaces at its ends.
fn typed<'a>(pairs: &'a [Pair], name: &str) -> Option<&'a str>
    ensures { Reads (λ t. t.now) result (typed name.now (texts_of pairs.now)) }
{
    let text = first_named(pairs, name)?;
    Some(text.trim())
}

fn task_named(word: &str) -> Option<Task>
    ensures { result ≡ task_named word.now }
{
    match word {
        "change" => Some(Task::Change),
        "add" => Some(Task::Add),
        "remove" => Some(Task::Remove),
        "create" => Some(Task::Create),
        _ => None,
    }
}

/// An index, from 1 on.
fn index_in(text: &str) -> Option<u32>
    ensures { result ≡ index_in text.now }
{
    let index = number_in(text.as_bytes())?;
    if index == 0 {
        return None;
    }
    Some(index)
}

/// Whether the service or the proxy acts by values of this type.
fn is_reserved(kind: &[u8]) -> bool
    ensures { result ≡ is_reserved kind.now }
{
    match kind.split_at_checked(3) {
        Some((front, _)) => front == RESERVED,
        None => false,
    }
}

/// Whether it is a type that forms change all the same: an alias, or that the handle is gone.
fn is_own_type(kind: &[u8]) -> bool
    ensures { result ≡ is_own_type kind.now }
{
    kind == HS_ALIAS || kind == HS_GONE
}

/// Whether forms change values of a type that begins so.
fn is_open(kind: &[u8]) -> bool
    ensures { result ≡ is_open kind.now }
{
    !is_reserved(kind) || is_own_type(kind)
}

fn is_graphic(octet: u8) -> bool
    ensures { result ≡ is_graphic octet }
{
    octet > b' ' && octet < 127
}

fn are_graphic(text: &[u8]) -> bool
    ensures { result ≡ list_all is_graphic text.now }
{
    text.iter().all(|octet| is_graphic(*octet))
}

/// Whether these are one word of graphic ASCII, as the line of a value has its type.
fn is_word(text: &[u8]) -> bool
    ensures { result ≡ is_word text.now }
{
    !text.is_empty() && are_graphic(text)
}

fn is_short(kind: &[u8]) -> bool
    ensures { result ≡ is_short kind.now }
{
    kind.len() <= TYPE_MAX
}

/// Whether forms change values of this type.
pub(crate) fn is_type(kind: &[u8]) -> bool
    ensures { result ≡ is_type kind.now }
{
    is_word(kind) && is_short(kind) && is_open(kind)
}

fn is_printed(octet: u8) -> bool
    ensures { result ≡ is_printed octet }
{
    octet >= 32 && octet != 127
}

/// Whether these have no control octet, so that a field of one line keeps them.
pub(crate) fn are_printed(text: &[u8]) -> bool
    ensures { result ≡ are_printed text.now }
{
    text.iter().all(|octet| is_printed(*octet))
}

fn word_in(text: &str) -> Option<&str>
    ensures { Reads (λ t. t.now) result (word_in text.now) }
{
    if is_word(text.as_bytes()) {
        Some(text)
    } else {
        None
    }
}

/// The type, if it isn't too long.
fn short_kind(kind: &str) -> Option<&str>
    ensures { Reads (λ t. t.now) result (short_kind kind.now) }
{
    if is_short(kind.as_bytes()) {
        Some(kind)
    } else {
        None
    }
}

/// The type, if forms change values of it.
fn open_kind(kind: &str) -> Option<&str>
    ensures { Reads (λ t. t.now) result (open_kind kind.now) }
{
    if is_open(kind.as_bytes()) {
        Some(kind)
    } else {
        None
    }
}

/// A text on one line, which isn't empty nor too long.
fn line_in(text: &str) -> Option<&str>
    ensures { Reads (λ t. t.now) result (line_in text.now) }
{
    if text.is_empty() || text.len() > DATA_MAX || !are_printed(text.as_bytes()) {
        None
    } else {
        Some(text)
    }
}

pub(crate) fn is_remove(task: Task) -> bool
    ensures { result ≡ is_remove task }
{
    matches!(task, Task::Remove)
}

pub(crate) fn task_of(pairs: &[Pair]) -> Option<Task>
    ensures { result ≡ task_of (texts_of pairs.now) }
{
    task_named(first_named(pairs, "task")?)
}

fn index_of(pairs: &[Pair]) -> Option<u32>
    ensures { result ≡ index_of (texts_of pairs.now) }
{
    index_in(typed(pairs, "index")?)
}

fn kind_of(pairs: &[Pair]) -> Option<&str>
    ensures { Reads (λ t. t.now) result (kind_of (texts_of pairs.now)) }
{
    word_in(typed(pairs, "type")?)
}

fn ttl_of(pairs: &[Pair]) -> Option<u32>
    ensures { result ≡ ttl_of (texts_of pairs.now) }
{
    number_in(first_named(pairs, "ttl")?.as_bytes())
}

fn permissions_of(pairs: &[Pair]) -> Option<u8>
    ensures { result ≡ permissions_of (texts_of pairs.now) }
{
    permissions_in(first_named(pairs, "permissions")?.as_bytes())
}

/// The text that a value gets: none if it is removed.
fn text_of(task: Task, pairs: &[Pair]) -> Option<&str>
    ensures { Reads (λ t. t.now) result (text_of task (texts_of pairs.now)) }
{
    if is_remove(task) {
        return Some("");
    }
    line_in(typed(pairs, "text")?)
}

/// The text before, if the form says one.
fn old_of(pairs: &[Pair]) -> &str
    ensures { result.now ≡ old_of (texts_of pairs.now) }
{
    match first_named(pairs, "old") {
        Some(old) => old,
        None => "",
    }
}

/// Whether the text may be any: the value is removed, or it is no URL.
pub(crate) fn is_free(draft: &Draft) -> bool
    ensures { result ≡ is_free draft.now }
{
    is_remove(draft.task) || draft.kind.as_slice() != URL
}

/// Whether a URL is one that is followed.
fn is_url_usable(draft: &Draft) -> bool
    ensures { IsTrue result ↔ IsUrlUsable draft.now }
{
    is_free(draft) || is_followed(draft.text.as_slice())
}

/// Whether another handle is named: the value isn't removed, and it is an alias.
fn is_alias(draft: &Draft) -> bool
    ensures { result ≡ is_alias draft.now }
{
    !is_remove(draft.task) && draft.kind.as_slice() == HS_ALIAS
}

/// Whether a text is a handle as it is, without what stands before one where readers paste it.
fn is_plain_handle(text: &[u8]) -> bool
    ensures { IsTrue result ↔ IsPlainHandle text.now }
{
    is_name(text) && !is_address(text)
}

/// Whether an alias is a handle.
fn is_alias_usable(draft: &Draft) -> bool
    ensures { IsTrue result ↔ IsAliasUsable draft.now }
{
    !is_alias(draft) || is_plain_handle(draft.text.as_slice())
}

fn octets(alloc: Global, text: &str) -> Result<Octets, AllocError>
    ensures { IfOk result (λ octets. octets ≡ text.now) }
{
    Ok(Octets::new(Vec::from_slice(alloc, text.as_bytes())?))
}

/// The change that the fields of a form say, whatever its text is.
#[tactic(auto, unfolding(crate::specs::Draft::draft_in))]
fn draft_in(alloc: Global, pairs: &[Pair]) -> Result<Draft, DraftFault>
    ensures draft { IfOk result (λ draft. draft_in (texts_of pairs.now) ≡ Ok draft) }
    ensures fault { IfErr result (λ e. (e ≡ DraftFault.Memory) ⊎ (draft_in (texts_of pairs.now) ≡ Err e)) }
{
    let Some(task) = task_of(pairs) else {
        return Err(DraftFault::Task);
    };
    let Some(index) = index_of(pairs) else {
        return Err(DraftFault::Index);
    };
    let Some(kind) = kind_of(pairs) else {
        return Err(DraftFault::Type);
    };
    let Some(kind) = short_kind(kind) else {
        return Err(DraftFault::TypeLong);
    };
    let Some(kind) = open_kind(kind) else {
        return Err(DraftFault::TypeReserved);
    };
    let Some(ttl) = ttl_of(pairs) else {
        return Err(DraftFault::Ttl);
    };
    let Some(permissions) = permissions_of(pairs) else {
        return Err(DraftFault::Permissions);
    };
    let Some(text) = text_of(task, pairs) else {
        return Err(DraftFault::Text);
    };
    Ok(Draft {
        task,
        index,
        kind: octets(alloc, kind)?,
        ttl,
        permissions,
        old: octets(alloc, old_of(pairs))?,
        text: octets(alloc, text)?,
    })
}

/// The change that the fields of a form say, or the first thing that is wrong with it.
pub fn read_draft(alloc: Global, pairs: &[Pair]) -> Result<Draft, DraftFault>
    ensures draft { IfOk result (λ draft. (draft_in (texts_of pairs.now) ≡ Ok draft) × IsUsable draft) }
    ensures fault { IfErr result (IsDraftFault (draft_in (texts_of pairs.now))) }
{
    let draft = draft_in(alloc, pairs)?;
    if !is_url_usable(&draft) {
        return Err(DraftFault::Url);
    }
    if !is_alias_usable(&draft) {
        return Err(DraftFault::Alias);
    }
    Ok(draft)
}
