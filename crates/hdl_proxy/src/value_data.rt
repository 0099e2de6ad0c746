//! What a page shows of a value's data.

ghost use Rattle.std.specs.Prelude.{◌≡◌, ◌++◌, List, ℕ, IfOk, MatchOption, OnOk, flat_map};
ghost use Rattle.std.specs.List.{list_all};
ghost use Rattle.hdl_value.specs.Refs.{raw, raws};
ghost use Rattle.hdl_proxy.specs.Pages.{permission_part, handle_permissions, value_permissions, admin_permissions, permissions_part, is_plain, is_plain_octet, link_part, alias_link, digits_part, admin_part, reference_part, IsDataPart, IsOctetsPart, IsTextPart, NamesHandle};

use crate::choice::is_alias;
use crate::link::Link;
use crate::names::read_name;
use crate::page::Page;
use hdl_languages::{Language, Phrase};
use hdl_name::Name;
use hdl_value::{AdminMask, AdminPermission, Reference, Value, admin_of, vlist_of};
use std::alloc::{AllocError, Global};

/// Whether an octet of a text stands on a page: control octets don't, but for tabs and line ends.
fn is_plain_octet(octet: u8) -> bool
    ensures { result ≡ is_plain_octet octet }
{
    octet == b'\t' || octet == b'\n' || (octet >= b' ' && octet != 127)
}

fn are_plain(octets: &[u8]) -> bool
    ensures { result ≡ list_all is_plain_octet octets.now }
{
    octets.iter().all(|octet| is_plain_octet(*octet))
}

/// Whether the octets are text without control octets but tabs and line ends.
fn is_plain(octets: &[u8]) -> bool
    ensures { result ≡ is_plain octets.now }
{
    let Ok(text) = str::from_utf8(octets) else {
        return false;
    };
    are_plain(text.as_bytes())
}

/// An item of a list, where the mask has this permission.
fn put_permission(
    page: &mut Page,
    language: Language,
    mask: AdminMask,
    permission: AdminPermission,
    item: Phrase,
) -> Result<(), AllocError>
    ensures { OnOk result (page.new.octets.items ≡ page.old.octets.items ++ permission_part language mask.0 permission item) }
{
    if mask.permits(permission) {
        return page.phrase(language, "<li>", item, "</li>");
    }
    Ok(())
}

#[tactic(auto, unfolding(crate::specs::Pages::handle_permissions))]
fn put_handle_permissions(
    page: &mut Page,
    language: Language,
    mask: AdminMask,
) -> Result<(), AllocError>
    ensures { OnOk result (page.new.octets.items ≡ page.old.octets.items ++ handle_permissions language mask.0) }
{
    put_permission(
        page,
        language,
        mask,
        AdminPermission::AddHandle,
        Phrase::CreateHandles,
    )?;
    put_permission(
        page,
        language,
        mask,
        AdminPermission::DeleteHandle,
        Phrase::DeleteHandles,
    )?;
    put_permission(
        page,
        language,
        mask,
        AdminPermission::ListHandle,
        Phrase::ListHandles,
    )?;
    put_permission(
        page,
        language,
        mask,
        AdminPermission::AuthorizedRead,
        Phrase::ReadHidden,
    )
}

#[tactic(auto, unfolding(crate::specs::Pages::value_permissions))]
fn put_value_permissions(
    page: &mut Page,
    language: Language,
    mask: AdminMask,
) -> Result<(), AllocError>
    ensures { OnOk result (page.new.octets.items ≡ page.old.octets.items ++ value_permissions language mask.0) }
{
    put_permission(
        page,
        language,
        mask,
        AdminPermission::AddValue,
        Phrase::AddValues,
    )?;
    put_permission(
        page,
        language,
        mask,
        AdminPermission::ModifyValue,
        Phrase::ChangeValues,
    )?;
    put_permission(
        page,
        language,
        mask,
        AdminPermission::DeleteValue,
        Phrase::RemoveValues,
    )
}

#[tactic(auto, unfolding(crate::specs::Pages::admin_permissions))]
fn put_admin_permissions(
    page: &mut Page,
    language: Language,
    mask: AdminMask,
) -> Result<(), AllocError>
    ensures { OnOk result (page.new.octets.items ≡ page.old.octets.items ++ admin_permissions language mask.0) }
{
    put_permission(
        page,
        language,
        mask,
        AdminPermission::AddAdmin,
        Phrase::AddAdministrators,
    )?;
    put_permission(
        page,
        language,
        mask,
        AdminPermission::ModifyAdmin,
        Phrase::ChangeAdministrators,
    )?;
    put_permission(
        page,
        language,
        mask,
        AdminPermission::RemoveAdmin,
        Phrase::RemoveAdministrators,
    )
}

/// What an administrator may do, but for what nothing asks for.
#[tactic(auto, unfolding(crate::specs::Pages::permissions_part))]
fn put_permissions(page: &mut Page, language: Language, mask: AdminMask) -> Result<(), AllocError>
    ensures { OnOk result (page.new.octets.items ≡ page.old.octets.items ++ permissions_part language mask.0) }
{
    page.markup("<ul class=\"may\">")?;
    put_handle_permissions(page, language, mask)?;
    put_value_permissions(page, language, mask)?;
    put_admin_permissions(page, language, mask)?;
    page.markup("</ul>\n")
}

#[tactic(auto, unfolding(crate::specs::Pages::admin_part))]
fn put_admin(
    page: &mut Page,
    language: Language,
    mask: AdminMask,
    key: &Reference,
) -> Result<(), AllocError>
    ensures { OnOk result (page.new.octets.items ≡ page.old.octets.items ++ admin_part language (mask.0, raw key.now)) }
{
    page.phrase(
        language,
        "<details><summary>",
        Phrase::WhoMayChange,
        "</summary>\n",
    )?;
    page.phrase(
        language,
        "<p>",
        Phrase::HolderOfKey,
        " <span class=\"data\">",
    )?;
    page.number(key.index)?;
    page.markup(":<bdi>")?;
    page.text(key.name.sent())?;
    page.phrase(language, "</bdi></span> ", Phrase::May, "</p>\n")?;
    put_permissions(page, language, mask)?;
    page.markup("</details>\n")
}

#[tactic(auto, unfolding(crate::specs::Pages::reference_part))]
fn put_reference(page: &mut Page, reference: &Reference) -> Result<(), AllocError>
    ensures { OnOk result (page.new.octets.items ≡ page.old.octets.items ++ reference_part (raw reference.now)) }
{
    page.markup("<p class=\"data\">")?;
    page.number(reference.index)?;
    page.markup(":<bdi>")?;
    page.text(reference.name.sent())?;
    page.markup("</bdi></p>\n")
}

fn put_list(page: &mut Page, references: &[Reference]) -> Result<(), AllocError>
    ensures { OnOk result (page.new.octets.items ≡ page.old.octets.items ++ flat_map reference_part (raws references.now)) }
{
    for reference in references {
        put_reference(page, reference)?;
    }
    Ok(())
}

#[tactic(auto, unfolding(crate::specs::Pages::link_part))]
fn put_link(page: &mut Page, to: &Link, text: &[u8]) -> Result<(), AllocError>
    ensures { OnOk result (page.new.octets.items ≡ page.old.octets.items ++ link_part to.now text.now) }
{
    page.markup("<p class=\"data\" dir=\"auto\"><a rel=\"noreferrer\" href=\"")?;
    page.text(to.octets())?;
    page.markup("\">")?;
    page.text(text)?;
    page.markup("</a></p>\n")
}

#[tactic(auto, unfolding(crate::specs::Pages::digits_part))]
fn put_digits(page: &mut Page, language: Language, octets: &[u8]) -> Result<(), AllocError>
    ensures { OnOk result (page.new.octets.items ≡ page.old.octets.items ++ digits_part language octets.now) }
{
    let digits = hex::encode(page.alloc, octets)?;
    let count = format!(in page.alloc; "{}", octets.len())?;
    page.phrase(language, "<p>", Phrase::NotText, " ")?;
    page.text(count.as_bytes())?;
    page.markup("</p>\n")?;
    page.element("<p class=\"data\">", digits.as_bytes(), "</p>\n")
}

fn put_octets(page: &mut Page, language: Language, octets: &[u8]) -> Result<(), AllocError>
    ensures { OnOk result ((part : List ℕ) × IsOctetsPart language octets.now part × (page.new.octets.items ≡ page.old.octets.items ++ part)) }
{
    if !is_plain(octets) {
        return put_digits(page, language, octets);
    }
    match Link::of_url(page.alloc, octets)? {
        Some(link) => put_link(page, &link, octets),
        None => page.element("<p class=\"text\" dir=\"auto\">", octets, "</p>\n"),
    }
}

/// The handle that an alias names, where its data is plain text. None just where it names none so.
fn alias_name(alloc: Global, value: &Value) -> Result<Option<Name>, AllocError>
    ensures { IfOk result (λ named. MatchOption named (¬ (NamesHandle value.now)) (λ name. NamesHandle value.now × (name ≡ value.now.bytes))) }
{
    let octets = value.bytes.as_slice();
    if !is_alias(value) || !is_plain(octets) {
        return Ok(None);
    }
    match read_name(alloc, octets)? {
        Ok(name) => Ok(Some(name)),
        Err(_) => Ok(None),
    }
}

#[tactic(auto, unfolding(crate::specs::Pages::alias_link))]
fn put_alias_link(page: &mut Page, name: &Name) -> Result<(), AllocError>
    ensures { OnOk result (page.new.octets.items ≡ page.old.octets.items ++ alias_link name.now) }
{
    page.markup("<p class=\"data\">")?;
    page.handle(name)?;
    page.markup("</p>\n")
}

/// An alias as a link to the page of the other handle's own values, and else the octets.
fn put_text(page: &mut Page, language: Language, value: &Value) -> Result<(), AllocError>
    ensures { OnOk result ((part : List ℕ) × IsTextPart language value.now part × (page.new.octets.items ≡ page.old.octets.items ++ part)) }
{
    match alias_name(page.alloc, value)? {
        Some(name) => put_alias_link(page, &name),
        None => put_octets(page, language, value.bytes.as_slice()),
    }
}

/// What a value's data is: an administrator, a list of references, or text.
pub(crate) fn put_data(page: &mut Page, language: Language, value: &Value) -> Result<(), AllocError>
    ensures { OnOk result ((part : List ℕ) × IsDataPart language value.now part × (page.new.octets.items ≡ page.old.octets.items ++ part)) }
{
    if let Some((mask, key)) = admin_of(page.alloc, value)? {
        return put_admin(page, language, mask, &key);
    }
    if let Some(references) = vlist_of(page.alloc, value)? {
        return put_list(page, &references);
    }
    put_text(page, language, value)
}
