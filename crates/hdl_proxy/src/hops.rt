//! How a page says through which handles aliases led.

ghost use Rattle.std.specs.Prelude.{◌≡◌, ◌++◌, IfOk, OnOk, flat_map};
ghost use Rattle.hdl_proxy.specs.Answer.{Tells};
ghost use Rattle.hdl_proxy.specs.Hops.{alias_part, hop_part, hops_part, nowhere_page};
ghost use Rattle.hdl_proxy.specs.Pages.{refusal_title};

use crate::answer::{Answer, CacheControl, Media, Status};
use crate::codes::TOO_FAR;
use crate::page::Page;
use crate::pages::{page_answer, put_advice, put_name, refusal_title};
use hdl_languages::{Language, Phrase};
use hdl_name::Name;
use std::alloc::{AllocError, Global};

/// Adds which handle was asked for, whose alias led to the handle of this page.
#[tactic(auto, unfolding(crate::specs::Hops::alias_part))]
pub(crate) fn put_alias(page: &mut Page, language: Language, asked: &Name) -> Result<(), AllocError>
    ensures { OnOk result (page.new.octets.items ≡ page.old.octets.items ++ alias_part language asked.now) }
{
    page.markup("<p class=\"note\">")?;
    page.handle(asked)?;
    page.phrase(language, " ", Phrase::IsAlias, "</p>\n")
}

#[tactic(auto, unfolding(crate::specs::Hops::hop_part))]
fn put_hop(page: &mut Page, name: &Name) -> Result<(), AllocError>
    ensures { OnOk result (page.new.octets.items ≡ page.old.octets.items ++ hop_part name.now) }
{
    page.markup("<li>")?;
    page.handle(name)?;
    page.markup("</li>\n")
}

fn put_each_hop(page: &mut Page, names: &[Name]) -> Result<(), AllocError>
    ensures { OnOk result (page.new.octets.items ≡ page.old.octets.items ++ flat_map hop_part names.now) }
{
    for name in names {
        put_hop(page, name)?;
    }
    Ok(())
}

/// The handles that aliases lead through in order, this one the last.
#[tactic(auto, unfolding(crate::specs::Hops::hops_part))]
fn put_hops(page: &mut Page, names: &[Name], target: &Name) -> Result<(), AllocError>
    ensures { OnOk result (page.new.octets.items ≡ page.old.octets.items ++ hops_part names.now target.now) }
{
    page.markup("<ol>\n")?;
    put_each_hop(page, names)?;
    put_hop(page, target)?;
    page.markup("</ol>\n")
}

/// A page that says of a handle that its aliases lead nowhere, by all of them, and what to do.
#[tactic(auto, unfolding(crate::specs::Hops::nowhere_page))]
pub(crate) fn nowhere_page(
    alloc: Global,
    language: Language,
    handle: &[u8],
    front: Phrase,
    names: &[Name],
    target: &Name,
) -> Result<Answer, AllocError>
    ensures told { IfOk result (Tells Status.NotFound Media.Page) }
    ensures kept { IfOk result (λ a. a.cache_control ≡ CacheControl.Never) }
    ensures title { IfOk result (λ a. a.title.items ≡ refusal_title language 6 handle.now) }
    ensures body { IfOk result (λ a. a.body.items ≡ nowhere_page language handle.now front names.now target.now) }
{
    let title = refusal_title(alloc, language, handle, TOO_FAR)?;
    let mut page = Page::headed(alloc, language, Phrase::LeadsNowhere)?;
    put_name(&mut page, handle)?;
    page.element("<p>", language.words(front).as_bytes(), "</p>\n")?;
    put_hops(&mut page, names, target)?;
    put_advice(&mut page, language, TOO_FAR, handle)?;
    Ok(page_answer(Status::NotFound, CacheControl::Never, title, page))
}
