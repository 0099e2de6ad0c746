//! Pages of HTML that grow, between the head and the foot of their site.

ghost use Rattle.std.specs.Prelude.{◌≡◌, ◌++◌, [], IfOk, OnOk, decimal};
ghost use Rattle.hdl_proxy.specs.Escape.{escaped};
ghost use Rattle.hdl_languages.specs.Words.{words};
ghost use Rattle.hdl_proxy.specs.Pages.{element, handle_link, name_top, top};
ghost use Rattle.hdl_proxy.specs.Phrases.{phrase_part};

use crate::escape::put_escaped;
use crate::link::Link;
use hdl_languages::{Language, Phrase};
use hdl_name::Name;
use std::alloc::{AllocError, Global};

/// A page of HTML. Markup comes from this crate, all else is text.
#[derive(Drop)]
pub(crate) struct Page {
    pub(crate) alloc: Global,
    octets: Vec<u8>,
}

impl Page {
    /// The main part of a page, with this heading.
    #[tactic(auto, unfolding(crate::specs::Pages::top))]
    pub(crate) fn new(alloc: Global, heading: &[u8]) -> Result<Page, AllocError>
        ensures { IfOk result (λ page. page.octets.items ≡ top heading.now) }
    {
        let mut page = Page::empty(alloc);
        page.element("<h1>", heading, "</h1>\n")?;
        Ok(page)
    }

    /// The main part of a page, with this phrase as its heading.
    pub(crate) fn headed(
        alloc: Global,
        language: Language,
        heading: Phrase,
    ) -> Result<Page, AllocError>
        ensures { IfOk result (λ page. page.octets.items ≡ top (words language heading)) }
    {
        Page::new(alloc, language.words(heading).as_bytes())
    }

    /// The main part of a page about this handle, whose name is its heading.
    #[tactic(auto, unfolding(crate::specs::Pages::name_top))]
    pub(crate) fn about(alloc: Global, name: &[u8]) -> Result<Page, AllocError>
        ensures { IfOk result (λ page. page.octets.items ≡ name_top name.now) }
    {
        let mut page = Page::empty(alloc);
        page.element("<h1 dir=\"auto\">", name, "</h1>\n")?;
        Ok(page)
    }

    /// A page on which nothing stands.
    pub(crate) fn empty(alloc: Global) -> Page
        ensures { result.octets.items ≡ [] }
    {
        Page {
            alloc,
            octets: Vec::new(alloc),
        }
    }

    /// Adds markup of this crate.
    pub(crate) fn markup(&mut self, markup: &'static str) -> Result<(), AllocError>
        ensures { OnOk result (self.new.octets.items ≡ self.old.octets.items ++ markup.now) }
    {
        self.octets.extend_from_slice(markup.as_bytes())
    }

    /// Adds a phrase of this crate between this markup.
    #[tactic(auto, unfolding(crate::specs::Phrases::phrase_part))]
    pub(crate) fn phrase(
        &mut self,
        language: Language,
        front: &'static str,
        phrase: Phrase,
        back: &'static str,
    ) -> Result<(), AllocError>
        ensures { OnOk result (self.new.octets.items ≡ self.old.octets.items ++ phrase_part language front.now phrase back.now) }
    {
        self.markup(front)?;
        self.markup(language.words(phrase))?;
        self.markup(back)
    }

    /// Adds a part of a page, which was made as one.
    pub(crate) fn part(&mut self, part: &Vec<u8>) -> Result<(), AllocError>
        ensures { OnOk result (self.new.octets.items ≡ self.old.octets.items ++ part.now.items) }
    {
        self.octets.extend_from_slice(part)
    }

    /// Adds text, escaped.
    pub(crate) fn text(&mut self, text: &[u8]) -> Result<(), AllocError>
        ensures { OnOk result (self.new.octets.items ≡ self.old.octets.items ++ escaped text.now) }
    {
        put_escaped(&mut self.octets, self.alloc, text)
    }

    /// Adds text between this markup.
    pub(crate) fn element(
        &mut self,
        front: &'static str,
        text: &[u8],
        back: &'static str,
    ) -> Result<(), AllocError>
        ensures { OnOk result (self.new.octets.items ≡ self.old.octets.items ++ element front.now text.now back.now) }
    {
        self.markup(front)?;
        self.text(text)?;
        self.markup(back)
    }

    /// Adds a number in decimal.
    pub(crate) fn number(&mut self, number: u32) -> Result<(), AllocError>
        ensures { OnOk result (self.new.octets.items ≡ self.old.octets.items ++ escaped (decimal number)) }
    {
        let digits = format!(in self.alloc; "{number}")?;
        self.text(digits.as_bytes())
    }

    /// Adds a handle's name, as a link to the page of its own values.
    #[tactic(auto, unfolding(crate::specs::Pages::handle_link))]
    pub(crate) fn handle(&mut self, name: &Name) -> Result<(), AllocError>
        ensures { OnOk result (self.new.octets.items ≡ self.old.octets.items ++ handle_link name.now) }
    {
        let to = Link::to_values(self.alloc, name)?;
        self.markup("<a href=\"")?;
        self.text(to.octets())?;
        self.element("\"><bdi>", name.sent(), "</bdi></a>")
    }

    /// The octets so far.
    pub(crate) fn into_octets(self) -> Vec<u8>
        ensures { result ≡ self.octets }
    {
        let Page { octets, .. } = self;
        octets
    }
}
