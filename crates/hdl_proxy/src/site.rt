//! What all pages of a site have: its name, its style, the contact, and the address at which they are cited.

ghost use Rattle.std.specs.Prelude.{◌≡◌, ◌++◌, IfOk, OnOk, option_copied, option_map, string_bytes};
ghost use Rattle.hdl_proxy.specs.Site.{IsAddressIn, IsBound, IsContactIn, IsContactOf, IsContactWay, IsDressed, IsSiteOf, about_part, address_part, contact_part, foot, front_part, is_bound, page_of, redirect_cache_control, whole_address};

use crate::answer::{Answer, CacheControl, Media, Status};
use crate::link::Link;
use crate::page::Page;
use crate::step::within;
use crate::url::is_site_address;
use hdl_languages::{Language, Phrase};
use std::alloc::{AllocError, Global};

/// Behind the language of a page.
const HEAD: &str = "\">
<head>
<meta charset=\"utf-8\">
<meta name=\"viewport\" content=\"width=device-width, initial-scale=1\">
<link rel=\"icon\" href=\"/favicon.ico\" type=\"image/svg+xml\">
<title>";

const STYLE: &str = "<style>
:root { color-scheme: light dark; --ink: #1b2421; --soft: #50605a; --line: #d3dedb; --paper: #fff; --jade: #1d6b57 }
@media (prefers-color-scheme: dark) { :root { --ink: #e3ebe8; --soft: #a5b6b0; --line: #35433e; --paper: #131917; --jade: #7fd1b9 } }
* { box-sizing: border-box }
body { margin: 0; border-top: .3rem solid var(--jade); font: 1rem/1.5 system-ui, sans-serif; color: var(--ink); background: var(--paper) }
header, main, footer { max-width: 60rem; margin: 0 auto; padding: 1rem 1.25rem }
header { padding-bottom: 0; font-weight: 600 }
header a { color: inherit; text-decoration: none }
footer { color: var(--soft); font-size: .9rem }
header a, footer a { display: inline-block; padding: .2rem 0 }
a { color: var(--jade) }
:focus-visible { outline: 3px solid var(--jade); outline-offset: 2px }
h1 { font-size: 1.5rem; line-height: 1.25; margin: .75rem 0 1rem; overflow-wrap: anywhere }
.name { font-size: 1.125rem; font-weight: 600; overflow-wrap: anywhere }
p { max-width: 44rem; margin: 0 0 .75rem }
small { font-size: .875rem; font-weight: normal; color: var(--soft) }
table { width: 100%; margin: 0 0 1.5rem; border-collapse: collapse; border-top: 1px solid var(--line) }
th, td { padding: .55rem 1rem .55rem 0; border-bottom: 1px solid var(--line); text-align: left; vertical-align: top; overflow-wrap: anywhere }
thead th { font-size: .875rem; font-weight: normal; color: var(--soft) }
th:first-child { width: 10rem }
td, thead th:last-child { padding-right: 0 }
.types .type th { padding-top: 1.1rem; font-size: 1.0625rem }
.types th[scope=row] bdi { display: none }
td p, td ul { max-width: none; margin: 0; text-align: start }
.data, .text { white-space: pre-wrap; overflow-wrap: anywhere }
.data { font-family: ui-monospace, monospace; font-size: .95em }
.written { font-size: .875rem; color: var(--soft) }
summary { width: fit-content; padding: .1rem 0; cursor: pointer; color: var(--jade) }
.may { padding: 0; list-style: none; font-size: .875rem; color: var(--soft) }
.may li { display: inline }
.may li + li::before { content: \", \" }
.note { margin: .75rem 0 1rem; padding-left: .75rem; border-left: .25rem solid var(--jade) }
.note, ol { overflow-wrap: anywhere }
ol { margin: 0 0 .75rem; padding-left: 2.25rem }
ol li { padding: .125rem 0 }
.find { display: flex; flex-wrap: wrap; gap: .5rem }
input, button { font: inherit; padding: .5rem .75rem; border: 1px solid var(--soft); border-radius: .3rem; color: inherit; background: var(--paper) }
input { flex: 1 1 16rem }
.fields { margin: 0 0 2rem; padding-top: .75rem; border-top: 1px solid var(--line) }
.fields label { display: block; margin: 0 0 .25rem }
.fields input { width: 100%; max-width: 44rem }
.fault { font-weight: 600 }
.fault:empty { display: none }
.fault::before { content: \"! \" }
h2 { font-size: 1.1875rem; margin: 1.5rem 0 .75rem }
.pair { display: flex; flex-wrap: wrap; gap: 1rem 2rem; margin: 0 0 1.5rem }
.pair div { flex: 1 1 18rem; min-width: 0 }
dt { font-size: .875rem; color: var(--soft) }
dd { margin: 0; overflow-wrap: anywhere }
::placeholder { color: var(--soft); opacity: 1 }
button { border-color: var(--jade); color: var(--paper); background: var(--jade) }
.less { color: var(--jade); background: var(--paper) }
@media (max-width: 40rem) {
thead { position: absolute; width: 1px; height: 1px; overflow: hidden; clip-path: inset(50%) }
tbody tr { display: block; padding: .6rem 0; border-bottom: 1px solid var(--line) }
tbody th:first-child, tbody td { display: block; width: auto; padding: 0; border: 0 }
.types tr:has(td) { display: flex; gap: .75rem }
.types th[scope=row] { flex: 0 0 2rem }
}
@media print {
:root { color-scheme: light; --ink: #000; --soft: #333; --line: #999; --paper: #fff; --jade: #000 }
body { border-top: 0 }
tr { break-inside: avoid }
}
</style>
</head>
<body>
<header><a href=\"/\"><bdi>";

const MAIN: &str = "</bdi></a></header>
<main>
";

/// The address of a contact, and its text.
#[derive(Drop)]
struct Contact {
    to: Link,
    text: String,
}

/// Whether it is a redirect, or says that a handle is gone.
fn is_bound(answer: &Answer) -> bool
    ensures { result ≡ is_bound answer.now }
{
    answer.location.is_some() || answer.status.number() == Status::Gone.number()
}

/// A site: its name, the contact for readers' questions, its address, and for how many seconds browsers keep its redirects at most.
#[derive(Drop)]
pub struct Site {
    name: String,
    contact: Option<Contact>,
    address: Option<String>,
    redirects: u32,
}

/// The way to a contact: to a URL that is followed, and else by mail. None where it has a control octet.
fn way_to(alloc: Global, contact: &str) -> Result<Option<Link>, AllocError>
    ensures { IfOk result (IsContactWay contact.now) }
{
    if let Some(link) = Link::of_url(alloc, contact.as_bytes())? {
        return Ok(Some(link));
    }
    let mail = format!(in alloc; "mailto:{contact}")?;
    Link::of_url(alloc, mail.as_bytes())
}

fn contact_of(alloc: Global, contact: &str) -> Result<Option<Contact>, AllocError>
    ensures { IfOk result (IsContactOf contact.now) }
{
    match way_to(alloc, contact)? {
        Some(to) => Ok(Some(Contact {
            to,
            text: String::from_str(alloc, contact)?,
        })),
        None => Ok(None),
    }
}

/// The contact of what was said, if anything was.
fn contact_in(alloc: Global, said: Option<&str>) -> Result<Option<Contact>, AllocError>
    ensures { IfOk result (IsContactIn (option_copied said.entry)) }
{
    match said {
        Some(said) => contact_of(alloc, said),
        None => Ok(None),
    }
}

/// The address of a site that was said, if it is one.
fn address_in(alloc: Global, said: Option<&str>) -> Result<Option<String>, AllocError>
    ensures { IfOk result (λ address. IsAddressIn (option_copied said.entry) (option_map string_bytes address)) }
{
    match said {
        Some(said) if is_site_address(said) => Ok(Some(String::from_str(alloc, said)?)),
        _ => Ok(None),
    }
}

/// The whole address of a name, where the site and the name are there.
fn whole_address(
    alloc: Global,
    address: &Option<String>,
    name: &Option<String>,
) -> Result<Option<String>, AllocError>
    ensures { IfOk result (λ whole. option_map string_bytes whole ≡ whole_address (option_map string_bytes address.now) (option_map string_bytes name.now)) }
{
    let (Some(address), Some(name)) = (address, name) else {
        return Ok(None);
    };
    let mut whole = String::from_str(alloc, address.as_str())?;
    whole.push_str(name.as_str())?;
    Ok(Some(whole))
}

/// What programs read of a page's address: where it is cited, and what a link to it says.
#[tactic(auto, unfolding(crate::specs::Site::address_part))]
fn put_address(page: &mut Page, title: &[u8], name: &[u8], address: &[u8]) -> Result<(), AllocError>
    ensures { OnOk result (page.new.octets.items ≡ page.old.octets.items ++ address_part title.now name.now address.now) }
{
    page.element("<link rel=\"canonical\" href=\"", address, "\">\n")?;
    page.element("<meta property=\"og:url\" content=\"", address, "\">\n")?;
    page.element("<meta property=\"og:title\" content=\"", title, "\">\n")?;
    page.element("<meta property=\"og:site_name\" content=\"", name, "\">\n")
}

fn put_about(
    page: &mut Page,
    title: &[u8],
    name: &[u8],
    address: &Option<String>,
) -> Result<(), AllocError>
    ensures { OnOk result (page.new.octets.items ≡ page.old.octets.items ++ about_part title.now name.now (option_map string_bytes address.now)) }
{
    match address {
        Some(address) => put_address(page, title, name, address.as_bytes()),
        None => Ok(()),
    }
}

#[tactic(auto, unfolding(crate::specs::Site::front_part))]
fn put_front(
    page: &mut Page,
    language: Language,
    title: &[u8],
    name: &[u8],
    address: &Option<String>,
) -> Result<(), AllocError>
    ensures { OnOk result (page.new.octets.items ≡ page.old.octets.items ++ front_part language title.now name.now (option_map string_bytes address.now)) }
{
    page.phrase(
        language,
        "<!DOCTYPE html>\n<html lang=\"",
        Phrase::LanguageTag,
        HEAD,
    )?;
    page.text(title)?;
    page.element(" - ", name, "</title>\n")?;
    put_about(page, title, name, address)?;
    page.markup(STYLE)?;
    page.text(name)?;
    page.markup(MAIN)
}

#[tactic(auto, unfolding(crate::specs::Site::contact_part))]
fn put_contact(page: &mut Page, language: Language, contact: &Contact) -> Result<(), AllocError>
    ensures { OnOk result (page.new.octets.items ≡ page.old.octets.items ++ contact_part language contact.now) }
{
    page.phrase(language, "<footer>", Phrase::Questions, " <a href=\"")?;
    page.text(contact.to.octets())?;
    page.element("\"><bdi>", contact.text.as_bytes(), "</bdi></a></footer>\n")
}

fn put_foot(
    page: &mut Page,
    language: Language,
    contact: &Option<Contact>,
) -> Result<(), AllocError>
    ensures { OnOk result (page.new.octets.items ≡ page.old.octets.items ++ foot language contact.now) }
{
    match contact {
        Some(contact) => put_contact(page, language, contact),
        None => Ok(()),
    }
}

impl Site {
    /// A site with this name, and a contact where there is one: a URL that is followed, or an address of mail. One with a control octet is
    /// none. Its address is none if it isn't the address of a site ([`is_site_address`](crate::is_site_address)).
    pub fn new(
        alloc: Global,
        name: &str,
        contact: Option<&str>,
        address: Option<&str>,
        redirects: u32,
    ) -> Result<Site, AllocError>
        ensures site { IfOk result (IsSiteOf name.now (option_copied contact.entry) (option_copied address.entry) redirects) }
    {
        let contact = contact_in(alloc, contact)?;
        let address = address_in(alloc, address)?;
        Ok(Site {
            name: String::from_str(alloc, name)?,
            contact,
            address,
            redirects,
        })
    }

    /// The site's address, if it has one.
    pub fn address(&self) -> Option<&str>
        ensures { option_copied result ≡ option_map string_bytes self.now.address }
    {
        match &self.address {
            Some(address) => Some(address.as_str()),
            None => None,
        }
    }

    /// How long browsers keep a redirect at most.
    fn redirect_cache_control(&self) -> CacheControl
        ensures { result ≡ redirect_cache_control self.now.redirects }
    {
        match self.redirects {
            0 => CacheControl::Never,
            seconds => CacheControl::Seconds(seconds),
        }
    }

    /// The answer as browsers may keep it: a redirect, and that a handle is gone, no longer than this site says, since both may be taken back; and all else as it is.
    pub fn bound(&self, answer: Answer) -> Answer
        ensures { IsBound self.now answer result }
    {
        if !is_bound(&answer) {
            return answer;
        }
        within(self.redirect_cache_control(), answer)
    }

    /// The whole page of this main part, at this address.
    fn page(
        &self,
        alloc: Global,
        language: Language,
        title: &[u8],
        address: &Option<String>,
        main: &Vec<u8>,
    ) -> Result<Vec<u8>, AllocError>
        ensures { IfOk result (λ octets. octets.items ≡ page_of self.now language title.now (option_map string_bytes address.now) main.now.items) }
    {
        let mut page = Page::empty(alloc);
        put_front(&mut page, language, title, self.name.as_bytes(), address)?;
        page.part(main)?;
        page.markup("</main>\n")?;
        put_foot(&mut page, language, &self.contact)?;
        page.markup("</body>\n</html>\n")?;
        Ok(page.into_octets())
    }

    /// The answer as this site gives it: a page between the head and the foot of the site, in this language, and all else as it is.
    pub fn dress(
        &self,
        alloc: Global,
        language: Language,
        answer: Answer,
    ) -> Result<Answer, AllocError>
        ensures { IfOk result (IsDressed self.now language answer) }
    {
        if answer.media != Media::Page {
            return Ok(answer);
        }
        let about = whole_address(alloc, &self.address, &answer.about)?;
        let body = self.page(alloc, language, &answer.title, &about, &answer.body)?;
        Ok(Answer {
            about,
            body,
            ..answer
        })
    }
}
