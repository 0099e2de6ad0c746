//! What browsers and crawlers ask every site for.

ghost use Rattle.std.specs.Prelude.{IfOk};
ghost use Rattle.hdl_proxy.specs.Begin.{IsFileOf, IsIcon, IsRobots};

use crate::answer::{Answer, CacheControl, Media, Status};
use crate::cache_control::DAY_SECONDS;
use std::alloc::{AllocError, Global};

/// What crawlers may read: the addresses of handles, and not the interface for programs.
const ROBOTS: &str = "User-agent: *
Disallow: /api/
";

/// The picture of a browser's tab.
const ICON: &str =
    "<svg xmlns=\"http://www.w3.org/2000/svg\" viewBox=\"0 0 16 16\"><rect width=\"16\" height=\"16\" rx=\"3\" fill=\"#1d6b57\"/><path d=\"M5 3.5v9M11 3.5v9M5 8h6\" stroke=\"#fff\" stroke-width=\"2\"/></svg>
";

fn file(alloc: Global, media: Media, text: &str) -> Result<Answer, AllocError>
    ensures { IfOk result (IsFileOf media text.now) }
{
    let body = Vec::from_slice(alloc, text.as_bytes())?;
    Ok(Answer::new(
        alloc,
        Status::Success,
        media,
        CacheControl::Seconds(DAY_SECONDS),
        body,
    ))
}

/// `robots.txt` (RFC 9309).
pub(crate) fn robots(alloc: Global) -> Result<Answer, AllocError>
    ensures { IfOk result IsRobots }
{
    file(alloc, Media::Text, ROBOTS)
}

/// The icon of the site.
pub(crate) fn icon(alloc: Global) -> Result<Answer, AllocError>
    ensures { IfOk result IsIcon }
{
    file(alloc, Media::Icon, ICON)
}
