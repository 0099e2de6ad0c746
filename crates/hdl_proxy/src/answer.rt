//! What is answered over HTTP.

ghost use Rattle.std.specs.Prelude.{◌≡◌, [], None};
ghost use Rattle.hdl_proxy.specs.Answer.{Tells};
ghost use Rattle.hdl_proxy.specs.Status.{status_number, status_of_code, reported_code};

use crate::codes::{
    HANDLE_NOT_FOUND, INVALID_HANDLE, SERVER_BUSY, SERVICE_REFERRAL, SUCCESS, VALUE_NOT_FOUND,
};
use std::alloc::Global;

/// The statuses of HTTP that the proxy answers.
#[derive(Clone, Copy, PartialEq, Eq)]
pub enum Status {
    Success = 200,
    Created = 201,
    NoContent = 204,
    Found = 302,
    NotModified = 304,
    BadRequest = 400,
    Unauthorized = 401,
    Forbidden = 403,
    NotFound = 404,
    MethodNotAllowed = 405,
    RequestTimeout = 408,
    Conflict = 409,
    Gone = 410,
    ContentTooLarge = 413,
    BadGateway = 502,
    Unavailable = 503,
}

impl Status {
    pub fn number(self) -> u16
        ensures { result ≡ status_number self }
    {
        self as u16
    }

    /// The status for a reply with this code, if nothing is followed: a handle or a prefix that isn't there isn't found, a name that is
    /// none is the client's fault, a busy server may be asked again, and whatever else a server answers isn't the client's fault.
    pub fn of_code(code: u32) -> Status
        ensures { result ≡ status_of_code code }
    {
        match code {
            SUCCESS | VALUE_NOT_FOUND => Status::Success,
            HANDLE_NOT_FOUND | SERVICE_REFERRAL => Status::NotFound,
            INVALID_HANDLE => Status::BadRequest,
            SERVER_BUSY => Status::Unavailable,
            _ => Status::BadGateway,
        }
    }
}

/// The code that the proxy gives for a server's code: "handle not found" for a referral, else the same.
pub fn reported_code(code: u32) -> u32
    ensures { result ≡ reported_code code }
{
    match code {
        SERVICE_REFERRAL => HANDLE_NOT_FOUND,
        _ => code,
    }
}

/// The media type of a body.
#[derive(Clone, Copy, PartialEq, Eq)]
pub enum Media {
    /// `text/html; charset=utf-8`
    Page,
    /// The same, of a page that a browser leaves at once.
    Redirect,
    /// `application/json`, which any page may read
    Json,
    /// `text/plain; charset=utf-8`
    Text,
    /// `image/svg+xml`
    Icon,
}

/// How long others may keep an answer (RFC 9111, section 5.2.2).
#[derive(Clone, Copy, PartialEq, Eq)]
pub enum CacheControl {
    /// Not at all.
    Never,
    Seconds(u32),
}

/// An answer over HTTP.
#[derive(Drop)]
pub struct Answer {
    pub status: Status,
    /// Where to go: graphic ASCII alone.
    pub location: Option<String>,
    pub media: Media,
    pub cache_control: CacheControl,
    /// Its entity tag, which [`with_tag`](crate::with_tag) gives it.
    pub tag: Option<String>,
    /// The name of the handle that a page is about, as it stands in an address. [`Site::dress`](crate::Site::dress) makes it the whole address, if the site has one.
    pub about: Option<String>,
    /// What a page is called. Nothing else has a title.
    pub title: Vec<u8>,
    /// Of a page its main part, which [`Site::dress`](crate::Site::dress) puts between head and foot.
    pub body: Vec<u8>,
}

impl Answer {
    /// An answer that leads nowhere, and has no title and no tag yet.
    pub fn new(
        alloc: Global,
        status: Status,
        media: Media,
        cache_control: CacheControl,
        body: Vec<u8>,
    ) -> Answer
        ensures told { Tells status media result }
        ensures cache_control { result.cache_control ≡ cache_control }
        ensures about { result.about ≡ None }
        ensures title { result.title.items ≡ [] }
        ensures body { result.body ≡ body }
    {
        Answer {
            status,
            location: None,
            media,
            cache_control,
            tag: None,
            about: None,
            title: Vec::new(alloc),
            body,
        }
    }
}
