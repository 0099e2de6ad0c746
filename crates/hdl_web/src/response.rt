//! An answer as a response.

ghost use Rattle.std.specs.Prelude.{◌≡◌, IfOk};
ghost use Rattle.http.specs.Response.{head_of};
ghost use Rattle.hdl_proxy.specs.Status.{status_number};

use bytes::Bytes;
use hdl_proxy::{Answer, CacheControl, Media, Status};
use hdl_routes::LEFT_OUT_MILLIS;
use http::StatusCode;
use http::header::{
    ACCESS_CONTROL_ALLOW_HEADERS, ACCESS_CONTROL_ALLOW_METHODS, ACCESS_CONTROL_ALLOW_ORIGIN,
    ACCESS_CONTROL_MAX_AGE, ALLOW, CACHE_CONTROL, CONTENT_SECURITY_POLICY, CONTENT_TYPE, ETAG,
    HeaderMap, HeaderName, HeaderValue, LINK, LOCATION, REFERRER_POLICY, RETRY_AFTER, VARY,
    WWW_AUTHENTICATE, X_CONTENT_TYPE_OPTIONS,
};
use http::response::{Parts, Response};
use http_body_util::Full;
use std::alloc::{AllocError, Global};

/// What a page may load: nothing but its own style and this host's icon. Its form leads to this host, and from there to where a handle leads.
const POLICY: &str =
    "default-src 'none'; style-src 'unsafe-inline'; img-src 'self'; base-uri 'none'; frame-ancestors 'none'";

/// The same for pages that no one keeps, where handles are changed: their forms lead to this host alone.
const FORM_POLICY: &str =
    "default-src 'none'; style-src 'unsafe-inline'; img-src 'self'; form-action 'self'; base-uri 'none'; frame-ancestors 'none'";

/// When a client may ask again where a server is busy or doesn't answer, in seconds: as long as a server that failed is left out.
const RETRY_SECONDS: u64 = LEFT_OUT_MILLIS / 1000;

/// Adds a field whose value is made here.
fn put_text(
    alloc: Global,
    headers: &mut HeaderMap<HeaderValue>,
    name: HeaderName,
    value: &str,
) -> Result<(), AllocError> {
    match HeaderValue::from_str(alloc, value) {
        Ok(value) => put(headers, name, value),
        Err(_) => Err(AllocError),
    }
}

/// Adds a field. One whose value is a text of this program needs no copy.
fn put(
    headers: &mut HeaderMap<HeaderValue>,
    name: HeaderName,
    value: HeaderValue,
) -> Result<(), AllocError> {
    match headers.insert(name, value) {
        Ok(_) => Ok(()),
        Err(_) => Err(AllocError),
    }
}

/// The fields of a page. One that a browser leaves at once says nothing of the address that it came from, so the next site learns it.
fn put_page(
    headers: &mut HeaderMap<HeaderValue>,
    stays: bool,
    policy: HeaderValue,
) -> Result<(), AllocError> {
    let html = HeaderValue::from_static("text/html; charset=utf-8");
    put(headers, CONTENT_TYPE, html)?;
    put(headers, CONTENT_SECURITY_POLICY, policy)?;
    if stays {
        put(
            headers,
            REFERRER_POLICY,
            HeaderValue::from_static("no-referrer"),
        )?;
    }
    Ok(())
}

fn put_json(headers: &mut HeaderMap<HeaderValue>) -> Result<(), AllocError> {
    put(
        headers,
        CONTENT_TYPE,
        HeaderValue::from_static("application/json"),
    )?;
    put(
        headers,
        ACCESS_CONTROL_ALLOW_ORIGIN,
        HeaderValue::from_static("*"),
    )
}

/// What a page of this lifetime may load, and where its forms lead.
fn policy_of(cache_control: CacheControl, changes: bool) -> HeaderValue {
    if changes && cache_control == CacheControl::Never {
        HeaderValue::from_static(FORM_POLICY)
    } else {
        HeaderValue::from_static(POLICY)
    }
}

fn put_media(
    headers: &mut HeaderMap<HeaderValue>,
    media: Media,
    policy: HeaderValue,
) -> Result<(), AllocError> {
    put(
        headers,
        X_CONTENT_TYPE_OPTIONS,
        HeaderValue::from_static("nosniff"),
    )?;
    match media {
        Media::Page => put_page(headers, true, policy),
        Media::Redirect => put_page(headers, false, policy),
        Media::Json => put_json(headers),
        Media::Text => {
            let plain = HeaderValue::from_static("text/plain; charset=utf-8");
            put(headers, CONTENT_TYPE, plain)
        }
        Media::Icon => put(
            headers,
            CONTENT_TYPE,
            HeaderValue::from_static("image/svg+xml"),
        ),
    }
}

/// The methods of an address under `/api/`.
fn methods(changes: bool) -> HeaderValue {
    if changes {
        HeaderValue::from_static("GET, HEAD, PUT, DELETE, OPTIONS")
    } else {
        HeaderValue::from_static("GET, HEAD, OPTIONS")
    }
}

/// The fields by which a browser learns which requests another page may send, for a day. The star doesn't stand for `Authorization`.
fn put_options(headers: &mut HeaderMap<HeaderValue>, changes: bool) -> Result<(), AllocError> {
    put(headers, ALLOW, methods(changes))?;
    put(headers, ACCESS_CONTROL_ALLOW_METHODS, methods(changes))?;
    let fields = HeaderValue::from_static("*, Authorization");
    put(headers, ACCESS_CONTROL_ALLOW_HEADERS, fields)?;
    put(
        headers,
        ACCESS_CONTROL_MAX_AGE,
        HeaderValue::from_static("86400"),
    )
}

/// When a client may ask again.
fn put_retry(alloc: Global, headers: &mut HeaderMap<HeaderValue>) -> Result<(), AllocError> {
    let seconds = format!(in alloc; "{RETRY_SECONDS}")?;
    put_text(alloc, headers, RETRY_AFTER, seconds.as_str())
}

/// The fields of an answer by its status.
fn put_status(
    alloc: Global,
    headers: &mut HeaderMap<HeaderValue>,
    answer: &Answer,
    changes: bool,
) -> Result<(), AllocError> {
    match (answer.status, answer.media) {
        (Status::MethodNotAllowed, Media::Json) => put(headers, ALLOW, methods(changes)),
        (Status::MethodNotAllowed, _) => put(headers, ALLOW, HeaderValue::from_static("GET, HEAD")),
        (Status::NoContent, _) => put_options(headers, changes),
        (Status::Unauthorized, _) => {
            let basic = HeaderValue::from_static("Basic realm=\"handles\"");
            put(headers, WWW_AUTHENTICATE, basic)
        }
        (Status::BadGateway | Status::Unavailable, _) => put_retry(alloc, headers),
        _ => Ok(()),
    }
}

fn put_cache_control(
    alloc: Global,
    headers: &mut HeaderMap<HeaderValue>,
    cache_control: CacheControl,
) -> Result<(), AllocError> {
    match cache_control {
        CacheControl::Never => put(headers, CACHE_CONTROL, HeaderValue::from_static("no-store")),
        CacheControl::Seconds(seconds) => {
            let text = format!(in alloc; "max-age={seconds}")?;
            put_text(alloc, headers, CACHE_CONTROL, text.as_str())
        }
    }
}

/// The fields of an answer's response. `changes` says whether handles are changed here, `varies` whether requests choose the language of pages.
pub(crate) fn headers_of(
    alloc: Global,
    answer: &Answer,
    changes: bool,
    varies: bool,
) -> Result<HeaderMap<HeaderValue>, AllocError> {
    let mut headers = HeaderMap::new(alloc);
    if varies && answer.media == Media::Page {
        put(
            &mut headers,
            VARY,
            HeaderValue::from_static("Accept-Language"),
        )?;
    }
    let policy = policy_of(answer.cache_control, changes);
    put_media(&mut headers, answer.media, policy)?;
    put_status(alloc, &mut headers, answer, changes)?;
    put_cache_control(alloc, &mut headers, answer.cache_control)?;
    if let Some(tag) = &answer.tag {
        put_text(alloc, &mut headers, ETAG, tag.as_str())?;
    }
    if let Some(address) = &answer.about {
        let link = format!(in alloc; "<{address}>; rel=\"cite-as\"")?;
        put_text(alloc, &mut headers, LINK, link.as_str())?;
    }
    if let Some(location) = &answer.location {
        put_text(alloc, &mut headers, LOCATION, location.as_str())?;
    }
    Ok(headers)
}

/// The response of an answer: its status, its headers and its body. `changes` says whether handles are changed here, `varies` whether requests choose
/// the language of pages.
pub fn response_of(
    alloc: Global,
    answer: &Answer,
    changes: bool,
    varies: bool,
) -> Result<Response<Full<Bytes>>, AllocError>
    ensures status { IfOk result (λ response. (head_of response).status ≡ status_number answer.now.status) }
{
    let Ok(status) = StatusCode::from_u16(answer.status.number()) else {
        return Err(AllocError);
    };
    let mut head = Parts::new(alloc);
    head.status = status;
    head.headers = headers_of(alloc, answer, changes, varies)?;
    let body = Bytes::copy_from_slice(alloc, &answer.body)?;
    Ok(Response::from_parts(head, Full::new(body)))
}
