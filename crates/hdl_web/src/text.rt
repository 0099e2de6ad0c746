//! Texts of the proxy's own as responses.

use bytes::Bytes;
use http::StatusCode;
use http::header::{CACHE_CONTROL, CONTENT_TYPE, HeaderMap, HeaderName, HeaderValue};
use http::response::{Parts, Response};
use http_body_util::Full;
use std::alloc::{AllocError, Global};

/// What a text of the proxy's own is.
#[derive(Clone, Copy)]
pub(crate) enum TextKind {
    Words,
    /// Counts, in the text format of Prometheus, version 0.0.4.
    Metrics,
}

impl TextKind {
    fn media_type(self) -> HeaderValue {
        match self {
            TextKind::Words => HeaderValue::from_static("text/plain; charset=utf-8"),
            TextKind::Metrics => {
                HeaderValue::from_static("text/plain; version=0.0.4; charset=utf-8")
            }
        }
    }
}

/// A text of the proxy's own.
#[derive(Drop)]
pub(crate) struct ProxyText {
    pub(crate) status: u16,
    pub(crate) kind: TextKind,
    pub(crate) text: String,
}

fn put(
    headers: &mut HeaderMap<HeaderValue>,
    name: HeaderName,
    value: HeaderValue,
) -> Result<(), AllocError> {
    match headers.insert(name, value) {
        Ok(_) => Ok(()),
        Err(_) => Err(AllocError),
    }
}

impl ProxyText {
    /// A text of words.
    pub(crate) fn of_words(
        alloc: Global,
        status: u16,
        words: &str,
    ) -> Result<ProxyText, AllocError> {
        Ok(ProxyText {
            status,
            kind: TextKind::Words,
            text: String::from_str(alloc, words)?,
        })
    }

    /// The response that it is, which may not be cached.
    pub(crate) fn response(&self, alloc: Global) -> Result<Response<Full<Bytes>>, AllocError> {
        let Ok(status) = StatusCode::from_u16(self.status) else {
            return Err(AllocError);
        };
        let mut head = Parts::new(alloc);
        head.status = status;
        put(&mut head.headers, CONTENT_TYPE, self.kind.media_type())?;
        let never = HeaderValue::from_static("no-store");
        put(&mut head.headers, CACHE_CONTROL, never)?;
        let body = Bytes::copy_from_slice(alloc, self.text.as_bytes())?;
        Ok(Response::from_parts(head, Full::new(body)))
    }
}
