//! One request over a stream, and its answer.

ghost use Rattle.std.specs.Prelude.{◌≡◌, ◌≤◌, length, IfOk, IfSome, OnOk};
ghost use Rattle.hdl_etcd.specs.Answers.{check_status};
ghost use Rattle.hdl_etcd.specs.declared.exchange.TheConstants.{BODY_MAX};

use crate::fault::EtcdFault;
use httparse::spans::{EMPTY_HEADER_SPAN, HeaderSpan, parse_response};
use httparse::{Status, parse_chunk_size};
use std::alloc::Global;
use std::io::{ErrorKind, Read, Write};

/// The maximum length of an answer's body, in octets.
pub const BODY_MAX: usize = 67_108_864;

/// The maximum length of an answer's head, in octets.
const HEAD_MAX: usize = 16_384;

/// How many headers an answer has at most.
const HEADERS_MAX: usize = 32;

/// How many octets are read at once.
const PART: usize = 65_536;

/// How the body of an answer comes.
#[derive(Clone, Copy, PartialEq, Eq)]
enum Framing {
    /// This many octets.
    Length(usize),
    Chunks,
}

/// The head of an answer.
#[derive(Clone, Copy)]
pub(crate) struct Head {
    pub(crate) status: u16,
    framing: Framing,
}

/// A stream on which one request is under way at a time. After a fault it is of no more use.
#[derive(Drop)]
pub struct Exchange<S: Read + Write + Drop> {
    alloc: Global,
    stream: S,
    /// What came; the octets before `at` are done with.
    came: Vec<u8>,
    at: usize,
    part: Vec<u8>,
}

/// What the status says of a request. All but three are no answer: etcd gives one for transactions that are made afterwards too.
pub(crate) fn check_status(status: u16) -> Result<(), EtcdFault>
    ensures { result ≡ check_status status }
{
    match status {
        200 => Ok(()),
        400 => Err(EtcdFault::Refused),
        429 => Err(EtcdFault::Spent),
        _ => Err(EtcdFault::NoAnswer),
    }
}

/// The decimal number that a header's octets are.
fn decimal(octets: &[u8]) -> Option<usize> {
    str::from_utf8(octets).ok()?.parse().ok()
}

/// How the body comes, by the headers.
fn framing_of(head: &[u8], headers: &[HeaderSpan]) -> Option<Framing> {
    for header in headers {
        let name = head.get(header.name.start..header.name.end)?;
        let value = head.get(header.value.start..header.value.end)?;
        if name.eq_ignore_ascii_case(b"transfer-encoding") {
            return value
                .eq_ignore_ascii_case(b"chunked")
                .then_some(Framing::Chunks);
        }
        if name.eq_ignore_ascii_case(b"content-length") {
            return Some(Framing::Length(decimal(value)?));
        }
    }
    None
}

impl<S: Read + Write + Drop> Exchange<S> {
    pub fn over(alloc: Global, stream: S) -> Result<Exchange<S>, EtcdFault> {
        Ok(Exchange {
            alloc,
            stream,
            came: Vec::new(alloc),
            at: 0,
            part: Vec::from_elem(alloc, 0u8, PART)?,
        })
    }

    /// What came and isn't done with.
    fn left(&self) -> &[u8] {
        self.came.get(self.at..).unwrap_or(&[])
    }

    /// This many octets are done with.
    fn pass(&mut self, count: usize) {
        self.at = self.at.saturating_add(count).min(self.came.len());
        if self.at == self.came.len() {
            self.came.clear();
            self.at = 0;
        }
    }

    /// Lets go of what is done with.
    fn close_gap(&mut self) {
        let at = self.at.min(self.came.len());
        drop(self.came.drain(..at));
        self.at = 0;
    }

    /// Reads once, and doesn't wait if the stream doesn't. Whether something came.
    pub(crate) fn try_more(&mut self) -> Result<bool, EtcdFault> {
        self.close_gap();
        let count = match self.stream.read(&mut self.part) {
            Ok(count) => count,
            Err(error) if error.kind() == ErrorKind::WouldBlock => return Ok(false),
            Err(_) => return Err(EtcdFault::NoAnswer),
        };
        let Some(came) = self.part.get(..count) else {
            return Err(EtcdFault::NoAnswer);
        };
        if came.is_empty() {
            return Err(EtcdFault::NoAnswer);
        }
        self.came.extend_from_slice(came)?;
        Ok(true)
    }

    /// Waits for more.
    fn more(&mut self) -> Result<(), EtcdFault> {
        if self.try_more()? {
            Ok(())
        } else {
            Err(EtcdFault::NoAnswer)
        }
    }

    pub(crate) fn send(&mut self, path: &str, body: &str) -> Result<(), EtcdFault> {
        let length = body.len();
        let head = format!(in self.alloc;
            "POST {path} HTTP/1.1\r\nHost: etcd\r\nContent-Type: application/json\r\nContent-Length: {length}\r\n\r\n"
        )?;
        self.stream.write_all(head.as_bytes())?;
        self.stream.write_all(body.as_bytes())?;
        self.stream.flush()?;
        Ok(())
    }

    /// Takes the head, if all of it came.
    pub(crate) fn try_head(&mut self) -> Result<Option<Head>, EtcdFault> {
        let mut headers = [EMPTY_HEADER_SPAN; HEADERS_MAX];
        let left = self.left();
        match parse_response(left, &mut headers) {
            Ok(Status::Complete(spans)) => {
                let headers = headers.get(..spans.headers).unwrap_or(&[]);
                let Some(framing) = framing_of(left, headers) else {
                    return Err(EtcdFault::Malformed);
                };
                let status = spans.code;
                self.pass(spans.len);
                Ok(Some(Head { status, framing }))
            }
            Ok(Status::Partial) if left.len() <= HEAD_MAX => Ok(None),
            _ => Err(EtcdFault::Malformed),
        }
    }

    fn head(&mut self) -> Result<Head, EtcdFault> {
        for _ in 0..u64::MAX {
            if let Some(head) = self.try_head()? {
                return Ok(head);
            }
            self.more()?;
        }
        Err(EtcdFault::NoAnswer)
    }

    /// Puts this many octets that come next behind others.
    fn take(&mut self, count: usize, body: &mut Vec<u8>) -> Result<(), EtcdFault>
        requires { length body.old.items ≤ BODY_MAX }
        ensures { OnOk result (length body.new.items ≤ BODY_MAX) }
    {
        if count > BODY_MAX - body.len() {
            return Err(EtcdFault::Oversized);
        }
        let mut wanted = count;
        for _ in 0..u64::MAX {
            let have = self.left().len().min(wanted);
            if let Some(octets) = self.left().get(..have) {
                body.extend_from_slice(octets)?;
            }
            self.pass(have);
            wanted -= have;
            if wanted == 0 {
                return Ok(());
            }
            self.more()?;
        }
        Err(EtcdFault::NoAnswer)
    }

    /// The length of the line that begins a chunk, and that of the chunk, if the line came.
    fn try_size(&self) -> Result<Option<(usize, usize)>, EtcdFault> {
        let left = self.left();
        match parse_chunk_size(left) {
            Ok(Status::Complete((length, size))) => match usize::try_from(size) {
                Ok(size) => Ok(Some((length, size))),
                Err(_) => Err(EtcdFault::Oversized),
            },
            Ok(Status::Partial) if left.len() <= HEAD_MAX => Ok(None),
            _ => Err(EtcdFault::Malformed),
        }
    }

    /// Puts the next chunk behind others. Whether it was the last one, which is empty.
    fn chunk(&mut self, body: &mut Vec<u8>) -> Result<bool, EtcdFault>
        requires { length body.old.items ≤ BODY_MAX }
        ensures { OnOk result (length body.new.items ≤ BODY_MAX) }
    {
        for _ in 0..u64::MAX {
            if let Some((length, size)) = self.try_size()? {
                self.pass(length);
                self.take(size, body)?;
                let mut line = Vec::new(self.alloc);
                self.take(2, &mut line)?;
                return Ok(size == 0);
            }
            self.more()?;
        }
        Err(EtcdFault::NoAnswer)
    }

    /// Takes the next chunk, if all of it came. The last one, which is empty, ends the answer.
    pub(crate) fn try_chunk(&mut self, most: usize) -> Result<Option<Vec<u8>>, EtcdFault>
        ensures { IfOk result (λ o. IfSome o (λ chunk. length chunk.items ≤ most)) }
    {
        let Some((length, size)) = self.try_size()? else {
            return Ok(None);
        };
        if size == 0 {
            return Err(EtcdFault::NoAnswer);
        }
        if size > most {
            return Err(EtcdFault::Oversized);
        }
        let end = length.saturating_add(size);
        let behind = end.saturating_add(2);
        let left = self.left();
        let Some(octets) = left.get(length..end) else {
            return Ok(None);
        };
        if left.len() < behind {
            return Ok(None);
        }
        let chunk = Vec::from_slice(self.alloc, octets)?;
        self.pass(behind);
        Ok(Some(chunk))
    }

    fn body(&mut self, framing: Framing) -> Result<Vec<u8>, EtcdFault>
        ensures { IfOk result (λ body. length body.items ≤ BODY_MAX) }
    {
        let mut body = Vec::new(self.alloc);
        match framing {
            Framing::Length(length) => self.take(length, &mut body)?,
            Framing::Chunks => {
                for _ in 0..u64::MAX {
                    if self.chunk(&mut body)? {
                        break;
                    }
                }
            }
        }
        Ok(body)
    }

    /// Sends a request, and takes the body of its answer.
    pub fn ask(&mut self, path: &str, text: &str) -> Result<Vec<u8>, EtcdFault>
        ensures bounded { IfOk result (λ body. length body.items ≤ BODY_MAX) }
    {
        self.send(path, text)?;
        let head = self.head()?;
        let body = self.body(head.framing)?;
        check_status(head.status)?;
        Ok(body)
    }
}
