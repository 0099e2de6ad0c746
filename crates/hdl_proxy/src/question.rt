//! What a resolution asks for.

ghost use Rattle.std.specs.Prelude.{◌≡◌, ◌<◌, true, IfOk, IfNone, IfSome};
ghost use Rattle.hdl_limits.specs.declared.TheConstants.{MESSAGE_MAX};
ghost use Rattle.hdl_msg.specs.Codes.{has_flag};
ghost use Rattle.hdl_msg.specs.Message.{resolution};
ghost use Rattle.hdl_msg.specs.RequestBody.{request_length, requested_operation, operation_read};
ghost use Rattle.hdl_value.specs.declared.wire.Wire.TheVariants.{Profile};
ghost use Rattle.hdl_msg.specs.declared.codes.OpFlag.TheVariants.{PublicOnly};
ghost use Rattle.hdl_proxy.specs.Format.{language_of};
ghost use Rattle.hdl_proxy.specs.Question.{AsksInPublic, IsPublicRequest, IsTooLong};

use crate::answer::CacheControl;
use hdl_languages::Language;
use hdl_limits::{Items, MESSAGE_MAX, Octets};
use hdl_msg::{Header, OpCode, OpFlag, RequestBody, request_len, write_request};
use hdl_name::Name;
use hdl_value::Wire;
use std::alloc::{AllocError, Global};

/// In which form a handle is answered.
#[derive(Clone, Copy, PartialEq, Eq)]
pub enum AnswerFormat {
    /// Its URL is followed, if it has one; a page that is shown instead is in this language.
    Follow(Language),
    /// A page of its values, in this language.
    Page(Language),
    /// JSON of its values, without a space.
    Json,
    /// The same JSON over many lines.
    Pretty,
}

impl AnswerFormat {
    /// The language of what is said. JSON says it in English.
    pub fn language(self) -> Language
        ensures { result ≡ language_of self }
    {
        match self {
            AnswerFormat::Follow(language) => language,
            AnswerFormat::Page(language) => language,
            AnswerFormat::Json | AnswerFormat::Pretty => Language::English,
        }
    }
}

/// A resolution: of which handle, in which form, which of its values (all of them where both lists are empty), what becomes of its URL, and which
/// aliases led to it.
#[derive(Drop)]
pub struct Question {
    pub name: Name,
    pub form: AnswerFormat,
    pub indexes: Vec<u32>,
    pub types: Vec<Octets>,
    /// What is appended to the URL that is followed.
    pub append: Vec<u8>,
    /// Which of several locations is asked for, as `NAME:VALUE` of an attribute; nothing where none is.
    pub locatt: String,
    /// Whether an alias of the handle is followed.
    pub aliases: bool,
    /// The handles whose aliases led here, the one that was asked for first.
    pub passed: Vec<Name>,
    /// The handles that aren't there by whose names this one may be meant, the one that was asked for first.
    pub tried: Vec<Name>,
    /// How long the answers on the way here may be cached.
    pub cache_control: CacheControl,
    /// Whether a server is asked even where a reply is kept.
    pub anew: bool,
}

fn copies(alloc: Global, types: &[Octets]) -> Result<Vec<Octets>, AllocError>
    ensures { IfOk result (λ v. v.items ≡ types.now) }
{
    let mut all = Vec::new(alloc);
    for kind in types {
        all.push(Octets::new(Vec::from_slice(alloc, kind.as_slice())?))?;
    }
    Ok(all)
}

/// The header of a request that shows what everyone may read, and asks for no key.
fn public_header() -> Header
    ensures { has_flag result.op_flag PublicOnly ≡ true }
{
    Header {
        op_code: OpCode::Resolution.number(),
        response_code: 0,
        op_flag: OpFlag::PublicOnly.bit(),
        serial: 0,
        recursion: 0,
        reserved: 0,
        expiration: 0,
    }
}

/// The message of a request without a key. None where it would have more octets than a message may.
fn public_message(alloc: Global, body: &RequestBody) -> Result<Option<Vec<u8>>, AllocError>
    ensures asks { IfOk result (λ o. IfSome o (λ v. IsPublicRequest v.items (operation_read Profile (requested_operation body.now)))) }
    ensures too_long { IfOk result (λ o. IfNone o (MESSAGE_MAX < request_length Profile body.now)) }
{
    if request_len(Wire::Profile, body) > MESSAGE_MAX as usize {
        return Ok(None);
    }
    let message = write_request(alloc, Wire::Profile, public_header(), body)?;
    Ok(Some(message))
}

impl Question {
    fn body(&self, alloc: Global) -> Result<RequestBody, AllocError>
        ensures { IfOk result (λ body. requested_operation body ≡ resolution self.now.name self.now.indexes.items self.now.types.items) }
    {
        let handle = Octets::new(Vec::from_slice(alloc, self.name.sent())?);
        let indexes = Items::new(Vec::from_slice(alloc, &self.indexes)?);
        let types = Items::new(copies(alloc, &self.types)?);
        Ok(RequestBody::Resolution {
            handle,
            indexes,
            types,
        })
    }

    /// The message that asks it, as anyone and without a key. None where it would have more octets than a message may.
    pub fn message(&self, alloc: Global) -> Result<Option<Vec<u8>>, AllocError>
        ensures asks { IfOk result (λ o. IfSome o (λ v. AsksInPublic v.items self.now)) }
        ensures too_long { IfOk result (λ o. IfNone o (IsTooLong self.now)) }
    {
        let body = self.body(alloc)?;
        public_message(alloc, &body)
    }
}
