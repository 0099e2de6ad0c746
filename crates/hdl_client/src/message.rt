//! A request's message, with memory of its own.

ghost use Rattle.std.specs.Prelude.{◌≡◌, ◌↔◌, false, All, IfOk};
ghost use Rattle.hdl_name.specs.Name.{is_admin};
ghost use Rattle.hdl_msg.specs.Views.{operation_of, values_of};
ghost use Rattle.hdl_msg.specs.RequestBody as requests;
ghost use Rattle.hdl_client.specs.About.{named_handle};
ghost use Rattle.hdl_client.specs.Challenge.{plain_header};
ghost use Rattle.hdl_client.specs.RequestMessage.{IsPlain, DisturbsNone, Spells};

use crate::about::named_handle;
use crate::challenge::request_message;
use crate::fault::ClientFault;
use hdl_msg::{Body, RequestBody, Values, read_request};
use hdl_name::{Name, NameFault};
use hdl_value::{CutValue, HS_SECKEY, HS_VLIST, Wire};
use std::alloc::Global;
use std::marker::Model;

/// A request's message. It knows the canonical form of its handle, and whether the request is asked alone: it may change what requests for
/// other handles need.
#[derive(Drop)]
pub struct RequestMessage {
    wire: Wire,
    octets: Vec<u8>,
    handle: Vec<u8>,
    is_alone: bool,
}

impl Model for RequestMessage {
    ghost use Rattle.hdl_client.specs.RequestMessage.{Asked, Spells};

    ghost Value = { Asked };

    ghost view = { λ m. record { wire = m.wire; octets = m.octets.items; handle = m.handle.items; is_alone = m.is_alone } };

    ghost invariant = { λ m. Spells m.wire m.octets.items m.handle.items m.is_alone };
}

/// Whether a value may change who else is an administrator: a key, or a list of keys.
fn is_relied_on(value: &CutValue<'_>) -> bool
    ensures { (result ≡ false) ↔ IsPlain value.now }
{
    value.kind() == HS_SECKEY || value.kind() == HS_VLIST
}

fn is_any_relied_on(mut values: Values<'_>) -> bool
    ensures { (result ≡ false) ↔ All IsPlain (values_of values.entry) }
{
    while let Some(value) = values.next() {
        if is_relied_on(&value) {
            return true;
        }
    }
    false
}

/// Whether a write of these values at the handle with this name may change what requests for other handles need.
fn is_written_alone(name: &Name, values: Values<'_>) -> bool
    ensures { (result ≡ false) ↔ ((is_admin name.now ≡ false) × All IsPlain (values_of values.entry)) }
{
    name.is_admin_handle() || is_any_relied_on(values)
}

/// Whether a request for the handle with this name may change what requests for other handles need.
fn is_asked_alone(name: &Name, body: &Body<'_>) -> bool
    requires { name.now ≡ named_handle (operation_of body.now) }
    ensures { (result ≡ false) ↔ DisturbsNone (operation_of body.now) }
{
    match body {
        Body::Resolution { .. } => name.is_admin_handle(),
        Body::Create { values, .. } => is_written_alone(name, *values),
        Body::Add { values, .. } => is_written_alone(name, *values),
        Body::Delete { .. }
        | Body::Remove { .. }
        | Body::Modify { .. }
        | Body::List { .. }
        | Body::Response { .. }
        | Body::SiteInfo { .. }
        | Body::Other { .. } => true,
    }
}

/// The name of a request's handle.
fn name_of(alloc: Global, handle: &[u8]) -> Result<Name, ClientFault>
    ensures { IfOk result (λ name. name ≡ handle.now) }
{
    match Name::read(alloc, handle) {
        Ok(name) => Ok(name),
        Err(NameFault::Memory) => Err(ClientFault::Memory),
        Err(_) => Err(ClientFault::NoHandle),
    }
}

/// The canonical form of the handle of the request with this message, and whether it is asked alone.
fn needs_of(alloc: Global, wire: Wire, message: &[u8]) -> Result<(Vec<u8>, bool), ClientFault>
    ensures { IfOk result (λ needs. Spells wire message.now needs.0.items needs.1) }
{
    let Ok(request) = read_request(wire, message) else {
        return Err(ClientFault::NoHandle);
    };
    let name = name_of(alloc, named_handle(request.body()))?;
    let is_alone = is_asked_alone(&name, request.body());
    let handle = Vec::from_slice(alloc, name.canon())?;
    Ok((handle, is_alone))
}

impl RequestMessage {
    ghost use Rattle.hdl_client.specs.RequestMessage.{Spells};

    /// The message of a request without flags, its values by this layout.
    pub fn new(alloc: Global, wire: Wire, body: &RequestBody) -> Result<RequestMessage, ClientFault>
        ensures layout { IfOk result (λ m. m.wire ≡ wire) }
        ensures octets { IfOk result (λ m. m.octets ≡ requests.request_message wire plain_header body.now) }
    {
        let octets = request_message(alloc, wire, body)?;
        let (handle, is_alone) = needs_of(alloc, wire, &octets)?;
        Ok(RequestMessage {
            wire,
            octets,
            handle,
            is_alone,
        })
    }

    /// By whose layout its values stand.
    pub fn wire(&self) -> Wire
        ensures { result ≡ self.now.wire }
    {
        self.wire
    }

    /// All of it.
    pub fn octets(&self) -> &[u8]
        ensures octets { result.now ≡ self.now.octets }
        ensures spelt { Spells self.now.wire self.now.octets self.now.handle self.now.is_alone }
    {
        &self.octets
    }

    /// The canonical form of its handle.
    pub fn handle(&self) -> &[u8]
        ensures { result.now ≡ self.now.handle }
    {
        &self.handle
    }

    /// Whether nothing else is under way with it.
    pub fn is_alone(&self) -> bool
        ensures { result ≡ self.now.is_alone }
    {
        self.is_alone
    }
}
