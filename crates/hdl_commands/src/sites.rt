//! The data of HS_SITE values: made of words, and told in words.

ghost use Rattle.std.specs.Prelude.{◌≡◌, ◌<◌, ◌^◌, length, IfOk};
ghost use Rattle.std.specs.String.{string_bytes};
ghost use Rattle.hex.specs.Hex.{encode_lower};
ghost use Rattle.hdl_site.specs.Info.{site_octets};
ghost use Rattle.hdl_site.specs.Making.{planned_site};

use crate::exit_status::ExitStatus;
use crate::reporting::report_fault;
use crate::words::{Printout, code_name};
use hdl_client::{ClientFault, Reply, connect};
use hdl_limits::Octets;
use hdl_msg::{ContentView, ResponseCode};
use hdl_site::{
    ADMINISTRATION, Attribute, BOTH, HTTP, Interface, PRIMARY, QUERY, SEVERAL_PRIMARIES,
    ServerPlan, SiteInfo, SiteServer, TCP, UDP, address_octets, planned_octets, read_site,
};
use hdl_tenants::decimal_u16;
use hdl_value_lines::printed_octets;
use std::alloc::{AllocError, AllocFailed, Global};
use std::net::{IpAddr, Ipv4Addr, Ipv6Addr};
use std::{fs, io};
use thiserror::Error;

/// The most octets of a public key. A value's data has 32,768 at most, of which the rest takes 60.
const KEY_MOST: usize = 32_000;

/// A server in words, of which the data of an HS_SITE value is made.
#[derive(Drop)]
pub struct SiteOptions {
    /// An IPv4 or IPv6 address.
    pub address: String,
    pub port: String,
    pub serial: String,
    /// Whether queries may come by UDP.
    pub is_udp: bool,
    /// The path of a key record of the Handle.Net software.
    pub key: Option<String>,
    /// The path of the file that gets the octets.
    pub out: Option<String>,
    /// The publisher of whose line in a tenants text the digits become part.
    pub publisher: Option<String>,
}

/// Why no data is made, or none is told.
#[derive(Debug, Drop, Error)]
pub enum SiteFault {
    #[error("--address isn't an IPv4 or IPv6 address: write one such as 192.0.2.7 or 2001:db8::7")]
    Address,
    #[error("--port isn't a number from 1 to 65535")]
    Port,
    #[error("--serial isn't a number from 0 to 65535")]
    Serial,
    #[error("the file of the public key can't be read: {0}")]
    KeyFile(io::Error),
    #[error("the file of the public key has more than 32,000 octets")]
    KeyLong,
    #[error("the data can't be written to its file: {0}")]
    Out(io::Error),
    #[error("neither hexadecimal digits nor a file that can be read: {0}")]
    File(io::Error),
    #[error("no data of an HS_SITE value: write its hexadecimal digits, or the path of a file with its octets")]
    NoSite,
    #[error("no memory")]
    Memory,
}

impl From<AllocError> for SiteFault {
    fn from(_: AllocError) -> SiteFault {
        SiteFault::Memory
    }
}

impl<T: Drop> From<AllocFailed<T>> for SiteFault {
    fn from(_: AllocFailed<T>) -> SiteFault {
        SiteFault::Memory
    }
}

// ---- making

/// The server that words say, with this public key.
fn plan_of(words: &SiteOptions, key: Vec<u8>) -> Result<ServerPlan, SiteFault> {
    let Ok(address) = words.address.parse::<IpAddr>() else {
        return Err(SiteFault::Address);
    };
    let port = match decimal_u16(&words.port) {
        Some(port) if port > 0 => port,
        _ => return Err(SiteFault::Port),
    };
    let Some(serial) = decimal_u16(&words.serial) else {
        return Err(SiteFault::Serial);
    };
    let address = address_octets(&address);
    Ok(ServerPlan {
        address,
        port,
        is_udp: words.is_udp,
        serial,
        key: Octets::new(key),
    })
}

/// The public key in this file, or nothing where none is named.
fn key_in(rt: &HostRuntime, path: &Option<String>) -> Result<Vec<u8>, SiteFault> {
    let Some(path) = path else {
        return Ok(Vec::new(rt.alloc()));
    };
    match fs::read(rt, path.as_str()) {
        Ok(key) => Ok(key),
        Err(error) => Err(SiteFault::KeyFile(error)),
    }
}

/// The octets of a server's site.
fn octets_of(alloc: Global, plan: &ServerPlan) -> Result<Vec<u8>, SiteFault>
    ensures { IfOk result (λ octets. octets.items ≡ site_octets (planned_site plan.now)) }
{
    if plan.key.as_slice().len() > KEY_MOST {
        return Err(SiteFault::KeyLong);
    }
    Ok(planned_octets(alloc, plan)?)
}

/// Their digits, as they are printed.
fn digits_of(alloc: Global, plan: &ServerPlan) -> Result<String, SiteFault>
    ensures { IfOk result (λ text. string_bytes text ≡ encode_lower (site_octets (planned_site plan.now))) }
{
    let octets = octets_of(alloc, plan)?;
    Ok(hex::encode(alloc, octets.as_slice())?)
}

/// What the operator does with the data.
const NEXT: &str = "\
    hdl: send the octets to the agency that registers the prefix: they become the HS_SITE value of 0.NA/PREFIX there\n\
    hdl: the port must be open to the network, and its publisher's line must end with handle-net; see docs/HANDLE_NET.md\n";

/// The digits in a line of their own: of a tenants text, where a publisher is named.
fn line_of(alloc: Global, publisher: &Option<String>, digits: &str) -> Result<String, AllocError> {
    match publisher {
        Some(name) => format!(in alloc; "site {name} {digits}\n"),
        None => format!(in alloc; "{digits}\n"),
    }
}

/// Makes the data of the HS_SITE value of a server, which goes into a file or comes back as a line.
fn made(rt: &HostRuntime, words: &SiteOptions) -> Result<String, SiteFault> {
    let alloc = rt.alloc();
    let plan = plan_of(words, key_in(rt, &words.key)?)?;
    let Some(path) = &words.out else {
        let digits = digits_of(alloc, &plan)?;
        return Ok(line_of(alloc, &words.publisher, &digits)?);
    };
    let octets = octets_of(alloc, &plan)?;
    match fs::write(rt, path.as_str(), octets) {
        Ok(()) => Ok(String::new(alloc)),
        Err(error) => Err(SiteFault::Out(error)),
    }
}

/// Makes the data of the HS_SITE value of a server, and prints it or writes it to a file; on standard error, what to do with it. Answers the
/// exit status: 0, or 2 for words of which none is made.
pub fn make_site(rt: &HostRuntime, words: &SiteOptions) -> ExitStatus {
    match made(rt, words) {
        Ok(line) => {
            let _ = print!(rt; "{line}");
            let _ = eprint!(rt; "{NEXT}");
            ExitStatus::Success
        }
        Err(fault) => {
            let _ = eprintln!(rt; "hdl: {fault}");
            ExitStatus::Arguments
        }
    }
}

// ---- telling

/// Whether the octets are hexadecimal digits, and line ends.
fn is_digits(octets: &[u8]) -> bool {
    octets.iter().all(|octet| octet.is_ascii_hexdigit() || *octet == b'\n' || *octet == b'\r')
}

/// The octets that these are, or those that they are the digits of.
fn undigited(alloc: Global, octets: Vec<u8>) -> Result<Vec<u8>, SiteFault> {
    if !is_digits(&octets) {
        return Ok(octets);
    }
    match hex::decode(alloc, octets.trim_ascii()) {
        Ok(found) => Ok(found),
        Err(_) => Err(SiteFault::NoSite),
    }
}

/// The octets that a word says: by digits, or by the path of a file.
fn octets_in(rt: &HostRuntime, word: &str) -> Result<Vec<u8>, SiteFault> {
    if is_digits(word.as_bytes()) {
        return undigited(rt.alloc(), Vec::from_slice(rt.alloc(), word.as_bytes())?);
    }
    match fs::read(rt, word) {
        Ok(octets) => undigited(rt.alloc(), octets),
        Err(error) => Err(SiteFault::File(error)),
    }
}

fn primary_words(primary: u8) -> &'static str {
    if primary & PRIMARY == 0 {
        "a mirror: changes are made elsewhere"
    } else if primary & SEVERAL_PRIMARIES != 0 {
        "one of several primary sites"
    } else {
        "the primary site"
    }
}

fn hash_words(hash_option: u8) -> &'static str {
    match hash_option {
        0 => "by its prefix",
        1 => "by its local name",
        2 => "by all of it",
        _ => "in an unknown way",
    }
}

fn protocol_words(protocol: u8) -> &'static str {
    match protocol {
        UDP => "UDP",
        TCP => "TCP",
        HTTP => "HTTP",
        _ => "unknown protocol",
    }
}

fn service_words(serves: u8) -> &'static str {
    match serves {
        ADMINISTRATION => "administration",
        QUERY => "queries",
        BOTH => "queries and administration",
        _ => "out of service",
    }
}

/// An address in words: IPv4 where zeros stand before four octets.
fn address_of(octets: &[u8; 16]) -> IpAddr {
    match octets {
        [0, 0, 0, 0, 0, 0, 0, 0, 0, 0, 0, 0, a, b, c, d] => {
            IpAddr::V4(Ipv4Addr::from_octets([*a, *b, *c, *d]))
        }
        _ => IpAddr::V6(Ipv6Addr::from_octets(*octets)).to_canonical(),
    }
}

fn push_head(printout: &mut Printout, site: &SiteInfo) -> Result<(), AllocError> {
    let line = format!(in printout.alloc;
        "site of form {}, protocol {}.{}, serial number {}",
        site.form, site.major, site.minor, site.serial
    )?;
    printout.push(&line)?;
    printout.push(primary_words(site.primary))?;
    let line = format!(in printout.alloc;
        "hash option {}: a handle's server is found {}",
        site.hash_option,
        hash_words(site.hash_option)
    )?;
    printout.push(&line)
}

fn push_attribute(printout: &mut Printout, attribute: &Attribute) -> Result<(), AllocError> {
    let name = printed_octets(printout.alloc, attribute.name.as_slice())?;
    let text = printed_octets(printout.alloc, attribute.text.as_slice())?;
    let line = format!(in printout.alloc; "attribute {name}: {text}")?;
    printout.push(&line)
}

fn push_interface(printout: &mut Printout, interface: &Interface) -> Result<(), AllocError> {
    let line = format!(in printout.alloc;
        "{} port {}: {}",
        protocol_words(interface.protocol),
        interface.port,
        service_words(interface.serves)
    )?;
    printout.push(&line)
}

fn push_server(printout: &mut Printout, server: &SiteServer) -> Result<(), AllocError> {
    let address = address_of(&server.address);
    let line = format!(in printout.alloc;
        "server {} at {address}, public key of {} octets",
        server.number,
        server.key.as_slice().len()
    )?;
    printout.push(&line)?;
    for interface in server.interfaces.as_slice() {
        push_interface(printout, interface)?;
    }
    Ok(())
}

/// Adds what a site says.
pub(crate) fn push_site(printout: &mut Printout, site: &SiteInfo) -> Result<(), AllocError> {
    push_head(printout, site)?;
    for attribute in site.attributes.as_slice() {
        push_attribute(printout, attribute)?;
    }
    for server in site.servers.as_slice() {
        push_server(printout, server)?;
    }
    Ok(())
}

/// What these octets say as the data of a site, in lines.
fn told_of(alloc: Global, octets: &[u8]) -> Result<Option<Printout>, AllocError> {
    let Some(site) = read_site(alloc, octets)? else {
        return Ok(None);
    };
    let mut printout = Printout::new(alloc, false);
    push_site(&mut printout, &site)?;
    Ok(Some(printout))
}

/// What the data that a word says has, in lines.
fn told(rt: &HostRuntime, word: &str) -> Result<Printout, SiteFault> {
    let octets = octets_in(rt, word)?;
    match told_of(rt.alloc(), &octets)? {
        Some(printout) => Ok(printout),
        None => Err(SiteFault::NoSite),
    }
}

/// Prints in words what the data of an HS_SITE value says: of these hexadecimal digits, or of a file with the octets or their digits. Answers the
/// exit status: 0, or 2 where it is no such data.
pub fn show_site(rt: &HostRuntime, word: &str) -> ExitStatus {
    match told(rt, word) {
        Ok(printout) => {
            let _ = print!(rt; "{}", printout.as_str());
            ExitStatus::Success
        }
        Err(fault) => {
            let _ = eprintln!(rt; "hdl: {fault}");
            ExitStatus::Arguments
        }
    }
}

// ---- asking

/// What a server says of the question, in words.
#[derive(Drop)]
enum SiteAnswer {
    /// What its site information says.
    Site(Printout),
    /// The octets of its site information, which are no data of a site.
    Other(String),
    /// The code of another reply.
    Code(u32),
}

/// What the reply says.
fn answer_of(alloc: Global, reply: &Reply) -> Result<SiteAnswer, AllocError> {
    let view = reply.view();
    let ContentView::Site { octets } = view.content else {
        return Ok(SiteAnswer::Code(view.header.response_code));
    };
    match told_of(alloc, octets)? {
        Some(printout) => Ok(SiteAnswer::Site(printout)),
        None => Ok(SiteAnswer::Other(hex::encode(alloc, octets)?)),
    }
}

fn asked(rt: &HostRuntime, server: &str) -> Result<SiteAnswer, ClientFault> {
    let mut session = connect(rt, server)?;
    let reply = session.ask_site()?;
    Ok(answer_of(rt.alloc(), &reply)?)
}

/// What to do where a server tells no site information.
fn advice_for(code: u32) -> &'static str {
    if code == ResponseCode::OperationDenied.number() {
        ": this port tells no site information. In the tenants text its publisher's line must end with handle-net, and a line `site NAME HEX` gives the octets"
    } else {
        ""
    }
}

/// Prints what a server said, and answers the exit status.
fn show_answer(rt: &HostRuntime, answer: &SiteAnswer) -> ExitStatus {
    let _ = match answer {
        SiteAnswer::Site(printout) => print!(rt; "{}", printout.as_str()),
        SiteAnswer::Other(digits) => {
            eprintln!(rt; "hdl: the site information is no data of an HS_SITE value: {digits}")
        }
        SiteAnswer::Code(code) => {
            eprintln!(rt; "hdl: {code} {}{}", code_name(*code), advice_for(*code))
        }
    };
    match answer {
        SiteAnswer::Site(_) => ExitStatus::Success,
        _ => ExitStatus::Failure,
    }
}

/// Asks a server, `HOST:PORT`, for its site information (OpCode 2), and prints in words what it says. Answers the exit status: 0; 1 where the server
/// answers another code, whose name is then on standard error, or octets that are no data of an HS_SITE value; 3 where it can't be reached or says
/// nothing that can be read.
pub fn ask_site(rt: &HostRuntime, server: &str) -> ExitStatus {
    match asked(rt, server) {
        Ok(answer) => show_answer(rt, &answer),
        Err(fault) => {
            report_fault(rt, server, fault);
            let _ = eprintln!(rt);
            ExitStatus::NoAnswer
        }
    }
}
