//! Which pages a form may come from.

ghost use Rattle.std.specs.Prelude.{◌≡◌, option_copied};
ghost use Rattle.hdl_forms.specs.Origin.{is_same_origin, is_of_host, is_behind, names_host};

/// What `Sec-Fetch-Site` says of a page of the same host.
const SAME: &[u8] = b"same-origin";

/// What the head of a request says of the page that sent it: the fields `Sec-Fetch-Site`, `Origin` and `Host`.
#[derive(Clone, Copy)]
pub struct Sender<'a> {
    pub site: Option<&'a [u8]>,
    pub origin: Option<&'a [u8]>,
    pub host: Option<&'a [u8]>,
}

/// Whether these octets are the scheme and behind it the host.
fn is_behind(scheme: &[u8], host: &[u8], origin: &[u8]) -> bool
    ensures { result ≡ is_behind scheme.now host.now origin.now }
{
    match origin.split_at_checked(scheme.len()) {
        Some((front, rest)) => front == scheme && rest == host,
        None => false,
    }
}

fn is_of_host(host: &[u8], origin: &[u8]) -> bool
    ensures { result ≡ is_of_host host.now origin.now }
{
    is_behind(b"https://", host, origin) || is_behind(b"http://", host, origin)
}

/// Whether the origin is that of the host.
fn names_host(origin: Option<&[u8]>, host: Option<&[u8]>) -> bool
    ensures { result ≡ names_host (option_copied origin.entry) (option_copied host.entry) }
{
    match (origin, host) {
        (Some(origin), Some(host)) => is_of_host(host, origin),
        _ => false,
    }
}

/// Whether a form comes from a page of this site: the browser says so by `Sec-Fetch-Site`, or where it sends no such field, by an `Origin` of this
/// host. What says neither is refused.
pub fn is_same_origin(sender: Sender<'_>) -> bool
    ensures { result ≡ is_same_origin (option_copied sender.entry.site) (option_copied sender.entry.origin) (option_copied sender.entry.host) }
{
    match sender.site {
        Some(site) => site == SAME,
        None => names_host(sender.origin, sender.host),
    }
}
