//! Why a line is refused, and what to do, in words.

use crate::judging::{Accepted, LineKind};
use hdl_limits::{LANES, PUBLISHER_NAME_MAX, VALUES_MAX};
use hdl_name::{Name, is_authority};
use hdl_tenants::{SITE_MAX, TenantFault, decimal_u16};
use hdl_value::read_value;
use std::alloc::{AllocError, Global};

const PUBLISHER_FORM: &str =
    "write: publisher NAME LANES PORT, or with handle-net after it, with single spaces";

const PREFIX_FORM: &str =
    "write: prefix PREFIX NAME, or prefix PREFIX NAME HASH with HASH 2 (SHA-1) or 3 (SHA-256), with single spaces";

const SITE_FORM: &str =
    "write: site NAME HEX, with single spaces; hdl site makes such a line of an address";

const VALUE_FORM: &str =
    "write: value HANDLE HEX, with single spaces; hdl tenants makes such lines of values in words";

const LINE_FORM: &str =
    "a line begins with `publisher`, `prefix`, `site` or `value` and a space, or with `#`, or is empty";

const SPACE_FORM: &str =
    "fields are separated by one space, and none is at the end of a line: take the others out";

const TAB_FORM: &str = "there is a tab: fields are separated by one space";

const MARK_FORM: &str = "the text begins with a byte order mark: save it as UTF-8 without one";

const NAME_FORM: &str = "a publisher's name is 1 to 32 of a-z, 0-9 and -";

const LANES_FORM: &str = "LANES is a number from 2 to 64; the last lane is that of datagrams";

const PORT_FORM: &str = "PORT is a number from 1 to 65535";

const LAYOUT_FORM: &str =
    "the word after the port is handle-net: the layout of values that, to our knowledge, Handle.Net software has";

const AUTHORITY_FORM: &str =
    "a prefix is a naming authority in lower case, such as 10 or 10.5072, without a slash, and not 0.na";

const UNKNOWN_PUBLISHER: &str =
    "this publisher has no line yet: write its line `publisher ..` before its prefixes";

const HASH_FORM: &str = "the word after the publisher is 2 for SHA-1 or 3 for SHA-256";

const UNKNOWN_PREFIX: &str =
    "the handle's prefix has no line yet: write its line `prefix ..` before its values";

const SITE_HEX_FORM: &str =
    "HEX is an even number of hexadecimal digits; hdl site makes them of an address";

const LONG_SITE: &str = "site information is 65,475 octets at most, since a reply holds no more";

const SITE_PUBLISHER: &str =
    "no line above gives this publisher `handle-net`: write its line `publisher .. handle-net` before this one";

const HEX_FORM: &str =
    "HEX is an even number of hexadecimal digits; hdl tenants makes them of a value in words";

/// What is said once of all values in words.
pub(crate) const IN_WORDS: &str =
    "the value is in words, and perhaps others below: `hdl tenants < WORDS > TEXT` makes the text of them";

const MORE_OCTETS: &str = "octets follow the value: a line has one value";

const MANY_VALUES: &str = "the handle has 1,024 values already, which is the limit";

const TWICE_INDEX: &str =
    "the handle has a value with this index already: give each value an index of its own";

fn is_publisher_name(name: &str) -> bool {
    !name.is_empty()
        && name.len() <= PUBLISHER_NAME_MAX
        && name.as_bytes().iter().all(|octet| octet.is_ascii_lowercase()
            || octet.is_ascii_digit()
            || *octet == b'-')
}

fn is_decimal(text: &str) -> bool {
    !text.is_empty() && text.as_bytes().iter().all(|octet| octet.is_ascii_digit())
}

fn has_upper(text: &str) -> bool {
    text.as_bytes()
        .iter()
        .any(|octet| octet.is_ascii_uppercase())
}

/// What is wrong with the words of a publisher.
fn publisher_reason(fields: &[&str]) -> &'static str {
    let [_, name, lanes, port, more @ ..] = fields else {
        return PUBLISHER_FORM;
    };
    if !is_publisher_name(name) {
        return NAME_FORM;
    }
    let lanes = decimal_u16(lanes).unwrap_or(0);
    if lanes < 2 || lanes as usize > LANES {
        return LANES_FORM;
    }
    if decimal_u16(port).unwrap_or(0) == 0 {
        return PORT_FORM;
    }
    match more {
        [layout] if *layout != "handle-net" => LAYOUT_FORM,
        _ => PUBLISHER_FORM,
    }
}

/// What is wrong with the words of a prefix.
fn prefix_reason(fields: &[&str]) -> &'static str {
    let [_, prefix, _, more @ ..] = fields else {
        return PREFIX_FORM;
    };
    if !is_authority(prefix) || has_upper(prefix) || *prefix == "0.na" {
        return AUTHORITY_FORM;
    }
    match more {
        [] => UNKNOWN_PUBLISHER,
        [hash] => {
            if *hash == "2" || *hash == "3" {
                UNKNOWN_PUBLISHER
            } else {
                HASH_FORM
            }
        }
        _ => PREFIX_FORM,
    }
}

/// What is wrong with the words of site information.
fn site_reason(alloc: Global, fields: &[&str]) -> Result<String, AllocError> {
    let words = |text: &str| String::from_str(alloc, text);
    let [_, _, digits] = fields else {
        return words(SITE_FORM);
    };
    let Ok(octets) = hex::decode(alloc, digits) else {
        return words(SITE_HEX_FORM);
    };
    if octets.len() > SITE_MAX {
        return words(LONG_SITE);
    }
    words(SITE_PUBLISHER)
}

/// What is wrong with a value of a handle whose prefix stands above.
fn value_reason(
    alloc: Global,
    accepted: &Accepted<'_>,
    name: &Name,
    digits: &str,
) -> Result<String, AllocError> {
    let words = |text: &str| String::from_str(alloc, text);
    let Ok(octets) = hex::decode(alloc, digits) else {
        return words(HEX_FORM);
    };
    match read_value(alloc, &octets) {
        Ok((_, count)) => {
            if count != octets.len() {
                return words(MORE_OCTETS);
            }
        }
        Err(fault) => return format!(in alloc; "{fault}"),
    }
    if accepted.value_count(name) >= VALUES_MAX {
        return words(MANY_VALUES);
    }
    words(TWICE_INDEX)
}

/// Whether a value's line has words as `hdl tenants` reads them: INDEX TYPE TTL PERMISSIONS FORMAT, and data.
fn is_in_words(fields: &[&str]) -> bool {
    match fields {
        [_, _, index, _, ttl, permissions, _, ..] => {
            is_decimal(index) && is_decimal(ttl) && is_decimal(permissions)
        }
        _ => false,
    }
}

/// Whether a field has a tab, in a line without a value in words: such a value's data may have one.
fn has_tab(fields: &[&str]) -> bool {
    !is_in_words(fields) && fields.iter().any(|field| field.contains('\t'))
}

/// What is wrong with the words of a value.
fn value_words(
    alloc: Global,
    accepted: &Accepted<'_>,
    kind: &LineKind<'_>,
    fields: &[&str],
) -> Result<String, AllocError> {
    if is_in_words(fields) {
        return String::from_str(alloc, IN_WORDS);
    }
    let [_, handle, digits] = fields else {
        return String::from_str(alloc, VALUE_FORM);
    };
    match kind {
        LineKind::Value(name) => {
            if !accepted.has_prefix(name.prefix()) {
                return String::from_str(alloc, UNKNOWN_PREFIX);
            }
            value_reason(alloc, accepted, name, digits)
        }
        _ => match Name::read(alloc, handle.as_bytes()) {
            Ok(_) => String::from_str(alloc, VALUE_FORM),
            Err(fault) => format!(in alloc; "{fault}"),
        },
    }
}

/// A fault that its line alone doesn't show.
pub(crate) fn words_of(alloc: Global, fault: TenantFault) -> Result<String, AllocError> {
    let advice = match fault {
        TenantFault::TwicePrefix => ": this publisher has it already",
        TenantFault::TwicePublisher => ": give each publisher a name of its own",
        TenantFault::TwiceSite => ": this publisher has it already",
        TenantFault::TooMany => {
            " together: give this publisher fewer lanes, or a server of its own"
        }
        TenantFault::BadLine => "",
        TenantFault::Memory => "",
    };
    format!(in alloc; "{fault}{advice}")
}

/// Why the line with these fields is refused.
pub(crate) fn reason_of(
    alloc: Global,
    accepted: &Accepted<'_>,
    kind: &LineKind<'_>,
    fields: &[&str],
    fault: TenantFault,
) -> Result<String, AllocError> {
    if fault != TenantFault::BadLine {
        return words_of(alloc, fault);
    }
    if fields.iter().any(|field| field.is_empty()) {
        return String::from_str(alloc, SPACE_FORM);
    }
    if has_tab(fields) {
        return String::from_str(alloc, TAB_FORM);
    }
    match fields.first() {
        Some(word) => match *word {
            "publisher" => String::from_str(alloc, publisher_reason(fields)),
            "prefix" => String::from_str(alloc, prefix_reason(fields)),
            "site" => site_reason(alloc, fields),
            "value" => value_words(alloc, accepted, kind, fields),
            word if word.starts_with('\u{feff}') => String::from_str(alloc, MARK_FORM),
            _ => String::from_str(alloc, LINE_FORM),
        },
        None => String::from_str(alloc, LINE_FORM),
    }
}

/// Whether a line that is refused for this reason has no fault of its own: it lacks just a line that stands before and is faulty.
pub(crate) fn is_follow_up(
    accepted: &Accepted<'_>,
    kind: &LineKind<'_>,
    fields: &[&str],
    reason: &str,
) -> bool {
    match (kind, fields) {
        (LineKind::Prefix(_), [_, _, publisher, ..]) => {
            reason == UNKNOWN_PUBLISHER && accepted.has_faulty_publisher(publisher)
        }
        (LineKind::Site(publisher), _) => {
            reason == SITE_PUBLISHER && accepted.has_faulty_publisher(publisher)
        }
        (LineKind::Value(name), _) => {
            reason == UNKNOWN_PREFIX && accepted.has_faulty_prefix(name.prefix())
        }
        _ => false,
    }
}
