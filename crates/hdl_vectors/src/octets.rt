//! How the octets of a line are read, and how octets are printed.

ghost use Rattle.std.specs.Prelude.{◌<◌, IfOk};

use hdl_limits::LANES;
use std::alloc::Global;
use std::io;

/// What is read is no octets, no number or no step.
pub fn unread() -> io::Error {
    io::Error::from(io::ErrorKind::InvalidData)
}

/// The number that a word spells.
pub fn number(word: &str) -> io::Result<u32> {
    match word.parse::<u32>() {
        Ok(number) => Ok(number),
        Err(_) => Err(unread()),
    }
}

/// The numbers that words spell.
pub fn numbers_of(alloc: Global, words: &str) -> io::Result<Vec<u32>> {
    let mut numbers = Vec::new(alloc);
    for word in words.split(' ') {
        numbers.push(number(word)?)?;
    }
    Ok(numbers)
}

/// A lane's number.
pub fn lane_of(number: u32) -> io::Result<u16>
    ensures { IfOk result (λ lane. lane < LANES) }
{
    if number < LANES as u32 {
        Ok(number as u16)
    } else {
        Err(unread())
    }
}

/// A peer's number.
pub fn peer_of(number: u32) -> io::Result<u16> {
    match u16::try_from(number) {
        Ok(peer) => Ok(peer),
        Err(_) => Err(unread()),
    }
}

/// What stands for a letter behind a backslash.
fn escaped(letter: u8) -> u8 {
    match letter {
        b'n' => b'\n',
        b'r' => b'\r',
        b't' => b'\t',
        other => other,
    }
}

/// Adds the octets of a text.
fn push_text(out: &mut Vec<u8>, text: &str) -> io::Result<()> {
    let mut is_escape = false;
    for octet in text.bytes() {
        if is_escape {
            out.push(escaped(octet))?;
            is_escape = false;
        } else if octet == b'\\' {
            is_escape = true;
        } else {
            out.push(octet)?;
        }
    }
    Ok(())
}

/// Adds what digits spell, so many times.
fn push_digits(alloc: Global, out: &mut Vec<u8>, digits: &str, count: u32) -> io::Result<()> {
    let Ok(octets) = hex::decode(alloc, digits) else {
        return Err(unread());
    };
    for _ in 0..count {
        out.extend_from_slice(&octets)?;
    }
    Ok(())
}

/// Adds what groups of digits spell.
fn push_groups(alloc: Global, out: &mut Vec<u8>, groups: &str) -> io::Result<()> {
    for group in groups.split(' ') {
        match group.split_once('*') {
            Some((digits, count)) => push_digits(alloc, out, digits, number(count)?)?,
            None => push_digits(alloc, out, group, 1)?,
        }
    }
    Ok(())
}

/// The octets that are written as the head of this program says.
pub fn octets_of(alloc: Global, written: &str) -> io::Result<Vec<u8>> {
    let mut out = Vec::new(alloc);
    let mut is_text = false;
    for piece in written.split('"') {
        if is_text {
            push_text(&mut out, piece)?;
        } else {
            push_groups(alloc, &mut out, piece)?;
        }
        is_text = !is_text;
    }
    Ok(out)
}

/// Prints octets in hex behind a word.
pub fn put_hex(rt: &HostRuntime, word: &str, octets: &[u8]) -> io::Result<()> {
    let digits = hex::encode(rt.alloc(), octets)?;
    println!(rt; "  {word} {digits}")
}

/// Prints octets as a text in quotes, or in hex if they are no UTF-8.
pub fn put_text(rt: &HostRuntime, word: &str, octets: &[u8]) -> io::Result<()> {
    match str::from_utf8(octets) {
        Ok(text) => println!(rt; "  {word} \"{text}\""),
        Err(_) => put_hex(rt, word, octets),
    }
}

/// Prints a handle, prefix or list's place that is referred to, and its index.
pub fn put_reference(rt: &HostRuntime, handle: &[u8], index: u32) -> io::Result<()> {
    put_text(rt, "reference", handle)?;
    println!(rt; "    of index {index}")
}
