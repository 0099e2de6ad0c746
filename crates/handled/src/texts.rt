//! The texts that the program is given.

use hdl_programs::{Fault, read_input};
use std::alloc::Global;
use std::fs::File;
use std::io::{self, ErrorKind, IsTerminal, Read};

/// How many octets one read of a file asks for.
const CHUNK: usize = 65_536;

/// The octets as a text.
fn text_in(octets: Vec<u8>) -> Result<String, Fault> {
    match String::from_utf8(octets) {
        Ok(text) => Ok(text),
        Err(_) => Err(Fault::InputNotUtf8),
    }
}

/// Says on standard error that input is read, if someone has to type it.
pub fn report_reading(rt: &HostRuntime) {
    if rt.stdin().is_terminal() {
        let _ = eprintln!(rt;
            "handled: standard input is read: end the command with < FILE, or see handled --help"
        );
    }
}

/// The whole input as a text.
pub fn read_text(rt: &HostRuntime) -> Result<String, Fault> {
    report_reading(rt);
    text_in(read_input(rt.alloc(), &mut rt.stdin())?)
}

/// Says that a file can't be read.
fn unread(rt: &HostRuntime, path: &str, error: io::Error) -> Fault {
    let way = if error.kind() == ErrorKind::PermissionDenied {
        ", or leave out --text and let standard input open it (StandardInput=)"
    } else {
        ""
    };
    let _ = eprintln!(rt;
        "text: cannot read {path}: {error}: name a file that the program may read{way}"
    );
    Fault::Device
}

/// The octets of a file, however many there are.
fn read_whole(
    rt: &HostRuntime,
    alloc: Global,
    path: &str,
    file: &mut File,
) -> Result<Vec<u8>, Fault> {
    let mut octets = Vec::new(alloc);
    let mut chunk = [0; CHUNK];
    for _ in 0..u64::MAX {
        match file.read(&mut chunk) {
            Ok(0) => break,
            Ok(count) => octets.extend_from_slice(&chunk[..count.min(CHUNK)])?,
            Err(e) if e.kind() == ErrorKind::Interrupted => {}
            Err(e) => return Err(unread(rt, path, e)),
        }
    }
    Ok(octets)
}

fn read_file(rt: &HostRuntime, path: &str) -> Result<String, Fault> {
    match File::open(rt, path) {
        Ok(mut file) => text_in(read_whole(rt, rt.alloc(), path, &mut file)?),
        Err(e) => Err(unread(rt, path, e)),
    }
}

/// The text in the file at a path, if one is given, or on standard input.
pub fn text_of(rt: &HostRuntime, path: Option<String>) -> Result<String, Fault> {
    match path {
        Some(path) => read_file(rt, path.as_str()),
        None => read_text(rt),
    }
}
