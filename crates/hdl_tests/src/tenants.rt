//! A tenants text whose lines a loop makes. All others are lines of `hdl_vectors`.

use crate::assertion::same;
use hdl_tenants::{TenantFault, Tenants};
use std::alloc::Global;
use std::process::Abort;
use std::test::Fail;

fn fault(alloc: Global, text: &str) -> Option<(usize, TenantFault)> {
    Tenants::read(alloc, text).err()
}

// Type "X", data "a", TTL 0, permission 3, timestamp 0 and no reference: what follows a value's index.
const TAIL: &str = "00000001580000000161000000000003000000000000000000000000";

/// A text whose handle `b/x` has 1,024 values.
fn whole(alloc: Global) -> Result<String, Fail> {
    let mut text = String::from_str(alloc, "publisher a 2 1\nprefix b a\n")?;
    for index in 1..=1024u32 {
        let line = format!(in alloc; "value b/x {index:08x}{TAIL}\n")?;
        text.push_str(&line)?;
    }
    Ok(text)
}

/// Appends a line, and sees what the text is refused as.
fn comes_to(
    rt: &impl Abort,
    alloc: Global,
    text: &mut String,
    line: &str,
    wanted: Option<(usize, TenantFault)>,
) -> Result<(), Fail> {
    text.push_str(line)?;
    same(rt, "fault of text", fault(alloc, text), wanted);
    Ok(())
}

fn value_line(alloc: Global, front: &str) -> Result<String, Fail> {
    Ok(format!(in alloc; "value {front}{TAIL}\n")?)
}

#[test]
fn values_of_one_handle(rt: HostRuntime) -> Result<(), Fail> {
    let other = value_line(rt.alloc(), "b/X 00000001")?;
    let one_more = value_line(rt.alloc(), "B/x 00000401")?;
    let mut text = whole(rt.alloc())?;
    comes_to(&rt, rt.alloc(), &mut text, "", None)?;
    comes_to(&rt, rt.alloc(), &mut text, &other, None)?;
    let refused = Some((1028, TenantFault::BadLine));
    comes_to(&rt, rt.alloc(), &mut text, &one_more, refused)
}
