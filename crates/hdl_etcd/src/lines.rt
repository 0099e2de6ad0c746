//! An answer of lines without an end.

ghost use Rattle.std.specs.Prelude.{◌≤◌, length, IfOk, IfSome};
ghost use Rattle.hdl_etcd.specs.declared.lines.TheConstants.{LINE_MAX};

use crate::exchange::{Exchange, check_status};
use crate::fault::EtcdFault;
use std::alloc::Global;
use std::io::{Read, Write};

/// The maximum length of a line, in octets: etcd puts a thousand changes of the head into one at most.
pub const LINE_MAX: usize = 1_048_576;

/// An answer of lines without an end, over a stream that doesn't wait: a read of it fails with `WouldBlock` if nothing is there. After a fault it is of no more use.
#[derive(Drop)]
pub struct WatchLines<S: Read + Write + Drop> {
    exchange: Exchange<S>,
    /// Whether the head of the answer came.
    has_begun: bool,
}

impl<S: Read + Write + Drop> WatchLines<S> {
    /// Sends a request. Its answer isn't waited for.
    pub fn begin(
        alloc: Global,
        stream: S,
        path: &str,
        text: &str,
    ) -> Result<WatchLines<S>, EtcdFault> {
        let mut exchange = Exchange::over(alloc, stream)?;
        exchange.send(path, text)?;
        Ok(WatchLines {
            exchange,
            has_begun: false,
        })
    }

    /// Takes the next line, if all of it came.
    fn take(&mut self) -> Result<Option<Vec<u8>>, EtcdFault>
        ensures { IfOk result (λ o. IfSome o (λ line. length line.items ≤ LINE_MAX)) }
    {
        if !self.has_begun {
            let Some(head) = self.exchange.try_head()? else {
                return Ok(None);
            };
            check_status(head.status)?;
            self.has_begun = true;
        }
        self.exchange.try_chunk(LINE_MAX)
    }

    /// The next line, if all of it is there: the gateway makes a chunk of each. It reads once at most. An answer that ended is a fault.
    pub fn next_line(&mut self) -> Result<Option<Vec<u8>>, EtcdFault>
        ensures bounded { IfOk result (λ o. IfSome o (λ line. length line.items ≤ LINE_MAX)) }
    {
        match self.take()? {
            Some(line) => Ok(Some(line)),
            None if self.exchange.try_more()? => self.take(),
            None => Ok(None),
        }
    }
}
