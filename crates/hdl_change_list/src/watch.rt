//! A watch of a key.

use crate::streams::MemberStream;
use hdl_etcd::{EtcdFault, WatchEvents, WatchLines, watch_events_of};
use hdl_limits::Items;
use std::alloc::Global;

/// A connection of its own, on which a member tells each time that a key is put.
#[derive(Drop)]
pub(crate) struct Watch {
    alloc: Global,
    lines: WatchLines<MemberStream>,
    /// Whether the member has told that it watches.
    stands: bool,
}

impl Watch {
    /// Sends the request. Its answer isn't waited for.
    pub(crate) fn begin(
        alloc: Global,
        stream: MemberStream,
        text: &str,
    ) -> Result<Watch, EtcdFault> {
        stream.set_nonblocking()?;
        Ok(Watch {
            alloc,
            lines: WatchLines::begin(alloc, stream, "/v3/watch", text)?,
            stands: false,
        })
    }

    /// Whether the member has told that it watches.
    pub(crate) fn stands(&self) -> bool {
        self.stands
    }

    /// What is told next, if something came. What isn't understood tells of no key. A watch that is over is a fault.
    pub(crate) fn next(&mut self) -> Result<Option<WatchEvents>, EtcdFault> {
        let Some(line) = self.lines.next_line()? else {
            return Ok(None);
        };
        self.stands = true;
        match watch_events_of(self.alloc, &line) {
            Ok(told) if told.is_over => Err(EtcdFault::NoAnswer),
            Ok(told) => Ok(Some(told)),
            Err(_) => Ok(Some(WatchEvents {
                pairs: Items::new(Vec::new(self.alloc)),
                is_over: false,
            })),
        }
    }
}
