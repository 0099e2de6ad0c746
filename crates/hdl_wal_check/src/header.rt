//! The header of a log, and the sums of its frames, in SQLite's format.

use crate::notes::number_at;

/// How many octets the header of a log has.
pub(crate) const LOG_HEADER_LEN: usize = 32;

/// How many octets the header of a frame has, which its page follows.
pub(crate) const FRAME_HEADER_LEN: usize = 24;

/// What the header of the log has which is written where the file is made: how often it was begun anew.
const MAKING: u32 = 0xffff_ffff;

/// How a header begins.
const MARK: u8 = 0x37;

/// The two sums up to a place of a log.
#[derive(Clone, Copy, PartialEq, Eq)]
pub(crate) struct Sums {
    first: u32,
    second: u32,
}

/// The number in four octets, in the order of the log's sums.
fn word(is_big: bool, octets: [u8; 4]) -> u32 {
    if is_big {
        u32::from_be_bytes(octets)
    } else {
        u32::from_le_bytes(octets)
    }
}

impl Sums {
    const NONE: Sums = Sums {
        first: 0,
        second: 0,
    };

    /// The sums that stand at a place.
    fn at(octets: &[u8], place: usize) -> Sums {
        Sums {
            first: number_at(octets, place),
            second: number_at(octets, place.saturating_add(4)),
        }
    }

    fn add(self, first: u32, second: u32) -> Sums {
        let first = self.first.wrapping_add(first).wrapping_add(self.second);
        Sums {
            first,
            second: self.second.wrapping_add(second).wrapping_add(first),
        }
    }

    /// The sums behind these octets, eight at a time.
    fn behind(self, is_big: bool, octets: &[u8]) -> Sums {
        let mut sums = self;
        let mut rest = octets;
        for _ in 0..octets.len() {
            let [a, b, c, d, e, f, g, h, more @ ..] = rest else {
                break;
            };
            sums = sums.add(
                word(is_big, [*a, *b, *c, *d]),
                word(is_big, [*e, *f, *g, *h]),
            );
            rest = more;
        }
        sums
    }
}

/// What the front of a log is.
#[derive(Clone, Copy)]
pub(crate) enum Front {
    /// It is being begun anew, once the file has all of it. Its header may be the one before, the next one, or neither.
    Begun(Option<Header>),
    /// No header of a log.
    Noise,
    Signed(Header),
}

/// The header of a log.
#[derive(Clone, Copy)]
pub(crate) struct Header {
    is_big: bool,
    /// How many octets a page has.
    pub(crate) page: usize,
    /// How often the log was begun anew.
    round: u32,
    salt: [u8; 8],
    /// The sums behind it.
    pub(crate) sums: Sums,
}

/// The eight octets from a place on.
fn eight_at(octets: &[u8], place: usize) -> [u8; 8] {
    let mut found = [0; 8];
    for (to, from) in found.iter_mut().zip(octets.iter().skip(place)) {
        *to = *from;
    }
    found
}

/// The octets of a header with another first octet.
fn with_first(octets: &[u8], first: u8) -> [u8; LOG_HEADER_LEN] {
    let mut found = [0; LOG_HEADER_LEN];
    for (to, from) in found.iter_mut().zip(octets) {
        *to = *from;
    }
    found[0] = first;
    found
}

/// The header that these octets are.
fn header_in(octets: &[u8; LOG_HEADER_LEN]) -> Option<Header> {
    let is_big = octets[3] == 0x83;
    if !octets.starts_with(b"\x37\x7f\x06") || !(is_big || octets[3] == 0x82) {
        return None;
    }
    let sums = Sums::at(octets, 24);
    if Sums::NONE.behind(is_big, &octets[..24]) != sums {
        return None;
    }
    Some(Header {
        is_big,
        page: (number_at(octets, 8) as usize).min(65_536),
        round: number_at(octets, 12),
        salt: eight_at(octets, 16),
        sums,
    })
}

impl Front {
    /// What these octets are, behind which the log has frames or not. Where it is begun anew the first octet is 0 until the others are there, and whatever a
    /// cut of power makes of it while it is written. The others may be anything meanwhile, but not all of them zeros.
    pub(crate) fn read(octets: &[u8; LOG_HEADER_LEN], has_frames: bool) -> Front {
        let is_torn = octets[0] == 0 && *octets != [0; LOG_HEADER_LEN];
        match header_in(&with_first(octets, MARK)) {
            Some(header) if octets[0] == MARK => Front::Signed(header),
            Some(header) => Front::Begun(Some(header)),
            None if is_torn || !has_frames => Front::Begun(None),
            None => Front::Noise,
        }
    }
}

impl Header {
    /// Whether the file of this log is being made.
    pub(crate) fn is_making(&self) -> bool {
        self.round == MAKING
    }

    /// The sums behind a frame, if it is whole and goes on from these.
    pub(crate) fn behind(&self, before: Sums, frame: &[u8]) -> Option<Sums> {
        if !self.has_salt(frame) || number_at(frame, 0) == 0 {
            return None;
        }
        let front = before.behind(self.is_big, frame.get(..8).unwrap_or(&[]));
        let whole = front.behind(self.is_big, frame.get(FRAME_HEADER_LEN..).unwrap_or(&[]));
        if whole == Sums::at(frame, 16) {
            Some(whole)
        } else {
            None
        }
    }

    /// Whether the gate of a frame that begins so is open.
    pub(crate) fn opens(&self, frame: &[u8]) -> bool {
        frame.get(8) == self.salt.first()
    }

    /// Whether this is what a change leaves behind its last frame: no page yet, and a shut gate.
    pub(crate) fn ends_at(&self, front: &[u8]) -> bool {
        let shut = if self.salt[0] == 0 { 1 } else { 0 };
        eight_at(front, 0) == [0; 8] && front.get(8) == Some(&shut)
    }

    /// Whether the eight octets that were seen last are those by which frames are known as this log's.
    pub(crate) fn is_salt(&self, seen: u64) -> bool {
        seen == u64::from_be_bytes(self.salt)
    }

    /// Whether a frame that begins so is of this log.
    pub(crate) fn has_salt(&self, frame: &[u8]) -> bool {
        eight_at(frame, 8) == self.salt
    }
}
