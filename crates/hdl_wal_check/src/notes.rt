//! What is known of a table's file before it is opened.

/// How many octets of a file are looked at: the header of a SQLite database.
pub const FILE_HEADER_LEN: usize = 100;

/// How a SQLite database begins.
const MAGIC: &[u8] = b"SQLite format 3\0";

/// What is known of a table's file before it is opened.
#[derive(Clone, Copy, Debug, PartialEq, Eq)]
pub enum FileSummary {
    /// It isn't there, or is shorter than a header.
    Nothing,
    /// It isn't a database, or can't be read.
    Other,
    /// A database, with this note: 0 where none was made.
    Noted(u32),
}

/// The number in the four octets at a place, the highest first, of those that are there.
pub(crate) fn number_at(octets: &[u8], place: usize) -> u32 {
    let mut number = 0u32;
    for octet in octets.iter().skip(place).take(4) {
        number = number.wrapping_mul(256).wrapping_add(u32::from(*octet));
    }
    number
}

/// What the front of a file says.
pub fn summarize_file(front: &[u8]) -> FileSummary {
    if front.len() < FILE_HEADER_LEN {
        return FileSummary::Nothing;
    }
    if front.starts_with(MAGIC) {
        FileSummary::Noted(number_at(front, 60))
    } else {
        FileSummary::Other
    }
}
