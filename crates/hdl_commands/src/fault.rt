//! What is wrong with words.

use hdl_client::ClientFault;
use hdl_limits::{MESSAGE_MAX, WRITTEN_MAX};
use hdl_name::NameFault;
use hdl_value_lines::LineFault;
use std::alloc::{AllocError, AllocFailed};
use thiserror::Error;

/// What is wrong with the words of a request. None of them carries words.
#[derive(Clone, Copy, Debug, PartialEq, Eq, Error)]
pub enum ArgumentFault {
    #[error("unknown operation: write RESOLVE, CREATE, ADD, MODIFY, REMOVE, DELETE, LIST or AUTHENTICATE")]
    Operation,
    #[error("{0}")]
    Handle(NameFault),
    #[error("an index isn't a number from 1 to 4294967295")]
    Index,
    #[error("a key isn't INDEX:HANDLE, such as 300:0.NA/10")]
    Key,
    #[error("{0}")]
    Value(LineFault),
    #[error("an HS_SECKEY value is refused on the command line, which others on this machine can read: use `hdl batch`")]
    KeyInWords,
    #[error("a tab: fields are separated by one space")]
    Tab,
    #[error("the value's data is no administrator: the format is ADMIN")]
    AdminFormat,
    #[error("no CREATE, ADD or MODIFY stands before this value")]
    Stray,
    #[error("the operation needs values or indexes")]
    Missing,
    #[error("the secret is missing: set HDL_SECRET, or write it on the first line of standard input, or, in a batch, on the line after AUTHENTICATE")]
    NoSecret,
    #[error("the request has more than {MESSAGE_MAX} octets")]
    TooLong,
    #[error("a quote isn't closed: put a field with a quote into quotes, and double its own quotes")]
    Quote,
    #[error("the line contains a CR: end lines with LF or CR LF")]
    Return,
    #[error("the line has more or fewer fields than the header: put a field with a comma or semicolon into quotes")]
    Fields,
    #[error("the header lacks the column {0}: it needs handle, type and data, and may have ttl, index and permissions, with commas or semicolons between")]
    Column(&'static str),
    #[error("spaces stand around the name of the column {0}: take them out")]
    ColumnSpace(&'static str),
    #[error("the columns are separated by tabs: save the file as CSV with commas")]
    Tabs,
    #[error("the file is UTF-16: save it as CSV UTF-8")]
    Utf16,
    #[error("the text begins with a byte order mark: save it as UTF-8 without one")]
    Mark,
    #[error("the data is empty: fill in the field `data`, or create such a value with `hdl batch`")]
    NoData,
    #[error("the data begins or ends with a space: take it out")]
    DataSpace,
    #[error("the data isn't UTF-8: save the file as CSV UTF-8")]
    DataNotUtf8,
    #[error("the row has no handle")]
    NoHandle,
    #[error("the header names the column {0} twice")]
    ColumnTwice(&'static str),
    #[error("--ttl isn't a number of seconds below 4294967296")]
    Ttl,
    #[error("the value with index {0} is a key: change it with `hdl batch`")]
    KeyThere(u32),
    #[error("the value with index {0} has another type: name the indexes in a column index")]
    OtherType(u32),
    #[error("an HS_SECKEY value is refused in a CSV file: create it with `hdl batch`")]
    KeyInFile,
    #[error("two rows of the handle have the same index")]
    IndexTwice,
    #[error("the rows of the handle begin at line {0}, and other handles stand between")]
    Apart(usize),
    #[error("the handle has more than {WRITTEN_MAX} values: create it with some, and add the others with `hdl batch`")]
    TooMany,
    #[error("the prefix isn't one: write it as 10 or 0.NA/10")]
    Prefix,
    #[error("what is replaced is empty: say how the URLs begin")]
    NoOld,
    #[error("with NEW in the place of OLD some addresses would lose their http:// or https://, and no browser would be led there: write OLD and NEW with it, such as https://old.example/ and https://new.example/")]
    NotFollowed,
    #[error("no memory")]
    Memory,
}

impl From<AllocError> for ArgumentFault {
    fn from(_: AllocError) -> ArgumentFault {
        ArgumentFault::Memory
    }
}

impl<T: Drop> From<AllocFailed<T>> for ArgumentFault {
    fn from(_: AllocFailed<T>) -> ArgumentFault {
        ArgumentFault::Memory
    }
}

impl From<NameFault> for ArgumentFault {
    fn from(fault: NameFault) -> ArgumentFault {
        match fault {
            NameFault::Memory => ArgumentFault::Memory,
            other => ArgumentFault::Handle(other),
        }
    }
}

impl From<LineFault> for ArgumentFault {
    fn from(fault: LineFault) -> ArgumentFault {
        match fault {
            LineFault::Memory => ArgumentFault::Memory,
            other => ArgumentFault::Value(other),
        }
    }
}

impl From<ClientFault> for ArgumentFault {
    fn from(fault: ClientFault) -> ArgumentFault {
        match fault {
            ClientFault::TooLong => ArgumentFault::TooLong,
            _ => ArgumentFault::Memory,
        }
    }
}
