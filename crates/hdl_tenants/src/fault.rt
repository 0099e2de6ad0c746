//! Why a tenants text is refused.

use thiserror::Error;

/// What is wrong with the first faulty line of a tenants text: the first of these, tested in this order. `Memory` is told where
/// room that the line needs was refused.
#[derive(Clone, Copy, Debug, PartialEq, Eq, Error)]
pub enum TenantFault {
    #[error("bad line")]
    BadLine,
    #[error("prefix given twice")]
    TwicePrefix,
    #[error("publisher given twice")]
    TwicePublisher,
    #[error("site information given twice")]
    TwiceSite,
    #[error("more than 64 lanes")]
    TooMany,
    #[error("no memory")]
    Memory,
}
