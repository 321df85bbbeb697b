use rpo_kinds::names::UnknownKind;
use std::alloc::{AllocError, AllocFailed};
use std::io;
use std::num::ParseIntError;

// Why a line of a corpus gives no case, or its case no line of output.
#[derive(Drop)]
pub enum NoCase {
    Form,
    Broken(io::Error),
}

impl From<AllocError> for NoCase {
    fn from(e: AllocError) -> NoCase {
        NoCase::Broken(e.into())
    }
}

impl<T: Drop> From<AllocFailed<T>> for NoCase {
    fn from(e: AllocFailed<T>) -> NoCase {
        NoCase::Broken(e.into())
    }
}

impl From<io::Error> for NoCase {
    fn from(e: io::Error) -> NoCase {
        NoCase::Broken(e)
    }
}

impl From<ParseIntError> for NoCase {
    fn from(_e: ParseIntError) -> NoCase {
        NoCase::Form
    }
}

impl From<UnknownKind> for NoCase {
    fn from(_e: UnknownKind) -> NoCase {
        NoCase::Form
    }
}
