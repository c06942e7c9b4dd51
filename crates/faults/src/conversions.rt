//! Conversions of other crates' errors to faults.

use crate::Fault;
use boot_store::BootFault;
use control::PathFault;
use journal::{FILTER_VARIABLE, FilterFault};
use nat_types::NoMemory;
use std::alloc::{AllocError, AllocFailed, Global};
use std::io;

impl From<AllocError> for Fault {
    fn from(_: AllocError) -> Fault {
        Fault::NoMemory
    }
}

impl<T: Drop> From<AllocFailed<T>> for Fault {
    fn from(_: AllocFailed<T>) -> Fault {
        Fault::NoMemory
    }
}

impl From<NoMemory> for Fault {
    fn from(_: NoMemory) -> Fault {
        Fault::NoMemory
    }
}

/// An error of the output: commands turn no other `io::Error` into a fault by `?`.
impl From<io::Error> for Fault {
    fn from(error: io::Error) -> Fault {
        Fault::NotWritten(error.kind())
    }
}

/// A start without a boot number, of a file that isn't known here.
impl From<BootFault> for Fault {
    fn from(fault: BootFault) -> Fault {
        Fault::Boot { fault, why: None }
    }
}

impl From<PathFault> for Fault {
    fn from(fault: PathFault) -> Fault {
        match fault {
            PathFault::LongPath(length) => Fault::LongPath(length),
            PathFault::NoMemory => Fault::NoMemory,
        }
    }
}

/// Why a part of a filter is no directive.
const NO_DIRECTIVE: &str =
    "a directive is LEVEL, NAME or NAME=LEVEL, of the levels off, error, warn, info, debug";

/// Why the name of a directive is none, which may be a misspelt level.
const NO_NAME: &str =
    "the levels are off, error, warn, info, debug; the names are natpair, natpair::inside, natpair::outside, natpair::link, natpair::box";

/// Why the filter of the environment is none.
const NOT_TEXT: &str = "the variable's value isn't UTF-8";

impl Fault {
    /// Returns the fault of a filter that can't be read; `NoMemory` where there is no memory for its text.
    pub fn filter(alloc: Global, fault: FilterFault<'_>) -> Fault {
        let (part, why) = match fault {
            FilterFault::NoDirective(part) => (part, NO_DIRECTIVE),
            FilterFault::NoName(part) => (part, NO_NAME),
            FilterFault::NotText => (FILTER_VARIABLE, NOT_TEXT),
            FilterFault::NoMemory => return Fault::NoMemory,
        };
        match String::from_str(alloc, part) {
            Ok(part) => Fault::NoFilter { part, why },
            Err(_) => Fault::NoMemory,
        }
    }
}
