//! The errors of functions that read a value.
ghost use Rattle.std.specs.Prelude.{◌≡◌, [], Some};
ghost use Rattle.muen_num.specs.Answers.{Explains};
ghost use Rattle.policy_values.specs.Faults.{or_want};
ghost use Rattle.policy_values.specs.Reading.{as_read_error, error_under};

use policy_types::{Fault, Place, Want};
use std::alloc::Global;

/// Why a value was not read.
#[derive(Debug, Drop)]
pub enum ReadError {
    /// It is not as wanted, first at this place, as seen from the value.
    Fault(Fault),
    /// Memory was refused.
    NoMemory,
}

impl ReadError {
    /// The value itself is not as wanted. It takes no memory.
    pub fn here(alloc: Global, want: Want) -> ReadError
        ensures { result ≡ ReadError.Fault (record { place = []; want = want }) }
    {
        ReadError::Fault(Fault {
            place: Place::of(String::new(alloc)),
            want,
        })
    }

    /// The same error, seen from one step further up: the step is the key or item number that leads
    /// to the value.
    pub fn under(self, step: &str) -> ReadError
        ensures { Explains ReadError.NoMemory (Some (error_under step.now self)) result }
    {
        match self {
            ReadError::NoMemory => ReadError::NoMemory,
            ReadError::Fault(Fault { place, want }) => match place.under(step) {
                Ok(place) => ReadError::Fault(Fault { place, want }),
                Err(_) => ReadError::NoMemory,
            },
        }
    }
}

/// What was found in a value, or that the value is not as wanted.
pub fn or_want<T>(alloc: Global, found: Option<T>, want: Want) -> Result<T, ReadError>
    ensures { result ≡ as_read_error (or_want want found) }
{
    match found {
        Some(x) => Ok(x),
        None => Err(ReadError::here(alloc, want)),
    }
}
