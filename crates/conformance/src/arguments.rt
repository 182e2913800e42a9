//! The arguments of calls.

use crate::answer::{Fault, Item, OrFault, Reported};
use deno_semver::PreRelease;
use std::alloc::AllocError;

/// The only argument.
pub fn only(arguments: &[Item]) -> OrFault<&str> {
    match arguments {
        [Some(text)] => Ok(text.as_str()),
        _ => Err(Fault::OtherArguments),
    }
}

/// The two arguments.
pub fn pair(arguments: &[Item]) -> OrFault<(&str, &str)> {
    match arguments {
        [Some(one), Some(other)] => Ok((one.as_str(), other.as_str())),
        _ => Err(Fault::OtherArguments),
    }
}

/// The three arguments.
pub fn triple(arguments: &[Item]) -> OrFault<(&str, &str, &str)> {
    match arguments {
        [Some(one), Some(two), Some(three)] => Ok((one.as_str(), two.as_str(), three.as_str())),
        _ => Err(Fault::OtherArguments),
    }
}

/// Whether pre-releases are `restricted` or `admitted`, if the argument is one of these.
pub fn pre_release(argument: &str) -> Option<PreRelease> {
    match argument {
        "restricted" => Some(PreRelease::Restricted),
        "admitted" => Some(PreRelease::Admitted),
        _ => None,
    }
}

/// Appends the value.
pub fn push<T: Drop>(all: &mut Vec<T>, value: OrFault<T>) -> Reported {
    Ok(all.push(value?).map_err(AllocError::from)?)
}
