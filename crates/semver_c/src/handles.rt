//! Values that callers keep across calls: a range, what it matches, a version or several versions on the heap, behind a struct of one pointer.
//!
//! C holds such a struct and gives it back. A clause of the handle says what it owns, so each value is freed once, and a call
//! borrows the value where it lies.

ghost use Rattle.std.specs.Prelude.{◌≡◌, IfErr, None, OnOk, Option, Some};
ghost use Rattle.std.specs.Bool.{MatchBool};
ghost use Rattle.semver_c.specs.Handle.{Holds};
ghost use Rattle.semver_c.specs.declared.handles.Held.{Held};

mod lending;
mod loose;

use crate::handles::loose::Loose;
use semver_base::range::scans::Scan;
use semver_base::version::Version;
use semver_req::req::VersionReq;
use std::alloc::{AllocError, Global};
use std::marker::Model;
use std::{mem, ptr};

/// What a handle holds.
#[derive(Drop)]
pub enum Held {
    Range(VersionReq),
    Version(Version),
    /// The versions of the lines of a text; none for a line that isn't a version.
    Versions(Vec<Option<Version>>),
    /// What a range matches.
    Scans(Vec<Scan>),
}

/// A value on the heap, or none. For C it is a struct of one pointer, which no C code reads.
#[repr(C)]
#[derive(Drop)]
pub struct Handle {
    at: *mut u8,
    pub ghost value: { Option Held },
}

/// The handle of a range, as C names it.
pub type RequirementHandle = Handle;

/// The handle of a version.
pub type VersionHandle = Handle;

/// The handle of several versions.
pub type VersionListHandle = Handle;

/// The handle of what a range matches.
pub type ScansHandle = Handle;

impl Model for Handle {
    ghost use Rattle.semver_c.specs.Handle.{owns_held};

    ghost also_owns = { λ h. owns_held h.at h.value };
}

impl Handle {
    fn none() -> Handle
        ensures { result.value ≡ None }
    {
        Handle {
            at: ptr::null_mut(),
        }
    }

    fn of(value: Loose<Held, Global>) -> Handle
        ensures { result.value ≡ Some value.value }
    {
        let Loose { at, alloc: _ } = value;
        Handle { at: at as *mut u8 }
    }

    fn into_loose(self, alloc: Global) -> Loose<Held, Global>
        requires { Holds self.value }
        ensures { self.value ≡ Some result.value }
    {
        let Handle { at } = self;
        Loose {
            at: at as *mut Held,
            alloc,
        }
    }

    fn is_empty(&mut self) -> bool
        ensures stays { self.new ≡ self.old }
        ensures answer { MatchBool result (self.old.value ≡ None) (Holds self.old.value) }
    {
        self.at == ptr::null_mut()
    }

    /// Holds a value, and frees the one that was held.
    pub fn hold(&mut self, alloc: Global, value: Held) -> Result<(), AllocError>
        ensures held { OnOk result (self.new.value ≡ Some value) }
        ensures stays { IfErr result (λ _. self.new.value ≡ self.old.value) }
    {
        let held = Box::new(alloc, value)?;
        self.free(alloc);
        *self = Handle::of(Loose::of(held));
        Ok(())
    }

    /// Frees the value that is held, if there is one.
    pub fn free(&mut self, alloc: Global)
        ensures { self.new.value ≡ None }
    {
        if self.is_empty() {
            return;
        }
        let handle = mem::replace(self, Handle::none());
        drop(handle.into_loose(alloc).into_box());
    }
}
