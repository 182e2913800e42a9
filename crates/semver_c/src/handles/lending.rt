//! What a handle holds, lent where it lies.

ghost use Rattle.std.specs.Prelude.{◌≡◌, Some};
ghost use Rattle.std.specs.Option.{option_copied};
ghost use Rattle.semver_c.specs.Handle.{Holds};
ghost use Rattle.semver_c.specs.Held.{range_in, scans_in, version_in, versions_in};
ghost use Rattle.semver_c.specs.Lent.{handle_follows, handle_stays};
ghost use types.Logic.{sem};

use super::{Handle, Held};
use semver_base::range::scans::Scan;
use semver_base::version::Version;
use semver_req::req::VersionReq;

impl Handle {
    fn value(&mut self) -> &mut Held
        requires { Holds self.old.value }
        ensures* writes_back { sem 𝓛 (handle_follows self.entry result) }
        ensures value { self.old.value ≡ Some result.now }
    {
        unsafe { &mut *(self.at as *mut Held) }
    }

    fn held(&mut self) -> Option<&Held>
        ensures* stays { sem 𝓛 (handle_stays self.entry) }
        ensures held { option_copied result ≡ self.old.value }
    {
        if self.is_empty() {
            return None;
        }
        Some(&*self.value())
    }

    /// The range, if one is held.
    pub fn range(&mut self) -> Option<&VersionReq>
        ensures* stays { sem 𝓛 (handle_stays self.entry) }
        ensures range { option_copied result ≡ range_in self.old.value }
    {
        match self.held() {
            Some(Held::Range(range)) => Some(range),
            Some(Held::Version(_) | Held::Versions(_) | Held::Scans(_)) | None => None,
        }
    }

    /// The version, if one is held.
    pub fn version(&mut self) -> Option<&Version>
        ensures* stays { sem 𝓛 (handle_stays self.entry) }
        ensures version { option_copied result ≡ version_in self.old.value }
    {
        match self.held() {
            Some(Held::Version(version)) => Some(version),
            Some(Held::Range(_) | Held::Versions(_) | Held::Scans(_)) | None => None,
        }
    }

    /// The versions, if several are held.
    pub fn versions(&mut self) -> Option<&[Option<Version>]>
        ensures* stays { sem 𝓛 (handle_stays self.entry) }
        ensures versions { option_copied result ≡ versions_in self.old.value }
    {
        match self.held() {
            Some(Held::Versions(versions)) => Some(versions.as_slice()),
            Some(Held::Range(_) | Held::Version(_) | Held::Scans(_)) | None => None,
        }
    }

    /// The scans, if what a range matches is held.
    pub fn scans(&mut self) -> Option<&[Scan]>
        ensures* stays { sem 𝓛 (handle_stays self.entry) }
        ensures scans { option_copied result ≡ scans_in self.old.value }
    {
        match self.held() {
            Some(Held::Scans(scans)) => Some(scans.as_slice()),
            Some(Held::Range(_) | Held::Version(_) | Held::Versions(_)) | None => None,
        }
    }
}
