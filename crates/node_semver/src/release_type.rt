//! The kinds of releases, as node-semver names them.

ghost use Rattle.std.specs.Prelude.{◌≡◌, ◌↔◌, IsTrue};
ghost use Rattle.node_semver.specs.ReleaseTypes.{release_type_name};

/// A kind of release: by which step a version comes next.
#[derive(Clone, Copy, Debug, PartialEq, Eq)]
pub enum ReleaseType {
    Major,
    Minor,
    Patch,
    /// A pre-release of the next major version.
    PreMajor,
    /// A pre-release of the next minor version.
    PreMinor,
    /// A pre-release of the next patch.
    PrePatch,
    /// The next pre-release.
    PreRelease,
    /// The release of a pre-release.
    Release,
}

impl ReleaseType {
    /// The name, such as `premajor`.
    pub fn name(self) -> &'static str
        ensures { result.now ≡ release_type_name self }
    {
        match self {
            ReleaseType::Major => "major",
            ReleaseType::Minor => "minor",
            ReleaseType::Patch => "patch",
            ReleaseType::PreMajor => "premajor",
            ReleaseType::PreMinor => "preminor",
            ReleaseType::PrePatch => "prepatch",
            ReleaseType::PreRelease => "prerelease",
            ReleaseType::Release => "release",
        }
    }
}
