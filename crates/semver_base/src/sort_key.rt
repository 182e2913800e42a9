//! Sort keys of versions: strings whose bytes compare as versions do.

ghost use Rattle.std.specs.Prelude.{◌≡◌, ◌++◌, IfOk, OnOk};
ghost use Rattle.std.specs.String.{string_bytes};
ghost use Rattle.semver_base.specs.SortKey.{identifier_key, identifiers_key, number_key, pre_key, sort_key};

use crate::version::{Version, VersionPreOrBuild, number};
use itoa::Buffer;
use std::alloc::{AllocError, Global};

impl Version {
    /// Returns the sort key of the version, for a column of a database: the bytes of two keys compare as
    /// [`Version::cmp_precedence`] compares their versions. So an index on the column sorts versions, and finds those between
    /// two of them, without parsing any. Builds have no part in it: `1.0.0+a` and `1.0.0+b` have the same key.
    ///
    /// The key of `1.10.0-beta.2` is `A1B10A0-$beta!#A22!!`. It is below that of `1.10.0`, `A1B10A0~`, and above that of
    /// `1.9.0`, `A1A9A0~`.
    ///
    /// This holds of all versions that a text parses to, and their keys are printable ASCII without whitespace, and none
    /// begins another (`laws`). A key is at most three times as long as the version's text. The column has to compare by
    /// bytes, as it does in SQLite, and in PostgreSQL with `COLLATE "C"`.
    ///
    /// Fails only out of memory.
    pub fn sort_key(&self, alloc: Global) -> Result<String, AllocError>
        ensures { IfOk result (λ key. string_bytes key ≡ sort_key self.now) }
    {
        let mut key = String::new(alloc);
        push_number(&mut key, self.major)?;
        push_number(&mut key, self.minor)?;
        push_number(&mut key, self.patch)?;
        push_pre(&mut key, self.pre.as_slice())?;
        Ok(key)
    }
}

// Appends the key of a number: a letter for how many digits it has, from `A` for one, and the digits.
pub(crate) fn push_number(key: &mut String, number: u64) -> Result<(), AllocError>
    ensures { OnOk result (string_bytes key.new ≡ string_bytes key.old ++ number_key number) }
{
    let mut buffer = Buffer::new();
    let digits = buffer.format(number);
    key.push((b'@' + digits.len() as u8) as char)?;
    key.push_str(digits)
}

// Appends the key of an identifier.
fn push_identifier(key: &mut String, identifier: &VersionPreOrBuild) -> Result<(), AllocError>
    ensures { OnOk result (string_bytes key.new
        ≡ string_bytes key.old ++ identifier_key identifier.now) }
{
    match number(identifier) {
        Some(value) => {
            key.push('#')?;
            push_number(key, value)?;
        }
        None => key.push('$')?,
    }
    key.push_str(identifier.as_str())?;
    key.push('!')
}

// Appends the keys of identifiers, and the end of the list.
fn push_identifiers(key: &mut String, identifiers: &[VersionPreOrBuild]) -> Result<(), AllocError>
    ensures { OnOk result (string_bytes key.new
        ≡ string_bytes key.old ++ identifiers_key identifiers.now) }
{
    for identifier in identifiers {
        push_identifier(key, identifier)?;
    }
    key.push('!')
}

// Appends the key of a pre-release, or the mark of a release.
fn push_pre(key: &mut String, pre: &[VersionPreOrBuild]) -> Result<(), AllocError>
    ensures { OnOk result (string_bytes key.new ≡ string_bytes key.old ++ pre_key pre.now) }
{
    if pre.is_empty() {
        return key.push('~');
    }
    key.push('-')?;
    push_identifiers(key, pre)
}
