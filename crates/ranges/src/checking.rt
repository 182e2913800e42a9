//! `ranges check`: the ranges of package.json, deno.json, import maps and lists of ranges.

use crate::corepack::{Wanted, is_null_manager};
use crate::explaining::has_left_out;
use crate::overriding::Overrides;
use answers::asking::Problem;
use answers::explained::{Explanation, Meaning, Piece, explain};
use answers::questions::displayed;
use checks::advice::{
    EMPTY_AT_END, bound_of_pre_releases, differences, has_match, have_common_version, hint_of,
    ignored, of_separators, warnings,
};
use checks::errors::{errors_at_end, errors_of, message_of};
use checks::findings::{Aside, Cause, Finding, Format, Position, Report};
use checks::fixing::{Rewritten, apply, pins_of, print_diffs, rewrite, set_above, write_all};
use checks::known::{
    Installer, Known, Manager, add_folder_name, is_own, known_of, linked_by, named_by,
};
use checks::projects::by_project;
use checks::rewriting::{is_rewritten, is_tag, pieces_of};
use checks::rules::{Level, Levels, Rule, Unknown};
use checks::walking::{Group, Manifests, find, named, path_in_repository, read_file, without_mark};
use clap::ArgMatches;
use deno_semver::PreRelease;
use manifests::entry::Entry;
use manifests::manifest::entries;
use manifests::npm::{
    self, Reading, Source, ends_in_key, is_package_name, name_and_range, number_behind_zero,
    source_of,
};
use manifests::sections::Kind;
use package_answers::errors::PackageErrors;
use package_answers::references::read_reference;
use semver_req::common::values::Flavour;
use std::alloc::{AllocError, Global};
use std::collections::{HashMap, HashSet};
use std::fs;
use std::io::Write;
use std::rt::{Files, Runtime};
use terminal::console::{Console, Status, Stop, print_line};
use terminal::hints::{question, url_behind};
use terminal::pointing::version_errors;
use terminal::shown::{Quoted, Shown, part};

// ---- ranges

// What is too large for npm in a range.
fn excess(range: &str) -> &'static str {
    if npm::has_long_word(range) {
        "npm refuses a version of more than 256 characters"
    } else {
        "npm refuses a number above 9007199254740991"
    }
}

// Reports that npm refuses a range of this grammar, and why.
fn refuse<O: Write, E: Write>(
    console: &mut Console<O, E>,
    report: &mut Report<'_>,
    entry: &Entry,
    range: &str,
    pieces: &[Piece],
    reading: Reading,
) -> Result<(), Stop> {
    if has_left_out(pieces) {
        let errors = errors_at_end(console.alloc, Flavour::Npm, entry.text.as_str(), range)?;
        let message = "npm refuses it: no alternative is a range";
        let finding = Finding {
            errors: Some(&errors),
            ..Finding::new(Cause::Refused, message)
        };
        report.add(console, entry, finding)?;
    }
    if range.contains(',') {
        let hint = hint_of(console.alloc, range)?;
        let message = format!(in console.alloc; "npm refuses `,`{hint}")?;
        let finding = Finding::new(Cause::Refused, message.as_str());
        return report.add(console, entry, finding);
    }
    let message = if range.contains('\u{85}') {
        "npm refuses U+0085: JavaScript doesn't take it for whitespace"
    } else if reading == Reading::TooLarge {
        excess(range)
    } else if has_left_out(pieces) {
        return Ok(());
    } else if npm::has_empty_identifier(range) {
        "npm refuses it: a part of the pre-release or of the build is empty"
    } else {
        "npm refuses it"
    };
    report.add(console, entry, Finding::new(Cause::Refused, message))
}

// Reports what npm makes of a dependency in another way than this grammar.
fn compare_with_npm<O: Write, E: Write>(
    console: &mut Console<O, E>,
    report: &mut Report<'_>,
    entry: &Entry,
    range: &str,
    pieces: &[Piece],
) -> Result<(), Stop> {
    let read = npm::read_range(range);
    match read.reading {
        Reading::Refused | Reading::TooLarge => {
            return refuse(console, report, entry, range, pieces, read.reading);
        }
        Reading::Tag => {
            let finding = Finding::by(Rule::NpmDiffers, "npm reads it as a tag");
            return report.add(console, entry, finding);
        }
        Reading::Range => (),
    }
    // Such a finding stands at the start of the text, and one of an alternative behind it.
    if let Some(word) = read.ignored
        && has_left_out(pieces)
    {
        report_ignored(console, report, entry, range, word, None)?;
    }
    match read.dropped {
        _ if has_left_out(pieces) => {
            return report_left_out(console, report, entry, range, read.dropped.is_some());
        }
        Some(dropped) => {
            let hint = if dropped.contains(',') {
                hint_of(console.alloc, dropped)?
            } else {
                ""
            };
            let message = format!(in console.alloc; "npm leaves out `{dropped}`{hint}");
            report.tell(console, entry, Rule::DroppedAlternative, message)?;
        }
        None => (),
    }
    if let Some(word) = read.ignored {
        report_ignored(console, report, entry, range, word, None)?;
    }
    Ok(())
}

// Reports that an alternative isn't a range, and that npm leaves it out or reads it.
fn report_left_out<O: Write, E: Write>(
    console: &mut Console<O, E>,
    report: &mut Report<'_>,
    entry: &Entry,
    range: &str,
    is_dropped: bool,
) -> Result<(), Stop> {
    let errors = errors_at_end(console.alloc, Flavour::Npm, entry.text.as_str(), range)?;
    if is_dropped {
        let message = "npm leaves out an alternative that isn't a range";
        report.add_with(
            console,
            entry,
            Cause::Rule(Rule::DroppedAlternative),
            message,
            &errors,
        )
    } else {
        let message = "npm reads an alternative that Deno leaves out";
        report.add_with(
            console,
            entry,
            Cause::Rule(Rule::NpmDiffers),
            message,
            &errors,
        )
    }
}

// Reports a word of a range that npm ignores.
fn report_ignored<O: Write, E: Write>(
    console: &mut Console<O, E>,
    report: &mut Report<'_>,
    entry: &Entry,
    range: &str,
    word: &str,
    errors: Option<&PackageErrors>,
) -> Result<(), Stop> {
    let message = ignored(console.alloc, range, word)?;
    let finding = Finding {
        errors,
        ..Finding::by(Rule::IgnoredComparator, message.as_str())
    };
    report.add(console, entry, finding)
}

// Reports a version that looks like a range with a hyphen.
fn warn_of_hyphen<O: Write, E: Write>(
    console: &mut Console<O, E>,
    report: &mut Report<'_>,
    entry: &Entry,
    range: &str,
) -> Result<(), Stop> {
    let Some((from, to)) = npm::version_as_pre_release(range) else {
        return Ok(());
    };
    let message = format!(in console.alloc;
        "one version, with the pre-release `{to}`: write `{from} - {to}` if you mean a range"
    );
    report.tell(console, entry, Rule::OddVersion, message)
}

// The alternatives of a dependency or an engine as npm reads them, if it reads another range than Deno; none of them where Deno can't.
fn pieces_of_npm(alloc: Global, entry: &Entry, range: &str) -> Result<Option<Vec<Piece>>, Stop> {
    let read = npm::read_range(range);
    let is_other = match entry.kind {
        Kind::Dependency => read.ignored.is_some() || read.dropped.is_some(),
        Kind::Engine => false,
        _ => return Ok(None),
    };
    if !is_other && npm::number_behind_wildcard(range).is_none() {
        return Ok(None);
    }
    // Deno passes over the empty alternative at the end, which is reported.
    let range = range.trim_end();
    match npm::as_read(alloc, range.strip_suffix("||").unwrap_or(range))? {
        Some(read) => pieces_of(alloc, Flavour::Npm, read.as_str()),
        None => Ok(Some(Vec::new(alloc))),
    }
}

// Reports what is odd about the alternatives of a range.
fn warn_of_pieces<O: Write, E: Write>(
    console: &mut Console<O, E>,
    report: &mut Report<'_>,
    entry: &Entry,
    range: &str,
    pieces: &[Piece],
) -> Result<(), Stop> {
    let alloc = console.alloc;
    let read = pieces_of_npm(alloc, entry, range)?;
    let warnings = match &read {
        Some(read) => warnings(alloc, read.as_slice())?,
        None => warnings(alloc, pieces)?,
    };
    // What is said of an ignored word or a refusal is enough.
    let read = npm::read_range(range);
    let is_read = read.reading == Reading::Range && read.ignored.is_none();
    let is_said = entry.kind == Kind::Dependency && !is_read;
    for (rule, warning) in warnings.iter() {
        if *rule != Rule::NoMatch || !is_said {
            report.add(console, entry, Finding::by(*rule, warning.as_str()))?;
        }
    }
    Ok(())
}

// Reports what is odd about a range, given its alternatives and its canonical form.
fn warn<O: Write, E: Write>(
    console: &mut Console<O, E>,
    report: &mut Report<'_>,
    entry: &Entry,
    range: &str,
    pieces: &[Piece],
    normal: &str,
) -> Result<(), Stop> {
    let alloc = console.alloc;
    if entry.kind == Kind::Dependency {
        compare_with_npm(console, report, entry, range, pieces)?;
    } else if has_left_out(pieces) && entry.kind != Kind::Engine {
        report_left_out(console, report, entry, range, true)?;
    }
    if entry.kind != Kind::Specifier {
        for difference in differences(alloc, range, pieces)?.iter() {
            let finding = Finding::by(Rule::NpmDiffers, difference.as_str());
            report.add(console, entry, finding)?;
        }
    }
    if entry.kind != Kind::Dependency
        && let Some(message) = of_separators(alloc, range)?
    {
        let finding = Finding::by(Rule::IgnoredComparator, message.as_str());
        report.add(console, entry, finding)?;
    }
    if entry.kind != Kind::Specifier {
        warn_of_hyphen(console, report, entry, range)?;
    }
    warn_of_pieces(console, report, entry, range, pieces)?;
    if let Some(piece) = bound_of_pre_releases(pieces) {
        let message = format!(in alloc; "a bound of `{piece}` is a pre-release");
        report.tell(console, entry, Rule::PreReleaseBound, message)?;
    }
    if range.trim() != normal {
        report_form(console, report, entry, pieces, normal)?;
    }
    Ok(())
}

// Reports that a range isn't in its canonical form, and why --fix leaves it so.
fn report_form<O: Write, E: Write>(
    console: &mut Console<O, E>,
    report: &mut Report<'_>,
    entry: &Entry,
    pieces: &[Piece],
    normal: &str,
) -> Result<(), Stop> {
    let alloc = console.alloc;
    if report.levels.of(Rule::NotCanonical) == Level::Off {
        return Ok(());
    }
    let why = if pieces.iter().all(has_match) && !is_rewritten(alloc, &report.levels, entry)? {
        "; --fix leaves it alone, since npm may read the two differently"
    } else {
        ""
    };
    let message = format!(in alloc; "the canonical form is `{normal}`{why}");
    report.tell(console, entry, Rule::NotCanonical, message)
}

// Whether an entry of engines keeps a package manager out by words, as `please-use-yarn` for npm does, and doesn't ask for a usual tag.
fn keeps_out(entry: &Entry) -> bool {
    let text = entry.text.as_str().trim();
    let is_manager = matches!(entry.name.as_str(), "npm" | "pnpm" | "yarn");
    let is_tag = matches!(text, "latest" | "lts" | "next" | "current" | "stable");
    let mut chars = text.chars();
    let is_letter = |c: Option<char>| c.is_some_and(|c| c.is_alphabetic());
    let is_words = is_letter(chars.next()) && is_letter(chars.next());
    entry.kind == Kind::Engine && is_manager && is_words && !is_tag
}

// Reports a text that isn't a range of this grammar. npm may take it for one, or for a tag.
fn report_invalid<O: Write, E: Write>(
    console: &mut Console<O, E>,
    report: &mut Report<'_>,
    entry: &Entry,
    flavour: Flavour,
    range: &str,
) -> Result<(), Stop> {
    let errors = errors_at_end(console.alloc, flavour, entry.text.as_str(), range)?;
    let read = npm::read_range(range);
    match (entry.kind, read.reading, read.ignored) {
        (Kind::Dependency, Reading::Range, Some(word)) => {
            report_ignored(console, report, entry, range, word, Some(&errors))
        }
        (Kind::Dependency, Reading::Range, None) => {
            let message = "npm reads a range that Deno doesn't";
            report.add_with(
                console,
                entry,
                Cause::Rule(Rule::NpmDiffers),
                message,
                &errors,
            )
        }
        (Kind::Dependency, Reading::Tag, _) => {
            let message = "npm reads it as a tag: is a range meant?";
            report.add_with(console, entry, Cause::Rule(Rule::OddTag), message, &errors)
        }
        // npm reads it.
        (Kind::Engine, _, _) => Ok(()),
        (_, _, _) => report.add_with(
            console,
            entry,
            Cause::Refused,
            "not a version range",
            &errors,
        ),
    }
}

// Checks a tag, which the text is without an empty alternative at its end.
fn check_tag<O: Write, E: Write>(
    console: &mut Console<O, E>,
    report: &mut Report<'_>,
    entry: &Entry,
    text: &str,
    tag: &str,
) -> Result<(), Stop> {
    if entry.kind == Kind::Dependency {
        match npm::read_range(text).reading {
            Reading::Refused => {
                let message = "npm refuses the tag: it has a character that URLs don't";
                return report.add(console, entry, Finding::new(Cause::Refused, message));
            }
            Reading::TooLarge => {
                return report.add(console, entry, Finding::new(Cause::Refused, excess(text)));
            }
            Reading::Range if text.trim_end().ends_with("||") => {
                return report.add(console, entry, Finding::by(Rule::NpmDiffers, EMPTY_AT_END));
            }
            Reading::Range | Reading::Tag => (),
        }
    }
    match question(tag) {
        Some(question) => report.add(console, entry, Finding::by(Rule::OddTag, question)),
        None => Ok(()),
    }
}

// Checks the range that an entry's text is, or ends with.
fn check_range<O: Write, E: Write>(
    console: &mut Console<O, E>,
    report: &mut Report<'_>,
    entry: &Entry,
    flavour: Flavour,
    range: &str,
) -> Result<(), Stop> {
    match explain(console.alloc, flavour, PreRelease::Restricted, range) {
        Ok(Explanation::Tag(tag)) => check_tag(console, report, entry, range, tag.as_str()),
        Ok(Explanation::Ranges { pieces, normal }) => {
            warn(
                console,
                report,
                entry,
                range,
                pieces.as_slice(),
                normal.as_str(),
            )?;
            if !report.canonical {
                return Ok(());
            }
            report.add(console, entry, Finding::new(Cause::Fine, normal.as_str()))
        }
        Err(Problem::Invalid(_)) => report_invalid(console, report, entry, flavour, range),
        Err(Problem::OutOfMemory) => Err(Stop::OutOfMemory),
    }
}

// Checks the range of devEngines.packageManager that Corepack refuses.
fn check_tool_range<O: Write, E: Write>(
    console: &mut Console<O, E>,
    report: &mut Report<'_>,
    entry: &Entry,
) -> Result<(), Stop> {
    let (alloc, text) = (console.alloc, entry.text.as_str());
    let refused = npm::refused_part(text).unwrap_or(text);
    let message = "Corepack refuses it: not a version range";
    if is_tag(alloc, Flavour::Npm, text)? {
        return report.add(console, entry, Finding::new(Cause::Refused, message));
    }
    let is_range = match pieces_of(alloc, Flavour::Npm, text)? {
        Some(pieces) => !has_left_out(pieces.as_slice()),
        None => false,
    };
    if is_range {
        let hint = hint_of(alloc, text)?;
        let message = format!(in alloc; "Corepack refuses {}{hint}", Quoted(refused))?;
        let finding = Finding::new(Cause::Refused, message.as_str());
        return report.add(console, entry, finding);
    }
    let errors = errors_at_end(alloc, Flavour::Npm, text, text)?;
    report.add_with(console, entry, Cause::Refused, message, &errors)
}

// Checks an entry of devEngines.packageManager that Corepack refuses.
fn check_tool<O: Write, E: Write>(
    console: &mut Console<O, E>,
    report: &mut Report<'_>,
    entry: &Entry,
) -> Result<(), Stop> {
    let message = match entry.kind {
        Kind::Engine => return check_tool_range(console, report, entry),
        Kind::Tool if entry.depth == 1 => "Corepack refuses it: it has no `name`",
        Kind::Tool => "Corepack refuses it: expected a name, such as \"pnpm\"",
        _ => "Corepack refuses it: expected a string, such as \"^1.2\"",
    };
    report.add(console, entry, Finding::new(Cause::Refused, message))
}

// Checks the range of an engine, which npm reads strictly.
fn check_engine<O: Write, E: Write>(
    console: &mut Console<O, E>,
    report: &mut Report<'_>,
    entry: &Entry,
) -> Result<(), Stop> {
    let (alloc, text) = (console.alloc, entry.text.as_str());
    let Some(refused) = npm::refused_part(text) else {
        return check_range(console, report, entry, Flavour::Npm, text);
    };
    if keeps_out(entry) {
        return Ok(());
    }
    if is_tag(alloc, Flavour::Npm, text)? {
        let message = "a tag, which no version satisfies";
        return report.add(console, entry, Finding::by(Rule::OddEngine, message));
    }
    let is_range = match pieces_of(alloc, Flavour::Npm, text)? {
        Some(pieces) => !has_left_out(pieces.as_slice()),
        None => false,
    };
    if is_range {
        let hint = hint_of(alloc, text)?;
        let message = format!(in alloc;
            "npm refuses {}, so no version satisfies the range{hint}",
            Quoted(refused)
        );
        return report.tell(console, entry, Rule::OddEngine, message);
    }
    let errors = errors_at_end(alloc, Flavour::Npm, text, text)?;
    let message = "not a version range: no version satisfies it";
    report.add_with(
        console,
        entry,
        Cause::Rule(Rule::OddEngine),
        message,
        &errors,
    )
}

// ---- entries

// Whether the entry is of overrides, and refers to a dependency.
fn refers(entry: &Entry) -> bool {
    npm::is_reference(entry.text.as_str())
        && matches!(entry.section, "overrides" | "resolutions" | "pnpm")
}

// Whether a line of a list is read as a range, though npm takes such a text for a folder.
fn is_whole_range(entry: &Entry) -> bool {
    let text = entry.text.as_str();
    entry.kind == Kind::Range && (text.contains(' ') || npm::is_scoped_with_range(text))
}

// Checks a dependency, or a range on a line, which may name a package, too.
fn check_dependency<O: Write, E: Write>(
    console: &mut Console<O, E>,
    report: &mut Report<'_>,
    entry: &Entry,
) -> Result<(), Stop> {
    let text = entry.text.as_str();
    if refers(entry) || is_own(text) {
        return Ok(());
    }
    match source_of(text) {
        Source::Registry(range) => check_range(console, report, entry, Flavour::Npm, range),
        Source::Elsewhere | Source::Odd(_) if is_whole_range(entry) => {
            check_range(console, report, entry, Flavour::Npm, text)
        }
        Source::Elsewhere => Ok(()),
        Source::Odd(message) => report.add(console, entry, Finding::by(Rule::OddPath, message)),
        Source::Refused(message) => {
            report.add(console, entry, Finding::new(Cause::Refused, message))
        }
    }
}

// Whether a text begins as a URL does, with a scheme.
fn has_scheme(text: &str) -> bool {
    let is_sign = |c: char| matches!(c, '+' | '-' | '.');
    match text.split_once(':') {
        Some((scheme, _)) => {
            scheme.starts_with(|c: char| c.is_ascii_alphabetic())
                && scheme
                    .chars()
                    .all(|c| c.is_ascii_alphanumeric() || is_sign(c))
        }
        None => false,
    }
}

// Checks what an import map has in place of a specifier of npm or JSR: a URL or a path. The keys of Node's imports begin with `#`.
fn check_address<O: Write, E: Write>(
    console: &mut Console<O, E>,
    report: &mut Report<'_>,
    entry: &Entry,
) -> Result<(), Stop> {
    let text = entry.text.as_str();
    let is_path = ["/", "./", "../"]
        .iter()
        .any(|front| text.starts_with(*front));
    if is_path || has_scheme(text) || entry.name.as_str().starts_with('#') {
        return Ok(());
    }
    let (name, _) = name_and_range(text);
    let has_letter = name.contains(|c: char| c.is_ascii_alphabetic());
    let message = if has_letter && is_package_name(name) {
        format!(in console.alloc;
            "Deno refuses it: write `npm:{text}` for a package, and `./{text}` for a file"
        )?
    } else {
        String::from_str(
            console.alloc,
            "Deno refuses it: a path begins with `./`, `../` or `/`",
        )?
    };
    report.add(
        console,
        entry,
        Finding::new(Cause::Refused, message.as_str()),
    )
}

// Checks a specifier; a URL or a path is passed over.
fn check_specifier<O: Write, E: Write>(
    console: &mut Console<O, E>,
    report: &mut Report<'_>,
    entry: &Entry,
) -> Result<(), Stop> {
    let text = entry.text.as_str();
    if !text.starts_with("npm:") && !text.starts_with("jsr:") {
        return check_address(console, report, entry);
    }
    if let Some(message) = url_behind(text) {
        return report.add(console, entry, Finding::new(Cause::Refused, message));
    }
    // The rest of a specifier that begins with the key comes behind it.
    if entry.name.as_str().ends_with('/')
        && matches!(text.get(4..), Some(rest) if rest.starts_with('/'))
    {
        return Ok(());
    }
    match read_reference(console.alloc, text) {
        Ok(reference) => {
            let range = reference.reference.req.version_req.version_text();
            check_range(console, report, entry, Flavour::Specifier, range)
        }
        Err(Problem::Invalid(invalid)) => {
            let errors = errors_of(console.alloc, Flavour::Specifier, text, &invalid)?;
            let message = message_of(text, &errors, invalid.failure.message());
            report.add_with(console, entry, Cause::Refused, message, &errors)
        }
        Err(Problem::OutOfMemory) => Err(Stop::OutOfMemory),
    }
}

// Whether a range behind the name in a key of overrides is one: npm reads it strictly, and has no tags there.
fn is_range_of_key(alloc: Global, range: &str, is_of_npm: bool) -> Result<bool, Stop> {
    if is_of_npm {
        return Ok(npm::refused_part(range).is_none());
    }
    let Some(pieces) = pieces_of(alloc, Flavour::Npm, range)? else {
        return is_tag(alloc, Flavour::Npm, range);
    };
    let is_range = !has_left_out(pieces.as_slice());
    let read = npm::read_range(range);
    let is_alike = read.reading == Reading::Range && read.ignored.is_none();
    Ok(is_range && is_alike && read.dropped.is_none() && number_behind_zero(range).is_none())
}

// Checks a name with its range, with which the part of a key of overrides up to an index ends.
fn check_key_part<O: Write, E: Write>(
    console: &mut Console<O, E>,
    report: &mut Report<'_>,
    entry: &Entry,
    text: &str,
    range: &str,
    is_of_npm: bool,
) -> Result<(), Stop> {
    let range = if is_of_npm {
        range
    } else {
        match source_of(range.strip_prefix("npm:").unwrap_or(range)) {
            Source::Registry(range) => range,
            _ => "",
        }
    };
    if range.is_empty() {
        return Ok(());
    }
    if is_range_of_key(console.alloc, range, is_of_npm)? {
        return Ok(());
    }
    let message = match npm::refusal_of_key_range(range) {
        _ if !is_of_npm => "not a version range",
        Some(message) => message,
        None => "npm refuses it: Invalid comparator",
    };
    let errors = errors_at_end(console.alloc, Flavour::Npm, text, range)?;
    report.add_with(console, entry, Cause::Refused, message, &errors)
}

// Whether npm takes the name in a key of overrides for that of a package, and not for a file, as it takes `x.tgz`.
fn names_package(name: &str) -> bool {
    let is_scoped = name.starts_with('@');
    is_package_name(name) && (is_scoped || matches!(source_of(name), Source::Registry(_)))
}

// Reports a key of npm's overrides that names no package, and what to write in place of pnpm's `a>b`.
fn report_key<O: Write, E: Write>(
    console: &mut Console<O, E>,
    report: &mut Report<'_>,
    entry: &Entry,
) -> Result<(), Stop> {
    let key = entry.text.as_str();
    let message = npm::refusal_of_key(key);
    let Some((outer, inner)) = key.split_once('>') else {
        return report.add(console, entry, Finding::new(Cause::Refused, message));
    };
    if !names_package(outer) || !names_package(name_and_range(inner).0) {
        return report.add(console, entry, Finding::new(Cause::Refused, message));
    }
    let message = format!(in console.alloc;
        "{message}: write `{{\"{outer}\": {{\"{inner}\": ..}}}}`"
    )?;
    let finding = Finding::new(Cause::Refused, message.as_str());
    report.add(console, entry, finding)
}

// Checks a key of overrides, in which this text stands before another name.
fn check_key<O: Write, E: Write>(
    console: &mut Console<O, E>,
    report: &mut Report<'_>,
    entry: &Entry,
    separator: &str,
) -> Result<(), Stop> {
    let key = entry.text.as_str();
    let is_of_npm = separator.is_empty();
    if is_of_npm && !names_package(name_and_range(key).0) {
        return report_key(console, report, entry);
    }
    let mut start = 0usize;
    for end in ends_in_key(console.alloc, key, separator)?.iter() {
        let (_, range) = name_and_range(part(key, start, *end));
        start = end.saturating_add(1);
        let text = part(key, 0, *end);
        check_key_part(console, report, entry, text, range, is_of_npm)?;
    }
    Ok(())
}

// Reports that a text of overrides refers to a dependency that isn't there.
fn check_reference<O: Write, E: Write>(
    console: &mut Console<O, E>,
    report: &mut Report<'_>,
    entry: &Entry,
    overrides: &Overrides<'_>,
) -> Result<(), Stop> {
    let Some(name) = overrides.missing(entry.text.as_str()) else {
        return Ok(());
    };
    let message = if entry.section == "pnpm" {
        format!(in console.alloc; "pnpm refuses it: no dependency is named `{name}`")?
    } else {
        format!(in console.alloc; "npm refuses it: Unable to resolve reference ${name}")?
    };
    report.add(
        console,
        entry,
        Finding::new(Cause::Refused, message.as_str()),
    )
}

// Reports that an override is in conflict with a direct dependency.
fn check_conflict<O: Write, E: Write>(
    console: &mut Console<O, E>,
    report: &mut Report<'_>,
    entry: &Entry,
    overrides: &Overrides<'_>,
    known: &Known,
) -> Result<(), Stop> {
    let key = entry.text.as_str();
    let (name, _) = name_and_range(key);
    if known.is_linked(name) {
        if !overrides.moves_workspace(key) {
            return Ok(());
        }
        let message = format!(in console.alloc;
            "npm refuses it: Override for {name} conflicts with direct dependency, since a workspace has this name"
        )?;
        let finding = Finding::new(Cause::Refused, message.as_str());
        return report.add(console, entry, finding);
    }
    let asked = match overrides.asked(key) {
        Some(direct) => direct.text.as_str(),
        None => "",
    };
    if incomparable(console.alloc, key, asked)?.is_some() {
        let message = format!(in console.alloc;
            "npm refuses it: Invalid comparator in {name}@{asked}, a direct dependency"
        )?;
        let finding = Finding::new(Cause::Refused, message.as_str());
        return report.add(console, entry, finding);
    }
    let Some(direct) = overrides.conflict(key) else {
        return Ok(());
    };
    let (name, range) = (direct.name.as_str(), direct.text.as_str());
    let message = format!(in console.alloc;
        "npm refuses it: Override for {name}@{range} conflicts with direct dependency"
    )?;
    report.add(
        console,
        entry,
        Finding::new(Cause::Refused, message.as_str()),
    )
}

// Checks the version of a package.
fn check_version<O: Write, E: Write>(
    console: &mut Console<O, E>,
    report: &mut Report<'_>,
    entry: &Entry,
) -> Result<(), Stop> {
    let text = entry.text.as_str();
    if text.is_empty() || npm::is_version(text) {
        return Ok(());
    }
    let errors = PackageErrors::Range(version_errors(console.alloc, text)?);
    let message = "not a version, so the package can't be published";
    report.add_with(
        console,
        entry,
        Cause::Rule(Rule::OddVersion),
        message,
        &errors,
    )
}

// Whether SemVer lets a version be written so.
fn is_strict_version(alloc: Global, text: &str) -> Result<bool, AllocError> {
    match displayed(alloc, text) {
        Ok(canonical) => Ok(canonical.as_str() == text && number_behind_zero(text).is_none()),
        Err(Problem::Invalid(_)) => Ok(false),
        Err(Problem::OutOfMemory) => Err(AllocError),
    }
}

// Reports that packageManager isn't what devEngines asks for.
fn check_mismatch<O: Write, E: Write>(
    console: &mut Console<O, E>,
    report: &mut Report<'_>,
    entry: &Entry,
    tool: Wanted<'_>,
    version: &str,
) -> Result<(), Stop> {
    let (name, _) = name_and_range(entry.text.as_str());
    let Some(message) = tool.mismatch(console.alloc, name, version)? else {
        return Ok(());
    };
    let finding = Finding::new(Cause::Refused, message.as_str());
    report.add(console, entry, finding)
}

// Checks a package manager with its version, as Corepack does. Bun and Deno read their own.
fn check_manager<O: Write, E: Write>(
    console: &mut Console<O, E>,
    report: &mut Report<'_>,
    entry: &Entry,
    tool: Wanted<'_>,
) -> Result<(), Stop> {
    if entry.text.is_empty() && tool.is_usable() {
        return Ok(());
    }
    let (name, version) = entry.text.as_str().split_once('@').unwrap_or(("", ""));
    let number = version.trim();
    let number = number.strip_prefix('v').unwrap_or(number);
    let (is_url, is_known) = (has_scheme(version), matches!(name, "npm" | "pnpm" | "yarn"));
    let is_exact = is_url || is_strict_version(console.alloc, number)?;
    let message = if name.is_empty() || !is_exact {
        "expected a name and an exact version, such as \"npm@1.2.3\""
    } else if is_url && is_known {
        "Corepack refuses a URL, unless COREPACK_ENABLE_UNSAFE_CUSTOM_URLS is 1"
    } else if is_known {
        return check_mismatch(console, report, entry, tool, number);
    } else if !matches!(name, "bun" | "deno") {
        "Corepack refuses it: it knows npm, pnpm and yarn"
    } else {
        return Ok(());
    };
    report.add(console, entry, Finding::new(Cause::Refused, message))
}

// Whether an entry is of a section that asks for packages by their names.
fn is_asked_by_name(entry: &Entry) -> bool {
    matches!(
        entry.section,
        "dependencies" | "devDependencies" | "optionalDependencies" | "peerDependencies"
    )
}

// The range of an entry that a section asks a registry for.
fn asked_range(entry: &Entry) -> Option<&str> {
    match source_of(entry.text.as_str()) {
        Source::Registry(range) if is_asked_by_name(entry) && range.len() == entry.text.len() => {
            Some(range)
        }
        _ => None,
    }
}

// Whether both ranges, as npm reads them, match versions, and none in common.
fn are_disjoint(alloc: Global, one: &str, other: &str) -> Result<bool, AllocError> {
    let Some(one) = npm::as_read(alloc, one)? else {
        return Ok(false);
    };
    let Some(other) = npm::as_read(alloc, other)? else {
        return Ok(false);
    };
    let (one, other) = (one.as_str(), other.as_str());
    Ok(
        have_common_version(alloc, one, one)?
            && have_common_version(alloc, other, other)?
            && !have_common_version(alloc, one, other)?,
    )
}

// Whether npm accepts any version for the range, and pre-releases, too.
fn is_any(range: &str) -> bool {
    matches!(range.trim(), "" | "*")
}

// Reports that the entry asks for other versions than an entry of another section.
fn check_sections<O: Write, E: Write>(
    console: &mut Console<O, E>,
    report: &mut Report<'_>,
    entry: &Entry,
    other: &Entry,
) -> Result<(), Stop> {
    if entry.section == other.section {
        return Ok(());
    }
    if let Some(range) = asked_range(entry)
        && let Some(other_range) = asked_range(other)
        && !is_any(range)
        && !is_any(other_range)
        && are_disjoint(console.alloc, range, other_range)?
    {
        let section = other.section;
        let message = format!(in console.alloc;
            "no version matches `{other_range}` of {section} as well"
        );
        return report.tell(console, entry, Rule::DisjointSections, message);
    }
    Ok(())
}

// What entries say of one another.
#[derive(Drop)]
struct Names<'e> {
    /// The last entry so far of each name that a section asks a registry for.
    asked: HashMap<&'e str, &'e Entry>,
    /// The names that peerDependencies, dependencies and optionalDependencies have.
    peers: HashSet<&'e str>,
    required: HashSet<&'e str>,
    optional: HashSet<&'e str>,
    overrides: Overrides<'e>,
    /// Whether `catalog` has packages, and no package of `catalogs.default` was checked so far.
    has_catalog: bool,
    /// The name of the file's own package, which may ask for an older version of itself.
    own: &'e str,
    /// Whether the package is private, and so isn't published.
    is_private: bool,
    /// Whether the workspaces have a list of patterns.
    has_packages: bool,
    /// The package manager, if something says which one.
    manager: Option<Manager>,
    /// Whether `packageManager` says so, and not a lockfile.
    is_named: bool,
    /// What `devEngines` says of the package manager.
    tool: Wanted<'e>,
}

impl Names<'_> {
    // Whether npm isn't the package manager.
    fn is_of_other(&self) -> bool {
        self.manager.is_some_and(|manager| manager != Manager::Npm)
    }
}

// What is checked: a file, and what holds for it.
#[derive(Clone, Copy)]
struct Checked<'f> {
    /// Where it is read.
    source: &'f str,
    /// The path by which it is judged.
    path: &'f str,
    /// The path that findings name.
    shown: &'f str,
    text: &'f str,
    /// The index of the first byte that isn't valid UTF-8.
    invalid: Option<usize>,
    /// Whether npm installs it by itself, and so takes its overrides.
    is_root: bool,
    /// Whether the levels that it sets count for all files of its group.
    is_own: bool,
    /// The patterns of workspaces in the group's own files that no folder matches.
    unmatched: &'f [String],
    /// What is known of the workspace.
    known: &'f Known,
    installer: Installer,
    /// The workspaces that npm links for it, whatever it asks of them, by name.
    linked: &'f HashSet<String>,
    /// The settings of the arguments.
    settings: &'f [&'f str],
    /// The keys of resolutions that name a package with a range, if findings say what --fix writes.
    pins: &'f [String],
}

impl Checked<'_> {
    // Whether npm reads the file.
    fn is_of_npm(&self) -> bool {
        !self.path.ends_with(".yaml")
    }

    // Whether the file is a package.json, as standard input may be.
    fn is_package(&self) -> bool {
        self.path == "-" || self.path.ends_with("package.json")
    }
}

// The names that a section has.
fn names_in<'e>(
    alloc: Global,
    entries: &'e [Entry],
    section: &str,
) -> Result<HashSet<&'e str>, AllocError> {
    let mut names = HashSet::new(alloc);
    for entry in entries.iter().filter(|entry| entry.section == section) {
        let _ = names.insert(entry.name.as_str())?;
    }
    Ok(names)
}

// What is said of a section of package.json that the package manager doesn't read.
fn unread_by(manager: Option<Manager>, section: &str) -> Option<&'static str> {
    match (manager?, section) {
        (Manager::Npm, "resolutions") => Some("npm doesn't read resolutions"),
        (Manager::Npm, "pnpm") => Some("npm doesn't read pnpm's settings"),
        (Manager::Npm, "catalog" | "catalogs" | "workspaces") => Some("npm doesn't read catalogs"),
        (Manager::Pnpm, "overrides") => Some("pnpm doesn't read npm's overrides"),
        (Manager::Yarn, "overrides") => Some("Yarn doesn't read overrides"),
        (Manager::Yarn, "pnpm") => Some("Yarn doesn't read pnpm's settings"),
        (Manager::Bun, "pnpm") => Some("Bun doesn't read pnpm's settings"),
        (_, _) => None,
    }
}

// Whether npm reads an override only if the tree has its package: for what the manifest itself asks for, npm doesn't read it. A key that names
// no package is refused in any case, and so is one that npm can't read.
fn may_be_unread(
    alloc: Global,
    names: &Names<'_>,
    known: &Known,
    entry: &Entry,
) -> Result<bool, Stop> {
    let (key, depth) = match entry.kind {
        Kind::Override(_) => (entry.text.as_str(), entry.depth),
        _ if entry.name.as_str() == "." => (entry.object.as_str(), entry.depth.saturating_sub(1)),
        _ => (entry.name.as_str(), entry.depth),
    };
    let (name, range) = name_and_range(key);
    let is_key = matches!(entry.kind, Kind::Override(_));
    if is_key && npm::refusal_of_key_range(range).is_some() {
        return Ok(false);
    }
    let is_range = range.is_empty() || is_range_of_key(alloc, range, true)?;
    let is_read = known.is_linked(name) || names.overrides.is_read(alloc, key, is_range)?;
    Ok(names_package(name) && !(depth == 1 && is_read))
}

// The section that decides whether npm reads an entry.
fn section_of(entry: &Entry) -> &'static str {
    match entry.kind {
        Kind::Mistake(_) if entry.object.as_str() == "dependencies" => "dependencies",
        // An override that is `null` is refused in any case.
        Kind::Mistake(_) if entry.name.as_str() != "." => "",
        _ => entry.section,
    }
}

// What is said of a refusal of the entry if npm doesn't read it, or not always.
fn aside_of(
    alloc: Global,
    names: &Names<'_>,
    file: Checked<'_>,
    entry: &Entry,
) -> Result<Option<Aside>, Stop> {
    let (name, section) = (entry.name.as_str(), section_of(entry));
    let unread = match section {
        "dependencies" | "peerDependencies" if names.optional.contains(name) => {
            Some("npm reads optionalDependencies instead")
        }
        "peerDependencies" if names.required.contains(name) => {
            Some("npm reads dependencies instead")
        }
        section if file.is_package() => unread_by(names.manager, section),
        _ => None,
    };
    if let Some(why) = unread {
        return Ok(Some(Aside {
            rule: Rule::UnreadRange,
            why,
        }));
    }
    let is_of_npm = section == "overrides" && file.is_of_npm();
    if !is_of_npm || !may_be_unread(alloc, names, file.known, entry)? {
        return Ok(None);
    }
    Ok(Some(Aside {
        rule: Rule::OddOverride,
        why: "npm reads it only if the tree has the package",
    }))
}

// Reports a protocol that npm, which is the package manager, doesn't know.
fn check_protocol<O: Write, E: Write>(
    console: &mut Console<O, E>,
    report: &mut Report<'_>,
    names: &Names<'_>,
    entry: &Entry,
) -> Result<(), Stop> {
    if names.manager != Some(Manager::Npm) || !npm::is_foreign(entry.text.as_str()) {
        return Ok(());
    }
    let message = if names.is_named {
        "npm doesn't know this protocol, and `packageManager` is npm"
    } else {
        "npm doesn't know this protocol, and the lockfile is npm's"
    };
    report.add(console, entry, Finding::new(Cause::Refused, message))
}

// Reports that the workspace has a package in another version than a dependency asks for.
fn check_sibling<O: Write, E: Write>(
    console: &mut Console<O, E>,
    report: &mut Report<'_>,
    entry: &Entry,
    file: Checked<'_>,
    is_of_other: bool,
) -> Result<(), Stop> {
    let Some(version) = file
        .known
        .other_version(console.alloc, entry, file.is_root)?
    else {
        return Ok(());
    };
    let name = entry.name.as_str();
    let message = match version {
        // Other package managers may link a workspace without a version.
        "" if is_of_other => return Ok(()),
        "" => format!(in console.alloc; "{name} has no version in the workspace"),
        version => format!(in console.alloc; "the workspace has {name}@{version}"),
    };
    report.tell(console, entry, Rule::OtherVersion, message)
}

// Whether a manifest says that its package is private.
fn is_private(file: &str, entries: &[Entry]) -> bool {
    match entries.iter().find(|entry| entry.kind == Kind::Private) {
        Some(entry) => {
            let value = file.get(entry.start..).unwrap_or("");
            !entry.text.is_empty() || value.starts_with("true")
        }
        None => false,
    }
}

// Whether an entry is of the patterns of workspaces, or stands in their place.
fn is_of_workspaces(entry: &Entry) -> bool {
    let (object, name) = (entry.object.as_str(), entry.name.as_str());
    match entry.depth {
        0 => name == "workspaces",
        1 => object == "workspaces" && matches!(name, "" | "packages"),
        2 => object == "packages" && name.is_empty(),
        _ => false,
    }
}

// The name that a manifest gives its package; an empty one if it gives none.
fn own_name(entries: &[Entry]) -> &str {
    match entries.iter().find(|entry| entry.kind == Kind::Name) {
        Some(entry) => entry.text.as_str(),
        None => "",
    }
}

// Reports the first package of `catalogs.default` if `catalog` has packages, too.
fn check_default_catalog<O: Write, E: Write>(
    console: &mut Console<O, E>,
    report: &mut Report<'_>,
    names: &mut Names<'_>,
    entry: &Entry,
) -> Result<(), Stop> {
    if !names.has_catalog {
        return Ok(());
    }
    names.has_catalog = false;
    let message = "pnpm refuses it: `catalog` and `catalogs.default` are one catalog";
    report.add(console, entry, Finding::new(Cause::Refused, message))
}

// Reports a dependency without a name, for which npm asks a registry.
fn check_nameless<O: Write, E: Write>(
    console: &mut Console<O, E>,
    report: &mut Report<'_>,
    entry: &Entry,
) -> Result<(), Stop> {
    let is_read = report.aside.is_none();
    if !entry.name.is_empty() || !is_read || asked_range(entry).is_none() {
        return Ok(());
    }
    let message = "npm asks for the package `undefined`: its key is empty";
    report.add(console, entry, Finding::by(Rule::OddPath, message))
}

// Checks what an entry of dependencies says with others, and with what is known of the workspace.
fn check_relations<'e, O: Write, E: Write>(
    console: &mut Console<O, E>,
    report: &mut Report<'_>,
    names: &mut Names<'e>,
    file: Checked<'_>,
    entry: &'e Entry,
) -> Result<(), Stop> {
    match entry.section {
        "dependencies" | "devDependencies" | "optionalDependencies" | "peerDependencies" => {
            if !entry.name.is_empty() && !is_package_name(entry.name.as_str()) {
                let message = "npm refuses it: no package has such a name";
                report.add(console, entry, Finding::new(Cause::Refused, message))?;
            }
            check_nameless(console, report, entry)?;
            if names.manager == Some(Manager::Npm) {
                if !file.linked.contains(entry.name.as_str()) {
                    check_protocol(console, report, names, entry)?;
                }
            } else if let Some(message) = file.known.refusal(console.alloc, entry)? {
                let finding = Finding::new(Cause::Refused, message.as_str());
                report.add(console, entry, finding)?;
            }
            if names.own != entry.name.as_str() {
                check_sibling(console, report, entry, file, names.is_of_other())?;
            }
        }
        "overrides" | "pnpm" if file.is_root => {
            if file.is_of_npm() {
                check_reference(console, report, entry, &names.overrides)?;
            }
            if entry.section == "overrides" && file.is_of_npm() {
                check_protocol(console, report, names, entry)?;
            }
            let is_of_pnpm = entry.section == "pnpm" || !file.is_of_npm();
            if is_of_pnpm
                && let Some(message) = file.known.refusal_of_override(console.alloc, entry)?
            {
                let finding = Finding::new(Cause::Refused, message.as_str());
                report.add(console, entry, finding)?;
            }
        }
        "catalogs" if !file.is_of_npm() && entry.object.as_str() == "default" => {
            check_default_catalog(console, report, names, entry)?;
        }
        _ => (),
    }
    if asked_range(entry).is_some()
        && let Some(other) = names.asked.insert(entry.name.as_str(), entry)?
    {
        check_sections(console, report, entry, other)?;
    }
    Ok(())
}

// Whether a name is that of the folder, and doesn't stand in the file.
fn is_of_folder(entry: &Entry) -> bool {
    entry.start == entry.end
}

// Checks the name of a workspace.
fn check_name<O: Write, E: Write>(
    console: &mut Console<O, E>,
    report: &mut Report<'_>,
    entry: &Entry,
    known: &Known,
) -> Result<(), Stop> {
    let Some(message) = known.refusal_of_name(entry.text.as_str()) else {
        return Ok(());
    };
    let why = if is_of_folder(entry) {
        "; it is the folder's, since the file has none"
    } else {
        ""
    };
    let message = format!(in console.alloc; "{message}{why}")?;
    report.add(
        console,
        entry,
        Finding::new(Cause::Refused, message.as_str()),
    )
}

// Checks what a workspace has in place of its name, and isn't a string.
fn check_odd_name<O: Write, E: Write>(
    console: &mut Console<O, E>,
    report: &mut Report<'_>,
    entry: &Entry,
    known: &Known,
) -> Result<(), Stop> {
    let value = report.text.get(entry.start..).unwrap_or("");
    match known.refusal_of_odd_name(value) {
        Some(message) => report.add(console, entry, Finding::new(Cause::Refused, message)),
        None => Ok(()),
    }
}

// The range that a text asks for, if npm compares it with the range in this key of overrides, and can't.
fn incomparable<'t>(alloc: Global, key: &str, text: &'t str) -> Result<Option<&'t str>, Stop> {
    let Source::Registry(range) = source_of(text) else {
        return Ok(None);
    };
    let is_compared = !matches!(name_and_range(key).1, "" | "*");
    let is_range = npm::read_range(range).reading == Reading::Range;
    if !is_compared || !is_range || is_range_of_key(alloc, range, true)? {
        return Ok(None);
    }
    Ok(Some(range))
}

// Reports that npm can't compare a text of overrides with its key, as it does for each package that the key counts for.
fn check_compared<O: Write, E: Write>(
    console: &mut Console<O, E>,
    report: &mut Report<'_>,
    entry: &Entry,
) -> Result<bool, Stop> {
    let (name, text) = (entry.name.as_str(), entry.text.as_str());
    let key = if name == "." {
        entry.object.as_str()
    } else {
        name
    };
    let Some(range) = incomparable(console.alloc, key, text)? else {
        return Ok(false);
    };
    let message = "npm refuses it: Invalid comparator";
    let errors = errors_at_end(console.alloc, Flavour::Npm, text, range)?;
    report.add_with(console, entry, Cause::Refused, message, &errors)?;
    Ok(true)
}

// Checks what a manifest asks for, or a text of overrides.
fn check_asked<'e, O: Write, E: Write>(
    console: &mut Console<O, E>,
    report: &mut Report<'_>,
    names: &mut Names<'e>,
    file: Checked<'_>,
    entry: &'e Entry,
) -> Result<(), Stop> {
    // Other package managers take `ssh:` from any host.
    let is_of_other = names.is_of_other() || file.known.is_of_pnpm();
    let is_taken = is_of_other && npm::is_refused_ssh(entry.text.as_str());
    let is_of_npm = entry.section == "overrides" && file.is_of_npm() && !names.is_of_other();
    let is_refused = is_of_npm && !refers(entry) && check_compared(console, report, entry)?;
    let aside = report.aside;
    // npm links a workspace of the root whatever that asks for by its name.
    let is_linked = is_asked_by_name(entry) && file.linked.contains(entry.name.as_str());
    if is_linked && npm::is_refused(entry.text.as_str()) {
        report.aside = aside.or(Some(Aside {
            rule: Rule::UnreadRange,
            why: "npm links its workspace instead",
        }));
    }
    if !is_taken && !is_refused {
        check_dependency(console, report, entry)?;
    }
    report.aside = aside;
    check_relations(console, report, names, file, entry)
}

// Checks a key of overrides.
fn check_override<'e, O: Write, E: Write>(
    console: &mut Console<O, E>,
    report: &mut Report<'_>,
    names: &mut Names<'e>,
    file: Checked<'_>,
    entry: &'e Entry,
    separator: &str,
) -> Result<(), Stop> {
    check_key(console, report, entry, separator)?;
    // Bun takes another range, too; pnpm and yarn don't read npm's overrides.
    let is_asked = file.is_root && !names.is_of_other();
    if is_asked && separator.is_empty() && entry.depth == 1 {
        // npm reads what the manifest itself asks for in any case.
        report.aside = None;
        check_conflict(console, report, entry, &names.overrides, file.known)?;
    }
    Ok(())
}

// Checks an entry.
fn check_entry<'e, O: Write, E: Write>(
    console: &mut Console<O, E>,
    report: &mut Report<'_>,
    names: &mut Names<'e>,
    file: Checked<'_>,
    entry: &'e Entry,
) -> Result<(), Stop> {
    let is_ignored = entry.section == "overrides" && !file.is_root && file.is_of_npm();
    match entry.kind {
        // npm takes no overrides from a workspace.
        Kind::Dependency | Kind::Override(_) | Kind::Mistake(_) if is_ignored => Ok(()),
        Kind::Dependency => check_asked(console, report, names, file, entry),
        Kind::Range => check_dependency(console, report, entry),
        Kind::Engine | Kind::Odd(_) | Kind::Tool if names.tool.refuses(entry) => {
            check_tool(console, report, entry)
        }
        Kind::Engine => check_engine(console, report, entry),
        Kind::Specifier => check_specifier(console, report, entry),
        Kind::Version if names.is_private => Ok(()),
        Kind::Version => check_version(console, report, entry),
        Kind::Manager => check_manager(console, report, entry, names.tool),
        Kind::Meta if names.peers.contains(entry.name.as_str()) => Ok(()),
        Kind::Meta => {
            let finding = Finding::by(
                Rule::MetaWithoutRange,
                "peerDependencies has no range for it",
            );
            report.add(console, entry, finding)
        }
        Kind::Repeated => {
            let finding = Finding::by(
                Rule::DuplicateKey,
                "the same key stands further up: the last one counts",
            );
            report.add(console, entry, finding)
        }
        Kind::Odd(message) => report.add(console, entry, Finding::by(Rule::OddEngine, message)),
        Kind::OddSection(message) => {
            report.add(console, entry, Finding::by(Rule::OddSection, message))
        }
        // npm installs a package whatever its version is.
        Kind::Mistake(message) if entry.depth == 0 && entry.name.as_str() == "version" => {
            if names.is_private {
                return Ok(());
            }
            report.add(console, entry, Finding::by(Rule::OddVersion, message))
        }
        Kind::Mistake(_)
            if is_null_manager(report.text, entry) && (!file.is_root || names.tool.is_usable()) =>
            Ok(()),
        // npm reads only the workspaces of the root.
        Kind::Mistake(_) if is_of_workspaces(entry) && !file.is_root => Ok(()),
        Kind::Mistake(message) => report.add(console, entry, Finding::new(Cause::Refused, message)),
        Kind::Workspace if file.is_own && file.unmatched.contains(&entry.text) => {
            let message = "no folder with a manifest matches it";
            report.add(
                console,
                entry,
                Finding::by(Rule::UnmatchedWorkspace, message),
            )
        }
        Kind::Override(separator) => {
            check_override(console, report, names, file, entry, separator)
        }
        Kind::Workspaces if !names.has_packages && file.is_root => {
            let message = "npm refuses it: workspaces config expects an Array";
            report.add(console, entry, Finding::new(Cause::Refused, message))
        }
        // Other package managers don't take the folder's name.
        Kind::Name if is_of_folder(entry) && names.is_of_other() => Ok(()),
        Kind::Name if !file.is_own => check_name(console, report, entry, file.known),
        Kind::OddName if !file.is_own => check_odd_name(console, report, entry, file.known),
        Kind::Workspace
        | Kind::Workspaces
        | Kind::Packages
        | Kind::Name
        | Kind::OddName
        | Kind::Private
        | Kind::ImportMap
        | Kind::Level
        | Kind::Setting
        | Kind::Tool
        | Kind::OddSetting(_) => Ok(()),
    }
}

// ---- files

// Sets a level, or says what isn't known of it.
fn set_level(
    alloc: Global,
    report: &mut Report<'_>,
    entry: &Entry,
) -> Result<Option<String>, AllocError> {
    let (name, level) = (entry.name.as_str(), entry.text.as_str());
    match report.levels.set(alloc, name, level)? {
        Some(unknown) => Ok(Some(format!(in alloc; "{unknown}")?)),
        None => Ok(None),
    }
}

// Sets the levels that a file asks for.
fn set_levels<O: Write, E: Write>(
    console: &mut Console<O, E>,
    report: &mut Report<'_>,
    entries: &[Entry],
) -> Result<(), Stop> {
    for entry in entries {
        let message = match entry.kind {
            Kind::Level => set_level(console.alloc, report, entry)?,
            Kind::Setting => {
                let message = "no such setting in `ranges`; there is `rules`";
                Some(String::from_str(console.alloc, message)?)
            }
            Kind::OddSetting(message) => Some(String::from_str(console.alloc, message)?),
            _ => None,
        };
        if let Some(message) = message {
            report.position.move_to(report.text, entry.start);
            report.add(
                console,
                entry,
                Finding::new(Cause::Refused, message.as_str()),
            )?;
            report.status = report.status.worse(Status::Misused);
        }
    }
    report.position = Position::START;
    Ok(())
}

// Checks the entries of a file.
fn check_entries<O: Write, E: Write>(
    console: &mut Console<O, E>,
    report: &mut Report<'_>,
    file: Checked<'_>,
    entries: &[Entry],
) -> Result<(), Stop> {
    let named = named_by(entries).or(file.installer.named);
    let mut names = Names {
        asked: HashMap::new(console.alloc),
        peers: names_in(console.alloc, entries, "peerDependencies")?,
        required: names_in(console.alloc, entries, "dependencies")?,
        optional: names_in(console.alloc, entries, "optionalDependencies")?,
        overrides: Overrides::of(console.alloc, entries)?,
        has_catalog: entries.iter().any(|entry| entry.section == "catalog"),
        own: own_name(entries),
        is_private: is_private(report.text, entries),
        has_packages: entries.iter().any(|entry| entry.kind == Kind::Packages),
        manager: named.or(file.installer.locked),
        is_named: named.is_some(),
        tool: if file.is_package() {
            Wanted::of(report.text, entries, file.is_root)
        } else {
            Wanted::NONE
        },
    };
    for entry in entries {
        report.position.move_to(report.text, entry.start);
        report.aside = aside_of(console.alloc, &names, file, entry)?;
        check_entry(console, report, &mut names, file, entry)?;
    }
    Ok(())
}

// Reports the first byte of a file that isn't valid UTF-8.
fn report_byte<O: Write, E: Write>(
    console: &mut Console<O, E>,
    report: &mut Report<'_>,
    file: Checked<'_>,
) -> Result<(), Stop> {
    let Some(index) = file.invalid else {
        return Ok(());
    };
    let mark = file.text.len().saturating_sub(report.text.len());
    let message = "not valid UTF-8: npm reads U+FFFD here, and --fix doesn't change this file";
    let entry = Entry::of_file(console.alloc, index.saturating_sub(mark), message);
    report.position.move_to(report.text, entry.start);
    report.add(console, &entry, Finding::by(Rule::NotUtf8, message))?;
    report.position = Position::START;
    Ok(())
}

// Checks the text of a file. The report has the levels of the group, and takes those of the group's own files.
fn check_text<O: Write, E: Write>(
    console: &mut Console<O, E>,
    group: &mut Report<'_>,
    file: Checked<'_>,
) -> Result<Status, Stop> {
    let text = without_mark(file.text);
    let mut entries = entries(console.alloc, file.path, text)?;
    if !file.is_own {
        add_folder_name(console.alloc, file.path, &mut entries)?;
    }
    let mut report = Report {
        stdin: "-",
        file: file.shown,
        text,
        pins: file.pins,
        is_left: file.invalid.is_some(),
        ..*group
    };
    set_levels(console, &mut report, entries.as_slice())?;
    if file.is_own {
        group.levels = report.levels;
    }
    apply(console.alloc, &mut report.levels, file.settings)?;
    report_byte(console, &mut report, file)?;
    check_entries(console, &mut report, file, entries.as_slice())?;
    console.end_part()?;
    Ok(report.status)
}

// Checks a file, or standard input for `-`.
fn check_file<R: Input + Files + AllocGlobal, O: Write, E: Write>(
    rt: &R,
    console: &mut Console<O, E>,
    group: &mut Report<'_>,
    file: Checked<'_>,
) -> Result<Status, Stop> {
    match read_file(rt, console, file.source) {
        Ok(read) => {
            let (text, invalid) = (read.text.as_str(), read.invalid);
            let file = Checked {
                text,
                invalid,
                ..file
            };
            check_text(console, group, file)
        }
        Err(Stop::Ended(status)) => Ok(status),
        Err(stop) => Err(stop),
    }
}

// Tries the settings of rules, and reports one with an unknown name or level.
fn try_settings<O: Write, E: Write>(
    console: &mut Console<O, E>,
    settings: &[&str],
) -> Result<(), Stop> {
    let mut levels = Levels::new();
    for setting in settings {
        let unknown = match setting.split_once('=') {
            Some((name, level)) => levels.set(console.alloc, name, level)?,
            None => Some(Unknown::NoLevel),
        };
        if let Some(unknown) = unknown {
            let message = format!(in console.alloc; "{unknown}")?;
            let _ = console.complain(format_args!("--rule {}", Shown(setting)), message.as_str());
            return Err(Stop::Ended(Status::Misused));
        }
    }
    Ok(())
}

// Whether npm installs the file at a place of a group by itself: it stands in the folder that was given, or was given, and belongs to no
// workspace.
fn is_root(group: &Group, place: usize) -> bool {
    group.above.is_empty() && (place < group.own || group.own == 0)
}

// The workspaces that npm links for the file at a place of a group, if that is a root that npm installs.
fn linked_at<R: Runtime + AllocGlobal, O: Write, E: Write>(
    rt: &R,
    console: &Console<O, E>,
    group: &Group,
    place: usize,
    installer: Installer,
) -> Result<HashSet<String>, Stop> {
    match (group.paths.get(place), group.roots.get(place)) {
        (Some(path), Some(root))
            if path.as_str() == root.as_str()
                && matches!(
                    installer.named.or(installer.locked),
                    None | Some(Manager::Npm)
                ) => { linked_by(rt, console, root.as_str()) }
        (_, _) => Ok(HashSet::new(console.alloc)),
    }
}

// The path that findings name: in what GitHub reads, the one from the top of the repository.
fn shown_path<R: Files + AllocGlobal>(rt: &R, format: Format, path: &str) -> Result<String, Stop> {
    if !format.is_of_repository() {
        return Ok(String::from_str(rt.alloc(), path)?);
    }
    match path_in_repository(rt, path) {
        Ok(shown) => Ok(shown),
        // Nothing else goes wrong.
        Err(_) => Err(Stop::OutOfMemory),
    }
}

// Checks the files of a group.
fn check_group<R: Runtime + AllocGlobal, O: Write, E: Write>(
    rt: &R,
    console: &mut Console<O, E>,
    report: &Report<'_>,
    group: &Group,
    settings: &[&str],
) -> Result<Status, Stop> {
    let mut report = *report;
    let mut status = Status::Answered;
    let known = known_of(rt, group)?;
    let pins = if report.format == Format::Json {
        pins_of(rt, group)?
    } else {
        Vec::new(console.alloc)
    };
    set_above(rt, &mut report.levels, group)?;
    for (place, path) in group.paths.iter().enumerate() {
        let source = path.as_str();
        let path = named(source, report.stdin);
        let shown = shown_path(rt, report.format, path)?;
        let installer = known.installer(place);
        let linked = linked_at(rt, console, group, place, installer)?;
        let file = Checked {
            source,
            path,
            shown: shown.as_str(),
            text: "",
            invalid: None,
            is_root: is_root(group, place),
            is_own: place < group.own,
            unmatched: group.unmatched.as_slice(),
            known: &known,
            installer,
            linked: &linked,
            settings,
            pins: pins.as_slice(),
        };
        status = status.worse(check_file(rt, console, &mut report, file)?);
    }
    Ok(status)
}

// Prints on standard error what --fix leaves in the files of a group, from this place on.
fn check_rewritten<R: Runtime + AllocGlobal, O: Write, E: Write>(
    rt: &R,
    console: &mut Console<O, E>,
    report: &Report<'_>,
    group: &Group,
    files: &[Rewritten],
    settings: &[&str],
) -> Result<Status, Stop> {
    let mut report = *report;
    let mut status = Status::Answered;
    let known = known_of(rt, group)?;
    set_above(rt, &mut report.levels, group)?;
    for (place, file) in files.iter().enumerate() {
        let installer = known.installer(place);
        let linked = linked_at(rt, console, group, place, installer)?;
        let source = file.path.as_str();
        let path = named(source, report.stdin);
        let file = Checked {
            source,
            path,
            shown: path,
            text: file.new.as_str(),
            invalid: file.invalid,
            is_root: is_root(group, place),
            is_own: place < group.own,
            unmatched: group.unmatched.as_slice(),
            known: &known,
            installer,
            linked: &linked,
            settings,
            pins: &[],
        };
        status = status.worse(check_text(console, &mut report, file)?);
    }
    Ok(status)
}

// Says that --fix rewrites nothing, since something can't be read.
fn complain_of_unread<O: Write, E: Write>(console: &mut Console<O, E>) {
    let _ = console.complain(
        "--fix",
        "nothing is rewritten, since something can't be read",
    );
}

// What --fix writes in the files of a group.
fn rewritten<R: Runtime + AllocGlobal, O: Write, E: Write>(
    rt: &R,
    console: &mut Console<O, E>,
    group: &Group,
    settings: &[&str],
    stdin: &str,
) -> Result<Vec<Rewritten>, Stop> {
    match rewrite(rt, console, group, settings, stdin) {
        Err(Stop::Ended(status)) => {
            complain_of_unread(console);
            Err(Stop::Ended(status))
        }
        files => files,
    }
}

// Prints what --fix would change, and on standard error what it would leave.
fn check_dry<R: Runtime + AllocGlobal, O: Write, E: Write>(
    rt: &R,
    console: &mut Console<O, E>,
    report: &Report<'_>,
    groups: &[Group],
    settings: &[&str],
) -> Result<Status, Stop> {
    let format = if console.options.quiet {
        Format::Silent
    } else {
        Format::Lines
    };
    let report = Report { format, ..*report };
    let mut all = Vec::new(console.alloc);
    for group in groups {
        all.push(rewritten(rt, console, group, settings, report.stdin)?)?;
    }
    let mut status = print_diffs(rt, console, all.as_slice())?;
    console.out.flush()?;
    let mut left = console.on_error();
    let silent = Report {
        format: Format::Silent,
        ..report
    };
    for (group, files) in groups.iter().zip(all.iter()) {
        let files = files.as_slice();
        let found = match check_rewritten(rt, &mut left, &report, group, files, settings) {
            // What can't be written to standard error is left out.
            Err(Stop::Unwritten | Stop::Closed) => {
                check_rewritten(rt, &mut left, &silent, group, files, settings)?
            }
            found => found?,
        };
        status = status.worse(found);
    }
    Ok(status)
}

// Rewrites files, and says how many ranges of how many.
fn fix<R: Runtime + AllocGlobal, O: Write, E: Write>(
    rt: &R,
    console: &mut Console<O, E>,
    groups: &[Group],
    settings: &[&str],
) -> Result<Status, Stop> {
    let mut changed = Vec::new(console.alloc);
    for group in groups {
        if group.paths.iter().any(|path| path.as_str() == "-") {
            return Ok(console.complain("--fix", "standard input can't be rewritten"));
        }
        for file in rewritten(rt, console, group, settings, "-")? {
            if file.count > 0 {
                changed.push(file)?;
            }
        }
    }
    write_all(rt, console, changed)
}

// Prints the paths of files, but reports those that aren't there.
fn print_files<R: Files + AllocGlobal, O: Write, E: Write>(
    rt: &R,
    console: &mut Console<O, E>,
    groups: &[Group],
) -> Result<Status, Stop> {
    let mut status = Status::Answered;
    for path in groups.iter().flat_map(|group| group.paths.iter()) {
        let path = path.as_str();
        if path != "-" && !fs::exists(rt, path).unwrap_or(true) {
            status = status.worse(console.complain(Shown(path), "no such file"));
        } else if console.options.null {
            write!(console.out, "{path}\0")?;
        } else {
            print_line(&mut console.out, Shown(path))?;
        }
    }
    Ok(status)
}

// Whether standard input has a name by an option, and isn't checked.
fn is_named_in_vain(matches: &ArgMatches<'_>) -> bool {
    let files = matches.get_strs("FILE").unwrap_or(&[]);
    matches.get_str("stdin-filename").is_some() && !files.contains(&"-")
}

/// `ranges check [FILE..]`: the ranges of each file that are refused, or legal and probably a mistake.
pub fn check<R: Runtime + AllocGlobal, O: Write, E: Write>(
    rt: &R,
    console: &mut Console<O, E>,
    matches: &ArgMatches<'_>,
) -> Result<Status, Stop> {
    let settings = matches.get_strs("rule").unwrap_or(&[]);
    try_settings(console, settings)?;
    if is_named_in_vain(matches) {
        let _ = console.complain(
            "--stdin-filename",
            "add `-` to the files, for standard input",
        );
        return Ok(Status::Misused);
    }
    let excludes = matches.get_strs("exclude").unwrap_or(&[]);
    let found = find(rt, console, matches.get_strs("FILE"), excludes)?;
    let Manifests { groups, mut status } = found;
    if matches.get_flag("files") {
        return Ok(status.worse(print_files(rt, console, groups.as_slice())?));
    }
    let groups = by_project(rt, console, groups)?;
    let groups = groups.as_slice();
    let report = Report::new(matches);
    let is_dry = matches.get_flag("dry-run");
    if is_dry || matches.get_flag("fix") {
        if status != Status::Answered {
            if !groups.is_empty() {
                complain_of_unread(console);
            }
            return Ok(status);
        }
        if is_dry {
            return check_dry(rt, console, &report, groups, settings);
        }
        status = fix(rt, console, groups, settings)?;
        if status != Status::Answered {
            return Ok(status);
        }
    }
    report.format.begin(console)?;
    for group in groups {
        let checked = check_group(rt, console, &report, group, settings)?;
        status = status.worse(checked);
    }
    report.format.end(console, status)?;
    Ok(status)
}
