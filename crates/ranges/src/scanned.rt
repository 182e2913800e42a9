//! `ranges scans`: what a range matches, as scans of sort keys.

use crate::comparing::{print_tag, reject};
use answers::object::Object;
use answers::reading::range;
use semver_base::range::scans::Scan;
use serde_json::Value;
use std::alloc::{AllocError, Global};
use std::io::Write;
use terminal::console::{Console, Status, Stop, print_line};
use terminal::given::Given;

// The word for the versions that a scan is about, as `ranges key` prints it.
fn kind(scan: &Scan) -> &'static str {
    if scan.is_pre { "pre" } else { "release" }
}

fn scan_json(alloc: Global, scan: &Scan) -> Result<Value, AllocError> {
    Object::new(alloc)
        .put_text("high", Some(scan.high.as_str()))
        .put_text("kind", Some(kind(scan)))
        .put_text("low", Some(scan.low.as_str()))
        .into_json()
}

// The condition of SQL that holds where a row's version matches. No key has a quote in it.
fn condition(alloc: Global, key: &str, pre: &str, scans: &[Scan]) -> Result<String, AllocError> {
    let mut all = String::new(alloc);
    for scan in scans {
        all.push_str(if all.is_empty() { "(" } else { " OR " })?;
        let not = if scan.is_pre { "" } else { "NOT " };
        let (low, high) = (scan.low.as_str(), scan.high.as_str());
        let one = format!(in alloc; "({not}{pre} AND {key} >= '{low}' AND {key} < '{high}')")?;
        all.push_str(one.as_str())?;
    }
    all.push_str(if all.is_empty() { "(1 = 0)" } else { ")" })?;
    Ok(all)
}

/// `ranges scans RANGE`: each scan on a line, its kind, `low` and `high` with tabs between them; with `--where` the condition of SQL.
pub fn report<O: Write, E: Write>(
    console: &mut Console<O, E>,
    given: Given<'_, '_>,
) -> Result<Status, Stop> {
    let (alloc, options) = (console.alloc, console.options);
    let text = given.text("RANGE");
    let range = match range(alloc, options.flavour, 0, text) {
        Ok(range) => range,
        Err(problem) => return reject(console, &[text], &problem),
    };
    if let Some(tag) = range.tag() {
        return print_tag(console, tag);
    }
    let scans = range.scans(alloc, options.pre_release)?;
    if let Some(columns) = given.matches.get_str("where") {
        let Some((key, pre)) = columns.split_once(',') else {
            let _ = console.complain("--where", "name two columns, such as key,pre");
            return Ok(Status::Usage);
        };
        let condition = condition(alloc, key, pre, scans.as_slice())?;
        print_line(&mut console.out, condition.as_str())?;
    } else if options.json {
        let mut items = Vec::new(alloc);
        for scan in scans.iter() {
            items
                .push(scan_json(alloc, scan)?)
                .map_err(AllocError::from)?;
        }
        console.json(Ok(Value::Array(items)))?;
    } else {
        for scan in scans.iter() {
            let (kind, low, high) = (kind(scan), scan.low.as_str(), scan.high.as_str());
            print_line(&mut console.out, format_args!("{kind}\t{low}\t{high}"))?;
        }
    }
    if scans.is_empty() {
        return Ok(Status::Nothing);
    }
    Ok(Status::Answered)
}
