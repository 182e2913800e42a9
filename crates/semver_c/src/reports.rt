//! How results are returned to C: a code, with a text or a list in the caller's buffer, or a place.

ghost use Rattle.std.specs.Prelude.{◌≡◌, string_bytes};
ghost use Rattle.answers.specs.Filtering.{list_answer};
ghost use Rattle.semver_c.specs.Arguments.{call_fault, call_message, call_outcome, problem_place};
ghost use Rattle.semver_c.specs.Held.{IsHeldReport};
ghost use Rattle.semver_c.specs.Codes.{IsPlaced, IsReported, IsUntouched, always_yes, best_code, best_place, code_of, fault_code, filter_code, filter_numbers, lowest_code, lowest_text, match_code, no_text, number_of, or_message, or_nothing, place_after, text_code, text_of};

use crate::arguments::Problem;
use crate::codes::Code;
use crate::handles::{Handle, Held};
use answers::asking::Answer;
use answers::questions::{Best, text_of_version};
use deno_semver::Version;
use std::alloc::Global;

/// Writes the items to the start of the buffer, if they fit, and stores their number.
pub fn put_items<T: Copy>(items: &[T], out: &mut [T], needed: &mut usize)
    ensures { IsPlaced items.now out.old out.new needed.new }
{
    *needed = items.len();
    if items.len() <= out.len() {
        let (front, _) = out.split_at_mut(items.len());
        front.copy_from_slice(items);
    }
}

/// Writes the text to the start of the buffer, if it fits, and stores its length.
pub fn put(text: &str, out: &mut [u8], needed: &mut usize)
    ensures { IsPlaced text.now out.old out.new needed.new }
{
    put_items(text.as_bytes(), out, needed);
}

/// Stores the place of the argument that is invalid, if there is one.
pub fn put_place<T>(answer: &Result<T, Problem>, place: &mut usize)
    ensures { place.new ≡ problem_place answer.now place.old }
{
    if let Err(problem) = answer {
        *place = problem.place_or(*place);
    }
}

/// Reports a problem by its code, and its message in the buffer.
pub fn report_problem(problem: &Problem, out: &mut [u8], needed: &mut usize) -> i32
    ensures code { result ≡ number_of (fault_code (call_fault problem.now)) }
    ensures message { IsPlaced (call_message (call_fault problem.now)) out.old out.new needed.new }
{
    put(problem.message(), out, needed);
    problem.code().number()
}

/// Holds a value in the handle, and reports its text.
pub fn report_held(
    alloc: Global,
    handle: &mut Handle,
    value: Held,
    text: &str,
    out: &mut [u8],
    needed: &mut usize,
) -> i32
    ensures { IsHeldReport value text.now handle.old.value handle.new.value
        out.old out.new needed.new result }
{
    match handle.hold(alloc, value) {
        Ok(()) => {
            put(text, out, needed);
            Code::Yes.number()
        }
        Err(error) => report_problem(&Problem::from(error), out, needed),
    }
}

/// Reports a text.
pub fn report_text(answer: Result<String, Problem>, out: &mut [u8], needed: &mut usize) -> i32
    ensures { IsReported always_yes (or_message (λ text. text))
        (call_outcome (λ text. string_bytes text) answer) out.old out.new needed.new result }
{
    match answer {
        Ok(text) => {
            put(text.as_str(), out, needed);
            Code::Yes.number()
        }
        Err(problem) => report_problem(&problem, out, needed),
    }
}

/// Reports a text, or a tag by its code alone.
pub fn report_text_or_tag(
    answer: Result<Answer<String>, Problem>,
    out: &mut [u8],
    needed: &mut usize,
) -> i32
    ensures { IsReported text_code (or_message text_of)
        (call_outcome (λ answer. list_answer (λ text. string_bytes text) answer) answer)
        out.old out.new needed.new result }
{
    match answer {
        Ok(Answer::Value(text)) => {
            put(text.as_str(), out, needed);
            Code::Yes.number()
        }
        Ok(Answer::Tag(_tag)) => {
            put("", out, needed);
            Code::Tag.number()
        }
        Err(problem) => report_problem(&problem, out, needed),
    }
}

/// Reports whether something is so, or that a range is a tag.
pub fn report_match(
    answer: Result<Answer<bool>, Problem>,
    out: &mut [u8],
    needed: &mut usize,
) -> i32
    ensures { IsReported match_code (or_message no_text)
        (call_outcome (λ answer. answer) answer) out.old out.new needed.new result }
{
    match answer {
        Ok(answer) => {
            put("", out, needed);
            Code::of_match(&answer).number()
        }
        Err(problem) => report_problem(&problem, out, needed),
    }
}

/// Reports the lowest version with one code, or that there is none with the other.
pub fn report_lowest(
    alloc: Global,
    answer: Result<Answer<Option<Version>>, Problem>,
    found: Code,
    nothing: Code,
    out: &mut [u8],
    needed: &mut usize,
) -> i32
    ensures { IsReported (lowest_code found nothing) (or_message lowest_text)
        (call_outcome (λ answer. answer) answer) out.old out.new needed.new result }
{
    match answer {
        Ok(Answer::Value(Some(version))) => match text_of_version(alloc, &version) {
            Ok(text) => {
                put(text.as_str(), out, needed);
                found.number()
            }
            Err(error) => report_problem(&Problem::from(error), out, needed),
        },
        Ok(Answer::Value(None)) => {
            put("", out, needed);
            nothing.number()
        }
        Ok(Answer::Tag(_tag)) => {
            put("", out, needed);
            Code::Tag.number()
        }
        Err(problem) => report_problem(&problem, out, needed),
    }
}

/// Reports whether the version of each line matches, or is invalid; for a tag or a problem, its code alone.
pub fn report_filter(
    alloc: Global,
    answer: Result<Answer<Vec<Option<bool>>>, Problem>,
    out: &mut [i8],
    needed: &mut usize,
) -> i32
    ensures reported { IsReported filter_code (or_nothing filter_numbers)
        (call_outcome (λ answer. list_answer (λ list. list.items) answer) answer)
        out.old out.new needed.new result }
    ensures untouched { IsUntouched out.old out.new needed.new result }
{
    let code = match answer {
        Ok(Answer::Value(answers)) => {
            let mut numbers = Vec::new(alloc);
            for answer in &answers {
                let code = match answer {
                    Some(matches) => Code::of_bool(*matches),
                    None => Code::InvalidVersion,
                };
                if numbers.push(code.byte()).is_err() {
                    put_items(&[], out, needed);
                    return Code::NoMemory.number();
                }
            }
            put_items(numbers.as_slice(), out, needed);
            return Code::Yes.number();
        }
        Ok(Answer::Tag(_tag)) => Code::Tag,
        Err(problem) => problem.code(),
    };
    put_items(&[], out, needed);
    code.number()
}

/// Reports a list of places; for a problem, its code alone.
pub fn report_places(
    answer: Result<Vec<usize>, Problem>,
    out: &mut [usize],
    needed: &mut usize,
) -> i32
    ensures reported { IsReported always_yes (or_nothing (λ places. places))
        (call_outcome (λ places. places.items) answer) out.old out.new needed.new result }
    ensures untouched { IsUntouched out.old out.new needed.new result }
{
    match answer {
        Ok(places) => {
            put_items(places.as_slice(), out, needed);
            Code::Yes.number()
        }
        Err(problem) => {
            put_items(&[], out, needed);
            problem.code().number()
        }
    }
}

/// Reports the best match by a code, and its place.
pub fn report_best(answer: Result<Answer<Option<Best>>, Problem>, place: &mut usize) -> i32
    ensures code { result ≡ code_of best_code (call_outcome (λ answer. answer) answer) }
    ensures place { place.new ≡ place_after best_place (call_outcome (λ answer. answer) answer)
        place.old }
{
    match answer {
        Ok(Answer::Value(Some(best))) => {
            *place = best.place;
            Code::Yes.number()
        }
        Ok(Answer::Value(None)) => Code::No.number(),
        Ok(Answer::Tag(_)) => Code::Tag.number(),
        Err(problem) => {
            *place = problem.place_or(*place);
            problem.code().number()
        }
    }
}
