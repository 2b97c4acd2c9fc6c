//! The ranges of a record, as tests.

ghost use Rattle.std.specs.Prelude.{◌≡◌, ◌≤◌, ◌↔◌, IsTrue, true};
ghost use Rattle.std.specs.List.{All};
ghost use Rattle.std.specs.Str.{is_utf8};
ghost use Rattle.replay_text.specs.Conditions.{IsValue, IsEntry, IsReport};
ghost use Rattle.replay_text.specs.Text.{HasScale, HasNumbers, IsRecord};

use crate::conditions::is_reply_to;
use crate::parts::RecordParts;
use crate::version::{FIRST_PAGES, FIRST_THREADS, Version};
use shared_memory::is_event;
use types::{
    Entry, MOST_FUEL, MOST_LIMIT, MOST_MODULE_BYTES, MOST_PAGES, MOST_THREADS, ThreadReport, Value,
};

/// A value is within the range of its type, whatever it is.
fn is_value(value: Value) -> bool
    ensures { IsTrue result ↔ IsValue value }
{
    match value {
        Value::I32(_) | Value::I64(_) => true,
    }
}

fn is_entry(threads: u32, entry: Entry) -> bool
    ensures { IsTrue result ↔ IsEntry threads entry }
{
    entry.thread < threads && is_event(entry.event) && is_reply_to(entry.event, entry.reply)
}

fn is_report(report: ThreadReport) -> bool
    ensures { IsTrue result ↔ IsReport report }
{
    report.spent <= MOST_FUEL
}

fn are_values(values: &[Value]) -> bool
    ensures { IsTrue result ↔ All IsValue values.now }
{
    for value in values {
        if !is_value(*value) {
            return false;
        }
    }
    true
}

fn are_entries(threads: u32, log: &[Entry]) -> bool
    ensures { IsTrue result ↔ All (IsEntry threads) log.now }
{
    for entry in log {
        if !is_entry(threads, *entry) {
            return false;
        }
    }
    true
}

fn are_reports(ends: &[ThreadReport]) -> bool
    ensures { IsTrue result ↔ All IsReport ends.now }
{
    for report in ends {
        if !is_report(*report) {
            return false;
        }
    }
    true
}

/// A name is UTF-8, and its bytes are bytes: an empty function, for the fact.
fn show_name_is_text(name: &str)
    ensures utf8 { is_utf8 name.now ≡ true }
    ensures bytes { All (λ b. b ≤ 255) name.now }
{}

fn has_scale_in(parts: &RecordParts) -> bool
    ensures { IsTrue result ↔ HasScale parts.now }
{
    match parts.version {
        Version::One => {
            parts.module_len == 0
                && parts.threads == FIRST_THREADS
                && parts.max_pages == FIRST_PAGES
        }
        Version::Two => {
            parts.module_len as usize <= MOST_MODULE_BYTES
                && parts.threads >= 1
                && parts.threads as usize <= MOST_THREADS
                && parts.max_pages >= 1
                && parts.max_pages <= MOST_PAGES
        }
    }
}

fn has_numbers_in(parts: &RecordParts) -> bool
    ensures { IsTrue result ↔ HasNumbers parts.now }
{
    has_scale_in(parts)
        && parts.fuel <= MOST_FUEL
        && parts.limit >= 1
        && parts.limit <= MOST_LIMIT
        && parts.log.len() <= parts.limit as usize + 3 * parts.threads as usize
        && parts.ends.len() >= 1
        && parts.ends.len() <= parts.threads as usize
        && parts.pages <= parts.max_pages
}

/// Whether the parts are within the ranges of a record.
pub fn is_record_in(parts: &RecordParts) -> bool
    ensures { IsTrue result ↔ IsRecord parts.now }
{
    show_name_is_text(parts.invoke.as_str());
    if !has_numbers_in(parts) {
        return false;
    }
    if !are_values(parts.args.as_slice()) {
        return false;
    }
    if !are_entries(parts.threads, parts.log.as_slice()) {
        return false;
    }
    are_reports(parts.ends.as_slice())
}
