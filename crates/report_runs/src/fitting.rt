//! What the types of a record's parts say of its numbers, and that of modules of their memories: functions that only
//! look, for the facts.
ghost use Rattle.std.specs.List.{All};
ghost use Rattle.std.specs.Prelude.{◌≡◌, ◌≤◌, true};
ghost use Rattle.std.specs.Str.{is_utf8};
ghost use Rattle.types.specs.declared.limits.TheConstants.{MOST_MODULE_BYTES, MOST_PAGES};
ghost use Rattle.validate_module.specs.Pages.{HasPagesWithin};
ghost use Rattle.shared_memory_sequential.specs.Opening.{can_open};
ghost use Rattle.spawn_host.specs.Runs.{opening_memory};
ghost use Rattle.replay_text.specs.Conditions.{IsValue, IsOutcome};
ghost use Rattle.replay_rules.specs.Ranges.{EntryFits, ReportFits, AreTyped};

use replay_text::RecordParts;
use types::{Entry, ThreadReport, Value};
use validate_module::ValidModule;

/// The opening memory of a valid module can be opened.
pub(crate) fn show_memory_opens(module: &ValidModule)
    ensures { can_open (opening_memory «module».now.parts).bytes (opening_memory «module».now.parts).max ≡ true }
{
    let _parts = module.parts();
}

/// A valid module is no longer than any may be, and its memory has no more pages.
pub(crate) fn show_module_fits(module: &ValidModule)
    ensures size { «module».now.parts.length ≤ MOST_MODULE_BYTES }
    ensures pages { HasPagesWithin MOST_PAGES «module».now.parts }
{
    let _parts = module.parts();
}

/// A name is UTF-8, and its bytes are bytes.
fn show_name_fits(name: &str)
    ensures utf8 { is_utf8 name.now ≡ true }
    ensures bytes { All (λ b. b ≤ 255) name.now }
{}

fn show_value_fits(value: Value)
    ensures { IsValue value }
{}

fn show_values_fit(values: &[Value])
    ensures { All IsValue values.now }
{
    for value in values {
        show_value_fits(*value);
    }
}

fn show_entry_fits(entry: Entry)
    ensures { EntryFits entry }
{}

fn show_entries_fit(log: &[Entry])
    ensures { All EntryFits log.now }
{
    for entry in log {
        show_entry_fits(*entry);
    }
}

fn show_report_fits(report: ThreadReport)
    ensures { ReportFits report }
{}

fn show_reports_fit(reports: &[ThreadReport])
    ensures { All ReportFits reports.now }
{
    for report in reports {
        show_report_fits(*report);
    }
}

/// The numbers of a record's parts fit their fields.
pub(crate) fn show_parts_fit(parts: &RecordParts)
    ensures { AreTyped parts.now }
{
    show_name_fits(parts.invoke.as_str());
    show_values_fit(parts.args.as_slice());
    show_entries_fit(parts.log.as_slice());
    show_reports_fit(parts.ends.as_slice());
}
