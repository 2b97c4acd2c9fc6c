//! Which accesses may race, by what is asked for.
ghost use Rattle.std.specs.Prelude.{◌≡◌, ◌⊎◌, IfErr, IfOk};
ghost use Rattle.std.specs.List.{AllZip};
ghost use Rattle.report_command.specs.declared.allowance.Allowance.{Allowance as AllowanceWords};
ghost use Rattle.report_jobs.specs.Undone.{undone_status};
ghost use Rattle.report_looks.specs.Allowing.{AreBytesOf, IsAllowedBy, SomeNamed};
ghost use Rattle.report_looks.specs.Silent.{IsAbsent, IsUnrefused};

use crate::wanted::{Unshown, no_memory, spans_of};
use allowed_races::Allowed;
use report_command::Allowance;
use report_jobs::{Failed, Refused, Undone};
use selection::NumberSpan;
use show_named::DataMap;
use std::alloc::Global;

/// The addresses at which accesses may race, and whether atomic ones of different widths may.
#[derive(Drop)]
pub struct AllowedBytes {
    spans: Vec<NumberSpan>,
    mixed: bool,
}

impl AllowedBytes {
    /// Which accesses may race.
    pub fn allowed(&self) -> Allowed<'_>
        ensures { (allow : AllowanceWords) → AreBytesOf allow self.now → IsAllowedBy allow result }
    {
        Allowed {
            spans: self.spans.as_slice(),
            mixed: self.mixed,
        }
    }
}

/// Where accesses may race, by what a module says of its data.
pub(crate) fn allowed_at<'a>(
    alloc: Global,
    map: &DataMap,
    allow: &Allowance<'a>,
) -> Result<AllowedBytes, Unshown<'a>>
    ensures allowed { IfOk result (AreBytesOf allow.now) }
    ensures why { IfErr result IsUnrefused }
    ensures named { IfErr result (λ why. IsAbsent why → SomeNamed allow.now.bytes.items) }
{
    let spans = match spans_of(alloc, map, allow.bytes.as_slice()) {
        Ok(spans) => spans,
        Err(why) => return Err(why),
    };
    Ok(AllowedBytes {
        spans,
        mixed: allow.mixed,
    })
}

/// Why nothing is shown of what may race: memory, or that there is no such data.
fn unallowed<'a>(why: Unshown<'a>) -> Undone<'a>
    requires { IsUnrefused why }
    ensures status { (undone_status result ≡ 3) ⊎ (undone_status result ≡ 5) }
    ensures absent { undone_status result ≡ 3 → IsAbsent why.entry }
{
    match why {
        Unshown::Unfit { .. } => Undone::Failed(Failed::Memory),
        Unshown::Absent(absent) => Undone::Refused(Refused::Allowance(absent)),
    }
}

/// Where accesses may race: at these addresses, and at the data that these names have by the bytes of a module.
///
/// # Errors
/// That no data or several have such a name (status 3), or that memory was refused (5).
pub fn allowed_of<'a>(
    alloc: Global,
    names: &[u8],
    allow: &Allowance<'a>,
) -> Result<AllowedBytes, Undone<'a>>
    ensures allowed { IfOk result (AreBytesOf allow.now) }
    ensures status { IfErr result (λ why. (undone_status why ≡ 3) ⊎ (undone_status why ≡ 5)) }
    ensures named { IfErr result (λ why. undone_status why ≡ 3 → SomeNamed allow.now.bytes.items) }
{
    if allow.bytes.is_empty() {
        return Ok(AllowedBytes {
            spans: Vec::new(alloc),
            mixed: allow.mixed,
        });
    }
    let map = match DataMap::read(alloc, names) {
        Ok(map) => map,
        Err(_) => return Err(Undone::Failed(Failed::Memory)),
    };
    match allowed_at(alloc, &map, allow) {
        Ok(bytes) => Ok(bytes),
        Err(why) => Err(unallowed(why)),
    }
}
