//! The call of which runs are searched, with what all searches need.
use allowed_races::Allowed;
use report_command::Search;
use report_looks::CodeBytes;
use spawn_host::Request;

/// A search that is asked for, through runs of a call that can be made; the bytes of its module, which name its
/// functions and the lines of its source; and which accesses may race. A run of it along a schedule has no fault but of
/// memory: the call fits, and the numbers are in their ranges.
#[derive(Clone, Copy)]
pub struct SearchedCall<'a> {
    pub request: &'a Request<'a, 'a>,
    pub code: CodeBytes<'a>,
    pub search: &'a Search<'a>,
    pub allowed: Allowed<'a>,
}
