//! What is searched.
use allowed_races::Allowed;
use report_command::Search;
use report_looks::CodeBytes;
use validate_module::ValidModule;

/// A search that is asked for, through runs of a module; the bytes of that, which name its functions and the lines of
/// its source; and which accesses may race.
#[derive(Clone, Copy)]
pub struct SearchRequest<'a> {
    pub module: &'a ValidModule,
    pub code: CodeBytes<'a>,
    pub search: &'a Search<'a>,
    pub allowed: Allowed<'a>,
}
