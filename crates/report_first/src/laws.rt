//! What the definitions say of these modules: each function does nothing, and its contract is a law.
ghost use Rattle.report_first.specs.Laws.{FirstModulesAreRead, FirstModulesAreValid, FirstModulesEndSo};

/// By the grammar the bytes spell one module, of these parts.
pub fn first_modules_are_read()
    ensures { FirstModulesAreRead }
{}

/// By the rules of validity it is valid.
pub fn first_modules_are_valid()
    ensures { FirstModulesAreValid }
{}

/// Whatever a run of it returns, over either memory: one thread ran, its outcome is that of an add to a zero, or the
/// trap of an address that 4 doesn't divide; there is one page, of zeros but for the addend.
pub fn first_modules_end_so()
    ensures { FirstModulesEndSo }
{}
