//! Cases of histories whose races are known, and of texts of records.
#![tactic(auto)]

mod histories;
mod records;

pub use histories::try_history;
pub use records::try_record;
