//! Cases of changed bytes: a module and the records of its runs, changed as a seed determines, with each front of the
//! module. Each change is to come to one of the ends that there are, with its lines; and where a module is still
//! accepted, its run's record is to be replayed to the same lines.
//!
//! A file of cases is one for the library `test_cases`: `== TITLE`, and below it lines of a key, a space and what the
//! key has.
//!
//! ```text
//! module FILE            the module is this file, in the folder where the case is tried
//! invoke NAME            what is called in it
//! arg WORD               its argument, or none without this line
//! times 2000             how many changed modules are tried, and how many changed records
//! seed 1                 the numbers by which they are changed
//! ```
//!
//! Standard error has how many came to which status.

mod answers;
mod case;
mod changes;
mod trials;

pub(crate) use case::try_case;
