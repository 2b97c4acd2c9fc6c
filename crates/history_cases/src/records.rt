//! Cases of texts of records, with what each is to come to. The files that cases name lie in the folder where they are
//! tried.
//!
//! A file of cases is one for the library `test_cases`: `== TITLE`, and below it lines of a key, a space and what the
//! key has.
//!
//! ```text
//! record LINE            the lines of a record
//! record-rest TEXT       a last piece of it, without a line feed
//! record-file FILE       or the record is this file
//! kept 3-4 TEXT          with these lines replaced, as `test_cases` says, it is a record, which is written as it was read;
//!                          several such lines are as many texts
//! refused 3 TEXT => WHY  the same, and it is no record for this reason, in the words of the fault
//! cut 18 WHY             so is each front of the record with fewer than 18 bytes, but for those of the `cut` before; the
//!                          last one has the record's length
//! ```
//!
//! Without one of the last three the text is read as it stands:
//!
//! ```text
//! fault WHY              it is no record for this reason; without this line it is one, which is written as it was read
//! ```

mod reading;
mod texts;

pub use texts::try_record;
