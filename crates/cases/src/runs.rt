//! Cases of runs: command lines of the program, on modules and records, with what each is to print. The files that
//! cases name lie in the folder where they are tried.
//!
//! A file of cases is one for the library `test_cases`: `== TITLE`, and below it lines of a key, a space and what the
//! key has.
//!
//! ```text
//! module FILE            the module is this file
//! hex 00 61 73 6d ..     or these bytes, in as many lines as it takes
//! body 41 07             or one of a function `f` with this code before its last `end`, without parameters and locals:
//! gives i32                what the function gives: i32 (also without this line), i64 or nothing
//! memory shared            the memory beside it: shared (also without this line), one page of it; plain, a page that
//!                          isn't shared; none; or the bytes of a section
//!
//! saved LINE             the lines of the record that is read
//! saved-rest TEXT        a last piece of it, without a line feed; of a run with `--memory-in` these are the bytes that
//!                          are laid over its memory
//! saved-file FILE        or the record is this file
//! names FILE             `show` takes names and lines of source from this file, and not from the module
//! source FILE            and shows the text of this file of source, which has that name there
//!
//! words run a.wasm ..    the words behind the program's name; several such lines are as many command lines
//! word out of fuel       one word more behind each of them, which may have spaces
//! over both              the words are a `run`: it is made over the recorder, with `--record`, and over words, with
//!                          `--memory words`, but where it has a `--limit`; `over recorder` is the first alone
//! times 100              how often each is done, once without this line
//! told end               a search is told to end as soon as it is heard of
//! edit 3-4 TEXT          with these lines of the record replaced, as `test_cases` says; several such lines are as many
//!                          command lines
//! forged 3 TEXT => WHY   the same, and the record is to be refused: `record refused: WHY` is printed, with the status 4
//! cut 18 WHY             so is each front of the record with fewer than 18 bytes, but for those of the `cut` before; the
//!                          last one has the record's length
//!
//! out LINE               the lines on standard output, in which `{2..600}` is a number from 2 to 600
//! out-any                or any, but not none
//! err LINE               the lines on standard error
//! status 1               the status, 0 without this line
//! record LINE            the lines of the record that is written, or of the file that `show` makes
//! record-end LINE        or its last lines, before that of the pages, which was printed too, and `finish`
//! record-has LINE        lines that it has, in this order
//! page-has LINE          lines that a page has which `show` makes, in this order
//! memory-out 65536 61 62 how many bytes are written of the memory, of which these are the first
//! again LINE             what its replay prints, with the `--dump` of the words
//! again-err LINE         what the replay says on standard error
//! again-status 1         the replay's status, 0 without this line
//! ```
//!
//! A case without one of the lines from `record` on writes nothing to a record, and one without `memory-out` nothing of a
//! memory. A run over the recorder needs none of them: its record ends as `record-end` says, and is replayed to the same
//! lines, on both streams, with the same status. A record is also written as it is read.

mod case;
mod input;
mod keys;
mod memory;
mod program;
mod record;
mod rows;
mod telling;
mod trial;
mod wanted;

pub(crate) use case::try_case;
pub(crate) use keys::unknown_key;
