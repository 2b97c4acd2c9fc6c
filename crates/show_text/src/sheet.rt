//! How a row is laid out: the line of the record, the words in their thread's column, and the place behind them.

ghost use Rattle.std.specs.Prelude.{◌≡◌, OnOk};
ghost use Rattle.show_text.specs.Rows.{AddsRow};
ghost use Rattle.show_text.specs.declared.sheet.Unwritten.TheVariants as unwritten;

use std::alloc::AllocError;
use std::fmt::{self, Formatter};
use std::io::{self, Write};
use unicode_width::UnicodeWidthStr;

/// The columns of the number of a line, and what is before the first word of a thread.
const LINE: usize = 7;

const MARGIN: usize = LINE + 2;

/// How far a thread's column is from the next one's, at most; and how long most words are.
const STEP: usize = 28;

const WORDS: usize = 34;

/// Why a row wasn't written.
#[derive(Clone, Copy, Debug, PartialEq, Eq)]
pub enum Unwritten {
    NoMemory,
    /// The stream failed.
    Output,
}

impl From<AllocError> for Unwritten {
    ghost from_gives = { λ _ e. e ≡ unwritten.NoMemory };

    fn from(_: AllocError) -> Unwritten {
        Unwritten::NoMemory
    }
}

impl From<io::Error> for Unwritten {
    ghost from_gives = { λ _ e. e ≡ unwritten.Output };

    fn from(_: io::Error) -> Unwritten {
        Unwritten::Output
    }
}

/// Where the columns of a row are.
#[derive(Drop)]
pub struct Sheet {
    /// Who has a column, each thread once.
    threads: Vec<u32>,
    /// How far one column is from the next.
    step: usize,
    /// Where places begin.
    places: usize,
    is_colored: bool,
}

#[derive(Clone, Copy)]
struct Layout {
    /// The blanks before the number of the line.
    margin: usize,
    /// Those before the words.
    indent: usize,
    /// Those before the place.
    gap: usize,
    /// The number of the color of the words.
    style: usize,
}

impl Sheet {
    /// The columns of these threads in so many characters.
    pub fn new(threads: Vec<u32>, width: usize, is_colored: bool) -> Sheet {
        let places = width - width / 3;
        let others = threads.len().saturating_sub(1).max(1);
        let room = places.saturating_sub(MARGIN + WORDS);
        let step = (room / others).clamp(1, STEP);
        Sheet {
            threads,
            step,
            places,
            is_colored,
        }
    }

    fn column_of(&self, thread: u32) -> usize {
        self.threads
            .iter()
            .position(|other| *other == thread)
            .unwrap_or(0)
    }

    /// Writes a row: the line of the record, the thread, the words of the entry, and where it was made.
    pub fn write_row<W: Write>(
        &self,
        out: &mut W,
        line: u64,
        thread: u32,
        words: &str,
        place: &str,
    ) -> Result<(), Unwritten>
        ensures { OnOk result (AddsRow self.now.is_colored
            (record { line = line; thread = thread; words = words.now; place = place.now })
            (W.contents out.old) (W.contents out.new)) }
    {
        let is_colored = self.is_colored;
        let at = self.layout(line, thread, words.width());
        let (margin, indent) = (Blanks(at.margin), Blanks(at.indent));
        let said = Said {
            is_colored,
            style: at.style,
            thread,
            words,
        };
        let place = PlaceText {
            is_colored,
            gap: at.gap,
            place,
        };
        write!(out, "{margin}{line}{indent}{said}{place}\n")?;
        Ok(())
    }

    /// How a row is laid out whose words take so many columns.
    fn layout(&self, line: u64, thread: u32, words: usize) -> Layout {
        let column = self.column_of(thread);
        let indent = column.saturating_mul(self.step).min(self.places);
        let name = if thread < 10 { 3 } else { 4 };
        let used = MARGIN
            .saturating_add(name)
            .saturating_add(indent)
            .saturating_add(words);
        Layout {
            margin: LINE.saturating_sub(digits_of(line)),
            indent: indent.saturating_add(2),
            gap: self.places.saturating_sub(used).max(2),
            style: 31 + column % 6,
        }
    }
}

fn digits_of(number: u64) -> usize {
    number.checked_ilog10().unwrap_or(0) as usize + 1
}

#[derive(Clone, Copy)]
struct Blanks(usize);

impl fmt::Display for Blanks {
    ghost use Rattle.std.specs.Prelude.{Some};
    ghost use Rattle.show_text.specs.Rows.{blanks};

    ghost output = { λ b. Some (blanks b.0) };

    fn fmt<W: fmt::Write>(&self, f: &mut Formatter<W>) -> fmt::Result {
        for _ in 0..self.0 {
            f.write_str(" ")?;
        }
        Ok(())
    }
}

/// Who does what, in a color.
#[derive(Clone, Copy)]
struct Said<'a> {
    is_colored: bool,
    style: usize,
    thread: u32,
    words: &'a str,
}

impl fmt::Display for Said<'_> {
    ghost use Rattle.std.specs.Prelude.{Some};
    ghost use Rattle.show_text.specs.Rows.{styled, said};

    ghost output = { λ s. Some (styled s.is_colored s.style (said s.thread s.words.now)) };

    fn fmt<W: fmt::Write>(&self, f: &mut Formatter<W>) -> fmt::Result {
        let (style, thread, words) = (self.style, self.thread, self.words);
        if self.is_colored {
            write!(f, "\x1b[{style}mt{thread} {words}\x1b[0m")
        } else {
            write!(f, "t{thread} {words}")
        }
    }
}

/// The place behind the words, where it is known.
#[derive(Clone, Copy)]
struct PlaceText<'a> {
    is_colored: bool,
    gap: usize,
    place: &'a str,
}

impl fmt::Display for PlaceText<'_> {
    ghost use Rattle.std.specs.Prelude.{Some};
    ghost use Rattle.show_text.specs.Rows.{place_text};

    ghost output = { λ p. Some (place_text p.is_colored p.gap p.place.now) };

    fn fmt<W: fmt::Write>(&self, f: &mut Formatter<W>) -> fmt::Result {
        let (gap, place) = (Blanks(self.gap), self.place);
        if place.is_empty() {
            return Ok(());
        }
        if self.is_colored {
            let faint = 2u8;
            write!(f, "{gap}\x1b[{faint}m{place}\x1b[0m")
        } else {
            write!(f, "{gap}{place}")
        }
    }
}
