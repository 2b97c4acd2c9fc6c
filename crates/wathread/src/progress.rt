//! How far a search came, on one line of a terminal, and whether it is told to end.

use replay_text::Record;
use report_command::Search;
use report_program::keep_early;
use search_finds::{Hears, Size};
use search_reach::{Follows, Wish};
use search_strategies::EndWatch;
use std::fs;
use std::io::IsTerminal;
use std::time::{Duration, Instant};

/// How many milliseconds a line stands before another takes its place, and the file that ends the search isn't looked
/// for again.
const PAUSE: u64 = 250;

/// When a search ends before it has made all: once there is a file with this path, and at a time.
#[derive(Clone, Copy)]
struct Until<'a> {
    path: Option<&'a str>,
    /// When it began, and how long it may take.
    time: Option<(Instant, Duration)>,
}

/// Whether it is to end, to be asked from any thread.
#[derive(Drop)]
pub(crate) struct EndSignal<'a> {
    rt: &'a HostRuntime,
    until: Until<'a>,
}

impl EndSignal<'_> {
    fn is_late(&self) -> bool {
        let Some((began, most)) = self.until.time else {
            return false;
        };
        match Instant::now(self.rt) {
            Ok(now) => now.duration_since(began) >= most,
            Err(_) => false,
        }
    }
}

impl EndWatch for EndSignal<'_> {
    fn is_over(&self) -> bool {
        self.is_late()
            || self
                .until
                .path
                .is_some_and(|path| fs::exists(self.rt, path).unwrap_or(false))
    }
}

/// Follows a search that is on its way. Where standard error is a terminal, a line there has how much it did, how much
/// in a second, and how many endings it met. Where a path is given, it ends once there is a file with it, and where a
/// time is given, once that has passed.
#[derive(Drop)]
pub(crate) struct SearchProgress<'a> {
    rt: &'a HostRuntime,
    /// When the search began and when it was last time for a line and a look; none where there is neither.
    times: Option<(Instant, Instant)>,
    until: Until<'a>,
    /// Where the record of a run that is found goes, where one is wanted.
    save: Option<&'a str>,
    /// For how long smaller runs are looked for.
    shrink: Duration,
    /// Whether lines are written.
    is_shown: bool,
    /// Whether one stands there.
    is_written: bool,
    wish: Wish,
    /// Of how many states it heard last before it wished the end.
    told_at: usize,
}

/// How many in a second, where so many took so long.
fn in_a_second(count: u64, took: Duration) -> u64 {
    let millis = u64::try_from(took.as_millis()).unwrap_or(u64::MAX).max(1);
    count.saturating_mul(1000) / millis
}

/// How many MiB of memory the program has, where the system says so: Linux does, in pages of 4096 bytes.
fn resident(rt: &HostRuntime) -> Option<u64> {
    let said = fs::read_to_string(rt, "/proc/self/statm").ok()?;
    let pages = said.split_whitespace().nth(1)?.parse::<u64>().ok()?;
    Some(pages / 256)
}

impl<'a> SearchProgress<'a> {
    /// No line is written yet, and none ever where standard error is no terminal.
    pub(crate) fn new(rt: &'a HostRuntime, search: Option<&Search<'a>>) -> SearchProgress<'a> {
        let is_shown = rt.stderr().is_terminal();
        let now = match search {
            Some(_) => Instant::now(rt).ok(),
            None => None,
        };
        let seconds = search.and_then(|search| search.time);
        let time = match (now, seconds) {
            (Some(now), Some(seconds)) => Some((now, Duration::from_secs(u64::from(seconds)))),
            _ => None,
        };
        let shrink = search.map_or(0, |search| search.shrink_time);
        SearchProgress {
            rt,
            times: now.map(|now| (now, now)),
            until: Until {
                path: search.and_then(|search| search.until),
                time,
            },
            save: search.and_then(|search| search.save),
            shrink: Duration::from_secs(u64::from(shrink)),
            is_shown,
            is_written: false,
            wish: Wish::GoOn,
            told_at: 0,
        }
    }

    /// How long the search takes by now, where it is time for another line and another look.
    fn due(&mut self) -> Option<Duration> {
        let (began, last) = self.times?;
        let now = Instant::now(self.rt).ok()?;
        if now.duration_since(last) < Duration::from_millis(PAUSE) {
            return None;
        }
        self.times = Some((began, now));
        Some(now.duration_since(began))
    }

    fn bell(&self) -> EndSignal<'a> {
        EndSignal {
            rt: self.rt,
            until: self.until,
        }
    }

    /// Wishes that the search ends, where it is to.
    fn look(&mut self) {
        if self.bell().is_over() {
            self.wish = Wish::End;
        }
    }

    /// Looks for the file that ends the search, and answers how long it takes by now, where it is time and a line is to
    /// be written.
    fn line_due(&mut self) -> Option<Duration> {
        let took = self.due()?;
        self.look();
        if !self.is_shown {
            return None;
        }
        self.is_written = true;
        Some(took)
    }
}

impl Follows for SearchProgress<'_> {
    ghost wish = { λ p. p.wish };

    ghost told_at = { λ p. p.told_at };

    fn runs(&mut self, made: u64, endings: usize) -> Wish {
        if let Some(took) = self.line_due() {
            let rate = in_a_second(made, took);
            let _ = eprint!(self.rt;
                "\r\x1b[K{made} runs, {rate} a second, {endings} endings so far"
            );
        }
        self.wish
    }

    fn states(&mut self, met: usize, left: usize) -> Wish {
        if let Wish::End = self.wish {
            return Wish::End;
        }
        if let Some(took) = self.line_due() {
            let rate = in_a_second(met as u64, took);
            let _ = match resident(self.rt) {
                Some(mib) => eprint!(self.rt;
                    "\r\x1b[K{met} states, {rate} a second, {left} to go through, {mib} MiB"
                ),
                None => eprint!(self.rt;
                    "\r\x1b[K{met} states, {rate} a second, {left} to go through"
                ),
            };
        }
        self.told_at = met;
        self.wish
    }

    /// Takes the line away, where one is written.
    fn end(&mut self) {
        if self.is_written {
            let _ = eprint!(self.rt; "\r\x1b[K");
            self.is_written = false;
        }
    }
}

impl<'a> Hears for SearchProgress<'a> {
    type Watch = EndSignal<'a>;

    fn watch(&self) -> EndSignal<'a> {
        self.bell()
    }

    fn given_up(&mut self) -> Wish {
        self.look();
        self.wish
    }

    /// Its record is at its place from now on, and smaller runs are looked for as long as was asked for.
    fn found(&mut self, record: &Record) {
        if let Some(path) = self.save {
            let _ = keep_early(self.rt, path, record);
        }
        if let Ok(now) = Instant::now(self.rt) {
            let left = match self.until.time {
                Some((began, most)) => most.saturating_sub(now.duration_since(began)),
                None => self.shrink,
            };
            self.until.time = Some((now, left.min(self.shrink)));
        }
    }

    fn tried(&mut self, tries: u32, size: Size) -> Wish {
        if let Some(took) = self.line_due() {
            let rate = in_a_second(u64::from(tries), took);
            let Size { switches, entries } = size;
            let _ = eprint!(self.rt;
                "\r\x1b[K{tries} smaller runs tried, {rate} a second: {entries} entries, {switches} switches so far"
            );
        }
        self.wish
    }
}
