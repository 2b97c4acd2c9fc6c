//! The answers that there are: of each status the lines on standard output and on standard error.

/// The lines on standard error, with `#` for a number, and their status.
static REFUSALS: [(u8, &str); 10] = [
    (2, "module refused: read # at #"),
    (2, "module refused: validity #"),
    (2, "module refused: validity # in function # at #"),
    (3, "run refused: unknown export"),
    (3, "run refused: wrong arguments"),
    (4, "record refused: header line #"),
    (4, "record refused: line # unreadable"),
    (4, "record refused: end missing"),
    (4, "record refused: line # does not fit"),
    (4, "record refused: end line # does not fit"),
];

/// How a thread ends, with `#` for a number.
static OUTCOMES: [&str; 16] = [
    "ok",
    "ok i32:#",
    "ok i64:#",
    "trap unreachable",
    "trap divide by zero",
    "trap integer overflow",
    "trap out of bounds",
    "trap unaligned atomic",
    "trap not shared",
    "trap undefined element",
    "trap uninitialized element",
    "trap signature mismatch",
    "trap stack exhausted",
    "stop out of fuel",
    "stop asleep for good",
    "stop record full",
];

/// Whether a text is a number without leading zeros.
fn is_number(text: &str) -> bool {
    text == "0"
        || (!text.is_empty()
            && !text.starts_with('0')
            && text.bytes().all(|it| it.is_ascii_digit()))
}

/// Whether a word is this one, in which `#` stands for a number.
fn is_word(word: &str, form: &str) -> bool {
    match form.strip_suffix('#') {
        Some(front) => match word.strip_prefix(front) {
            Some(number) => is_number(number),
            None => false,
        },
        None => word == form,
    }
}

/// Whether a line has these words, in which `#` stands for a number.
fn has_form(line: &str, form: &str) -> bool {
    let mut words = line.split(' ');
    for wanted in form.split(' ') {
        match words.next() {
            Some(word) if is_word(word, wanted) => {}
            _ => return false,
        }
    }
    words.next().is_none()
}

/// Whether it is how a thread ends.
fn is_outcome(text: &str) -> bool {
    OUTCOMES.iter().any(|form| has_form(text, form))
}

/// Whether it is the line of a thread.
fn is_thread(line: &str) -> bool {
    match line.strip_prefix("thread ") {
        Some(rest) => match rest.split_once(": ") {
            Some((number, outcome)) => is_number(number) && is_outcome(outcome),
            None => false,
        },
        None => false,
    }
}

/// Whether it is the lines of a run: those of its threads, and that of the pages.
fn is_end(text: &str) -> bool {
    let Some(text) = text.strip_suffix('\n') else {
        return false;
    };
    match text.rsplit_once('\n') {
        Some((threads, pages)) => {
            threads.split('\n').all(|line| is_thread(line)) && has_form(pages, "pages #")
        }
        None => false,
    }
}

/// Whether it is the line of an accepted module.
fn is_accepted(text: &str) -> bool {
    match text.strip_suffix('\n') {
        Some(line) => has_form(line, "ok functions #"),
        None => false,
    }
}

/// Whether a line on standard error goes with this status.
fn is_refusal(status: u8, text: &str) -> bool {
    let Some(line) = text.strip_suffix('\n') else {
        return false;
    };
    REFUSALS
        .iter()
        .any(|(number, form)| *number == status && has_form(line, form))
}

/// Whether a job can end so: with this status and these texts. Not that memory or threads ran out, or that a file
/// failed.
pub(crate) fn is_answer(status: u8, out: &[u8], err: &[u8]) -> bool {
    let (Ok(out), Ok(err)) = (str::from_utf8(out), str::from_utf8(err)) else {
        return false;
    };
    match status {
        0 => err.is_empty() && (is_end(out) || is_accepted(out)),
        1 => err.is_empty() && is_end(out),
        _ => out.is_empty() && is_refusal(status, err),
    }
}
