//! The keys of lines.

/// The keys that there are.
const KEYS: [&str; 29] = [
    "module",
    "hex",
    "body",
    "gives",
    "memory",
    "memory-out",
    "saved",
    "saved-rest",
    "saved-file",
    "names",
    "source",
    "words",
    "word",
    "over",
    "times",
    "told",
    "edit",
    "forged",
    "cut",
    "out",
    "out-any",
    "err",
    "status",
    "record",
    "record-end",
    "record-has",
    "page-has",
    "again",
    "again-err",
];

/// A key of a line of a file of cases that is none, if there is one.
pub fn unknown_key(text: &str) -> Option<&str> {
    let (_, cases) = text.split_once("\n== ")?;
    for line in cases.lines().skip(1) {
        let (key, _) = line.split_once(' ').unwrap_or((line, ""));
        let is_other = key.is_empty()
            || key.starts_with('#')
            || key == "=="
            || key == "again-status";
        if !is_other && !KEYS.iter().any(|known| *known == key) {
            return Some(key);
        }
    }
    None
}
