//! Of what cases are.

/// Of what the cases of a file are.
#[derive(Clone, Copy)]
pub(crate) enum Subject {
    /// Bytes, read and validated as modules.
    Modules,
    /// Lines of source, names and places of a module.
    Lines,
    /// Histories and their races.
    Histories,
    /// Texts of records.
    Records,
    /// Command lines of the program.
    Runs,
    /// Modules and records whose bytes are changed.
    Mutants,
}

impl Subject {
    /// The subject that a word names, if it names one.
    pub(crate) fn read(word: &str) -> Option<Subject> {
        match word {
            "modules" => Some(Subject::Modules),
            "lines" => Some(Subject::Lines),
            "histories" => Some(Subject::Histories),
            "records" => Some(Subject::Records),
            "runs" => Some(Subject::Runs),
            "mutants" => Some(Subject::Mutants),
            _ => None,
        }
    }
}
