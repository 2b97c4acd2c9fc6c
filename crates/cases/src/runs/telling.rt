//! What is said of a case whose answer is another than wanted.

/// A case of a file.
#[derive(Clone, Copy)]
pub(crate) struct CaseName<'a> {
    pub(crate) file: &'a str,
    pub(crate) title: &'a str,
}

/// Says of which case something is other than wanted.
pub(crate) fn tell(
    rt: &HostRuntime,
    place: CaseName,
    words: &[&str],
    what: &str,
    wanted: &[u8],
    given: &[u8],
) {
    let (file, title) = (place.file, place.title);
    let wanted = str::from_utf8(wanted).unwrap_or("no text\n");
    let given = str::from_utf8(given).unwrap_or("no text\n");
    let _ = println!(rt;
        "{file}: {title}: {words:?}\n{what} wanted:\n{wanted}{what} given:\n{given}"
    );
}
