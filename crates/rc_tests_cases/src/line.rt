//! The lines of a case file.

/// What a line of a case file is.
#[derive(Clone, Copy)]
pub enum Line<'a> {
    /// Nothing: it is empty, or a comment.
    Silent,
    /// `folder`.
    Folder,
    /// `file NAME`.
    File(&'a str),
    /// `run WORDS`, or `run` alone.
    Run(Option<&'a str>),
    /// What stands behind `|`.
    Text(&'a str),
    /// `status N`.
    Status(u8),
    /// None of these.
    Unknown,
}

/// The line of an exit status.
fn status_line(number: &str) -> Line<'_> {
    match number.parse::<u8>() {
        Ok(status) => Line::Status(status),
        Err(_) => Line::Unknown,
    }
}

/// The line of a word and what stands behind its blank.
fn word_line<'a>(word: &str, rest: &'a str) -> Line<'a> {
    match word {
        "file" => Line::File(rest),
        "run" => Line::Run(Some(rest)),
        "status" => status_line(rest),
        _ => Line::Unknown,
    }
}

/// The line of a word alone.
fn alone_line(word: &str) -> Line<'_> {
    match word {
        "folder" => Line::Folder,
        "run" => Line::Run(None),
        _ => Line::Unknown,
    }
}

/// What a line is.
pub fn line_of(text: &str) -> Line<'_> {
    if text.is_empty() || text.starts_with('#') {
        return Line::Silent;
    }
    if let Some(rest) = text.strip_prefix('|') {
        return Line::Text(rest);
    }
    match text.split_once(' ') {
        Some((word, rest)) => word_line(word, rest),
        None => alone_line(text),
    }
}
