//! The form of a report.

ghost use Rattle.std.specs.Prelude.{◌≡◌};
ghost use Rattle.task_words.specs.Formats.{known_format};

/// The form of a report.
#[derive(Clone, Copy)]
pub enum Format {
    /// Lines of text.
    Lines,
    /// One JSON object on one line.
    Json,
}

// Returns the form of this name.
pub(crate) fn format_named(name: &str) -> Option<Format>
    ensures { result ≡ known_format name.now }
{
    match name {
        "lines" => Some(Format::Lines),
        "json" => Some(Format::Json),
        _ => None,
    }
}
