//! The forms in which warnings are written. This file knows no warning.
ghost use Rattle.std.specs.Prelude.{◌≡◌};
ghost use Rattle.ini_file.specs.CheckWords.{format_named};

/// A form in which warnings are written.
#[derive(Clone, Copy, PartialEq, Eq)]
pub enum Format {
    /// A line each, which editors read: file, line, column, `warning` and the message.
    Lines,
    /// File, line, column, kind and message as they stand, each with NUL after it.
    Null,
    /// A JSON object each, on a line of its own.
    Json,
    /// One SARIF document, version 2.1.0.
    Sarif,
    /// A command of GitHub's workflows each, on a line of its own.
    Github,
}

impl Format {
    /// The form that `--format` names.
    pub fn of_name(name: &str) -> Option<Format>
        ensures { result ≡ format_named name.now }
    {
        match name {
            "json" => Some(Format::Json),
            "sarif" => Some(Format::Sarif),
            "github" => Some(Format::Github),
            _ => None,
        }
    }
}
