//! How names, keys and values are written. This file knows no document and no writer.
ghost use Rattle.std.specs.Prelude.{◌≡◌, ◌∷◌, []};
ghost use Rattle.std.specs.Str.{chars};
ghost use Rattle.ini_words.specs.Lines.{between_in, end_in};

/// How names, keys and values are written.
#[derive(Clone, Copy)]
pub enum Form {
    /// With the basic escapes, so that each stands on one line; a pair is a line, with tabs in it.
    Escaped,
    /// As they stand, with a line feed after each; a pair has tabs in it.
    AsIs,
    /// As they stand, with NUL after each, for other programs to read.
    Null,
}

impl Form {
    /// What stands after a section's name and after a key, where a value follows.
    pub(crate) fn between(self) -> &'static str
        ensures { chars result.now ≡ between_in self ∷ [] }
    {
        match self {
            Form::Escaped => "\t",
            Form::AsIs => "\t",
            Form::Null => "\0",
        }
    }

    /// What stands after an entry.
    pub(crate) fn end(self) -> &'static str
        ensures { chars result.now ≡ end_in self ∷ [] }
    {
        match self {
            Form::Escaped => "\n",
            Form::AsIs => "\n",
            Form::Null => "\0",
        }
    }
}
