//! The manner in which an answer is told, as words choose it. This file knows no document, and of the
//! commands their names alone.
ghost use Rattle.std.specs.Prelude.{◌≡◌};
ghost use Rattle.ini_file.specs.Manners.{color_named, form_named, has_manner, kind_named, no_manner};
ghost use Rattle.ini_file.specs.Manners.{takes_name, with_name, writes_form};

/// What the text of a value is to say.
#[derive(Clone, Copy, PartialEq, Eq, Debug)]
pub enum ValueKind {
    /// Yes or no.
    Bool,
    /// A whole number.
    Integer,
    /// A number of bytes.
    Size,
    /// A number with a fraction.
    Float,
    /// A span of time.
    Duration,
    /// The name of a file.
    Path,
}

impl ValueKind {
    /// The kind that `--type` names.
    pub fn of_name(name: &str) -> Option<ValueKind>
        ensures { result ≡ kind_named name.now }
    {
        match name {
            "bool" => Some(ValueKind::Bool),
            "int" => Some(ValueKind::Integer),
            "size" => Some(ValueKind::Size),
            "float" => Some(ValueKind::Float),
            "duration" => Some(ValueKind::Duration),
            "path" => Some(ValueKind::Path),
            _ => None,
        }
    }
}

/// A form in which an answer is written.
#[derive(Clone, Copy, PartialEq, Eq, Debug)]
pub enum AnswerForm {
    /// Lines, for readers.
    Lines,
    /// JSON.
    Json,
    /// Assignments to variables of a shell.
    Shell,
    /// The document, written anew.
    Ini,
    /// Changes, which `apply` reads.
    Edits,
}

impl AnswerForm {
    /// The form that `--format` names.
    pub fn of_name(name: &str) -> Option<AnswerForm>
        ensures { result ≡ form_named name.now }
    {
        match name {
            "lines" => Some(AnswerForm::Lines),
            "json" => Some(AnswerForm::Json),
            "sh" => Some(AnswerForm::Shell),
            "ini" => Some(AnswerForm::Ini),
            "edits" => Some(AnswerForm::Edits),
            _ => None,
        }
    }

    /// Whether the command of this name writes the form.
    pub fn is_of(self, command: &str) -> bool
        ensures { result ≡ writes_form command.now self }
    {
        match self {
            AnswerForm::Shell => matches!(command, "get" | "list"),
            AnswerForm::Ini => command == "list",
            AnswerForm::Edits => command == "diff",
            _ => matches!(command, "get" | "list" | "diff"),
        }
    }
}

/// Whether what is written has colours.
#[derive(Clone, Copy, PartialEq, Eq)]
pub enum Color {
    /// On a terminal.
    Auto,
    /// Always.
    Always,
    /// Never.
    Never,
}

impl Color {
    /// What `--color` says of colours by this name.
    pub fn of_name(name: &str) -> Option<Color>
        ensures { result ≡ color_named name.now }
    {
        match name {
            "auto" => Some(Color::Auto),
            "always" => Some(Color::Always),
            "never" => Some(Color::Never),
            _ => None,
        }
    }
}

/// What words choose of the manner in which an answer is told.
#[derive(Clone, Copy)]
pub struct Manner {
    /// What each value is to say.
    pub kind: Option<ValueKind>,
    /// The form in which the answer is written.
    pub form: Option<AnswerForm>,
    /// When there are colours.
    pub color: Option<Color>,
}

impl Manner {
    /// Nothing is chosen.
    pub fn none() -> Manner
        ensures { result ≡ no_manner }
    {
        Manner {
            kind: None,
            form: None,
            color: None,
        }
    }

    /// Whether values have a kind, or the form isn't that of lines.
    pub fn is_chosen(self) -> bool
        ensures { result ≡ has_manner self }
    {
        self.kind.is_some() || !matches!(self.form, None | Some(AnswerForm::Lines))
    }

    /// What is chosen after the choice that `takes_name` knows and its text, if that is a name.
    #[tactic(auto, unfolding(crate::specs::Manners::with_name))]
    pub fn with_name(self, choice: &str, name: &str) -> Option<Manner>
        ensures { result ≡ with_name choice.now name.now self }
    {
        let mut manner = self;
        if choice == "--type" {
            manner.kind = Some(ValueKind::of_name(name)?);
        } else if choice == "--format" {
            manner.form = Some(AnswerForm::of_name(name)?);
        } else {
            manner.color = Some(Color::of_name(name)?);
        }
        Some(manner)
    }
}

/// Whether a name follows the choice of this name.
pub fn takes_name(choice: &str) -> bool
    ensures { result ≡ takes_name choice.now }
{
    matches!(choice, "--type" | "--format" | "--color")
}
