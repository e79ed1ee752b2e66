//! The options of the program's own, which stand after its command. This file knows no document, and of the
//! commands their names alone.
ghost use Rattle.std.specs.Prelude.{◌≡◌, ◌&&◌, ◌||◌, map, not, string_bytes};
ghost use Rattle.std.specs.Option.{option_map};
ghost use Rattle.ini_file.specs.Choices.{chosen, chosen_by, chosen_of, has_own_manner, no_choice, no_switch};
ghost use Rattle.ini_file.specs.Choices.{with_switch};
ghost use Rattle.ini_file.specs.Choices.{are_of_saving, are_seconds, has_digits_alone, have_no_option};
ghost use Rattle.ini_file.specs.Choices.{answers, compares, goes_out, is_short_number, may_be_null};
ghost use Rattle.ini_file.specs.Choices.{setting_value, takes, takes_form, takes_layout, takes_manner};
ghost use Rattle.ini_file.specs.Choices.{takes_of_texts, takes_saving, takes_settings, takes_values};
ghost use Rattle.ini_file.specs.Choices.{takes_writing, tells_places, writes_pairs, writes_texts};

use crate::manner::{Manner, takes_name};
use crate::spacing::{Spacing, takes_spacing};
use ini_layers::{SettingValue, Side};

/// What words after the command choose by themselves.
#[derive(Clone, Copy)]
pub struct Switches {
    /// A value is set only where its key is there.
    pub existing: bool,
    /// Each value of a key is got, or set, not one alone; or each header's name.
    pub all: bool,
    /// The last value of a key is got, whatever the rule.
    pub last: bool,
    /// Each pair is listed with its file and its line, also those of layers.
    pub origin: bool,
    /// What is asked for is written as it stands, with NUL after each name, key and value.
    pub null: bool,
    /// What would change in a file is shown, and no file is written.
    pub dry_run: bool,
    /// The file itself is written, in place of a new one that takes its name.
    pub in_place: bool,
    /// A write-protected file is written too.
    pub force: bool,
    /// Reports whether the file is changed.
    pub verbose: bool,
    /// Whose value stands where both sides of a merge changed a setting.
    pub side: Option<Side>,
    /// A file's layout is checked, and no file is written.
    pub check: bool,
    /// What undoes edits is made in place of them.
    pub reverse: bool,
    /// The separators of neighbouring pairs are laid out below each other.
    pub align: bool,
    /// A key's values are compared and set as a whole.
    pub lists: bool,
    /// Comments that differ are told too.
    pub comments: bool,
}

impl Switches {
    /// Nothing is chosen.
    pub fn none() -> Switches
        ensures { result ≡ no_switch }
    {
        Switches {
            existing: false,
            all: false,
            last: false,
            origin: false,
            null: false,
            dry_run: false,
            in_place: false,
            force: false,
            verbose: false,
            side: None,
            check: false,
            reverse: false,
            align: false,
            lists: false,
            comments: false,
        }
    }

    /// Whether something is chosen that is about a file that is written.
    pub fn are_of_saving(self) -> bool
        ensures { result ≡ are_of_saving self }
    {
        self.in_place || self.force || self.verbose
    }

    /// What a setting's value is.
    pub fn setting_value(self) -> SettingValue
        ensures { result ≡ setting_value self }
    {
        if self.lists {
            SettingValue::List
        } else {
            SettingValue::Counting
        }
    }

    /// The switches after a word that is one.
    pub fn with_switch(self, word: &str) -> Option<Switches>
        ensures { result ≡ with_switch word.now self }
    {
        let mut switches = self;
        match word {
            "--existing" => switches.existing = true,
            "--all" => switches.all = true,
            "--last" => switches.last = true,
            "--origin" => switches.origin = true,
            "--null" => switches.null = true,
            "--dry-run" => switches.dry_run = true,
            "--in-place" => switches.in_place = true,
            "--force" => switches.force = true,
            "--verbose" => switches.verbose = true,
            "--ours" => switches.side = Some(Side::Ours),
            "--theirs" => switches.side = Some(Side::Theirs),
            "--check" => switches.check = true,
            "--reverse" => switches.reverse = true,
            "--align" => switches.align = true,
            "--lists" => switches.lists = true,
            "--comments" => switches.comments = true,
            _ => return None,
        }
        Some(switches)
    }
}

/// What the options after the command choose.
#[derive(Clone, Copy)]
pub struct Choices<'a> {
    /// What words choose by themselves.
    pub switches: Switches,
    /// The file that is written in the place of the one that is read; `-` is standard output.
    pub output: Option<&'a str>,
    /// The value that is got where the key isn't there.
    pub default: Option<&'a str>,
    /// What stands between key and value of new lines, or of each that is laid out.
    pub separator: Option<&'a str>,
    /// How long a run waits for others that write the file, in seconds.
    pub wait: Option<&'a str>,
    /// The section, of a command that has a list of values last.
    pub section: Option<&'a str>,
    /// How a text is spaced that is laid out.
    pub spacing: Spacing,
    /// In which manner an answer is told.
    pub manner: Manner,
}

impl<'a> Choices<'a> {
    /// The options that words have at their front, and the words after them: those after `--`, else those
    /// from the first one on that is no option. `None` where, without `--`, one of the words from there on
    /// begins with `--`, or where the text that an option takes is missing, or no number or name where it
    /// takes one. Of several texts of an option the last holds. Takes no memory.
    pub fn of_words(words: &'a [String]) -> Option<(Choices<'a>, &'a [String])>
        ensures { chosen_by result ≡ chosen no_choice (map string_bytes words.now) }
    {
        let mut switches = Switches::none();
        let mut output: Option<&'a str> = None;
        let mut default: Option<&'a str> = None;
        let mut separator: Option<&'a str> = None;
        let mut wait: Option<&'a str> = None;
        let mut section: Option<&'a str> = None;
        let mut spacing = Spacing::none();
        let mut manner = Manner::none();
        let mut rest = words;
        'words: while let Some((word, after)) = rest.split_first() {
            let word = word.as_str();
            if word == "--" {
                let choices = Choices {
                    switches,
                    output,
                    default,
                    separator,
                    wait,
                    section,
                    spacing,
                    manner,
                };
                return Some((choices, after));
            } else if word == "--output" {
                let (file, after) = after.split_first()?;
                output = Some(file.as_str());
                rest = after;
            } else if word == "--default" {
                let (value, after) = after.split_first()?;
                default = Some(value.as_str());
                rest = after;
            } else if word == "--separator" {
                let (text, after) = after.split_first()?;
                separator = Some(text.as_str());
                rest = after;
            } else if word == "--wait" {
                let (seconds, after) = after.split_first()?;
                wait = Some(seconds.as_str());
                rest = after;
            } else if word == "--section" {
                let (name, after) = after.split_first()?;
                section = Some(name.as_str());
                rest = after;
            } else if takes_spacing(word) {
                let (number, after) = after.split_first()?;
                spacing = spacing.with_spacing(word, number.as_str())?;
                rest = after;
            } else if takes_name(word) {
                let (name, after) = after.split_first()?;
                manner = manner.with_name(word, name.as_str())?;
                rest = after;
            } else if let Some(changed) = switches.with_switch(word) {
                switches = changed;
                rest = after;
            } else if !have_no_option(rest) {
                return None;
            } else {
                let choices = Choices {
                    switches,
                    output,
                    default,
                    separator,
                    wait,
                    section,
                    spacing,
                    manner,
                };
                return Some((choices, rest));
            }
        }
        let choices = Choices {
            switches,
            output,
            default,
            separator,
            wait,
            section,
            spacing,
            manner,
        };
        Some((choices, rest))
    }

    /// Whether something is chosen of the manner in which an answer is told.
    pub fn has_manner(self) -> bool
        ensures { result ≡ has_own_manner (chosen_of self.entry) }
    {
        self.manner.is_chosen() || self.switches.origin
    }

    /// Whether the command of this name takes the choices.
    pub fn apply_to(self, command: &str) -> bool
        ensures { result ≡ takes command.now (chosen_of self.entry) }
    {
        self.suit_values(command)
            && implies(self.default.is_some(), command == "get")
            && implies(
                self.switches.null,
                may_be_null(command, self.switches.origin),
            )
            && implies(
                self.separator.is_some(),
                may_separate(command, self.switches.existing || self.switches.origin),
            )
            && self.suit_texts(command)
            && self.suit_writing(command)
    }

    // Whether the command takes the choices that are about one value or a list of them.
    fn suit_values(self, command: &str) -> bool
        ensures { result ≡ takes_values command.now (chosen_of self.entry) }
    {
        let all = self.switches.all;
        implies(self.switches.existing, command == "set" && !all)
            && implies(all, matches!(command, "get" | "set" | "sections"))
            && implies(self.section.is_some(), command == "set" && all)
    }

    // Whether the command takes the choices that are about what is written: how, and into which file.
    fn suit_writing(self, command: &str) -> bool
        ensures { result ≡ takes_writing command.now (chosen_of self.entry) }
    {
        self.suit_layout(command) && self.suit_saving(command)
    }

    // Whether the command takes the choices that are about a layout.
    fn suit_layout(self, command: &str) -> bool
        ensures { result ≡ takes_layout command.now (chosen_of self.entry) }
    {
        implies(
            self.switches.check || self.switches.align || self.spacing.is_chosen(),
            command == "format",
        )
    }

    // Whether the command takes the choices that are about the text that it makes.
    fn suit_texts(self, command: &str) -> bool
        ensures { result ≡ takes_of_texts command.now (chosen_of self.entry) }
    {
        implies(self.switches.dry_run, !answers(command))
            && implies(self.switches.side.is_some(), command == "merge3")
            && implies(self.switches.reverse, command == "apply")
            && self.suit_settings(command)
            && self.suit_answer(command)
    }

    // Whether the command takes the choices that are about what is compared.
    fn suit_settings(self, command: &str) -> bool
        ensures { result ≡ takes_settings command.now (chosen_of self.entry) }
    {
        implies(self.switches.lists, compares(command))
            && implies(
                self.switches.comments,
                command == "diff" && self.manner.form.is_none(),
            )
    }

    // Whether the command takes the choices that are about the manner in which an answer is told.
    fn suit_answer(self, command: &str) -> bool
        ensures { result ≡ takes_manner command.now (chosen_of self.entry) }
    {
        implies(self.manner.kind.is_some(), command == "get")
            && implies(self.switches.last, command == "get" && !self.switches.all)
            && implies(self.switches.origin, tells_places(command))
            && implies(self.manner.color.is_some(), command == "diff")
            && self.suit_form(command)
    }

    // Whether the command takes the form that is chosen with the other choices.
    fn suit_form(self, command: &str) -> bool
        ensures { result ≡ takes_form command.now (chosen_of self.entry) self.entry.manner.form }
    {
        match self.manner.form {
            Some(form) => {
                form.is_of(command)
                    && !(self.switches.null || self.switches.origin || self.manner.kind.is_some())
            }
            None => true,
        }
    }

    // Whether the command takes the choices that are about a file that is written.
    fn suit_saving(self, command: &str) -> bool
        ensures { result ≡ takes_saving command.now (chosen_of self.entry) }
    {
        implies(
            self.switches.are_of_saving() || self.wait.is_some(),
            !goes_out(command) || self.output.is_some(),
        ) && are_seconds(self.wait)
    }
}

// Whether the word, if there is one, is a number of seconds: one to nine decimal digits.
fn are_seconds(wait: Option<&str>) -> bool
    ensures { result ≡ are_seconds (option_map (λ text. text.now) wait.entry) }
{
    match wait {
        Some(text) => is_short_number(text),
        None => true,
    }
}

/// Whether the word is one to nine decimal digits.
pub(crate) fn is_short_number(word: &str) -> bool
    ensures { result ≡ is_short_number word.now }
{
    0 < word.len() && word.len() < 10 && has_digits_alone(word.as_bytes())
}

// Whether each byte is a decimal digit.
fn has_digits_alone(bytes: &[u8]) -> bool
    ensures { result ≡ has_digits_alone bytes.now }
{
    let others = bytes.iter().filter(|byte| !byte.is_ascii_digit());
    others.count() == 0
}

/// Whether no word begins with `--`.
pub(crate) fn have_no_option(words: &[String]) -> bool
    ensures { result ≡ have_no_option (map string_bytes words.now) }
{
    let options = words
        .iter()
        .filter(|word| word.as_str().as_bytes().starts_with(b"--"));
    options.count() == 0
}

// Whether what may be chosen in its place alone is chosen nowhere else.
fn implies(chosen: bool, place: bool) -> bool
    ensures { result ≡ (not chosen || place) }
{
    !chosen || place
}

// Whether the command may write separators, where what it writes has new lines of pairs or not.
fn may_separate(command: &str, has_none: bool) -> bool
    ensures { result ≡ (writes_pairs command.now && not has_none) }
{
    writes_pairs(command) && !has_none
}

// Whether the command compares files, or makes the changes between them.
fn compares(command: &str) -> bool
    ensures { result ≡ compares command.now }
{
    matches!(command, "diff" | "apply" | "merge3")
}

// Whether the command may tell where pairs are.
fn tells_places(command: &str) -> bool
    ensures { result ≡ tells_places command.now }
{
    matches!(command, "list" | "layers")
}

// Whether the command may write NUL after names, keys and values, where it tells where pairs are or not.
fn may_be_null(command: &str, origin: bool) -> bool
    ensures { result ≡ may_be_null command.now origin }
{
    writes_texts(command) || (command == "layers" && origin)
}

/// Whether the command writes separators: in new lines of pairs, or in each.
pub(crate) fn writes_pairs(command: &str) -> bool
    ensures { result ≡ writes_pairs command.now }
{
    matches!(command, "set" | "add" | "rewrite" | "format" | "layers")
}

/// Whether the command writes names, keys or values of the document.
pub(crate) fn writes_texts(command: &str) -> bool
    ensures { result ≡ writes_texts command.now }
{
    matches!(command, "get" | "keys" | "sections" | "list")
}

/// Whether the command makes nothing that belongs into a file: it tells something of files, or lays them over
/// each other.
pub(crate) fn answers(command: &str) -> bool
    ensures { result ≡ answers command.now }
{
    writes_texts(command) || command == "diff" || command == "layers"
}

/// Whether what the command makes goes to standard output, where no file is named for it.
pub(crate) fn goes_out(command: &str) -> bool
    ensures { result ≡ goes_out command.now }
{
    answers(command) || command == "merge3"
}
