//! The words of a check: choices, and files. This file knows no document and no device.
ghost use Rattle.std.specs.Prelude.{◌≡◌, None, map, string_bytes};
ghost use Rattle.std.specs.Option.{option_map};
ghost use Rattle.ini_file.specs.CheckWords.{are_right, check_asked, check_made, checking_of};
ghost use Rattle.ini_file.specs.CheckWords.{files_named, no_check_choice, reporter_of, takes_text};
ghost use Rattle.ini_file.specs.CheckWords.{with_text, with_word};
ghost use Rattle.ini_file.specs.Fronts.{front_of};

use crate::choices::{Switches, have_no_option, is_short_number};
use crate::front::Front;
use crate::report_format::Format;
use crate::reported::{Reporting, names_traps};
use ini::ParseOption;
use ini_words::Options;

/// How a check is made.
#[derive(Clone, Copy)]
pub struct CheckChoices {
    /// The form in which warnings are written.
    pub format: Format,
    /// Whether what is reported is mended, where that makes the file better.
    pub fix: bool,
    /// Whether the dialects are written as which the file can be read, in place of warnings.
    pub suggest: bool,
    /// What is chosen of the way in which a mended file is saved.
    pub switches: Switches,
}

impl CheckChoices {
    // Nothing is chosen.
    fn none() -> CheckChoices
        ensures { result ≡ no_check_choice }
    {
        CheckChoices {
            format: Format::Lines,
            fix: false,
            suggest: false,
            switches: Switches::none(),
        }
    }

    // The choices after a word that stands alone, if it is one.
    fn with_word(self, word: &str) -> Option<CheckChoices>
        ensures { result ≡ with_word word.now self }
    {
        let mut choices = self;
        match word {
            "--null" => choices.format = Format::Null,
            "--fix" => choices.fix = true,
            "--suggest" => choices.suggest = true,
            "--dry-run" | "--in-place" | "--force" | "--verbose" => {
                choices.switches = self.switches.with_switch(word)?;
            }
            _ => return None,
        }
        Some(choices)
    }

    // The choices after a word that a form or a name of traps follows, if it is one. The name chooses
    // nothing here.
    fn with_text(self, word: &str, text: &str) -> Option<CheckChoices>
        ensures { result ≡ with_text word.now text.now self }
    {
        let mut choices = self;
        if word == "--format" {
            choices.format = Format::of_name(text)?;
        } else if !names_traps(text) {
            return None;
        }
        Some(choices)
    }

    // Whether what is about a mended file is chosen only where files are mended, and neither these nor a form
    // of warnings with dialects; `waits` says whether how long others are waited for is.
    fn are_right(self, waits: bool) -> bool
        ensures { result ≡ are_right waits self }
    {
        if self.suggest && (self.fix || !matches!(self.format, Format::Lines)) {
            return false;
        }
        self.fix || !(self.switches.are_of_saving() || self.switches.dry_run || waits)
    }
}

/// What the words of a check are.
#[derive(Clone, Copy)]
pub struct Check<'a> {
    /// How the files are read.
    pub reading: ParseOption,
    /// How the check is made.
    pub made: CheckChoices,
    /// How long a run waits for others that write a file, in seconds.
    pub wait: Option<&'a str>,
    /// Which traps are reported.
    pub reporting: Reporting<'a>,
    /// The files' names, one at least; `-` is standard input.
    pub files: &'a [String],
}

/// What the words check that stand after `check`: choices of its own, `--` or nothing, and one file or more,
/// of which none begins with `--` where that word doesn't stand before it. Of several forms the last holds;
/// of the options before it those of reading count. Takes no memory.
pub fn check_of<'a>(front: Front<'a>) -> Option<Check<'a>>
    ensures { option_map checking_of result ≡ check_asked (front_of front.entry) }
{
    let (rule, choices) = (front.dialect.lookup, front.words);
    let (made, wait, files) = files_of(choices)?;
    let reporting = Reporting { rule, choices };
    check_made(front.options, reporting, made, wait, files)
}

// The check of files, one at least, that is made so.
fn check_made<'a>(
    options: Options,
    reporting: Reporting<'a>,
    made: CheckChoices,
    wait: Option<&'a str>,
    files: &'a [String],
) -> Option<Check<'a>>
    ensures { option_map checking_of result ≡ check_made options (reporter_of reporting.entry) made
        (option_map (λ text. text.now) wait.entry) (map string_bytes files.now) }
{
    if files.is_empty() {
        return None;
    }
    if !made.are_right(wait.is_some()) {
        return None;
    }
    Some(Check {
        reading: options.reading,
        made,
        wait,
        reporting,
        files,
    })
}

// What words choose, and the files that they name.
fn files_of<'a>(words: &'a [String]) -> Option<(CheckChoices, Option<&'a str>, &'a [String])>
    ensures { option_map (λ p. (p.0, option_map (λ text. text.now) p.1, map string_bytes p.2.now)) result
        ≡ files_named no_check_choice None (map string_bytes words.now) }
{
    let mut choices = CheckChoices::none();
    let mut wait: Option<&'a str> = None;
    let mut rest = words;
    'words: while let Some((word, after)) = rest.split_first() {
        let word = word.as_str();
        if word == "--" {
            return Some((choices, wait, after));
        } else if word == "--wait" {
            let (seconds, after) = after.split_first()?;
            let seconds = seconds.as_str();
            if !is_short_number(seconds) {
                return None;
            }
            wait = Some(seconds);
            rest = after;
        } else if takes_text(word) {
            let (text, after) = after.split_first()?;
            choices = choices.with_text(word, text.as_str())?;
            rest = after;
        } else if let Some(changed) = choices.with_word(word) {
            choices = changed;
            rest = after;
        } else if !have_no_option(rest) {
            return None;
        } else {
            return Some((choices, wait, rest));
        }
    }
    None
}

// Whether a form, or a name of traps, follows the choice of this name.
fn takes_text(word: &str) -> bool
    ensures { result ≡ takes_text word.now }
{
    matches!(word, "--format" | "--allow" | "--deny")
}
