//! The words of a command over one file: the file, and the command's arguments. This file knows no document
//! and no device.
ghost use Rattle.std.specs.Prelude.{◌≡◌, chars, map, string_bytes};
ghost use Rattle.std.specs.Option.{option_map};
ghost use Rattle.ini.specs.Texts.{str_name};
ghost use Rattle.ini_file.specs.Choices.{chosen_of};
ghost use Rattle.ini_edit.specs.Editings.{editing_of};
ghost use Rattle.ini_file.specs.Fronts.{call_of};
ghost use Rattle.ini_file.specs.Requests.{asks_of, edit_asked, request_of, separator_asked};
ghost use Rattle.ini_file.specs.Words.{asks_of_call, getting, request_for, request_alone, request_of_list};
ghost use Rattle.ini_file.specs.Words.{request_with_one, request_with_three, request_with_two, rule_of};
ghost use Rattle.ini_file.specs.Words.{setting};

use crate::choices::Choices;
use crate::front::Call;
use crate::further::FurtherEdit;
use ini_dialect::{Dialect, Lookup as Rule, ValueRule};
use ini_edit::Edit;
use ini_words::{Options, usage_line};

/// The line that tells what the program takes, with its line end.
pub const USAGE: &str = usage_line!(
    "ini_file [--like NAME] [--encoding NAME]",
    "COMMAND [CHOICE].. [--] FILE [ARGUMENT]..",
);

/// What is asked of the document of a file. Where no section is named it is the general one. With `null` each
/// name, key and value is written as it stands, with NUL after it, and no line.
#[derive(Clone, Copy)]
pub enum Question<'a> {
    /// A line for each pair.
    List {
        null: bool,
    },
    /// A line for each name of a section; with `all` for each section, also where its name comes again.
    Sections {
        rule: Rule,
        null: bool,
        all: bool,
    },
    /// A line for each key of the section that is looked at.
    Keys {
        rule: Rule,
        section: Option<&'a str>,
        null: bool,
    },
    /// The values of a key.
    Get(Wanted<'a>),
}

/// Which values are got of a document.
#[derive(Clone, Copy)]
pub struct Wanted<'a> {
    /// Which of several sections and values counts.
    pub rule: Rule,
    /// The key.
    pub key: &'a str,
    /// The section's name.
    pub section: Option<&'a str>,
    /// Each value of the key, not the one that counts alone.
    pub all: bool,
    /// The value where the key isn't there.
    pub default: Option<&'a str>,
    /// NUL stands after each value, in place of a line feed.
    pub null: bool,
}

/// What is asked of a file.
#[derive(Clone, Copy)]
pub enum Command<'a> {
    /// Its document, written anew in the file's place.
    Rewrite,
    /// Something of its document.
    Ask(Question<'a>),
    /// A change in its text, which keeps every byte that it isn't about.
    Change(Edit<'a>),
    /// So too, but none of `ini_edit`'s list.
    Further(FurtherEdit<'a>),
}

/// What the words of the program are.
#[derive(Clone, Copy)]
pub struct Invocation<'a> {
    /// What is named with `--like`.
    pub dialect: &'static Dialect,
    /// How the file is read and written.
    pub options: Options,
    /// The options after the command.
    pub choices: Choices<'a>,
    /// The file's name.
    pub file: &'a str,
    /// What is asked of the file.
    pub command: Command<'a>,
}

impl<'a> Invocation<'a> {
    /// What stands between key and value of new lines: what is chosen, else as the dialect has it.
    pub fn separator(self) -> &'a str
        ensures { result.now ≡ separator_asked (asks_of self.entry) }
    {
        let (choices, dialect) = (self.choices, self.dialect);
        choices.separator.unwrap_or(dialect.write.kv_separator)
    }

    /// The change in the file's text that is asked for, if one is.
    pub fn edit(self) -> Option<Edit<'a>>
        ensures { option_map editing_of result ≡ edit_asked (request_of self.entry.command) }
    {
        match self.command {
            Command::Change(edit) => Some(edit),
            _ => None,
        }
    }
}

// The command of a word and its arguments.
fn command_of<'a>(
    word: &str,
    rule: Rule,
    choices: Choices<'a>,
    arguments: &'a [String],
) -> Option<Command<'a>>
    ensures { option_map request_of result
        ≡ request_for word.now rule (chosen_of choices.entry) (map string_bytes arguments.now) }
{
    match arguments {
        [] => with_none(word, rule, choices),
        [first] => with_one(word, rule, choices, first.as_str()),
        [first, second] => with_two(word, rule, choices, first.as_str(), second.as_str()),
        [first, second, third] => {
            with_three(
                word,
                choices,
                first.as_str(),
                second.as_str(),
                third.as_str(),
            )
        }
        _ => None,
    }
}

// The command of a word without arguments.
fn with_none<'a>(word: &str, rule: Rule, choices: Choices<'a>) -> Option<Command<'a>>
    ensures { option_map request_of result ≡ request_alone word.now rule (chosen_of choices.entry) }
{
    let null = choices.switches.null;
    match word {
        "rewrite" => Some(Command::Rewrite),
        "list" => Some(Command::Ask(Question::List { null })),
        "sections" => Some(Command::Ask(Question::Sections {
            rule,
            null,
            all: choices.switches.all,
        })),
        "keys" => Some(Command::Ask(Question::Keys {
            rule,
            section: None,
            null,
        })),
        _ => None,
    }
}

// The command `get`.
fn get_of<'a>(
    rule: Rule,
    choices: Choices<'a>,
    key: &'a str,
    section: Option<&'a str>,
) -> Option<Command<'a>>
    ensures { option_map request_of result
        ≡ getting rule (chosen_of choices.entry) (chars key.now) (str_name section.entry) }
{
    Some(Command::Ask(Question::Get(Wanted {
        rule: rule_of(rule, choices.switches.last),
        key,
        section,
        all: choices.switches.all,
        default: choices.default,
        null: choices.switches.null,
    })))
}

// The command of a word with one argument.
fn with_one<'a>(word: &str, rule: Rule, choices: Choices<'a>, first: &'a str) -> Option<Command<'a>>
    ensures { option_map request_of result
        ≡ request_with_one word.now rule (chosen_of choices.entry) (chars first.now) }
{
    let (key, section, null) = (first, Some(first), choices.switches.null);
    match word {
        "get" => get_of(rule, choices, key, None),
        "keys" => Some(Command::Ask(Question::Keys {
            rule,
            section,
            null,
        })),
        "delete" => Some(Command::Change(Edit::Delete { name: None, key })),
        "delete-section" => Some(Command::Change(Edit::DeleteSection { name: first })),
        "unset-all" => Some(Command::Further(FurtherEdit::DeleteAll { name: None, key })),
        "add-section" => Some(Command::Further(FurtherEdit::AddSection { name: first })),
        "comment" => Some(Command::Further(FurtherEdit::CommentOut { name: None, key })),
        "uncomment" => Some(Command::Further(FurtherEdit::Uncomment { name: None, key })),
        _ => None,
    }
}

// The rule, under which the last value counts where that is chosen.
fn rule_of(rule: Rule, last: bool) -> Rule
    ensures { result ≡ rule_of rule last }
{
    if last {
        Rule {
            sections: rule.sections,
            values: ValueRule::Last,
            case: rule.case,
        }
    } else {
        rule
    }
}

// The command of a word with two arguments.
fn with_two<'a>(
    word: &str,
    rule: Rule,
    choices: Choices<'a>,
    key: &'a str,
    second: &'a str,
) -> Option<Command<'a>>
    ensures { option_map request_of result
        ≡ request_with_two word.now rule (chosen_of choices.entry) (chars key.now) (chars second.now) }
{
    let section = Some(second);
    match word {
        "get" => get_of(rule, choices, key, section),
        "delete" => Some(Command::Change(Edit::Delete { name: section, key })),
        "unset-all" => Some(Command::Further(FurtherEdit::DeleteAll { name: section, key })),
        "comment" => Some(Command::Further(FurtherEdit::CommentOut { name: section, key })),
        "uncomment" => Some(Command::Further(FurtherEdit::Uncomment { name: section, key })),
        "set" => set_of(choices, None, key, second),
        "add" => {
            Some(Command::Change(Edit::Add {
                name: None,
                key,
                value: second,
            }))
        }
        "rename-key" => {
            Some(Command::Change(Edit::RenameKey {
                name: None,
                old: key,
                new: second,
            }))
        }
        "rename-section" => {
            Some(Command::Change(Edit::RenameSection {
                old: key,
                new: second,
            }))
        }
        _ => None,
    }
}

// The command of a word with three arguments.
fn with_three<'a>(
    word: &str,
    choices: Choices<'a>,
    key: &'a str,
    value: &'a str,
    section: &'a str,
) -> Option<Command<'a>>
    ensures { option_map request_of result ≡ request_with_three word.now (chosen_of choices.entry)
        (chars key.now) (chars value.now) (chars section.now) }
{
    let name = Some(section);
    match word {
        "set" => set_of(choices, name, key, value),
        "add" => Some(Command::Change(Edit::Add { name, key, value })),
        "rename-key" => {
            Some(Command::Change(Edit::RenameKey {
                name,
                old: key,
                new: value,
            }))
        }
        _ => None,
    }
}

// The command `set`.
fn set_of<'a>(
    choices: Choices<'a>,
    name: Option<&'a str>,
    key: &'a str,
    value: &'a str,
) -> Option<Command<'a>>
    ensures { option_map request_of result ≡ setting (chosen_of choices.entry)
        (str_name name.entry) (chars key.now) (chars value.now) }
{
    let edit = if choices.switches.existing {
        Edit::SetExisting { name, key, value }
    } else {
        Edit::Set { name, key, value }
    };
    Some(Command::Change(edit))
}

// The command `set --all`, of a key and one value at least.
fn set_all_of<'a>(choices: Choices<'a>, arguments: &'a [String]) -> Option<Command<'a>>
    ensures { option_map request_of result
        ≡ request_of_list (chosen_of choices.entry) (map string_bytes arguments.now) }
{
    let (key, values) = arguments.split_first()?;
    if values.is_empty() {
        return None;
    }
    Some(Command::Further(FurtherEdit::SetAll {
        name: choices.section,
        key: key.as_str(),
        values,
    }))
}

/// What a command asks of a file that is called so, if it is one of those: its words are the file's name, and
/// then its arguments. Takes no memory.
pub fn asked_of<'a>(command: &str, call: Call<'a>) -> Option<Invocation<'a>>
    ensures { option_map asks_of result ≡ asks_of_call command.now (call_of call.entry) }
{
    let (file, arguments) = call.words.split_first()?;
    let (dialect, choices) = (call.dialect, call.choices);
    let asked = if choices.switches.all && command == "set" {
        set_all_of(choices, arguments)?
    } else {
        command_of(command, dialect.lookup, choices, arguments)?
    };
    Some(Invocation {
        dialect,
        options: call.options,
        choices,
        file: file.as_str(),
        command: asked,
    })
}
