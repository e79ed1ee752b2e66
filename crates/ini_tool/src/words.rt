//! The words of the program: options, a command and its arguments. This file knows no document and no
//! device.
ghost use Rattle.std.specs.Prelude.{◌≡◌, chars, map, string_bytes};
ghost use Rattle.std.specs.Option.{option_map};
ghost use Rattle.ini_words.specs.Words.{default_options};
ghost use Rattle.ini.specs.Texts.{str_name};
ghost use Rattle.ini_tool.specs.Requests.{Del, Get, Set, given_by, request_of};
ghost use Rattle.ini_tool.specs.Words.{asks_of_words, request_for};

use ini_words::{Options, usage_line};

/// The line that tells what the program takes, with its line end.
pub const USAGE: &str = usage_line!(
    "ini_tool",
    "fmt|list|get KEY [SECTION]|set KEY VALUE [SECTION]|del KEY [SECTION]",
);

/// What is asked of the document. Where no section is named it is the general one.
#[derive(Clone, Copy)]
pub enum Question<'a> {
    /// A line for each pair.
    List,
    /// The first value of the key in the first section of the name.
    Get {
        key: &'a str,
        section: Option<&'a str>,
    },
}

/// What the document is written anew with. Where no section is named it is the general one.
#[derive(Clone, Copy)]
pub enum Change<'a> {
    /// The document as it is.
    Fmt,
    /// The document with the value set.
    Set {
        key: &'a str,
        value: &'a str,
        section: Option<&'a str>,
    },
    /// The document without the first pair of the key in the first section of the name.
    Del {
        key: &'a str,
        section: Option<&'a str>,
    },
}

/// What the words ask for.
#[derive(Clone, Copy)]
pub enum Command<'a> {
    /// Something of the document.
    Ask(Question<'a>),
    /// The document, written anew.
    Write(Change<'a>),
}

// The command `get`.
fn get<'a>(key: &'a str, section: Option<&'a str>) -> Command<'a>
    ensures { request_of result ≡ Get (chars key.now) (str_name section.entry) }
{
    Command::Ask(Question::Get { key, section })
}

// The command `set`.
fn set<'a>(key: &'a str, value: &'a str, section: Option<&'a str>) -> Command<'a>
    ensures { request_of result ≡ Set (chars key.now) (chars value.now) (str_name section.entry) }
{
    Command::Write(Change::Set {
        key,
        value,
        section,
    })
}

// The command `del`.
fn del<'a>(key: &'a str, section: Option<&'a str>) -> Command<'a>
    ensures { request_of result ≡ Del (chars key.now) (str_name section.entry) }
{
    Command::Write(Change::Del { key, section })
}

// The command of a word and its arguments.
fn command_of<'a>(word: &'a str, arguments: &'a [String]) -> Option<Command<'a>>
    ensures { option_map request_of result ≡ request_for word.now (map string_bytes arguments.now) }
{
    match arguments {
        [] => match word {
            "fmt" => Some(Command::Write(Change::Fmt)),
            "list" => Some(Command::Ask(Question::List)),
            _ => None,
        },
        [key] => match word {
            "get" => Some(get(key, None)),
            "del" => Some(del(key, None)),
            _ => None,
        },
        [key, next] => match word {
            "get" => Some(get(key, Some(next))),
            "del" => Some(del(key, Some(next))),
            "set" => Some(set(key, next, None)),
            _ => None,
        },
        [key, value, section] => match word {
            "set" => Some(set(key, value, Some(section))),
            _ => None,
        },
        _ => None,
    }
}

/// The options and the command that the words are, if they are the program's: options in any order, each as
/// often as one likes, of which the last `--policy` holds, and then a command and its arguments. Takes no
/// memory.
pub fn parse(words: &[String]) -> Option<(Options, Command<'_>)>
    ensures { given_by result ≡ asks_of_words default_options (map string_bytes words.now) }
{
    let (options, following) = Options::of_words(words)?;
    let (command, arguments) = following.split_first()?;
    Some((options, command_of(command.as_str(), arguments)?))
}
