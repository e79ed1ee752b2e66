//! What the words have at their front: a dialect, the options over its own, a command, and what it is called
//! with. This file knows no command.
ghost use Rattle.std.specs.Prelude.{◌≡◌, map, string_bytes};
ghost use Rattle.std.specs.Option.{option_map};
ghost use Rattle.ini_dialect.specs.Dialects.{shown};
ghost use Rattle.ini_file.specs.Choices.{chosen_of};
ghost use Rattle.ini_file.specs.Ruled.{ruled_call, ruled_of};
ghost use Rattle.ini_file.specs.Fronts.{call_of, call_separator, call_with, called, front_of, fronted};
ghost use Rattle.ini_file.specs.Fronts.{liked, liked_by, options_like};

use crate::choices::Choices;
use crate::ruled::Ruled;
use ini_dialect::Dialect;
use ini_words::Options;

/// What words have at their front.
#[derive(Clone, Copy)]
pub struct Front<'a> {
    /// What is named with `--like`.
    pub dialect: &'static Dialect,
    /// How files are read and written.
    pub options: Options,
    /// The command's name.
    pub command: &'a str,
    /// The words after it.
    pub words: &'a [String],
}

impl<'a> Front<'a> {
    /// What the words have at their front: `--like` and a dialect, or nothing; options of reading and writing
    /// in any order, as `Options::of_words` has them; then a command. `None` where that is missing, or the name
    /// after `--like` or an option is, or is unknown. Takes no memory.
    pub fn of_words(words: &'a [String]) -> Option<Front<'a>>
        ensures { option_map front_of result ≡ fronted (map string_bytes words.now) }
    {
        let (dialect, following) = like_of(words)?;
        let (options, following) = options_like(dialect).with_words(following)?;
        let (command, words) = following.split_first()?;
        Some(Front {
            dialect,
            options,
            command: command.as_str(),
            words,
        })
    }

    /// What the command is called with, where it takes its choices; these are as `Choices::of_words` has
    /// them.
    pub fn call(self) -> Option<Call<'a>>
        ensures { option_map call_of result ≡ called (front_of self.entry) }
    {
        let (choices, words) = Choices::of_words(self.words)?;
        self.call_with(choices, words)
    }

    // The same with these choices.
    fn call_with(self, choices: Choices<'a>, words: &'a [String]) -> Option<Call<'a>>
        ensures { option_map call_of result
            ≡ call_with (front_of self.entry) (chosen_of choices.entry) (map string_bytes words.now) }
    {
        if !choices.apply_to(self.command) {
            return None;
        }
        Some(Call {
            dialect: self.dialect,
            options: self.options,
            choices,
            words,
        })
    }
}

/// What a command is called with.
#[derive(Clone, Copy)]
pub struct Call<'a> {
    /// What is named with `--like`.
    pub dialect: &'static Dialect,
    /// How files are read and written.
    pub options: Options,
    /// The options after the command.
    pub choices: Choices<'a>,
    /// The words after these: files, or a file and arguments; a file that is `-` is standard input.
    pub words: &'a [String],
}

impl<'a> Call<'a> {
    /// What stands between key and value: what is chosen, else as the dialect has it.
    pub fn separator(self) -> &'a str
        ensures { result.now ≡ call_separator (call_of self.entry) }
    {
        let (choices, dialect) = (self.choices, self.dialect);
        choices.separator.unwrap_or(dialect.write.kv_separator)
    }

    /// How the files are read, looked up in and written.
    pub fn ruled(self) -> Ruled<'a>
        ensures { ruled_of result ≡ ruled_call (call_of self.entry) }
    {
        Ruled {
            options: self.options,
            rule: self.dialect.lookup,
            which: self.choices.switches.setting_value(),
            separator: self.separator(),
        }
    }
}

// The dialect that words name at their front, after `--like`, and the words after its name; where they begin
// otherwise the crate's own, and all words. `None` where the name is missing, or is no dialect's.
fn like_of(words: &[String]) -> Option<(&'static Dialect, &[String])>
    ensures { liked_by result ≡ liked (map string_bytes words.now) }
{
    let otherwise = Dialect::of_name("crate")?;
    let Some((word, after)) = words.split_first() else {
        return Some((otherwise, words));
    };
    if word.as_str() != "--like" {
        return Some((otherwise, words));
    }
    let (name, rest) = after.split_first()?;
    let dialect = Dialect::of_name(name.as_str())?;
    Some((dialect, rest))
}

// The options where a dialect is named, and no word sets one.
fn options_like(dialect: &Dialect) -> Options
    ensures { result ≡ options_like (shown dialect.now) }
{
    Options {
        reading: dialect.read,
        escape_policy: dialect.write.escape_policy,
        line_separator: dialect.write.line_separator,
    }
}
