//! The words of the program in order. Options may stand anywhere before `--`, in their long forms or their
//! short ones; here they come to the front, so that the calls that read them know one order alone. This file
//! knows no document and no device.
ghost use Rattle.std.specs.Prelude.{◌≡◌, ◌≤◌, ◌++◌, ◌∷◌, IfErr, IfOk, OnOk, None, Some, codes, false};
ghost use Rattle.std.specs.Prelude.{is_some, length, map, string_bytes};
ghost use Rattle.std.specs.Option.{option_map};
ghost use Rattle.std.specs.Str.{bytes_eq};
ghost use Rattle.ini_file.specs.Order.{before_section, in_order, no_words, sorted, sorted_of, takes_section};
ghost use Rattle.ini_file.specs.Order.{asks_help, command_of_help, encoding_asked, front_words};
ghost use Rattle.ini_file.specs.Order.{like_words, list_in_order, or_like, sets_all};
ghost use Rattle.ini_file.specs.Order.{with_alone, with_other, with_others, with_text, words_of};
ghost use Rattle.ini_file.specs.UsageErrors.{UnlessMemory};

use crate::spelling::{Kind, is_like_option, kind_of, spelled};
use crate::usage_error::UsageError;
use ini_dialect::Encoding;
use std::alloc::{AllocError, Global};

/// Words that were sorted.
#[derive(Drop)]
pub struct Sorted<'a> {
    /// Options of reading and writing, by their long names, each with its text.
    pub options: Vec<&'a str>,
    /// The choices, in the same way.
    pub choices: Vec<&'a str>,
    /// The section that is named by itself.
    pub section: Option<&'a str>,
    /// The dialect that is named.
    pub like: Option<&'a str>,
    /// The encoding that is named.
    pub encoding: Option<&'a str>,
    /// Whether help is asked for.
    pub help: bool,
    /// The other words, of which the command is the first.
    pub others: Vec<&'a str>,
}

/// Sorts the words.
///
/// # Errors
///
/// The first word that looks like an option and is none, or that is an option without the text that it
/// takes, or with one that it doesn't take; and out of memory.
pub fn sort(alloc: Global, words: &[String]) -> Result<Sorted<'_>, UsageError<'_>>
    ensures sorted { IfOk result (λ s. sorted no_words (map string_bytes words.now) ≡ Some (sorted_of s)) }
    ensures error { IfErr result (UnlessMemory (sorted no_words (map string_bytes words.now) ≡ None)) }
{
    let mut sorted = Sorted::new(alloc);
    let mut rest = words;
    'words: while let Some((word, after)) = rest.split_first() {
        let word = word.as_str();
        if word == "--" {
            sorted.take_all(after)?;
            return Ok(sorted);
        }
        rest = sorted.take(word, after)?;
    }
    Ok(sorted)
}

impl<'a> Sorted<'a> {
    /// Names this dialect where none is named.
    pub fn like_if_none(&mut self, name: Option<&'a str>)
        ensures { sorted_of self.new
            ≡ or_like (option_map (λ name. name.now) name.entry) (sorted_of self.old) }
    {
        if self.like.is_none() {
            self.like = name;
        }
    }

    /// The encoding that is named, if one is; `None` where no encoding has the name.
    pub fn encoding_asked(&self) -> Option<Option<Encoding>>
        ensures { result ≡ encoding_asked (sorted_of self.now) }
    {
        let Some(name) = self.encoding else {
            return Some(None);
        };
        let encoding = Encoding::of_name(name)?;
        Some(Some(encoding))
    }

    /// Whether help is asked for, by an option or a command.
    pub fn asks_help(&self) -> bool
        ensures { result ≡ asks_help (sorted_of self.now) }
    {
        self.help || self.others.first().is_some_and(|word| *word == "help")
    }

    /// The command of which help is asked for; `None` where it is of all.
    pub fn command_of_help(&self) -> Option<&'a str>
        ensures { option_map (λ word. word.now) result ≡ command_of_help (sorted_of self.now) }
    {
        let (command, arguments) = self.others.as_slice().split_first()?;
        if *command == "help" {
            arguments.first().copied()
        } else {
            Some(*command)
        }
    }

    // No words.
    fn new(alloc: Global) -> Sorted<'a>
        ensures { sorted_of result ≡ no_words }
    {
        Sorted {
            options: Vec::new(alloc),
            choices: Vec::new(alloc),
            section: None,
            like: None,
            encoding: None,
            help: false,
            others: Vec::new(alloc),
        }
    }

    // Takes a word that isn't `--`, and the text after it where the word is an option that takes one; and
    // answers the words after that.
    fn take(&mut self, word: &'a str, after: &'a [String]) -> Result<&'a [String], UsageError<'a>>
        requires { bytes_eq word.now (codes "--") ≡ false }
        ensures taken { IfOk result (λ rest.
            sorted (sorted_of self.old) (word.now ∷ map string_bytes after.now)
            ≡ sorted (sorted_of self.new) (map string_bytes rest.now)) }
        ensures no_more { IfOk result (λ rest. length rest.now ≤ length after.now) }
        ensures error { IfErr result (UnlessMemory
            (sorted (sorted_of self.old) (word.now ∷ map string_bytes after.now) ≡ None)) }
    {
        let (name, text) = spelled(word);
        let Some(kind) = kind_of(name) else {
            if is_like_option(word) {
                return Err(UsageError::Unknown(word));
            }
            self.take_other(word)?;
            return Ok(after);
        };
        if !kind.takes_text() {
            if text.is_some() {
                return Err(UsageError::TakesNoText(name));
            }
            self.take_alone(kind, name)?;
            return Ok(after);
        }
        if let Some(text) = text {
            self.take_text(kind, name, text)?;
            return Ok(after);
        }
        let Some((text, rest)) = after.split_first() else {
            return Err(UsageError::NeedsText(name));
        };
        self.take_text(kind, name, text.as_str())?;
        Ok(rest)
    }

    // Takes a word that is no option.
    fn take_other(&mut self, word: &'a str) -> Result<(), AllocError>
        ensures { OnOk result (sorted_of self.new ≡ with_other word.now (sorted_of self.old)) }
    {
        self.others.push(word)?;
        Ok(())
    }

    // Takes an option that stands alone.
    fn take_alone(&mut self, kind: Kind, name: &'a str) -> Result<(), AllocError>
        ensures { OnOk result (sorted_of self.new ≡ with_alone kind name.now (sorted_of self.old)) }
    {
        match kind {
            Kind::Reading => self.options.push(name)?,
            Kind::Choice => self.choices.push(name)?,
            Kind::Help => self.help = true,
            _ => {}
        }
        Ok(())
    }

    // Takes an option with its text.
    fn take_text(&mut self, kind: Kind, name: &'a str, text: &'a str) -> Result<(), AllocError>
        ensures { OnOk result (sorted_of self.new ≡ with_text kind name.now text.now (sorted_of self.old)) }
    {
        match kind {
            Kind::ReadingText => self.options.extend_from_slice(&[name, text])?,
            Kind::ChoiceText => self.choices.extend_from_slice(&[name, text])?,
            Kind::Section => self.section = Some(text),
            Kind::Like => self.like = Some(text),
            Kind::Encoding => self.encoding = Some(text),
            _ => {}
        }
        Ok(())
    }

    // Takes words that are arguments, whatever they begin with.
    fn take_all(&mut self, words: &'a [String]) -> Result<(), AllocError>
        ensures { OnOk result
            (sorted_of self.new ≡ with_others (map string_bytes words.now) (sorted_of self.old)) }
    {
        for word in words {
            self.others.push(word.as_str())?;
        }
        Ok(())
    }
}

/// The words in order. `None` where the command is missing, or where a section is named by itself and the
/// command has none, or more or fewer arguments stand before it.
pub fn in_order(alloc: Global, sorted: &Sorted<'_>) -> Result<Option<Vec<String>>, AllocError>
    ensures { IfOk result (λ words. option_map (λ words. map string_bytes words.items) words
        ≡ in_order (sorted_of sorted.now)) }
{
    let Some((command, arguments)) = sorted.others.as_slice().split_first() else {
        return Ok(None);
    };
    if sets_all(command, sorted.choices.as_slice()) {
        return Ok(Some(in_order_of_list(alloc, sorted, command, arguments)?));
    }
    if !takes_section(command, arguments.len(), sorted.section) {
        return Ok(None);
    }
    let mut words = Vec::new(alloc);
    push_front(alloc, &mut words, sorted)?;
    push_all(alloc, &mut words, &[*command])?;
    push_all(alloc, &mut words, sorted.choices.as_slice())?;
    push_all(alloc, &mut words, &["--"])?;
    push_all(alloc, &mut words, arguments)?;
    if let Some(name) = sorted.section {
        push_all(alloc, &mut words, &[name])?;
    }
    Ok(Some(words))
}

// The words in order of a command with a list of values last, whose section is one of its choices.
fn in_order_of_list(
    alloc: Global,
    sorted: &Sorted<'_>,
    command: &str,
    arguments: &[&str],
) -> Result<Vec<String>, AllocError>
    ensures { IfOk result (λ words. map string_bytes words.items
        ≡ list_in_order (sorted_of sorted.now) command.now (words_of arguments.now)) }
{
    let mut words = Vec::new(alloc);
    push_front(alloc, &mut words, sorted)?;
    push_all(alloc, &mut words, &[command])?;
    push_all(alloc, &mut words, sorted.choices.as_slice())?;
    if let Some(name) = sorted.section {
        push_all(alloc, &mut words, &["--section", name])?;
    }
    push_all(alloc, &mut words, &["--"])?;
    push_all(alloc, &mut words, arguments)?;
    Ok(words)
}

// Whether the command sets a list of values.
fn sets_all(command: &str, choices: &[&str]) -> bool
    ensures { result ≡ sets_all command.now (words_of choices.now) }
{
    command == "set" && choices.iter().filter(|word| **word == "--all").count() > 0
}

// Puts the words last that stand before the command: those that name a dialect, and the options.
#[tactic(auto, unfolding(crate::specs::Order::front_words))]
fn push_front(alloc: Global, words: &mut Vec<String>, sorted: &Sorted<'_>) -> Result<(), AllocError>
    ensures { OnOk result (map string_bytes words.new.items
        ≡ map string_bytes words.old.items ++ front_words (sorted_of sorted.now)) }
{
    push_like(alloc, words, sorted.like)?;
    push_all(alloc, words, sorted.options.as_slice())
}

// Puts the words last that name a dialect, if one is named.
fn push_like(alloc: Global, words: &mut Vec<String>, like: Option<&str>) -> Result<(), AllocError>
    ensures { OnOk result (map string_bytes words.new.items ≡ map string_bytes words.old.items
        ++ like_words (option_map (λ name. name.now) like.entry)) }
{
    match like {
        Some(name) => push_all(alloc, words, &["--like", name]),
        None => Ok(()),
    }
}

// Whether the command with so many arguments takes a section that is named by itself, if one is.
fn takes_section(command: &str, count: usize, section: Option<&str>) -> bool
    ensures { result ≡ takes_section command.now count (is_some section.entry) }
{
    section.is_none() || before_section(command) == Some(count)
}

/// How many arguments stand before the section of a command that has one.
pub fn before_section(command: &str) -> Option<usize>
    ensures { result ≡ before_section command.now }
{
    match command {
        "keys" | "delete-section" | "add-section" => Some(1),
        "get" | "delete" | "unset-all" | "comment" | "uncomment" => Some(2),
        "set" | "add" | "rename-key" => Some(3),
        _ => None,
    }
}

// Puts copies of words last.
fn push_all(alloc: Global, words: &mut Vec<String>, more: &[&str]) -> Result<(), AllocError>
    ensures { OnOk result
        (map string_bytes words.new.items ≡ map string_bytes words.old.items ++ words_of more.now) }
{
    for word in more {
        words.push(String::from_str(alloc, word)?)?;
    }
    Ok(())
}
