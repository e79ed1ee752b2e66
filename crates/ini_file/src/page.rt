//! What the program tells of itself. This file knows no file.

use crate::commands::Shape;
use crate::spelling::{Kind, kind_of};
use ini_words::Page;
use std::alloc::{AllocError, Global};

/// The version of the program.
pub const VERSION: &str = "0.3.0";

/// The text of a page. No clause says which it is; `tests/files.sh` tests it.
pub fn text_of_page(page: Page) -> &'static str {
    match page {
        Page::Help => HELP,
        Page::Version => "ini_file 0.3.0\n",
    }
}

/// The help of a command: what it takes, and of the program's help the lines that are about it.
pub fn help_of(alloc: Global, shape: Shape) -> Result<String, AllocError> {
    let (command, arguments) = (shape.command, shape.arguments);
    let mut help = format!(in alloc;
        "usage: ini_file [OPTION].. {command} [CHOICE].. [--] {arguments}\n\n"
    )?;
    let mut is_about = false;
    for line in HELP.split_inclusive('\n') {
        if !line.starts_with("   ") {
            is_about = is_about_command(line, shape);
        }
        if is_about {
            help.push_str(line)?;
        }
    }
    help.push_str("\nThe options, of reading and of writing, and the statuses: ini_file --help\n")?;
    Ok(help)
}

// Whether a line of the help is about the command, or about a choice that it takes.
fn is_about_command(line: &str, shape: Shape) -> bool {
    let Some(words) = line.strip_prefix("  ") else {
        return false;
    };
    let word = words.split(' ').next().unwrap_or("");
    word == shape.command || word == "--" || (is_choice(word) && shape.takes(word))
}

// Whether the option is a choice, or a section.
fn is_choice(name: &str) -> bool {
    matches!(
        kind_of(name),
        Some(Kind::Choice | Kind::ChoiceText | Kind::Section)
    )
}

/// The program's help, which is the table of its commands too.
pub const HELP: &str = "\
usage: ini_file [OPTION].. COMMAND [CHOICE].. [--] FILE [ARGUMENT]..

Commands; no SECTION is the general one, FILE - is standard input:
  get FILE KEY [SECTION]                    the first value of the key
  keys FILE [SECTION]                       the keys of the section
  sections FILE                             the names of the sections
  list FILE                                 each pair: [section], key, value
  set FILE KEY VALUE [SECTION]              the key's value, in its place or a new one
  add FILE KEY VALUE [SECTION]              a pair more
  delete FILE KEY [SECTION]                 takes the key's first pair out
  unset-all FILE KEY [SECTION]              takes each pair of the key out
  comment FILE KEY [SECTION]                makes the key's first pair a comment
  uncomment FILE KEY [SECTION]              makes the key's first comment a pair
  add-section FILE SECTION                  an empty section, where there is none
  delete-section FILE SECTION               takes the section out
  rename-key FILE OLD NEW [SECTION]         the key's first pair gets another key
  rename-section FILE OLD NEW               the section gets another name
  merge FILE OTHER ..                       sets in FILE what the others set
  layers FILE ..                            one document of files and folders of
                                            *.conf: the last value of a key counts
  diff FILE OTHER                           each setting whose value differs in OTHER
  apply FILE [EDITS]                        makes the edits that diff wrote in FILE
  merge3 BASE OURS THEIRS                   THEIRS with what OURS changed of BASE
  rewrite FILE                              writes the file anew, without comments
  format FILE ..                            lays each file out; its comments stay
  check FILE ..                             warnings of each file: lines that are
                                            lost, and what may surprise

Options, of reading and of writing:
  --like NAME    files are read, written and looked up as those of a program: auto
                 (what the name tells, else the text) crate (where none is named)
                 git systemd desktop python php mysql samba windows kde supervisor
                 fail2ban aws editorconfig npm qt hg pulseaudio odbc freetds sssd
                 openssl uwsgi xrdp openttd strict (crate, and a line without
                 separator is refused); the other options count on top of it, and
                 INI_LIKE names one too
  --noescape     a backslash begins no escape
  --noquote      quotes are characters like others
  --multiline    a value goes on over indented lines
  --indent       white space before a key belongs to it
  --brackets     brackets may stand in names of sections
  --raw-backslash
                 with --noescape a backslash is a character like any other
  --indented-comments
                 a comment may begin after blanks, among the lines of a value too
  --inline-comments
                 a comment may stand behind a value, after a space or a tab, and
                 behind a section's name
  --lone-lines NAME
                 a line in which no separator follows the key is refused; keys: it is
                 a key alone, with the empty value; runs-on (where none is named): the
                 key goes on over the lines below
  --crlf         written lines end with CR LF
  --policy NAME  which characters are written as escapes
  --encoding NAME
                 how files are encoded that have no byte order mark: utf-8 (where
                 none is named) utf-16le utf-16be latin1 windows1252; each is
                 written as it was

Choices:
  --existing       of set: only where the key is there
  --all            of get: each value of the key, not the first alone; of sections:
                   each header's name, also where it comes again; of set: the key
                   has all VALUEs that follow, and no others; SECTION by -s
  --last           of get: the last value of the key
  --origin         of list: the file and the line before each pair; of layers: its
                   pairs so, in place of the document
  --default VALUE  of get: the value where the key isn't there
  --type NAME      of get: the value as a bool, int, size, float, duration or path,
                   in one form
  --null           of get, keys, sections, list and layers --origin: names, keys and
                   values as they stand, each with NUL after it; so the parts of
                   check's warnings
  --ours           of merge3: ours stands where both changed a setting
  --theirs         of merge3: theirs does
  --separator TEXT of set, add, rewrite, layers and format: what stands between
                   key and value of new lines, or of all; one = or : with spaces and tabs
                   alone around it. format takes the one that most pairs have;
                   keep leaves each as it is
  --indent-pairs N of format: each pair that begins a line stands after N spaces
  --blank-lines N  of format: the most blank lines one after another (1)
  --align          of format: separators of neighbouring pairs stand below each
                   other
  --sort WHAT      of format: keys, sections or both, each with the comments above
  --check          of format: tells which file isn't laid out so, and writes none
  --section NAME   the section, in place of the last word; -s NAME too
  --dry-run        of what writes a file: shows the change, and writes none; -n or
                   --diff too
  --in-place       the file itself is written, not a new one in its place
  --force          a write-protected file is written too
  --wait SECONDS   how long a run waits for others that write the file (10)
  --verbose        a line tells whether the file is changed or unchanged
  --format FORM    of list and get: lines, json, sh (variables, for eval) or, of list,
                   ini; of diff: lines, json, or edits for apply; of check: warnings
                   for programs, as json, sarif or github
  --color WHEN     of diff: auto (on a terminal), always or never
  --lists          of diff, apply and merge3: all values of a key count, as a list,
                   not one of them alone
  --comments       of diff: tells each comment above a key that differs too
  --reverse        of apply: what undoes the edits
  --allow NAME     of check: warnings of this name, as runs-on or surprises or
                   all, aren't reported
  --deny NAME      of check: they are, after a wider --allow
  --fix            of check: mends what is reported and has one mend, in the file
  --suggest        of check: the dialects that read the file, fewest warnings first
  --output FILE    writes this file in place of the other; - is standard output
  --               what follows is an argument, whatever it begins with
Options and choices may stand anywhere before --, with = before their text too.
ini_file COMMAND --help tells of one command; -h too.

Status: 0 done, 1 not found, warnings, differences or conflicts, 2 wrong words
or no diff, 3 a refused text, 4 a fault of a file or of memory. Only with status
0, and with conflicts, is a file changed, but where a line says that it is written.
";
