//! Dialects by name: how the files of a program are read, written and looked up. What each name stands for is
//! said in one table. This file knows no text.
ghost use Rattle.std.specs.Prelude.{◌≡◌, map};
ghost use Rattle.std.specs.Option.{option_map};
ghost use Rattle.ini_dialect.specs.Dialects.{dialect_of, named_shown, presets, shown};

use crate::rule::{CaseRule, Lookup, SectionRule, ValueRule};
use ini_text::{EscapePolicy, LineSeparator, LoneLine, ParseOption, WriteOption};

/// How the files of a program are read, written and looked up.
#[derive(Clone, Drop)]
pub struct Dialect {
    /// How they are read.
    pub read: ParseOption,
    /// How new lines are written, so that the program reads back what was set.
    pub write: WriteOption,
    /// Which sections and values count.
    pub lookup: Lookup,
}

impl Dialect {
    /// The dialect of a name, if there is one.
    pub fn of_name(name: &str) -> Option<&'static Dialect>
        ensures { option_map (λ dialect. shown dialect.now) result ≡ dialect_of name.now }
    {
        let all = dialects();
        for named in all {
            if name == named.name {
                return Some(&named.dialect);
            }
        }
        None
    }
}

/// A dialect with its name.
#[derive(Clone, Drop)]
pub struct NamedDialect {
    /// The name, as users give it.
    pub name: &'static str,
    /// The files that it is for, in a few words.
    pub files: &'static str,
    /// What the name stands for.
    pub dialect: Dialect,
}

/// The dialects, each with its name.
pub fn dialects() -> &'static [NamedDialect]
    ensures { map named_shown result.now ≡ presets }
{
    &DIALECTS
}

// Ways to read: the default one.
const STANDARD: ParseOption = ParseOption {
    enabled_quote: true,
    enabled_escape: true,
    enabled_indented_mutiline_value: false,
    enabled_preserve_key_leading_whitespace: false,
    enabled_brackets_in_section_names: false,
    enabled_raw_backslash: false,
    enabled_indented_comment: false,
    enabled_inline_comment: false,
    line_without_separator: LoneLine::RunsOn,
};

// A line without separator is refused.
const STRICT: ParseOption = ParseOption {
    line_without_separator: LoneLine::Refused,
    ..STANDARD
};

// A line without separator is a key alone.
const KEYED: ParseOption = ParseOption {
    line_without_separator: LoneLine::Key,
    ..STANDARD
};

// The same, and notes may stand behind values.
const KEYED_NOTED: ParseOption = ParseOption {
    enabled_inline_comment: true,
    ..KEYED
};

// Comments may be indented.
const COMMENTED: ParseOption = ParseOption {
    enabled_indented_comment: true,
    ..STANDARD
};

// No escapes; before a line's end a backslash joins lines all the same.
const RAW: ParseOption = ParseOption {
    enabled_escape: false,
    ..STANDARD
};

// The same, and notes may stand behind values.
const RAW_NOTED: ParseOption = ParseOption {
    enabled_inline_comment: true,
    ..RAW
};

// A backslash is a character like any other, before a line's end too.
const LITERAL: ParseOption = ParseOption {
    enabled_raw_backslash: true,
    ..RAW
};

// The same, and a line without separator is a key alone.
const LITERAL_KEYED: ParseOption = ParseOption {
    line_without_separator: LoneLine::Key,
    ..LITERAL
};

// No quotes.
const UNQUOTED: ParseOption = ParseOption {
    enabled_quote: false,
    ..STANDARD
};

// The same, and comments may be indented.
const UNQUOTED_COMMENTED: ParseOption = ParseOption {
    enabled_indented_comment: true,
    ..UNQUOTED
};

// No quotes and no escapes.
const VERBATIM: ParseOption = ParseOption {
    enabled_quote: false,
    ..RAW
};

// The same with brackets in names.
const PATTERNS: ParseOption = ParseOption {
    enabled_brackets_in_section_names: true,
    ..VERBATIM
};

// No quotes, a backslash as any other character, and values of several lines.
const INDENTED: ParseOption = ParseOption {
    enabled_quote: false,
    enabled_indented_mutiline_value: true,
    ..LITERAL
};

// The same, and comments may be indented.
const INDENTED_COMMENTED: ParseOption = ParseOption {
    enabled_indented_comment: true,
    ..INDENTED
};

// In place of that, notes may stand behind values.
const INDENTED_NOTED: ParseOption = ParseOption {
    enabled_inline_comment: true,
    ..INDENTED
};

// Brackets in names.
const BRACKETED: ParseOption = ParseOption {
    enabled_brackets_in_section_names: true,
    ..STANDARD
};

// Rules: the first section and value; the same in any case; all sections joined, and the last value; that in
// any case.
const FIRST: Lookup = Lookup {
    sections: SectionRule::First,
    values: ValueRule::First,
    case: CaseRule::Kept,
};

const FIRST_ANY_CASE: Lookup = Lookup {
    case: CaseRule::Ignored,
    ..FIRST
};

const LAST: Lookup = Lookup {
    sections: SectionRule::Joined,
    values: ValueRule::Last,
    case: CaseRule::Kept,
};

const LAST_ANY_CASE: Lookup = Lookup {
    case: CaseRule::Ignored,
    ..LAST
};

// A row of the table: name, way to read, policy, separator, rule, files. Lines end with LF.
macro_rules! preset {
    ($name:literal, $read:expr, $policy:ident, $separator:literal, $lookup:expr, $files:literal) => {
        preset!($name, $read, $policy, $separator, SystemDefault, $lookup, $files)
    };
    (
        $name:literal,
        $read:expr,
        $policy:ident,
        $separator:literal,
        $line_separator:ident,
        $lookup:expr,
        $files:literal
    ) => {
        NamedDialect {
            name: $name,
            files: $files,
            dialect: Dialect {
                read: $read,
                write: WriteOption {
                    escape_policy: EscapePolicy::$policy,
                    line_separator: LineSeparator::$line_separator,
                    kv_separator: $separator,
                },
                lookup: $lookup,
            },
        }
    };
}

static DIALECTS: [NamedDialect; 26] = [
    preset!(
        "crate",
        STANDARD,
        Basics,
        "=",
        FIRST,
        "files of this library, read by its defaults"
    ),
    preset!(
        "git",
        COMMENTED,
        Basics,
        " = ",
        LAST_ANY_CASE,
        ".gitconfig, .gitmodules"
    ),
    preset!(
        "systemd",
        VERBATIM,
        Nothing,
        "=",
        LAST,
        "units, timers, networks"
    ),
    preset!(
        "desktop",
        UNQUOTED_COMMENTED,
        Basics,
        "=",
        LAST,
        "desktop entries, what GKeyFile reads"
    ),
    preset!(
        "python",
        INDENTED_COMMENTED,
        Nothing,
        " = ",
        LAST_ANY_CASE,
        "setup.cfg, tox.ini, what configparser reads"
    ),
    preset!("php", STANDARD, Nothing, " = ", LAST, "php.ini"),
    preset!("mysql", LITERAL_KEYED, Basics, "=", LAST, "my.cnf"),
    preset!("samba", RAW, Nothing, " = ", LAST_ANY_CASE, "smb.conf"),
    preset!(
        "windows",
        RAW,
        Nothing,
        "=",
        CRLF,
        FIRST_ANY_CASE,
        "desktop.ini, .inf, .url"
    ),
    preset!("kde", BRACKETED, Basics, "=", LAST, "KDE's rc files"),
    preset!(
        "supervisor",
        RAW_NOTED,
        Nothing,
        "=",
        LAST_ANY_CASE,
        "supervisord.conf"
    ),
    preset!(
        "fail2ban",
        INDENTED_NOTED,
        Nothing,
        " = ",
        LAST_ANY_CASE,
        "jail.conf, jail.local"
    ),
    preset!(
        "aws",
        INDENTED,
        Nothing,
        " = ",
        LAST_ANY_CASE,
        ".aws/config, .aws/credentials"
    ),
    preset!(
        "editorconfig",
        PATTERNS,
        Nothing,
        " = ",
        LAST_ANY_CASE,
        ".editorconfig"
    ),
    preset!("npm", RAW, Basics, "=", LAST, ".npmrc"),
    preset!("qt", STANDARD, Basics, "=", LAST, "what QSettings writes"),
    preset!("hg", LITERAL, Nothing, " = ", LAST, ".hgrc"),
    preset!(
        "pulseaudio",
        KEYED,
        Nothing,
        " = ",
        LAST,
        "daemon.conf, client.conf"
    ),
    preset!(
        "odbc",
        COMMENTED,
        Nothing,
        " = ",
        FIRST_ANY_CASE,
        "odbc.ini, odbcinst.ini"
    ),
    preset!(
        "freetds",
        COMMENTED,
        Nothing,
        " = ",
        LAST_ANY_CASE,
        "freetds.conf"
    ),
    preset!("sssd", RAW, Nothing, " = ", LAST, "sssd.conf"),
    preset!("openssl", KEYED_NOTED, Basics, " = ", LAST, "openssl.cnf"),
    preset!("uwsgi", STANDARD, Nothing, " = ", LAST, "uwsgi.ini"),
    preset!("xrdp", STANDARD, Nothing, "=", LAST, "xrdp.ini, sesman.ini"),
    preset!("openttd", UNQUOTED, Nothing, " = ", FIRST, "openttd.cfg"),
    preset!(
        "strict",
        STRICT,
        Basics,
        "=",
        FIRST,
        "the crate's defaults, and a line without separator is refused"
    ),
];
