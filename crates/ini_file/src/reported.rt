//! Which traps a check reports. This file knows the words that choose them, and no text.
ghost use Rattle.std.specs.Prelude.{◌≡◌, if◌then◌else◌, map, string_bytes};
ghost use Rattle.ini_file.specs.CheckWords.{covers, is_reported, is_right_by, names_several, names_traps};
ghost use Rattle.ini_file.specs.CheckWords.{reporter_of, reports};

use ini_check::{Level, Trap};
use ini_dialect::{CaseRule, Lookup, SectionRule, ValueRule};

/// Whether a name is one of traps: a trap's own, a level's, or `all`.
pub fn names_traps(name: &str) -> bool
    ensures { result ≡ names_traps name.now }
{
    names_several(name) || Trap::of_name(name).is_some()
}

// Whether a name is a level's, or `all`.
fn names_several(name: &str) -> bool
    ensures { result ≡ names_several name.now }
{
    matches!(name, "all" | "loses-data" | "surprises")
}

/// What a check reports.
#[derive(Clone, Copy)]
pub struct Reporting<'a> {
    /// The rule by which values count.
    pub rule: Lookup,
    /// The words after the command.
    pub choices: &'a [String],
}

impl Reporting<'_> {
    /// Whether the trap is reported: each is, but for what is right by the rule and for what `--allow` names,
    /// where no later `--deny` names it. What stands from `--` on chooses nothing.
    pub fn reports(self, trap: Trap) -> bool
        ensures { result ≡ reports (reporter_of self.entry) trap }
    {
        let is_so = !is_right_by(self.rule, trap);
        is_reported(trap, is_so, self.choices)
    }
}

// Whether what the trap is about is right by the rule.
fn is_right_by(rule: Lookup, trap: Trap) -> bool
    ensures { result ≡ is_right_by rule trap }
{
    let is_joined = matches!(rule.sections, SectionRule::Joined);
    let is_last = matches!(rule.values, ValueRule::Last);
    let is_ignored = matches!(rule.case, CaseRule::Ignored);
    match trap {
        Trap::RepeatedSection => is_joined,
        Trap::SectionCase => is_joined && is_ignored,
        Trap::RepeatedKey => is_last,
        Trap::KeyCase => is_last && is_ignored,
        _ => false,
    }
}

// Whether words report the trap that is, or isn't, reported before them.
fn is_reported(trap: Trap, before: bool, choices: &[String]) -> bool
    ensures { result ≡ is_reported trap before (map string_bytes choices.now) }
{
    let mut is_so = before;
    let mut rest = choices;
    'words: while let Some((word, after)) = rest.split_first() {
        let word = word.as_str();
        if word == "--" {
            return is_so;
        }
        if word == "--allow" || word == "--deny" {
            let Some((name, after)) = after.split_first() else {
                return is_so;
            };
            is_so = chosen(covers(name.as_str(), trap), word == "--deny", is_so);
            rest = after;
        } else {
            rest = after;
        }
    }
    is_so
}

// What holds where words may choose something else.
fn chosen(is_chosen: bool, choice: bool, before: bool) -> bool
    ensures { result ≡ (if is_chosen then choice else before) }
{
    if is_chosen { choice } else { before }
}

// Whether a name is the trap's, its level's, or `all`.
fn covers(name: &str, trap: Trap) -> bool
    ensures { result ≡ covers name.now trap }
{
    name == trap.name() || name == trap.level().name() || name == "all"
}
