//! Laws of the warnings, each the contract of a function that does nothing. They speak of definitions alone.
ghost use Rattle.std.specs.Prelude.{◌≡◌, ◌≢◌, ◌++◌, [], List, chars, false, true};
ghost use Rattle.ini.specs.Texts.{Text};
ghost use Rattle.ini_text.specs.Grammar.Elements.{Element};
ghost use Rattle.ini_text.specs.Grammar.Keys.{Indentation, KeyFront};
ghost use Rattle.ini_text.specs.Grammar.Lines.{Note};
ghost use Rattle.ini_text.specs.Options.ReadOptions.{backslash_of};
ghost use Rattle.ini_text.specs.declared.option.LoneLine.TheVariants.{RunsOn};
ghost use Rattle.ini_text.specs.declared.option.ParseOption.{ParseOption};
ghost use Rattle.ini_check.specs.Traps.Keys.{comment_runs_on, has_bare_line_end, mark_begins_key};
ghost use Rattle.ini_check.specs.Traps.LostLines.{drops_line};
ghost use Rattle.ini_check.specs.Warnings.{AreWarningsOf, nothing_warnings};
ghost use Rattle.ini_check.specs.declared.warning.Warning.{Warning};

use ini_text::ParseOption;

/// A text has one list of warnings.
pub fn one_list(text: &str, read: ParseOption)
    ensures { (ws vs : List Warning) → AreWarningsOf read (chars text.now) ws
        → AreWarningsOf read (chars text.now) vs → ws ≡ vs }
{}

/// Where keys don't run on, backslashes alone join a key's lines, and no line is dropped.
pub fn keys_keep_to_their_lines()
    ensures joined { (o : ParseOption) (b k r key : Text) → o.line_without_separator ≢ RunsOn
        → KeyFront o b k r key → has_bare_line_end (backslash_of o) false k ≡ false }
    ensures dropped { (o : ParseOption) (b s r : Text) → o.line_without_separator ≢ RunsOn
        → Element o b s r [] → drops_line s ≡ false }
{}

/// Where indented comments are on, no comment mark begins a key; nor is warned of such a comment.
pub fn indented_comments_are_meant()
    ensures runs_on { (o : ParseOption) (b k r key : Text) → o.enabled_indented_comment ≡ true
        → KeyFront o b k r key → comment_runs_on k ≡ false }
    ensures begins { (o : ParseOption) (b k r key : Text) → o.enabled_indented_comment ≡ true
        → KeyFront o b k r key → mark_begins_key k ≡ false }
    ensures indented { (b w s r : Text) → Indentation b w → Note s r → nothing_warnings b (w ++ s) ≡ [] }
    ensures after_cr { (b s r : Text) → Note s r → nothing_warnings b s ≡ [] }
{}
