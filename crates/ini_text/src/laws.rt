//! Laws of the grammar, each the contract of a function that does nothing. They speak of the definitions
//! alone.
ghost use Rattle.std.specs.Prelude.{◌≡◌, true, ◌++◌, chars};
ghost use Rattle.ini_text.specs.Laws.Readings.{HasOneReading, IsAtCharacter};
ghost use Rattle.ini_text.specs.Laws.Plain.{IsPlainName, IsPlainPair, IsPlainSeparator};
ghost use Rattle.ini_text.specs.Laws.PlainLaws.{FollowsPair, GivesHeaderFirst, IsEmptyOrHeader};
ghost use Rattle.ini_text.specs.Laws.PlainLaws.{IsHeaderLine};
ghost use Rattle.ini_text.specs.Laws.PlainLaws.{IsPairLine, Moves};
ghost use Rattle.ini_text.specs.Grammar.Positions.{is_column_one};
ghost use Rattle.ini_text.specs.Grammar.Texts.{Stops};

use crate::error::ParseKind;
use crate::option::ParseOption;
use crate::write::option::WriteOption;

pub mod pieces;
pub mod readings;

/// A text derives just one list of items, or reading it stops for just one reason at just one place, and
/// never both.
pub fn one_outcome(text: &str, option: ParseOption)
    ensures { HasOneReading option (chars text.now) }
{}

/// Where reading a text stops at a character, and not for the text's end, it stops there too if
/// something else follows.
#[tactic(auto, using(crate::proofs::LawLemmas::OneRefusalLemmas::refusal_stands))]
pub fn refusal_stands(front: &str, follows: &str, other: &str, option: ParseOption, kind: ParseKind)
    requires stops { Stops option (chars front.now ++ chars follows.now) kind (chars front.now) }
    requires at_character { IsAtCharacter option (chars front.now) (chars follows.now) kind }
    ensures { Stops option (chars front.now ++ chars other.now) kind (chars front.now) }
{}

/// After a text that is empty or ends in LF, a text has the outcome that it has alone, moved down.
#[tactic(auto, using(crate::proofs::LawLemmas::MovedLemmas::moved))]
pub fn moved(before: &str, text: &str, option: ParseOption)
    requires line_start { is_column_one (chars before.now) ≡ true }
    ensures { Moves option (chars before.now) (chars text.now) }
{}

/// The items of a text that is empty or begins with an opening bracket begin with a header.
#[tactic(auto, using(crate::proofs::LawLemmas::MovedLemmas::header_first))]
pub fn header_first(text: &str, option: ParseOption)
    requires begins { IsEmptyOrHeader (chars text.now) }
    ensures { GivesHeaderFirst option (chars text.now) }
{}

/// A plain name, written with its line end, once or twice, is a header that gives it, and gaps.
pub fn header_line(
    before: &str,
    name: &str,
    follows: &str,
    write: &WriteOption,
    read: ParseOption,
    twice: bool,
)
    requires plain { IsPlainName read write.now.escape_policy (chars name.now) }
    ensures { IsHeaderLine read write.now twice (chars before.now) (chars name.now) (chars follows.now) }
{}

/// A plain pair, written with its line end, once or twice, is a pair that gives it: in column one, and
/// before nothing, a header or a plain key. Multiline values take the line ends, else they are gaps.
#[tactic(auto, using(crate::proofs::PlainLemmas::PlainPairLemmas::pair_line))]
pub fn pair_line(
    before: &str,
    key: &str,
    value: &str,
    follows: &str,
    write: &WriteOption,
    read: ParseOption,
    twice: bool,
)
    requires column_one { is_column_one (chars before.now) ≡ true }
    requires separator { IsPlainSeparator (chars write.now.kv_separator.now) }
    requires plain { IsPlainPair read write.now.escape_policy (chars key.now) (chars value.now) }
    requires follows { FollowsPair read write.now.escape_policy (chars follows.now) }
    ensures { IsPairLine read write.now twice
        (chars before.now) (chars key.now) (chars value.now) (chars follows.now) }
{}
