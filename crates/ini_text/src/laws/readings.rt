//! Laws of what is read of a text: what stands whatever follows, what stands after whole lines, and what
//! plain names and pairs are read back as.
//!
//! Each law goes over all texts, so it takes nothing: a caller whose proof needs it calls it.
ghost use Rattle.std.specs.Prelude.{◌≡◌, ◌+◌, ◌++◌, ◌∷◌, [], ℕ, Bool, List, chars, count_by, true};
ghost use Rattle.ini_text.specs.Grammar.CharacterKinds.{is_line_feed};
ghost use Rattle.ini_text.specs.Grammar.Elements.{Given, Header, Pair};
ghost use Rattle.ini_text.specs.Grammar.Positions.{is_column_one};
ghost use Rattle.ini_text.specs.Grammar.Texts.{Reads, Stops};
ghost use Rattle.ini_text.specs.Laws.Plain.{IsPlainName, IsPlainPair, IsPlainSeparator};
ghost use Rattle.ini_text.specs.Laws.PlainLaws.{FollowsPair, GivesLine, header_source, line_ends};
ghost use Rattle.ini_text.specs.Laws.PlainLaws.{pair_source};
ghost use Rattle.ini_text.specs.Laws.Readings.{IsAtCharacter};
ghost use Rattle.ini_text.specs.Parsing.Parser.{StopsPast};
ghost use Rattle.ini_text.specs.declared.error.ParseKind.{ParseKind};
ghost use Rattle.ini_text.specs.declared.option.ParseOption.{ParseOption};
ghost use Rattle.ini_text.specs.declared.write.option.WriteOption.{WriteOption};

/// The items that are read up to a character are read there whatever follows that character.
pub fn items_stand()
    ensures { (o : ParseOption) (b c : List ℕ) (items : List Given) (x : ℕ) (follows other : List ℕ)
        → Reads o (c ++ x ∷ follows) b items c → Reads o (c ++ x ∷ other) b items c }
{}

/// Where reading a text stops at a character, and not for the text's end, it stops there too if something
/// else follows.
pub fn refusals_stand()
    ensures { (o : ParseOption) (front follows other : List ℕ) (kind : ParseKind)
        → Stops o (front ++ follows) kind front → IsAtCharacter o front follows kind
        → Stops o (front ++ other) kind front }
{}

/// After a text that is empty or ends in LF, a text is read as it is alone, and where reading it stops is
/// as many lines further down as there are line feeds before it.
pub fn lines_move()
    ensures items { (o : ParseOption) (before text b c : List ℕ) (items : List Given)
        → is_column_one before ≡ true → Reads o text b items c
        → Reads o (before ++ text) (before ++ b) items (before ++ c) }
    ensures stop { (o : ParseOption) (before text b : List ℕ) (kind : ParseKind) (line column : ℕ)
        → is_column_one before ≡ true → StopsPast o text b kind line column
        → StopsPast o (before ++ text) (before ++ b) kind (line + count_by is_line_feed before) column }
{}

/// What is written for a plain name or a plain pair, with one line end or two, is read back as it. A pair
/// stands in column one, and before nothing, a header or a plain key.
pub fn written_lines_are_read_back()
    ensures header { (o : ParseOption) (w : WriteOption) (twice : Bool) (b name r : List ℕ)
        → IsPlainName o w.escape_policy name
        → GivesLine o b (header_source w name ++ line_ends w twice) r (Header name) }
    ensures pair { (o : ParseOption) (w : WriteOption) (twice : Bool) (b key value r : List ℕ)
        → is_column_one b ≡ true → IsPlainSeparator (chars w.kv_separator.now)
        → IsPlainPair o w.escape_policy key value → FollowsPair o w.escape_policy r
        → GivesLine o b (pair_source w key value ++ line_ends w twice) r (Pair key value) }
{}
