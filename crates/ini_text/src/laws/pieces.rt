//! Laws of texts in pieces: of what an element depends on beside its own source, and that the elements of a
//! text are a list of which a part may be exchanged.
//!
//! Each law goes over all texts, so it takes nothing: a caller whose proof needs it calls it.
ghost use Rattle.std.specs.Prelude.{◌++◌, [], List, ℕ};
ghost use Rattle.ini_text.specs.Grammar.CharacterKinds.{line_feed};
ghost use Rattle.ini_text.specs.Grammar.Elements.{Element, Given};
ghost use Rattle.ini_text.specs.Grammar.Pieces.{ArePieces, Piece, pieces_items, pieces_text};
ghost use Rattle.ini_text.specs.Grammar.Texts.{Derives};
ghost use Rattle.ini_text.specs.Laws.PieceLaws.{Agree, BeginAlike, IsInPieces, MayStandFor};
ghost use Rattle.ini_text.specs.declared.option.ParseOption.{ParseOption};

/// An element stands after each front that agrees with its own, and before each text that begins as what
/// followed it did.
pub fn elements_are_local()
    ensures front { (o : ParseOption) (front other source follows : List ℕ) (gives : List Given)
        → Agree o front other source → Element o front source follows gives
        → Element o other source follows gives }
    ensures follows { (o : ParseOption) (front source follows other : List ℕ) (gives : List Given)
        → BeginAlike follows other → Element o front source follows gives
        → Element o front source other gives }
{}

/// The elements of a text are a list of pieces, and each list of pieces is the elements of its text.
pub fn elements_are_pieces()
    ensures derives { (o : ParseOption) (pieces : List Piece) → ArePieces o line_feed pieces []
        → Derives o (pieces_text pieces) (pieces_items pieces) }
    ensures pieces { (o : ParseOption) (text : List ℕ) (items : List Given) → Derives o text items
        → IsInPieces o text items }
{}

/// A part of a list of pieces may be exchanged for another that may stand for it; the rest stays as it is.
pub fn parts_are_exchanged()
    ensures { (o : ParseOption) (c : ℕ) (before old new rest : List Piece) (r : List ℕ)
        → ArePieces o c (before ++ (old ++ rest)) r → MayStandFor o c before old new rest r
        → ArePieces o c (before ++ (new ++ rest)) r }
{}
