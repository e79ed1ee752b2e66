//! What is known of a text that is refused, and of each longer one, by the law of refusals.
ghost use Rattle.std.specs.Prelude.{◌++◌, chars, IfSome};
ghost use Rattle.ini_text.specs.Options.ReadOptions.{default_parse_option};
ghost use Rattle.ini.specs.Loading.{IsStopOf};
ghost use Rattle.ini.specs.Texts.{Text};

use ini::laws::refusals;
use ini::{Error, Ini, ParseError, ParseKind};
use std::alloc::Global;

/// Why a text is refused at a character, if it is: with anything appended it is refused the same.
pub fn refused_at_a_character(alloc: Global, text: &str) -> Option<ParseError>
    ensures { IfSome result (λ fault. (follows : Text)
        → IsStopOf default_parse_option (chars text.now ++ follows) fault) }
{
    refusals::refusals_stand();
    let Err(Error::Parse(fault)) = Ini::load_from_str(alloc, text) else {
        return None;
    };
    match fault.kind {
        ParseKind::EndOfText | ParseKind::CrAlone => None,
        _ => Some(fault),
    }
}
