//! A law of refusals, over all texts: a caller whose proof needs it calls it beside the loading.
ghost use Rattle.std.specs.Prelude.{◌++◌};
ghost use Rattle.ini.specs.Loading.{IsStopOf};
ghost use Rattle.ini.specs.Refusals.{IsRefusedAtCharacter};
ghost use Rattle.ini.specs.Texts.{Text};
ghost use Rattle.ini_text.specs.declared.error.ParseError.{ParseError};
ghost use Rattle.ini_text.specs.declared.option.ParseOption.{ParseOption};

use ini_text::laws::readings;

/// A text that is refused at a character is refused the same, whatever follows it: the same kind, line,
/// column and message.
pub fn refusals_stand()
    ensures { (o : ParseOption) (text follows : Text) (fault : ParseError)
        → IsRefusedAtCharacter o text fault → IsStopOf o (text ++ follows) fault }
{
    readings::refusals_stand();
}
