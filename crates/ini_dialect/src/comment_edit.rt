//! Comments above the pair that counts under a rule, in a text in pieces. This file knows the edits of pieces
//! at an index.
ghost use Rattle.std.specs.Prelude.{◌≡◌, IfErr, IfNone, IfOk, IfSome, None, OnErr, chars};
ghost use Rattle.ini.specs.Texts.{str_name, str_text};
ghost use Rattle.ini_edit.specs.Sources.{document_in};
ghost use Rattle.ini_dialect.specs.CommentEdits.{RefusesCommentUnder, SetsCommentUnder, StandsAbove};
ghost use Rattle.ini_dialect.specs.Lookups.{value_under};

use crate::rule::Lookup;
use ini_edit::{EditError, Source};
use ini_text::WriteOption;
use std::alloc::Global;

impl Lookup {
    /// The comment lines directly above the pair from which `get` answers, as `Source::comment_of` has them;
    /// `None` where there is no such pair. Takes no memory.
    pub fn comment_of_in_source<'v>(
        self,
        source: &'v Source<'_>,
        name: Option<&str>,
        key: &str,
    ) -> Option<&'v str>
        ensures found { IfSome result (λ above. StandsAbove self (str_name name.entry) (chars key.now)
            source.now (str_text above)) }
        ensures none { IfNone result (value_under self (str_name name.entry) (chars key.now)
            (document_in source.now) ≡ None) }
    {
        let at = self.find_in_source(source, name, key)?;
        source.comment_at(at.section, at.pair)
    }

    /// Puts comment lines directly above the pair from which `get` answers, as `Source::set_comment` puts
    /// them: whether there is such a pair.
    ///
    /// # Errors
    ///
    /// Those of `Source::set_comment`, where there is such a pair. Nothing is changed then.
    pub fn set_comment_in_source(
        self,
        alloc: Global,
        write: &WriteOption,
        source: &mut Source<'_>,
        name: Option<&str>,
        key: &str,
        comment: &str,
    ) -> Result<bool, EditError>
        ensures set { IfOk result (SetsCommentUnder self (str_name name.entry) (chars key.now) write.now
            source.old source.new (chars comment.now)) }
        ensures unchanged { OnErr result (source.new ≡ source.old) }
        ensures refused { IfErr result (RefusesCommentUnder self (str_name name.entry) (chars key.now)
            write.now source.old (chars comment.now)) }
    {
        let Some(at) = self.find_in_source(source, name, key) else {
            return Ok(false);
        };
        source.set_comment_at(alloc, write, at.section, at.pair, comment)
    }
}
