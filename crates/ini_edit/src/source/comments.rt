//! Comments above keys in a text in pieces, and pairs made comments. This file knows sections by their
//! calls.
ghost use Rattle.std.specs.Prelude.{◌≡◌, IfErr, IfOk, OnErr, OnOk, chars};
ghost use Rattle.std.specs.Option.{option_map};
ghost use Rattle.ini.specs.Texts.{str_name, str_text};
ghost use Rattle.ini_edit.specs.Inside.SourceEnds.{IsPairAt};
ghost use Rattle.ini_edit.specs.SourceEditsAt.{IsCommentedAtIndex, RefusesCommentAtIndex, indexed_pair};
ghost use Rattle.ini_edit.specs.SourceEditsComments.{CommentsOut, IsCommentText, RefusesComment};
ghost use Rattle.ini_edit.specs.SourceEditsComments.{RefusesToCommentOut};
ghost use Rattle.ini_edit.specs.SourceEditsComments.{SetsComment, comments_above};
ghost use Rattle.ini_edit.specs.SourcePlaces.{pair_place};

use crate::error::EditError;
use crate::source::Source;
use crate::source::lines::is_comment_text;
use ini_text::WriteOption;
use std::alloc::Global;

impl<'a> Source<'a> {
    /// The comment lines directly above the first pair of a key in the first section of a name, as they
    /// stand, with their marks and line ends; nothing where none stand there. `None` where there is no such
    /// pair.
    pub fn comment_of(&self, name: Option<&str>, key: &str) -> Option<&str>
        ensures { option_map str_text result
            ≡ option_map comments_above (pair_place (str_name name.entry)
            (chars key.now) 0 self.now.sections) }
    {
        let (section, pair) = self.place(name, key, 0)?;
        self.comment_at(section, pair)
    }

    /// Puts comment lines directly above the first pair of a key in the first section of a name, in place of
    /// those that stand there: whether there is such a pair. Each line begins with `;` or `#`, and ends with
    /// LF; the last one gets a line end where it has none. Nothing takes the comments out.
    ///
    /// # Errors
    ///
    /// `Value` where a line isn't a comment, whatever the text is; `NoPlace` where values are multiline, and
    /// without its comment the pair, which is indented, would go on with the value before it; `Text` where
    /// memory is refused. Nothing is changed then.
    pub fn set_comment(
        &mut self,
        alloc: Global,
        write: &WriteOption,
        name: Option<&str>,
        key: &str,
        comment: &str,
    ) -> Result<bool, EditError>
        ensures set { IfOk result (SetsComment self.old.option write.now self.old self.new
            (str_name name.entry)
            (chars key.now) (chars comment.now)) }
        ensures unchanged { OnErr result (self.new ≡ self.old) }
        ensures refused { IfErr result (RefusesComment self.old.option write.now self.old.sections
            (str_name name.entry)
            (chars key.now) (chars comment.now)) }
    {
        if !is_comment_text(comment) {
            return Err(EditError::Value);
        }
        let Some((section, pair)) = self.place(name, key, 0) else {
            return Ok(false);
        };
        self.put_comment(alloc, write, section, pair, comment)?;
        Ok(true)
    }

    // Puts comment lines directly above the pair at the index in the section at the index, in place of those
    // that stand there. Refused, nothing is changed.
    pub(crate) fn put_comment(
        &mut self,
        alloc: Global,
        write: &WriteOption,
        section: usize,
        pair: usize,
        comment: &str,
    ) -> Result<(), EditError>
        requires text { IsCommentText (chars comment.now) }
        requires there { IsPairAt (indexed_pair section pair self.old.sections) self.old.sections section
            pair }
        ensures put { OnOk result (IsCommentedAtIndex self.old.option write.now self.old self.new section
            pair (chars comment.now)) }
        ensures unchanged { OnErr result (self.new ≡ self.old) }
        ensures refused { IfErr result (RefusesCommentAtIndex self.old.option write.now self.old.sections
            section pair (chars comment.now)) }
    {
        let read = self.option;
        let end = self.line_end(write.line_separator);
        let front = self.last_before(section);
        let new = self.sections[section].with_comments(alloc, front, pair, comment, end, read)?;
        let Some(new) = new else {
            return Err(EditError::NoPlace);
        };
        self.sections[section].put_new_end(pair, new);
        Ok(())
    }

    /// Makes the first pair of a key in the first section of a name a comment, each of its lines after `; `:
    /// whether there was such a pair. Every other byte stays.
    ///
    /// # Errors
    ///
    /// `NoPlace` where the pair, its indentation with it, doesn't begin its line, or a CR alone ends that: no
    /// comment may stand there. `Text` where memory is refused. Nothing is changed then.
    pub fn comment_out(
        &mut self,
        alloc: Global,
        name: Option<&str>,
        key: &str,
    ) -> Result<bool, EditError>
        ensures commented { IfOk result (CommentsOut self.old.option self.old self.new (str_name name.entry)
            (chars key.now)) }
        ensures unchanged { OnErr result (self.new ≡ self.old) }
        ensures refused { IfErr result (RefusesToCommentOut self.old.option self.old.sections
            (str_name name.entry)
            (chars key.now)) }
    {
        let read = self.option;
        let Some((section, pair)) = self.place(name, key, 0) else {
            return Ok(false);
        };
        let front = self.last_before(section);
        if self.sections[section].comment_out(alloc, front, pair, read)? {
            return Ok(true);
        }
        Err(EditError::NoPlace)
    }
}
