//! Edits under a rule of the keys of a text in pieces: pairs get another key, or become comments. This file
//! knows the edits of pieces at an index.
ghost use Rattle.std.specs.Prelude.{◌≡◌, ◌↔◌, chars, Err, IfErr, IfOk, OnErr, OnOk, is_some};
ghost use Rattle.ini.specs.Texts.{str_name};
ghost use Rattle.ini_edit.specs.Edited.{IsKeyOrMemory};
ghost use Rattle.ini_edit.specs.Renamed.{IsPlainBareKey};
ghost use Rattle.ini_edit.specs.SourceEditsSet.{IsMemoryRefusal};
ghost use Rattle.ini_edit.specs.Sources.{document_in};
ghost use Rattle.ini_edit.specs.declared.error.EditError.TheVariants as EditErrors;
ghost use Rattle.ini_dialect.specs.Inside.{renamed_at};
ghost use Rattle.ini_dialect.specs.KeyEdits.{AreKeysRenamed, AreRenamedUnder, CommentsOutUnder};
ghost use Rattle.ini_dialect.specs.KeyEdits.{RefusesToCommentOutUnder, keys_renamed};
ghost use Rattle.ini_dialect.specs.Lookups.{value_under};

use crate::rule::Lookup;
use crate::source::PairNumber;
use ini_edit::{EditError, Source, is_plain_bare_key};
use ini_text::EscapePolicy;
use std::alloc::Global;

impl Lookup {
    /// Gives every pair of the key `old`, in the sections of the name that are looked at, the key `new`, as
    /// `Source::rename_key` gives it to one: whether there was one. Takes memory for a copy of the pieces,
    /// and for the pairs' numbers.
    ///
    /// # Errors
    ///
    /// Those of `Source::rename_key`. Nothing is changed then.
    pub fn rename_key_in_source(
        self,
        alloc: Global,
        policy: EscapePolicy,
        source: &mut Source<'_>,
        name: Option<&str>,
        old: &str,
        new: &str,
    ) -> Result<bool, EditError>
        ensures found { IfOk result (λ found. found ≡ is_some
            (value_under self (str_name name.entry) (chars old.now) (document_in source.old))) }
        ensures renamed { OnOk result (AreRenamedUnder self (str_name name.entry) (chars old.now)
            policy (chars new.now) source.old source.new) }
        ensures option { OnOk result (source.new.option ≡ source.old.option) }
        ensures document { OnOk result (document_in source.new ≡ keys_renamed self
            (str_name name.entry) (chars old.now) (chars new.now) (document_in source.old)) }
        ensures unchanged { OnErr result (source.new ≡ source.old) }
        ensures key { (result ≡ Err EditErrors.Key)
            ↔ ¬ IsPlainBareKey source.old.option policy (chars new.now) }
        ensures only { IfErr result IsKeyOrMemory }
    {
        if !is_plain_bare_key(new, policy, source.option()) {
            return Err(EditError::Key);
        }
        let mut edited = source.copy(alloc)?;
        let found = self.rename_keys(alloc, policy, &mut edited, name, old, new)?;
        source.replace_with(edited);
        Ok(found)
    }

    // Gives them the key, which is plain: whether there was one. Refused, some may have it.
    fn rename_keys(
        self,
        alloc: Global,
        policy: EscapePolicy,
        source: &mut Source<'_>,
        name: Option<&str>,
        old: &str,
        new: &str,
    ) -> Result<bool, EditError>
        requires plain { IsPlainBareKey source.old.option policy (chars new.now) }
        ensures found { IfOk result (λ found. found ≡ is_some
            (value_under self (str_name name.entry) (chars old.now) (document_in source.old))) }
        ensures renamed { OnOk result (AreRenamedUnder self (str_name name.entry) (chars old.now)
            policy (chars new.now) source.old source.new) }
        ensures option { OnOk result (source.new.option ≡ source.old.option) }
        ensures document { OnOk result (document_in source.new ≡ keys_renamed self
            (str_name name.entry) (chars old.now) (chars new.now) (document_in source.old)) }
        ensures only { IfErr result IsMemoryRefusal }
    {
        let found = self.find_all_in_source(alloc, source, name, old)?;
        let numbers = found.as_slice();
        rename_each(alloc, policy, source, numbers, new)?;
        Ok(!numbers.is_empty())
    }

    /// Makes the pair from which `get` answers a comment, as `Source::comment_out` makes one: whether there
    /// was such a pair. A look-up may then find another pair of the key.
    ///
    /// # Errors
    ///
    /// Those of `Source::comment_out`. Nothing is changed then.
    pub fn comment_out_in_source(
        self,
        alloc: Global,
        source: &mut Source<'_>,
        name: Option<&str>,
        key: &str,
    ) -> Result<bool, EditError>
        ensures commented { IfOk result (CommentsOutUnder self (str_name name.entry) (chars key.now)
            source.old source.new) }
        ensures unchanged { OnErr result (source.new ≡ source.old) }
        ensures refused { IfErr result (RefusesToCommentOutUnder self (str_name name.entry) (chars key.now)
            source.old) }
    {
        let Some(at) = self.find_in_source(source, name, key) else {
            return Ok(false);
        };
        source.comment_out_at(alloc, at.section, at.pair)
    }
}

// Gives the pairs of these numbers another key, which is plain. Refused, some may have it.
fn rename_each(
    alloc: Global,
    policy: EscapePolicy,
    source: &mut Source<'_>,
    numbers: &[PairNumber],
    key: &str,
) -> Result<(), EditError>
    requires plain { IsPlainBareKey source.old.option policy (chars key.now) }
    ensures renamed { OnOk result (AreKeysRenamed policy (chars key.now) numbers.now source.old source.new) }
    ensures option { OnOk result (source.new.option ≡ source.old.option) }
    ensures document { OnOk result (document_in source.new
        ≡ renamed_at (chars key.now) numbers.now (document_in source.old)) }
    ensures only { IfErr result IsMemoryRefusal }
{
    for at in numbers {
        let PairNumber { section, pair } = *at;
        source.rename_key_at(alloc, policy, section, pair, key)?;
    }
    Ok(())
}
