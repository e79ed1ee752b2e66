//! Edits under a rule of the sections of a text in pieces. This file knows the edits of pieces by a section's
//! own name.
ghost use Rattle.std.specs.Prelude.{◌≡◌, ◌↔◌, chars, Err, IfErr, IfOk, IsOkUnless, OnErr, OnOk, None, Some};
ghost use Rattle.std.specs.Prelude.{alloc_error};
ghost use Rattle.std.specs.Map.{remove_entry};
ghost use Rattle.ini_multimap.specs.Pairs.{without};
ghost use Rattle.ini.specs.Edits.{first_renamed};
ghost use Rattle.ini.specs.Texts.{name_of, str_name};
ghost use Rattle.ini_text.specs.Laws.Plain.{IsPlainName};
ghost use Rattle.ini_edit.specs.Edited.{IsNameOrMemory};
ghost use Rattle.ini_edit.specs.SourceEdits.{IsNameRenamed};
ghost use Rattle.ini_edit.specs.SourceEditsSet.{IsMemoryRefusal};
ghost use Rattle.ini_edit.specs.Sources.{document_in};
ghost use Rattle.ini_edit.specs.declared.error.EditError.TheVariants as EditErrors;
ghost use Rattle.ini_dialect.specs.Inside.{IsFirstName};
ghost use Rattle.ini_dialect.specs.Lookups.{name_fits};
ghost use Rattle.ini_dialect.specs.SectionEdits.{AreEachMade, AreSectionsDeleted, AreSectionsRenamed};
ghost use Rattle.ini_dialect.specs.SectionEdits.{IsSectionDeleted};
ghost use Rattle.ini_dialect.specs.SectionEdits.{has_fitting, has_named, is_sought, renamed_by};
ghost use Rattle.ini_dialect.specs.SectionEdits.{sections_removed, sections_renamed};
ghost use Rattle.ini_dialect.specs.declared.rule.SectionRule.TheVariants as Sections;

use crate::edit::owned_name;
use crate::rule::{CaseRule, Lookup, SectionRule};
use crate::walk::AnyDocument;
use ini::SectionKey;
use ini_edit::{EditError, Source, SourceSection};
use ini_text::{Error, EscapePolicy, is_plain_name};
use std::alloc::{AllocError, Global};

impl Lookup {
    /// Takes out the first section of the name, where sections are joined each of them, as
    /// `Source::delete_section` takes one out: whether there was one. Takes memory for a copy of the pieces.
    ///
    /// # Errors
    ///
    /// `Memory` where memory is refused. Nothing is changed then.
    pub fn delete_section_in_source(
        self,
        alloc: Global,
        source: &mut Source<'_>,
        name: &str,
    ) -> Result<bool, Error>
        ensures found { IfOk result (λ found. found
            ≡ has_named self (chars name.now) (document_in source.old)) }
        ensures deleted { OnOk result (AreSectionsDeleted self (chars name.now) source.old source.new) }
        ensures option { OnOk result (source.new.option ≡ source.old.option) }
        ensures document { OnOk result (document_in source.new
            ≡ sections_removed self (chars name.now) (document_in source.old)) }
        ensures unchanged { OnErr result (source.new ≡ source.old) }
        ensures only { IsOkUnless result (Error.Memory alloc_error) }
    {
        let mut edited = source.copy(alloc)?;
        let found = self.delete_sections(alloc, &mut edited, name)?;
        source.replace_with(edited);
        Ok(found)
    }

    // Takes these out: whether there was one. Refused, some may be out.
    fn delete_sections(
        self,
        alloc: Global,
        source: &mut Source<'_>,
        name: &str,
    ) -> Result<bool, Error>
        ensures found { IfOk result (λ found. found
            ≡ has_named self (chars name.now) (document_in source.old)) }
        ensures deleted { OnOk result (AreSectionsDeleted self (chars name.now) source.old source.new) }
        ensures option { OnOk result (source.new.option ≡ source.old.option) }
        ensures document { OnOk result (document_in source.new
            ≡ sections_removed self (chars name.now) (document_in source.old)) }
        ensures only { IsOkUnless result (Error.Memory alloc_error) }
    {
        let case = self.case;
        match self.sections {
            SectionRule::First => case.delete_first_section(alloc, source, name),
            SectionRule::Joined => case.delete_each_section(alloc, source, name),
        }
    }

    /// Gives the first section of the name `old`, where sections are joined each of them, the name `new`, as
    /// `Source::rename_section` gives it: whether there was one. Where sections are joined those that have
    /// it already stay as they are written. Takes memory for a copy of the pieces.
    ///
    /// # Errors
    ///
    /// `Name` where the new name isn't plain (`is_plain_name`), whatever the text is; `Text` where memory is
    /// refused. Nothing is changed then.
    pub fn rename_section_in_source(
        self,
        alloc: Global,
        policy: EscapePolicy,
        source: &mut Source<'_>,
        old: &str,
        new: &str,
    ) -> Result<bool, EditError>
        ensures found { IfOk result (λ found. found
            ≡ has_named self (chars old.now) (document_in source.old)) }
        ensures renamed { OnOk result
            (AreSectionsRenamed self policy (chars old.now) (chars new.now) source.old source.new) }
        ensures option { OnOk result (source.new.option ≡ source.old.option) }
        ensures document { OnOk result (document_in source.new
            ≡ sections_renamed self (chars old.now) (chars new.now) (document_in source.old)) }
        ensures unchanged { OnErr result (source.new ≡ source.old) }
        ensures name { (result ≡ Err EditErrors.Name)
            ↔ ¬ IsPlainName source.old.option policy (chars new.now) }
        ensures only { IfErr result IsNameOrMemory }
    {
        if !is_plain_name(new, policy, source.option()) {
            return Err(EditError::Name);
        }
        let mut edited = source.copy(alloc)?;
        let found = self.rename_sections(alloc, policy, &mut edited, old, new)?;
        source.replace_with(edited);
        Ok(found)
    }

    // Gives them the name, which is plain: whether there was one. Refused, some may have it.
    fn rename_sections(
        self,
        alloc: Global,
        policy: EscapePolicy,
        source: &mut Source<'_>,
        old: &str,
        new: &str,
    ) -> Result<bool, EditError>
        requires plain { IsPlainName source.old.option policy (chars new.now) }
        ensures found { IfOk result (λ found. found
            ≡ has_named self (chars old.now) (document_in source.old)) }
        ensures renamed { OnOk result
            (AreSectionsRenamed self policy (chars old.now) (chars new.now) source.old source.new) }
        ensures option { OnOk result (source.new.option ≡ source.old.option) }
        ensures document { OnOk result (document_in source.new
            ≡ sections_renamed self (chars old.now) (chars new.now) (document_in source.old)) }
        ensures only { IfErr result IsMemoryRefusal }
    {
        let case = self.case;
        match self.sections {
            SectionRule::First => case.rename_first_section(alloc, policy, source, old, new),
            SectionRule::Joined => case.rename_each_section(alloc, policy, source, old, new),
        }
    }
}

impl CaseRule {
    // Takes out the first section of the name: whether there was one.
    fn delete_first_section(
        self,
        alloc: Global,
        source: &mut Source<'_>,
        name: &str,
    ) -> Result<bool, Error>
        ensures found { IfOk result (λ found. found
            ≡ has_fitting self (chars name.now) (document_in source.old)) }
        ensures deleted { OnOk result (AreEachMade (λ n. is_sought self (chars name.now) None n)
            IsSectionDeleted Sections.First source.old source.new) }
        ensures option { OnOk result (source.new.option ≡ source.old.option) }
        ensures document { OnOk result (document_in source.new ≡ remove_entry
            (λ n. name_fits self (Some (chars name.now)) n) (document_in source.old)) }
        ensures only { IsOkUnless result (Error.Memory alloc_error) }
    {
        let Some(first) = self.first_name(alloc, source.sections(), name, None)? else {
            return Ok(false);
        };
        source.delete_section(alloc, first.as_str())?;
        Ok(true)
    }

    // Takes out each section of the name: whether there was one. Refused, some may be out.
    fn delete_each_section(
        self,
        alloc: Global,
        source: &mut Source<'_>,
        name: &str,
    ) -> Result<bool, Error>
        ensures found { IfOk result (λ found. found
            ≡ has_fitting self (chars name.now) (document_in source.old)) }
        ensures deleted { OnOk result (AreEachMade (λ n. is_sought self (chars name.now) None n)
            IsSectionDeleted Sections.Joined source.old source.new) }
        ensures option { OnOk result (source.new.option ≡ source.old.option) }
        ensures document { OnOk result (document_in source.new ≡ without
            (λ n. name_fits self (Some (chars name.now)) n) (document_in source.old)) }
        ensures only { IsOkUnless result (Error.Memory alloc_error) }
    {
        let mut found = false;
        'sections: while let Some(first) = self.first_name(alloc, source.sections(), name, None)? {
            source.delete_section(alloc, first.as_str())?;
            found = true;
        }
        Ok(found)
    }

    // Gives the first section of the name the other one, which is plain: whether there was one.
    fn rename_first_section(
        self,
        alloc: Global,
        policy: EscapePolicy,
        source: &mut Source<'_>,
        old: &str,
        new: &str,
    ) -> Result<bool, EditError>
        requires plain { IsPlainName source.old.option policy (chars new.now) }
        ensures found { IfOk result (λ found. found
            ≡ has_fitting self (chars old.now) (document_in source.old)) }
        ensures renamed { OnOk result (AreEachMade (λ n. is_sought self (chars old.now) None n)
            (λ p q n. IsNameRenamed policy p q n (chars new.now)) Sections.First source.old source.new) }
        ensures option { OnOk result (source.new.option ≡ source.old.option) }
        ensures document { OnOk result (document_in source.new ≡ first_renamed
            (λ n. name_fits self (Some (chars old.now)) n) (Some (chars new.now))
            (document_in source.old)) }
        ensures only { IfErr result IsMemoryRefusal }
    {
        let Some(first) = self.first_name(alloc, source.sections(), old, None)? else {
            return Ok(false);
        };
        source.rename_section(alloc, policy, first.as_str(), new)?;
        Ok(true)
    }

    // Gives each section of the name the other one, which is plain: whether there was one. Refused, some may
    // have it.
    fn rename_each_section(
        self,
        alloc: Global,
        policy: EscapePolicy,
        source: &mut Source<'_>,
        old: &str,
        new: &str,
    ) -> Result<bool, EditError>
        requires plain { IsPlainName source.old.option policy (chars new.now) }
        ensures found { IfOk result (λ found. found
            ≡ has_fitting self (chars old.now) (document_in source.old)) }
        ensures renamed { OnOk result
            (AreEachMade (λ n. is_sought self (chars old.now) (Some (chars new.now)) n)
            (λ p q n. IsNameRenamed policy p q n (chars new.now)) Sections.Joined source.old source.new) }
        ensures option { OnOk result (source.new.option ≡ source.old.option) }
        ensures document { OnOk result (document_in source.new ≡ renamed_by Sections.Joined
            (λ n. name_fits self (Some (chars old.now)) n) (chars new.now)
            (document_in source.old)) }
        ensures only { IfErr result IsMemoryRefusal }
    {
        let found = self.has_section(AnyDocument::Source(source), Some(old));
        'sections: while let Some(first) = self.first_name(
            alloc,
            source.sections(),
            old,
            Some(new),
        )? {
            source.rename_section(alloc, policy, first.as_str(), new)?;
        }
        Ok(found)
    }

    // The name of the first section that is sought, copied.
    fn first_name(
        self,
        alloc: Global,
        sections: &[SourceSection<'_>],
        name: &str,
        but: Option<&str>,
    ) -> Result<SectionKey, AllocError>
        ensures { IfOk result (λ first. IsFirstName
            (λ n. is_sought self (chars name.now) (str_name but.entry) n) sections.now (name_of first)) }
    {
        for section in sections {
            let found = section.name();
            if self.seeks(name, but, found) {
                return owned_name(alloc, found);
            }
        }
        Ok(None)
    }

    // Whether a section of this name is sought.
    fn seeks(self, name: &str, but: Option<&str>, found: Option<&str>) -> bool
        ensures { result ≡ is_sought self (chars name.now) (str_name but.entry) (str_name found.entry) }
    {
        let fits = self.names_fit(Some(name), found);
        match but {
            None => fits,
            Some(but) => fits && !CaseRule::Kept.names_fit(Some(but), found),
        }
    }
}
