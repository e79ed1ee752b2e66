//! Items put into sections: the last section stands alone until the next one begins.
ghost use Rattle.std.specs.Prelude.{◌≡◌, [], ◌∷◌, ◌++◌, None, Some, chars, alloc_error, IfErr, IfOk};
ghost use Rattle.std.specs.Prelude.{IsOkUnless, OnOk};
ghost use Rattle.std.specs.Str.{IsUtf8};
ghost use Rattle.ini_text.specs.Options.ReadOptions.{default_parse_option};
ghost use Rattle.ini_text.specs.Parsing.ByteOrderMarks.{text_bytes};
ghost use Rattle.ini_text.specs.Parsing.Items.{borrowed_item_of, cow_text};
ghost use Rattle.ini.specs.Documents.{HasGeneral, with_item};
ghost use Rattle.ini.specs.Loading.{IfParse, IsDocumentOf, IsNotUtf8, IsParseOrMemory, IsStopOf};
ghost use Rattle.ini.specs.Loading.{IsTextWith};
ghost use Rattle.ini.specs.Inside.ReadBytes.{IsTextRefusal};

use crate::section::ViewSection;
use crate::text::ViewName;
use crate::view::View;
use ini::{Error, ParseOption, Parser};
use ini_multimap::Multimap;
use ini_text::{BorrowedItem, text_bytes};
use std::alloc::{AllocError, Global};
use std::borrow::CowStr;
use std::marker::Model;
use std::mem;

impl<'a> View<'a> {
    /// The document of a text: what `Ini::load_from_str_opt` answers, without a copy of the text.
    ///
    /// **A mark (U+FEFF) at the text's front is text: the first key begins with it, or a header isn't seen
    /// as one.**
    ///
    /// # Errors
    ///
    /// `Parse` where reading the text stops, with line and column; `Memory` where memory is refused.
    pub fn load_from_str_opt(
        alloc: Global,
        text: &'a str,
        opt: ParseOption,
    ) -> Result<View<'a>, Error>
        ensures document { IfOk result (IsDocumentOf opt (chars text.now)) }
        ensures general { IfOk result HasGeneral }
        ensures fault { IfParse result (IsStopOf opt (chars text.now)) }
        ensures only { IfErr result IsParseOrMemory }
    {
        let mut loading = Loading::new(alloc);
        let mut parser = Parser::new(alloc, text, opt);
        'items: while let Some(item) = parser.next_borrowed()? {
            loading.push_item(item)?;
        }
        loading.finish()
    }
}

impl<'a> View<'a> {
    /// The document of a text, by the default options. The rest is as `load_from_str_opt` has it.
    pub fn load_from_str(alloc: Global, text: &'a str) -> Result<View<'a>, Error>
        ensures document { IfOk result (IsDocumentOf default_parse_option (chars text.now)) }
        ensures general { IfOk result HasGeneral }
        ensures fault { IfParse result (IsStopOf default_parse_option (chars text.now)) }
        ensures only { IfErr result IsParseOrMemory }
    {
        View::load_from_str_opt(alloc, text, ParseOption::default())
    }

    /// The document of bytes. With `drop_mark` one mark (the bytes EF BB BF) at their front is left out, and
    /// places count from after it.
    ///
    /// # Errors
    ///
    /// `NotUtf8` where the bytes are not UTF-8; `Parse` and `Memory` as `load_from_str_opt` has them.
    pub fn load_from_bytes(
        alloc: Global,
        bytes: &'a [u8],
        opt: ParseOption,
        drop_mark: bool,
    ) -> Result<View<'a>, Error>
        ensures document { IfOk result
            (λ view. IsTextWith (λ T. IsDocumentOf opt T view) (text_bytes drop_mark bytes.now)) }
        ensures general { IfOk result HasGeneral }
        ensures fault { IfParse result
            (λ stop. IsTextWith (λ T. IsStopOf opt T stop) (text_bytes drop_mark bytes.now)) }
        ensures not_utf8 { IsNotUtf8 result → ¬ (IsUtf8 (text_bytes drop_mark bytes.now)) }
        ensures no_text { ¬ (IsUtf8 (text_bytes drop_mark bytes.now)) → IsNotUtf8 result }
        ensures only { IfErr result IsTextRefusal }
    {
        match str::from_utf8(text_bytes(bytes, drop_mark)) {
            Ok(text) => View::load_from_str_opt(alloc, text, opt),
            Err(_) => Err(Error::NotUtf8),
        }
    }
}

// A document that has some of its items.
#[derive(Drop)]
struct Loading<'a> {
    alloc: Global,
    sections: Multimap<ViewName<'a>, ViewSection<'a>>,
    name: ViewName<'a>,
    section: ViewSection<'a>,
}

impl<'a> Model for Loading<'a> {
    ghost use Rattle.std.specs.Prelude.{[], ◌∷◌, ◌++◌};
    ghost use Rattle.ini.specs.Documents.{Document};

    ghost Value = { Document };

    ghost view = { λ l. l.sections ++ (l.name, l.section) ∷ [] };
}

impl<'a> Loading<'a> {
    fn new(alloc: Global) -> Self
        ensures { result ≡ (None, []) ∷ [] }
    {
        Loading {
            alloc,
            sections: Multimap::new(alloc),
            name: ViewName::general(),
            section: ViewSection::new(alloc),
        }
    }

    // A header opens a section last, a pair goes last in the last section.
    #[inline(always)]
    fn push_item(&mut self, item: BorrowedItem<'a>) -> Result<(), Error>
        ensures pushed { OnOk result (self.new ≡ with_item self.old (borrowed_item_of item.entry)) }
        ensures only_memory { IsOkUnless result (Error.Memory alloc_error) }
    {
        match item {
            BorrowedItem::Header(name) => self.open(name),
            BorrowedItem::Pair(key, value) => self.section.push(key, value),
        }
    }

    // Opens a section after the last.
    fn open(&mut self, name: CowStr<'a>) -> Result<(), Error>
        ensures opened { OnOk result (self.new ≡ self.old ++ (Some (cow_text name.entry), []) ∷ []) }
        ensures only_memory { IsOkUnless result (Error.Memory alloc_error) }
    {
        self.section.end()?;
        let section = mem::replace(&mut self.section, ViewSection::new(self.alloc));
        let last = mem::replace(&mut self.name, ViewName::new(name));
        match self.sections.append_unindexed(last, section) {
            Ok(()) => Ok(()),
            Err(_) => Err(Error::Memory(AllocError)),
        }
    }

    // The document, which has all its items.
    fn finish(self) -> Result<View<'a>, Error>
        ensures same { IfOk result (λ view. view ≡ self.entry) }
        ensures only_memory { IsOkUnless result (Error.Memory alloc_error) }
    {
        let Loading {
            alloc: _,
            mut sections,
            name,
            mut section,
        } = self;
        section.end()?;
        match sections.append_unindexed(name, section) {
            Ok(()) => {}
            Err(_) => return Err(Error::Memory(AllocError)),
        }
        sections.shrink_to_fit();
        sections.make_index()?;
        Ok(View::of_sections(sections))
    }
}
