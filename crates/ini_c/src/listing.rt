//! Listings: texts one after another in memory, with numbers that tell where each ends. This file knows
//! what of a document is listed, and in which order.
ghost use Rattle.std.specs.Prelude.{◌≡◌, OnOk, IfOk};
ghost use Rattle.std.specs.Str.{chars};
ghost use Rattle.ini.specs.Properties.{values};
ghost use Rattle.ini.specs.Texts.{str_name};
ghost use Rattle.ini_c.specs.Inside.Gathered.{contents};
ghost use Rattle.ini_c.specs.Listings.{document_listed, nothing, pairs_listed, values_listed};
ghost use Rattle.ini_c.specs.Listings.{with_name, with_number, with_pair, with_section, with_text};

use ini::{Ini, Properties};
use std::alloc::{AllocError, Global};

// Stands for the number of bytes of a name, or of a value, where there is none.
pub(crate) const UNNAMED: usize = usize::MAX;

// The bytes of texts, a 0 after each, and the numbers.
#[derive(Drop)]
pub(crate) struct Listing {
    pub(crate) bytes: Vec<u8>,
    pub(crate) counts: Vec<usize>,
}

impl Listing {
    pub(crate) fn new(alloc: Global) -> Listing
        ensures { contents result ≡ nothing }
    {
        Listing {
            bytes: Vec::new(alloc),
            counts: Vec::new(alloc),
        }
    }

    // Puts a text last.
    pub(crate) fn text(&mut self, text: &str) -> Result<(), AllocError>
        ensures { OnOk result (contents self.new ≡ with_text (contents self.old) (chars text.now)) }
    {
        self.bytes.extend_from_slice(text.as_bytes())?;
        self.bytes.push(0)?;
        self.counts.push(text.len())?;
        Ok(())
    }

    // Puts a number last.
    pub(crate) fn number(&mut self, number: usize) -> Result<(), AllocError>
        ensures { OnOk result (contents self.new ≡ with_number (contents self.old) number) }
    {
        self.counts.push(number)?;
        Ok(())
    }

    // Puts a section's name, or a value, last, or that there is none.
    pub(crate) fn name(&mut self, name: Option<&str>) -> Result<(), AllocError>
        ensures { OnOk result (contents self.new ≡ with_name (contents self.old) (str_name name.entry)) }
    {
        match name {
            Some(name) => self.text(name),
            None => self.number(UNNAMED),
        }
    }

    // Puts a pair last.
    pub(crate) fn pair(&mut self, key: &str, value: &str) -> Result<(), AllocError>
        ensures { OnOk result
            (contents self.new ≡ with_pair (contents self.old) (chars key.now, chars value.now)) }
    {
        self.text(key)?;
        self.text(value)
    }

    // Puts a section last.
    fn section(&mut self, name: Option<&str>, section: &Properties) -> Result<(), AllocError>
        ensures { OnOk result
            (contents self.new ≡ with_section (contents self.old) (str_name name.entry, section.now)) }
    {
        self.name(name)?;
        self.number(section.iter().size_hint().0)?;
        for (key, value) in section {
            self.pair(key, value)?;
        }
        Ok(())
    }
}

// All values of the key, in order.
pub(crate) fn list_values(
    alloc: Global,
    section: &Properties,
    key: &str,
) -> Result<Listing, AllocError>
    ensures { IfOk result (λ listing. contents listing ≡ values_listed (values (chars key.now) section.now)) }
{
    let mut listing = Listing::new(alloc);
    for value in section.get_all(key) {
        listing.text(value)?;
    }
    Ok(listing)
}

// All pairs, in order.
pub(crate) fn list_pairs(alloc: Global, section: &Properties) -> Result<Listing, AllocError>
    ensures { IfOk result (λ listing. contents listing ≡ pairs_listed section.now) }
{
    let mut listing = Listing::new(alloc);
    for (key, value) in section {
        listing.pair(key, value)?;
    }
    Ok(listing)
}

// All sections with their pairs, in order.
pub(crate) fn list_document(alloc: Global, document: &Ini) -> Result<Listing, AllocError>
    ensures { IfOk result (λ listing. contents listing ≡ document_listed document.now) }
{
    let mut listing = Listing::new(alloc);
    for (name, section) in document {
        listing.section(name, section)?;
    }
    Ok(listing)
}
