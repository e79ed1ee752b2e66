//! By how many options small documents are plain, and whether they load back by each of those.
use crate::option::POLICIES;
use crate::show::written;
use crate::token::{Token, text_of, unreadable};
use ini::{
    Error, EscapePolicy, Ini, LineSeparator, ParseOption, Properties, SectionEntry, WriteOption,
};
use ini_text::LoneLine;
use std::alloc::{AllocError, Global};

// The set of reading options that seven bits choose, and what becomes of a line without separator by the bits
// above them; brackets in names are off.
fn reading(bits: u16) -> ParseOption {
    ParseOption {
        enabled_quote: bits & 1 != 0,
        enabled_escape: bits & 2 != 0,
        enabled_indented_mutiline_value: bits & 4 != 0,
        enabled_preserve_key_leading_whitespace: bits & 8 != 0,
        enabled_brackets_in_section_names: false,
        enabled_raw_backslash: bits & 16 != 0,
        enabled_indented_comment: bits & 32 != 0,
        enabled_inline_comment: bits & 64 != 0,
        line_without_separator: match bits >> 7 {
            0 => LoneLine::RunsOn,
            1 => LoneLine::Refused,
            _ => LoneLine::Key,
        },
    }
}

// Three ways to write by a policy, with every line end.
fn writing(escape_policy: EscapePolicy) -> [WriteOption; 3] {
    let option = |line_separator, kv_separator| WriteOption {
        escape_policy,
        line_separator,
        kv_separator,
    };
    [
        option(LineSeparator::SystemDefault, "="),
        option(LineSeparator::CR, "\t:"),
        option(LineSeparator::CRLF, " =  "),
    ]
}

// Whether both have the same sections in the same order.
fn are_equal(left: &Ini, right: &Ini) -> bool {
    let mut others = right.iter();
    for (name, pairs) in left {
        let Some((other, other_pairs)) = others.next() else {
            return false;
        };
        if name != other || pairs != other_pairs {
            return false;
        }
    }
    others.next().is_none()
}

/// By how many of the 384 sets of reading options the document is plain. By each of them its text is to load
/// back as it.
pub fn count_plain(alloc: Global, document: &Ini, write: &WriteOption) -> Result<usize, Error> {
    let text = written(alloc, document, write.clone()?)?;
    let mut plain: usize = 0;
    for bits in 0..384 {
        let read = reading(bits);
        if document.is_plain(write, read) {
            let back = Ini::load_from_str_opt(alloc, text.as_str(), read)?;
            if !are_equal(document, &back) {
                return Err(unreadable("a plain document loads as another"));
            }
            plain = plain.saturating_add(1);
        }
    }
    Ok(plain)
}

// The same over all policies.
fn count_all(alloc: Global, document: &Ini) -> Result<usize, Error> {
    let mut plain: usize = 0;
    for escape_policy in POLICIES {
        for write in writing(escape_policy) {
            plain = plain.saturating_add(count_plain(alloc, document, &write)?);
        }
    }
    Ok(plain)
}

// A pair in the general section, and another in a section after it.
fn of_pair(alloc: Global, key: &str, value: &str) -> Result<Ini, Error> {
    let mut document = Ini::new(alloc)?;
    document.with_section(None::<&str>).add(key, value)?;
    document.with_section(Some("a")).add("j", "w")?;
    Ok(document)
}

// A section of the first name with a pair, and after it one of the second with none.
fn of_names(alloc: Global, first: &str, second: &str) -> Result<Ini, Error> {
    let mut document = Ini::new(alloc)?;
    document.with_section(Some(first)).add("k", "v")?;
    let name = Some(String::from_str(alloc, second)?);
    let opened = match document.entry(name) {
        SectionEntry::Occupied(mut entry) => entry.append(Properties::new(alloc)).is_ok(),
        SectionEntry::Vacant(entry) => entry.insert(Properties::new(alloc)).is_ok(),
    };
    if opened {
        Ok(document)
    } else {
        Err(Error::Memory(AllocError))
    }
}

/// The sum of those numbers over the documents of each of the first texts with each of the others: as keys
/// and values, or as names of sections.
pub fn count_over(
    alloc: Global,
    asks: &str,
    firsts: &[Token],
    seconds: &[Token],
) -> Result<String, Error> {
    let mut plain: usize = 0;
    for first in firsts {
        for second in seconds {
            let (first, second) = (text_of(first)?, text_of(second)?);
            let document = match asks {
                "plain_pairs" => of_pair(alloc, first, second)?,
                "plain_names" => of_names(alloc, first, second)?,
                _ => return Err(unreadable("no such question")),
            };
            plain = plain.saturating_add(count_all(alloc, &document)?);
        }
    }
    Ok(format!(in alloc; "{plain}")?)
}
