//! Questions about one text: what it loads as, how it is refused, and what is written of it.
use crate::option::{Options, POLICIES};
use crate::places::places;
use crate::show::{load, loaded};
use crate::token::unreadable;
use ini::{Error, EscapePolicy, Ini, ParseOption, Watched, write_escaped};
use ini_text::{BorrowedItem, Item, Parser};
use std::alloc::Global;

// What the text loads as and, where it is another, what its bytes do. Bytes that are no text load as bytes
// alone.
fn loads(alloc: Global, bytes: &[u8], read: ParseOption) -> Result<String, Error> {
    let mut reader = bytes;
    let by_bytes = loaded(alloc, Ini::read_from_opt(alloc, &mut reader, read))?;
    let Ok(text) = str::from_utf8(bytes) else {
        return Ok(by_bytes);
    };
    let mut answer = load(alloc, text, read)?;
    if answer != by_bytes {
        answer.push_str(", but by bytes ")?;
        answer.push_str(by_bytes.as_str())?;
    }
    Ok(answer)
}

fn refusal(alloc: Global, text: &str, read: ParseOption) -> Result<String, Error> {
    match Ini::load_from_str_opt(alloc, text, read) {
        Ok(_) => Ok(String::from_str(alloc, "loaded")?),
        Err(refused) => Ok(refused.to_string(alloc)?),
    }
}

// What is written of the loaded text by the form that the call names.
fn writes(alloc: Global, call: &str, text: &str, options: &Options) -> Result<String, Error> {
    let document = Ini::load_from_str_opt(alloc, text, options.reading)?;
    let mut taken: Vec<u8> = Vec::new(alloc);
    match call {
        "write_to" => document.write_to(&mut taken)?,
        "write_to_policy" => {
            document.write_to_policy(&mut taken, options.writing().escape_policy)?
        }
        _ => document.write_to_opt(&mut taken, options.writing())?,
    }
    match String::from_utf8(taken) {
        Ok(text) => Ok(text),
        Err(_) => Err(Error::NotUtf8),
    }
}

fn escaped(alloc: Global, text: &str, policy: EscapePolicy) -> Result<String, Error> {
    let mut taken: Vec<u8> = Vec::new(alloc);
    write_escaped(text, policy, &mut Watched::new(&mut taken))?;
    match String::from_utf8(taken) {
        Ok(text) => Ok(text),
        Err(_) => Err(Error::NotUtf8),
    }
}

// The text as every named policy writes it, and all others as it is; else the policy that writes another.
fn escapes(alloc: Global, text: &str, named: &[EscapePolicy]) -> Result<String, Error> {
    let answer = match named.first() {
        Some(policy) => escaped(alloc, text, *policy)?,
        None => String::from_str(alloc, text)?,
    };
    for policy in POLICIES {
        let written = escaped(alloc, text, policy)?;
        let want = if named.contains(&policy) {
            answer.as_str()
        } else {
            text
        };
        if written.as_str() != want {
            return Ok(format!(in alloc; "{policy:?} writes {written}")?);
        }
    }
    Ok(answer)
}

// The characters of the text that the policy escapes.
fn escaped_characters(alloc: Global, text: &str, policy: EscapePolicy) -> Result<String, Error> {
    let mut out = String::new(alloc);
    for c in text.chars() {
        if policy.should_escape(c) {
            out.push(c)?;
        }
    }
    Ok(out)
}

// How many fronts of the text's bytes cut a character. Each is to be refused as no text, and any other
// front to load by its bytes as by its text; else the length of one that doesn't.
fn cut_fronts(alloc: Global, text: &str, read: ParseOption) -> Result<String, Error> {
    let mut cut: usize = 0;
    for (end, _) in text.bytes().enumerate() {
        let mut reader = text.as_bytes().get(..end).unwrap_or(b"");
        let by_bytes = loaded(alloc, Ini::read_from_opt(alloc, &mut reader, read))?;
        let is_as_wanted = match text.get(..end) {
            Some(front) => by_bytes == load(alloc, front, read)?,
            None => {
                cut = cut.saturating_add(1);
                by_bytes.as_str() == "the input is not UTF-8"
            }
        };
        if !is_as_wanted {
            return Ok(format!(in alloc; "{by_bytes} at {end}")?);
        }
    }
    Ok(format!(in alloc; "{cut}")?)
}

// An item in brackets, `end`, or the refusal as it prints.
fn shown(alloc: Global, found: Result<Option<Item>, Error>) -> Result<String, Error> {
    Ok(match found {
        Ok(Some(Item::Header(name))) => format!(in alloc; "[{name}] ")?,
        Ok(Some(Item::Pair(key, value))) => format!(in alloc; "<{key}|{value}> ")?,
        Ok(None) => String::from_str(alloc, "end ")?,
        Err(refusal) => format!(in alloc; "({refusal}) ")?,
    })
}

fn owned(
    alloc: Global,
    found: Result<Option<BorrowedItem<'_>>, Error>,
) -> Result<Option<Item>, Error> {
    match found? {
        Some(item) => Ok(Some(item.into_owned(alloc)?)),
        None => Ok(None),
    }
}

// What a parser answers to four calls. Items that borrow are to be the same.
fn items(alloc: Global, text: &str, read: ParseOption) -> Result<String, Error> {
    let mut out = String::new(alloc);
    let mut parser = Parser::new(alloc, text, read);
    let mut borrowing = Parser::new(alloc, text, read);
    for _ in 0..4u32 {
        let item = shown(alloc, parser.next_item())?;
        let borrowed = shown(alloc, owned(alloc, borrowing.next_borrowed()))?;
        if item != borrowed {
            return Ok(format!(in alloc; "borrowed: {borrowed}")?);
        }
        out.push_str(item.as_str())?;
    }
    Ok(out)
}

fn of_text(alloc: Global, call: &str, text: &str, options: &Options) -> Result<String, Error> {
    let (read, policies) = (options.reading, options.policies.as_slice());
    match call {
        "load_from_str" => loaded(alloc, Ini::load_from_str(alloc, text)),
        "load_from_str_noescape" => loaded(alloc, Ini::load_from_str_noescape(alloc, text)),
        "refuse" => refusal(alloc, text, read),
        "write" | "write_to" | "write_to_policy" => writes(alloc, call, text, options),
        "items" => items(alloc, text, read),
        "places" => places(alloc, text, read),
        "escape" => escapes(alloc, text, policies),
        "write_escaped" => escaped(alloc, text, options.writing().escape_policy),
        "cut_fronts" => cut_fronts(alloc, text, read),
        "should_escape" => { escaped_characters(alloc, text, options.writing().escape_policy) }
        _ => Err(unreadable("no such question")),
    }
}

/// The answer to a question about a text, or about bytes where it is one of reading.
pub fn answer(alloc: Global, call: &str, bytes: &[u8], options: &Options) -> Result<String, Error> {
    let mut reader = bytes;
    match call {
        "load" => loads(alloc, bytes, options.reading),
        "read_from" => loaded(alloc, Ini::read_from(alloc, &mut reader)),
        "read_from_noescape" => loaded(alloc, Ini::read_from_noescape(alloc, &mut reader)),
        "read_from_bom" => {
            loaded(
                alloc,
                Ini::read_from_bom(alloc, &mut reader, options.reading),
            )
        }
        _ => match str::from_utf8(bytes) {
            Ok(text) => of_text(alloc, call, text, options),
            Err(_) => Err(Error::NotUtf8),
        },
    }
}
