//! Lists of edits, made on documents and on texts.
use ini::edits::{Edit, apply, edit_text};
use ini::{Error, EscapePolicy, Ini, LineSeparator, ParseOption, Watched, WriteOption};
use std::alloc::{AllocError, Global};
use std::test::Fail;

/// Sections of which two have one name.
const PEERS: &'static str = "[p]\nk=1\n[q]\n[p]\nk=2\n";

/// What is written of them.
const WRITTEN: &'static str = "[p]\nk=1\n[q]\n\n[p]\nk=2\n";

/// Edits of each form, of the key k, and what is written of `PEERS` after those up to each: the call, the
/// section's name, which is empty for the general one, and the value.
const EACH_FORM: [(&'static str, &'static str, &'static str, &'static str); 8] = [
    ("set", "p", "9", "[p]\nk=9\n[q]\n\n[p]\nk=2\n"),
    ("delete", "p", "", "[p]\n[q]\n[p]\n"),
    ("delete_section", "p", "", "[q]\n[p]\n"),
    ("add", "p", "1", "[q]\n[p]\nk=1\n"),
    ("add", "p", "2", "[q]\n[p]\nk=1\nk=2\n"),
    ("delete_from", "p", "", "[q]\n[p]\nk=2\n"),
    ("clear", "", "", ""),
    ("set", "", "v", "k=v\n"),
];

/// The edit that a call is.
fn edit_of(alloc: Global, call: &str, name: &str, value: &str) -> Result<Edit, AllocError> {
    let key = String::from_str(alloc, "k")?;
    let name = match name {
        "" => None,
        name => Some(String::from_str(alloc, name)?),
    };
    let value = String::from_str(alloc, value)?;
    Ok(match call {
        "set" => Edit::Set(name, key, value),
        "add" => Edit::Add(name, key, value),
        "delete" => Edit::Delete(name, key),
        "delete_from" => Edit::DeleteFrom(name, key),
        "delete_section" => Edit::DeleteSection(name),
        _ => Edit::Clear,
    })
}

// Whether edits made on a document of `PEERS`, and on the text after one that is kept, give this text.
fn gives(alloc: Global, edits: &[Edit], want: &str) -> Result<bool, Error> {
    let (read, write) = (ParseOption::default(), WriteOption::default());
    let mut document = Ini::load_from_str(alloc, PEERS)?;
    apply(&mut document, edits)?;
    let mut text: Vec<u8> = Vec::new(alloc);
    document.write_to(&mut text)?;
    let mut bytes = b"; kept\n".to_vec(alloc)?;
    let mut out = Watched::new(&mut bytes);
    edit_text(alloc, PEERS, read, edits, write, &mut out)?;
    let sound = out.failures() == 0 && out.stalls() == 0;
    let all = format!(in alloc; "; kept\n{want}")?;
    Ok(sound && text.as_slice() == want.as_bytes() && bytes.as_slice() == all.as_bytes())
}

#[test]
fn edits_are_made_in_order(rt: HostRuntime) -> Result<(), Fail> {
    let alloc = rt.alloc();
    let mut edits = Vec::new(alloc);
    assert!(rt; gives(alloc, edits.as_slice(), WRITTEN)?);
    for (call, name, value, want) in EACH_FORM {
        edits.push(edit_of(alloc, call, name, value)?)?;
        assert!(rt; gives(alloc, edits.as_slice(), want)?, "{want}");
    }
    Ok(())
}

// What is written of a text that has an edit made on it, by options of each kind.
fn written_by_options(alloc: Global) -> Result<Vec<u8>, Error> {
    let edits = [edit_of(alloc, "set", "", "a:b")?];
    let option = WriteOption {
        escape_policy: EscapePolicy::Reserved,
        line_separator: LineSeparator::CRLF,
        kv_separator: " = ",
    };
    let noescape = ParseOption {
        enabled_escape: false,
        ..ParseOption::default()
    };
    let mut bytes: Vec<u8> = Vec::new(alloc);
    let mut out = Watched::new(&mut bytes);
    edit_text(alloc, r"j=C:\x", noescape, &edits, option, &mut out)?;
    Ok(bytes)
}

// What edits made on a refused text tell, if nothing was written and no device failed.
fn refusal_of(alloc: Global, text: &str, edits: &[Edit]) -> Result<Option<String>, AllocError> {
    let mut bytes = b"; kept\n".to_vec(alloc)?;
    let mut out = Watched::new(&mut bytes);
    let (read, write) = (ParseOption::default(), WriteOption::default());
    let Err(refusal) = edit_text(alloc, text, read, edits, write, &mut out) else {
        return Ok(None);
    };
    let sound = out.failures() == 0 && out.stalls() == 0;
    if !sound || bytes.as_slice() != b"; kept\n".as_slice() {
        return Ok(None);
    }
    Ok(Some(refusal.to_string(alloc)?))
}

#[test]
fn texts_are_edited_by_the_options_or_refused(rt: HostRuntime) -> Result<(), Fail> {
    let alloc = rt.alloc();
    let bytes = written_by_options(alloc)?;
    assert!(rt; bytes.as_slice() == b"j = C\\:\\\\x\r\nk = a\\:b\r\n".as_slice());
    let mut edits = Vec::new(alloc);
    for (call, name, value, _) in EACH_FORM {
        edits.push(edit_of(alloc, call, name, value)?)?;
    }
    for (refused, want) in [("=v", "1:2 missing key"), ("[p", "1:3 expecting")] {
        let told = refusal_of(alloc, refused, edits.as_slice())?.ok_or("no refusal")?;
        assert!(rt; told.as_str().starts_with(want), "{told}");
    }
    Ok(())
}
