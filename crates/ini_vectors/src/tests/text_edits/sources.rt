//! Texts that are read once, in pieces: what they show and write, beside documents and the calls over texts.
use super::random::Random;
use super::show::{loaded, options_of, refusal, reported};
use super::source_calls::{Words, made, shown};
use ini::{Error, EscapePolicy, Ini, ParseOption};
use ini_edit::{EditError, Source, SourceContent, rename_key, rename_section, set_existing};
use std::alloc::Global;
use std::test::Fail;

/// Whether the pieces give the text, in memory and to a writer.
fn gives(alloc: Global, source: &Source<'_>, text: &str) -> Result<bool, Error> {
    let mut bytes: Vec<u8> = Vec::new(alloc);
    source.write_to(&mut bytes)?;
    Ok(source.to_text(alloc)?.as_str() == text && bytes.as_slice() == text.as_bytes())
}

/// What the pieces of a text show, if together they are the text; or the text's refusal.
fn read(alloc: Global, letters: &str, text: &str) -> Result<String, Error> {
    match Source::read(alloc, text, options_of(letters)) {
        Ok(source) => {
            if gives(alloc, &source, text)? {
                shown(alloc, &source)
            } else {
                Ok(String::from_str(alloc, "another text")?)
            }
        }
        Err(Error::Parse(fault)) => refusal(alloc, &fault),
        Err(other) => Err(other),
    }
}

/// Whether a section has the same values of a key in the pieces of a text and in its document.
fn values_alike(
    alloc: Global,
    source: &Source<'_>,
    document: &Ini,
    name: Option<&str>,
    key: &str,
) -> Result<bool, Error> {
    let Some(section) = source.section(name) else {
        return Ok(document.section(name).is_none());
    };
    let Some(pairs) = document.section(name) else {
        return Ok(false);
    };
    let values = section.get_all(alloc, key)?;
    let mut rest = values.iter();
    for value in pairs.get_all(key) {
        if rest.next().copied() != Some(value) {
            return Ok(false);
        }
    }
    Ok(rest.next().is_none())
}

/// Whether look-ups in the pieces of a text answer as those in its document do.
fn answers_alike(alloc: Global, letters: &str, text: &str) -> Result<bool, Error> {
    let Ok(source) = Source::read(alloc, text, options_of(letters)) else {
        return Ok(true);
    };
    let document = Ini::load_from_str_opt(alloc, text, options_of(letters))?;
    for name in &[None, Some("a"), Some("b")] {
        for key in &["k", "j", ""] {
            if source.get(*name, *key) != document.get_from(*name, *key)
                || !values_alike(alloc, &source, &document, *name, *key)?
            {
                return Ok(false);
            }
        }
    }
    Ok(true)
}

/// The elements of a text: each with its place, its section, and what it is.
fn elements_of(alloc: Global, text: &str) -> Result<String, Error> {
    let source = Source::read(alloc, text, options_of("qe"))?;
    let mut out = String::new(alloc);
    for element in source.elements() {
        let (line, column) = (element.position.line, element.position.column);
        let section = element.section.unwrap_or("-");
        let what = match element.content {
            SourceContent::Header(header) => header,
            SourceContent::Pair(pair) => pair.key(),
            SourceContent::Between(between) => between,
        };
        out.push_str(format!(in alloc; "{line}:{column} {section} {what:?}, ")?.as_str())?;
    }
    Ok(out)
}

/// Each element stands where it does, in its section, and none is empty.
#[test]
fn elements_have_their_places(rt: HostRuntime) -> Result<(), Fail> {
    let rows = [
        ("", ""),
        ("k=v", "1:1 - \"k\", "),
        (
            "\n [a]\n; c\nk=v\n",
            "1:1 - \"\\n \", 2:2 a \"[a]\", 2:5 a \"\\n; c\\n\", 4:1 a \"k\", 4:4 a \"\\n\", ",
        ),
        (
            "é=\"a\nb\"\nj=1[b]",
            "1:1 - \"é\", 2:3 - \"\\n\", 3:1 - \"j\", ",
        ),
        ("k\n=v\r[b]", "1:1 - \"k\", 2:3 - \"\\r\", 2:4 b \"[b]\", "),
    ];
    for (text, want) in rows {
        let is = elements_of(rt.alloc(), text)?;
        assert!(&rt; is.as_str() == want, "{text}: {is}");
    }
    Ok(())
}

#[test]
fn random_texts_in_pieces(rt: HostRuntime) -> Result<(), Fail> {
    let alloc = rt.alloc();
    let mut random = Random::new(2463534242);
    for _ in 0..2000 {
        let letters = random.letters(alloc)?;
        let text = random.text(alloc)?;
        let (letters, text) = (letters.as_str(), text.as_str());
        let is = read(alloc, letters, text)?;
        assert!(&rt; is == loaded(alloc, letters, text)?, "{text:?} {letters}");
        let alike = answers_alike(alloc, letters, text)?;
        assert!(&rt; alike, "{text:?} {letters}");
    }
    Ok(())
}

/// The new text that the call over a text answers, by its name.
fn over_text(
    alloc: Global,
    text: &str,
    read: ParseOption,
    call: &str,
    value: &str,
) -> Result<Option<String>, EditError> {
    let policy = EscapePolicy::Basics;
    match call {
        "set_existing" => set_existing(alloc, text, read, policy, Some("a"), "k", value),
        "rename_key" => rename_key(alloc, text, read, policy, Some("a"), "k", value),
        _ => rename_section(alloc, text, read, policy, "a", value),
    }
}

/// The words of an edit of `k` in section `a`, with this value or name.
fn edit_of(new: &str) -> Words<'_> {
    Words {
        name: Some("a"),
        key: "k",
        other: new,
        value: new,
        number: 0,
    }
}

/// An edit of the pieces answers as the call over the text does.
#[test]
fn random_edits_in_pieces(rt: HostRuntime) -> Result<(), Fail> {
    let alloc = rt.alloc();
    for (call, state) in [
        ("set_existing", 362436069),
        ("rename_key", 521288629),
        ("rename_section", 521288629),
    ] {
        let mut random = Random::new(state);
        let mut edits: u64 = 0;
        for _ in 0..2000 {
            let letters = random.letters(alloc)?;
            let text = random.text(alloc)?;
            let (text, read) = (text.as_str(), options_of(letters.as_str()));
            let new = random.piece(&[
                "new", "", "x y", "#", " k", "a=b", "n]", "b", "a\\", "it's", "a\"b",
            ]);
            if let Ok(source) = Source::read(alloc, text, read) {
                let mut source = source;
                let is = made(alloc, &mut source, call, edit_of(new))?;
                let want = reported(alloc, over_text(alloc, text, read, call, new))?;
                assert!(&rt; is == want, "{text:?} {letters} {call} {new}");
                if want.as_str() != "none" {
                    edits = edits.wrapping_add(1);
                }
            }
        }
        assert!(&rt; edits > 100, "{call}: {edits}");
    }
    Ok(())
}
