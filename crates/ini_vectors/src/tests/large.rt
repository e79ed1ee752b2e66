//! Large documents, names and texts, past the sizes at which a call might stop: none is reported to be out of
//! memory.
use ini::edits::{Edit, apply};
use ini::{Error, Ini, Properties};
use std::alloc::Global;

/// How many pairs or sections there are.
const MANY: usize = 70_000;

// The number as a name.
fn name(alloc: Global, number: usize) -> Result<String, Error> {
    Ok(format!(in alloc; "{number}")?)
}

// So many pairs of other keys, the first by insertion.
fn many_pairs(alloc: Global) -> Result<Properties, Error> {
    let mut pairs = Properties::new(alloc);
    for number in 0..MANY {
        let key = name(alloc, number)?;
        if number < 1000 {
            pairs.insert(&key, "v")?;
        } else {
            pairs.append(&key, "v")?;
        }
    }
    Ok(pairs)
}

// Whether a copy of so many pairs is as long, and equal.
fn is_cloned(alloc: Global) -> Result<bool, Error> {
    let pairs = many_pairs(alloc)?;
    let copy = pairs.clone()?;
    Ok(copy.len() == MANY && copy == pairs && copy.get("69999") == Some("v"))
}

// How many values of a key are taken out.
fn removed(alloc: Global) -> Result<usize, Error> {
    let mut pairs = Properties::new(alloc);
    for _ in 0..MANY {
        pairs.append("k", "v")?;
    }
    let removed = pairs.remove_all("k")?.count();
    Ok(removed)
}

// Opens so many sections, in turn by each call that may open one.
fn many_sections(alloc: Global) -> Result<Ini, Error> {
    let mut document = Ini::new(alloc)?;
    for number in 0..MANY {
        let name = name(alloc, number)?;
        match number % 4 {
            0 => {
                document.with_section(Some(&name)).set("k", "v")?;
            }
            1 => {
                document.with_section(Some(&name)).add("k", "v")?;
            }
            2 => {
                let (key, value) = (String::from_str(alloc, "k")?, String::from_str(alloc, "v")?);
                document.set_to(Some(&name), key, value)?;
            }
            _ => {
                let section = document
                    .entry(Some(name))
                    .or_insert(Properties::new(alloc))?;
                section.append("k", "v")?;
            }
        }
    }
    Ok(document)
}

// Whether all of them and their pairs are there, in a copy too.
fn has_many_sections(alloc: Global) -> Result<bool, Error> {
    let document = many_sections(alloc)?;
    let copy = document.clone()?;
    let all = document.len() == MANY + 1 && copy.len() == MANY + 1;
    let last = copy.get_from(Some("69999"), "k") == Some("v");
    Ok(all && last && document.get_from(Some("69998"), "k") == Some("v"))
}

// Whether a name, a key and a value of so many bytes are set, written and loaded again.
fn is_kept(alloc: Global, length: usize) -> Result<bool, Error> {
    let long = "x".repeat(alloc, length)?;
    let mut document = Ini::new(alloc)?;
    document.with_section(Some(&long)).set(&long, &long)?;
    let mut bytes: Vec<u8> = Vec::new(alloc);
    document.write_to(&mut bytes)?;
    let back = Ini::read_from(alloc, &mut bytes.as_slice())?;
    Ok(back.get_from(Some(&long), &long) == Some(long.as_str()))
}

// How many edits are made, each of which opens a section.
fn edits_made(alloc: Global, count: usize) -> Result<usize, Error> {
    let mut edits = Vec::new(alloc);
    for number in 0..count {
        let (key, value) = (String::from_str(alloc, "k")?, String::from_str(alloc, "v")?);
        edits.push(Edit::Set(Some(name(alloc, number)?), key, value))?;
    }
    let mut document = Ini::new(alloc)?;
    apply(&mut document, edits.as_slice())?;
    Ok(document.len())
}

#[test]
fn no_size_is_too_large(rt: HostRuntime) {
    let alloc = rt.alloc();
    assert!(rt;
        matches!(is_cloned(alloc), Ok(true)),
        "insert, append, clone"
    );
    assert!(rt; matches!(removed(alloc), Ok(MANY)), "remove_all");
    let has_all = matches!(has_many_sections(alloc), Ok(true));
    assert!(rt; has_all, "set, add, set_to, or_insert, clone");
    for length in [17, 20, 255, 256, 300, 65_535, 65_536, 70_000, 1_100_000] {
        let kept = matches!(is_kept(alloc, length), Ok(true));
        assert!(rt; kept, "{length} bytes");
    }
    for count in [20, 300, MANY] {
        let made = matches!(edits_made(alloc, count), Ok(names) if names == count + 1);
        assert!(rt; made, "{count} edits");
    }
}
