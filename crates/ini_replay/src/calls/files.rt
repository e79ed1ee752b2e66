//! Loading from files and saving into files, by each form, again and again, and what a loaded document finds.
//!
//! A question is `FORM TIMES PATH`: the file is loaded, or a small document saved into it, by the form. The
//! answer is the question, and the number of sections or the refusal. The form `found` tells how many
//! numbers below TIMES are keys of the file, and how many are sections.

use ini::{Error, EscapePolicy, Ini, ParseOption, WriteOption};
use std::alloc::Global;
use std::path::Path;
use std::rt::Files;

// Loads the file by the form.
fn load<R: Files>(rt: &R, alloc: Global, form: &str, path: Path<'_>) -> Result<Ini, Error> {
    match form {
        "load_from_file" => Ini::load_from_file(rt, alloc, path),
        "load_from_file_noescape" => Ini::load_from_file_noescape(rt, alloc, path),
        _ => Ini::load_from_file_opt(rt, alloc, path, ParseOption::default()),
    }
}

// Saves the document by the form, where it is one of saving.
fn save<R: Files>(rt: &R, document: &Ini, form: &str, path: Path<'_>) -> Result<(), Error> {
    match form {
        "write_to_file" => document.write_to_file(rt, path),
        "write_to_file_policy" => {
            document.write_to_file_policy(rt, path, EscapePolicy::Everything)
        }
        "write_to_file_opt" => document.write_to_file_opt(rt, path, WriteOption::default()),
        _ => Ok(()),
    }
}

// How many of the numbers below that are keys of the general section, and how many are sections.
fn found(alloc: Global, document: &Ini, numbers: usize) -> Result<(usize, usize), Error> {
    let mut keys: usize = 0;
    let mut sections: usize = 0;
    for number in 0..numbers {
        let name = format!(in alloc; "{number}")?;
        if document.get_from(None, &name).is_some() {
            keys = keys.wrapping_add(1);
        }
        if document.section(Some(&name)).is_some() {
            sections = sections.wrapping_add(1);
        }
    }
    Ok((keys, sections))
}

// Loads the file, and looks for so many numbers.
fn numbers_found<R: Files>(
    rt: &R,
    alloc: Global,
    numbers: usize,
    path: &str,
) -> Result<String, Error> {
    let document = Ini::load_from_file(rt, alloc, Path::new(path))?;
    let (keys, sections) = found(alloc, &document, numbers)?;
    Ok(format!(in alloc; "{keys} keys, {sections} sections")?)
}

// Makes the call of the form so many times. The number of sections, or the last refusal's text.
fn file_calls<R: Files>(
    rt: &R,
    alloc: Global,
    form: &str,
    times: usize,
    path: &str,
) -> Result<String, Error> {
    let mut reported = String::from_str(alloc, "none")?;
    let saved = Ini::load_from_str(alloc, "k = v\n[s]\nj = w\n")?;
    for _ in 0..times {
        let answer = if form.starts_with("load") {
            load(rt, alloc, form, Path::new(path)).map(|document| document.len())
        } else {
            save(rt, &saved, form, Path::new(path)).map(|_| 0)
        };
        reported = match answer {
            Ok(sections) => format!(in alloc; "{sections}")?,
            Err(refusal) => format!(in alloc; "{refusal}")?,
        };
    }
    Ok(reported)
}

/// The answer to a question, without a line end.
pub(crate) fn answer(rt: &HostRuntime, question: &str) -> Result<String, Error> {
    let alloc = rt.alloc();
    let mut words = question.split(' ');
    let form = words.next().unwrap_or("");
    let times = words.next().unwrap_or("").parse().unwrap_or(0);
    let path = words.next().unwrap_or("");
    let reported = match form {
        "found" => numbers_found(rt, alloc, times, path)?,
        _ => file_calls(rt, alloc, form, times, path)?,
    };
    Ok(format!(in alloc; "{question}: {reported}")?)
}
