//! Keys, notes and comments of each length, so that what ends them is met at each distance.
use super::text_edits::show::loaded;
use ini::Error;
use std::alloc::Global;
use std::process::Abort;
use std::test::Fail;

/// What stands for the marks `%`, `~`, `!`, `$` and `^` of a row.
type Parts<'a> = (&'a str, &'a str, &'a str, &'a str, &'a str);

/// The letters of the options, a text, and what loading it shows.
type Row = (&'static str, &'static str, &'static str);

/// The text with the parts in place of the marks.
fn filled(
    alloc: Global,
    text: &str,
    (run, one, other, end, place): Parts<'_>,
) -> Result<String, Error> {
    let mut out = String::new(alloc);
    for c in text.chars() {
        match c {
            '%' => out.push_str(run)?,
            '~' => out.push_str(one)?,
            '!' => out.push_str(other)?,
            '$' => out.push_str(end)?,
            '^' => out.push_str(place)?,
            c => out.push(c)?,
        }
    }
    Ok(out)
}

/// Whether the filled text shows what the row says.
fn is_shown(alloc: Global, (letters, text, want): Row, parts: Parts<'_>) -> Result<bool, Error> {
    let text = filled(alloc, text, parts)?;
    let want = filled(alloc, want, parts)?;
    Ok(loaded(alloc, letters, &text)? == want)
}

/// Asks each row.
fn expect(rt: &(impl Abort + AllocGlobal), rows: &[Row], parts: Parts<'_>) -> Result<(), Fail> {
    let (run, _, _, _, _) = parts;
    for row in rows {
        let is_shown = is_shown(rt.alloc(), *row, parts)?;
        let (_, text, _) = *row;
        assert!(rt; is_shown, "{text} {run}");
    }
    Ok(())
}

/// Of a key that is written as `~%` and read as `!%`: refused at a line end, read where a separator follows,
/// and going on over the line end where keys run on. The refusal at LF tells the place `$`, and the one at CR
/// `^`.
const KEYS: &[Row] = &[
    (
        "qel",
        "~%\nk=v\n# many more characters than are tested together\n",
        "NoSeparator at $",
    ),
    (
        "qel",
        "~%\rk=v\n# many more characters than are tested together\n",
        "NoSeparator at ^",
    ),
    (
        "qel",
        "~% = v\n#k=v\n# many more characters than are tested together\n",
        "general <!%|v>",
    ),
    (
        "qe",
        "~% = v\n#k=v\n# many more characters than are tested together\n",
        "general <!%|v>",
    ),
    (
        "qe",
        "~%\nk=v\n# many more characters than are tested together\n",
        "general <!%\nk|v>",
    ),
];

/// Of a key alone.
const KEYS_ALONE: &[Row] = &[
    ("qea", "~%\n", "general <!%|>"),
    (
        "qea",
        "~% \t\n# many more characters than are tested together\n",
        "general <!%|>",
    ),
    ("qea", "~%\r\n", "general <!%|>"),
    (
        "qea",
        "~% \t\r\n# many more characters than are tested together\n",
        "general <!%|>",
    ),
    ("qea", "~%", "general <!%|>"),
];

/// Fronts of keys, as they are written and read, and the column after CR behind such a front.
const FRONTS: [(&'static str, &'static str, usize); 3] = [
    ("a", "a", 3),
    ("\\t\\x0041", "A", 10),
    ("\t a\\\\", "a\\", 7),
];

#[test]
fn keys_of_each_length(rt: HostRuntime) -> Result<(), Fail> {
    let alloc = rt.alloc();
    for len in 0..41usize {
        let run = "x".repeat(alloc, len)?;
        for (front, value, column) in FRONTS {
            let place = format!(in alloc; "1:{}", len.saturating_add(column))?;
            let parts = (run.as_str(), front, value, "2:1", place.as_str());
            expect(&rt, KEYS, parts)?;
            expect(&rt, KEYS_ALONE, parts)?;
        }
    }
    Ok(())
}

/// Long keys: how often a piece is repeated, and the places of the refusals.
const LONG_KEYS: [(usize, &'static str, &'static str, &'static str); 4] = [
    (10, "ab\\x0041c", "2:1", "1:92"),
    (100, "ab\\x0041c", "2:1", "1:902"),
    (10, "ab\\x0041\\\nc", "12:1", "11:3"),
    (100, "ab\\x0041\\\nc", "102:1", "101:3"),
];

#[test]
fn long_keys_end_with_their_line(rt: HostRuntime) -> Result<(), Fail> {
    let alloc = rt.alloc();
    for (count, piece, at_lf, at_cr) in LONG_KEYS {
        let key = "abAc".repeat(alloc, count)?;
        let written = piece.repeat(alloc, count)?;
        expect(
            &rt,
            KEYS,
            ("", written.as_str(), key.as_str(), at_lf, at_cr),
        )?;
    }
    Ok(())
}

/// Of a text `~%c` before a note `!%` and a line end.
const NOTES: &[Row] = &[
    ("qen", "k=~%c!%$j=\"~%c\"!%$", "general <k|~%c> <j|~%c>"),
    ("qen", "[~%c]!%$k=v!%", "general [~%c] <k|v>"),
    ("qrbn", "[~%c]!%$k=v!%", "general [~%c] <k|v>"),
    ("qean", "~%c!%$\t~%c!%", "general <~%c|> <~%c|>"),
];

/// The first of them without the option: the answer is to be another one.
const UNNOTED: Row = ("qe", "k=~%c!%$j=\"~%c\"!%$", "general <k|~%c> <j|~%c>");

/// Of an indented comment `~%` and a line end.
const COMMENTS: &[Row] = &[
    ("qec", "  ~%$k=v\n", "general <k|v>"),
    ("qemc", "k=a$ ~%$ b$\t~%", "general <k|a\nb>"),
    ("qem", "k=a$ ~%$ b$\t~%", "general <k|a\n~%\nb\n~%>"),
];

/// Asks of notes behind texts, with the run, and that the option alone makes notes of them; and of comments.
fn expect_notes(rt: &(impl Abort + AllocGlobal), run: &str, end: &str) -> Result<(), Fail> {
    for text in ["a", "a;b#", "é;", "x y ", "a\u{a0}#"] {
        for note in [" ;", "\t# n", " \t;=[]\"'\\ ;"] {
            let parts = (run, text, note, end, "");
            expect(rt, NOTES, parts)?;
            assert!(rt; !is_shown(rt.alloc(), UNNOTED, parts)?, "{text}{note}");
        }
    }
    expect(rt, COMMENTS, (run, ";", "", end, ""))?;
    expect(rt, COMMENTS, (run, "#=[é", "", end, ""))
}

#[test]
fn notes_and_comments_of_each_length(rt: HostRuntime) -> Result<(), Fail> {
    for len in 0..41usize {
        let run = "x".repeat(rt.alloc(), len)?;
        for end in ["\n", "\r", "\r\n"] {
            expect_notes(&rt, run.as_str(), end)?;
        }
    }
    Ok(())
}
