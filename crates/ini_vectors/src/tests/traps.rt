//! Traps of texts, and the nearest texts without them; worked out by hand.
use crate::tests::text_edits::show::options_of;
use ini_check::check;
use ini_text::Error;
use std::alloc::Global;
use std::test::Fail;

// The warnings of a text as places and names.
fn traps(alloc: Global, letters: &str, text: &str) -> Result<String, Error> {
    let mut found = String::new(alloc);
    for warning in &check(alloc, text, options_of(letters))? {
        let (line, column, name) = (warning.line, warning.column, warning.trap.name());
        found.push_str(format!(in alloc; "{line}:{column} {name};")?.as_str())?;
    }
    Ok(found)
}

/// The letters of the options, a text, and its warnings.
type Row = (&'static str, &'static str, &'static str);

/// Lines are lost.
const LOST: &[Row] = &[
    (
        "qe",
        "[server\nport=80\n[client]\n",
        "1:1 unclosed-bracket;",
    ),
    ("qe", "[server]\nport=80\n[client]\n", ""),
    (
        "qe",
        "a = 'tis\nport = 80\nb = dogs'\n",
        "1:5 unclosed-quote;",
    ),
    ("qe", "a = 'tis'\nport = 80\n", ""),
    ("qe", "one\ntwo = 2\n", "1:1 runs-on;"),
    ("qe", "  ; note\nk = v", "1:1 comment-runs-on;"),
    ("qe", "; note\nk = v", ""),
    ("qe", "a=1\n  port 80", "2:1 dropped-line;"),
    ("qe", "a=1\n  port = 80", ""),
    ("qe", "a=1\n  ; port 80", ""),
    ("qe", "; c\rk=v", "1:4 lone-cr;"),
    ("qe", "; c\r\nk=v", ""),
    ("qe", "p=C:\\\nq=1\n", "1:5 joined-line;"),
    ("qe", "p=C:\\\\\nq=1\n", ""),
    ("qe", "k=1\nk=2", "2:1 repeated-key;"),
    ("qe", "[a]\n[a]", "2:1 repeated-section;"),
];

/// Texts surprise.
const SURPRISING: &[Row] = &[
    ("qe", "[a] k=v", "1:5 after-header;"),
    ("qe", "[a]\nk=v", ""),
    ("qe", "[]", "1:1 empty-name;"),
    ("qe", "Port=1\nport=2", "2:1 key-case;"),
    ("qe", "[a]\n[A]", "2:1 section-case;"),
    ("qe", "  #k = v", "1:1 mark-begins-key;"),
    ("qe", "12:30 = job", "1:3 colon-separates;"),
    ("qe", "k: a=b", ""),
    (
        "qe",
        "[C:\\temp]\na\\tb = 1",
        "1:1 escape-in-name;2:1 escape-in-key;",
    ),
    ("qe", "path = C:\\temp", "1:8 escape;"),
    ("qe", "path = C:\\\\temp", ""),
    ("qe", "k = v ; note", "1:5 mark-in-value;"),
    ("qe", "k = 'v ; note'", ""),
    ("qe", "k=\"a\"b", "1:6 text-after-quote;"),
    ("qe", "k=a\"", "1:3 half-quote;"),
    ("qe", "k=\"a\"\nl=don't", ""),
    ("qe", "k=\u{A0}v", "1:4 odd-space;"),
    ("qe", "k= \tv ", ""),
    ("qe", "k = ' a '", "1:1 not-plain;"),
];

/// Lines go on.
const GOING_ON: &[Row] = &[
    ("qem", "k = v\n  port = 80", "2:3 pair-in-value;"),
    ("qem", "k = v\n\n  port = 80", "3:3 pair-in-value;"),
    ("qem", "k = v\n  port 80", ""),
    ("qem", "k =\n  port = 80", ""),
    ("qem", "k = v\n  [b]", "2:3 header-in-value;"),
    ("qem", "k = v\n[b]", ""),
];

/// Options make it right.
const RIGHT: &[Row] = &[
    ("", "[C:\\temp]\npath = C:\\temp\na\\tb = 'tis", ""),
    ("", "p=C:\\\nq=1\n", "1:5 joined-line;"),
    ("qr", "p=C:\\\nq=1\n", ""),
    ("qr", "p=\"C:\\\"\nq=1\n", ""),
];

/// Indented comments are no traps.
const INDENTED: &[Row] = &[
    ("qec", "  ; note\nk = v\n  #k = v\n\t# C:\\temp", ""),
    ("qec", "k=v\r# c\rj=w\r  # d\ri=x", ""),
    ("qec", "; c\rk=v", "1:4 lone-cr;"),
    ("qec", "  \\;k = v", "1:1 not-plain;"),
    ("qec", "one\n  ; c\ntwo = 2", "1:1 runs-on;"),
    ("qec", "k = ; note", "1:5 mark-in-value;"),
    ("qec", "a=1\n  ; c\n  port 80", "3:1 dropped-line;"),
    ("qemc", "k = v\n  ; 'tis C:\\\n  w", ""),
    ("qemc", "k = v\n  ; C:\\temp\n  w", ""),
    ("qemc", "k = v\n  ; c\u{A0}\n", ""),
    ("qemc", "k = v\u{A0}\n  ; c\n", "1:5 odd-space;"),
    (
        "qemc",
        "k = v\n  ; c\\\n  [b]\n  i = 2",
        "3:3 header-in-value;4:3 pair-in-value;",
    ),
    ("qemc", "k = \"v\n  ; c\"\n", "1:5 unclosed-quote;"),
    ("qemc", "k = v\n; c\n  w = x ; d", "3:7 mark-in-value;"),
];

#[test]
fn texts_have_their_warnings(rt: HostRuntime) -> Result<(), Fail> {
    for rows in [LOST, SURPRISING, GOING_ON, RIGHT, INDENTED] {
        for row in rows {
            let (letters, text, want) = *row;
            let found = traps(rt.alloc(), letters, text)?;
            assert!(rt; found.as_str() == want, "{text}: {found}");
        }
    }
    Ok(())
}
