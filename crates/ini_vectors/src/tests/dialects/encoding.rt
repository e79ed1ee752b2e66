//! Rows of bytes and the texts that they are, both ways, and of what is refused. The bytes are those of
//! Python's codecs, and of the browsers' table where Python's has no character.
use ini_dialect::{DecodeError, EncodeError, Encoding};
use std::alloc::Global;
use std::process::Abort;

/// Whether the bytes are the text in the encoding; both ways.
fn is_text(alloc: Global, (encoding, bytes, text): (Encoding, &[u8], &str)) -> bool {
    let is_decoded = match encoding.decode(alloc, bytes) {
        Ok(decoded) => decoded.as_str() == text,
        Err(_) => false,
    };
    let is_encoded = match encoding.encode(alloc, text) {
        Ok(encoded) => encoded.as_slice() == bytes,
        Err(_) => false,
    };
    is_decoded && is_encoded
}

/// Bytes in an encoding and the text that they are.
const BYTES: [(Encoding, &'static [u8], &'static str); 9] = [
    (Encoding::Utf8, b"", ""),
    (
        Encoding::Utf8,
        b"a=\xC3\xA4\xE2\x82\xAC\xF0\x9F\x98\x80\n",
        "a=\u{E4}\u{20AC}\u{1F600}\n",
    ),
    (
        Encoding::Utf16Le,
        b"a\x00=\x00\xAC\x20\x0A\x00",
        "a=\u{20AC}\n",
    ),
    (
        Encoding::Utf16Be,
        b"\x00a\x00=\x20\xAC\x00\x0A",
        "a=\u{20AC}\n",
    ),
    (Encoding::Utf16Le, b"\x3D\xD8\x00\xDE", "\u{1F600}"),
    (
        Encoding::Utf16Be,
        b"\xDB\xFF\xDF\xFF\xD7\xFF\xE0\x00",
        "\u{10FFFF}\u{D7FF}\u{E000}",
    ),
    (Encoding::Utf16Be, b"\xFE\xFF", "\u{FEFF}"),
    (
        Encoding::Latin1,
        b"\xE4=\xFF\x80\x00",
        "\u{E4}=\u{FF}\u{80}\0",
    ),
    (
        Encoding::Windows1252,
        b"\xE4=\x80\x9F\x81\xA0\x7F",
        "\u{E4}=\u{20AC}\u{178}\u{81}\u{A0}\u{7F}",
    ),
];

#[test]
fn bytes_and_their_texts(rt: HostRuntime) {
    for row in BYTES {
        let (_, _, text) = row;
        assert!(rt; is_text(rt.alloc(), row), "{text}");
    }
}

/// Bytes that are no text of the encoding, and where that is told.
const NO_TEXT: [(Encoding, &'static [u8], (usize, usize)); 7] = [
    (Encoding::Utf8, b"a\n\xFFb", (2, 1)),
    (Encoding::Utf8, b"\xC3\xA4\xE2\x82", (1, 2)),
    (Encoding::Utf8, b"\n\na\xED\xA0\x80", (3, 2)),
    (Encoding::Utf16Le, b"a\x00b", (1, 2)),
    (Encoding::Utf16Le, b"a\x00\x0A\x00\x3D\xD8", (2, 1)),
    (Encoding::Utf16Be, b"\xD8\x3D\x00a", (1, 1)),
    (Encoding::Utf16Be, b"\xDE\x00", (1, 1)),
];

/// Texts with a character that has no bytes in the encoding, that character, and its place.
const NO_BYTES: [(Encoding, &'static str, (char, usize, usize)); 4] = [
    (Encoding::Latin1, "ab\n\u{20AC}", ('\u{20AC}', 2, 1)),
    (Encoding::Latin1, "\u{FF}\u{100}\u{20AC}", ('\u{100}', 1, 2)),
    (Encoding::Windows1252, "a\u{80}", ('\u{80}', 1, 2)),
    (Encoding::Windows1252, "\u{1F600}", ('\u{1F600}', 1, 1)),
];

#[test]
fn what_has_no_text_or_no_bytes_is_refused(rt: HostRuntime) {
    for (encoding, bytes, (line, column)) in NO_TEXT {
        let is_refused = match encoding.decode(rt.alloc(), bytes) {
            Err(DecodeError::Malformed { line: l, column: c }) => l == line && c == column,
            _ => false,
        };
        assert!(rt; is_refused, "{line}:{column}");
    }
    for (encoding, text, want) in NO_BYTES {
        let is_refused = match encoding.encode(rt.alloc(), text) {
            Err(
                EncodeError::NoBytes {
                    character,
                    line,
                    column,
                },
            ) => { (character, line, column) == want }
            _ => false,
        };
        assert!(rt; is_refused, "{text}");
    }
}

/// The first bytes of a file, and the encoding that its mark names.
const MARKS: [(&'static [u8], Option<Encoding>); 7] = [
    (b"\xEF\xBB\xBFa", Some(Encoding::Utf8)),
    (b"\xFF\xFEa\x00", Some(Encoding::Utf16Le)),
    (b"\xFE\xFF", Some(Encoding::Utf16Be)),
    (b"\xEF\xBB", None),
    (b"a\xFF\xFE", None),
    (b"\xE4=\xFF", None),
    (b"", None),
];

/// Encodings by their names.
const NAMES: [(&'static str, Option<Encoding>); 9] = [
    ("utf-8", Some(Encoding::Utf8)),
    ("utf-16le", Some(Encoding::Utf16Le)),
    ("utf-16be", Some(Encoding::Utf16Be)),
    ("latin1", Some(Encoding::Latin1)),
    ("windows1252", Some(Encoding::Windows1252)),
    ("", None),
    ("utf8", None),
    ("UTF-8", None),
    ("latin-1", None),
];

/// The encoding of a name, and its name.
fn expect_named(rt: &impl Abort, (name, want): (&str, Option<Encoding>)) {
    let found = Encoding::of_name(name);
    let is_named = match found {
        Some(encoding) => encoding.name() == name,
        None => true,
    };
    assert!(rt; found == want && is_named, "{name}");
}

#[test]
fn marks_and_names_tell_the_encoding(rt: HostRuntime) {
    for (bytes, want) in MARKS {
        assert!(rt; Encoding::of_mark(bytes) == want);
    }
    for row in NAMES {
        expect_named(&rt, row);
    }
}
