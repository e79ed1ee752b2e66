//! Encodings: their names, and the byte order mark in each. This file knows no other character.
ghost use Rattle.std.specs.Prelude.{◌≡◌, Some};
ghost use Rattle.ini_dialect.specs.EncodingNames.{encoding_of, mark_of, marked, name_of};

/// An encoding of texts.
#[derive(Clone, Copy, PartialEq, Eq, Debug)]
pub enum Encoding {
    /// UTF-8.
    Utf8,
    /// UTF-16, the low byte of each unit first.
    Utf16Le,
    /// UTF-16, the low byte of each unit last.
    Utf16Be,
    /// ISO 8859-1: each byte is the character of its number.
    Latin1,
    /// Latin-1 with other characters for the bytes 0x80 to 0x9F, by the table that browsers have. There
    /// 0x81, 0x8D, 0x8F, 0x90 and 0x9D stand for the characters of their numbers.
    Windows1252,
}

impl Encoding {
    /// The encoding of a name, if there is one.
    pub fn of_name(name: &str) -> Option<Encoding>
        ensures { result ≡ encoding_of name.now }
    {
        match name {
            "utf-8" => Some(Encoding::Utf8),
            "utf-16le" => Some(Encoding::Utf16Le),
            "utf-16be" => Some(Encoding::Utf16Be),
            "latin1" => Some(Encoding::Latin1),
            "windows1252" => Some(Encoding::Windows1252),
            _ => None,
        }
    }

    /// The encoding's name.
    pub fn name(self) -> &'static str
        ensures value { result.now ≡ name_of self }
        ensures found { encoding_of result.now ≡ Some self }
    {
        match self {
            Encoding::Utf8 => "utf-8",
            Encoding::Utf16Le => "utf-16le",
            Encoding::Utf16Be => "utf-16be",
            Encoding::Latin1 => "latin1",
            Encoding::Windows1252 => "windows1252",
        }
    }

    /// The encoding whose byte order mark is at the front of bytes. It is never one that has no mark.
    pub fn of_mark(bytes: &[u8]) -> Option<Encoding>
        ensures { result ≡ marked bytes.now }
    {
        if bytes.starts_with(Encoding::Utf8.mark()) {
            Some(Encoding::Utf8)
        } else if bytes.starts_with(Encoding::Utf16Le.mark()) {
            Some(Encoding::Utf16Le)
        } else if bytes.starts_with(Encoding::Utf16Be.mark()) {
            Some(Encoding::Utf16Be)
        } else {
            None
        }
    }

    /// The bytes of the byte order mark, the character U+FEFF; none where the encoding lacks it.
    pub fn mark(self) -> &'static [u8]
        ensures { result.now ≡ mark_of self }
    {
        match self {
            Encoding::Utf8 => b"\xEF\xBB\xBF",
            Encoding::Utf16Le => b"\xFF\xFE",
            Encoding::Utf16Be => b"\xFE\xFF",
            Encoding::Latin1 | Encoding::Windows1252 => b"",
        }
    }
}
