//! What a program tells of itself, on standard output and with status 0. This file knows no program.
ghost use Rattle.std.specs.Prelude.{◌≡◌, map, string_bytes};
ghost use Rattle.ini_words.specs.Pages.{page_asked};

/// What a program tells of itself.
#[derive(Clone, Copy)]
pub enum Page {
    /// Its commands and options.
    Help,
    /// Its version.
    Version,
}

/// The page that the words ask for, if the first one is `--help` or `--version`.
pub fn page_of(words: &[String]) -> Option<Page>
    ensures { result ≡ page_asked (map string_bytes words.now) }
{
    let (word, _) = words.split_first()?;
    match word.as_str() {
        "--help" => Some(Page::Help),
        "--version" => Some(Page::Version),
        _ => None,
    }
}
