//! Numbers that look random, and texts and options that are chosen by them.
use ini::Error;
use std::alloc::Global;

/// Pieces of which INI files are made.
fn pieces() -> &'static [&'static str] {
    &[
        "k=v",
        "k=",
        "j=w",
        "k",
        "=",
        ":",
        " ",
        "\t",
        "\n",
        "\n",
        "\r",
        "\r\n",
        "\n ",
        "[a]",
        "[a]\n",
        "[",
        "#c",
        "\n#c\n",
        " ;n",
        ";",
        "\\",
        "\\\n",
        "\"",
        "'v'",
        "\u{a0}",
        "\"\"\n",
        "k='v' \n",
        "k=\"a\\\"b\"",
    ]
}

/// Numbers that look random, the same in each run.
#[derive(Drop)]
pub(crate) struct Random {
    state: u64,
}

impl Random {
    /// The numbers that begin with this state, which isn't 0.
    pub(crate) fn new(state: u64) -> Self {
        Random { state }
    }

    /// The next number, of sixteen bits.
    pub(crate) fn next(&mut self) -> u64 {
        let mut x = self.state;
        x ^= x << 13;
        x ^= x >> 7;
        x ^= x << 17;
        self.state = x;
        (x >> 24) & 0xFFFF
    }

    pub(crate) fn is_even(&mut self) -> bool {
        self.next() & 1 == 0
    }

    /// One of the pieces.
    pub(crate) fn piece(&mut self, pieces: &[&'static str]) -> &'static str {
        let mut chosen = "";
        let mut most = 0;
        for piece in pieces {
            let number = self.next();
            if number >= most {
                most = number;
                chosen = *piece;
            }
        }
        chosen
    }

    /// Some of the options' letters.
    pub(crate) fn letters(&mut self, alloc: Global) -> Result<String, Error> {
        let mut letters = String::new(alloc);
        for letter in &["q", "e", "m", "k", "b", "r", "l", "a", "c", "n"] {
            if self.is_even() {
                letters.push_str(letter)?;
            }
        }
        Ok(letters)
    }

    /// A text of some pieces of which INI files are made.
    pub(crate) fn text(&mut self, alloc: Global) -> Result<String, Error> {
        let mut text = String::new(alloc);
        text.push_str(self.piece(&["", "k=v\n", "[a]k=v", "[a]\nk=v\n"]))?;
        for _ in 0..10 {
            text.push_str(self.piece(pieces()))?;
        }
        Ok(text)
    }
}
