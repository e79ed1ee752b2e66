//! Rests of a text that are seen while a pair is read. This file knows no production.
ghost use Rattle.std.specs.Prelude.{◌≡◌, true};

/// Where the parts of a pair stand. They are written while it is read, if places are asked for, and into the
/// parser, since what is answered is moved and grows dear with its size.
#[derive(Clone, Copy)]
pub(crate) struct Rests<'a> {
    /// What follows the key, from what ends it on.
    pub(crate) after_key: &'a str,
    /// What the value's lines begin.
    pub(crate) start: &'a str,
    /// What follows the text of the value's own lines: those up to the last that gives more than line feeds.
    pub(crate) tail: &'a str,
}

impl<'a> Rests<'a> {
    /// Before a pair is read.
    #[inline(always)]
    pub(crate) fn new(text: &'a str) -> Rests<'a> {
        Rests {
            after_key: text,
            start: text,
            tail: text,
        }
    }

    /// Keeps where a value's own lines begin, and what follows them, if places are asked for.
    #[inline(always)]
    pub(crate) fn keep_lines(&mut self, places: bool, start: &'a str, tail: &'a str)
        ensures start { places ≡ true → self.new.start.now ≡ start.now }
        ensures tail { places ≡ true → self.new.tail.now ≡ tail.now }
    {
        if places {
            self.start = start;
            self.tail = tail;
        }
    }

    /// Keeps what follows a key, if places are asked for.
    #[inline(always)]
    pub(crate) fn keep_key(&mut self, places: bool, after_key: &'a str)
        ensures key { places ≡ true → self.new.after_key.now ≡ after_key.now }
        ensures start { self.new.start ≡ self.old.start }
        ensures tail { self.new.tail ≡ self.old.tail }
    {
        if places {
            self.after_key = after_key;
        }
    }
}
