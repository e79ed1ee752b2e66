//! A text and the pieces that borrow it, both behind pointers. This file knows how the two are kept together,
//! and what a text is read to, and no piece.
ghost use Rattle.std.specs.Prelude.{◌≡◌, None};
ghost use Rattle.std.specs.Fn.{FnOnceReturnsAtMut};
ghost use Rattle.std.specs.Str.{chars};
ghost use Rattle.ini.specs.Loading.{IsStopOf};
ghost use Rattle.ini_edit.specs.Sources.{Pieces};
ghost use Rattle.ini_c.specs.Inside.Both.{LeavesBoth};
ghost use Rattle.ini_c.specs.Inside.Finding.{IsFound};
ghost use Rattle.ini_c.specs.Inside.Opening.{IfRefused};
ghost use Rattle.ini_c.specs.Inside.Tying.{held_both, pieces_coded};
ghost use Rattle.ini_c.specs.Texts.{IsOpened};

use crate::OK;
use crate::parts::Parts;
use crate::pieces::look_ups::value_at;
use ini::{Error, ParseOption};
use ini_edit::Source;
use std::alloc::Global;
use std::marker::{Model, Send};

// What is looked up: a key, in the first section of a name, or without `named` in the general one.
#[derive(Clone, Copy)]
pub(crate) struct Asked<'a> {
    pub(crate) named: bool,
    pub(crate) section: &'a [u8],
    pub(crate) key: &'a [u8],
}

/// A text, and the pieces that were read of it, which show its bytes. It owns both.
pub struct Tied {
    text: *mut u8,
    at: *mut u8,
    alloc: Global,
    pub ghost value: { Pieces } by { pieces_coded },
}

impl Model for Tied {
    ghost also_owns = { λ t. held_both t.text t.at t.alloc t.value };
}

// What it owns names no thread.
unsafe impl Send for Tied {}

impl Drop for Tied {
    fn drop(self) {
        drop(self.into_text().into_box());
    }
}

impl Tied {
    ghost use Rattle.std.specs.Borrow.{sem};
    ghost use Rattle.ini_c.specs.Inside.Lending.{tied_stays};

    // Reads a text, in the room of other pieces, and keeps both. Where the text is refused, the pieces are
    // those that were in the room.
    pub(crate) fn of(
        text: Parts<String, Global>,
        room: Parts<Source<'static>, Global>,
        option: ParseOption,
    ) -> (Tied, Option<Error>)
        ensures read { result.1 ≡ None → IsOpened option (chars text.value.bytes.items) result.0.value }
        ensures refused { IfRefused result.1 (IsStopOf option (chars text.value.bytes.items)) }
    {
        let Parts { at: text, alloc } = text;
        let Parts { at, alloc: its } = room;
        let refused = unsafe {
            let (pieces, refused) = read(its, &*text, at.read(), option);
            at.write(pieces);
            refused
        };
        let tied = Tied {
            text: text as *mut u8,
            at: at as *mut u8,
            alloc,
        };
        (tied, refused)
    }

    // What a closure makes of the pieces.
    pub(crate) fn with<T, F: FnOnce(&mut Source<'_>) -> T>(&mut self, f: F) -> T
        requires { F.IsAlwaysCallable f }
        ensures { FnOnceReturnsAtMut F.FnOnce f self.old.value result self.new.value }
    {
        unsafe { f(&mut *(self.at as *mut Source<'_>)) }
    }

    // What a closure makes of the pieces and of another value.
    pub(crate) fn with_both<T, B, F: FnOnce(&mut Source<'_>, &mut B) -> T>(
        &mut self,
        other: &mut B,
        f: F,
    ) -> T
        requires { F.IsAlwaysCallable f }
        ensures { LeavesBoth F.FnOnce f self.old.value other.old result self.new.value other.new }
    {
        unsafe { f(&mut *(self.at as *mut Source<'_>), other) }
    }

    // The value that is asked for, lent, and the status; no bytes where there is none.
    pub(crate) fn found(&mut self, asked: Asked<'_>) -> (&[u8], u32)
        ensures* stays { sem 𝓛 (tied_stays self.entry) }
        ensures found { IsFound asked.entry self.old.value result.0.now result.1 }
    {
        unsafe { found(&*(self.at as *mut Source<'_>), asked) }
    }

    // Lets the pieces go, and gives the text back.
    fn into_text(self) -> Parts<String, Global> {
        let Tied { text, at, alloc } = self;
        discard(Parts {
            at: at as *mut Source<'_>,
            alloc,
        });
        Parts {
            at: text as *mut String,
            alloc,
        }
    }
}

// The pieces of a text; where the text is refused, the spare ones.
fn read<'a>(
    alloc: Global,
    text: &'a String,
    spare: Source<'static>,
    option: ParseOption,
) -> (Source<'a>, Option<Error>)
    ensures read { result.1 ≡ None → IsOpened option (chars text.now.bytes.items) result.0 }
    ensures refused { IfRefused result.1 (IsStopOf option (chars text.now.bytes.items)) }
{
    match Source::read(alloc, text.as_str(), option) {
        Ok(source) => (source, None),
        Err(error) => (spare, Some(error)),
    }
}

// The value that is asked for, and the status.
fn found<'b>(source: &'b Source<'_>, asked: Asked<'_>) -> (&'b [u8], u32)
    ensures { IsFound asked.entry source.now result.0.now result.1 }
{
    match value_at(source, asked.named, asked.section, asked.key) {
        Ok(value) => (value.as_bytes(), OK),
        Err(status) => (b"", status),
    }
}

// Lets pieces go.
fn discard(pieces: Parts<Source<'_>, Global>) {
    drop(pieces.into_box());
}
