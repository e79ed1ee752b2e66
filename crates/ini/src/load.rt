//! Documents from texts, and from the bytes of a reader, which is read piece by piece. This file knows no
//! character.
ghost use Rattle.std.specs.Prelude.{◌≡◌, ◌<◌, ◌↔◌, length, chars, false, true, alloc_error};
ghost use Rattle.std.specs.Prelude.{IfOk, IfErr, IfSome, IsOkUnless, OnOk};
ghost use Rattle.ini_text.specs.Device.DeviceRefusals.{IsIo, failures_in};
ghost use Rattle.ini_text.specs.Options.ReadOptions.{default_parse_option, without_escapes};
ghost use Rattle.ini_text.specs.Device.Watched.{IsClear, SameDevice, device_now, failure_count, stall_count};
ghost use Rattle.ini_text.specs.Parsing.ByteOrderMarks.{text_bytes, unmarked};
ghost use Rattle.ini.specs.Documents.{HasGeneral};
ghost use Rattle.ini.specs.Loading.{IfParse, IsDocumentOf, IsParseOrMemory, IsStopOf, ReadsDocument};
ghost use Rattle.ini.specs.Inside.ReadBytes.{HasRead, IsFilled, IsIoOrMemory};

use crate::document::Ini;
use crate::items::push_items;
use crate::streaming::{StreamLoader, drop_front};
use ini_text::{
    BYTE_ORDER_MARK, Error, ParseOption, Watched, has_byte_order_mark, without_byte_order_mark,
};
use std::alloc::{AllocError, Global};
use std::io::Read;

impl Ini {
    /// The document of a text, by the default options. The rest is as `load_from_str_opt` has it.
    ///
    /// **A mark (U+FEFF) at the text's front is text: the first key begins with it, or a header isn't seen
    /// as one.** `load_from_str_bom` leaves it out.
    pub fn load_from_str(alloc: Global, text: &str) -> Result<Ini, Error>
        ensures document { IfOk result (IsDocumentOf default_parse_option (chars text.now)) }
        ensures general { IfOk result HasGeneral }
        ensures fault { IfParse result (IsStopOf default_parse_option (chars text.now)) }
        ensures only { IfErr result IsParseOrMemory }
    {
        Ini::load_from_str_opt(alloc, text, ParseOption::default())
    }

    /// The document of a text, by the default options but without escapes. The rest is as
    /// `load_from_str_opt` has it.
    ///
    /// **A mark (U+FEFF) at the text's front is text: the first key begins with it, or a header isn't seen
    /// as one.** `load_from_str_bom` leaves it out.
    pub fn load_from_str_noescape(alloc: Global, text: &str) -> Result<Ini, Error>
        ensures document { IfOk result (IsDocumentOf without_escapes (chars text.now)) }
        ensures general { IfOk result HasGeneral }
        ensures fault { IfParse result (IsStopOf without_escapes (chars text.now)) }
        ensures only { IfErr result IsParseOrMemory }
    {
        Ini::load_from_str_opt(alloc, text, without_escapes())
    }

    /// The document of a text: the items that the text gives by the options, put in order into sections.
    ///
    /// **A mark (U+FEFF) at the text's front is text: the first key begins with it, or a header isn't seen
    /// as one.** `load_from_str_bom` leaves it out.
    ///
    /// # Errors
    ///
    /// `Parse` where reading the text stops, with line and column; `Memory` where memory is refused.
    pub fn load_from_str_opt(alloc: Global, text: &str, opt: ParseOption) -> Result<Ini, Error>
        ensures document { IfOk result (IsDocumentOf opt (chars text.now)) }
        ensures general { IfOk result HasGeneral }
        ensures fault { IfParse result (IsStopOf opt (chars text.now)) }
        ensures only { IfErr result IsParseOrMemory }
    {
        let mut document = Ini::new(alloc)?;
        push_items(alloc, &mut document, text, text, opt)?;
        Ok(document)
    }

    /// The document of a text, without one mark (U+FEFF) at its front; places count from after it. The
    /// rest is as `load_from_str_opt` has it.
    pub fn load_from_str_bom(alloc: Global, text: &str, opt: ParseOption) -> Result<Ini, Error>
        ensures document { IfOk result (IsDocumentOf opt (unmarked (chars text.now))) }
        ensures general { IfOk result HasGeneral }
        ensures fault { IfParse result (IsStopOf opt (unmarked (chars text.now))) }
        ensures only { IfErr result IsParseOrMemory }
    {
        Ini::load_from_str_opt(alloc, without_byte_order_mark(text), opt)
    }

    /// The document of a reader's bytes, by the default options. A mark at their front is text. The rest
    /// is as `read_watched` has it.
    pub fn read_from<R: Read>(alloc: Global, reader: &mut R) -> Result<Ini, Error>
        ensures { ReadsDocument R.remaining reader.old reader.new default_parse_option false result }
    {
        Ini::read_from_opt(alloc, reader, ParseOption::default())
    }

    /// The document of a reader's bytes, by the default options but without escapes. A mark at their
    /// front is text. The rest is as `read_watched` has it.
    pub fn read_from_noescape<R: Read>(alloc: Global, reader: &mut R) -> Result<Ini, Error>
        ensures { ReadsDocument R.remaining reader.old reader.new without_escapes false result }
    {
        Ini::read_from_opt(alloc, reader, without_escapes())
    }

    /// The document of a reader's bytes. A mark at their front is text. The rest is as `read_watched`
    /// has it.
    pub fn read_from_opt<R: Read>(
        alloc: Global,
        reader: &mut R,
        opt: ParseOption,
    ) -> Result<Ini, Error>
        ensures { ReadsDocument R.remaining reader.old reader.new opt false result }
    {
        Ini::read_watched(alloc, &mut Watched::new(reader), opt, false)
    }

    /// The document of a reader's bytes, without one mark (the bytes EF BB BF) at their front. The rest
    /// is as `read_watched` has it.
    pub fn read_from_bom<R: Read>(
        alloc: Global,
        reader: &mut R,
        opt: ParseOption,
    ) -> Result<Ini, Error>
        ensures { ReadsDocument R.remaining reader.old reader.new opt true result }
    {
        Ini::read_watched(alloc, &mut Watched::new(reader), opt, true)
    }

    /// The document of a watched reader's bytes, which are read to the end: to the first read that gives
    /// none. With `drop_mark` one mark (the bytes EF BB BF) at their front is left out, and places count
    /// from after it. The text is read in parts: of a long one only the last lines are kept.
    ///
    /// # Errors
    ///
    /// `Io` where the reader answers a fault, at once and with nothing more asked of it; `NotUtf8` where
    /// the bytes are not UTF-8; `Parse` where reading their text stops; `Memory` where memory is
    /// refused. All bytes are read before `NotUtf8` or `Parse` is reported, and `NotUtf8` goes before
    /// `Parse`, whichever comes first in the bytes. `Io` and `Memory` are reported where they are met: since
    /// the text is read in parts, `Memory` may be reported before bytes further on that are not UTF-8, or a
    /// fault of the reader.
    pub fn read_watched<R: Read>(
        alloc: Global,
        reader: &mut Watched<'_, R>,
        opt: ParseOption,
        drop_mark: bool,
    ) -> Result<Ini, Error>
        requires { IsClear reader.old }
        ensures same_device { SameDevice reader.old reader.new }
        ensures reads { ReadsDocument R.remaining (device_now reader.old) (device_now reader.new)
            opt drop_mark result }
        ensures failures { failure_count reader.new ≡ failures_in result }
        ensures stalls { stall_count reader.new ≡ 0 }
        ensures io { IsIo result ↔ (failure_count reader.old < failure_count reader.new) }
    {
        let mut piece = [0; PIECE];
        let mut bytes = Vec::new(alloc);
        let mut is_all = fill(reader, &mut piece, &mut bytes, PIECE)?;
        drop_byte_order_mark(&mut bytes, drop_mark);
        let mut streaming = StreamLoader::new(alloc)?;
        // No line number can exceed this.
        let mut last_line = 1 + bytes.len();
        'pieces: while !is_all {
            streaming.take_items(alloc, &mut bytes, opt)?;
            let kept = bytes.len();
            is_all = fill(reader, &mut piece, &mut bytes, kept + kept.max(PIECE))?;
            let Some(next_line) = last_line.checked_add(bytes.len() - kept) else {
                return Err(Error::Memory(AllocError));
            };
            last_line = next_line;
        }
        streaming.finish(alloc, bytes.as_slice(), opt)
    }
}

// The default options, but without escapes.
pub(crate) fn without_escapes() -> ParseOption
    ensures { result ≡ without_escapes }
{
    ParseOption {
        enabled_escape: false,
        ..ParseOption::default()
    }
}

// How many bytes are asked for at a time.
const PIECE: usize = 0x1_0000;

// Appends what is read to the bytes until they are as many as are wanted, or the reader is at its end, and
// tells which.
fn fill<R: Read>(
    reader: &mut Watched<'_, R>,
    piece: &mut [u8; PIECE],
    bytes: &mut Vec<u8>,
    wanted: usize,
) -> Result<bool, Error>
    requires { IsClear reader.old }
    ensures same_device { SameDevice reader.old reader.new }
    ensures bytes { OnOk result (HasRead (R.remaining (device_now reader.old))
        (R.remaining (device_now reader.new)) bytes.old.items bytes.new.items) }
    ensures filled { IfOk result
        (IsFilled wanted bytes.new.items (R.remaining (device_now reader.new))) }
    ensures failures { failure_count reader.new ≡ failures_in result }
    ensures stalls { stall_count reader.new ≡ 0 }
    ensures only { IfErr result IsIoOrMemory }
{
    'pieces: while bytes.len() < wanted {
        let count = reader.read(piece)?;
        if count == 0 {
            return Ok(true);
        }
        bytes.extend_from_slice(&piece[..count])?;
    }
    Ok(false)
}

// Drops one mark at the front of bytes, if it is to be dropped.
fn drop_byte_order_mark(bytes: &mut Vec<u8>, drop_mark: bool)
    ensures { bytes.new.items ≡ text_bytes drop_mark bytes.old.items }
{
    if drop_mark && has_byte_order_mark(bytes.as_slice()) {
        drop_front(bytes, BYTE_ORDER_MARK.len());
    }
}
