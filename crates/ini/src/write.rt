//! Documents on their way to a device. This file knows in which order the parts of a document are
//! written, and leaves escapes and the device to `ini_text`.
ghost use Rattle.std.specs.Prelude.{◌≡◌, OnOk, IfErr, IfOk, IsOkUnless, Some, alloc_error, chars};
ghost use Rattle.std.specs.Prelude.{encode_utf8_all, true};
ghost use Rattle.std.specs.Str.{all_scalars};
ghost use Rattle.ini_text.specs.Device.DeviceRefusals.{IsIoOrNoProgress};
ghost use Rattle.ini_text.specs.Device.Gathering.{Sends};
ghost use Rattle.ini_text.specs.Device.Watched.{IsClear, WritesBytes};
ghost use Rattle.ini_text.specs.Options.WriteOptions.{IsDefaultWriteOption, with_policy};
ghost use Rattle.ini_text.specs.declared.write.option.WriteOption.{WriteOption};
ghost use Rattle.ini.specs.Texts.{str_name, text_of};
ghost use Rattle.ini.specs.Written.{written, written_gap, written_name, written_pair};
ghost use Rattle.ini.specs.Written.{written_pairs, written_section};
ghost use Rattle.ini.specs.WrittenTo.{IsFrontWrittenTo, IsWrittenTo};

use crate::document::Ini;
use crate::properties::Properties;
use ini_text::{Error, EscapePolicy, Gatherer, Watched, WriteOption};
use std::alloc::{AllocError, Global};
use std::io::Write;

// The key, the separator and the value, on a line of their own.
fn write_pair<W: Write>(
    lines: &mut Gatherer,
    key: &str,
    value: &str,
    option: &WriteOption,
    out: &mut Watched<'_, W>,
) -> Result<(), Error>
    requires { IsClear out.old }
    ensures { Sends W.contents out.old out.new lines.old lines.new result
        (written_pair option.now (chars key.now, chars value.now)) }
{
    let end = option.line_separator.as_str();
    lines.put_line(
        key,
        option.kv_separator,
        value,
        end,
        option.escape_policy,
        out,
    )
}

// Each pair on a line of its own.
fn write_pairs<W: Write>(
    lines: &mut Gatherer,
    pairs: &Properties,
    option: &WriteOption,
    out: &mut Watched<'_, W>,
) -> Result<(), Error>
    requires { IsClear out.old }
    ensures { Sends W.contents out.old out.new lines.old lines.new result
        (written_pairs option.now pairs.now) }
{
    for (key, value) in pairs {
        write_pair(lines, key, value, option, out)?;
    }
    Ok(())
}

// A name in brackets, on a line of its own.
fn write_header<W: Write>(
    lines: &mut Gatherer,
    name: &str,
    option: &WriteOption,
    out: &mut Watched<'_, W>,
) -> Result<(), Error>
    requires { IsClear out.old }
    ensures { Sends W.contents out.old out.new lines.old lines.new result
        (written_name option.now (Some (chars name.now))) }
{
    lines.put("[", out)?;
    lines.put_escaped(name, option.escape_policy, out)?;
    lines.put("]", out)?;
    lines.put(option.line_separator.as_str(), out)
}

// The header of a section; the general section has none.
fn write_name<W: Write>(
    lines: &mut Gatherer,
    name: Option<&str>,
    option: &WriteOption,
    out: &mut Watched<'_, W>,
) -> Result<(), Error>
    requires { IsClear out.old }
    ensures { Sends W.contents out.old out.new lines.old lines.new result
        (written_name option.now (str_name name.entry)) }
{
    match name {
        Some(name) => write_header(lines, name, option, out),
        None => Ok(()),
    }
}

// An empty line before pairs, where an earlier section had some.
#[tactic(auto, using(crate::proofs::WritingLemmas::steps))]
fn write_gap<W: Write>(
    lines: &mut Gatherer,
    earlier: bool,
    pairs: &Properties,
    option: &WriteOption,
    out: &mut Watched<'_, W>,
) -> Result<(), Error>
    requires { IsClear out.old }
    ensures { Sends W.contents out.old out.new lines.old lines.new result
        (written_gap option.now earlier pairs.now) }
{
    if earlier && !pairs.is_empty() {
        lines.put(option.line_separator.as_str(), out)
    } else {
        Ok(())
    }
}

// A section, where `earlier` says whether one before it had pairs.
fn write_section<W: Write>(
    lines: &mut Gatherer,
    earlier: bool,
    name: Option<&str>,
    pairs: &Properties,
    option: &WriteOption,
    out: &mut Watched<'_, W>,
) -> Result<(), Error>
    requires { IsClear out.old }
    ensures { Sends W.contents out.old out.new lines.old lines.new result
        (written_section option.now earlier (str_name name.entry, pairs.now)) }
{
    write_gap(lines, earlier, pairs, option, out)?;
    write_name(lines, name, option, out)?;
    write_pairs(lines, pairs, option, out)
}

impl Ini {
    /// Writes the document's text to a watched writer, in UTF-8. Takes no memory, and flushes nothing.
    ///
    /// # Errors
    ///
    /// `Io` where the writer answers a fault, `NoProgress` where it takes no bytes. A front of the text
    /// was written then, and nothing more is asked of the writer.
    pub fn write_watched<W: Write>(
        &self,
        out: &mut Watched<'_, W>,
        option: WriteOption,
    ) -> Result<(), Error>
        requires { IsClear out.old }
        ensures { WritesBytes W.contents out.old out.new result (encode_utf8_all (written self.now option)) }
    {
        write_text(self, &option, out)
    }

    /// The document's text, by the given options, in memory.
    ///
    /// Refused only when out of memory.
    pub fn to_text(&self, alloc: Global, option: WriteOption) -> Result<String, Error>
        ensures text { IfOk result (λ text. text_of text ≡ written self.now option) }
        ensures characters { OnOk result (all_scalars (written self.now option) ≡ true) }
        ensures only_memory { IsOkUnless result (Error.Memory alloc_error) }
    {
        let mut bytes: Vec<u8> = Vec::new(alloc);
        match write_text_to(self, &option, &mut bytes) {
            Ok(()) => Ok(String::from_utf8(bytes).unwrap()),
            // Bytes in memory are refused only when out of memory.
            Err(_) => Err(Error::Memory(AllocError)),
        }
    }

    /// Writes the document's text to a writer, by the default options. The rest is as `write_watched`
    /// has it.
    pub fn write_to<W: Write>(&self, writer: &mut W) -> Result<(), Error>
        ensures bytes { (w : WriteOption) → IsDefaultWriteOption w
            → OnOk result (IsWrittenTo W.contents writer.old writer.new (written self.now w)) }
        ensures front { (w : WriteOption) → IsDefaultWriteOption w
            → IsFrontWrittenTo W.contents writer.old writer.new (written self.now w) }
        ensures only { IfErr result IsIoOrNoProgress }
    {
        self.write_to_opt(writer, WriteOption::default())
    }

    /// Writes the document's text to a writer, by the default options but for the policy. The rest is as
    /// `write_watched` has it.
    pub fn write_to_policy<W: Write>(
        &self,
        writer: &mut W,
        policy: EscapePolicy,
    ) -> Result<(), Error>
        ensures bytes { (w : WriteOption) → IsDefaultWriteOption w
            → OnOk result
            (IsWrittenTo W.contents writer.old writer.new (written self.now (with_policy policy w))) }
        ensures front { (w : WriteOption) → IsDefaultWriteOption w
            → IsFrontWrittenTo W.contents writer.old writer.new (written self.now (with_policy policy w)) }
        ensures only { IfErr result IsIoOrNoProgress }
    {
        let option = WriteOption {
            escape_policy: policy,
            ..WriteOption::default()
        };
        self.write_to_opt(writer, option)
    }

    /// Writes the document's text to a writer, by the given options. The rest is as `write_watched` has it.
    pub fn write_to_opt<W: Write>(&self, writer: &mut W, option: WriteOption) -> Result<(), Error>
        ensures bytes { OnOk result
            (IsWrittenTo W.contents writer.old writer.new (written self.now option)) }
        ensures front { IsFrontWrittenTo W.contents writer.old writer.new (written self.now option) }
        ensures only { IfErr result IsIoOrNoProgress }
    {
        self.write_watched(&mut Watched::new(writer), option)
    }
}

// The sections in order.
fn write_sections<W: Write>(
    lines: &mut Gatherer,
    document: &Ini,
    option: &WriteOption,
    out: &mut Watched<'_, W>,
) -> Result<(), Error>
    requires { IsClear out.old }
    ensures { Sends W.contents out.old out.new lines.old lines.new result
        (written document.now option.now) }
{
    let mut earlier = false;
    for (name, pairs) in document {
        write_section(lines, earlier, name, pairs, option, out)?;
        earlier |= !pairs.is_empty();
    }
    Ok(())
}

// The document's text, which is made of characters.
fn write_text<W: Write>(
    document: &Ini,
    option: &WriteOption,
    out: &mut Watched<'_, W>,
) -> Result<(), Error>
    requires { IsClear out.old }
    ensures bytes { WritesBytes W.contents out.old out.new result
        (encode_utf8_all (written document.now option.now)) }
    ensures characters { OnOk result (all_scalars (written document.now option.now) ≡ true) }
{
    let mut lines = Gatherer::new();
    write_sections(&mut lines, document, option, out)?;
    lines.flush(out)
}

// The same to a writer that is not watched yet.
fn write_text_to<W: Write>(
    document: &Ini,
    option: &WriteOption,
    writer: &mut W,
) -> Result<(), Error>
    ensures bytes { OnOk result
        (IsWrittenTo W.contents writer.old writer.new (written document.now option.now)) }
    ensures characters { OnOk result (all_scalars (written document.now option.now) ≡ true) }
{
    write_text(document, option, &mut Watched::new(writer))
}
