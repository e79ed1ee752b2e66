//! Texts on their way to a device, as they are or escaped. This file knows no section, key or value.
ghost use Rattle.std.specs.Prelude.{◌≡◌, []};
ghost use Rattle.ini_text.specs.Escaping.EscapedTexts.{escaped_bytes};
ghost use Rattle.ini_text.specs.Device.Watched.{IsClear, WritesBytes};

use crate::device::Watched;
use crate::error::Error;
use crate::write::gather::Gatherer;
use crate::write::policy::EscapePolicy;
use std::io::Write;

mod buffer;
mod escape;
pub(crate) mod gather;
pub(crate) mod option;
pub(crate) mod policy;
mod verbatim;

/// Writes a text as it is. Takes no memory, and an empty text makes no call of the device.
///
/// # Errors
///
/// `Io` where the device answers a fault, `NoProgress` where it takes no bytes. A front of the text was
/// written then, and nothing more is asked of the device.
pub fn write_raw<W: Write>(text: &str, out: &mut Watched<'_, W>) -> Result<(), Error>
    requires { IsClear out.old }
    ensures written { WritesBytes W.contents out.old out.new result text.now }
    ensures nothing { text.now ≡ [] → out.new ≡ out.old }
{
    write_bytes(text.as_bytes(), out)
}

/// Writes a text escaped. Takes no memory, and an empty text makes no call of the device.
///
/// The escaped text is gathered, so that it reaches the device in few calls.
///
/// # Errors
///
/// `Io` where the device answers a fault, `NoProgress` where it takes no bytes. A front of the escaped
/// text was written then, which may end within an escape, and nothing more is asked of the device.
pub fn write_escaped<W: Write>(
    text: &str,
    policy: EscapePolicy,
    out: &mut Watched<'_, W>,
) -> Result<(), Error>
    requires { IsClear out.old }
    ensures written { WritesBytes W.contents out.old out.new result (escaped_bytes policy text.now) }
    ensures nothing { text.now ≡ [] → out.new ≡ out.old }
{
    if text.is_empty() {
        return Ok(());
    }
    let mut gatherer = Gatherer::new();
    gatherer.put_escaped(text, policy, out)?;
    gatherer.flush(out)
}

/// Writes all the bytes.
pub(crate) fn write_bytes<W: Write>(bytes: &[u8], out: &mut Watched<'_, W>) -> Result<(), Error>
    requires { IsClear out.old }
    ensures written { WritesBytes W.contents out.old out.new result bytes.now }
    ensures nothing { bytes.now ≡ [] → out.new ≡ out.old }
{
    let mut rest = bytes;
    'pieces: while !rest.is_empty() {
        let taken = out.write(rest)?;
        rest = &rest[taken..];
    }
    Ok(())
}
