//! The bytes of a reader, kept whole. This file knows no text and no word.
ghost use Rattle.std.specs.Prelude.{◌≡◌, IfErr, IfOk, IfSome, OnOk};
ghost use Rattle.std.specs.Io.KnownBytes.{IsAtEnd};
ghost use Rattle.ini_text.specs.Device.DeviceRefusals.{failures_in};
ghost use Rattle.ini_text.specs.Device.Watched.{IsClear, SameDevice, device_now, failure_count, stall_count};
ghost use Rattle.ini.specs.Inside.ReadBytes.{HasRead, IsIoOrMemory};

use ini::{Error, Watched};
use std::alloc::{AllocError, Global};
use std::io::Read;

// How many bytes are asked for at a time.
const PIECE: usize = 0x1_0000;

/// The bytes of a reader, which is read to its end: to the first read that gives none. Refused where the
/// reader answers a fault, and when out of memory.
pub fn read_all<R: Read>(alloc: Global, reader: &mut Watched<'_, R>) -> Result<Vec<u8>, Error>
    requires { IsClear reader.old }
    ensures same_device { SameDevice reader.old reader.new }
    ensures bytes { IfOk result
        (λ bytes. IfSome (R.remaining (device_now reader.old)) (λ all. bytes.items ≡ all)) }
    ensures failures { failure_count reader.new ≡ failures_in result }
    ensures stalls { stall_count reader.new ≡ 0 }
    ensures only { IfErr result IsIoOrMemory }
{
    let mut bytes = Vec::new(alloc);
    read_after(reader, &mut bytes)?;
    Ok(bytes)
}

// Appends what is read to the bytes, to the reader's end.
fn read_after<R: Read>(reader: &mut Watched<'_, R>, bytes: &mut Vec<u8>) -> Result<(), Error>
    requires { IsClear reader.old }
    ensures same_device { SameDevice reader.old reader.new }
    ensures read { OnOk result (HasRead (R.remaining (device_now reader.old))
        (R.remaining (device_now reader.new)) bytes.old.items bytes.new.items) }
    ensures end { OnOk result (IsAtEnd (R.remaining (device_now reader.new))) }
    ensures failures { failure_count reader.new ≡ failures_in result }
    ensures stalls { stall_count reader.new ≡ 0 }
    ensures only { IfErr result IsIoOrMemory }
{
    let mut piece = [0; PIECE];
    'pieces: while bytes.len() < usize::MAX {
        let count = reader.read(&mut piece)?;
        if count == 0 {
            return Ok(());
        }
        bytes.extend_from_slice(&piece[..count])?;
    }
    Err(Error::Memory(AllocError))
}
