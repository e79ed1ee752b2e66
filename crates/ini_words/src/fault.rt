//! Faults of devices with a name. This file knows no device.
ghost use Rattle.std.specs.Prelude.{◌≡◌};
ghost use Rattle.std.specs.IoError.{error_kind};

use std::alloc::Global;
use std::io;

/// The fault with a name before its words, as that of the stream where it arose: its kind stays. Where
/// there is no memory to write the words, it is the fault as it was.
pub fn with_name(alloc: Global, name: &str, fault: io::Error) -> io::Error
    ensures { error_kind result ≡ error_kind fault }
{
    match format!(in alloc; "{name}: {fault}") {
        Ok(words) => io::Error::new(fault.kind(), words.as_str()),
        Err(_) => fault,
    }
}
