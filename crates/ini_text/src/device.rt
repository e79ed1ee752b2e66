//! Devices that are watched: each read and write that goes wrong is counted. This file knows no text.
ghost use Rattle.std.specs.Prelude.{◌≡◌, ◌<◌, ◌≤◌, ◌↔◌, length, IfOk, IfErr, OnErr};
ghost use Rattle.std.specs.Io.{ReadsAtMost};
ghost use Rattle.std.specs.Io.KnownBytes.{ReadConsumes, WriteAppends};
ghost use Rattle.ini_text.specs.Device.DeviceRefusals.{IsIo, IsIoOrNoProgress, failures_in, stalls_in};
ghost use Rattle.ini_text.specs.Device.Watched.{IsClear, SameDevice, Watches, device_now, failure_count};
ghost use Rattle.ini_text.specs.Device.Watched.{stall_count};

use crate::error::Error;
use std::io::{Read, Write};

/// A reader or a writer, with the number of its calls that went wrong.
///
/// Every call that reads or writes through a `Watched` has the condition that both counts are 0, so each
/// is 0 or 1, and no call of the device follows one that went wrong.
#[derive(Drop)]
pub struct Watched<'a, D> {
    device: &'a mut D,
    failures: u64,
    stalls: u64,
}

impl<'a, D> Watched<'a, D> {
    /// Watches a device from now on. Takes no memory.
    pub fn new(device: &'a mut D) -> Watched<'a, D>
        ensures watches { Watches result device.entry }
        ensures device { device_now result ≡ device.old }
        ensures clear { IsClear result }
    {
        Watched {
            device,
            failures: 0,
            stalls: 0,
        }
    }

    /// How many calls of the device answered a fault.
    pub fn failures(&self) -> u64
        ensures { result ≡ failure_count self.now }
    {
        self.failures
    }

    /// How many writes took no bytes of a piece that had some.
    pub fn stalls(&self) -> u64
        ensures { result ≡ stall_count self.now }
    {
        self.stalls
    }
}

impl<R: Read> Watched<'_, R> {
    /// One read of the device, which answers the number of bytes read: 0 at its end, or where `piece` is
    /// empty.
    ///
    /// # Errors
    ///
    /// `Io` where the device answers a fault, an interruption among them. No byte is read then.
    pub fn read(&mut self, piece: &mut [u8]) -> Result<usize, Error>
        requires { IsClear self.old }
        ensures same_device { SameDevice self.old self.new }
        ensures bound { ReadsAtMost result piece.new }
        ensures bytes { ReadConsumes (R.remaining (device_now self.old)) (R.remaining (device_now self.new))
            result piece.new }
        ensures failures { failure_count self.new ≡ failures_in result }
        ensures stalls { stall_count self.new ≡ 0 }
        ensures io { IsIo result ↔ (failure_count self.old < failure_count self.new) }
        ensures only { OnErr result (IsIo result) }
    {
        match self.device.read(piece) {
            Ok(count) => Ok(count),
            Err(fault) => {
                self.failures += 1;
                Err(Error::Io(fault))
            }
        }
    }
}

impl<W: Write> Watched<'_, W> {
    /// One write to the device, of a piece that isn't empty. It answers how many bytes of it were taken,
    /// at least one.
    ///
    /// # Errors
    ///
    /// `Io` where the device answers a fault, `NoProgress` where it takes no bytes. Nothing was written
    /// then.
    pub(crate) fn write(&mut self, piece: &[u8]) -> Result<usize, Error>
        requires clear { IsClear self.old }
        requires some { 0 < length piece.now }
        ensures same_device { SameDevice self.old self.new }
        ensures bound { IfOk result (λ n. (0 < n) × (n ≤ length piece.now)) }
        ensures bytes { WriteAppends (W.contents (device_now self.old)) (W.contents (device_now self.new))
            result piece.now }
        ensures failures { failure_count self.new ≡ failures_in result }
        ensures stalls { stall_count self.new ≡ stalls_in result }
        ensures only { IfErr result IsIoOrNoProgress }
    {
        match self.device.write(piece) {
            Ok(0) => {
                self.stalls += 1;
                Err(Error::NoProgress)
            }
            Ok(count) => Ok(count),
            Err(fault) => {
                self.failures += 1;
                Err(Error::Io(fault))
            }
        }
    }
}
