//! Devices that are slow, that fail, or that are full. Each counts its calls. A fault is answered once, and
//! from then on the device works, so that it shows where it is asked again.
use ini::{Error, Watched};
use std::alloc::Global;
use std::io;
use std::io::{ErrorKind, Read, Write};

/// A reader of at most so many bytes in a call, which answers a fault at one of its calls.
#[derive(Drop)]
pub(crate) struct StepReader<'a> {
    rest: &'a [u8],
    step: usize,
    fails_at: usize,
    fault: ErrorKind,
    pub(crate) calls: usize,
    /// The fewest bytes that a call asked for.
    pub(crate) least_asked: usize,
}

impl<'a> StepReader<'a> {
    /// A reader of the bytes that never fails.
    pub(crate) fn new(bytes: &'a [u8], step: usize) -> StepReader<'a> {
        StepReader::failing(bytes, step, 0, ErrorKind::Other)
    }

    /// A reader of the bytes whose call of this number, from 1, answers the fault.
    pub(crate) fn failing(
        bytes: &'a [u8],
        step: usize,
        call: usize,
        fault: ErrorKind,
    ) -> StepReader<'a> {
        StepReader {
            rest: bytes,
            step,
            fails_at: call,
            fault,
            calls: 0,
            least_asked: usize::MAX,
        }
    }
}

impl Read for StepReader<'_> {
    fn read(&mut self, buf: &mut [u8]) -> io::Result<usize> {
        self.calls = self.calls.saturating_add(1);
        self.least_asked = self.least_asked.min(buf.len());
        if self.calls == self.fails_at {
            return Err(io::Error::from(self.fault));
        }
        let count = buf.len().min(self.rest.len()).min(self.step);
        let (given, rest) = self.rest.split_at(count);
        buf[..count].copy_from_slice(given);
        self.rest = rest;
        Ok(count)
    }
}

/// How much a writer takes: `room` bytes, at most `step` in a call. The call that finds no room answers the
/// fault or, where there is none, takes no bytes.
#[derive(Clone, Copy)]
pub(crate) struct Limits {
    pub(crate) room: usize,
    pub(crate) step: usize,
    pub(crate) fault: Option<ErrorKind>,
}

impl Limits {
    /// Takes all that comes.
    pub(crate) const NONE: Limits = Limits {
        room: usize::MAX,
        step: usize::MAX,
        fault: None,
    };

    /// Whether an answer tells what stopped the writer of a text as it is, or that nothing did.
    pub(crate) fn is_reported(self, answer: &Result<(), Error>, text: &str) -> bool {
        let full = self.room < text.len();
        match answer {
            Ok(()) => !full,
            Err(Error::Io(reported)) => full && self.fault == Some(reported.kind()),
            Err(Error::NoProgress) => full && self.fault.is_none(),
            Err(_) => false,
        }
    }
}

/// A writer of such limits.
#[derive(Drop)]
pub(crate) struct LimitedWriter {
    limits: Limits,
    room: usize,
    taken: Vec<u8>,
    pub(crate) calls: usize,
    flushes: usize,
}

impl LimitedWriter {
    pub(crate) fn new(alloc: Global, limits: Limits) -> LimitedWriter {
        LimitedWriter {
            limits,
            room: limits.room,
            taken: Vec::new(alloc),
            calls: 0,
            flushes: 0,
        }
    }

    /// Whether it was called so often, and took this text.
    pub(crate) fn has_taken(&self, text: &str, calls: usize) -> bool {
        self.calls == calls && self.flushes == 0 && self.taken.as_slice() == text.as_bytes()
    }

    /// Whether as much of the text went out as there was room for, no call followed the one that found
    /// none, and nothing was flushed.
    pub(crate) fn has_front_of(&self, text: &str) -> bool {
        let Limits { room, step, .. } = self.limits;
        let taken = self.taken.as_slice();
        let calls = room.saturating_add(usize::from(room < text.len()));
        let called = self.flushes == 0 && (step > 1 || self.calls == calls);
        called && taken.len() == room.min(text.len()) && text.as_bytes().starts_with(taken)
    }
}

impl Write for LimitedWriter {
    fn write(&mut self, buf: &[u8]) -> io::Result<usize> {
        self.calls = self.calls.saturating_add(1);
        let count = buf.len().min(self.room).min(self.limits.step);
        if count == 0 {
            self.room = usize::MAX;
            return match self.limits.fault {
                Some(fault) => Err(io::Error::from(fault)),
                None => Ok(0),
            };
        }
        self.taken.extend_from_slice(&buf[..count])?;
        self.room -= count;
        Ok(count)
    }

    fn flush(&mut self) -> io::Result<()> {
        self.flushes = self.flushes.saturating_add(1);
        Ok(())
    }
}

/// Whether the faults and the stalls of writing were counted as its answer tells them.
pub(crate) fn is_counted<D>(device: &Watched<'_, D>, answer: &Result<(), Error>) -> bool {
    let wanted = match answer {
        Ok(()) => (0, 0),
        Err(Error::NoProgress) => (0, 1),
        Err(_) => (1, 0),
    };
    (device.failures(), device.stalls()) == wanted
}

/// Whether neither a fault nor a stall was counted.
pub(crate) fn is_quiet<D>(device: &Watched<'_, D>) -> bool {
    device.failures() == 0 && device.stalls() == 0
}

/// The faults of readers.
pub(crate) const READ_FAULTS: [ErrorKind; 3] = [
    ErrorKind::Other,
    ErrorKind::Interrupted,
    ErrorKind::UnexpectedEof,
];

/// The faults of writers; `None` is a writer that takes no bytes.
pub(crate) const WRITE_FAULTS: [Option<ErrorKind>; 3] = [
    Some(ErrorKind::Other),
    Some(ErrorKind::Interrupted),
    None,
];
