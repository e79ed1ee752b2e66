//! The heap of the C library run down, so that a call has hardly any memory, or none; and calls each of whose
//! requests for memory is refused in turn.
use crate::show::expect;
use ini::Error;
use std::alloc::{AllocError, Global};
use std::panic::Expect;
use std::process::Abort;

// A block that is given back, so that a part of it is what a call has.
const RESERVE: usize = 0x1_0000;

// By how many bytes there is more from one call to the next.
const STEP: usize = 16;

/// How many blocks are free: none, and one.
pub(crate) const FREE: [usize; 2] = [0, 1];

// How many calls there may be.
const CALLS: usize = 1024;

/// Memory that is taken, so that there is none, and blocks to be given back.
#[derive(Drop)]
pub(crate) struct Famine {
    alloc: Global,
    taken: Vec<Vec<u8>>,
    reserves: Vec<Vec<u8>>,
    // How many blocks are free while a call is made.
    free: usize,
}

// A block of the size.
fn block(rt: &impl Abort, alloc: Global, size: usize) -> Vec<u8> {
    Vec::with_capacity(alloc, size).expect(rt, "memory")
}

impl Famine {
    /// Takes nothing yet.
    pub(crate) fn new(rt: &(impl Abort + AllocGlobal)) -> Famine {
        let alloc = rt.alloc();
        let taken = Vec::with_capacity(alloc, 400_000).expect(rt, "memory");
        let mut reserves = Vec::with_capacity(alloc, CALLS).expect(rt, "memory");
        for _ in 0..CALLS {
            reserves
                .push(block(rt, alloc, RESERVE))
                .expect(rt, "memory");
        }
        Famine {
            alloc,
            taken,
            reserves,
            free: 0,
        }
    }

    /// Leaves so many blocks that are free, and no other byte.
    pub(crate) fn leaving(rt: &(impl Abort + AllocGlobal), free: usize) -> Famine {
        let mut famine = Famine::new(rt);
        famine.leave_blocks(rt, free);
        famine
    }

    // Takes blocks of the size until one is refused.
    fn take_blocks(&mut self, size: usize) {
        for _ in 0..20_000 {
            let Ok(block) = Vec::with_capacity(self.alloc, size) else {
                return;
            };
            if self.taken.push(block).is_err() {
                return;
            }
        }
    }

    // Takes all that there is, in blocks of fewer and fewer bytes, so that not one byte is left.
    fn take_all(&mut self, rt: &impl Abort) {
        for bits in 10..35u32 {
            self.take_blocks(1usize << (44 - bits));
        }
        for steps in 0..65usize {
            self.take_blocks(1040 - steps * STEP);
        }
        let refused = Vec::<u8>::with_capacity(self.alloc, 1).is_err();
        assert!(rt; refused, "memory is left");
    }

    /// Leaves so many blocks of 64 KB that are free, and no other byte.
    pub(crate) fn leave_blocks(&mut self, rt: &impl Abort, count: usize) {
        self.free = count;
        self.take_all(rt);
        for _ in 0..count {
            drop(self.reserves.pop().expect(rt, "a reserve"));
        }
    }

    /// Takes the block. Whether it was whole: a request of up to a thousand bytes has split it, and what is
    /// given back of so few bytes isn't joined to it again.
    pub(crate) fn is_whole(&mut self) -> bool {
        match Vec::with_capacity(self.alloc, RESERVE) {
            Ok(block) => self.reserves.push(block).is_ok(),
            Err(_) => false,
        }
    }

    /// Asks that calls held, and that the free blocks are whole, so that they made no request. As many are
    /// left again. Of several calls each but the last gives no memory back.
    pub(crate) fn expect(&mut self, rt: &impl Abort, as_expected: bool, calls: &str) {
        let free = self.free;
        let mut whole = as_expected;
        for _ in 0..free {
            whole = self.is_whole() && whole;
        }
        expect(rt, whole, calls, free);
        self.leave_blocks(rt, free);
    }

    /// Leaves so many bytes, and no other.
    pub(crate) fn with_room(rt: &(impl Abort + AllocGlobal), size: usize) -> Famine {
        let mut famine = Famine::new(rt);
        let room = block(rt, famine.alloc, size);
        famine.take_all(rt);
        drop(room);
        famine
    }

    // Leaves so many steps of bytes until the block that it answers is dropped.
    fn leave(&mut self, rt: &impl Abort, steps: usize) -> Vec<u8> {
        self.leave_blocks(rt, 1);
        let room = steps.saturating_mul(STEP);
        block(rt, self.alloc, RESERVE.saturating_sub(room))
    }
}

/// A call that is made again and again, until it has memory enough.
pub(crate) trait Attempt: Drop {
    /// Readies what the call is given, with ample memory. Whether the calls that were refused left all as it
    /// was.
    fn is_ready(&mut self, alloc: Global) -> bool;

    /// Makes the call. What it does is kept, to be looked at later.
    fn make(&mut self, alloc: Global) -> Result<(), Error>;
}

/// What an attempt answers to a refusal: that memory was refused, where it was refused as it is to be.
pub(crate) fn refused(as_expected: bool) -> Result<(), Error> {
    if as_expected {
        Err(Error::Memory(AllocError))
    } else {
        Err(Error::NotUtf8)
    }
}

/// Makes the call with more and more memory, by so many steps each time, until it is enough. Refused, it
/// tells that memory was, and leaves all as it was. Answers how often it was refused.
pub(crate) fn refusals<A: Attempt>(
    rt: &(impl Abort + AllocGlobal),
    of: &str,
    by: usize,
    attempt: &mut A,
) -> usize {
    let mut famine = Famine::new(rt);
    for times in 0..CALLS {
        let ready = attempt.is_ready(rt.alloc());
        let rest = famine.leave(rt, times.saturating_mul(by));
        let answer = attempt.make(rt.alloc());
        drop(rest);
        let told = matches!(answer, Ok(()) | Err(Error::Memory(_)));
        expect(rt, ready && told, of, times);
        if answer.is_ok() {
            return times;
        }
    }
    panic!(rt; "{of}: never enough")
}
