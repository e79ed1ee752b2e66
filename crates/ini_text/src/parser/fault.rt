//! Why reading stops, and before what. This file knows no endpoint and no production.
ghost use Rattle.std.specs.Prelude.{◌≡◌, chars};
ghost use Rattle.ini_text.specs.Errors.Messages.{HasMessage};
ghost use Rattle.ini_text.specs.Inside.Faults.{HasMessage-prop};

use crate::error::ParseKind;
use std::alloc::AllocError;

/// What is wrong with a text, and what is left of it.
#[derive(Clone, Copy)]
pub(crate) struct Fault<'a> {
    pub(crate) kind: ParseKind,
    pub(crate) message: &'static str,
    pub(crate) rest: &'a str,
    ghost is_of_kind: { HasMessage kind message.now } by { HasMessage-prop kind message.now },
}

/// Why reading stops: out of memory, or at a fault.
#[derive(Clone, Copy)]
pub(crate) enum Stop<'a> {
    Memory,
    Fault(Fault<'a>),
}

impl<'a> Stop<'a> {
    ghost use Rattle.std.specs.Prelude.{Some};
    ghost use Rattle.ini_text.specs.Inside.Reading.{fault_of};

    /// A fault before what is left of a text.
    pub(crate) fn new(kind: ParseKind, message: &'static str, rest: &'a str) -> Self
        requires { HasMessage kind message.now }
        ensures { fault_of result ≡ Some (chars rest.now, kind) }
    {
        Stop::Fault(Fault {
            kind,
            message,
            rest,
        })
    }
}

impl From<AllocError> for Stop<'_> {
    ghost use Rattle.ini_text.specs.declared.parser.fault.Stop.TheVariants.{Memory};

    ghost from_gives = { λ _ e. e ≡ Memory };

    fn from(_: AllocError) -> Self {
        Stop::Memory
    }
}
