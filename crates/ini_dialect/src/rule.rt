//! The rules of looking up. This file knows nothing of documents.
ghost use Rattle.std.specs.Prelude.{◌≡◌};
ghost use Rattle.ini_dialect.specs.Rules.{default_lookup, is_own};

/// Which sections of a name are looked at.
#[derive(Clone, Copy, PartialEq, Eq, Debug)]
pub enum SectionRule {
    /// The first one alone.
    First,
    /// All of them, as if they were one.
    Joined,
}

/// Which value of a key counts.
#[derive(Clone, Copy, PartialEq, Eq, Debug)]
pub enum ValueRule {
    /// The first.
    First,
    /// The last.
    Last,
}

/// Whether the case of letters tells keys, and names, apart.
#[derive(Clone, Copy, PartialEq, Eq, Debug)]
pub enum CaseRule {
    /// It does.
    Kept,
    /// That of `A` to `Z` doesn't. ASCII letters alone are folded, as git and MySQL do it: keys are made of
    /// them, and no table of Unicode's, which grows by the year, then decides what a file means.
    Ignored,
}

/// How a look-up goes.
#[derive(Clone, Copy, PartialEq, Eq, Debug)]
pub struct Lookup {
    /// Which sections of the name are looked at.
    pub sections: SectionRule,
    /// Which value of the key counts.
    pub values: ValueRule,
    /// Whether keys and names of other case fit.
    pub case: CaseRule,
}

impl Lookup {
    /// Whether it is the default one, by which `Ini`'s calls go.
    pub fn is_own(self) -> bool
        ensures { result ≡ is_own self }
    {
        match (self.sections, self.values, self.case) {
            (SectionRule::First, ValueRule::First, CaseRule::Kept) => true,
            _ => false,
        }
    }
}

/// The first section, the first value, case kept: what the calls of `Ini` and `View` answer.
impl Default for Lookup {
    ghost is_default = { λ rule. rule ≡ default_lookup };

    fn default() -> Lookup {
        Lookup {
            sections: SectionRule::First,
            values: ValueRule::First,
            case: CaseRule::Kept,
        }
    }
}
