//! Two odd key types with their laws: keys that all have one code, and keys that are equal without case.
ghost use Rattle.std.specs.Prelude.{◌≡◌, string_bytes, bytes_eq};
ghost use Rattle.std.proofs.Common.{rules, refl, sym};
ghost use Rattle.std.specs.Cmp.Rules.{comparing};
ghost use Rattle.std.specs.Cmp.Lexicographic.{nat_list_eq_equiv, pointwise};
ghost use Rattle.std.specs.Ordering.{on};
ghost use Rattle.ini_multimap.specs.Keys.{text_code};
ghost use Rattle.ini_multimap.specs.KeyLaws.{text_code-eq};
ghost use Rattle.ini_hostile.specs.Keys.{lower};

use ini_multimap::{MapKey, Probe};

/// A text whose code is always 7, so that an index can't tell two keys apart.
#[derive(Debug, Drop)]
pub struct Flat(pub String);

impl PartialEq for Flat {
    ghost eq = { λ a b. bytes_eq (string_bytes a.0) (string_bytes b.0) };

    ghost laws = { Prim.search (comparing, rules) };

    fn eq(&self, other: &Flat) -> bool {
        self.0.as_str() == other.0.as_str()
    }
}

impl Eq for Flat {
    ghost laws = { Prim.search (comparing, rules) };
}

impl MapKey for Flat {
    ghost key_code = { λ k. 7 };

    ghost equal_codes = { λ x y h. refl };

    fn code(&self) -> u64 {
        7
    }
}

/// The text of the key.
impl Probe<Flat> for &str {
    ghost fits = { λ q k. bytes_eq q.now (string_bytes k.0) };

    ghost probe_code = { λ q. 7 };

    ghost one_class = { λ q a b. nat_list_eq_equiv.congr q.now (string_bytes a.0) (string_bytes b.0) };

    ghost same_code = { λ q k h. refl };

    fn is(&self, k: &Flat) -> bool {
        *self == k.0.as_str()
    }

    fn code(&self) -> u64 {
        7
    }
}

/// A text that equals another where their ASCII letters agree in either case.
#[derive(Debug, Drop)]
pub struct NoCase(pub String);

// The code of the text in lower case.
fn lower_code(text: &str) -> u64
    ensures { result ≡ text_code (lower text.now) }
{
    let mut code: u64 = 0;
    for byte in text.as_bytes() {
        code = code
            .wrapping_mul(31)
            .wrapping_add(u64::from(byte.to_ascii_lowercase()));
    }
    code
}

// Whether two texts agree but for the case of ASCII letters.
fn agree(a: &str, b: &str) -> bool
    ensures { result ≡ bytes_eq (lower a.now) (lower b.now) }
{
    a.as_bytes().eq_ignore_ascii_case(b.as_bytes())
}

impl PartialEq for NoCase {
    ghost eq = { λ a b. bytes_eq (lower (string_bytes a.0)) (lower (string_bytes b.0)) };

    ghost laws = { Prim.search (comparing, rules) };

    fn eq(&self, other: &NoCase) -> bool {
        agree(self.0.as_str(), other.0.as_str())
    }
}

impl Eq for NoCase {
    ghost laws = { Prim.search (comparing, rules) };
}

impl MapKey for NoCase {
    ghost key_code = { λ k. text_code (lower (string_bytes k.0)) };

    ghost equal_codes = { λ x y. text_code-eq (lower (string_bytes x.0)) (lower (string_bytes y.0)) };

    fn code(&self) -> u64 {
        lower_code(self.0.as_str())
    }
}

/// The text of the key, in either case.
impl Probe<NoCase> for &str {
    ghost fits = { λ q k. bytes_eq (lower q.now) (lower (string_bytes k.0)) };

    ghost probe_code = { λ q. text_code (lower q.now) };

    ghost one_class = { λ q a b.
        nat_list_eq_equiv.congr (lower q.now) (lower (string_bytes a.0)) (lower (string_bytes b.0)) };

    ghost same_code = { λ q k h. sym (text_code-eq (lower q.now) (lower (string_bytes k.0)) h) };

    fn is(&self, k: &NoCase) -> bool {
        agree(*self, k.0.as_str())
    }

    fn code(&self) -> u64 {
        lower_code(*self)
    }
}
