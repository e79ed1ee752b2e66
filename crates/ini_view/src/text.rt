//! Names, keys and values, borrowed or owned: each is seen as its characters, and a multimap of them as the
//! list of what they are. This file knows keys and their codes, and no section.
ghost use Rattle.std.specs.Prelude.{◌≡◌, Option, chars};
ghost use Rattle.std.specs.Cmp.{partial_equiv_from_equiv};
ghost use Rattle.std.specs.Cmp.Lexicographic.{nat_list_eq_equiv, options_equiv};
ghost use Rattle.ini_text.specs.Parsing.Items.{cow_text};
ghost use Rattle.ini.specs.Texts.{is_name, is_text, str_name, str_text};
ghost use Rattle.ini_view.specs.TextKeys.{characters_code, same_code, name_code, same_name_code};
ghost use Rattle.ini_view.specs.TextKeys.{fitting_code, fitting_name_code, names_equiv};

use ini::laws::same_characters;
use ini_multimap::{MapKey, Probe, code_of, is_same};
use std::borrow::CowStr;
use std::marker::Model;

// A key or a value.
#[derive(Debug, Drop)]
pub(crate) struct ViewText<'a> {
    text: CowStr<'a>,
}

impl<'a> Model for ViewText<'a> {
    ghost use Rattle.ini_text.specs.Parsing.Items.{cow_text};
    ghost use Rattle.ini.specs.Texts.{Text};

    ghost Value = { Text };

    ghost view = { λ t. cow_text t.text };
}

impl<'a> ViewText<'a> {
    pub(crate) fn new(text: CowStr<'a>) -> Self
        ensures { result ≡ cow_text text.entry }
    {
        ViewText { text }
    }

    pub(crate) fn as_str(&self) -> &str
        ensures { str_text result ≡ self.now }
    {
        self.text.as_str()
    }
}

// The name of a section; the general one has none.
#[derive(Debug, Drop)]
pub(crate) struct ViewName<'a> {
    name: Option<CowStr<'a>>,
}

impl<'a> Model for ViewName<'a> {
    ghost use Rattle.std.specs.Prelude.{Option};
    ghost use Rattle.std.specs.Option.{option_map};
    ghost use Rattle.ini_text.specs.Parsing.Items.{cow_text};
    ghost use Rattle.ini.specs.Texts.{Text};

    ghost Value = { Option Text };

    ghost view = { λ n. option_map cow_text n.name };
}

impl<'a> ViewName<'a> {
    pub(crate) fn general() -> Self
        ensures { result ≡ None }
    {
        ViewName { name: None }
    }

    pub(crate) fn new(name: CowStr<'a>) -> Self
        ensures { result ≡ Some (cow_text name.entry) }
    {
        ViewName { name: Some(name) }
    }

    pub(crate) fn lent(&self) -> Option<&str>
        ensures { str_name result ≡ self.now }
    {
        match &self.name {
            Some(text) => Some(text.as_str()),
            None => None,
        }
    }
}

// Whether two texts are the same.
#[inline(always)]
fn is_same_text(one: &str, other: &str) -> bool
    ensures { result ≡ is_text (chars one.now) (chars other.now) }
{
    same_characters(one, other);
    is_same(one.as_bytes(), other.as_bytes())
}

// Whether two names are the same.
#[inline(always)]
fn is_same_name(one: Option<&str>, other: Option<&str>) -> bool
    ensures { result ≡ is_name (str_name one.entry) (str_name other.entry) }
{
    match (one, other) {
        (Some(one), Some(other)) => is_same_text(one, other),
        (None, None) => true,
        _ => false,
    }
}

// The code of a text.
#[inline(always)]
fn text_code(text: &str) -> u64
    ensures { result ≡ characters_code (chars text.now) }
{
    code_of(text.as_bytes())
}

// The code of a name: no name has 0, and a name has one more than the code of its text.
#[inline(always)]
fn code_of_name(name: Option<&str>) -> u64
    ensures { result ≡ name_code (str_name name.entry) }
{
    match name {
        None => 0,
        Some(text) => text_code(text).wrapping_add(1),
    }
}

impl<'a> PartialEq for ViewText<'a> {
    ghost eq = { is_text };

    ghost laws = { partial_equiv_from_equiv nat_list_eq_equiv };

    fn eq(&self, other: &Self) -> bool {
        is_same_text(self.as_str(), other.as_str())
    }
}

impl<'a> Eq for ViewText<'a> {
    ghost laws = { nat_list_eq_equiv };
}

impl<'a> MapKey for ViewText<'a> {
    ghost key_code = { characters_code };

    ghost equal_codes = { same_code };

    fn code(&self) -> u64 {
        text_code(self.as_str())
    }
}

impl<'a> Probe<ViewText<'a>> for &str {
    ghost fits = { λ q k. is_text (chars q.now) k };

    ghost probe_code = { λ q. characters_code (chars q.now) };

    ghost one_class = { λ q a b. nat_list_eq_equiv.congr (chars q.now) a b };

    ghost same_code = { λ q k h. fitting_code (chars q.now) k h };

    fn is(&self, k: &ViewText<'a>) -> bool {
        is_same_text(*self, k.as_str())
    }

    // Its type doesn't show the key's lifetime, so it isn't given the trait's clause.
    fn code(&self) -> u64
        ensures { result ≡ characters_code (chars self.now.now) }
    {
        text_code(*self)
    }
}

impl<'a> PartialEq for ViewName<'a> {
    ghost eq = { is_name };

    ghost laws = { partial_equiv_from_equiv names_equiv };

    fn eq(&self, other: &Self) -> bool {
        is_same_name(self.lent(), other.lent())
    }
}

impl<'a> Eq for ViewName<'a> {
    ghost laws = { names_equiv };
}

impl<'a> MapKey for ViewName<'a> {
    ghost key_code = { name_code };

    ghost equal_codes = { same_name_code };

    fn code(&self) -> u64 {
        code_of_name(self.lent())
    }
}

impl<'a> Probe<ViewName<'a>> for Option<&str> {
    ghost fits = { λ q k. is_name (str_name q) k };

    ghost probe_code = { λ q. name_code (str_name q) };

    ghost one_class = { λ q a b. names_equiv.congr (str_name q) a b };

    ghost same_code = { λ q k h. fitting_name_code (str_name q) k h };

    fn is(&self, k: &ViewName<'a>) -> bool {
        is_same_name(*self, k.lent())
    }

    // As the code of a text is.
    fn code(&self) -> u64
        ensures { result ≡ name_code (str_name self.now) }
    {
        code_of_name(*self)
    }
}
