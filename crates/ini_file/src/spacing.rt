//! How a text is spaced that is laid out, and sorted, as words choose it. This file knows no command and no
//! document.
ghost use Rattle.std.specs.Prelude.{◌≡◌, ◌<◌, IfSome};
ghost use Rattle.ini_file.specs.Spacing.{digit_of, is_spaced, no_spacing, small_number, sorting_of};
ghost use Rattle.ini_file.specs.Spacing.{takes_spacing, with_spacing};

use ini_edit::Sorting;

/// What words choose of a text's spaces and lines, and of their order.
#[derive(Clone, Copy)]
pub struct Spacing {
    /// How many spaces indent a pair.
    pub pair_indentation: Option<u8>,
    /// The most blank lines one after another.
    pub blank_lines: Option<u8>,
    /// What is sorted.
    pub sorting: Option<Sorting>,
}

impl Spacing {
    /// Nothing is chosen.
    pub fn none() -> Spacing
        ensures { result ≡ no_spacing }
    {
        Spacing {
            pair_indentation: None,
            blank_lines: None,
            sorting: None,
        }
    }

    /// Whether something is chosen.
    pub fn is_chosen(self) -> bool
        ensures { result ≡ is_spaced self }
    {
        self.pair_indentation.is_some() || self.blank_lines.is_some() || self.sorting.is_some()
    }

    /// What is chosen after the choice of this name and its text, if that is a number, or of `--sort` names
    /// what is sorted.
    #[tactic(auto, unfolding(crate::specs::Spacing::with_spacing))]
    pub fn with_spacing(self, name: &str, text: &str) -> Option<Spacing>
        ensures { result ≡ with_spacing name.now text.now self }
    {
        let mut spacing = self;
        if name == "--sort" {
            let sorting = sorting_of(text)?;
            spacing.sorting = Some(sorting);
            return Some(spacing);
        }
        let number = small_number(text)?;
        if name == "--indent-pairs" {
            spacing.pair_indentation = Some(number);
        } else {
            spacing.blank_lines = Some(number);
        }
        Some(spacing)
    }
}

/// Whether a text follows the choice of this name, which is about spaces, lines or their order.
pub fn takes_spacing(name: &str) -> bool
    ensures { result ≡ takes_spacing name.now }
{
    matches!(name, "--indent-pairs" | "--blank-lines" | "--sort")
}

/// What a text names that is sorted.
#[tactic(auto, unfolding(crate::specs::Spacing::sorting_of))]
pub fn sorting_of(text: &str) -> Option<Sorting>
    ensures { result ≡ sorting_of text.now }
{
    match text {
        "keys" => Some(Sorting::Keys),
        "sections" => Some(Sorting::Sections),
        "both" => Some(Sorting::Both),
        _ => None,
    }
}

/// The number that one or two decimal digits write.
#[tactic(auto, unfolding(crate::specs::Spacing::small_number))]
pub fn small_number(text: &str) -> Option<u8>
    ensures { result ≡ small_number text.now }
{
    match text.as_bytes() {
        [one] => digit_of(*one),
        [ten, one] => {
            let ten = digit_of(*ten)?;
            let one = digit_of(*one)?;
            Some(ten * 10 + one)
        }
        _ => None,
    }
}

// What a decimal digit stands for.
fn digit_of(byte: u8) -> Option<u8>
    ensures value { result ≡ digit_of byte }
    ensures bound { IfSome result (λ digit. digit < 10) }
{
    if byte.is_ascii_digit() {
        Some(byte - b'0')
    } else {
        None
    }
}
