//! Rules of looking up as C gives them: numbers; and that of a dialect, by its name. This file knows no text.
ghost use Rattle.std.specs.Prelude.{◌≡◌, ◌∷◌, [], ◌↔◌, IfNone, IfSome, IsSomeAnd, IsTrue, None, Some};
ghost use Rattle.std.specs.Str.{IsUtf8};
ghost use Rattle.ini_dialect.specs.Dialects.{dialect_of};
ghost use Rattle.ini_layers.specs.declared.change.SettingValue.TheVariants.{Counting};
ghost use Rattle.ini_c.specs.Changes.{is_own_setting};
ghost use Rattle.ini_c.specs.Rules.{case_rule_of, rule_of, section_rule_of, setting_value_by};
ghost use Rattle.ini_c.specs.Rules.{setting_value_of, value_rule_of};
ghost use Rattle.ini_c.specs.Statuses.{absent, is_among, not_utf8, ok};

use crate::{ABSENT, NOT_UTF8, OK};
use ini_dialect::{CaseRule, Dialect, Lookup, SectionRule, ValueRule};
use ini_layers::SettingValue;

/// By which rule settings are looked up. The struct may grow.
#[repr(C)]
#[derive(Drop)]
pub struct LookupChoice {
    /// How many bytes the struct has.
    pub size: u8,
    /// Which sections of a name are looked at: 0 the first, 1 all of them as if they were one; no other
    /// number.
    pub sections: u8,
    /// Which value of a key counts: 0 the first, 1 the last, 2 all of them, as a list; no other number.
    pub values: u8,
    /// Whether keys and names of other case fit, in the letters `A` to `Z`: 0 or 1; no other number.
    pub ignore_case: u8,
}

/// How settings are looked up, and what a setting's value is.
#[derive(Clone, Copy)]
pub(crate) struct SettingRule {
    pub(crate) which: SettingValue,
    pub(crate) lookup: Lookup,
}

// The first section, the first value, case kept: the rule of the calls that take none.
pub(crate) const OWN: SettingRule = SettingRule {
    which: SettingValue::Counting,
    lookup: Lookup {
        sections: SectionRule::First,
        values: ValueRule::First,
        case: CaseRule::Kept,
    },
};

impl SettingRule {
    // Whether it is that one.
    pub(crate) fn is_own(self) -> bool
        ensures { result ≡ is_own_setting self.which self.lookup }
    {
        match self.which {
            SettingValue::Counting => self.lookup.is_own(),
            SettingValue::List => false,
        }
    }
}

impl LookupChoice {
    /// `None` where a number stands for nothing.
    pub(crate) fn to_rule(&self) -> Option<SettingRule>
        ensures lookup { IfSome result (λ rule. rule_of self.now ≡ Some rule.lookup) }
        ensures which { IfSome result (λ rule. rule.which ≡ setting_value_of self.now) }
        ensures none { IfNone result (rule_of self.now ≡ None) }
    {
        let lookup = Lookup {
            sections: section_rule(self.sections)?,
            values: value_rule(self.values)?,
            case: case_rule(self.ignore_case)?,
        };
        let which = setting_value(self.values);
        Some(SettingRule { which, lookup })
    }
}

// Which sections are looked at, if the number stands for that.
fn section_rule(number: u8) -> Option<SectionRule>
    ensures { result ≡ section_rule_of number }
{
    match number {
        0 => Some(SectionRule::First),
        1 => Some(SectionRule::Joined),
        _ => None,
    }
}

// Which value counts, if the number stands for that. Where all do, either rule will do.
fn value_rule(number: u8) -> Option<ValueRule>
    ensures { result ≡ value_rule_of number }
{
    match number {
        0 | 2 => Some(ValueRule::First),
        1 => Some(ValueRule::Last),
        _ => None,
    }
}

// What a setting's value is, by the same number.
fn setting_value(number: u8) -> SettingValue
    ensures { result ≡ setting_value_by number }
{
    match number {
        2 => SettingValue::List,
        _ => SettingValue::Counting,
    }
}

// Whether case counts, if the number stands for that.
fn case_rule(number: u8) -> Option<CaseRule>
    ensures { result ≡ case_rule_of number }
{
    match number {
        0 => Some(CaseRule::Kept),
        1 => Some(CaseRule::Ignored),
        _ => None,
    }
}

// The number of which sections are looked at.
fn section_number(rule: SectionRule) -> u8
    ensures { section_rule_of result ≡ Some rule }
{
    match rule {
        SectionRule::First => 0,
        SectionRule::Joined => 1,
    }
}

// The number of which value counts, which is not that of all.
fn value_number(rule: ValueRule) -> u8
    ensures rule { value_rule_of result ≡ Some rule }
    ensures counting { setting_value_by result ≡ Counting }
{
    match rule {
        ValueRule::First => 0,
        ValueRule::Last => 1,
    }
}

// The number of whether case is ignored.
fn case_number(rule: CaseRule) -> u8
    ensures { case_rule_of result ≡ Some rule }
{
    match rule {
        CaseRule::Kept => 0,
        CaseRule::Ignored => 1,
    }
}

// Tells the rule.
fn tell_rule(rule: Lookup, lookup: &mut LookupChoice)
    ensures told { rule_of lookup.new ≡ Some rule }
    ensures counting { setting_value_of lookup.new ≡ Counting }
    ensures size { lookup.new.size ≡ lookup.old.size }
{
    lookup.sections = section_number(rule.sections);
    lookup.values = value_number(rule.values);
    lookup.ignore_case = case_number(rule.case);
}

/// Tells by which rule the programs of a dialect look up, of whose values one counts: `ABSENT` where no
/// dialect has the name. Refused, the rule stays; the size always does.
#[unsafe(no_mangle)]
pub extern "C" fn bigrosk_ini_dialect_lookup(name: &[u8], lookup: &mut LookupChoice) -> u32
    ensures told { result ≡ ok → IsSomeAnd (dialect_of name.now) (λ p. rule_of lookup.new ≡ Some p.lookup) }
    ensures counting { result ≡ ok → setting_value_of lookup.new ≡ Counting }
    ensures not_utf8 { result ≡ not_utf8 ↔ ¬ (IsUtf8 name.now) }
    ensures absent { result ≡ absent → dialect_of name.now ≡ None }
    ensures lookup_stays { ¬ (result ≡ ok) → lookup.new ≡ lookup.old }
    ensures size { lookup.new.size ≡ lookup.old.size }
    ensures statuses { IsTrue (is_among result (ok ∷ absent ∷ not_utf8 ∷ [])) }
{
    let Ok(name) = str::from_utf8(name) else {
        return NOT_UTF8;
    };
    let Some(dialect) = Dialect::of_name(name) else {
        return ABSENT;
    };
    tell_rule(dialect.lookup, lookup);
    OK
}
