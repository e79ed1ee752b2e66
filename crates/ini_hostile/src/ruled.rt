//! What a rule like git's makes of texts, with each request for memory refused in turn: a document of its
//! own, changes made in a text in pieces, lists of values, a three-way merge, and its conflicts. Refused, the
//! call tells that and the text stays. And large texts, for which memory is enough.
use crate::scarce::{Attempt, refusals};
use crate::show::{expect_text, joined, loaded, numbered, shown};
use ini::{Error, Ini, ParseOption, WriteOption};
use ini_dialect::{AnyDocument, CaseRule, Lookup, SectionRule, ValueRule, list_text, list_values};
use ini_edit::{EditError, Source};
use ini_layers::{
    Change, FlatSides, SettingValue, Side, apply, apply_by, apply_in_place, commented, diff, merge,
};
use ini_view::View;
use std::alloc::Global;
use std::panic::Expect;
use std::process::Abort;

/// Sections of one name are one, the last value counts, and case tells nothing apart.
const RULE: Lookup = Lookup {
    sections: SectionRule::Joined,
    values: ValueRule::Last,
    case: CaseRule::Ignored,
};

const BASE: &'static str = "[a]\nk=0\nl=0\n[A]\nK=1\n";

const OURS: &'static str = "[a]\nk=2\n[B]\nj=1\n";

const THEIRS: &'static str = "; c\n[a]\nk = 1\nj=0\n[b]\nl=5\n[A]\nK = 3\nL=0\ni=4\n";

/// The calls, and what each makes of these.
const ROWS: [(&'static str, &'static str); 14] = [
    ("flatten a document", "general: [a]: <k|1> <l|0> "),
    ("flatten a view", "general: [a]: <k|1> <l|0> "),
    (
        "flatten pieces",
        "general: [a]: <k|3> <j|0> <l|0> <i|4> [b]: <l|5> ",
    ),
    (
        "apply",
        "; c\n[a]\nk = 1\nj=0\n[b]\nl=5\nj=1\n[A]\nK = 2\ni=4\n",
    ),
    (
        "apply in place",
        "; c\n[a]\nk = 1\nj=0\n[b]\nl=5\n[A]\nK = new\nL=0\ni=4\n",
    ),
    (
        "merge for ours",
        "; c\n[a]\nk = 1\nj=0\n[b]\nl=5\nj=1\n[A]\nK = 2\ni=4\n",
    ),
    (
        "merge for theirs",
        "; c\n[a]\nk = 1\nj=0\n[b]\nl=5\nj=1\n[A]\nK = 3\ni=4\n",
    ),
    ("conflicts", "a k 1 2 3\n"),
    (
        "list pieces",
        "general: [a]: <k|1\n3> <j|0> <l|0> <i|4> [b]: <l|5> ",
    ),
    (
        "set all",
        "; c\n[a]\nk = 1\nj=0\n[b]\nl=7\nl=8\n[A]\nK = 3\nL=0\ni=4\n",
    ),
    (
        "apply lists",
        "; c\n[a]\nk = 2\nj=0\n[b]\nl=5\nj=1\n[A]\ni=4\n",
    ),
    (
        "merge lists",
        "; c\n[a]\nk = 2\nj=0\n[b]\nl=5\nj=1\n[A]\ni=4\n",
    ),
    ("a list and back", "a\\nb\nc"),
    (
        "comments of pieces",
        "general: [a]: <k|> <j|> [b]: <l|> [A]: <K|> <L|> <i|> ",
    ),
];

/// Conflicts, a line each: the section's name, the key, and the three values.
fn conflicts(alloc: Global, sides: &FlatSides) -> Result<String, Error> {
    let mut out = String::new(alloc);
    for conflict in &sides.conflicts(alloc)? {
        let change = conflict.change;
        let (name, key) = (change.name.unwrap_or("general"), change.key);
        let (base, ours) = (change.old.unwrap_or("none"), change.new.unwrap_or("none"));
        let theirs = conflict.theirs.unwrap_or("none");
        out.push_str(format!(in alloc; "{name} {key} {base} {ours} {theirs}\n")?.as_str())?;
    }
    Ok(out)
}

// A list, once it was read back and written again.
fn read_back(alloc: Global) -> Result<String, Error> {
    let list = list_text(alloc, &["a\nb", "c"])?.unwrap_or(String::new(alloc));
    let values = list_values(alloc, &list)?;
    let [one, other] = values.as_slice() else {
        return Err(Error::NotUtf8);
    };
    let again = list_text(alloc, &[one.as_str(), other.as_str()])?;
    Ok(again.unwrap_or(String::new(alloc)))
}

/// A call, its texts, and what it has made.
#[derive(Drop)]
struct Ruled<'a> {
    call: &'a str,
    base: Ini,
    base_view: View<'a>,
    ours: Ini,
    theirs: Source<'a>,
    made: Option<String>,
}

impl Ruled<'_> {
    // Whether what was made, or else theirs, is this text.
    fn is_text(&self, alloc: Global, want: &str) -> bool {
        if let Some(text) = &self.made {
            return text.as_str() == want;
        }
        match self.theirs.to_text(alloc) {
            Ok(text) => text.as_str() == want,
            Err(_) => false,
        }
    }

    fn flattened(&self, alloc: Global) -> Result<Ini, Error> {
        let document = match self.call {
            "flatten a document" => AnyDocument::Ini(&self.base),
            "flatten a view" => AnyDocument::View(&self.base_view),
            _ => AnyDocument::Source(&self.theirs),
        };
        match self.call {
            "list pieces" => RULE.listed(alloc, document),
            "comments of pieces" => commented(alloc, &self.theirs),
            _ => RULE.flattened(alloc, document),
        }
    }

    // Makes the lists that ours changed in theirs.
    fn lists_applied(&self, alloc: Global) -> Result<String, EditError> {
        let which = SettingValue::List;
        let base = which.flat(alloc, RULE, AnyDocument::Ini(&self.base))?;
        let ours = which.flat(alloc, RULE, AnyDocument::Ini(&self.ours))?;
        let changes = diff(alloc, &base, &ours)?;
        let (write, theirs) = (WriteOption::default(), &self.theirs);
        match apply_by(alloc, which, RULE, &write, changes.as_slice(), theirs) {
            Ok(new) => Ok(new.to_text(alloc)?),
            Err(refused) => Err(refused.refusal),
        }
    }

    // The same by a merge for ours.
    fn lists_merged(&self, alloc: Global) -> Result<String, EditError> {
        let (which, theirs) = (SettingValue::List, &self.theirs);
        let sides = FlatSides::by(alloc, which, RULE, &self.base, &self.ours, theirs)?;
        let write = WriteOption::default();
        match sides.merge_by(alloc, which, RULE, &write, theirs, Side::Ours) {
            Ok(new) => Ok(new.to_text(alloc)?),
            Err(refused) => Err(refused.refusal),
        }
    }

    // Makes what ours changed in theirs.
    fn applied(&self, alloc: Global) -> Result<String, EditError> {
        let base = RULE.flattened(alloc, AnyDocument::Ini(&self.base))?;
        let ours = RULE.flattened(alloc, AnyDocument::Ini(&self.ours))?;
        let changes = diff(alloc, &base, &ours)?;
        let write = WriteOption::default();
        match apply(alloc, RULE, &write, changes.as_slice(), &self.theirs) {
            Ok(new) => Ok(new.to_text(alloc)?),
            Err(refused) => Err(refused.refusal),
        }
    }

    fn merged(&self, alloc: Global, side: Side) -> Result<String, EditError> {
        let write = WriteOption::default();
        let (base, ours, theirs) = (&self.base, &self.ours, &self.theirs);
        match merge(alloc, RULE, &write, base, ours, theirs, side) {
            Ok(new) => Ok(new.to_text(alloc)?),
            Err(refused) => Err(refused.refusal),
        }
    }

    fn conflicts(&self, alloc: Global) -> Result<String, EditError> {
        let sides = FlatSides::new(alloc, RULE, &self.base, &self.ours, &self.theirs)?;
        Ok(conflicts(alloc, &sides)?)
    }

    fn shown(&self, alloc: Global) -> Result<String, EditError> {
        let document = self.flattened(alloc)?;
        Ok(shown(alloc, &document).map_err(Error::from)?)
    }

    // What the call makes beside theirs.
    fn text_made(&self, alloc: Global) -> Result<String, EditError> {
        match self.call {
            "apply" => self.applied(alloc),
            "merge for ours" => self.merged(alloc, Side::Ours),
            "merge for theirs" => self.merged(alloc, Side::Theirs),
            "conflicts" => self.conflicts(alloc),
            "apply lists" => self.lists_applied(alloc),
            "merge lists" => self.lists_merged(alloc),
            "a list and back" => Ok(read_back(alloc)?),
            _ => self.shown(alloc),
        }
    }

    // Changes theirs in place.
    fn change(&mut self, alloc: Global) -> Result<(), EditError> {
        let (write, theirs) = (WriteOption::default(), &mut self.theirs);
        if self.call == "set all" {
            return RULE.set_all_in_source(alloc, &write, theirs, Some("B"), "l", &["7", "8"]);
        }
        let change = Change {
            name: Some("A"),
            key: "k",
            old: None,
            new: Some("new"),
        };
        apply_in_place(alloc, RULE, &write, change, theirs)
    }

    // What the call makes, if it is no text in place of theirs.
    fn answer(&mut self, alloc: Global) -> Result<Option<String>, EditError> {
        match self.call {
            "set all" | "apply in place" => {
                self.change(alloc)?;
                Ok(None)
            }
            _ => Ok(Some(self.text_made(alloc)?)),
        }
    }
}

impl Attempt for Ruled<'_> {
    fn is_ready(&mut self, alloc: Global) -> bool {
        self.is_text(alloc, THEIRS)
    }

    fn make(&mut self, alloc: Global) -> Result<(), Error> {
        match self.answer(alloc) {
            Ok(made) => {
                self.made = made;
                Ok(())
            }
            Err(EditError::Text(refused)) => Err(refused),
            Err(_) => Err(Error::NotUtf8),
        }
    }
}

#[test]
fn each_request_of_a_call_under_a_rule_is_refused(rt: HostRuntime) {
    let alloc = rt.alloc();
    for (call, want) in ROWS {
        let mut ruled = Ruled {
            call,
            base: loaded(&rt, BASE),
            base_view: View::load_from_str(alloc, BASE).expect(&rt, "a view"),
            ours: loaded(&rt, OURS),
            theirs: Source::read(alloc, THEIRS, ParseOption::default()).expect(&rt, "pieces"),
            made: None,
        };
        // as few bytes as any block takes
        let refused = refusals(&rt, call, 2, &mut ruled);
        assert!(rt; refused > 0 && ruled.is_text(alloc, want), "{call}");
    }
}

// A section of two thousand keys and two thousand sections, of which the first values are this one, and an
// end.
fn large(rt: &(impl Abort + AllocGlobal), first: &str, end: &str) -> String {
    let pairs = numbered(rt, "key@=@\n", 1, 1999);
    let sections = numbered(rt, "[section @]\nk=@\n", 1, 1999);
    let before = joined(rt, &["[a]\nkey0=", first, "\n", &pairs]);
    joined(
        rt,
        &[&before, "[section 0]\nk=", first, "\n", &sections, end],
    )
}

/// The last key and the last section again, in other letters.
const AGAIN: &'static str = "[A]\nKEY1999 = x\n[Section 1999]\nK = y\n";

#[test]
fn large_texts_are_merged_by_a_rule(rt: HostRuntime) {
    let alloc = rt.alloc();
    let base = loaded(&rt, &large(&rt, "0", ""));
    let ours = loaded(&rt, &large(&rt, "new", "[a]\nkey1999=z\n"));
    let text = large(&rt, "0", AGAIN);
    let theirs = Source::read(alloc, &text, ParseOption::default()).expect(&rt, "pieces");
    let sides = FlatSides::new(alloc, RULE, &base, &ours, &theirs).expect(&rt, "memory");
    let flat = &sides.theirs;
    assert!(rt; flat.len() == 2002);
    assert!(rt; flat.get_from(Some("a"), "key1999") == Some("x"));
    assert!(rt; flat.get_from(Some("a"), "key1998") == Some("1998"));
    assert!(rt; flat.get_from(Some("section 1999"), "k") == Some("y"));
    let found = conflicts(alloc, &sides).expect(&rt, "memory");
    expect_text(&rt, &found, "a key1999 1999 z x\n");
    let write = WriteOption::default();
    for (side, end) in [
        (Side::Theirs, AGAIN),
        (Side::Ours, "[A]\nKEY1999 = z\n[Section 1999]\nK = y\n"),
    ] {
        let merged = merge(alloc, RULE, &write, &base, &ours, &theirs, side).expect(&rt, "memory");
        let merged = merged.to_text(alloc).expect(&rt, "memory");
        expect_text(&rt, &merged, &large(&rt, "new", end));
    }
}

#[test]
fn large_lists_are_set_and_read(rt: HostRuntime) {
    let alloc = rt.alloc();
    let text = numbered(&rt, "k=@\n", 0, 4000);
    let mut source = Source::read(alloc, &text, ParseOption::default()).expect(&rt, "pieces");
    let lists = RULE
        .listed(alloc, AnyDocument::Source(&source))
        .expect(&rt, "memory");
    let list = lists.get_from(None, "k").expect(&rt, "a list");
    let lines = list.replace(alloc, '\n', "\nk=").expect(&rt, "memory");
    expect_text(&rt, &joined(&rt, &["k=", &lines, "\n"]), &text);
    let values = list_values(alloc, list).expect(&rt, "memory");
    let last = values.as_slice().last().expect(&rt, "a value");
    assert!(rt; values.len() == 4000 && last.as_str() == "3999");
    let write = WriteOption::default();
    let few = ["a", "b"];
    RULE.set_all_in_source(alloc, &write, &mut source, None, "K", &few)
        .expect(&rt, "they are set");
    let new = source.to_text(alloc).expect(&rt, "memory");
    expect_text(&rt, &new, "k=a\nk=b\n");
}
