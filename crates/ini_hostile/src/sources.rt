//! Each request for memory of an edit of a text in pieces refused in turn, of changes made in it, and of a
//! three-way merge: refused, the edit tells that and the text stays; else it is made.
use crate::scarce::{Attempt, refusals};
use crate::show::loaded;
use ini::{EscapePolicy, Ini, ParseOption, WriteOption};
use ini_dialect::Lookup;
use ini_edit::{Edit, EditError, LaterPairs, Source};
use ini_layers::{Side, apply, diff, merge};
use ini_text::Error;
use std::alloc::Global;
use std::panic::Expect;
use std::process::Abort;

const TEXT: &str = "; c\n[a]\n; of k\nk = 1\nj=2\nk=3\n\n; of b\n[b]\nk=4";

/// The edits, and what each makes of the text.
const ROWS: [(&str, &str); 14] = [
    ("set", "; c\n[a]\n; of k\nk = new\nj=2\n\n; of b\n[b]\nk=4"),
    (
        "set_nth",
        "; c\n[a]\n; of k\nk = 1\nj=2\nk=new\n\n; of b\n[b]\nk=4",
    ),
    (
        "set_all",
        "; c\n[a]\n; of k\nk = x\nj=2\nk=y\n\n; of b\n[b]\nk=4",
    ),
    (
        "add",
        "; c\n[a]\n; of k\nk = 1\nj=2\nk=3\n\n; of b\n[b]\nk=4\nnew=v\n",
    ),
    (
        "insert",
        "; c\n[a]\n; of k\nk = 1\nnew = v\nj=2\nk=3\n\n; of b\n[b]\nk=4",
    ),
    ("delete", "; c\n[a]\n; of k\nj=2\nk=3\n\n; of b\n[b]\nk=4"),
    ("delete_all", "; c\n[a]\n; of k\nj=2\n\n; of b\n[b]\nk=4"),
    (
        "rename_key",
        "; c\n[a]\n; of k\nnew = 1\nj=2\nk=3\n\n; of b\n[b]\nk=4",
    ),
    (
        "rename_section",
        "; c\n[new]\n; of k\nk = 1\nj=2\nk=3\n\n; of b\n[b]\nk=4",
    ),
    ("delete_section", "; c\n; of b\n[b]\nk=4"),
    (
        "add_section",
        "; c\n[a]\n; of k\nk = 1\nj=2\nk=3\n\n; of b\n[b]\nk=4\n\n[new]\n",
    ),
    (
        "set_comment",
        "; c\n[a]\n# new\nk = 1\nj=2\nk=3\n\n; of b\n[b]\nk=4",
    ),
    (
        "comment_out",
        "; c\n[a]\n; of k\n; k = 1\nj=2\nk=3\n\n; of b\n[b]\nk=4",
    ),
    (
        "list",
        "; c\n[a]\n; of k\nnew = 1\nj=2\nk=3\n\n; of b\n[b]\nk=5",
    ),
];

const LIST: [Edit<'static>; 2] = [
    Edit::RenameKey {
        name: Some("a"),
        old: "k",
        new: "new",
    },
    Edit::Set {
        name: Some("b"),
        key: "k",
        value: "5",
    },
];

const BASE: &str = "[a]\nk=1\nl=0\n";

const OURS: &str = "[a]\nk=2\n[b]\nj=1\n";

const THEIRS: &str = "; c\n[a]\nk = 3\nl=0\ni=4\n";

/// What changes from the base to ours, and a merge of both, make of theirs.
const MADE: &str = "; c\n[a]\nk = 2\ni=4\n\n[b]\nj=1\n";

fn make_of_section(alloc: Global, source: &mut Source<'_>, edit: &str) -> Result<bool, EditError> {
    let write = WriteOption::default();
    match edit {
        "rename_section" => source.rename_section(alloc, EscapePolicy::Basics, "a", "new"),
        "delete_section" => Ok(source.delete_section(alloc, "a")?),
        "add_section" => source.add_section(alloc, &write, "new"),
        "set_comment" => source.set_comment(alloc, &write, Some("a"), "k", "# new\n"),
        "comment_out" => source.comment_out(alloc, Some("a"), "k"),
        // its refusals are told with an index, of which nothing is asked here
        _ => match source.make_edits(alloc, &write, LaterPairs::Left, &LIST) {
            Ok(_) => Ok(true),
            Err(refused) => Err(refused.refusal),
        },
    }
}

fn make(alloc: Global, source: &mut Source<'_>, edit: &str) -> Result<bool, EditError> {
    let policy = EscapePolicy::Basics;
    let write = WriteOption::default();
    let (a, later) = (Some("a"), LaterPairs::TakenOut);
    match edit {
        "set" => source.set_existing(alloc, policy, later, a, "k", "new"),
        "set_nth" => source.set_nth(alloc, policy, a, "k", 1, "new"),
        "set_all" => {
            source.set_all(alloc, &write, a, "k", &["x", "y"])?;
            Ok(true)
        }
        "add" => {
            source.add(alloc, &write, Some("b"), "new", "v")?;
            Ok(true)
        }
        "insert" => source.insert_before(alloc, &write, a, "j", "new", "v"),
        "delete" => Ok(source.delete(alloc, a, "k")?),
        "delete_all" => Ok(source.delete_all(alloc, a, "k")?),
        "rename_key" => source.rename_key(alloc, policy, a, "k", "new"),
        _ => make_of_section(alloc, source, edit),
    }
}

// Makes the changes, or merges the documents.
fn make_merge<'a>(
    alloc: Global,
    theirs: &Source<'a>,
    edit: &str,
    (base, ours): (&Ini, &Ini),
) -> Result<Source<'a>, EditError> {
    let write = WriteOption::default();
    let answer = if edit == "apply" {
        let changes = diff(alloc, base, ours)?;
        apply(alloc, Lookup::default(), &write, changes.as_slice(), theirs)
    } else {
        merge(
            alloc,
            Lookup::default(),
            &write,
            base,
            ours,
            theirs,
            Side::Ours,
        )
    };
    match answer {
        Ok(new) => Ok(new),
        Err(refused) => Err(refused.refusal),
    }
}

/// An edit of a text in pieces, and what a merge has made of it.
#[derive(Drop)]
struct Editing<'a> {
    edit: &'a str,
    text: &'a str,
    source: Source<'a>,
    merges: bool,
    merged: Option<String>,
    base: Ini,
    ours: Ini,
}

impl Editing<'_> {
    // Whether what was merged, or else the pieces, are this text.
    fn is_text(&self, alloc: Global, want: &str) -> bool {
        if let Some(text) = &self.merged {
            return text.as_str() == want;
        }
        match self.source.to_text(alloc) {
            Ok(text) => text.as_str() == want,
            Err(_) => false,
        }
    }

    // Makes the edit. Whether its pair or section was found.
    fn found(&mut self, alloc: Global) -> Result<bool, EditError> {
        if !self.merges {
            return make(alloc, &mut self.source, self.edit);
        }
        match make_merge(alloc, &self.source, self.edit, (&self.base, &self.ours)) {
            Ok(new) => {
                self.merged = Some(new.to_text(alloc)?);
                Ok(true)
            }
            Err(refused) => Err(refused),
        }
    }
}

impl Attempt for Editing<'_> {
    fn is_ready(&mut self, alloc: Global) -> bool {
        self.is_text(alloc, self.text)
    }

    fn make(&mut self, alloc: Global) -> Result<(), Error> {
        match self.found(alloc) {
            Ok(true) => Ok(()),
            Err(EditError::Text(refused)) => Err(refused),
            _ => Err(Error::NotUtf8),
        }
    }
}

/// Asks that the edit makes this of the text, where each request for memory is refused before.
fn expect_edit(rt: &(impl Abort + AllocGlobal), edit: &str, text: &str, want: &str) {
    let read = ParseOption::default();
    let mut editing = Editing {
        edit,
        text,
        source: Source::read(rt.alloc(), text, read).expect(rt, "memory"),
        merges: text == THEIRS,
        merged: None,
        base: loaded(rt, BASE),
        ours: loaded(rt, OURS),
    };
    let refused = refusals(rt, edit, 1, &mut editing);
    assert!(rt; refused > 0 && editing.is_text(rt.alloc(), want), "{edit}");
}

#[test]
fn each_request_of_an_edit_in_pieces_is_refused(rt: HostRuntime) {
    for (edit, want) in ROWS {
        expect_edit(&rt, edit, TEXT, want);
    }
    for edit in ["apply", "merge"] {
        expect_edit(&rt, edit, THEIRS, MADE);
    }
}
