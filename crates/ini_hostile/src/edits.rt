//! Whole runs from a text to the bytes of its edited document, and lists of edits, with each request for
//! memory refused.
ghost use Rattle.ini_text.specs.Device.Watched.{IsClear};

use crate::devices::is_quiet;
use crate::scarce::{Attempt, refusals};
use crate::show::{is_shown, loaded, text};
use ini::edits::{Edit, apply, edit_text};
use ini::{Error, Ini, ParseOption, Watched, WriteOption};
use std::alloc::Global;
use std::io::Write;
use std::panic::Expect;
use std::process::Abort;

/// Sections of which two have one name.
const PEERS: &'static str = "[p]\nk=1\n[q]\n[p]\nk=2\n";

/// The edits: the first pair k is set, one is added to q, one taken out, and a new section is opened.
pub(crate) fn edits(rt: &(impl Abort + AllocGlobal)) -> Vec<Edit> {
    let edits = [
        Edit::Set(Some(text(rt, "p")), text(rt, "k"), text(rt, "9")),
        Edit::Add(Some(text(rt, "q")), text(rt, "k"), text(rt, "é")),
        Edit::DeleteFrom(Some(text(rt, "p")), text(rt, "k")),
        Edit::Set(Some(text(rt, "n")), text(rt, "k"), text(rt, "v")),
    ];
    Vec::from_array(rt.alloc(), edits).expect(rt, "memory")
}

/// What is written of the edited document.
pub(crate) const EDITED: &'static str = "[p]\n[q]\nk=é\n\n[p]\nk=2\n\n[n]\nk=v\n";

/// What the document shows after none of the edits, after the first, and so on.
const SHOWN: [&'static str; 5] = [
    "general: [p]: <k|1> [q]: [p]: <k|2> ",
    "general: [p]: <k|9> [q]: [p]: <k|2> ",
    "general: [p]: <k|9> [q]: <k|é> [p]: <k|2> ",
    "general: [p]: [q]: <k|é> [p]: <k|2> ",
    "general: [p]: [q]: <k|é> [p]: <k|2> [n]: <k|v> ",
];

/// Edits the text by the default options.
pub(crate) fn edit<W: Write>(
    alloc: Global,
    edits: &[Edit],
    out: &mut Watched<'_, W>,
) -> Result<(), Error>
    requires { IsClear out.old }
{
    let (read, write) = (ParseOption::default(), WriteOption::default());
    edit_text(alloc, PEERS, read, edits, write, out)
}

/// A text that is edited and written to a place. Refused, nothing is written.
#[derive(Drop)]
struct Writing {
    edits: Vec<Edit>,
    place: [u8; 64],
}

impl Attempt for Writing {
    fn is_ready(&mut self, _alloc: Global) -> bool {
        self.place == [0u8; 64]
    }

    // No fault is counted.
    fn make(&mut self, alloc: Global) -> Result<(), Error> {
        let Writing { edits, place } = self;
        let mut writer: &mut [u8] = place;
        let mut out = Watched::new(&mut writer);
        let answer = edit(alloc, edits.as_slice(), &mut out);
        if is_quiet(&out) {
            answer
        } else {
            Err(Error::NoProgress)
        }
    }
}

#[test]
fn each_request_of_an_edited_text_is_refused(rt: HostRuntime) {
    let mut writing = Writing {
        edits: edits(&rt),
        place: [0u8; 64],
    };
    assert!(rt; refusals(&rt, "an edited text", 4, &mut writing) > 0);
    assert!(rt; writing.place.starts_with(EDITED.as_bytes()));
}

/// A document that is edited. Refused, the edits before the refused one stand.
#[derive(Drop)]
struct Editing {
    edits: Vec<Edit>,
    document: Ini,
    most: usize,
}

impl Editing {
    // How many of the edits the document shows; 5 is another document.
    fn made(&self, alloc: Global) -> usize {
        for (made, want) in SHOWN.iter().enumerate() {
            if is_shown(alloc, &self.document, *want) {
                return made;
            }
        }
        SHOWN.len()
    }
}

impl Attempt for Editing {
    // The third edit takes no memory.
    fn is_ready(&mut self, alloc: Global) -> bool {
        let (before, made) = (self.most, self.made(alloc));
        self.most = made;
        match Ini::load_from_str(alloc, PEERS) {
            Ok(document) => self.document = document,
            Err(_) => return false,
        }
        made >= before && matches!(made, 0 | 1 | 3)
    }

    fn make(&mut self, _alloc: Global) -> Result<(), Error> {
        apply(&mut self.document, self.edits.as_slice())
    }
}

#[test]
fn edits_before_a_refused_one_stand(rt: HostRuntime) {
    let mut editing = Editing {
        edits: edits(&rt),
        document: loaded(&rt, PEERS),
        most: 0,
    };
    assert!(rt; refusals(&rt, "edits", 1, &mut editing) > 0);
    assert!(rt; (editing.most, editing.made(rt.alloc())) == (3, 4));
}
