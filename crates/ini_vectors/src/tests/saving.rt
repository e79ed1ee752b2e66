//! Files that documents are saved to: what they hold then, and that each form of writing cuts the file of
//! the name, which stays the same file.
use ini::{Error, EscapePolicy, Ini, WriteOption};
use std::fs;
use std::fs::Permissions;
use std::os::unix::fs::{PermissionsExt, symlink};
use std::path::Path;
use std::rt::Files;
use std::test::Fail;

/// The forms of writing onto a file.
#[derive(Clone, Copy, Debug)]
enum Form {
    ToFile,
    Policy,
    Opt,
}

impl Form {
    /// Writes the document onto the file; by a policy of its own where the form takes one alone.
    fn write(self, rt: &impl Files, document: &Ini, name: &str) -> Result<(), Error> {
        let path = Path::new(name);
        match self {
            Form::ToFile => document.write_to_file(rt, path),
            Form::Policy => document.write_to_file_policy(rt, path, EscapePolicy::BasicsUnicode),
            Form::Opt => document.write_to_file_opt(rt, path, WriteOption::default()),
        }
    }
}

/// The folder that a test makes and removes, and files in it.
const FOLDER: &'static str = "saved";

const FIRST: &'static str = "saved/first.ini";

const OTHER_NAME: &'static str = "saved/other name.ini";

const SECOND: &'static str = "saved/second.ini";

const LINK: &'static str = "saved/link.ini";

/// What a file holds before: more than what is written.
const BEFORE: &'static str = "key=longer than what is written\n";

// A folder of two files, of which the first has rights of its own, another name and a link to it.
fn make_files(rt: &impl Files) -> Result<(), Fail> {
    fs::create_dir(rt, FOLDER)?;
    fs::write(rt, FIRST, BEFORE)?;
    fs::set_permissions(rt, FIRST, Permissions::from_mode(0o600))?;
    fs::hard_link(rt, FIRST, OTHER_NAME)?;
    symlink(rt, "first.ini", LINK)?;
    fs::write(rt, SECOND, BEFORE)?;
    Ok(())
}

// Whether the first file alone is written, and still has its rights, its other name and its link.
fn is_written(rt: &(impl Files + AllocGlobal)) -> Result<bool, Fail> {
    let first = fs::read(rt, FIRST)?;
    let other_name = fs::read(rt, OTHER_NAME)?;
    let second = fs::read(rt, SECOND)?;
    let rights = fs::metadata(rt, FIRST)?.permissions().mode() & 0o777;
    let is_link = fs::symlink_metadata(rt, LINK)?.file_type().is_symlink();
    let want = b"k=v\n".as_slice();
    let are_same = first.as_slice() == want && other_name.as_slice() == want;
    Ok(are_same && second.as_slice() == BEFORE.as_bytes() && rights == 0o600 && is_link)
}

#[test]
fn a_file_is_written_in_its_place_and_through_a_link(rt: HostRuntime) -> Result<(), Fail> {
    let document = Ini::load_from_str(rt.alloc(), "k=v")?;
    for form in [Form::ToFile, Form::Policy, Form::Opt] {
        for name in [FIRST, OTHER_NAME, LINK] {
            make_files(&rt)?;
            form.write(&rt, &document, name)?;
            assert!(rt; is_written(&rt)?, "{form:?} {name}");
            fs::remove_dir_all(&rt, FOLDER)?;
        }
    }
    Ok(())
}
