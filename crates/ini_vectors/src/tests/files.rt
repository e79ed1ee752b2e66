//! Real files: what they hold before and after, and those that can't be opened, read or written.
use ini::{Error, EscapePolicy, Ini, ParseOption, WriteOption};
use std::fs::Permissions;
use std::io::ErrorKind;
use std::os::unix::fs::PermissionsExt;
use std::panic::Expect;
use std::path::Path;
use std::process::Abort;
use std::rt::Files;
use std::test::Fail;
use std::{fs, io};

/// The file that a test writes, in the folder of its own that it runs in.
const NAME: &'static str = "settings.ini";

/// Whether a call told a fault of this kind.
fn is_fault<T: Drop>(answer: Result<T, Error>, kind: ErrorKind) -> bool {
    match answer {
        Err(Error::Io(fault)) => fault.kind() == kind,
        _ => false,
    }
}

/// Whether each form of loading tells a fault of this kind at the name.
fn is_not_read(rt: &(impl Files + AllocGlobal), name: &str, kind: ErrorKind) -> bool {
    let (alloc, path, read) = (rt.alloc(), Path::new(name), ParseOption::default());
    is_fault(Ini::load_from_file(rt, alloc, path), kind)
        && is_fault(Ini::load_from_file_noescape(rt, alloc, path), kind)
        && is_fault(Ini::load_from_file_opt(rt, alloc, path, read), kind)
}

/// Whether each form of writing does.
fn is_not_written(rt: &impl Files, document: &Ini, name: &str, kind: ErrorKind) -> bool {
    let (path, write) = (Path::new(name), WriteOption::default());
    is_fault(document.write_to_file(rt, path), kind)
        && is_fault(
            document.write_to_file_policy(rt, path, EscapePolicy::Everything),
            kind,
        )
        && is_fault(document.write_to_file_opt(rt, path, write), kind)
}

// Whether there are so many pairs before the first header.
fn has_pairs(document: &Ini, count: usize) -> bool {
    match document.section(None) {
        Some(pairs) => pairs.iter().size_hint() == (count, Some(count)),
        None => false,
    }
}

#[test]
fn long_files_are_read_and_written_whole(rt: HostRuntime) -> Result<(), Fail> {
    let (alloc, path) = (rt.alloc(), Path::new(NAME));
    let text = "key=value\n".repeat(alloc, 20_000)?;
    fs::write(&rt, NAME, text.as_bytes())?;
    let by_bytes = Ini::read_from(alloc, &mut text.as_bytes())?;
    let document = Ini::load_from_file(&rt, alloc, path)?;
    assert!(rt; has_pairs(&by_bytes, 20_000) && has_pairs(&document, 20_000));
    fs::remove_file(&rt, NAME)?;
    document.write_to_file(&rt, path)?;
    assert!(rt; fs::read(&rt, NAME)?.as_slice() == text.as_bytes());
    Ok(())
}

#[test]
fn a_file_is_replaced_by_one_beside_it(rt: HostRuntime) -> Result<(), Fail> {
    fs::write(&rt, NAME, "k=1\n")?;
    let mut document = Ini::load_from_file(&rt, rt.alloc(), Path::new(NAME))?;
    document.with_general_section().set("k", "2")?;
    document.write_to_file(&rt, Path::new("settings.ini.new"))?;
    assert!(rt; fs::read(&rt, NAME)?.as_slice() == b"k=1\n".as_slice());
    fs::rename(&rt, "settings.ini.new", NAME)?;
    assert!(rt; fs::read(&rt, NAME)?.as_slice() == b"k=2\n".as_slice());
    assert!(rt; !fs::exists(&rt, "settings.ini.new")?);
    Ok(())
}

/// Names that can't be opened, beside a folder.
const NAMES: [(&'static str, ErrorKind); 4] = [
    ("nowhere/settings.ini", ErrorKind::NotFound),
    ("", ErrorKind::NotFound),
    ("a\0b", ErrorKind::InvalidInput),
    ("folder", ErrorKind::IsADirectory),
];

/// A device that takes no byte, where the system has one. A text without bytes needs no room.
const FULL: &'static str = "/dev/full";

#[test]
fn names_that_can_not_be_opened_and_a_full_device(rt: HostRuntime) -> Result<(), Fail> {
    let alloc = rt.alloc();
    let document = Ini::load_from_str(alloc, "k=v")?;
    fs::create_dir(&rt, "folder")?;
    for (name, kind) in NAMES {
        assert!(rt; is_not_read(&rt, name, kind), "{name}");
        assert!(rt; is_not_written(&rt, &document, name, kind), "{name}");
    }
    fs::remove_dir(&rt, "folder")?;
    if fs::exists(&rt, FULL)? {
        assert!(rt; is_not_written(&rt, &document, FULL, ErrorKind::StorageFull));
        Ini::new(alloc)?.write_to_file(&rt, Path::new(FULL))?;
    }
    Ok(())
}

#[test]
fn a_name_that_is_not_there_is_made_by_writing_alone(rt: HostRuntime) -> Result<(), Fail> {
    let name = "not there before.ini";
    assert!(rt; !fs::exists(&rt, name)?);
    assert!(rt; is_not_read(&rt, name, ErrorKind::NotFound));
    assert!(rt; !fs::exists(&rt, name)?);
    Ini::load_from_str(rt.alloc(), "k=v")?.write_to_file(&rt, Path::new(name))?;
    assert!(rt; fs::read(&rt, name)?.as_slice() == b"k=v\n".as_slice());
    fs::remove_file(&rt, name)?;
    Ok(())
}

/// Gives the file these rights.
fn set_mode(rt: &impl Files, mode: u32) -> io::Result<()> {
    fs::set_permissions(rt, NAME, Permissions::from_mode(mode))
}

/// Whether no form of writing may write the document of the text into the file.
fn is_kept_out(rt: &(impl Files + AllocGlobal + Abort), text: &str) -> bool {
    let document = Ini::load_from_str(rt.alloc(), text).expect(rt, "a document");
    is_not_written(rt, &document, NAME, ErrorKind::PermissionDenied)
}

/// Whether no form of loading may read the file.
fn is_hidden(rt: &(impl Files + AllocGlobal)) -> bool {
    is_not_read(rt, NAME, ErrorKind::PermissionDenied)
}

/// Whether the file's document has this value.
fn has_value(rt: &(impl Files + AllocGlobal), value: &str) -> Result<bool, Error> {
    let kept = Ini::load_from_file(rt, rt.alloc(), Path::new(NAME))?;
    Ok(kept.get_from(None, "k") == Some(value))
}

/// Writes the document of the text into the file.
fn write_document(rt: &(impl Files + AllocGlobal), text: &str) -> Result<(), Error> {
    let document = Ini::load_from_str(rt.alloc(), text)?;
    document.write_to_file(rt, Path::new(NAME))
}

/// Whether the file has these bytes.
fn holds(rt: &(impl Files + AllocGlobal), bytes: &[u8]) -> io::Result<bool> {
    Ok(fs::read(rt, NAME)?.as_slice() == bytes)
}

/// A file that may be read alone.
fn expect_reading_alone(rt: &(impl Files + AllocGlobal + Abort)) -> Result<(), Fail> {
    set_mode(rt, 0o400)?;
    assert!(rt; is_kept_out(rt, "k=2"));
    assert!(rt; has_value(rt, "1")?);
    Ok(())
}

/// A file that may be written alone.
fn expect_writing_alone(rt: &(impl Files + AllocGlobal + Abort)) -> Result<(), Fail> {
    set_mode(rt, 0o200)?;
    assert!(rt; is_hidden(rt));
    write_document(rt, "k=2")?;
    set_mode(rt, 0o600)?;
    assert!(rt; holds(rt, b"k=2\n".as_slice())?);
    Ok(())
}

// One who may open any file, as root may, gets no fault.
#[test]
fn files_without_the_right_to_them(rt: HostRuntime) -> Result<(), Fail> {
    fs::write(&rt, NAME, "k=1\n")?;
    set_mode(&rt, 0)?;
    if fs::open(&rt, NAME).is_ok() {
        return Ok(());
    }
    assert!(rt; is_hidden(&rt) && is_kept_out(&rt, "k=2"));
    expect_reading_alone(&rt)?;
    expect_writing_alone(&rt)
}
