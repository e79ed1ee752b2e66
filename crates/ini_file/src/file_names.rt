//! Which dialect a file's name tells. This file knows no text and no device.
ghost use Rattle.std.specs.Prelude.{◌≡◌, map};
ghost use Rattle.std.specs.Option.{option_map};
ghost use Rattle.ini_file.specs.FileNames.{dialect_told, is_any, is_file, tool_told};

/// The name of the dialect that the name of a file tells, whatever folder it stands in: as `.gitconfig`, and
/// units by their ends, as `.service`.
pub fn dialect_told(file: &str) -> Option<&'static str>
    ensures { option_map (λ name. name.now) result ≡ dialect_told file.now }
{
    if is_any(file, &["/.gitconfig", "/.gitmodules"]) {
        Some("git")
    } else if is_any(
        file,
        &[
            ".service", ".socket", ".timer", ".mount", ".target", ".path", ".network", ".netdev",
        ],
    ) {
        Some("systemd")
    } else if is_any(file, &[".desktop", ".directory"]) {
        Some("desktop")
    } else if is_any(
        file,
        &["/setup.cfg", "/tox.ini", "/pytest.ini", "/mypy.ini"],
    ) {
        Some("python")
    } else if is_any(file, &["/php.ini"]) {
        Some("php")
    } else if is_any(file, &["/my.cnf", "/.my.cnf"]) {
        Some("mysql")
    } else if is_any(file, &["/smb.conf"]) {
        Some("samba")
    } else if is_any(file, &["/desktop.ini", ".url", ".inf"]) {
        Some("windows")
    } else {
        tool_told(file)
    }
}

// The same of files that one tool has.
fn tool_told(file: &str) -> Option<&'static str>
    ensures { option_map (λ name. name.now) result ≡ tool_told file.now }
{
    if is_any(file, &["/.editorconfig"]) {
        Some("editorconfig")
    } else if is_any(file, &["/.npmrc"]) {
        Some("npm")
    } else if is_any(file, &["/.hgrc", "/hgrc"]) {
        Some("hg")
    } else if is_any(file, &["/supervisord.conf"]) {
        Some("supervisor")
    } else if is_any(file, &["/jail.conf", "/jail.local"]) {
        Some("fail2ban")
    } else if is_any(file, &["/odbc.ini", "/.odbc.ini", "/odbcinst.ini"]) {
        Some("odbc")
    } else if is_any(file, &["/freetds.conf"]) {
        Some("freetds")
    } else if is_any(file, &["/sssd.conf"]) {
        Some("sssd")
    } else if is_any(file, &["/openssl.cnf"]) {
        Some("openssl")
    } else if is_any(file, &["/uwsgi.ini"]) {
        Some("uwsgi")
    } else if is_any(file, &["/openttd.cfg"]) {
        Some("openttd")
    } else {
        None
    }
}

// Whether a file's name ends in one of these.
fn is_any(file: &str, ends: &[&str]) -> bool
    ensures { result ≡ is_any file.now (map (λ end. end.now) ends.now) }
{
    for end in ends {
        if is_file(file, end) {
            return true;
        }
    }
    false
}

// Whether a file's name ends so, or is what stands after the slash that the end begins with.
fn is_file(file: &str, end: &str) -> bool
    ensures { result ≡ is_file file.now end.now }
{
    match end.as_bytes() {
        [b'/', name @ ..] if file.as_bytes() == name => true,
        end => file.as_bytes().ends_with(end),
    }
}
