//! Examples of the library, run one after another. Each is a file of its own, to be read and copied; this
//! file knows what they print and no more. Those in `callers` are proved; of them the loops over walks run.
#![tactic(auto)]

mod callers;
mod dialect;
mod edited_text;
mod faults;
mod fleet;
mod migration;
mod peers;
mod report;
mod save;
mod service;
mod settings;
mod traps;
mod upgrade;

use ini::{Error, Ini};

// One port and two paths of a text of settings.
fn show_settings(rt: &HostRuntime) -> Result<(), Error> {
    let settings = "; the fleet\nport = 8080\n[paths]\nlog = /tmp/log\n";
    match settings::port(rt.alloc(), settings)? {
        Some(port) => println!(rt; "port {port}")?,
        None => println!(rt; "no port")?,
    }
    let moved = settings::moved(rt.alloc(), settings, "/var/log/app", "/var/cache/app")?;
    println!(rt; "{moved}")?;
    Ok(())
}

// A document of many sections, and a file.
fn show_documents(rt: &HostRuntime) -> Result<(), Error> {
    let fleet = fleet::Fleet::load(rt.alloc(), fleet::TEXT)?;
    println!(rt; "{fleet}")?;
    let text = fleet::numbered(rt.alloc(), &["red", "green", "blue"])?;
    println!(rt; "{text}")?;
    let saved = save::set_port(rt, rt.alloc(), "9090")?;
    let port = save::port_in_file(rt, rt.alloc())?;
    println!(rt; "saved {saved}, port {port}")?;
    Ok(())
}

// A program's settings, their move to new names, and the layer that a value comes from.
fn show_services(rt: &HostRuntime) -> Result<(), Error> {
    let text = "name = depot\nport = 0\n[upstream]\nserver = a\nserver = b\n";
    let service = service::load(rt.alloc(), text)?;
    let servers = service.servers.len();
    println!(rt; "{}:{}, {servers} servers", service.name, service.port)?;
    match migration::migrate(rt.alloc(), "[database]\nhostname = h\n[cache]\nsize = 1\n")? {
        Some(text) => println!(rt; "{text}")?,
        None => println!(rt; "it would not load back")?,
    }
    match report::find_value(rt.alloc(), "k = 1\n", "[a]\nk = 2\n", None, "k")? {
        Some(found) => println!(rt; "{} from layer {}", found.value, found.layer)?,
        None => println!(rt; "no value")?,
    }
    Ok(())
}

// A refusal in words, an edit, and warnings.
fn show_texts(rt: &HostRuntime) -> Result<(), Error> {
    let reported = faults::reported(rt.alloc(), "[paths]\nlog = /tmp/log\n= /tmp/cache\n")?;
    println!(rt; "{reported}")?;
    match edited_text::with_port(
        rt.alloc(),
        "[server]\n  port\t= 80 \n# of the proxy\n",
        "443",
    ) {
        Ok(text) => println!(rt; "{text}")?,
        Err(refused) => println!(rt; "{refused}")?,
    }
    let warnings = traps::warnings(rt.alloc(), "[log]\nfile = C:\\temp # old\nfile = /tmp\n")?;
    println!(rt; "{warnings}")?;
    Ok(())
}

// A look-up by a dialect's rule, and a merge of three texts.
fn show_dialects(rt: &HostRuntime) -> Result<(), Error> {
    let cloned = Ini::load_from_str(rt.alloc(), "[Core]\neditor = vi\n[core]\nEditor = ed\n")?;
    if let Some(editor) = dialect::git_value(&cloned, "core", "editor") {
        println!(rt; "git's editor is {editor}")?;
    }
    let (old, users) = ("port = 80\nlog = /tmp\n", "port = 8080\nlog = /tmp\n");
    let new = "# the port\nport = 80\nlog = /var/log\n";
    match upgrade::upgraded_text(rt.alloc(), old, users, new)? {
        Some(text) => println!(rt; "{text}")?,
        None => println!(rt; "a change is refused")?,
    }
    Ok(())
}

fn main(rt: HostRuntime) -> Result<(), Error> {
    show_settings(&rt)?;
    show_documents(&rt)?;
    show_services(&rt)?;
    show_texts(&rt)?;
    show_dialects(&rt)?;
    let walked = peers::walked(rt.alloc())?;
    println!(rt; "{walked}")?;
    Ok(())
}
