//! What is written of a warning, in each form. This file knows no text and no device.
ghost use Rattle.std.specs.Prelude.{◌≡◌, ◌++◌, IfOk, OnOk, flat_map, string_bytes};
ghost use Rattle.ini_file.specs.Reports.{after_name, before_name, ends_property, is_uri_byte};
ghost use Rattle.ini_file.specs.Reports.{json_kinds, json_places, name_byte, percent_byte, reported};
ghost use Rattle.ini_file.specs.Reports.{severity};

use crate::json_string::{hex_digit, push_json_byte};
use crate::report_format::Format;
use ini_check::{Level, Warning};
use std::alloc::{AllocError, Global};

/// Puts last what is written of a warning of a file of this name.
pub fn push_report(
    alloc: Global,
    reports: &mut Vec<u8>,
    format: Format,
    file: &str,
    warning: Warning,
) -> Result<(), AllocError>
    ensures { OnOk result (reports.new.items ≡ reports.old.items ++ reported format file.now warning) }
{
    let before = before_name(alloc, format, warning)?;
    let after = after_name(alloc, format, warning)?;
    reports.extend_from_slice(before.as_bytes())?;
    push_name(reports, format, file)?;
    reports.extend_from_slice(after.as_bytes())
}

// What stands before the file's name.
fn before_name(alloc: Global, format: Format, warning: Warning) -> Result<String, AllocError>
    ensures { IfOk result (λ text. string_bytes text ≡ before_name format warning) }
{
    match format {
        Format::Json => String::from_str(alloc, "{\"file\":\""),
        Format::Github => severity_of(alloc, warning),
        Format::Sarif => result_of(alloc, warning),
        _ => Ok(String::new(alloc)),
    }
}

// The front of a command of GitHub's workflows.
fn severity_of(alloc: Global, warning: Warning) -> Result<String, AllocError>
    ensures { IfOk result (λ text. string_bytes text ≡ before_name Format.Github warning) }
{
    let level = severity(warning.trap.level());
    Ok(format!(in alloc; "::{level} file=")?)
}

// The front of a SARIF result after another one.
fn result_of(alloc: Global, warning: Warning) -> Result<String, AllocError>
    ensures { IfOk result (λ text. string_bytes text ≡ before_name Format.Sarif warning) }
{
    let (kind, words) = (warning.trap.name(), warning.trap.message());
    let level = severity(warning.trap.level());
    Ok(format!(in alloc;
        ",\n{{\"ruleId\":\"{kind}\",\"level\":\"{level}\",\"message\":{{\"text\":\"{words}\"}},\
         \"locations\":[{{\"physicalLocation\":{{\"artifactLocation\":{{\"uri\":\""
    )?)
}

// What stands after it.
fn after_name(alloc: Global, format: Format, warning: Warning) -> Result<String, AllocError>
    ensures { IfOk result (λ text. string_bytes text ≡ after_name format warning) }
{
    match format {
        Format::Lines => line_of(alloc, warning),
        Format::Null => fields_of(alloc, warning),
        Format::Json => object_of(alloc, warning),
        Format::Sarif => region_of(alloc, warning),
        Format::Github => command_of(alloc, warning),
    }
}

// The rest of a line that editors read.
fn line_of(alloc: Global, warning: Warning) -> Result<String, AllocError>
    ensures { IfOk result (λ text. string_bytes text ≡ after_name Format.Lines warning) }
{
    let (line, column, words) = (warning.line, warning.column, warning.trap.message());
    Ok(format!(in alloc; ":{line}:{column}: warning: {words}\n")?)
}

// The fields after the file's name, each with NUL before and after it.
fn fields_of(alloc: Global, warning: Warning) -> Result<String, AllocError>
    ensures { IfOk result (λ text. string_bytes text ≡ after_name Format.Null warning) }
{
    let (line, column) = (warning.line, warning.column);
    let (kind, words) = (warning.trap.name(), warning.trap.message());
    Ok(format!(in alloc; "\0{line}\0{column}\0{kind}\0{words}\0")?)
}

// The rest of a JSON object.
fn object_of(alloc: Global, warning: Warning) -> Result<String, AllocError>
    ensures { IfOk result (λ text. string_bytes text ≡ after_name Format.Json warning) }
{
    let mut text = places_of(alloc, warning)?;
    let kinds = kinds_of(alloc, warning)?;
    text.push_str(kinds.as_str())?;
    Ok(text)
}

// The fields of the places in a JSON object.
fn places_of(alloc: Global, warning: Warning) -> Result<String, AllocError>
    ensures { IfOk result (λ text. string_bytes text ≡ json_places warning) }
{
    let (line, column) = (warning.line, warning.column);
    let (end_line, end_column) = (warning.end_line, warning.end_column);
    Ok(format!(in alloc;
        "\",\"line\":{line},\"column\":{column},\"end\":{{\"line\":{end_line},\"column\":{end_column}}}"
    )?)
}

// The fields of the trap in a JSON object, and its end.
fn kinds_of(alloc: Global, warning: Warning) -> Result<String, AllocError>
    ensures { IfOk result (λ text. string_bytes text ≡ json_kinds warning) }
{
    let (kind, words) = (warning.trap.name(), warning.trap.message());
    let level = warning.trap.level().name();
    Ok(format!(in alloc; ",\"kind\":\"{kind}\",\"level\":\"{level}\",\"message\":\"{words}\"}}\n")?)
}

// The region of a SARIF result, and its end.
fn region_of(alloc: Global, warning: Warning) -> Result<String, AllocError>
    ensures { IfOk result (λ text. string_bytes text ≡ after_name Format.Sarif warning) }
{
    let (line, column) = (warning.line, warning.column);
    let (end_line, end_column) = (warning.end_line, warning.end_column);
    Ok(format!(in alloc;
        "\"}},\"region\":{{\"startLine\":{line},\"startColumn\":{column},\
         \"endLine\":{end_line},\"endColumn\":{end_column}}}}}}}]}}"
    )?)
}

// The rest of a command of GitHub's workflows.
fn command_of(alloc: Global, warning: Warning) -> Result<String, AllocError>
    ensures { IfOk result (λ text. string_bytes text ≡ after_name Format.Github warning) }
{
    let (line, column, end_line) = (warning.line, warning.column, warning.end_line);
    let (kind, words) = (warning.trap.name(), warning.trap.message());
    Ok(format!(in alloc; ",line={line},endLine={end_line},col={column},title={kind}::{words}\n")?)
}

// What programs call a level.
fn severity(level: Level) -> &'static str
    ensures { result.now ≡ severity level }
{
    match level {
        Level::LosesData => "error",
        Level::Surprises => "warning",
    }
}

// Puts a file's name last, as the form has it.
fn push_name(reports: &mut Vec<u8>, format: Format, file: &str) -> Result<(), AllocError>
    ensures { OnOk result
        (reports.new.items ≡ reports.old.items ++ flat_map (name_byte format) file.now) }
{
    for byte in file.as_bytes() {
        push_byte(reports, format, *byte)?;
    }
    Ok(())
}

// Puts a byte of a file's name last, as the form has it.
fn push_byte(reports: &mut Vec<u8>, format: Format, byte: u8) -> Result<(), AllocError>
    ensures { OnOk result (reports.new.items ≡ reports.old.items ++ name_byte format byte) }
{
    match format {
        Format::Json => push_json_byte(reports, byte),
        Format::Sarif if !is_uri_byte(byte) => push_percent_byte(reports, byte),
        Format::Github if ends_property(byte) => push_percent_byte(reports, byte),
        _ => {
            reports.push(byte)?;
            Ok(())
        }
    }
}

// Puts a byte last as a percent sign and two digits.
fn push_percent_byte(reports: &mut Vec<u8>, byte: u8) -> Result<(), AllocError>
    ensures { OnOk result (reports.new.items ≡ reports.old.items ++ percent_byte byte) }
{
    reports.extend_from_slice(&[b'%', hex_digit(byte / 16), hex_digit(byte % 16)])
}

// Whether a byte stands for itself in a path of a URI.
fn is_uri_byte(byte: u8) -> bool
    ensures { result ≡ is_uri_byte byte }
{
    byte.is_ascii_alphanumeric() || matches!(byte, b'-' | b'.' | b'/' | b'_' | b'~')
}

// Whether a property of a workflow's command can't have a byte.
fn ends_property(byte: u8) -> bool
    ensures { result ≡ ends_property byte }
{
    matches!(byte, b'%' | b'\n' | b'\r' | b':' | b',')
}
