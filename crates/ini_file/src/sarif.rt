//! A SARIF document around its results. This file knows no warning.
//!
//! No contract says what it is; `tests/program/sarif.py` compares it with the schema's required fields.

use crate::page::VERSION;
use ini_check::TRAPS;
use std::alloc::{AllocError, Global};

/// Results that each stand after a comma, in a document that tells of the tool and of each trap.
pub fn document_of(alloc: Global, results: &[u8]) -> Result<Vec<u8>, AllocError> {
    let mut document = Vec::new(alloc);
    document.extend_from_slice(HEAD)?;
    document.extend_from_slice(VERSION.as_bytes())?;
    document.extend_from_slice(b"\",\"rules\":[")?;
    let mut comma = "";
    for trap in TRAPS {
        let (kind, words) = (trap.name(), trap.message());
        let rule = format!(in alloc;
            "{comma}\n{{\"id\":\"{kind}\",\"shortDescription\":{{\"text\":\"{words}\"}}}}"
        )?;
        document.extend_from_slice(rule.as_bytes())?;
        comma = ",";
    }
    document.extend_from_slice(b"]}},\"columnKind\":\"unicodeCodePoints\",\"results\":[")?;
    if let Some((_, results)) = results.split_first() {
        document.extend_from_slice(results)?;
    }
    document.extend_from_slice(b"]}]}\n")?;
    Ok(document)
}

const HEAD: &[u8] = b"{\"$schema\":\"https://json.schemastore.org/sarif-2.1.0.json\",\
    \"version\":\"2.1.0\",\"runs\":[{\"tool\":{\"driver\":{\"name\":\"ini_file\",\"version\":\"";
