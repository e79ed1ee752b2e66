//! Many calls of one kind on one document, for a measurement beside another program.
//!
//! A question is `CALL SHAPE N TIMES`. The document has N keys in one section where SHAPE is `keys`, and N
//! sections of one key where it is `sections`. The call is made so many times, each time with the next key or
//! section. The answer is the question, the number of pairs that are left, and a sum over the lengths of
//! what the calls answered.
//!
//! CALL is `none`, `get_from`, `set_there`, `set_new`, `append`, `delete_from`, `section`, `len`, `sections`,
//! `setter`, `delete` (a setter's), `is_plain`, `clone`, `merged` (of one layer) or `layered` (a look-up in
//! layers).
pub(crate) mod files;
pub(crate) mod multimap;
mod names;

use crate::calls::names::{Names, layers_of};
use crate::options::invalid;
use ini::{Error, Ini};
use std::alloc::Global;

// How many pairs the document has.
fn pairs(document: &Ini) -> usize {
    let mut pairs: usize = 0;
    for (_, section) in document {
        for _ in section {
            pairs = pairs.wrapping_add(1);
        }
    }
    pairs
}

// Makes the document and then the calls, and answers the pairs that are left and the sum.
fn run(
    alloc: Global,
    call: &str,
    has_sections: bool,
    len: usize,
    times: usize,
) -> Result<(usize, u64), Error> {
    let names = Names::new(alloc, has_sections, len.saturating_mul(2))?;
    let mut document = Ini::new(alloc)?;
    for number in 0..len {
        names.set(&mut document, number)?;
    }
    let mut sum: u64 = 0;
    for turn in 0..times {
        let there = turn.checked_rem(len).unwrap_or(0);
        let answer = names.call(&mut document, call, there, len.saturating_add(there))?;
        sum = sum.wrapping_mul(31).wrapping_add(answer as u64);
    }
    Ok((pairs(&document), sum))
}

// The same of look-ups in the document as the only layer.
fn run_layered(
    alloc: Global,
    has_sections: bool,
    len: usize,
    times: usize,
) -> Result<(usize, u64), Error> {
    let names = Names::new(alloc, has_sections, len)?;
    let mut document = Ini::new(alloc)?;
    for number in 0..len {
        names.set(&mut document, number)?;
    }
    let pairs = pairs(&document);
    let layers = layers_of(alloc, document)?;
    let mut sum: u64 = 0;
    for turn in 0..times {
        let there = turn.checked_rem(len).unwrap_or(0);
        let answer = names.layered(&layers, there);
        sum = sum.wrapping_mul(31).wrapping_add(answer as u64);
    }
    Ok((pairs, sum))
}

/// The answer to a question, without a line end.
pub(crate) fn answer(alloc: Global, line: &str) -> Result<String, Error> {
    let mut words = line.split(' ');
    let (Some(call), Some(shape)) = (words.next(), words.next()) else {
        return Err(invalid().into());
    };
    let (Some(len), Some(times)) = (words.next(), words.next()) else {
        return Err(invalid().into());
    };
    let (Ok(len), Ok(times)) = (len.parse(), times.parse()) else {
        return Err(invalid().into());
    };
    let (pairs, sum) = match call {
        "layered" => run_layered(alloc, shape == "sections", len, times)?,
        _ => run(alloc, call, shape == "sections", len, times)?,
    };
    Ok(format!(in alloc; "{line}: {pairs} {sum}")?)
}
