//! Edits of texts in pieces. What a row of text can ask of an edit stands in `ini_cases`.
mod random;
pub(crate) mod show;
mod source_calls;
mod source_pairs;
mod source_sections;
mod sources;
