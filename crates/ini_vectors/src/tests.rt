//! Tests over the public calls of the other crates that take code: chains of calls, devices, files, edits
//! as values. What a row can ask stands in the case files of `ini_cases`.
mod borrowed;
mod calls;
mod dialects;
mod differences;
mod edits;
mod files;
mod inline_comments;
mod large;
mod layers;
mod layouts;
mod lengths;
mod many_changes;
mod refusals;
mod saving;
mod text_edits;
mod traps;
mod trivia;
