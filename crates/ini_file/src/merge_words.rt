//! The words of a merge: a file and others. This file knows no document and no device.
ghost use Rattle.std.specs.Prelude.{◌≡◌};
ghost use Rattle.std.specs.Option.{option_map};
ghost use Rattle.ini_file.specs.Fronts.{call_of};
ghost use Rattle.ini_file.specs.MergeWords.{merge_asked, merging_of};

use crate::choices::Choices;
use crate::front::Call;
use crate::ruled::Ruled;

/// What the words of a merge are.
#[derive(Clone, Copy)]
pub struct Merging<'a> {
    /// How the files are read and looked up in, and the file is written.
    pub ruled: Ruled<'a>,
    /// The options after the command.
    pub choices: Choices<'a>,
    /// The file's name; `-` is standard input.
    pub file: &'a str,
    /// The names of the files whose values are set in it, one at least.
    pub others: &'a [String],
}

/// What is merged, where a file is named, and one other or more. Takes no memory.
pub fn merge_of<'a>(call: Call<'a>) -> Option<Merging<'a>>
    ensures { option_map merging_of result ≡ merge_asked (call_of call.entry) }
{
    let (file, others) = call.words.split_first()?;
    if others.is_empty() {
        return None;
    }
    Some(Merging {
        ruled: call.ruled(),
        choices: call.choices,
        file: file.as_str(),
        others,
    })
}
