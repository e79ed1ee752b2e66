//! The words of `diff`, `apply` and `merge3`, which are over two files and over three. This file knows no
//! document and no device.
ghost use Rattle.std.specs.Prelude.{◌≡◌};
ghost use Rattle.std.specs.Option.{option_map};
ghost use Rattle.ini_file.specs.Fronts.{call_of};
ghost use Rattle.ini_file.specs.SideWords.{application_asked, applied_of, compared_of, comparison_asked};
ghost use Rattle.ini_file.specs.SideWords.{three_way_asked, three_way_of};

use crate::choices::Choices;
use crate::front::Call;
use crate::ruled::Ruled;

/// What the words of `diff` are.
#[derive(Clone, Copy)]
pub struct Comparison<'a> {
    /// How the files are read and looked up in.
    pub ruled: Ruled<'a>,
    /// The options after the command.
    pub choices: Choices<'a>,
    /// The name of the first file; `-` is standard input.
    pub from: &'a str,
    /// That of the second.
    pub to: &'a str,
}

/// What the words of `apply` are.
#[derive(Clone, Copy)]
pub struct Application<'a> {
    /// How the file is read, looked up in and written.
    pub ruled: Ruled<'a>,
    /// The options after the command.
    pub choices: Choices<'a>,
    /// The name of the file; `-` is standard input.
    pub file: &'a str,
    /// That of the file with the edits.
    pub edits: &'a str,
}

/// What the words of `merge3` are.
#[derive(Clone, Copy)]
pub struct ThreeWay<'a> {
    /// How the files are read and looked up in, and what is made of them is written.
    pub ruled: Ruled<'a>,
    /// The options after the command.
    pub choices: Choices<'a>,
    /// The name of the file that both others come from; `-` is standard input.
    pub base: &'a str,
    /// That of the file whose changes are taken.
    pub ours: &'a str,
    /// That of the file in which they are made.
    pub theirs: &'a str,
}

/// What is compared, where there are two files. Takes no memory.
pub fn comparison_of<'a>(call: Call<'a>) -> Option<Comparison<'a>>
    ensures { option_map compared_of result ≡ comparison_asked (call_of call.entry) }
{
    match call.words {
        [from, to] => Some(Comparison {
            ruled: call.ruled(),
            choices: call.choices,
            from: from.as_str(),
            to: to.as_str(),
        }),
        _ => None,
    }
}

/// What is applied, where a file and the edits' file are named; that may be missing, and is standard input
/// then, which the other file isn't. Takes no memory.
pub fn application_of<'a>(call: Call<'a>) -> Option<Application<'a>>
    ensures { option_map applied_of result ≡ application_asked (call_of call.entry) }
{
    let (file, edits) = match call.words {
        [file] if file.as_str() != "-" => (file.as_str(), "-"),
        [file, edits] => (file.as_str(), edits.as_str()),
        _ => return None,
    };
    Some(Application {
        ruled: call.ruled(),
        choices: call.choices,
        file,
        edits,
    })
}

/// What is merged, where there are three files. Takes no memory.
pub fn three_way_of<'a>(call: Call<'a>) -> Option<ThreeWay<'a>>
    ensures { option_map three_way_of result ≡ three_way_asked (call_of call.entry) }
{
    match call.words {
        [base, ours, theirs] => Some(ThreeWay {
            ruled: call.ruled(),
            choices: call.choices,
            base: base.as_str(),
            ours: ours.as_str(),
            theirs: theirs.as_str(),
        }),
        _ => None,
    }
}
