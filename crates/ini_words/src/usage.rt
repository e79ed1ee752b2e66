//! The line that tells what a program takes. This file knows the options by their names alone.

/// The usage line of a program that takes the options: its name, the options, the words that follow them, and
/// the line end.
#[macro_export]
macro_rules! usage_line {
    ($program:literal, $following:literal $(,)?) => {
        concat!(
            "usage: ",
            $program,
            " [--noescape] [--noquote] [--multiline] [--indent] [--brackets] [--raw-backslash]",
            " [--indented-comments] [--inline-comments] [--lone-lines NAME] [--crlf] [--policy NAME] ",
            $following,
            "\n",
        )
    };
}
