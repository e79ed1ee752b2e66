//! Texts laid out, by the rules of a layout, and sorted; worked out by hand. Each text that comes of it is
//! laid out, or sorted, again, and stays.
use super::text_edits::show::options_of;
use ini_edit::{EditError, Layout, Loss, Separators, Sorting, lay_out, sort_text};
use ini_text::Error;
use std::process::Abort;
use std::test::Fail;

/// Texts, and what comes of each.
type Rows = &'static [(&'static str, &'static str)];

/// What is lost, as a word; the empty one where nothing is.
fn word_of(loss: Option<Loss>) -> &'static str {
    match loss {
        None => "",
        Some(Loss::Unreadable) => "unreadable",
        Some(Loss::Different) => "different",
        Some(Loss::Unsteady) => "unsteady",
    }
}

/// Each separator and indentation as it is.
const AS_IT_IS: Layout<'static> = Layout {
    separator: Separators::Kept,
    pair_indentation: None,
    blank_lines: 1,
    aligned: false,
};

/// Blanks around each `=`, and each pair indented.
const INDENTED: Layout<'static> = Layout {
    separator: Separators::Given(" = "),
    pair_indentation: Some(2),
    ..AS_IT_IS
};

/// No blanks at all, and no blank lines but those before headers.
const DENSE: Layout<'static> = Layout {
    separator: Separators::Given("="),
    pair_indentation: Some(0),
    blank_lines: 0,
    aligned: false,
};

/// A colon, and no indentation.
const COLONS: Layout<'static> = Layout {
    separator: Separators::Given(": "),
    pair_indentation: Some(0),
    ..AS_IT_IS
};

/// The separator that prevails.
const PREVAILING: Layout<'static> = Layout {
    separator: Separators::Prevailing,
    ..AS_IT_IS
};

/// Separators below each other.
const ALIGNED: Layout<'static> = Layout {
    separator: Separators::Given(" = "),
    aligned: true,
    ..AS_IT_IS
};

/// Blank lines and line ends.
const LINES: Rows = &[
    ("", ""),
    (" \n\n", ""),
    ("k=v", "k=v\n"),
    ("k=v  \n\n\n", "k=v\n"),
    ("\n\n# c\n", "# c\n"),
    (
        "# licence  \n\n\n\n# of k\nk=v\n",
        "# licence  \n\n# of k\nk=v\n",
    ),
    ("k=v\nj=w\n\n \n\t\ni=u\n", "k=v\nj=w\n\ni=u\n"),
    ("k=v\n[a]\nj=w\n\n\n\n[b]", "k=v\n\n[a]\nj=w\n\n[b]\n"),
    ("k=v\n# of a\n; too\n[a]\n", "k=v\n\n# of a\n; too\n[a]\n"),
    (
        "[a]\n# of a\n\n# of b\n[b]\n",
        "[a]\n# of a\n\n# of b\n[b]\n",
    ),
    ("[a] [b]\nk=v\n", "[a] [b]\nk=v\n"),
    ("k=v\r\n# c\n\r\nj=w", "k=v\r\n# c\r\n\r\nj=w\r\n"),
    ("k=v\n# c\r\nj=w\r\n", "k=v\n# c\nj=w\n"),
    ("; c\rk=v", "; c\rk=v\n"),
    ("k=v\\", "k=v\\"),
    ("a=1\n  port 80", "a=1\n  port 80\n"),
    ("k=\"a\n\nb\"\n", "k=\"a\n\nb\"\n"),
];

/// Separators and indentation.
const PAIRS: Rows = &[
    ("k=v\n", "  k = v\n"),
    ("  k = v\n", "  k = v\n"),
    ("\tk\t:   v \t\n", "  k = v\n"),
    ("k=\nj:\n", "  k =\n  j =\n"),
    ("a\\ =v\n", "  a\\ = v\n"),
    ("  #k = v\n", "  #k = v\n"),
    ("    #k:v\n", "    #k = v\n"),
    ("[a] k=v\nj=\" w\"\n", "[a] k = v\n  j = \" w\"\n"),
    ("k:=v\n", "  k = =v\n"),
];

/// Values that run on stay.
const VALUES: Rows = &[
    (
        "k = 1  \n  2\n\n  3\n\n\nj = 4\n",
        "k=1  \n  2\n\n  3\nj=4\n",
    ),
    ("[a]\n  k : v\n    w\n", "[a]\nk=v\n    w\n"),
    ("k =\n  v\n", "k=\n  v\n"),
    ("k=v\n# c\n\n  j=w\n", "k=v\n# c\nj=w\n"),
    ("k=v\n\n[a]\n", "k=v\n\n[a]\n"),
];

/// Kept indentation stays.
const KEPT: Rows = &[("\tk =v\nj=w\n", "\tk: v\nj: w\n")];

/// The separator that prevails.
const PREVAILING_ROWS: Rows = &[
    ("a=1\nb = 2\n[c]\nd = 3\n", "a = 1\nb = 2\n\n[c]\nd = 3\n"),
    ("a: 1\nb=2\n", "a: 1\nb: 2\n"),
    ("a=1\nb: 2\nc: 3\nd=4\n", "a=1\nb=2\nc=3\nd=4\n"),
    ("a  =\t1\n", "a = 1\n"),
    ("a =\nb =\nc=1\n", "a=\nb=\nc=1\n"),
    ("a =\n", "a =\n"),
    ("[a]\n", "[a]\n"),
];

/// Separators below each other.
const BELOW: Rows = &[
    ("a=1\nbbb=2\ncc=3\n", "a   = 1\nbbb = 2\ncc  = 3\n"),
    ("a=1\n\nbbb=2\n", "a = 1\n\nbbb = 2\n"),
    ("a=1\n# c\nbbb=2\nc=\n", "a = 1\n# c\nbbb = 2\nc   =\n"),
    ("[s] a=1\nbb=2\nc=3\n", "[s] a = 1\nbb = 2\nc  = 3\n"),
    ("a=1\n[bbb]\nccc=2\n", "a = 1\n\n[bbb]\nccc = 2\n"),
    ("\u{e9}\u{e9}=1\n  b=2\n", "\u{e9}\u{e9}  = 1\n  b = 2\n"),
    ("a=\"1\n\"\nbb=2\n", "a  = \"1\n\"\nbb = 2\n"),
];

/// So, indented.
const BELOW_INDENTED: Rows = &[("a=1\r\nbbb=2\r\n", "  a   = 1\r\n  bbb = 2\r\n")];

/// Kept separators below each other.
const KEPT_BELOW: Rows = &[
    ("a =1\nbbb : 2\n", "a   =1\nbbb : 2\n"),
    ("a=1\nbb=2\n", "a =1\nbb=2\n"),
];

/// The one that prevails, below each other.
const PREVAILING_BELOW: Rows = &[
    ("a=1\nbbb=2\ncc=3\n", "a  =1\nbbb=2\ncc =3\n"),
    ("a= 1\nbbb = 2\nc=3\n", "a   = 1\nbbb = 2\nc   = 3\n"),
];

/// So, without blank lines.
const PREVAILING_DENSE: Rows = &[("a=1\n\nbbb=2\n", "a  =1\nbbb=2\n")];

/// Keys alone have no separators.
const KEYS: Rows = &[
    ("k\n\n\n\nj", "k\n\nj\n"),
    ("[a]\nk  \n[b]\n  j\n", "[a]\nk  \n\n[b]\n  j\n"),
];

/// So, indented.
const KEYS_INDENTED: Rows = &[
    ("k \t\n", "  k\n"),
    ("\tk\nj=1\n", "  k\n  j = 1\n"),
    ("a\\ \n", "  a\\ \n"),
    ("  #k \n", "  #k\n"),
    ("[a] k \nj=\n", "[a] k\n  j =\n"),
];

/// So, among separators below each other.
const KEYS_BELOW: Rows = &[
    ("a=1\nmuch longer\nbb=2\n", "a  = 1\nmuch longer\nbb = 2\n"),
    ("bb \na=1\n", "bb\na = 1\n"),
];

/// So, where the separator prevails.
const KEYS_PREVAILING: Rows = &[
    ("k\nj\na = 1\nb=2\nc = 3\n", "k\nj\na = 1\nb = 2\nc = 3\n"),
    ("k\nj \n", "k\nj \n"),
];

/// Notes stay behind values and headers.
const NOTES: Rows = &[
    ("k = v  ; n  \n", "k = v  ; n  \n"),
    ("[a] ; n\n\n\n\nk=v\t# m\n", "[a] ; n\n\nk=v\t# m\n"),
    ("k=\"\" ; n\r\n\r\n[a];\r\n", "k=\"\" ; n\r\n\r\n[a];\r\n"),
    ("k=v ;", "k=v ;\n"),
];

/// So, below each other.
const NOTES_BELOW: Rows = &[
    ("a=1 ; n\nbb=2  # m\n", "  a  = 1 ; n\n  bb = 2  # m\n"),
    ("k= ;v ;n\n", "  k = ;v ;n\n"),
];

/// Texts that are left as they are, and what would be lost. Laid out, the first one is `port 80`, a key
/// without separator; in the second one CR LF ends the comment, which its CR is part of; the third one loses
/// one CR, and the other one when it is laid out again.
const UNREADABLE: Rows = &[("\n  port 80", "\n  port 80")];

const DIFFERENT: Rows = &[("x=0\n# a\r\r\n", "x=0\n# a\r\r\n")];

const UNSTEADY: Rows = &[("x=0\na=1\r\r\nb=2\n", "x=0\na=1\r\r\nb=2\n")];

/// The letters of the options, a layout, the texts, and what is lost.
const LAID_OUT: [(&'static str, Layout<'static>, Rows, &'static str); 19] = [
    ("qe", AS_IT_IS, LINES, ""),
    ("qe", INDENTED, PAIRS, ""),
    ("qem", DENSE, VALUES, ""),
    ("qek", COLONS, KEPT, ""),
    ("qe", PREVAILING, PREVAILING_ROWS, ""),
    ("qe", ALIGNED, BELOW, ""),
    (
        "qe",
        Layout {
            pair_indentation: Some(2),
            ..ALIGNED
        },
        BELOW_INDENTED,
        "",
    ),
    (
        "qe",
        Layout {
            aligned: true,
            ..AS_IT_IS
        },
        KEPT_BELOW,
        "",
    ),
    (
        "qe",
        Layout {
            aligned: true,
            ..PREVAILING
        },
        PREVAILING_BELOW,
        "",
    ),
    (
        "qe",
        Layout {
            aligned: true,
            blank_lines: 0,
            ..PREVAILING
        },
        PREVAILING_DENSE,
        "",
    ),
    ("qea", AS_IT_IS, KEYS, ""),
    ("qea", INDENTED, KEYS_INDENTED, ""),
    ("qea", ALIGNED, KEYS_BELOW, ""),
    ("qea", PREVAILING, KEYS_PREVAILING, ""),
    ("qen", AS_IT_IS, NOTES, ""),
    (
        "qen",
        Layout {
            aligned: true,
            ..INDENTED
        },
        NOTES_BELOW,
        "",
    ),
    ("qe", AS_IT_IS, UNREADABLE, "unreadable"),
    ("qe", AS_IT_IS, DIFFERENT, "different"),
    ("qe", AS_IT_IS, UNSTEADY, "unsteady"),
];

/// Lays each text of the rows out.
fn expect_laid_out(
    rt: &(impl Abort + AllocGlobal),
    (letters, layout, loss): (&str, &Layout<'_>, &str),
    rows: &[(&str, &str)],
) -> Result<(), Fail> {
    let (alloc, read) = (rt.alloc(), options_of(letters));
    for row in rows {
        let (text, wanted) = *row;
        let laid = lay_out(alloc, text, read, layout)?;
        let again = lay_out(alloc, wanted, read, layout)?;
        let is_laid = laid.text.as_str() == wanted && word_of(laid.loss) == loss;
        let stays = again.text.as_str() == wanted;
        assert!(rt; is_laid && stays, "{text}: {}", laid.text);
    }
    Ok(())
}

#[test]
fn texts_are_laid_out(rt: HostRuntime) -> Result<(), Fail> {
    for (letters, layout, rows, loss) in LAID_OUT {
        expect_laid_out(&rt, (letters, &layout, loss), rows)?;
    }
    Ok(())
}

/// Pairs are sorted by key.
const PAIRS_SORTED: Rows = &[
    ("", ""),
    ("b=1\na=2\nb=0\na=1\n", "a=2\na=1\nb=1\nb=0\n"),
    ("ab=1\nB=2\na=3\n\u{e9}=4\n", "B=2\na=3\nab=1\n\u{e9}=4\n"),
    (
        "# b\nb=1\n; a\n  # too\na=2\n",
        "; a\n  # too\na=2\n# b\nb=1\n",
    ),
    (
        "# licence\n\n# b\nb=1\n\na=2\n# of s\n[s]\nd=1\nc=2\n",
        "# licence\n\na=2\n# b\nb=1\n\n# of s\n[s]\nc=2\nd=1\n",
    ),
    (
        "b=1\n# after b\n \t\n\n# of a\na=2\n",
        "# of a\na=2\nb=1\n# after b\n \t\n\n",
    ),
    ("b=\"1\n2\"\na=3\n", "a=3\nb=\"1\n2\"\n"),
    ("[b]\nk=v\n[a]\nj=w\n", "[b]\nk=v\n[a]\nj=w\n"),
];

/// Keys alone are.
const KEYS_SORTED: Rows = &[("b\n# a\na\n", "# a\na\nb\n")];

/// Pairs are with their notes.
const NOTED_SORTED: Rows = &[("b=2 ; two\n# a\na=1 ; one\n", "# a\na=1 ; one\nb=2 ; two\n")];

/// Sections are sorted by name.
const SECTIONS_SORTED: Rows = &[
    (
        "z=1\n\n# of b\n[b]\nk=1\na=2\n\n[a]\n\n[b]\nk=3\n",
        "z=1\n\n[a]\n\n# of b\n[b]\nk=1\na=2\n\n[b]\nk=3\n",
    ),
    (
        "# licence\n\n# of b\n[b]\nk=1\n# of a\n[a]\nj=2\n",
        "# licence\n\n# of a\n[a]\nj=2\n# of b\n[b]\nk=1\n",
    ),
    (
        "[b]\n[a]\n[b]\nk=3\n[a]\nk=4\n",
        "[a]\n[a]\nk=4\n[b]\n[b]\nk=3\n",
    ),
];

/// Both are.
const BOTH_SORTED: Rows = &[(
    "y=1\nx=2\n[b]\nd=1\nc=2\n[a]\nk=\n",
    "x=2\ny=1\n[a]\nk=\n[b]\nc=2\nd=1\n",
)];

/// Texts that would lose something. The last line has no line end, so the pair that would follow it is taken
/// in; and a comment after the last section would stand above another one.
const UNSORTED: Rows = &[
    ("b=1\na=2", "b=1\na=2"),
    ("[b]\nk=1\n[a]\nj=2\n# end\n", "[b]\nk=1\n[a]\nj=2\n# end\n"),
];

const UNSORTED_KEYS: Rows = &[("b\na", "b\na")];

const UNREADABLE_SORTED: Rows = &[("x=2\na=1\\", "x=2\na=1\\")];

/// The letters of the options, what is sorted, the texts, and what is lost.
const SORTED: [(&'static str, Sorting, Rows, &'static str); 8] = [
    ("qe", Sorting::Keys, PAIRS_SORTED, ""),
    ("qea", Sorting::Keys, KEYS_SORTED, ""),
    ("qen", Sorting::Keys, NOTED_SORTED, ""),
    ("qe", Sorting::Sections, SECTIONS_SORTED, ""),
    ("qe", Sorting::Both, BOTH_SORTED, ""),
    ("qe", Sorting::Both, UNSORTED, "different"),
    ("qea", Sorting::Keys, UNSORTED_KEYS, "different"),
    ("qe", Sorting::Both, UNREADABLE_SORTED, "unreadable"),
];

#[test]
fn texts_are_sorted(rt: HostRuntime) -> Result<(), Fail> {
    let alloc = rt.alloc();
    for (letters, sorting, rows, loss) in SORTED {
        let read = options_of(letters);
        for row in rows {
            let (text, wanted) = *row;
            let sorted = sort_text(alloc, text, read, sorting)?;
            let again = sort_text(alloc, wanted, read, sorting)?;
            let is_sorted = sorted.text.as_str() == wanted && word_of(sorted.loss) == loss;
            let stays = again.text.as_str() == wanted;
            assert!(rt; is_sorted && stays, "{text}: {}", sorted.text);
        }
    }
    Ok(())
}

#[test]
fn a_layout_has_its_defaults_and_refusals(rt: HostRuntime) {
    let (alloc, read) = (rt.alloc(), options_of("qe"));
    let arrow = Layout {
        separator: Separators::Given(" -> "),
        ..AS_IT_IS
    };
    let refused = lay_out(alloc, "k", read, &arrow);
    assert!(rt; matches!(refused, Err(EditError::Separator)));
    let default = Layout::default();
    let is_kept = matches!(default.separator, Separators::Kept)
        && default.pair_indentation.is_none();
    assert!(rt; is_kept && default.blank_lines == 1 && !default.aligned);
    let refused = lay_out(alloc, "k", read, &default);
    assert!(rt; matches!(refused, Err(EditError::Text(_))));
    let refused = sort_text(alloc, "k", read, Sorting::Both);
    assert!(rt; matches!(refused, Err(Error::Parse(_))));
}
