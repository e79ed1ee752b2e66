//! Sections, first pairs and comments of texts in pieces, to the byte.
use super::source_calls::Row;

/// First pairs of a section.
pub(crate) const FIRST_PAIRS: &[Row] = &[
    (
        "add",
        "qe",
        "a|k||v|0",
        "[a]\n# of a\n\n# of b\n[b]\n",
        "[a]\n# of a\nk=v\n\n# of b\n[b]\n",
    ),
    ("add", "qe", "a|k||v|0", "[a]  [b]\n", "[a]  \nk=v\n[b]\n"),
    ("add", "qe", "a|k||v|0", "[a]", "[a]\nk=v\n"),
    ("add", "qe", "a|k||v|0", "[a]\r[b]", "[a]\rk=v\n[b]"),
    (
        "add",
        "qe",
        "-|k||v|0",
        "# licence\n\n# of a\n[a]\n",
        "# licence\n\nk=v\n# of a\n[a]\n",
    ),
    (
        "add",
        "qe",
        "-|k||v|0",
        "# of a\n[a]\n",
        "k=v\n# of a\n[a]\n",
    ),
    ("add", "qe", "-|k||v|0", "", "k=v\n"),
    ("add", "qe", "a|k||v|0", "[a]\n  junk", "[a]\nk=v\n  junk"),
    (
        "add",
        "qem",
        "a|k||v|0",
        "[a]\n\n\n[b]\n",
        "[a]\nk=v\n\n\n[b]\n",
    ),
    (
        "add",
        "qem",
        "a|k||v|0",
        "[a]\n  [b]\n",
        "[a]\n  \nk=v\n[b]\n",
    ),
    (
        "add",
        "qem",
        "a|k||v|0",
        "[a]\n# c\n  junk",
        "[a]\nk=v\n# c\n  junk",
    ),
    ("add", "qem", "a|k||v|0", "[a]\n\n  junk", "NoPlace"),
];

/// Keys and sections get other names.
pub(crate) const RENAMED: &[Row] = &[
    (
        "rename_key",
        "qe",
        "a|k|new||0",
        "[a]\n  k\t= 'v'   \n# c\n",
        "[a]\n  new\t= 'v'   \n# c\n",
    ),
    ("rename_key", "qek", "-|\tk|new||0", "\tk =v\n", "new =v\n"),
    ("rename_key", "qe", "-|k| new||0", "k=v\n", "Key"),
    (
        "rename_section",
        "qe",
        "a||x||0",
        "# c\n [ a ] \nk=v",
        "# c\n [x] \nk=v",
    ),
    (
        "rename_section",
        "qeb",
        "a||x]||0",
        "[ a ] \t\nk=v",
        "[x]]\nk=v",
    ),
    ("rename_section", "qe", "a||]||0", "[a]", "Name"),
];

/// Sections leave what is about the next.
pub(crate) const DELETED_SECTIONS: &[Row] = &[
    (
        "delete_section",
        "qe",
        "a||||0",
        "[a]\n# of k\nk=v\n\n# of b\n[b]",
        "# of b\n[b]",
    ),
    (
        "delete_section",
        "qe",
        "a||||0",
        "[x]\ny=1\n\n[a]\nk=v\n# end\n\n  [b]\n",
        "[x]\ny=1\n\n  [b]\n",
    ),
    ("delete_section", "qe", "a||||0", "  [a]\nk=v\n[b]", "[b]"),
    (
        "delete_section",
        "qe",
        "a||||0",
        "[b] [a]\nk=v\n# of c\n[c]",
        "[b] \n# of c\n[c]",
    ),
    ("delete_section", "qe", "a||||0", "[a] [b]\nk=v", "[b]\nk=v"),
    (
        "delete_section",
        "qe",
        "a||||0",
        "x=1\n[a]\nk=v\n\n  junk",
        "x=1\n  junk",
    ),
    ("delete_section", "qe", "c||||0", "[a]\n", "none"),
    (
        "delete_section",
        "qem",
        "a||||0",
        "x=1\n[a]\n  [b]\n",
        "x=1\n[b]\n",
    ),
];

/// Sections are put last, after an empty line.
pub(crate) const NEW_SECTIONS: &[Row] = &[
    (
        "add_section",
        "qe",
        "b||||0",
        "[a]\nj=w",
        "[a]\nj=w\n\n[b]\n",
    ),
    (
        "add_section",
        "qe",
        "b||||0",
        "[a]\r\nj=w\r\n\r\n",
        "[a]\r\nj=w\r\n\r\n[b]\r\n",
    ),
    ("add_section", "qe", "b||||0", "", "[b]\n"),
    ("add_section", "qe", "b||||0", "[b]\n", "none"),
    ("add_section", "qe", "]||||0", "", "Name"),
    (
        "set",
        "qe",
        "b|k||v|0",
        "[a]\n  j = w\n# c",
        "[a]\n  j = w\n# c\n\n[b]\n  k = v\n",
    ),
    (
        "set",
        "qe",
        "b|k||v|0",
        "[a]\nj=w\n  junk",
        "[a]\nj=w\n\n[b]\nk=v\n  junk",
    ),
    ("set", "qe", "b|k||v|0", "j=\\", "j=\\\\\n\n[b]\nk=v\n"),
    (
        "set",
        "qem",
        "b|k||v|0",
        "# c\n\n  junk",
        "[b]\nk=v\n# c\n\n  junk",
    ),
    ("set", "qem", "b|k||v|0", "[a]\n  junk", "NoPlace"),
    (
        "add_section",
        "qem",
        "b||||0",
        "[a]\n  junk",
        "[a]\n\n[b]\n  junk",
    ),
];

/// Comments stand above keys.
pub(crate) const COMMENTS: &[Row] = &[
    (
        "comment_of",
        "qe",
        "a|k|||0",
        "[a]\n# not\n\n; of k\n# too\n  k=v\n",
        "; of k\n# too\n",
    ),
    ("comment_of", "qe", "a|k|||0", "[a]\nk=v\n", ""),
    ("comment_of", "qe", "a|j|||0", "[a]\nk=v\n", "none"),
    (
        "set_comment",
        "qe",
        "a|k||# new|0",
        "[a]\n# not\n\n; of k\n  k=v\n",
        "[a]\n# not\n\n# new\n  k=v\n",
    ),
    (
        "set_comment",
        "qe",
        "a|k||# c\n|0",
        "[a]k=v\r\n",
        "[a]\r\n# c\nk=v\r\n",
    ),
    (
        "set_comment",
        "qe",
        "a|k|||0",
        "[a]\n# c\nk=v\n",
        "[a]\nk=v\n",
    ),
    ("set_comment", "qe", "a|k||no|0", "[a]\nk=v\n", "Value"),
    (
        "set_comment",
        "qem",
        "-|k|||0",
        "j=1\n# c\n  k=v\n",
        "NoPlace",
    ),
    (
        "comment_out",
        "qe",
        "a|k|||0",
        "[a]\n  k = v\nj=w\n",
        "[a]\n;   k = v\nj=w\n",
    ),
    (
        "comment_out",
        "qem",
        "a|k|||0",
        "[a]\nk=v\n  w\n\nj=w\n",
        "[a]\n; k=v\n;   w\n\nj=w\n",
    ),
    ("comment_out", "qe", "a|k|||0", "[a]k=v\n", "NoPlace"),
    ("comment_out", "qe", "a|k|||0", "[a]\nk=v\rj=w\n", "NoPlace"),
];

/// Notes stay behind headers.
pub(crate) const NOTED_HEADERS: &[Row] = &[
    ("add", "qen", "a|k||v|0", "[a] ; n\n", "[a] ; n\nk=v\n"),
    ("add", "qen", "a|k||v|0", "[a];n", "[a];n\nk=v\n"),
    (
        "add",
        "qebn",
        "a|k||v|0",
        "[a]\t# n\r[b]\n",
        "[a]\t# n\rk=v\n[b]\n",
    ),
    ("add", "qen", "b|k||v|0", "[a];n", "[a];n\n\n[b]\nk=v\n"),
    ("add", "qen", "b;|k||v|0", "", "[b;]\nk=v\n"),
    (
        "rename_section",
        "qen",
        "a||b||0",
        "[a]  ; n\nk=v\n",
        "[b]  ; n\nk=v\n",
    ),
    (
        "rename_section",
        "qebn",
        "a||b||0",
        "[ a ]\t ;n\n",
        "[b]\t ;n\n",
    ),
    ("rename_section", "qebn", "a||b||0", "[a]  \n", "[b]\n"),
    ("rename_section", "qebn", "a||b ;||0", "[a] ; n\n", "Name"),
    (
        "rename_section",
        "qen",
        "a||b ;||0",
        "[a] ; n\n",
        "[b ;] ; n\n",
    ),
    (
        "delete_section",
        "qen",
        "a||||0",
        "k=1 ; n\n[a] ; m\nj=2\n[b]\n",
        "k=1 ; n\n[b]\n",
    ),
    (
        "set_comment",
        "qen",
        "-|k||; c|0",
        "k=v ; n\n",
        "; c\nk=v ; n\n",
    ),
    ("comment_out", "qen", "-|k|||0", "k=v ; n\n", "; k=v ; n\n"),
];
