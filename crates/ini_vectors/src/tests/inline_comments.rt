//! Texts with inline comments of which tests of the Rust crate ask.
use crate::tests::text_edits::show::loaded;
use std::test::Fail;

#[test]
fn inline_comment(rt: HostRuntime) -> Result<(), Fail> {
    let text = "\n[section name] # comment in section line\nname = hello # abcdefg\n\
        gender = mail ; abdddd\naddress = web#url ;# eeeeee\nphone = 01234\t# tab before comment\n\
        phone2 = 56789\t # tab + space before comment\nphone3 = 43210 \t# space + tab before comment\n";
    let shown = "general [section name] <name|hello> <gender|mail> <address|web#url> \
        <phone|01234> <phone2|56789> <phone3|43210>";
    assert!(rt; loaded(rt.alloc(), "qen", text)?.as_str() == shown);
    Ok(())
}

#[test]
fn parse_enabled_indented_mutiline_value(rt: HostRuntime) -> Result<(), Fail> {
    let text =
        "\n[Foo]\nbar =\n    u\n    v\n\nbaz = w\n  x # intentional trailing whitespace below\n   \
        y \n\n z #2\nbla = a\n";
    let shown = "general [Foo] <bar|u\nv> <baz|w\nx\ny\n\nz> <bla|a>";
    assert!(rt; loaded(rt.alloc(), "qemn", text)?.as_str() == shown);
    Ok(())
}
