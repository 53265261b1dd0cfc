//! Files of cases, read and refused.

use dh_cases::{Fault, read_cases};
use std::test::Fail;

/// Cases with each field.
const WHOLE: &str = r#"# A comment.
define pair
  text a
  line b

case file
words type
file ./a
  use pair
allow h

case whole
words normalize --workers 2
words
word a b
then hash
desks 3
files file
answers 404 http://h/x
cache 0000000000000000000000000000000000000000000000000000000000000000
  hex F5 0a
narrow read err
fail fetch 2 3
input text [
  repeat 2 text x
  count 9 11 text {#},
  bytes ]\x0A\n\\
out line 1
status 4
asked 5
keeps 6

case rows
words type
input text <
out text >
err text !
kept 0101010101010101010101010101010101010101010101010101010101010101
  text k
rows text line
  x ~> B
  y ~3> z
rows hex bytes
  61 62 ~> \xff
"#;

/// What they say.
const READ: &str =
    r#"Case { name: "file", line: 6, commands: [["type"]], then: [], files: [File { line: 8, location: "./a", found: Text { bytes: [97, 98, 10], allow: Some([104]) } }], cache: [], narrow: Narrow { read: false, out: false, err: false }, failing: Failing { read: [], out: [], err: [], fetch: [], look: [], keep: [] }, desks: 1, rows: [Row { line: 6, input: [], out: [], err: [], status: 0 }], asked: None, kept: [], keeps: None }
Case { name: "whole", line: 12, commands: [["normalize", "--workers", "2"], ["a b"]], then: [["hash"]], files: [File { line: 8, location: "./a", found: Text { bytes: [97, 98, 10], allow: Some([104]) } }, File { line: 19, location: "http://h/x", found: Status(404) }], cache: [Entry { digest: [0, 0, 0, 0, 0, 0, 0, 0, 0, 0, 0, 0, 0, 0, 0, 0, 0, 0, 0, 0, 0, 0, 0, 0, 0, 0, 0, 0, 0, 0, 0, 0], bytes: [245, 10] }], narrow: Narrow { read: true, out: false, err: true }, failing: Failing { read: [], out: [], err: [], fetch: [2, 3], look: [], keep: [] }, desks: 3, rows: [Row { line: 12, input: [91, 120, 120, 57, 44, 49, 48, 44, 93, 10, 10, 92], out: [49, 10], err: [], status: 4 }], asked: Some(5), kept: [], keeps: Some(6) }
Case { name: "rows", line: 33, commands: [["type"]], then: [], files: [], cache: [], narrow: Narrow { read: false, out: false, err: false }, failing: Failing { read: [], out: [], err: [], fetch: [], look: [], keep: [] }, desks: 1, rows: [Row { line: 41, input: [60, 120], out: [62, 66, 10], err: [], status: 0 }, Row { line: 42, input: [60, 121], out: [], err: [33, 122, 10], status: 3 }, Row { line: 44, input: [60, 97, 98], out: [62, 255], err: [], status: 0 }], asked: None, kept: [Entry { digest: [1, 1, 1, 1, 1, 1, 1, 1, 1, 1, 1, 1, 1, 1, 1, 1, 1, 1, 1, 1, 1, 1, 1, 1, 1, 1, 1, 1, 1, 1, 1, 1], bytes: [107] }], keeps: None }
"#;

#[test]
fn reads_each_field(rt: HostRuntime) -> Result<(), Fail> {
    let alloc = rt.alloc();
    let cases = read_cases(alloc, WHOLE)?;
    let mut read = String::new(alloc);
    for case in &cases {
        let line = format!(in alloc; "{case:?}\n")?;
        read.push_str(line.as_str())?;
    }
    assert_eq!(rt; read.as_str(), READ);
    Ok(())
}

#[test]
fn refuses_lines(rt: HostRuntime) -> Result<(), Fail> {
    for (text, line, fault) in [
        ("", 1, Fault::NoCase),
        ("# no case\n", 1, Fault::NoCase),
        ("words x\n", 1, Fault::OutsideOfCases),
        ("  text x\n", 1, Fault::NothingAbove),
        ("case\n", 1, Fault::NoName),
        ("case a\n", 1, Fault::NoWords),
        ("define a\ndefine a\n", 2, Fault::NameTwice),
        ("case a\nwords x\ncase a\n", 3, Fault::NameTwice),
        ("case a\nwords x\ninput text \n", 3, Fault::BlankAtEnd),
        ("case a\nwords x\nword\n  text y\n", 3, Fault::NothingBelow),
        (
            "case a\nwords x\ninput text a\ninput text b\n",
            4,
            Fault::Twice,
        ),
        ("case a\nwords x\nstatus 0\nstatus 0\n", 4, Fault::Twice),
        ("case a\nwords x\ninputs text a\n", 3, Fault::UnknownField),
        ("case a\nwords x\ninput txt a\n", 3, Fault::UnknownPart),
        ("case a\nwords x\ninput\n  use b\n", 4, Fault::UnknownName),
        ("case a\nwords x\nfiles a\n", 3, Fault::UnknownCase),
        ("case a\nwords x\nfail reads 1\n", 3, Fault::UnknownDevice),
        ("case a\nwords x\nnarrow keep\n", 3, Fault::UnknownDevice),
        ("case a\nwords x\nnarrow out out\n", 3, Fault::Twice),
        ("case a\nwords x\nfail read one\n", 3, Fault::NotNumber),
        ("case a\nwords x\nstatus 256\n", 3, Fault::NotNumber),
        (
            "case a\nwords x\ninput repeat -1 text x\n",
            3,
            Fault::NotNumber,
        ),
        ("case a\nwords x\ninput hex 0\n", 3, Fault::NotHexadecimal),
        ("case a\nwords x\nout bytes \\x0\n", 3, Fault::NotEscape),
        ("case a\nwords x\nkept 00\n  hex 00\n", 3, Fault::NotDigest),
        ("case a\nword x\n", 2, Fault::NoWordsAbove),
        ("case a\nwords x\nallow x\n", 3, Fault::NoFileAbove),
        ("case a\nwords x\ndesks 0\n", 3, Fault::NoDesk),
        ("case a\nwords x\nrows text line\n", 3, Fault::NoRows),
        (
            "case a\nwords x\nrows text line\n  1 ~ 2\n",
            4,
            Fault::NoArrow,
        ),
        (
            "case a\nwords x\nrows text line\n  1 ~> 2\nout text x\n",
            5,
            Fault::BelowRows,
        ),
        (
            "case a\nwords x\nstatus 1\nrows text line\n  1 ~> 2\n",
            1,
            Fault::StatusOfRows,
        ),
    ] {
        match read_cases(rt.alloc(), text) {
            Ok(_) => return Err(Fail::from("a case")),
            Err(error) => {
                assert_eq!(rt; error.line, line, "{text}");
                assert_eq!(rt; error.fault, fault, "{text}");
            }
        }
    }
    Ok(())
}
