//! Texts as they stand in XML.

use picture::escape;
use std::alloc::Global;
use std::test::Fail;
use terms::NoMemory;

// Texts, and how they stand: by XML 1.0, which has five predefined entities, and whose characters are 9, a, d, and
// those from 20 to d7ff, from e000 to fffd and from 10000 on.
static ROWS: [(&str, &str); 9] = [
    ("", ""),
    ("out (1 x00ff true)", "out (1 x00ff true)"),
    (
        "cas (\"<a>\" *) ('b' & 2)",
        "cas (&quot;&lt;a&gt;&quot; *) (&apos;b&apos; &amp; 2)",
    ),
    ("&amp;", "&amp;amp;"),
    ("<<&&>>", "&lt;&lt;&amp;&amp;&gt;&gt;"),
    ("\t\n\r", "\t\n\r"),
    ("a\u{0}b\u{1f}\u{7f}", "a\u{fffd}b\u{fffd}\u{7f}"),
    ("\u{fffd}\u{fffe}\u{ffff}", "\u{fffd}\u{fffd}\u{fffd}"),
    (
        "ä€\u{d7ff}\u{e000}\u{10000}\u{10ffff}",
        "ä€\u{d7ff}\u{e000}\u{10000}\u{10ffff}",
    ),
];

// The escaped text follows the old one.
fn is_escaped(alloc: Global, text: &str, escaped: &str) -> Result<bool, NoMemory> {
    let mut out = String::from_str(alloc, "<")?;
    escape(text, &mut out)?;
    Ok(out.as_str().strip_prefix("<") == Some(escaped))
}

#[test]
fn escapes_texts(rt: HostRuntime) -> Result<(), Fail> {
    for &(text, escaped) in &ROWS {
        assert!(rt; is_escaped(rt.alloc(), text, escaped)?, "{text:?}");
    }
    Ok(())
}
