//! Readers and writers that fail, or read and write little at a time.

mod readers;
mod writers;

use typst_html_run::Status;

const INPUT: &str = r#"["el","p",[],[["text","x"]]]"#;

const OUTPUT: &str = "<!DOCTYPE html><p>x</p>";

/// A run: the program's arguments, its input, its status, and its output.
struct Case {
    words: &'static [&'static str],
    input: &'static str,
    status: Status,
    text: &'static str,
}

/// One run of each kind that reads its input.
#[rattlefmt::skip]
static CASES: [Case; 8] = [
    Case { words: &["tree"], input: INPUT, status: Status::Done, text: OUTPUT },
    Case { words: &["tree", "--pretty"], input: r#"["el","div",[],[["el","p",[],[]]]]"#,
        status: Status::Done, text: "<!DOCTYPE html>\n<div>\n  <p></p>\n</div>\n" },
    Case { words: &["tree"], input: r#"["el","br",[],[["start",1]]]"#,
        status: Status::Refused, text: "refused: 12 at 1\n" },
    Case { words: &["tree"], input: r#"["el","p",[],["é"]]"#,
        status: Status::BadInput, text: "bad input\n" },
    Case { words: &["doc"], input: r#"[["start",1,1],["text","é"]]"#, status: Status::Done, text: concat!(
            r#"<!DOCTYPE html><html lang="en"><head><meta charset="utf-8">"#,
            r#"<meta name="viewport" content="width=device-width, initial-scale=1"></head>"#,
            r#"<body><span id="loc-1">é</span></body></html>"#,
        ) },
    Case { words: &["doc", "--pretty"], input: r#"[["el","p",[],[]]]"#, status: Status::Done, text: concat!(
            "<!DOCTYPE html>\n<html lang=\"en\">\n  <head>\n    <meta charset=\"utf-8\">\n",
            "    <meta name=\"viewport\" content=\"width=device-width, initial-scale=1\">\n",
            "  </head>\n  <body>\n    <p></p>\n  </body>\n</html>\n",
        ) },
    Case { words: &["doc"], input: r#"[["el","",[],[]]]"#,
        status: Status::Refused, text: "refused: 1 at 1\n" },
    Case { words: &["doc"], input: r#"[["space"]"#, status: Status::BadInput, text: "bad input\n" },
];
