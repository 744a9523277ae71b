//! The output of the program.

use crate::finding::{Finding, Unread};
use crate::pages::Pages;
use anyhow::Result;
use serde_json::{Value, json};
use std::alloc::{AllocError, Global};
use std::io;
use std::io::{BufWriter, Write};

/// Writes the findings to standard output: as one JSON object, or as lines for people.
pub fn write_report(
    rt: &HostRuntime,
    pages: &Pages,
    findings: &[Finding<'_>],
    is_json: bool,
) -> Result<()> {
    let mut output = BufWriter::new(rt.alloc(), io::writer(rt))?;
    if is_json {
        let object = object(rt.alloc(), pages, findings)?.to_string(rt.alloc())?;
        writeln!(output, "{object}")?;
    } else {
        write_lines(&mut output, pages, findings)?;
    }
    output.flush()?;
    Ok(())
}

/// Writes a line for each page that is not read, for each finding, and for the counts.
fn write_lines<W: Write>(
    output: &mut W,
    pages: &Pages,
    findings: &[Finding<'_>],
) -> io::Result<()> {
    for unread in &pages.unread {
        writeln!(output, "{unread}")?;
    }
    for finding in findings {
        writeln!(output, "{finding}")?;
    }
    let plural = |count: usize| if count == 1 { "" } else { "s" };
    write!(output, "{} page{}", pages.count, plural(pages.count))?;
    if !pages.unread.is_empty() {
        write!(output, ", {} not read", pages.unread.len())?;
    }
    writeln!(
        output,
        ": {} finding{}",
        findings.len(),
        plural(findings.len())
    )
}

/// Returns the JSON object of a report.
fn object(alloc: Global, pages: &Pages, findings: &[Finding<'_>]) -> Result<Value, AllocError> {
    let (mut unread, mut found) = (Vec::new(alloc), Vec::new(alloc));
    for page in &pages.unread {
        unread.push(unread_object(alloc, page)?)?;
    }
    for finding in findings {
        found.push(finding_object(alloc, finding)?)?;
    }
    json!(in alloc; {
        "pages": pages.count,
        "unread": unread,
        "findings": found
    })
}

fn unread_object(alloc: Global, unread: &Unread) -> Result<Value, AllocError> {
    json!(in alloc; {
        "file": &unread.what.path,
        "line": unread.refusal.map(|(place, _)| place.line),
        "column": unread.refusal.map(|(place, _)| place.column),
        "number": unread.refusal.map(|(_, number)| number),
        "reason": &unread.what.reason
    })
}

fn finding_object(alloc: Global, finding: &Finding<'_>) -> Result<Value, AllocError> {
    let link = finding.link.map(|link| Value::try_from_str(alloc, link));
    let link = link.transpose()?;
    json!(in alloc; {
        "file": finding.file,
        "line": finding.place.line,
        "column": finding.place.column,
        "kind": finding.kind.name(),
        "link": link,
        "target": &finding.target
    })
}
