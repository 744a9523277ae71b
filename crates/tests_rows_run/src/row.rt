//! Rows, and reading them from lines.

use anyhow::{Context, Result, bail, ensure};
use std::alloc::Global;

/// A call or run, its input and its output.
#[derive(Drop)]
pub struct Row<'a> {
    /// The arguments of the program, or a call of the library and its options.
    pub words: Vec<&'a str>,
    /// The bytes of the input, which may be no text.
    pub input: Vec<u8>,
    /// The output.
    pub output: String,
}

impl<'a> Row<'a> {
    /// Returns the row that a line spells, or `None` for a comment and for an empty line.
    pub fn from_line(alloc: Global, line: &'a str) -> Result<Option<Row<'a>>> {
        if line.is_empty() || line.starts_with('#') {
            return Ok(None);
        }
        let (words, input, output) = fields(line).context("a row of three fields is wanted")?;
        let mut words: Vec<&str> = words.split_whitespace().collect(alloc)?;
        let is_escaped = words.last() == Some(&"escaped");
        if is_escaped {
            words.pop();
        }
        Ok(Some(Row {
            words,
            input: spelled_bytes(alloc, input, is_escaped)?,
            output: String::from_utf8(spelled_bytes(alloc, output, true)?)?,
        }))
    }

    /// Returns the input as a text.
    pub fn text(&self) -> Result<&str> {
        Ok(str::from_utf8(&self.input)?)
    }

    /// Returns the number in a word such as `limit=50`, or else `otherwise`.
    pub fn number(&self, name: &str, otherwise: usize) -> Result<usize> {
        match self.value(name) {
            None => Ok(otherwise),
            Some(value) => Ok(value.parse::<usize>().context("a number is wanted")?),
        }
    }

    /// Returns the text after the `=` of the word with that name.
    pub fn value(&self, name: &str) -> Option<&str> {
        for word in &self.words {
            if let Some((before, value)) = word.split_once('=')
                && before == name
            {
                return Some(value);
            }
        }
        None
    }
}

/// Returns the three fields of a line. An empty output leaves a bar at the line's end.
fn fields(line: &str) -> Option<(&str, &str, &str)> {
    let (words, rest) = line.split_once(" | ")?;
    match rest.split_once(" | ") {
        Some((input, output)) => Some((words, input, output)),
        None => Some((words, rest.strip_suffix(" |")?, "")),
    }
}

fn spelled_bytes(alloc: Global, field: &str, is_escaped: bool) -> Result<Vec<u8>> {
    let mut parts = field.split('⟨');
    let mut bytes = plain_bytes(alloc, parts.next().unwrap_or_default(), is_escaped)?;
    for part in parts {
        let (form, plain) = part.split_once('⟩').context("a `⟩` is wanted")?;
        match form.split_once('*') {
            Some((times, text)) => {
                let times = times.parse::<u64>().context("how many copies?")?;
                add_copies(
                    alloc,
                    &mut bytes,
                    times,
                    &plain_bytes(alloc, text, is_escaped)?,
                )?;
            }
            None => add_range(&mut bytes, form)?,
        }
        bytes.extend_from_slice(&plain_bytes(alloc, plain, is_escaped)?)?;
    }
    Ok(bytes)
}

/// Appends that many copies, in which each `%` is the number of the copy.
fn add_copies(alloc: Global, bytes: &mut Vec<u8>, times: u64, copy: &[u8]) -> Result<()> {
    for number in 1..=times {
        if copy.contains(&b'%') {
            let number = format!(in alloc; "{number}")?;
            add_numbered(bytes, copy, number.as_bytes())?;
        } else {
            bytes.extend_from_slice(copy)?;
        }
    }
    Ok(())
}

fn add_numbered(bytes: &mut Vec<u8>, copy: &[u8], number: &[u8]) -> Result<()> {
    for byte in copy {
        match byte {
            b'%' => bytes.extend_from_slice(number)?,
            byte => bytes.push(*byte)?,
        }
    }
    Ok(())
}

/// Appends each character of a range such as `100..fdcf`.
fn add_range(bytes: &mut Vec<u8>, range: &str) -> Result<()> {
    let (first, last) = range
        .split_once("..")
        .context("copies or a range are wanted")?;
    for code in u32::from_str_radix(first, 16)?..=u32::from_str_radix(last, 16)? {
        add_code(bytes, code)?;
    }
    Ok(())
}

fn plain_bytes(alloc: Global, text: &str, is_escaped: bool) -> Result<Vec<u8>> {
    let mut bytes = Vec::new(alloc);
    if !is_escaped {
        bytes.extend_from_slice(text.as_bytes())?;
        return Ok(bytes);
    }
    // A backslash precedes each part but the first. One before an empty part, together with the
    // next one, stands for itself, and the part behind that is plain.
    let mut is_plain = true;
    for part in text.split('\\') {
        if is_plain {
            bytes.extend_from_slice(part.as_bytes())?;
            is_plain = false;
        } else if part.is_empty() {
            bytes.push(b'\\')?;
            is_plain = true;
        } else {
            add_escaped(&mut bytes, part)?;
        }
    }
    ensure!(!is_plain, "a backslash at the end");
    Ok(bytes)
}

/// Appends the character of an escape, and the text after it.
fn add_escaped(bytes: &mut Vec<u8>, text: &str) -> Result<()> {
    let mut chars = text.chars();
    let kind = chars.next();
    let behind = add_escape(bytes, kind, chars.as_str())?;
    bytes.extend_from_slice(behind.as_bytes())?;
    Ok(())
}

/// Appends the character of an escape of that kind, and returns the text after it.
fn add_escape<'a>(bytes: &mut Vec<u8>, kind: Option<char>, rest: &'a str) -> Result<&'a str> {
    match kind {
        Some('n') => bytes.push(b'\n')?,
        Some('r') => bytes.push(b'\r')?,
        Some('t') => bytes.push(b'\t')?,
        Some('x') => return add_byte(bytes, rest),
        Some('u') => return add_braced(bytes, rest),
        _ => bail!("no escape stands before {rest:?}"),
    }
    Ok(rest)
}

/// Appends the byte of two digits.
fn add_byte<'a>(bytes: &mut Vec<u8>, rest: &'a str) -> Result<&'a str> {
    let (code, behind) = rest.split_at_checked(2).context("two digits are wanted")?;
    bytes.push(u8::from_str_radix(code, 16)?)?;
    Ok(behind)
}

/// Appends the character whose code is in braces.
fn add_braced<'a>(bytes: &mut Vec<u8>, rest: &'a str) -> Result<&'a str> {
    let code = rest.strip_prefix('{').context("a `{` is wanted")?;
    let (code, behind) = code.split_once('}').context("a `}` is wanted")?;
    add_code(bytes, u32::from_str_radix(code, 16)?)?;
    Ok(behind)
}

fn add_code(bytes: &mut Vec<u8>, code: u32) -> Result<()> {
    let c = char::from_u32(code).context("no character")?;
    bytes.extend_from_slice(c.encode_utf8(&mut [0; 4]).as_bytes())?;
    Ok(())
}
