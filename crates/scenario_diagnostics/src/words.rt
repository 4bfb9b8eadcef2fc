//! The parts that sentences are made of.

ghost use Rattle.std.specs.Prelude.{◌≡◌, ◌⊎◌, Contains, map};
ghost use Rattle.diagnostics.specs.Diagnostics.{HasAppended};

use diagnostics::{NAMED, WordText, text_or};
use itoa::Buffer;
use mrpc_table::{Bytes, Memory};
use scenario::ScenarioReason;

/// A part of a sentence.
#[derive(Clone, Copy)]
pub enum Phrase<'a> {
    Text(&'a str),
    /// A word of the scenario, in quotation marks, truncated if it is long.
    Quoted(&'a [u8]),
    Number(u64),
    Integer(i64),
    /// The range of a number, from least to most.
    Range(u64, u64),
    /// The number of a line of a list, from 1, and the line.
    Line(u64, &'a [u8]),
}

/// Appends parts in order.
pub fn append_phrases(out: &mut Bytes, parts: &[Phrase<'_>]) -> Result<(), Memory>
    ensures { HasAppended out.old out.new }
{
    for part in parts {
        append_phrase(out, *part)?;
    }
    Ok(())
}

fn append_phrase(out: &mut Bytes, part: Phrase<'_>) -> Result<(), Memory>
    ensures { HasAppended out.old out.new }
{
    match part {
        Phrase::Text(text) => out.append(text.as_bytes()),
        Phrase::Quoted(word) => quote(out, word),
        Phrase::Number(number) => out.append_decimal(number),
        Phrase::Integer(number) => append_integer(out, number),
        Phrase::Range(least, most) => append_range(out, least, most),
        Phrase::Line(number, line) => append_line(out, number, line),
    }
}

fn quote(out: &mut Bytes, word: &[u8]) -> Result<(), Memory>
    ensures { HasAppended out.old out.new }
{
    out.append(b"\"")?;
    out.append(&word[..word.len().min(NAMED)])?;
    out.append(if word.len() > NAMED { b"..\"" } else { b"\"" })
}

fn append_integer(out: &mut Bytes, number: i64) -> Result<(), Memory>
    ensures { HasAppended out.old out.new }
{
    let mut digits = Buffer::new();
    out.append(digits.format(number).as_bytes())
}

fn append_range(out: &mut Bytes, least: u64, most: u64) -> Result<(), Memory>
    ensures { HasAppended out.old out.new }
{
    out.append_decimal(least)?;
    if least < most {
        out.append(b" to ")?;
        return out.append_decimal(most);
    }
    Ok(())
}

fn append_line(out: &mut Bytes, number: u64, line: &[u8]) -> Result<(), Memory>
    ensures { HasAppended out.old out.new }
{
    out.append(b", line ")?;
    out.append_decimal(number)?;
    out.append(b", ")?;
    quote(out, line)?;
    out.append(b": ")
}

/// The text of the rows for a reason, by its word; `others` if they don't have it.
pub fn words_for(rows: &[WordText], reason: ScenarioReason, others: &'static str) -> &'static str
    ensures { (result.now ≡ others.now) ⊎ Contains (map (λ row. row.1.now) rows.now) result.now }
{
    text_or(rows, reason.word().as_bytes(), others)
}
