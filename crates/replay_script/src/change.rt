//! Reads the first line of a text, with the lines of its block if it has one.

ghost use Rattle.std.specs.Prelude.{◌≡◌, ◌∷◌, [], ◌≤◌, ◌<◌, true, false, Some, None, List, ℕ, IfSome, MatchOption, MatchResult, length};
ghost use Rattle.mrpc_table.specs.Lines.{pieces_of, words_of};
ghost use Rattle.mrpc_table.specs.Valid.{IsValid};
ghost use Rattle.mrpc_table.specs.declared.limits.TheConstants.{MAX_LOADS};
ghost use Rattle.mrpc_table.specs.declared.table.Table.{Table as TheTable};
ghost use Rattle.policy_declarations.specs.DeclarationTexts.{declaration_form, HasDeclaration};
ghost use Rattle.script_grammar.specs.Meanings.{meanings_of};
ghost use Rattle.script_grammar.specs.Forms.{form_in};
ghost use Rattle.script_grammar.specs.declared.form.LineForm.TheVariants.{Drain as DrainForm, Store as StoreForm, Submit as SubmitForm, Turn as TurnForm};
ghost use Rattle.replay_script.specs.Changes.{state_of_body, IsValidBody, IsChangeOfWords, IsFlawOf, IsReadChange, IsChangeOfLine, IsLineFault, IsDeclarationFault, IsFirstFaultOf};
ghost use Rattle.replay_script.specs.Stores.{drain_words, store_words, submit_words, turn_words};
ghost use Rattle.replay_script.specs.Frequent.{IsFrequent};
ghost use Rattle.replay_script.specs.Words.{IsParsedAs};
ghost use Rattle.replay_script.specs.declared.limits.TheConstants.{MAX_WORK};

use crate::body::{Body, LineError};
use crate::laws::word_laws;
use crate::script::ScriptLine;
use crate::short_lines::{SubmitLine, TurnLine, prefix_drain, prefix_submit, prefix_turn};
use crate::store_line::{StoreLine, prefix_store};
use memchr::memchr;
use mrpc_table::Table;
use policy_declarations::{
    Declaration, DeclarationForm, DeclarationLines, Declarations, is_skipped, read_declaration,
};
use script_grammar::{LineForm, ScriptFault, ScriptReason, WordValue, check_words, form_of};
use std::alloc::Global;

// What a line means.
#[derive(Drop)]
pub(crate) enum Change {
    // Nothing: the line is empty or a comment.
    Nothing,
    // A declaration of a tenant or a policy, with the lines of its block.
    Item(Declaration),
    // An action.
    Line(ScriptLine),
    // The end of the script.
    Close,
}

// Splits a text after its first line feed, which isn't part of the line; `None` if there is none. (Like `cut`, which
// serves short words; this search compares many bytes at once.)
fn cut_line(text: &[u8]) -> Option<(&[u8], &[u8])>
    ensures parts { MatchOption result (pieces_of text.now ≡ text.now ∷ [])
        (λ p. pieces_of text.now ≡ p.0.now ∷ pieces_of p.1.now) }
    ensures shorter { IfSome result (λ p. length p.1.now < length text.now) }
{
    let at = memchr(b'\n', text)?;
    Some((&text[..at], &text[at + 1..]))
}

// The fault of the first line.
fn fault(reason: ScriptReason) -> ScriptFault
    ensures { result ≡ ScriptFault.At 1 reason }
{
    ScriptFault::At { line: 1, reason }
}

// What words of a form mean, or their reason. The form is no declaration's, and `close` before them isn't checked.
fn change_of(
    alloc: Global,
    loads: u64,
    declared: &Declarations,
    body: &Body,
    form: LineForm,
    words: &[WordValue<'_>],
) -> Result<Change, LineError>
    requires small { loads ≤ MAX_LOADS }
    requires kept { IsValidBody loads declared.now body.now }
    requires few { body.now.submissions ≤ MAX_WORK }
    requires words { (line : List ℕ) × IsParsedAs form line (meanings_of words.now) }
    requires item { declaration_form form ≡ None }
    ensures { MatchResult result (IsChangeOfWords loads declared.now body.now form (meanings_of words.now))
        (IsFlawOf loads declared.now body.now form (meanings_of words.now)) }
{
    match form {
        LineForm::Close => Ok(Change::Close),
        _ => match body.line_of(alloc, loads, declared, form, words) {
            Ok(line) => Ok(Change::Line(line)),
            Err(flaw) => Err(flaw),
        },
    }
}

// What a line with these values of its words means, or its reason. The form is no declaration's.
fn change_of_words(
    alloc: Global,
    loads: u64,
    declared: &Declarations,
    body: &Body,
    form: LineForm,
    line: &[u8],
    words: &[WordValue<'_>],
) -> Result<Change, ScriptFault>
    requires small { loads ≤ MAX_LOADS }
    requires kept { IsValidBody loads declared.now body.now }
    requires few { body.now.submissions ≤ MAX_WORK }
    requires said { IsParsedAs form line.now (meanings_of words.now) }
    requires item { declaration_form form ≡ None }
    ensures { MatchResult result (IsChangeOfLine loads (state_of_body declared.now body.now) line.now)
        (IsLineFault loads (state_of_body declared.now body.now) line.now) }
{
    word_laws();
    match change_of(alloc, loads, declared, body, form, words) {
        Ok(change) => {
            if body.closed {
                return Err(fault(ScriptReason::After));
            }
            Ok(change)
        }
        Err(LineError::Reason(reason)) => Err(fault(reason)),
        Err(LineError::Memory) => Err(ScriptFault::Memory),
    }
}

// What a line of a form means, or its reason. The form is no declaration's.
fn change_of_line(
    alloc: Global,
    loads: u64,
    declared: &Declarations,
    body: &Body,
    form: LineForm,
    line: &[u8],
) -> Result<Change, ScriptFault>
    requires small { loads ≤ MAX_LOADS }
    requires kept { IsValidBody loads declared.now body.now }
    requires few { body.now.submissions ≤ MAX_WORK }
    requires form { form_in (words_of line.now) ≡ Some form }
    requires item { declaration_form form ≡ None }
    ensures { MatchResult result (IsChangeOfLine loads (state_of_body declared.now body.now) line.now)
        (IsLineFault loads (state_of_body declared.now body.now) line.now) }
{
    word_laws();
    match check_words(form.word_kinds(), line) {
        Ok(words) => change_of_words(alloc, loads, declared, body, form, line, words.as_slice()),
        Err(reason) => Err(fault(reason)),
    }
}

// The frequent form of lines that start with this byte. The line may have another form.
fn frequent_form(first: u8) -> Option<LineForm>
    ensures { IfSome result IsFrequent }
{
    match first {
        b'u' => Some(LineForm::Upgrade),
        b'd' => Some(LineForm::Drain),
        _ => None,
    }
}

// What a line of a frequent form means, or its reason. Returns `None` for each other line and if a word isn't as it has
// to be; the form of such a line is looked up.
fn frequent_line(
    alloc: Global,
    loads: u64,
    declared: &Declarations,
    body: &Body,
    line: &[u8],
) -> Option<Result<Change, ScriptFault>>
    requires small { loads ≤ MAX_LOADS }
    requires kept { IsValidBody loads declared.now body.now }
    requires few { body.now.submissions ≤ MAX_WORK }
    ensures { IfSome result (λ said. MatchResult said
        (IsChangeOfLine loads (state_of_body declared.now body.now) line.now)
        (IsLineFault loads (state_of_body declared.now body.now) line.now)) }
{
    let form = frequent_form(*line.first()?)?;
    match check_words(form.word_kinds(), line) {
        Ok(words) => Some(change_of_words(
            alloc,
            loads,
            declared,
            body,
            form,
            line,
            words.as_slice(),
        )),
        Err(_) => None,
    }
}

// Makes the line of a store, unless it has a fault.
#[inline(always)]
fn stored(loads: u64, declared: &Declarations, body: &Body, store: StoreLine) -> Option<ScriptLine>
    requires kept { IsValidBody loads declared.now body.now }
    requires said { (line : List ℕ) × IsParsedAs StoreForm line (store_words store) }
    ensures { (line : List ℕ) → IsParsedAs StoreForm line (store_words store)
        → IfSome result (λ made. IsChangeOfLine loads (state_of_body declared.now body.now) line (Change.Line made)) }
{
    word_laws();
    if body.closed {
        return None;
    }
    match body.stored(store) {
        Ok(made) => Some(made),
        Err(_) => None,
    }
}

// Makes the line of a submission, unless it has a fault.
fn submitted(
    loads: u64,
    declared: &Declarations,
    body: &Body,
    submit: SubmitLine,
) -> Option<ScriptLine>
    requires small { loads ≤ MAX_LOADS }
    requires kept { IsValidBody loads declared.now body.now }
    requires few { body.now.submissions ≤ MAX_WORK }
    requires said { (line : List ℕ) × IsParsedAs SubmitForm line (submit_words submit) }
    ensures { (line : List ℕ) → IsParsedAs SubmitForm line (submit_words submit)
        → IfSome result (λ made. IsChangeOfLine loads (state_of_body declared.now body.now) line (Change.Line made)) }
{
    word_laws();
    if body.closed {
        return None;
    }
    match body.submitted(loads, submit, 0) {
        Ok(made) => Some(made),
        Err(_) => None,
    }
}

// Makes the line of a turn, unless it has a fault.
fn turned(loads: u64, declared: &Declarations, body: &Body, turn: TurnLine) -> Option<ScriptLine>
    requires kept { IsValidBody loads declared.now body.now }
    requires said { (line : List ℕ) × IsParsedAs TurnForm line (turn_words turn) }
    ensures { (line : List ℕ) → IsParsedAs TurnForm line (turn_words turn)
        → IfSome result (λ made. IsChangeOfLine loads (state_of_body declared.now body.now) line (Change.Line made)) }
{
    word_laws();
    if body.closed {
        return None;
    }
    match body.turned(turn) {
        Ok(made) => Some(made),
        Err(_) => None,
    }
}

// Makes the line of a drain, unless it has a fault.
fn drained(loads: u64, declared: &Declarations, body: &Body, conn: u64) -> Option<ScriptLine>
    requires kept { IsValidBody loads declared.now body.now }
    requires said { (line : List ℕ) × IsParsedAs DrainForm line (drain_words conn) }
    ensures { (line : List ℕ) → IsParsedAs DrainForm line (drain_words conn)
        → IfSome result (λ made. IsChangeOfLine loads (state_of_body declared.now body.now) line (Change.Line made)) }
{
    word_laws();
    if body.closed {
        return None;
    }
    match body.drained(conn) {
        Ok(made) => Some(made),
        Err(_) => None,
    }
}

// Reads the first line of a text, if it stores a word, its numbers are short, and it has no fault. Returns it with the
// remainder; `None` for each other line. Inlined with its callees, so that the line is made in its final slot: nearly
// all lines of a long script are such.
#[inline(always)]
pub(crate) fn prefix_stored<'a>(
    loads: u64,
    declared: &Declarations,
    body: &Body,
    text: &'a [u8],
) -> Option<(ScriptLine, &'a [u8])>
    requires kept { IsValidBody loads declared.now body.now }
    ensures { (T : TheTable) → IfSome result (λ r. IsReadChange loads T (state_of_body declared.now body.now) text.now
        (Change.Line r.0) r.1.now) }
{
    word_laws();
    let (store, behind) = prefix_store(text)?;
    let made = stored(loads, declared, body, store)?;
    Some((made, behind))
}

// Like `prefix_stored`, for lines that submit a request, give an engine a turn, or drain a connection.
pub(crate) fn prefix_line<'a>(
    loads: u64,
    declared: &Declarations,
    body: &Body,
    text: &'a [u8],
) -> Option<(ScriptLine, &'a [u8])>
    requires small { loads ≤ MAX_LOADS }
    requires kept { IsValidBody loads declared.now body.now }
    requires few { body.now.submissions ≤ MAX_WORK }
    ensures { (T : TheTable) → IfSome result (λ r. IsReadChange loads T (state_of_body declared.now body.now) text.now
        (Change.Line r.0) r.1.now) }
{
    word_laws();
    if let Some((turn, behind)) = prefix_turn(text) {
        let made = turned(loads, declared, body, turn)?;
        return Some((made, behind));
    }
    if let Some((conn, behind)) = prefix_drain(text) {
        let made = drained(loads, declared, body, conn)?;
        return Some((made, behind));
    }
    let (submit, behind) = prefix_submit(text)?;
    let made = submitted(loads, declared, body, submit)?;
    Some((made, behind))
}

// Reads a declaration, and returns it with the remainder after it. After `close`, its first line has a fault.
fn declaration<'a>(
    alloc: Global,
    table: &Table,
    declared: &Declarations,
    closed: bool,
    lines: DeclarationLines<'a>,
) -> Result<(Declaration, &'a [u8]), ScriptFault>
    requires { IsValid table.now }
    ensures { MatchResult result (λ r. (closed ≡ false) × HasDeclaration table.now true declared.now lines.entry.form
        lines.entry.line.now lines.entry.behind.now r.0 r.1.now) (IsDeclarationFault table.now declared.now closed
        lines.entry.form lines.entry.line.now lines.entry.behind.now) }
{
    match read_declaration(alloc, table, declared, lines, true) {
        Ok((item, left)) => {
            if closed {
                return Err(fault(ScriptReason::After));
            }
            Ok((item, left))
        }
        Err(ScriptFault::At { line, reason }) => {
            if closed && line > 1 {
                return Err(fault(ScriptReason::After));
            }
            Err(ScriptFault::At { line, reason })
        }
        Err(ScriptFault::Memory) => Err(ScriptFault::Memory),
    }
}

// Reads what the first line of a text means after these lines, with the lines of its block if it has one. Returns it
// with the remainder, or returns its fault. The fault's lines are counted from 1 at that line.
pub(crate) fn first_change<'a>(
    alloc: Global,
    loads: u64,
    table: &Table,
    declared: &Declarations,
    body: &Body,
    text: &'a [u8],
) -> Result<(Change, &'a [u8]), ScriptFault>
    requires table { IsValid table.now }
    requires small { loads ≤ MAX_LOADS }
    requires kept { IsValidBody loads declared.now body.now }
    requires few { body.now.submissions ≤ MAX_WORK }
    requires some { 0 < length text.now }
    ensures { MatchResult result (λ r. IsReadChange loads table.now (state_of_body declared.now body.now) text.now r.0
        r.1.now)
        (IsFirstFaultOf loads table.now (state_of_body declared.now body.now) text.now) }
{
    word_laws();
    let Some((line, behind)) = cut_line(text) else {
        return Err(fault(ScriptReason::Word));
    };
    if is_skipped(line) {
        return Ok((Change::Nothing, behind));
    }
    if let Some(usual) = frequent_line(alloc, loads, declared, body, line) {
        return match usual {
            Ok(change) => Ok((change, behind)),
            Err(fault) => Err(fault),
        };
    }
    let Some(form) = form_of(line) else {
        return Err(fault(ScriptReason::Word));
    };
    if let Some(form) = DeclarationForm::of_form(form) {
        let lines = DeclarationLines { form, line, behind };
        return match declaration(alloc, table, declared, body.closed, lines) {
            Ok((item, left)) => Ok((Change::Item(item), left)),
            Err(fault) => Err(fault),
        };
    }
    match change_of_line(alloc, loads, declared, body, form, line) {
        Ok(change) => Ok((change, behind)),
        Err(fault) => Err(fault),
    }
}
