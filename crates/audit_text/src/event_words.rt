//! Reads the words of an event after the connection.

ghost use Rattle.std.specs.Prelude.{◌≡◌, ◌^◌, IfOk, option_map};
ghost use Rattle.audit_text.specs.Kinds.{read_kind};
ghost use Rattle.audit_text.specs.Reading.{words_in};
ghost use Rattle.audit_text.specs.EventReading.{read_access_cause, read_away, read_entry_cause, read_cause, read_charged, read_counted, read_drawn, read_moment, read_note, read_quota_cause, read_rate_cause, read_redacted, read_refused, read_sent};

use crate::word::{
    Remainder, end, is_word, last32, last64, name, next, number16, number32, number64,
};
use call_history::{Cause, Happening};
use mrpc_table::{Memory, Name};
use std::alloc::Global;

// The kind of a line, by its first word.
#[derive(Clone, Copy)]
pub(crate) enum LineKind {
    Took,
    Away,
    Op,
    Moment,
    Charged,
    Drawn,
    Counted,
    Redacted,
    Sent,
    Refused,
}

impl LineKind {
    // Returns the kind that a word names. (The most frequent kinds are compared first.)
    pub(crate) fn of_word(word: &[u8]) -> Option<LineKind>
        ensures { result ≡ read_kind word.now }
    {
        if is_word(word, b"charged") {
            Some(LineKind::Charged)
        } else if is_word(word, b"drawn") {
            Some(LineKind::Drawn)
        } else if is_word(word, b"counted") {
            Some(LineKind::Counted)
        } else if is_word(word, b"sent") {
            Some(LineKind::Sent)
        } else if is_word(word, b"took") {
            Some(LineKind::Took)
        } else if is_word(word, b"moment") {
            Some(LineKind::Moment)
        } else if is_word(word, b"redacted") {
            Some(LineKind::Redacted)
        } else if is_word(word, b"refused") {
            Some(LineKind::Refused)
        } else if is_word(word, b"op") {
            Some(LineKind::Op)
        } else if is_word(word, b"away") {
            Some(LineKind::Away)
        } else {
            None
        }
    }
}

// `METHOD NUMBER ADDR`
#[tactic(auto, unfolding(crate::specs::EventReading::read_away))]
pub(crate) fn away(rest: Remainder<'_>) -> Option<Happening>
    ensures { result ≡ read_away (words_in rest.entry) }
{
    let (method, rest) = number16(rest)?;
    let (number, rest) = number32(rest)?;
    let addr = last64(rest)?;
    Some(Happening::Away {
        method,
        number,
        addr,
    })
}

// `MS`
#[tactic(auto, unfolding(crate::specs::EventReading::read_moment))]
pub(crate) fn moment(rest: Remainder<'_>) -> Option<Happening>
    ensures { result ≡ read_moment (words_in rest.entry) }
{
    let ms = last64(rest)?;
    Some(Happening::Moment { ms })
}

// `SEQ BYTES`
#[tactic(auto, unfolding(crate::specs::EventReading::read_sent))]
pub(crate) fn sent(rest: Remainder<'_>) -> Option<Happening>
    ensures { result ≡ read_sent (words_in rest.entry) }
{
    let (seq, rest) = number32(rest)?;
    let bytes = last64(rest)?;
    Some(Happening::Sent { seq, bytes })
}

// Reads `SEQ NAME`, and returns the remainder too.
#[tactic(auto, unfolding(crate::specs::EventReading::read_note))]
pub(crate) fn noted(rest: Remainder<'_>) -> Option<(u32, &[u8], Remainder<'_>)>
    ensures { option_map (λ p. (p.0, p.1.now, words_in p.2)) result ≡ read_note (words_in rest.entry) }
{
    let (seq, rest) = number32(rest)?;
    let (name, rest) = name(rest)?;
    Some((seq, name, rest))
}

// `SEQ NAME LEVEL`
#[tactic(auto, unfolding(crate::specs::EventReading::read_charged))]
pub(crate) fn charged(alloc: Global, rest: Remainder<'_>) -> Result<Option<Happening>, Memory>
    ensures { IfOk result (λ x. x ≡ read_charged (words_in rest.entry)) }
{
    let Some((seq, name, rest)) = noted(rest) else {
        return Ok(None);
    };
    let Some(level) = last64(rest) else {
        return Ok(None);
    };
    let name = Name::from_slice(alloc, name)?;
    Ok(Some(Happening::Charged { seq, name, level }))
}

// `SEQ NAME WINDOW TICKET`
#[tactic(auto, unfolding(crate::specs::EventReading::read_drawn))]
pub(crate) fn drawn(alloc: Global, rest: Remainder<'_>) -> Result<Option<Happening>, Memory>
    ensures { IfOk result (λ x. x ≡ read_drawn (words_in rest.entry)) }
{
    let Some((seq, name, rest)) = noted(rest) else {
        return Ok(None);
    };
    let Some((window, rest)) = number64(rest) else {
        return Ok(None);
    };
    let Some(ticket) = last64(rest) else {
        return Ok(None);
    };
    let name = Name::from_slice(alloc, name)?;
    Ok(Some(Happening::Drawn {
        seq,
        name,
        window,
        ticket,
    }))
}

// `SEQ NAME`
#[tactic(auto, unfolding(crate::specs::EventReading::read_counted))]
pub(crate) fn counted(alloc: Global, rest: Remainder<'_>) -> Result<Option<Happening>, Memory>
    ensures { IfOk result (λ x. x ≡ read_counted (words_in rest.entry)) }
{
    let Some((seq, name, rest)) = noted(rest) else {
        return Ok(None);
    };
    let Some(()) = end(rest) else {
        return Ok(None);
    };
    let name = Name::from_slice(alloc, name)?;
    Ok(Some(Happening::Counted { seq, name }))
}

// `SEQ NAME VERSION`
#[tactic(auto, unfolding(crate::specs::EventReading::read_redacted))]
pub(crate) fn redacted(alloc: Global, rest: Remainder<'_>) -> Result<Option<Happening>, Memory>
    ensures { IfOk result (λ x. x ≡ read_redacted (words_in rest.entry)) }
{
    let Some((seq, name, rest)) = noted(rest) else {
        return Ok(None);
    };
    let Some(version) = last32(rest) else {
        return Ok(None);
    };
    let name = Name::from_slice(alloc, name)?;
    Ok(Some(Happening::Redacted { seq, name, version }))
}

// `NAME VERSION RULE`
#[tactic(auto, unfolding(crate::specs::EventReading::read_access_cause))]
fn access(alloc: Global, rest: Remainder<'_>) -> Result<Option<Cause>, Memory>
    ensures { IfOk result (λ x. x ≡ read_access_cause (words_in rest.entry)) }
{
    let Some((entry, rest)) = name(rest) else {
        return Ok(None);
    };
    let Some((version, rest)) = number32(rest) else {
        return Ok(None);
    };
    let Some((rule, rest)) = name(rest) else {
        return Ok(None);
    };
    let Some(()) = end(rest) else {
        return Ok(None);
    };
    let name = Name::from_slice(alloc, entry)?;
    let rule = Name::from_slice(alloc, rule)?;
    Ok(Some(Cause::Access {
        name,
        version,
        rule,
    }))
}

// Reads the name and the two numbers of a refusal by a rate or quota entry.
#[tactic(auto, unfolding(crate::specs::EventReading::read_entry_cause))]
fn by_entry(rest: Remainder<'_>) -> Option<(&[u8], u64, u64)>
    ensures { option_map (λ p. (p.0.now, p.1, p.2)) result ≡ read_entry_cause (words_in rest.entry) }
{
    let (name, rest) = name(rest)?;
    let (first, rest) = number64(rest)?;
    let second = last64(rest)?;
    Some((name, first, second))
}

// `NAME LEVEL COST`
#[tactic(auto, unfolding(crate::specs::EventReading::read_rate_cause))]
fn rate(alloc: Global, rest: Remainder<'_>) -> Result<Option<Cause>, Memory>
    ensures { IfOk result (λ x. x ≡ read_rate_cause (words_in rest.entry)) }
{
    let Some((name, level, cost)) = by_entry(rest) else {
        return Ok(None);
    };
    let name = Name::from_slice(alloc, name)?;
    Ok(Some(Cause::Rate { name, level, cost }))
}

// `NAME TICKET CAP`
#[tactic(auto, unfolding(crate::specs::EventReading::read_quota_cause))]
fn quota(alloc: Global, rest: Remainder<'_>) -> Result<Option<Cause>, Memory>
    ensures { IfOk result (λ x. x ≡ read_quota_cause (words_in rest.entry)) }
{
    let Some((name, ticket, cap)) = by_entry(rest) else {
        return Ok(None);
    };
    let name = Name::from_slice(alloc, name)?;
    Ok(Some(Cause::Quota { name, ticket, cap }))
}

// Reads the cause of a refusal.
#[tactic(auto, unfolding(crate::specs::EventReading::read_cause))]
fn cause(alloc: Global, rest: Remainder<'_>) -> Result<Option<Cause>, Memory>
    ensures { IfOk result (λ x. x ≡ read_cause (words_in rest.entry)) }
{
    let Some((word, rest)) = next(rest) else {
        return Ok(None);
    };
    if is_word(word, b"malformed") {
        Ok(end(rest).map(|_| Cause::Malformed))
    } else if is_word(word, b"access") {
        access(alloc, rest)
    } else if is_word(word, b"rate") {
        rate(alloc, rest)
    } else if is_word(word, b"quota") {
        quota(alloc, rest)
    } else if is_word(word, b"transport") {
        Ok(end(rest).map(|_| Cause::Transport))
    } else {
        Ok(None)
    }
}

// `SEQ CAUSE`
#[tactic(auto, unfolding(crate::specs::EventReading::read_refused))]
pub(crate) fn refused(alloc: Global, rest: Remainder<'_>) -> Result<Option<Happening>, Memory>
    ensures { IfOk result (λ x. x ≡ read_refused (words_in rest.entry)) }
{
    let Some((seq, rest)) = number32(rest) else {
        return Ok(None);
    };
    match cause(alloc, rest)? {
        None => Ok(None),
        Some(cause) => Ok(Some(Happening::Refused { seq, cause })),
    }
}
