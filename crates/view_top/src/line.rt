//! The events in lines.

ghost use Rattle.std.specs.Prelude.{◌≡◌, ◌≤◌, ◌+◌, ◌++◌, List, None, Some, IfOk, MatchOption, OnOk, length, map, option_map, vec_len};
ghost use Rattle.std.specs.List.{cons_option};
ghost use Rattle.view_top.specs.Lines.{ConnLineEvent, split_first_word, event_of_line, events_of_text, split_first_number, event_of_word, call_event};
ghost use Rattle.view_top.specs.DrawingData.{conn_line_event, line_event};

use mrpc_table::{Decimal, Memory, is_word, number_of, split_once};
use std::alloc::Global;

// The event of a connection that a line has.
#[derive(Clone, Copy)]
pub(crate) struct Event<'a> {
    pub conn: u64,
    pub what: EventKind<'a>,
}

// The kind of an event.
#[derive(Clone, Copy)]
pub(crate) enum EventKind<'a> {
    // A call was accepted.
    Took { seq: u64, method: u64 },
    // A call was sent.
    Sent { seq: u64 },
    // A call was refused, for this cause.
    Refused { seq: u64, cause: &'a [u8] },
    // An operator's operation, in its words.
    Operation { words: &'a [u8] },
    // A timestamp of the clock, in its words.
    Moment { words: &'a [u8] },
}

// The events of a text's lines, in order.
pub(crate) fn events_of(alloc: Global, text: &[u8]) -> Result<Vec<Event<'_>>, Memory>
    ensures told { IfOk result (λ es. map conn_line_event es.items ≡ events_of_text text.now) }
    ensures few { IfOk result (λ es. vec_len es ≤ length text.now) }
{
    let mut events = Vec::new(alloc);
    let mut rest = text;
    while let Some((line, others)) = split_once(rest, b'\n') {
        add_line(&mut events, line)?;
        rest = others;
    }
    Ok(events)
}

// Adds the event of a line, if it has one.
fn add_line<'a>(events: &mut Vec<Event<'a>>, line: &'a [u8]) -> Result<(), Memory>
    ensures told { (more : List ConnLineEvent) → OnOk result (map conn_line_event events.new.items ++ more
        ≡ map conn_line_event events.old.items ++ cons_option (event_of_line line.now) more) }
    ensures few { OnOk result (vec_len events.new ≤ vec_len events.old + 1) }
{
    if let Some(event) = event_of(line) {
        events.push(event)?;
    }
    Ok(())
}

// The event of a line; `None` if it has none that is drawn.
fn event_of(line: &[u8]) -> Option<Event<'_>>
    ensures { option_map conn_line_event result ≡ event_of_line line.now }
{
    let (word, behind) = split_first_word(line)?;
    let (conn, words) = split_first_number(behind)?;
    let what = what_of(word, words)?;
    Some(Event { conn, what })
}

// The event, given a line's word and what follows its connection.
fn what_of<'a>(word: &[u8], words: &'a [u8]) -> Option<EventKind<'a>>
    ensures { option_map line_event result ≡ event_of_word word.now words.now }
{
    if is_word(word, b"op") {
        Some(EventKind::Operation { words })
    } else if is_word(word, b"moment") {
        Some(EventKind::Moment { words })
    } else {
        let (seq, behind) = split_first_number(words)?;
        of_call(word, seq, behind)
    }
}

// The event, given a line's word, the number of its call, and what follows that.
fn of_call<'a>(word: &[u8], seq: u64, words: &'a [u8]) -> Option<EventKind<'a>>
    ensures { option_map line_event result ≡ call_event word.now seq words.now }
{
    if is_word(word, b"took") {
        let (method, _) = split_first_number(words)?;
        Some(EventKind::Took { seq, method })
    } else if is_word(word, b"sent") {
        Some(EventKind::Sent { seq })
    } else if is_word(word, b"refused") {
        Some(EventKind::Refused { seq, cause: words })
    } else {
        None
    }
}

// The number that the first of several words spells, and what follows that word.
fn split_first_number(words: &[u8]) -> Option<(u64, &[u8])>
    ensures { MatchOption result (split_first_number words.now ≡ None) (λ p. split_first_number words.now
        ≡ Some (p.0, p.1.now)) }
{
    let (word, behind) = split_first_word(words)?;
    match number_of(word)? {
        Decimal::Small(number) => Some((number, behind)),
        Decimal::Large => None,
    }
}

// The first of several words, and what follows it.
fn split_first_word(words: &[u8]) -> Option<(&[u8], &[u8])>
    ensures { MatchOption result (split_first_word words.now ≡ None) (λ p. split_first_word words.now
        ≡ Some (p.0.now, p.1.now)) }
{
    split_once(words, b' ')
}
