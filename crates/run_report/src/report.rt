//! The whole report of a run, and its counts.

ghost use Rattle.std.specs.Prelude.{◌≡◌, ◌++◌, ◌∷◌, [], ℕ, List, All, IfOk, OnOk, false, map, true};
ghost use Rattle.std.specs.List.{AllZip, concat, flat_map};
ghost use Rattle.telemetry.specs.declared.counts.Counts.{Counts};
ghost use Rattle.telemetry.specs.Totals.{IsCountOf, IsTotals, totals_text};
ghost use Rattle.run_report.specs.Counting.{counted_in};
ghost use Rattle.run_report.specs.Counts.{AreCountsOf, HaveCounted};
ghost use Rattle.run_report.specs.Prefixes.{AreMadePrefixes, IsMadePrefix, ExpectedPrefix, report_prefix, expected_for, served_prefix};
ghost use Rattle.run_report.specs.Report.{IsRunText, IsServedText, IsReportText, IsReportable, IsReportableConn, rounds_line, rounds_of, rounds_words};

use crate::append_unbound;
use crate::arrival_lines::append_false_reclaims;
use crate::connection::append_pending_calls;
use crate::counting::add_up;
use crate::prefixes::{MadePrefix, make_prefixes};
use crate::reported_connection::{ReportedConnection, Rounds, ServedReport};
use crate::stream_remainder::append_stream_remainder;
use frame_transport::split_is_unique;
use mrpc_table::{Bytes, Memory};
use std::alloc::Global;
use std::thread::Threads;
use telemetry::{Totals, totals_are_counts};

/// The report of a run, with the counts of its lines.
#[derive(Drop)]
pub struct RunText {
    /// The text in parts, in order: one for each connection, and a last one for all of them.
    pub parts: Vec<Bytes>,
    pub totals: Totals,
}

/// The report of connections in this order, followed by the accounts of their visits and the counts of all lines. The
/// long parts of each connection are made, and its lines counted, in a thread of its own if one can be started. The
/// only error is `Memory`.
pub fn run_text<R: Threads + Sync>(
    rt: &R,
    alloc: Global,
    shown: &[ReportedConnection<'_, '_>],
) -> Result<RunText, Memory>
    requires { All IsReportable shown.now }
    ensures text { IfOk result (λ told. IsRunText shown.now (concat told.parts.items)) }
    ensures counts { IfOk result (λ told. IsCountOf (flat_map counted_in shown.now) told.totals) }
    ensures totals { IfOk result (λ told. IsTotals told.totals) }
{
    totals_are_counts();
    let made = make_prefixes(rt, alloc, shown, true)?;
    let mut counts = Vec::new(alloc);
    let mut parts = texts_of(alloc, shown, made, &mut counts)?;
    let totals = add_up(alloc, shown, counts.as_slice())?;
    let last = summary_text(alloc, shown, &totals)?;
    parts.push(last)?;
    Ok(RunText { parts, totals })
}

/// The counts of the lines of a run's report, of connections in this order, without making its text. The lines of
/// each connection are counted in a thread of its own if one can be started. The only error is `Memory`.
pub fn run_counts<R: Threads + Sync>(
    rt: &R,
    alloc: Global,
    shown: &[ReportedConnection<'_, '_>],
) -> Result<Totals, Memory>
    requires { All IsReportable shown.now }
    ensures text { IfOk result (λ _. (text : List ℕ) × IsRunText shown.now text) }
    ensures counts { IfOk result (λ totals. IsCountOf (flat_map counted_in shown.now) totals) }
    ensures totals { IfOk result (λ totals. IsTotals totals) }
{
    split_is_unique();
    totals_are_counts();
    let made = make_prefixes(rt, alloc, shown, false)?;
    let counts = counts_of(alloc, shown, made)?;
    let totals = add_up(alloc, shown, counts.as_slice())?;
    let _sums = totals.sums();
    Ok(totals)
}

// The counts of each connection, from what was made of it.
fn counts_of(
    alloc: Global,
    shown: &[ReportedConnection<'_, '_>],
    made: Vec<Result<MadePrefix, Memory>>,
) -> Result<Vec<Totals>, Memory>
    requires { AreMadePrefixes (map (expected_for false) shown.now) made.items }
    ensures { IfOk result (λ counts. AllZip AreCountsOf shown.now counts.items) }
{
    let mut counts = Vec::new(alloc);
    let mut rest = made.into_iter();
    for _one in shown {
        let Some(made) = rest.next() else {
            unreachable!()
        };
        counts.push(counts_in(made)?)?;
    }
    Ok(counts)
}

// The counts of a connection, from what was made of it; `Memory` if that ran out of memory.
fn counts_in(made: Result<MadePrefix, Memory>) -> Result<Totals, Memory>
    ensures { (making : ExpectedPrefix) → IfOk made (IsMadePrefix making) → IfOk result (HaveCounted making.counted) }
{
    let MadePrefix {
        text: _text,
        counts,
    } = made?;
    Ok(counts)
}

// The text of each connection, from its prefix. Collects the counts of all.
fn texts_of(
    alloc: Global,
    shown: &[ReportedConnection<'_, '_>],
    made: Vec<Result<MadePrefix, Memory>>,
    counts: &mut Vec<Totals>,
) -> Result<Vec<Bytes>, Memory>
    requires tellable { All IsReportable shown.now }
    requires made { AreMadePrefixes (map (expected_for true) shown.now) made.items }
    requires none { counts.old.items ≡ [] }
    ensures texts { IfOk result (λ texts. AllZip IsReportText shown.now texts.items) }
    ensures counts { OnOk result (AllZip AreCountsOf shown.now counts.new.items) }
{
    let mut texts = Vec::new(alloc);
    let mut rest = made.into_iter();
    for one in shown {
        let Some(made) = rest.next() else {
            unreachable!()
        };
        texts.push(text_of(one, made, counts)?)?;
    }
    Ok(texts)
}

// The text of a connection, from its prefix; `Memory` if that ran out of memory. Adds its counts to those of the
// others.
fn text_of(
    shown: &ReportedConnection<'_, '_>,
    made: Result<MadePrefix, Memory>,
    counts: &mut Vec<Totals>,
) -> Result<Bytes, Memory>
    requires tellable { IsReportable shown.now }
    requires made { IfOk made (IsMadePrefix (expected_for true shown.now)) }
    ensures text { IfOk result (λ text. IsReportText shown.now text) }
    ensures counts { OnOk result ((own : List (ℕ × Counts)) × AreCountsOf shown.now own
        × (counts.new.items ≡ counts.old.items ++ own ∷ [])) }
{
    let MadePrefix { text, counts: own } = made?;
    counts.push(own)?;
    whole_text(shown, text)
}

// The text of a connection, from its prefix.
fn whole_text(shown: &ReportedConnection<'_, '_>, front: Bytes) -> Result<Bytes, Memory>
    requires tellable { IsReportable shown.now }
    requires front { front ≡ report_prefix true shown.now }
    ensures { IfOk result (λ text. IsReportText shown.now text) }
{
    let mut text = front;
    append_suffix(&mut text, shown)?;
    Ok(text)
}

// Appends to the prefix of a connection's text the remainder of it.
fn append_suffix(out: &mut Bytes, shown: &ReportedConnection<'_, '_>) -> Result<(), Memory>
    requires tellable { IsReportable shown.now }
    requires front { out.old ≡ report_prefix true shown.now }
    ensures { OnOk result (IsReportText shown.now out.new) }
{
    match shown {
        ReportedConnection::Unbound { conn, why } => append_unbound(out, *conn, why),
        ReportedConnection::Served(served) => append_served(out, served),
    }
}

// Appends to the prefix of a bound connection's text: false reclaims, the remainder of its stream, and its pending
// calls.
fn append_served(out: &mut Bytes, served: &ServedReport<'_, '_>) -> Result<(), Memory>
    requires tellable { IsReportableConn served.now }
    requires front { out.old ≡ served_prefix served.now }
    ensures { OnOk result (IsServedText served.now out.new) }
{
    let conn = served.calls.number();
    append_false_reclaims(out, conn, served.not_held)?;
    append_stream_remainder(out, conn, served.calls.ended(), served.arrivals)?;
    append_pending_calls(out, served.calls)
}

// The text after all connections: the accounts of those that have one, and the counts of all lines.
fn summary_text(
    alloc: Global,
    shown: &[ReportedConnection<'_, '_>],
    totals: &Totals,
) -> Result<Bytes, Memory>
    ensures text { IfOk result (λ text. text ≡ flat_map rounds_of shown.now ++ totals_text totals.now) }
    ensures totals { IfOk result (λ _. IsTotals totals.now) }
{
    let mut text = Bytes::new(alloc);
    append_rounds(&mut text, shown)?;
    text.append(totals.text(alloc)?.as_slice())?;
    Ok(text)
}

// Appends the accounts of the connections that have one.
fn append_rounds(out: &mut Bytes, shown: &[ReportedConnection<'_, '_>]) -> Result<(), Memory>
    ensures { OnOk result (out.new ≡ out.old ++ flat_map rounds_of shown.now) }
{
    for one in shown {
        append_account(out, one)?;
    }
    Ok(())
}

// Appends the account of a connection, if it has one.
fn append_account(out: &mut Bytes, shown: &ReportedConnection<'_, '_>) -> Result<(), Memory>
    ensures { OnOk result (out.new ≡ out.old ++ rounds_of shown.now) }
{
    match shown {
        ReportedConnection::Unbound { .. } => Ok(()),
        ReportedConnection::Served(served) => match served.rounds {
            None => Ok(()),
            Some(rounds) => append_rounds_line(out, served.calls.number(), rounds),
        },
    }
}

// Appends `rounds CONN WEIGHT VISITS ROUNDS KEPT DROPPED`.
fn append_rounds_line(out: &mut Bytes, conn: u32, rounds: Rounds) -> Result<(), Memory>
    ensures { OnOk result (out.new ≡ out.old ++ rounds_line conn rounds) }
{
    out.append(b"rounds")?;
    out.append_word(u64::from(conn))?;
    append_numbers(out, rounds)?;
    out.append(b"\n")
}

// Appends the numbers of an account, each after a space.
fn append_numbers(out: &mut Bytes, rounds: Rounds) -> Result<(), Memory>
    ensures { OnOk result (out.new ≡ out.old ++ rounds_words rounds) }
{
    out.append_word(rounds.weight)?;
    out.append_word(rounds.account.visits)?;
    out.append_word(rounds.account.rounds)?;
    out.append_word(rounds.account.kept)?;
    out.append_word(rounds.account.dropped)
}
