//! The shapes of a row.

ghost use Rattle.std.specs.Prelude.{◌≡◌, ◌≤◌, ◌<◌, ◌+◌, ◌^◌, ◌++◌, OnOk};
ghost use Rattle.view_top.specs.Drawing.{bar_text, cause_text, outcome_word, label_y, tick_text, tick_word, rect_text, unit_of, x_of, y_of};
ghost use Rattle.view_top.specs.Plain.{IsPlain};
ghost use Rattle.view_top.specs.DrawingData.{bar as bar_view, outcome as fate_view, tick as mark_view};
ghost use Rattle.view_top.specs.declared.limits.TheConstants.{MAX_TEXT};

use crate::limits::{ABOVE, LABEL, LABELS, LANE, LEFT, STEP};
use crate::part::{Bar, CallOutcome, Tick};
use crate::picture::Picture;
use crate::svg_piece::SvgPiece::{Number, Quote, Text};
use mrpc_table::Memory;

// The horizontal offset of an event in a row.
pub(crate) fn x_of(at: u64) -> u64
    requires { at ≤ MAX_TEXT }
    ensures { result ≡ x_of at }
{
    LEFT + at * STEP
}

// The vertical offset of a bar in a row.
pub(crate) fn y_of(lane: u64) -> u64
    requires { lane ≤ MAX_TEXT + 1 }
    ensures { result ≡ y_of lane }
{
    ABOVE + lane * LANE
}

// The vertical offset of the words of a tick.
fn label_y(label: u64) -> u64
    ensures { result ≡ label_y label }
{
    LABEL + label % LABELS * LABEL
}

// Draws a line across a row, down to its end.
#[tactic(auto, unfolding(crate::specs::Drawing::tick_text))]
pub(crate) fn put_tick(
    picture: &mut Picture,
    below: u64,
    label: u64,
    mark: &Tick<'_>,
) -> Result<(), Memory>
    ensures { OnOk result (picture.new ≡ picture.old ++ tick_text below label (mark_view mark.now)) }
{
    let word = tick_word(mark.is_step);
    let x = x_of(mark.at);
    let y = label_y(label);
    picture.put(&[
        Text(b"<line class=\""),
        Text(word),
        Text(b"\" x1=\""),
        Number(x),
        Text(b"\" y1=\""),
        Number(y),
        Text(b"\" x2=\""),
        Number(x),
        Text(b"\" y2=\""),
        Number(below),
        Text(b"\"/>\n<text class=\""),
        Text(word),
        Text(b"\" x=\""),
        Number(x + 3),
        Text(b"\" y=\""),
        Number(y),
        Text(b"\">"),
        Quote(mark.words),
        Text(unit_of(mark.is_step)),
        Text(b"</text>\n"),
    ])
}

fn tick_word(is_step: bool) -> &'static [u8]
    ensures word { result.now ≡ tick_word is_step }
    ensures plain { IsPlain result.now }
{
    if is_step { b"step" } else { b"moment" }
}

fn unit_of(is_step: bool) -> &'static [u8]
    ensures unit { result.now ≡ unit_of is_step }
    ensures plain { IsPlain result.now }
{
    if is_step { b"" } else { b" ms" }
}

// Draws a call with its number, and the cause after it if it was refused.
pub(crate) fn put_bar(picture: &mut Picture, lane: u64, bar: &Bar<'_>) -> Result<(), Memory>
    requires { lane ≤ MAX_TEXT }
    ensures { OnOk result (picture.new ≡ picture.old ++ bar_text lane (bar_view bar.now)) }
{
    put_rect(picture, lane, bar)?;
    put_cause(picture, x_of(bar.end.to), y_of(lane), &bar.end.fate)
}

#[tactic(auto, unfolding(crate::specs::Drawing::rect_text))]
fn put_rect(picture: &mut Picture, lane: u64, bar: &Bar<'_>) -> Result<(), Memory>
    requires { lane ≤ MAX_TEXT }
    ensures { OnOk result (picture.new ≡ picture.old ++ rect_text lane (bar_view bar.now)) }
{
    let word = outcome_word(&bar.end.fate);
    let x = x_of(bar.from);
    let y = y_of(lane);
    picture.put(&[
        Text(b"<rect class=\""),
        Text(word),
        Text(b"\" x=\""),
        Number(x),
        Text(b"\" y=\""),
        Number(y),
        Text(b"\" width=\""),
        Number(bar.end.to.saturating_sub(bar.from) * STEP),
        Text(b"\" height=\"14\"><title>call "),
        Number(bar.seq),
        Text(b" of method "),
        Number(bar.method),
        Text(b", "),
        Text(word),
        Text(b"</title></rect>\n<text x=\""),
        Number(x + 4),
        Text(b"\" y=\""),
        Number(y + 11),
        Text(b"\">"),
        Number(bar.seq),
        Text(b"</text>\n"),
    ])
}

fn outcome_word(fate: &CallOutcome<'_>) -> &'static [u8]
    ensures word { result.now ≡ outcome_word (fate_view fate.now) }
    ensures plain { IsPlain result.now }
{
    match fate {
        CallOutcome::Sent => b"sent",
        CallOutcome::Refused(_) => b"refused",
        CallOutcome::Stands => b"stands",
    }
}

// The cause after a call that was refused.
#[tactic(auto, unfolding(crate::specs::Drawing::cause_text))]
fn put_cause(picture: &mut Picture, x: u64, y: u64, fate: &CallOutcome<'_>) -> Result<(), Memory>
    requires x { x < 2 ^ 32 }
    requires y { y < 2 ^ 32 }
    ensures { OnOk result (picture.new ≡ picture.old ++ cause_text x y (fate_view fate.now)) }
{
    let CallOutcome::Refused(cause) = fate else {
        return Ok(());
    };
    picture.put(&[
        Text(b"<text x=\""),
        Number(x + 4),
        Text(b"\" y=\""),
        Number(y + 11),
        Text(b"\">"),
        Quote(cause),
        Text(b"</text>\n"),
    ])
}
