//! The drawing of rows.

ghost use Rattle.std.specs.Prelude.{◌≡◌, ◌≤◌, ◌<◌, ◌^◌, ◌++◌, IfOk, OnOk, length, map};
ghost use Rattle.view_top.specs.Drawing.{bars_text, drawing, svg_closing, foot_text, svg_opening, head_text, height_of, longest, ticks_text, row_text, rows_text, total_height};
ghost use Rattle.view_top.specs.Plain.{IsPlain};
ghost use Rattle.view_top.specs.DrawingData.{bar, tick, row as row_view};
ghost use Rattle.view_top.specs.declared.limits.TheConstants.{MAX_TEXT};

use crate::limits::RIGHT;
use crate::part::{Bar, Tick, TimelineRow};
use crate::picture::Picture;
use crate::shape::{put_bar, put_tick, x_of, y_of};
use crate::svg_piece::SvgPiece::{Number, Text};
use mrpc_table::{Bytes, Memory};
use std::alloc::Global;

// Draws rows, each below the previous one.
pub(crate) fn draw(alloc: Global, rows: &[TimelineRow<'_>]) -> Result<Bytes, Memory>
    requires { length rows.now ≤ MAX_TEXT }
    ensures drawn { IfOk result (λ svg. svg ≡ drawing (map row_view rows.now)) }
    ensures plain { IfOk result IsPlain }
{
    let mut picture = Picture::new(alloc);
    let width = x_of(longest(rows)) + RIGHT;
    let height = total_height(rows);
    put_svg_opening(&mut picture, width, height)?;
    put_rows(&mut picture, rows)?;
    put_svg_closing(&mut picture)?;
    Ok(picture.into_bytes())
}

// The height of a row, with some space below its last bar.
fn height_of(row: &TimelineRow<'_>) -> u64
    ensures height { result ≡ height_of (row_view row.now) }
    ensures small { result < 2 ^ 30 }
{
    y_of(row.bars.len() as u64 + 1)
}

fn total_height(rows: &[TimelineRow<'_>]) -> u64
    requires { length rows.now ≤ MAX_TEXT }
    ensures { result ≡ total_height (map row_view rows.now) }
{
    let mut height = 0;
    for row in rows {
        height += height_of(row);
    }
    height
}

fn longest(rows: &[TimelineRow<'_>]) -> u64
    ensures longest { result ≡ longest (map row_view rows.now) }
    ensures small { result ≤ MAX_TEXT }
{
    let mut length: u64 = 0;
    for row in rows {
        length = length.max(row.happenings);
    }
    length
}

// The first lines of the drawing: a sent call is green, a refused one red, and a pending one has no filling;
// an operation is blue, and a timestamp gray.
#[tactic(auto, unfolding(crate::specs::Drawing::svg_opening))]
fn put_svg_opening(picture: &mut Picture, width: u64, height: u64) -> Result<(), Memory>
    ensures { OnOk result (picture.new ≡ picture.old ++ svg_opening width height) }
{
    picture.put(&[
        Text(
            b"<svg xmlns=\"http://www.w3.org/2000/svg\" font-family=\"monospace\" font-size=\"11\" width=\"",
        ),
        Number(width),
        Text(b"\" height=\""),
        Number(height),
        Text(
            b"\">\n<style>.sent{fill:#9fd6a8;stroke:#2f7d3b}.refused{fill:#f2b8b5;stroke:#b02020}",
        ),
        Text(b".stands{fill:none;stroke:#555555;stroke-dasharray:4,2}"),
        Text(b"line.step{stroke:#1f5fbf}text.step{fill:#1f5fbf}"),
        Text(b"line.moment{stroke:#999999;stroke-dasharray:2,2}text.moment{fill:#777777}"),
        Text(b"</style>\n<rect width=\"100%\" height=\"100%\" fill=\"#ffffff\"/>\n"),
    ])
}

#[tactic(auto, unfolding(crate::specs::Drawing::svg_closing))]
fn put_svg_closing(picture: &mut Picture) -> Result<(), Memory>
    ensures { OnOk result (picture.new ≡ picture.old ++ svg_closing) }
{
    picture.put(&[Text(b"</svg>\n")])
}

fn put_rows(picture: &mut Picture, rows: &[TimelineRow<'_>]) -> Result<(), Memory>
    requires { length rows.now ≤ MAX_TEXT }
    ensures { OnOk result (picture.new ≡ picture.old ++ rows_text 0 (map row_view rows.now)) }
{
    let mut top: u64 = 0;
    for row in rows {
        put_row(picture, top, row)?;
        top += height_of(row);
    }
    Ok(())
}

fn put_row(picture: &mut Picture, top: u64, row: &TimelineRow<'_>) -> Result<(), Memory>
    ensures { OnOk result (picture.new ≡ picture.old ++ row_text top (row_view row.now)) }
{
    put_head(picture, top, row.conn)?;
    put_ticks(picture, y_of(row.bars.len() as u64), &row.marks)?;
    put_bars(picture, &row.bars)?;
    put_foot(picture)
}

#[tactic(auto, unfolding(crate::specs::Drawing::head_text))]
fn put_head(picture: &mut Picture, top: u64, conn: u64) -> Result<(), Memory>
    ensures { OnOk result (picture.new ≡ picture.old ++ head_text top conn) }
{
    picture.put(&[
        Text(b"<g transform=\"translate(0,"),
        Number(top),
        Text(b")\">\n<text x=\"8\" y=\"57\">connection "),
        Number(conn),
        Text(b"</text>\n"),
    ])
}

#[tactic(auto, unfolding(crate::specs::Drawing::foot_text))]
fn put_foot(picture: &mut Picture) -> Result<(), Memory>
    ensures { OnOk result (picture.new ≡ picture.old ++ foot_text) }
{
    picture.put(&[Text(b"</g>\n")])
}

fn put_ticks(picture: &mut Picture, below: u64, marks: &[Tick<'_>]) -> Result<(), Memory>
    ensures { OnOk result (picture.new ≡ picture.old ++ ticks_text below 0 (map tick marks.now)) }
{
    let mut label: u64 = 0;
    for mark in marks {
        put_tick(picture, below, label, mark)?;
        label += 1;
    }
    Ok(())
}

fn put_bars(picture: &mut Picture, bars: &[Bar<'_>]) -> Result<(), Memory>
    requires { length bars.now ≤ MAX_TEXT }
    ensures { OnOk result (picture.new ≡ picture.old ++ bars_text 0 (map bar bars.now)) }
{
    let mut lane: u64 = 0;
    for bar in bars {
        put_bar(picture, lane, bar)?;
        lane += 1;
    }
    Ok(())
}
