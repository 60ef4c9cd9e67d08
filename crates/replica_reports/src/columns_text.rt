//! Texts in columns: two spaces between, all to the right, a rule below each heading.
ghost use Rattle.std.specs.Prelude.{◌≡◌, ◌==◌, ◌++◌, cond, IfOk, OnOk, map, [], length, get_or, replicate};
ghost use Rattle.std.specs.List.{flat_map};
ghost use Rattle.std.specs.String.{string_bytes};
ghost use Rattle.answer_formats.specs.Formats.{to_the_right, spaced_line, rule};
ghost use Rattle.replica_reports.specs.ColumnTexts.{aligned_line, aligned_lines, widest_in, column_widths};

use std::alloc::{AllocError, Global};
use std::marker::Model;

/// What is between columns.
const GAP: &[u8] = b"  ";

/// A line's cells, from the left. Contracts see their texts.
#[derive(Drop)]
pub(crate) struct Line {
    cells: Vec<String>,
}

impl Model for Line {
    ghost use Rattle.std.specs.Prelude.{List, ℕ, map};
    ghost use Rattle.std.specs.String.{string_bytes};

    ghost Value = { List (List ℕ) };

    ghost view = { λ line. map string_bytes line.cells.items };
}

impl Line {
    /// The line of these cells.
    pub(crate) fn from_cells(cells: Vec<String>) -> Line
        ensures { result ≡ map string_bytes cells.items }
    {
        Line { cells }
    }

    /// The line of these texts.
    pub(crate) fn of_texts(alloc: Global, texts: &[&str]) -> Result<Line, AllocError>
        ensures { IfOk result (λ line. line ≡ map (λ text. text.now) texts.now) }
    {
        let mut cells = Vec::with_capacity(alloc, texts.len())?;
        for text in texts {
            cells.push(String::from_str(alloc, text)?)?;
        }
        Ok(Line { cells })
    }

    /// How many cells there are.
    pub(crate) fn len(&self) -> usize
        ensures { result ≡ length self.now }
    {
        self.cells.len()
    }

    /// A cell, from the left and from 0; empty if there is no such cell.
    pub(crate) fn cell(&self, column: usize) -> &str
        ensures { result.now ≡ get_or self.now column [] }
    {
        if column < self.cells.len() {
            self.cells[column].as_str()
        } else {
            ""
        }
    }
}

/// Puts a separator behind a text, unless what comes next is the first piece.
pub(crate) fn separate(out: &mut Vec<u8>, between: &[u8], index: usize) -> Result<(), AllocError>
    ensures { OnOk result (out.new.items ≡ out.old.items ++ cond (index == 0) [] between.now) }
{
    if index == 0 {
        return Ok(());
    }
    out.extend_from_slice(between)
}

/// The width of a column whose heading has this width: that of its widest text.
fn column_width(heading: usize, lines: &[Line], column: usize) -> usize
    ensures { result ≡ widest_in column heading lines.now }
{
    let mut width = heading;
    for line in lines {
        width = width.max(line.cell(column).len());
    }
    width
}

/// The width of each of the heading's columns.
fn widths(alloc: Global, heading: &Line, lines: &[Line]) -> Result<Vec<usize>, AllocError>
    ensures { IfOk result (λ widths. widths.items ≡ column_widths 0 heading.now lines.now) }
{
    let mut all = Vec::with_capacity(alloc, heading.len())?;
    for column in 0..heading.len() {
        all.push(column_width(heading.cell(column).len(), lines, column))?;
    }
    Ok(all)
}

/// Puts the same byte so often behind a text.
fn push_times(out: &mut Vec<u8>, byte: u8, count: usize) -> Result<(), AllocError>
    ensures { OnOk result (out.new.items ≡ out.old.items ++ replicate count byte) }
{
    for _ in 0..count {
        out.push(byte)?;
    }
    Ok(())
}

/// Puts a cell behind a text, to the right of its column.
fn push_cell(out: &mut Vec<u8>, width: usize, cell: &str) -> Result<(), AllocError>
    ensures { OnOk result (out.new.items ≡ out.old.items ++ to_the_right width cell.now) }
{
    push_times(out, b' ', width.saturating_sub(cell.len()))?;
    out.extend_from_slice(cell.as_bytes())
}

/// Puts a line behind a text.
fn push_line(out: &mut Vec<u8>, widths: &[usize], line: &Line) -> Result<(), AllocError>
    ensures { OnOk result (out.new.items ≡ out.old.items ++ aligned_line widths.now line.now) }
{
    for column in 0..widths.len().min(line.len()) {
        separate(out, GAP, column)?;
        push_cell(out, widths[column], line.cell(column))?;
    }
    out.extend_from_slice(b"\n")?;
    Ok(())
}

/// Puts the rules of all columns behind a text.
fn push_rules(out: &mut Vec<u8>, widths: &[usize]) -> Result<(), AllocError>
    ensures { OnOk result (out.new.items ≡ out.old.items ++ spaced_line (map rule widths.now)) }
{
    for column in 0..widths.len() {
        separate(out, GAP, column)?;
        push_times(out, b'-', widths[column])?;
    }
    out.extend_from_slice(b"\n")?;
    Ok(())
}

/// Puts lines behind a text.
fn push_lines(out: &mut Vec<u8>, widths: &[usize], lines: &[Line]) -> Result<(), AllocError>
    ensures { OnOk result (out.new.items ≡ out.old.items ++ flat_map (aligned_line widths.now) lines.now) }
{
    for line in lines {
        push_line(out, widths, line)?;
    }
    Ok(())
}

/// Lines below headings, each column as wide as its widest text.
pub(crate) fn aligned(
    alloc: Global,
    headings: &[&str],
    lines: &[Line],
) -> Result<Vec<u8>, AllocError>
    ensures { IfOk result (λ text. text.items ≡ aligned_lines (map (λ heading. heading.now) headings.now) lines.now) }
{
    let heading = Line::of_texts(alloc, headings)?;
    let widths = widths(alloc, &heading, lines)?;
    let mut out = Vec::new(alloc);
    push_line(&mut out, widths.as_slice(), &heading)?;
    push_rules(&mut out, widths.as_slice())?;
    push_lines(&mut out, widths.as_slice(), lines)?;
    Ok(out)
}
