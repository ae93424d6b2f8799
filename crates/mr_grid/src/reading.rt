ghost use Rattle.std.specs.Prelude.{◌≡◌, ◌≤◌, ◌<◌, ◌+◌, ◌^◌, ℕ, ◌==◌, true, [], length, Some, IfOk, Ok, Err, if◌then◌else◌};
ghost use Rattle.mr_base.specs.declared.memory.Stop.TheVariants as Stop;
ghost use Rattle.mr_items.specs.Grid.{columns_of, grid_of, width_of};
ghost use Rattle.mr_items.specs.Lines.{begins_line, line_at};
ghost use Rattle.mr_grid.specs.Reading.{fault_from, line_fault, next_line, IsPart, IsRead, IsWidth};

use crate::grid::Grid;
use crate::line::{Line, WIDEST, line_without_return, read_fields};
use mr_base::{Memory, Stop};
use mr_items::GridFault;
use mr_kernels::line_end;
use std::alloc::Global;

/// Lines of a text: from the beginning of one up to that of another, or up to the end of the text.
#[derive(Clone, Copy)]
pub(crate) struct Part {
    pub from: usize,
    pub to: usize,
}

/// The rows of the lines that were read, and the columns of the grid, which are 0 before its first row.
#[derive(Drop)]
pub(crate) struct Draft {
    pub numbers: Vec<i32>,
    pub rows: u64,
    pub columns: u32,
}

impl Draft {
    /// No rows yet, in a grid of so many columns. There is room for the numbers of so many bytes, if they have four each with what parts
    /// them.
    fn with_room(alloc: Global, columns: u32, bytes: usize) -> Result<Draft, Memory>
        ensures numbers { IfOk result (λ draft. draft.numbers.items ≡ []) }
        ensures rows { IfOk result (λ draft. draft.rows ≡ 0) }
        ensures columns { IfOk result (λ draft. draft.columns ≡ columns) }
    {
        Ok(Draft {
            numbers: Vec::with_capacity(alloc, bytes / 4)?,
            rows: 0,
            columns,
        })
    }
}

/// The line that begins at a place, without its byte 10.
#[inline(always)]
fn line_from(bytes: &[u8], at: usize) -> &[u8]
    requires { at ≤ length bytes.now }
    ensures { result.now ≡ line_at bytes.now at }
{
    &bytes[at..line_end(bytes, at)]
}

/// The fault of a line with a field, which begins at a place, in a grid of so many columns.
fn fault_of(line: Line, place: usize, columns: u32) -> Option<GridFault>
    requires { (field : ℕ) → line.fields ≤ 1024 → line.stray ≡ Some field → place + field < 2 ^ 64 }
    ensures { result ≡ line_fault place line.fields line.stray columns }
{
    if line.fields > WIDEST {
        return Some(GridFault::Wide(place as u64));
    }
    if line.fields != columns {
        return Some(GridFault::Ragged(place as u64));
    }
    match line.stray {
        Some(field) => Some(GridFault::Number((place + field) as u64)),
        None => None,
    }
}

/// The columns of the grid, which the first row gives.
fn columns_with(columns: u32, fields: u32) -> u32
    ensures { result ≡ (if columns == 0 then fields else columns) }
{
    if columns == 0 { fields } else { columns }
}

/// Reads the line that begins at a place, and gives the place of the next one.
#[inline(always)]
fn read_line(draft: &mut Draft, bytes: &[u8], at: usize) -> Result<usize, Stop<GridFault>>
    requires inside { at < length bytes.now }
    requires begins { begins_line bytes.now at ≡ true }
    requires known { IsWidth bytes.now at draft.old.columns }
    requires few { draft.old.rows ≤ at }
    ensures next { IfOk result (λ next. next ≡ next_line bytes.now at) }
    ensures read { IfOk result (λ next. (from : ℕ) → from ≤ at
        → IsRead bytes.now from at draft.old.numbers.items draft.old.rows draft.old.columns
        → IsRead bytes.now from next draft.new.numbers.items draft.new.rows draft.new.columns) }
    ensures fault { (fault : _) → result ≡ Err (Stop.Refused fault) → fault_from bytes.now at ≡ Some fault }
{
    let whole = line_from(bytes, at);
    let next = (at + whole.len() + 1).min(bytes.len());
    let line = read_fields(line_without_return(whole), &bytes[at..], &mut draft.numbers)?;
    if line.fields == 0 {
        return Ok(next);
    }
    let columns = columns_with(draft.columns, line.fields);
    if let Some(fault) = fault_of(line, at, columns) {
        return Err(Stop::Refused(fault));
    }
    draft.columns = columns;
    draft.rows += 1;
    Ok(next)
}

/// The columns of the grid of a text, which its first row gives, or the fault of that row. A grid without rows has no columns.
pub(crate) fn first_columns(alloc: Global, bytes: &[u8]) -> Result<u32, Stop<GridFault>>
    ensures columns { IfOk result (λ columns. columns ≡ width_of bytes.now) }
    ensures fault { (fault : _) → result ≡ Err (Stop.Refused fault) → fault_from bytes.now 0 ≡ Some fault }
{
    let mut draft = Draft::with_room(alloc, 0, 0)?;
    let mut at = 0;
    while at < bytes.len() && draft.columns == 0 {
        at = read_line(&mut draft, bytes, at)?;
    }
    Ok(draft.columns)
}

/// The rows of some lines, in a grid of so many columns, or the first fault of these lines. Room is made for those of so many bytes.
pub(crate) fn read_lines(
    alloc: Global,
    bytes: &[u8],
    part: Part,
    columns: u32,
    room: usize,
) -> Result<Draft, Stop<GridFault>>
    requires part { IsPart bytes.now part.from part.to }
    requires known { IsWidth bytes.now part.from columns }
    ensures read { IfOk result (λ draft. IsRead bytes.now part.from part.to draft.numbers.items draft.rows draft.columns) }
    ensures fault { (fault : _) → result ≡ Err (Stop.Refused fault) → fault_from bytes.now part.from ≡ Some fault }
{
    let mut draft = Draft::with_room(alloc, columns, room)?;
    let mut at = part.from;
    while at < part.to {
        at = read_line(&mut draft, bytes, at)?;
    }
    Ok(draft)
}

/// The grid of a text, or the first fault of its lines: a line with more than 1024 fields (`Wide`, at the line), with another number of
/// fields than the first row (`Ragged`, at the line), or with a field that is no number from -2147483647 to 2147483647 (`Number`, at the
/// first such field). Offsets count from the start of the text.
///
/// The lines end with a byte 10, the last one with it or without, and a byte 13 before that is dropped. Fields are parted by spaces and
/// tabs, and lines without a field are passed over.
pub fn read_grid(alloc: Global, bytes: &[u8]) -> Result<Grid, Stop<GridFault>>
    ensures grid { IfOk result (λ grid. grid_of bytes.now ≡ Ok grid) }
    ensures fault { (fault : _) → result ≡ Err (Stop.Refused fault) → grid_of bytes.now ≡ Err fault }
    ensures columns { IfOk result (λ grid. columns_of grid ≤ 1024) }
    ensures rows { IfOk result (λ grid. length grid ≤ length bytes.now) }
{
    let part = Part {
        from: 0,
        to: bytes.len(),
    };
    let draft = read_lines(alloc, bytes, part, 0, bytes.len())?;
    Ok(Grid::of_numbers(draft.numbers, draft.rows, draft.columns))
}
