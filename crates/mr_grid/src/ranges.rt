ghost use Rattle.std.specs.Prelude.{◌≡◌, ◌≤◌, ◌<◌, ◌+◌, ◌*◌, ◌^◌, ◌++◌, true, length, Some, IfOk, Ok, Err};
ghost use Rattle.std.specs.Thread.{IsSync};
ghost use Rattle.mr_base.specs.declared.memory.Stop.TheVariants as Stop;
ghost use Rattle.mr_items.specs.Grid.{columns_of, grid_of, width_of};
ghost use Rattle.mr_items.specs.Lines.{begins_line};
ghost use Rattle.mr_grid.specs.Reading.{fault_from, IsPart, IsRead};

use crate::grid::Grid;
use crate::reading::{Draft, Part, first_columns, read_lines};
use mr_base::{Memory, Stop};
use mr_items::GridFault;
use mr_kernels::line_end;
use std::alloc::Global;
use std::thread::{Threads, join};

// How many bytes lines have at least that are cut. Fewer don't pay for a thread.
const LEAST: usize = 16384;

// Where lines are cut in two, of which the first have about so many of so many shares of their bytes.
fn middle_of(bytes: &[u8], part: Part, share: u32, shares: u32) -> usize
    requires part { IsPart bytes.now part.from part.to }
    requires share { share < shares }
    ensures inside { (part.from ≤ result) × (result ≤ part.to) }
    ensures begins { result < length bytes.now → begins_line bytes.now result ≡ true }
{
    let near = part.from + (part.to - part.from) / shares as usize * share as usize;
    (line_end(bytes, near) + 1).min(part.to)
}

// Puts the rows of lines behind those of the lines before them.
fn joined(mut front: Draft, mut back: Draft) -> Result<Draft, Memory>
    requires { front.rows + back.rows < 2 ^ 64 }
    ensures numbers { IfOk result (λ all. all.numbers.items ≡ front.numbers.items ++ back.numbers.items) }
    ensures rows { IfOk result (λ all. all.rows ≡ front.rows + back.rows) }
    ensures columns { IfOk result (λ all. all.columns ≡ back.columns) }
{
    front.numbers.append(&mut back.numbers)?;
    front.rows += back.rows;
    front.columns = back.columns;
    Ok(front)
}

// The rows of some lines, in a grid of so many columns, or the first fault of these lines. They are read by so many workers, in threads
// where they can be made. Room is made for the rows of so many bytes, where those behind these are put too.
#[cycle(shares)]
fn read_part<R: Threads + Sync>(
    rt: &R,
    alloc: Global,
    bytes: &[u8],
    part: Part,
    columns: u32,
    room: usize,
    workers: u32,
) -> Result<Draft, Stop<GridFault>>
    requires part { IsPart bytes.now part.from part.to }
    requires columns { columns ≡ width_of bytes.now }
    ensures read { IfOk result (λ draft. IsRead bytes.now part.from part.to draft.numbers.items draft.rows draft.columns) }
    ensures fault { (fault : _) → result ≡ Err (Stop.Refused fault) → fault_from bytes.now part.from ≡ Some fault }
{
    if workers <= 1 || part.to - part.from < LEAST {
        return read_lines(alloc, bytes, part, columns, room);
    }
    let few = workers / 2;
    let others = workers - few;
    let middle = middle_of(bytes, part, few, workers);
    let first = Part {
        from: part.from,
        to: middle,
    };
    let last = Part {
        from: middle,
        to: part.to,
    };
    let front = move || -> Result<Draft, Stop<GridFault>>
        requires { IsSync R.row × IsPart bytes.now first.from first.to × (columns ≡ width_of bytes.now) }
        ensures read { IfOk result (λ draft. IsRead bytes.entry.now first.from first.to draft.numbers.items draft.rows draft.columns) }
        ensures fault { (fault : _) → result ≡ Err (Stop.Refused fault) → fault_from bytes.entry.now first.from ≡ Some fault }
    { read_part(rt, alloc, bytes, first, columns, room, few) };
    let back = move || -> Result<Draft, Stop<GridFault>>
        requires { IsSync R.row × IsPart bytes.now last.from last.to × (columns ≡ width_of bytes.now) }
        ensures read { IfOk result (λ draft. IsRead bytes.entry.now last.from last.to draft.numbers.items draft.rows draft.columns) }
        ensures fault { (fault : _) → result ≡ Err (Stop.Refused fault) → fault_from bytes.entry.now last.from ≡ Some fault }
    { read_part(rt, alloc, bytes, last, columns, last.to - last.from, others) };
    let (front, back) = join(rt, front, back);
    let all = joined(front?, back?)?;
    Ok(all)
}

/// The grid that `read_grid` gives, or the same fault. The text is read by so many workers, in threads where they can be made.
pub fn read_grid_by<R: Threads + Sync>(
    rt: &R,
    alloc: Global,
    workers: u32,
    bytes: &[u8],
) -> Result<Grid, Stop<GridFault>>
    ensures grid { IfOk result (λ grid. grid_of bytes.now ≡ Ok grid) }
    ensures fault { (fault : _) → result ≡ Err (Stop.Refused fault) → grid_of bytes.now ≡ Err fault }
    ensures columns { IfOk result (λ grid. columns_of grid ≤ 1024) }
    ensures rows { IfOk result (λ grid. length grid ≤ length bytes.now) }
{
    let columns = first_columns(alloc, bytes)?;
    let part = Part {
        from: 0,
        to: bytes.len(),
    };
    let draft = read_part(rt, alloc, bytes, part, columns, bytes.len(), workers)?;
    Ok(Grid::of_numbers(draft.numbers, draft.rows, draft.columns))
}
