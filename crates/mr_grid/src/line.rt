ghost use Rattle.std.specs.Prelude.{◌≡◌, ◌≤◌, ◌++◌, min, length, IfOk, OnOk, is_none, Some, None, if◌then◌else◌};
ghost use Rattle.std.specs.Option.{option_or, option_to_list};
ghost use Rattle.mr_items.specs.Lines.{is_field_byte, without_return};
ghost use Rattle.mr_items.specs.Runs.{run_places};
ghost use Rattle.mr_grid.specs.Fields.{Continues, elements_in, stray_of};

use crate::field::{field_at, run_end};
use mr_base::Memory;

/// The most columns of a grid.
pub const WIDEST: u32 = 1024;

/// What was read of a line: its number of fields, cut at 1025, and the place of its first field that is no element.
#[derive(Clone, Copy)]
pub struct Line {
    pub fields: u32,
    pub stray: Option<usize>,
}

/// The line without the byte 13 at its end, if it has one.
pub fn line_without_return(line: &[u8]) -> &[u8]
    ensures { result.now ≡ without_return line.now }
{
    if !line.is_empty() && line[line.len() - 1] == 13 {
        return &line[..line.len() - 1];
    }
    line
}

/// Keeps an element, or the place of the first field that is none.
#[inline(always)]
fn keep(
    numbers: &mut Vec<i32>,
    element: Option<i32>,
    at: usize,
    stray: Option<usize>,
) -> Result<Option<usize>, Memory>
    ensures stray { IfOk result (λ s. s ≡ option_or stray (if is_none element then Some at else None)) }
    ensures numbers { OnOk result (numbers.new.items ≡ numbers.old.items ++ option_to_list element) }
{
    match element {
        Some(element) => {
            numbers.push(element)?;
            Ok(stray)
        }
        None => Ok(stray.or(Some(at))),
    }
}

/// Reads the fields of a line, whose text goes on as `rest`, up to the first that is one too many, and puts its elements last.
#[inline(always)]
pub fn read_fields(line: &[u8], rest: &[u8], numbers: &mut Vec<i32>) -> Result<Line, Memory>
    requires { Continues line.now rest.now }
    ensures fields { IfOk result (λ l. l.fields ≡ min (length (run_places is_field_byte line.now)) 1025) }
    ensures stray { IfOk result (λ l. l.fields ≤ 1024 → l.stray ≡ stray_of line.now) }
    ensures numbers { IfOk result (λ l. l.fields ≤ 1024 → numbers.new.items ≡ numbers.old.items ++ elements_in line.now) }
{
    let mut at = run_end(line, 0, false);
    let mut fields = 0;
    let mut stray = None;
    while at < line.len() && fields <= WIDEST {
        let field = field_at(line, rest, at);
        stray = keep(numbers, field.element, at, stray)?;
        fields += 1;
        at = run_end(line, field.end, false);
    }
    Ok(Line { fields, stray })
}
