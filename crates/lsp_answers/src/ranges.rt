// Parts of a text, as the editor gets them.
ghost use Rattle.std.specs.Prelude.{◌≡◌, map, IfOk};
ghost use Rattle.lsp_answers.specs.Ranges as spec;

use doc_text::{Encoding, Position, Range, positions_of};
use std::alloc::{AllocError, Global};

// Where parts of a text start and end, in turn.
fn ends_of(alloc: Global, parts: &[(usize, usize)]) -> Result<Vec<usize>, AllocError>
    ensures { IfOk result (λ ends. ends.items ≡ spec.ends_of parts.now) }
{
    let mut ends = Vec::with_capacity(alloc, parts.len())?;
    for part in parts {
        ends.push(part.0)?;
        ends.push(part.1)?;
    }
    Ok(ends)
}

// The ranges from each first to each second of positions that come in pairs.
fn paired(alloc: Global, positions: &[Position]) -> Result<Vec<Range>, AllocError>
    ensures { IfOk result (λ ranges. ranges.items ≡ spec.paired positions.now) }
{
    let count = positions.len() / 2;
    let mut ranges = Vec::with_capacity(alloc, count)?;
    for i in 0..count {
        ranges.push(Range {
            start: positions[2 * i],
            end: positions[2 * i + 1],
        })?;
    }
    Ok(ranges)
}

// Parts of a text, each from one offset in bytes to another, as ranges of lines and units of the encoding. The text is read once.
pub fn ranges_of(
    alloc: Global,
    encoding: Encoding,
    text: &str,
    parts: &[(usize, usize)],
) -> Result<Vec<Range>, AllocError>
    ensures { IfOk result (λ ranges. ranges.items ≡ map (spec.range_at encoding text.now) parts.now) }
{
    let ends = ends_of(alloc, parts)?;
    let positions = positions_of(alloc, text, ends.as_slice(), encoding)?;
    let ranges = paired(alloc, positions.as_slice())?;
    Ok(ranges)
}
