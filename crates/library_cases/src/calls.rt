// Which call a line asks for.
use crate::line::Line;
use crate::words::field;
use crate::{boards, command_line, counts, documents, others, shares, tables, texts, uris};
use std::alloc::{AllocError, Global};
use std::sync::Wait;
use std::thread::Threads;

/// Writes what a call of a library answers on the fields of a line.
pub fn answer_call<R: Threads + Wait>(
    rt: &R,
    alloc: Global,
    line: &mut Line,
    given: &str,
) -> Result<(), AllocError> {
    match field(given, 0) {
        "tokens" => texts::write_tokens(alloc, line, field(given, 1)),
        "token size" => Ok(texts::write_size(line)),
        "board" => boards::run(alloc, line, given),
        "shares" => shares::answer(rt, alloc, line, given, false),
        "shares with others" => shares::answer(rt, alloc, line, given, true),
        "meet in shares" => shares::meet(rt, alloc, line, given),
        "offsets" => documents::write_offsets(alloc, line, given),
        "positions" => documents::write_positions(alloc, line, given),
        "edits" => documents::write_edits(alloc, line, given),
        "parse" => counts::write_statements(alloc, line, given),
        "facts" => counts::write_diagnostics(alloc, line, given),
        "others" => others::write_others(alloc, line, field(given, 1)),
        "analyse" => counts::write_analysis(alloc, line, given, false),
        "analyse with others" => counts::write_analysis(alloc, line, given, true),
        "merge" => tables::write_merged(alloc, line, given),
        "closed" => tables::write_closed(alloc, line, given),
        "symbols" => counts::write_symbols(alloc, line, given),
        "references" => counts::write_references(alloc, line, given),
        "rename" => counts::write_edits(alloc, line, given),
        "folder" => command_line::write_folder(alloc, line, given),
        "protols" => command_line::write_words(alloc, line, given),
        _ => uris::answer(alloc, line, given),
    }
}
