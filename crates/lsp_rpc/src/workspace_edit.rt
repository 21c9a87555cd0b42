// Edits of documents, and how they are written.
ghost use Rattle.std.specs.Prelude.{◌≡◌, OnOk, IfOk, map};
ghost use Rattle.std.specs.List.{list_any};
ghost use Rattle.serde_json.specs.Data.{object};
ghost use Rattle.lsp_rpc.specs.Writing.{Adds, Appends};
ghost use Rattle.lsp_rpc.specs.WorkspaceEdit.{is_range, further, with_ranges, merged, edit_value, edits_value, changes_members, workspace_edit_value, document_ranges, changes_view, change_tokens};

use crate::diagnostic::write_range;
use crate::location::DocumentRanges;
use doc_text::Range;
use json::Writer;
use std::alloc::{AllocError, Global};
use std::collections::BTreeMap;

fn is_same(one: Range, other: Range) -> bool
    ensures { result ≡ is_range one other }
{
    one == other
}

fn is_among(ranges: &[Range], range: Range) -> bool
    ensures { result ≡ list_any (is_range range) ranges.now }
{
    ranges.iter().any(|known| is_same(range, *known))
}

// The ranges that aren't among those before.
fn further(alloc: Global, before: &[Range], more: &[Range]) -> Result<Vec<Range>, AllocError>
    ensures { IfOk result (λ ranges. ranges.items ≡ further before.now more.now) }
{
    let mut ranges = Vec::with_capacity(alloc, more.len())?;
    for range in more {
        if !is_among(before, *range) {
            ranges.push(*range)?;
        }
    }
    Ok(ranges)
}

// The ranges of a document, behind those that its URI has, but for those that it has.
fn add_ranges(
    alloc: Global,
    changes: &mut BTreeMap<String, Vec<Range>>,
    document: DocumentRanges,
) -> Result<(), AllocError>
    ensures { OnOk result (changes_view changes.new.entries ≡ with_ranges (changes_view changes.old.entries) (document_ranges document)) }
{
    let mut ranges = match changes.remove(document.uri.as_str()) {
        Some(before) => before,
        None => Vec::new(alloc),
    };
    let more = further(alloc, ranges.as_slice(), document.ranges.as_slice())?;
    ranges.extend_from_slice(more.as_slice())?;
    changes.insert(document.uri, ranges)?;
    Ok(())
}

// The ranges of all documents, under each URI once.
fn merge(
    alloc: Global,
    documents: Vec<DocumentRanges>,
) -> Result<BTreeMap<String, Vec<Range>>, AllocError>
    ensures { IfOk result (λ changes. changes_view changes.entries ≡ merged (map document_ranges documents.items)) }
{
    let mut changes = BTreeMap::new(alloc);
    'documents: for document in documents {
        add_ranges(alloc, &mut changes, document)?;
    }
    Ok(changes)
}

// Writes that a text is to stand in the place of a range.
fn write_edit(out: &mut Writer, range: Range, new_text: &str) -> Result<(), AllocError>
    ensures { OnOk result (Adds out.old (edit_value new_text.now range) out.new) }
{
    out.begin_object()?;
    out.key("newText")?;
    out.string(new_text)?;
    out.key("range")?;
    write_range(out, range)?;
    out.end_object()?;
    Ok(())
}

// Writes the edits of a document, in order, as an array.
fn write_edits(out: &mut Writer, ranges: &[Range], new_text: &str) -> Result<(), AllocError>
    ensures { OnOk result (Adds out.old (edits_value new_text.now ranges.now) out.new) }
{
    out.begin_array()?;
    'items: for range in ranges {
        write_edit(out, *range, new_text)?;
    }
    out.end_array()?;
    Ok(())
}

// Writes the edits of a document under its URI, as a member of an object.
fn write_change(
    out: &mut Writer,
    uri: &str,
    ranges: &[Range],
    new_text: &str,
) -> Result<(), AllocError>
    ensures { OnOk result (Appends out.old (change_tokens new_text.now (uri.now, ranges.now)) out.new) }
{
    out.key(uri)?;
    write_edits(out, ranges, new_text)?;
    Ok(())
}

// Writes the edits of all documents, as an object.
fn write_changes(
    out: &mut Writer,
    changes: &BTreeMap<String, Vec<Range>>,
    new_text: &str,
) -> Result<(), AllocError>
    ensures { OnOk result (Adds out.old (object (changes_members new_text.now (changes_view changes.now.entries))) out.new) }
{
    out.begin_object()?;
    'members: for (uri, ranges) in changes {
        write_change(out, uri.as_str(), ranges.as_slice(), new_text)?;
    }
    out.end_object()?;
    Ok(())
}

// Writes that a text is to stand in the place of the ranges of some documents.
pub fn write_workspace_edit(
    alloc: Global,
    out: &mut Writer,
    documents: Vec<DocumentRanges>,
    new_text: &str,
) -> Result<(), AllocError>
    ensures { OnOk result (Adds out.old (workspace_edit_value new_text.now (map document_ranges documents.items)) out.new) }
{
    let changes = merge(alloc, documents)?;
    out.begin_object()?;
    out.key("changes")?;
    write_changes(out, &changes, new_text)?;
    out.end_object()?;
    Ok(())
}
