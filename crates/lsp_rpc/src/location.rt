// Places in documents, and how they are written.
ghost use Rattle.std.specs.Prelude.{◌≡◌, OnOk, map};
ghost use Rattle.lsp_rpc.specs.Writing.{Adds, Appends, values_tokens};
ghost use Rattle.lsp_rpc.specs.Location.{location_value, locations_value, locations_at, document_locations, all_locations};

use crate::diagnostic::write_range;
use doc_text::Range;
use json::Writer;
use std::alloc::AllocError;

/// Ranges of a document, in order.
#[derive(Debug, Drop)]
pub struct DocumentRanges {
    /// The document's URI.
    pub uri: String,
    /// The ranges, in lines and units of the position encoding from 0.
    pub ranges: Vec<Range>,
}

// Writes a range of the document with a URI.
pub fn write_location(out: &mut Writer, uri: &str, range: Range) -> Result<(), AllocError>
    ensures { OnOk result (Adds out.old (location_value (record { range = range; uri = uri.now })) out.new) }
{
    out.begin_object()?;
    out.key("range")?;
    write_range(out, range)?;
    out.key("uri")?;
    out.string(uri)?;
    out.end_object()?;
    Ok(())
}

// Writes some ranges of the document with a URI, in order, as items of an array.
fn write_ranges(out: &mut Writer, uri: &str, ranges: &[Range]) -> Result<(), AllocError>
    ensures { OnOk result (Appends out.old (values_tokens (map location_value (locations_at uri.now ranges.now))) out.new) }
{
    'items: for range in ranges {
        write_location(out, uri, *range)?;
    }
    Ok(())
}

// Writes the ranges of a document, in order, as items of an array.
fn write_document_ranges(out: &mut Writer, document: &DocumentRanges) -> Result<(), AllocError>
    ensures { OnOk result (Appends out.old (values_tokens (map location_value (document_locations document.now))) out.new) }
{
    write_ranges(out, document.uri.as_str(), document.ranges.as_slice())
}

// Writes the ranges of some documents, in order, as an array.
pub fn write_locations(out: &mut Writer, documents: &[DocumentRanges]) -> Result<(), AllocError>
    ensures { OnOk result (Adds out.old (locations_value (all_locations documents.now)) out.new) }
{
    out.begin_array()?;
    'items: for document in documents {
        write_document_ranges(out, document)?;
    }
    out.end_array()?;
    Ok(())
}
