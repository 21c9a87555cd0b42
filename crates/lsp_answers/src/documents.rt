// Places in files, document by document.
ghost use Rattle.std.specs.Prelude.{◌≡◌, ◌≤◌, ◌<◌, ◌++◌, length, map, drop, string_bytes, IfOk};
ghost use Rattle.lsp_rpc.specs.Location.{all_locations};
ghost use Rattle.lsp_rpc.specs.WorkspaceEdit.{document_ranges};
ghost use Rattle.lsp_answers.specs.Answers as spec;

use crate::answers::Answers;
use crate::ranges::ranges_of;
use doc_text::{Encoding, Range};
use lsp_queries::{Place, count_in};
use lsp_rpc::DocumentRanges;
use std::alloc::{AllocError, Global};

// Where each place starts and ends.
fn parts_of(alloc: Global, places: &[Place]) -> Result<Vec<(usize, usize)>, AllocError>
    ensures { IfOk result (λ parts. parts.items ≡ map (λ p. (p.start, p.end)) places.now) }
{
    let mut parts = Vec::with_capacity(alloc, places.len())?;
    for place in places {
        parts.push((place.start, place.end))?;
    }
    Ok(parts)
}

// Some places in a text, as ranges.
fn place_ranges(
    alloc: Global,
    encoding: Encoding,
    text: &str,
    places: &[Place],
) -> Result<Vec<Range>, AllocError>
    ensures { IfOk result (λ ranges. ranges.items ≡ map (spec.place_range encoding text.now) places.now) }
{
    let parts = parts_of(alloc, places)?;
    let ranges = ranges_of(alloc, encoding, text, parts.as_slice())?;
    Ok(ranges)
}

impl<'s> Answers<'s> {
    fn uri_at(&self, file: usize) -> Result<String, AllocError>
        ensures { IfOk result (λ uri. string_bytes uri ≡ spec.uri_at self.now file) }
    {
        let uri = self.uri_of(self.snapshot.path(file))?;
        Ok(uri)
    }

    // Places in a file, as ranges of its text.
    fn ranges_in(&self, file: usize, places: &[Place]) -> Result<Vec<Range>, AllocError>
        ensures { IfOk result (λ ranges. ranges.items ≡ spec.ranges_in self.now file places.now) }
    {
        let text = self.snapshot.text(file);
        place_ranges(self.alloc, self.encoding, text, places)
    }

    // Places in a file, as ranges of its document.
    fn document_of(&self, file: usize, places: &[Place]) -> Result<DocumentRanges, AllocError>
        ensures { IfOk result (λ document. document_ranges document ≡ spec.document_of self.now (file, places.now)) }
    {
        let ranges = self.ranges_in(file, places)?;
        let uri = self.uri_at(file)?;
        Ok(DocumentRanges { uri, ranges })
    }

    // Adds the document of the first places that are in one file, and says how many they are.
    fn push_document(
        &self,
        places: &[Place],
        documents: &mut Vec<DocumentRanges>,
    ) -> Result<usize, AllocError>
        requires { 0 < length places.now }
        ensures some { IfOk result (λ n. 0 < n) }
        ensures within { IfOk result (λ n. n ≤ length places.now) }
        ensures added { IfOk result (λ n. map document_ranges documents.new.items ++ spec.documents_of self.now (drop n places.now) ≡ map document_ranges documents.old.items ++ spec.documents_of self.now places.now) }
    {
        let file = places[0].file;
        let count = 1 + count_in(&places[1..], file);
        let document = self.document_of(file, &places[..count])?;
        documents.push(document)?;
        Ok(count)
    }

    // The documents of places, file by file.
    pub(crate) fn documents_of(&self, places: &[Place]) -> Result<Vec<DocumentRanges>, AllocError>
        ensures documents { IfOk result (λ documents. map document_ranges documents.items ≡ spec.documents_of self.now places.now) }
        ensures locations { IfOk result (λ documents. all_locations documents.items ≡ map (spec.location_of self.now) places.now) }
    {
        let mut documents = Vec::new(self.alloc);
        let mut done = 0;
        'places: while done < places.len() {
            done += self.push_document(&places[done..], &mut documents)?;
        }
        Ok(documents)
    }
}
