// The texts that a rename makes.
ghost use Rattle.std.specs.Prelude.{◌≡◌, ◌≤◌, ◌<◌, ◌++◌, drop, length, map, string_bytes, IfOk};
ghost use Rattle.work_index.specs.Workspace.{texts_of};
ghost use Rattle.work_meaning.specs.Edited.{edit_view};
ghost use Rattle.lsp_renames.specs.Cutting.{AreCutOut, CanBeCut, edits_of};
ghost use Rattle.lsp_renames.specs.Edited as spec;

use lsp_queries::{Place, count_in};
use std::alloc::{AllocError, Global};
use work_index::Analysis;
use work_meaning::EditedText;

// A text with a name at each of some places, which can be cut out of it in turn.
fn respelled(alloc: Global, text: &str, places: &[Place], name: &str) -> Result<String, AllocError>
    requires { CanBeCut text.now 0 places.now }
    ensures { IfOk result (λ edited. string_bytes edited ≡ spec.respelled name.now text.now places.now) }
{
    let names = places.len().saturating_mul(name.len());
    let mut edited = String::with_capacity(alloc, text.len().saturating_add(names))?;
    let mut offset = 0;
    for place in places {
        edited.push_str(&text[offset..place.start])?;
        edited.push_str(name)?;
        offset = place.end;
    }
    edited.push_str(&text[offset..])?;
    Ok(edited)
}

// Adds the text of the file of the first places, with the name at those that are in it, and says how many they are.
fn push_edit(
    alloc: Global,
    analysis: &Analysis,
    places: &[Place],
    name: &str,
    edits: &mut Vec<EditedText>,
) -> Result<usize, AllocError>
    requires some { 0 < length places.now }
    requires cut { AreCutOut analysis.now places.now }
    ensures some { IfOk result (λ n. 0 < n) }
    ensures within { IfOk result (λ n. n ≤ length places.now) }
    ensures added { IfOk result (λ n. map edit_view edits.new.items ++ edits_of name.now (texts_of analysis.now.sources) (drop n places.now) ≡ map edit_view edits.old.items ++ edits_of name.now (texts_of analysis.now.sources) places.now) }
{
    let file = places[0].file;
    let count = 1 + count_in(&places[1..], file);
    let text = respelled(alloc, analysis.text(file), &places[..count], name)?;
    edits.push(EditedText { file, text })?;
    Ok(count)
}

// For each file in which there are places its text with the name at these. The places are in order, and each can be cut out of its
// text. An `Err` comes only where memory was refused.
pub fn edited_texts(
    alloc: Global,
    analysis: &Analysis,
    places: &[Place],
    name: &str,
) -> Result<Vec<EditedText>, AllocError>
    requires { AreCutOut analysis.now places.now }
    ensures { IfOk result (λ edits. map edit_view edits.items ≡ edits_of name.now (texts_of analysis.now.sources) places.now) }
{
    let mut edits = Vec::new(alloc);
    let mut done = 0;
    'places: while done < places.len() {
        done += push_edit(alloc, analysis, &places[done..], name, &mut edits)?;
    }
    Ok(edits)
}
