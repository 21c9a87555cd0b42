// The answers about the name at a place.
ghost use Rattle.std.specs.Prelude.{◌≡◌, ◌≢◌, map, option_map, IfOk, IfErr, Some, Ok, Err};
ghost use Rattle.serde_json.specs.Written.{compact_text};
ghost use Rattle.lsp_rpc.specs.Location.{all_locations, locations_or_null};
ghost use Rattle.lsp_rpc.specs.Message.{id_view};
ghost use Rattle.lsp_rpc.specs.Reply.{result_reply};
ghost use Rattle.lsp_rpc.specs.WorkspaceEdit.{document_ranges};
ghost use Rattle.work_index.specs.Workspace.{analysis};
ghost use Rattle.lsp_answers.specs.Answers as spec;
ghost use Rattle.lsp_answers.specs.Views.{place_view};

use crate::answers::Answers;
use crate::question::DocumentPlace;
use lsp_queries::{definition, references};
use lsp_renames::{RenameFault, rename};
use lsp_rpc::{
    DocumentRanges, ErrorCode, Id, RenameRefusal, error_reply, locations_reply, null_reply,
};
use std::alloc::{AllocError, Global};
use work_index::Analysis;

// The reply that gives places, or `null` where there is no answer.
pub fn places_reply(
    alloc: Global,
    id: &Id,
    found: Option<Vec<DocumentRanges>>,
) -> Result<Vec<u8>, AllocError>
    ensures { IfOk result (λ body. body.items ≡ compact_text (result_reply (id_view id.now) (locations_or_null (option_map (λ v. all_locations v.items) found)))) }
{
    match found {
        Some(places) => {
            let body = locations_reply(alloc, id, places.as_slice())?;
            Ok(body)
        }
        None => {
            let body = null_reply(alloc, id)?;
            Ok(body)
        }
    }
}

// Why a rename is refused, unless memory was refused.
fn refusal_of(fault: RenameFault) -> Option<RenameRefusal>
    ensures { result ≡ spec.refusal_of fault }
{
    match fault {
        RenameFault::NoSymbol => Some(RenameRefusal::NoSymbol),
        RenameFault::NotRenamable => Some(RenameRefusal::NotRenamable),
        RenameFault::BadName => Some(RenameRefusal::BadName),
        RenameFault::NameTaken => Some(RenameRefusal::NameTaken),
        RenameFault::MeaningChanges => Some(RenameRefusal::MeaningChanges),
        RenameFault::Memory => None,
    }
}

// The reply that refuses a rename.
pub fn refused_reply(alloc: Global, id: &Id, fault: RenameFault) -> Result<Vec<u8>, AllocError>
    ensures { IfOk result (λ body. Some body.items ≡ option_map compact_text (spec.refused_rename (id_view id.now) fault)) }
{
    match refusal_of(fault) {
        Some(refusal) => error_reply(alloc, Some(id), ErrorCode::RenameRefused(refusal)),
        None => Err(AllocError),
    }
}

impl<'s> Answers<'s> {
    // The analysis of the workspace.
    pub(crate) fn analysis(&self) -> &'s Analysis
        ensures { result.now ≡ analysis self.now.workspace }
    {
        self.snapshot.analysis()
    }

    // The number of the file with a path.
    fn number_of(&self, path: &str) -> Option<usize>
        ensures { result ≡ spec.number_of self.now.workspace path.now }
    {
        self.snapshot.number_of(path)
    }

    // Where the declaration is that the name at a place stands for.
    pub(crate) fn definition_at(
        &self,
        at: &DocumentPlace,
    ) -> Result<Option<Vec<DocumentRanges>>, AllocError>
        ensures { IfOk result (λ found. option_map (λ v. all_locations v.items) found ≡ spec.definition_at self.now (place_view at.now)) }
    {
        let Some(file) = self.number_of(at.path.as_str()) else {
            return Ok(None);
        };
        match definition(self.analysis(), file, at.offset) {
            Some(place) => Ok(Some(self.documents_of(&[place])?)),
            None => Ok(None),
        }
    }

    // Where it is used.
    pub(crate) fn references_at(
        &self,
        at: &DocumentPlace,
        include_declaration: bool,
    ) -> Result<Option<Vec<DocumentRanges>>, AllocError>
        ensures { IfOk result (λ found. option_map (λ v. all_locations v.items) found ≡ spec.references_at self.now (place_view at.now) include_declaration) }
    {
        let Some(file) = self.number_of(at.path.as_str()) else {
            return Ok(None);
        };
        let analysis = self.analysis();
        match references(self.alloc, analysis, file, at.offset, include_declaration)? {
            Some(places) => Ok(Some(self.documents_of(places.as_slice())?)),
            None => Ok(None),
        }
    }

    // The ranges that get another name, document by document.
    pub(crate) fn edits_at(
        &self,
        at: &DocumentPlace,
        new_name: &str,
    ) -> Result<Vec<DocumentRanges>, RenameFault>
        ensures edits { IfOk result (λ documents. spec.edits_at self.now (place_view at.now) new_name.now ≡ Ok (map document_ranges documents.items)) }
        ensures refused { IfErr result (λ fault. fault ≢ RenameFault.Memory → spec.edits_at self.now (place_view at.now) new_name.now ≡ Err fault) }
    {
        let Some(file) = self.number_of(at.path.as_str()) else {
            return Err(RenameFault::NoSymbol);
        };
        let analysis = self.analysis();
        let edits = rename(self.alloc, analysis, file, at.offset, new_name)?;
        let documents = self.documents_of(edits.places.as_slice())?;
        Ok(documents)
    }
}
