// Whether a workspace keeps its meaning, file by file: what is known of a file is dropped as soon as it is compared.
ghost use Rattle.std.specs.Prelude.{◌≡◌, ◌≢◌, ◌<◌, ◌↔◌, None, false, length, map, option_map, unwrap_or, string_bytes, IfOk, IfSome, IsSome, IsSomeAnd, IsTrue, OnOk};
ghost use Rattle.proto_decls.specs.Facts.{facts_by, facts_of};
ghost use Rattle.proto_names.specs.Files.{facts_at};
ghost use Rattle.proto_resolve.specs.Resolved.{resolved};
ghost use Rattle.proto_tree.specs.declared.node.FileTree.{FileTree};
ghost use Rattle.proto_tree.specs.Read.{value_tree};
ghost use Rattle.work_index.specs.Workspace.{Workspace, all_facts, analysis, merged, source_facts};
ghost use Rattle.work_meaning.specs.Bindings.{Means, SameMeaning};
ghost use Rattle.work_changes.specs.Changes.{AreLinked, HasPlaces, IsLinked, waits};
ghost use Rattle.work_meaning.specs.Edited.{with_text};
ghost use Rattle.work_meaning.specs.Quiet.{HasOthers, IsQuiet, KeepsWith, SaysSomethingElse, is_own, other_text};

use crate::comparing::means;
use import_graph::FileNo;
use piece_collector::Work;
use proto_decls::{FileFacts, SharedFacts};
use proto_resolve::{Index, Table, resolve_file, same_exports, same_imports, seen_law};
use proto_tree::FileTree;
use std::alloc::{AllocError, Global};
use work_changes::{Relinking, relinked};
use work_index::{Analysis, FileWork, SourceFile, diagnostics_of, tree_of};

// Other texts by file, and whose are taken first: that of one file, if it is given, else those of all.
#[derive(Clone, Copy)]
pub struct OtherTexts<'t> {
    pub texts: &'t [Option<String>],
    pub own: Option<FileNo>,
}

// Whether the other text of a file is taken first.
pub fn is_own(own: Option<FileNo>, file: FileNo) -> bool
    ensures { result ≡ is_own own file }
{
    match own {
        None => true,
        Some(own) => file == own,
    }
}

// The other text of a file, if it has one that isn't taken first.
fn other_text<'t>(others: &OtherTexts<'t>, file: FileNo) -> Option<&'t str>
    requires { file < length others.now.texts.now }
    ensures { option_map (λ t. t.now) result ≡ other_text others.now.own (map (option_map string_bytes) others.now.texts.now) file }
{
    if is_own(others.own, file) {
        return None;
    }
    match &others.texts[file] {
        Some(text) => Some(text.as_str()),
        None => None,
    }
}

// Whether facts say to other files and of imports what others say.
fn is_quiet(before: &FileFacts, after: &FileFacts) -> bool
    ensures { IsTrue result ↔ IsQuiet before.now after.now }
{
    same_exports(after, before) && same_imports(after, before)
}

// A text that was read.
#[derive(Drop)]
struct ReadText {
    tree: FileTree,
    // What it says by itself.
    facts: SharedFacts,
}

// Reads a text; `reads_others` says whether one that isn't proto3 is read for what it declares.
fn read_text(alloc: Global, text: &str, reads_others: bool) -> Result<ReadText, AllocError>
    ensures tree { IfOk result (λ read. read.tree ≡ value_tree text.now) }
    ensures facts { IfOk result (λ read. read.facts ≡ facts_by reads_others text.now) }
{
    let out = FileWork::linking_once(alloc).work(text)?;
    let facts = out.known(reads_others).facts.another()?;
    let tree = out.into_tree();
    Ok(ReadText { tree, facts })
}

// Whether a file, with another text, means what it meant in the earlier analysis; `None` if the text says something else than the one before
// to other files or of imports. The text is read as the one before, and what is known of it is dropped again.
fn keeps_with(
    alloc: Global,
    earlier: &Analysis,
    table: &mut Table,
    file: usize,
    source: &SourceFile,
    text: &str,
) -> Result<Option<bool>, AllocError>
    requires file { file < length table.old }
    requires earlier { file < length earlier.now.paths }
    requires source { source_facts source.now.1 ≡ facts_at table.old file }
    ensures table { OnOk result (table.new ≡ table.old) }
    ensures quiet { IfOk result (λ found. found ≢ None → IsQuiet (facts_at table.old file) (source_facts (with_text source.now.1 text.now))) }
    ensures other { IfOk result (λ found. found ≡ None → ¬ (IsQuiet (facts_at table.old file) (source_facts (with_text source.now.1 text.now)))) }
    ensures keeps { IfOk result (λ found. IfSome found (λ keeps. IsTrue keeps ↔ KeepsWith table.old file (with_text source.now.1 text.now) earlier.now)) }
{
    let ReadText { tree, facts } = read_text(alloc, text, source.reads_others())?;
    if !is_quiet(source.facts().get(), facts.get()) {
        return Ok(None);
    }
    table.set_facts(file, facts.another()?);
    let links = resolve_file(alloc, &*table, file, text, &tree)?;
    let diagnostics = diagnostics_of(alloc, facts.get(), &links)?;
    table.set_facts(file, source.facts().another()?);
    Ok(Some(means(earlier, file, &links, diagnostics.as_slice())))
}

// Whether a file without another text means what it meant in the earlier analysis. It is linked again if it waits, with a tree that is made
// again.
fn keeps_meaning(
    alloc: Global,
    earlier: &Analysis,
    table: &Table,
    file: usize,
    source: &SourceFile,
    now: &Relinking,
) -> Result<bool, AllocError>
    requires file { file < length table.now }
    requires earlier { file < length earlier.now.paths }
    requires places { HasPlaces (length table.now) now.now }
    requires linked { waits now.now file ≡ false → IsLinked table.now file source.now.1 now.now.resolutions }
    ensures { IfOk result (λ keeps. IsTrue keeps ↔ Means earlier.now file (resolved table.now file source.now.1.text (value_tree source.now.1.text)) (merged (facts_of source.now.1.text) (resolved table.now file source.now.1.text (value_tree source.now.1.text)))) }
{
    if now.waiting[file] {
        let tree = tree_of(alloc, source.text())?;
        let found = relinked(alloc, table, file, source, &tree)?;
        return Ok(means(earlier, file, &found.links, found.diagnostics.as_slice()));
    }
    let links = now.resolutions.links[file].get();
    let diagnostics = now.resolutions.diagnostics[file].as_slice();
    Ok(means(earlier, file, links, diagnostics))
}

// Whether a file means what it meant in the earlier analysis, with another text if one is given; `None` if that text says something else than the
// one before to other files or of imports.
fn keeps(
    alloc: Global,
    earlier: &Analysis,
    table: &mut Table,
    file: usize,
    source: &SourceFile,
    now: &Relinking,
    other: Option<&str>,
) -> Result<Option<bool>, AllocError>
    requires file { file < length table.old }
    requires earlier { file < length earlier.now.paths }
    requires source { source_facts source.now.1 ≡ facts_at table.old file }
    requires places { HasPlaces (length table.old) now.now }
    requires linked { waits now.now file ≡ false → IsLinked table.old file source.now.1 now.now.resolutions }
    ensures table { OnOk result (table.new ≡ table.old) }
    ensures quiet { IfOk result (λ found. found ≢ None → IsQuiet (facts_at table.old file) (source_facts (with_text source.now.1 (unwrap_or (option_map (λ t. t.now) other.entry) source.now.1.text)))) }
    ensures other { IfOk result (λ found. found ≡ None → IsSomeAnd (option_map (λ t. t.now) other.entry) (λ text. ¬ (IsQuiet (facts_at table.old file) (source_facts (with_text source.now.1 text))))) }
    ensures keeps { IfOk result (λ found. IfSome found (λ keeps. IsTrue keeps ↔ KeepsWith table.old file (with_text source.now.1 (unwrap_or (option_map (λ t. t.now) other.entry) source.now.1.text)) earlier.now)) }
    ensures some { option_map (λ t. t.now) other.entry ≡ None → IfOk result IsSome }
{
    match other {
        Some(text) => keeps_with(alloc, earlier, table, file, source, text),
        None => {
            let keeps = keeps_meaning(alloc, earlier, &*table, file, source, now)?;
            Ok(Some(keeps))
        }
    }
}

// Whether all files mean what they meant in the earlier analysis, with the other texts that weren't taken first. `None` if one of these says something
// else than the one before to other files or of imports. Files that wait are linked again.
pub fn keep_meaning(
    alloc: Global,
    earlier: &Analysis,
    table: Table,
    files: &[SourceFile],
    now: &Relinking,
    others: &OtherTexts<'_>,
) -> Result<Option<bool>, AllocError>
    requires table { table ≡ all_facts files.now }
    requires linked { AreLinked table files.now now.now }
    requires as_many { length earlier.now.paths ≡ length files.now }
    requires texts { length others.now.texts.now ≡ length files.now }
    ensures keep { (w : Workspace) → HasOthers others.now.own (map (option_map string_bytes) others.now.texts.now) files.now w → IfOk result (λ found. IfSome found (λ keep. IsTrue keep ↔ SameMeaning earlier.now (analysis w))) }
    ensures some { others.now.own ≡ None → IfOk result IsSome }
    ensures other { IfOk result (λ found. found ≡ None → SaysSomethingElse others.now.own (map (option_map string_bytes) others.now.texts.now) files.now) }
{
    seen_law();
    earlier.known();
    let mut table = table;
    let mut keep = true;
    for (file, source) in files.iter().enumerate() {
        let other = other_text(others, file);
        match keeps(alloc, earlier, &mut table, file, source, now, other)? {
            Some(keeps) => keep = keep && keeps,
            None => return Ok(None),
        }
    }
    Ok(Some(keep))
}
