// The files of a workspace, the board of their texts, and the analysis of them.
ghost use Rattle.std.specs.Prelude.{◌≡◌, ℕ, length, List, [], ◌∷◌, true, false, IfOk, IfSome, OnOk, OnErr, IsSome, IsTrue, Option, Some, Err, option_map, map, string_bytes, ◌↔◌, bytes_eq};
ghost use Rattle.std.specs.Map.{update};
ghost use Rattle.doc_text.specs.Edits.{change_view};
ghost use Rattle.piece_collector.specs.Board.{IsAfter, IsFirstWanted, IsComplete, IsFull, current_text, WhateverCame, Records};
ghost use Rattle.piece_collector.specs.Events.{NextJob, Offer, Fail};
ghost use Rattle.piece_collector.specs.History.{verdict_on, failure_on, stands_at};
ghost use Rattle.piece_collector.specs.Views.{known_text};
ghost use Rattle.work_files.specs.Disk.{disk_view};
ghost use Rattle.work_files.specs.Files.{from_disk, opened_files, changed_files, saved_files, closed_files, text_at, workspace};
ghost use Rattle.work_files.specs.Texts.{is_open};
ghost use Rattle.work_index.specs.Workspace.{sources_of};
ghost use Rattle.work_space.specs.BoardTexts.{HoldsTexts, StampsRunOut, text_event, event_at, events_at, first_events};
ghost use Rattle.work_files.specs.View.{document_view, file_view};

use crate::diagnosed::DiagnosedFiles;
use crate::last_analysis::{LastAnalysis, analyse, known_after};
use collector_laws::texts_of_events;
use piece_collector::{Board, BoardFault, Job, Piece, SharedText, Verdict};
use std::alloc::{AllocError, Global};
use std::marker::Model;
use std::sync::Wait;
use std::thread::Threads;
use work_files::{DiskFile, Document, FileEntry, Files, VersionedChanges};
use work_index::{FileWork, Gate, Snapshot};
use work_shares::{AnalyseFault, AnalysisSettings, analyse_in_shares, diagnose};

/// The files that an editor's session knows, the board of their texts with the work on them, and the analysis of them.
///
/// Each change of a text is told to the board, which then wants work on it. Once the board is complete the files can be
/// analysed. Contracts see a workspace as its files, its board, whether texts that aren't proto3 are read for what they declare, and whether
/// an analysis of the files as they are is known.
pub struct Workspace {
    alloc: Global,
    files: Files,
    board: Board<FileWork>,
    reads_others: bool,
    known: Option<LastAnalysis>,
}

// (Written out: a derived one would be proved again, with those of all parts, in each crate that drops such a value.)
impl Drop for Workspace {
    fn drop(self) {
        let Workspace {
            alloc: _,
            files: _,
            board: _,
            reads_others: _,
            known: _,
        } = self;
    }
}

impl Model for Workspace {
    ghost use Rattle.work_space.specs.Kept as kept;
    ghost use Rattle.work_space.specs.View as seen;

    ghost Value = { seen.WorkspaceData };

    ghost view = { λ w. kept.workspace_data w.files w.board w.reads_others w.known };

    ghost invariant = { λ w. kept.IsKept w.files w.board w.reads_others w.known };
}

// Sets the text of a file on a board, if the file has one.
fn set_first(
    alloc: Global,
    board: &mut Board<FileWork>,
    path: &str,
    file: &FileEntry,
) -> Result<(), BoardFault>
    requires { board.old.is_lent ≡ false }
    ensures is_after { OnOk result (Records board.old board.new (first_events (workspace ((path.now, file_view file.now) ∷ [])))) }
    ensures here { board.new.is_lent ≡ false }
    ensures exhausted { result ≡ Err BoardFault.Exhausted → StampsRunOut board.old.last (length (workspace ((path.now, file_view file.now) ∷ []))) }
{
    let Some(text) = file.shared_text()? else {
        return Ok(());
    };
    board.set_shared_text(String::from_str(alloc, path)?, text)?;
    Ok(())
}

// A board of the texts of the files, whose first stamp is the one after `stamp`.
fn board_of(alloc: Global, files: &Files, stamp: u64) -> Result<Board<FileWork>, BoardFault>
    ensures is_after { IfOk result (λ board. IsAfter stamp board (first_events (workspace files.now))) }
    ensures texts { IfOk result (λ board. HoldsTexts files.now board) }
    ensures here { IfOk result (λ board. board.is_lent ≡ false) }
    ensures exhausted { result ≡ Err BoardFault.Exhausted → StampsRunOut stamp (length (workspace files.now)) }
{
    texts_of_events();
    let mut board = Board::counting_from(alloc, FileWork::new(alloc), stamp);
    for (path, file) in files.by_path().iter() {
        set_first(alloc, &mut board, path.as_str(), file)?;
    }
    Ok(board)
}

// Gives a board another text of a path, or lets it forget the path.
fn tell(
    alloc: Global,
    board: &mut Board<FileWork>,
    path: &str,
    text: Option<SharedText>,
) -> Result<(), BoardFault>
    requires { board.old.is_lent ≡ false }
    ensures is_after { OnOk result (Records board.old board.new (text_event path.now text ∷ [])) }
    ensures texts { OnOk result ((q : List ℕ) → known_text q board.new ≡ update bytes_eq (λ p. known_text p board.old) path.now text q) }
    ensures here { board.new.is_lent ≡ false }
    ensures exhausted { result ≡ Err BoardFault.Exhausted → board.new.last ≡ 18446744073709551615 }
    ensures needed { result ≡ Err BoardFault.Exhausted → IsSome text }
    ensures err { OnErr result (board.new ≡ board.old) }
{
    match text {
        Some(text) => {
            board.set_shared_text(String::from_str(alloc, path)?, text)?;
        }
        None => {
            board.remove(path);
        }
    }
    Ok(())
}

impl Workspace {
    /// The workspace of the files on disk. Of two files with one path the earlier counts. The texts get stamps from the one after
    /// `stamp` on, in the order of their paths. `reads_others` chooses, once and for all, whether texts that aren't proto3 are read for what they
    /// declare.
    ///
    /// Refused with 502 where there are fewer stamps than texts, and with 501 where memory was refused.
    pub fn from_disk(
        alloc: Global,
        disk_files: Vec<DiskFile>,
        stamp: u64,
        reads_others: bool,
    ) -> Result<Workspace, BoardFault>
        ensures files { IfOk result (λ w. w.files ≡ from_disk (map disk_view disk_files.items)) }
        ensures board { IfOk result (λ w. IsAfter stamp w.board (first_events (workspace w.files))) }
        ensures others { IfOk result (λ w. w.reads_others ≡ reads_others) }
        ensures exhausted { result ≡ Err BoardFault.Exhausted → StampsRunOut stamp (length (workspace (from_disk (map disk_view disk_files.items)))) }
    {
        let files = Files::from_disk(alloc, disk_files)?;
        let board = board_of(alloc, &files, stamp)?;
        Ok(Workspace {
            alloc,
            files,
            board,
            reads_others,
            known: None,
        })
    }

    /// The files by their paths. Takes no memory.
    pub fn files(&self) -> &Files
        ensures { result.now ≡ self.now.files }
    {
        &self.files
    }

    // ---- documents

    /// Opens a document at a path, in the place of one that is open, and notes the URI that the editor gave it. The kept text
    /// stays. Refused with 502 where no stamp is left, and with 501 where memory was refused; the texts are as before then.
    pub fn open(&mut self, path: &str, uri: String, document: Document) -> Result<(), BoardFault>
        ensures files { OnOk result (self.new.files ≡ opened_files (string_bytes uri) (document_view document) path.now self.old.files) }
        ensures board { OnOk result (Records self.old.board self.new.board (event_at path.now self.new.files ∷ [])) }
        ensures others { self.new.reads_others ≡ self.old.reads_others }

        // No stamp is left only where the last one was given.
        ensures exhausted { result ≡ Err BoardFault.Exhausted → (let board = self.new.board in board.last) ≡ 18446744073709551615 }
        ensures err { OnErr result ((self.new.board ≡ self.old.board) × ((q : List ℕ) → text_at q self.new.files ≡ text_at q self.old.files)) }
    {
        let own = String::from_str(self.alloc, path)?;
        let text = document.text.another()?;
        self.files.make_room(self.alloc, path)?;
        tell(self.alloc, &mut self.board, path, Some(text))?;
        self.files.open(path, uri, document);
        self.known = known_after(self.known.take(), own);
        Ok(())
    }

    /// Makes these edits in the document that is open at a path, and gives it their version. Where none is open, nothing changes.
    /// Refused as [`open`](Workspace::open) is.
    pub fn change(&mut self, path: &str, edits: VersionedChanges) -> Result<(), BoardFault>
        ensures files { OnOk result (self.new.files ≡ changed_files edits.version edits.encoding (map change_view edits.changes.items) path.now self.old.files) }
        ensures board { OnOk result (Records self.old.board self.new.board (events_at path.now self.old.files self.new.files)) }
        ensures others { self.new.reads_others ≡ self.old.reads_others }

        // No stamp is left only where the last one was given, and a document is open, whose text needs one.
        ensures exhausted { result ≡ Err BoardFault.Exhausted → (let board = self.new.board in board.last) ≡ 18446744073709551615 }
        ensures needed { result ≡ Err BoardFault.Exhausted → is_open path.now self.old.files ≡ true }
        ensures err { OnErr result (self.new ≡ self.old) }
    {
        let Some(document) = self.files.edited(self.alloc, path, edits)? else {
            return Ok(());
        };
        let own = String::from_str(self.alloc, path)?;
        let text = document.text.another()?;
        tell(self.alloc, &mut self.board, path, Some(text))?;
        self.files.set_document(path, document);
        self.known = known_after(self.known.take(), own);
        Ok(())
    }

    /// Keeps the text of the document that is open at a path. Where none is open, nothing changes. An `Err` comes only where
    /// memory was refused; nothing changes then.
    pub fn save(&mut self, path: &str) -> Result<(), AllocError>
        ensures files { OnOk result (self.new.files ≡ saved_files path.now self.old.files) }
        ensures board { self.new.board ≡ self.old.board }
        ensures others { self.new.reads_others ≡ self.old.reads_others }
        ensures err { OnErr result (self.new ≡ self.old) }
    {
        let Some(text) = self.files.shared_open_text(path)? else {
            return Ok(());
        };
        self.files.keep(path, text);
        Ok(())
    }

    /// Closes the document that is open at a path. A file with no kept text leaves. Where none is open, nothing changes. Refused
    /// as [`open`](Workspace::open) is.
    pub fn close(&mut self, path: &str) -> Result<(), BoardFault>
        ensures files { OnOk result (self.new.files ≡ closed_files path.now self.old.files) }
        ensures board { OnOk result (Records self.old.board self.new.board (events_at path.now self.old.files self.new.files)) }
        ensures others { self.new.reads_others ≡ self.old.reads_others }

        // No stamp is left only where the last one was given, a document is open, and its path has a text after the close, which
        // needs one.
        ensures exhausted { result ≡ Err BoardFault.Exhausted → (let board = self.new.board in board.last) ≡ 18446744073709551615 }
        ensures needed { result ≡ Err BoardFault.Exhausted → (is_open path.now self.old.files ≡ true) × IsSome (text_at path.now (closed_files path.now self.old.files)) }
        ensures err { OnErr result (self.new ≡ self.old) }
    {
        if !self.files.is_open(path) {
            return Ok(());
        }
        let own = String::from_str(self.alloc, path)?;
        let kept = self.files.shared_kept(path)?;
        tell(self.alloc, &mut self.board, path, kept)?;
        self.files.close(path);
        self.known = known_after(self.known.take(), own);
        Ok(())
    }

    // ---- work

    /// Gives a job for the first path whose text is wanted, in path order; none only where none is wanted. Where memory is refused
    /// nothing changes.
    pub fn next_job(&mut self) -> Result<Option<Job>, AllocError>
        ensures files { self.new.files ≡ self.old.files }
        ensures board { OnOk result (Records self.old.board self.new.board (NextJob ∷ [])) }
        ensures others { self.new.reads_others ≡ self.old.reads_others }
        ensures first { IfOk result (λ job. WhateverCame self.old.board (λ opening events. IsFirstWanted opening events (option_map (λ j. j.path) job))) }

        // The job has the path's current stamp and text.
        ensures text { IfOk result (λ job. WhateverCame self.old.board (λ opening events. IfSome job (λ j. option_map (current_text j.path) (stands_at opening events j.path) ≡ Some j))) }
        ensures err { OnErr result (self.new ≡ self.old) }
    {
        self.board.next_job()
    }

    /// Brings the work on a text, whether or not its job was given. The verdict says whether it was taken.
    pub fn offer(&mut self, piece: Piece<FileWork>) -> Verdict
        ensures files { self.new.files ≡ self.old.files }
        ensures board { Records self.old.board self.new.board (Offer piece.path piece.stamp piece.text ∷ []) }
        ensures others { self.new.reads_others ≡ self.old.reads_others }
        ensures verdict { WhateverCame self.old.board (λ opening events. result ≡ verdict_on piece.stamp piece.text (stands_at opening events piece.path)) }
    {
        self.board.offer(piece)
    }

    /// Brings the failure of a job, whether or not the job was given. The verdict says whether it was taken.
    pub fn fail(&mut self, path: &str, stamp: u64) -> Verdict
        ensures files { self.new.files ≡ self.old.files }
        ensures board { Records self.old.board self.new.board (Fail path.now stamp ∷ []) }
        ensures others { self.new.reads_others ≡ self.old.reads_others }
        ensures verdict { WhateverCame self.old.board (λ opening events. result ≡ failure_on stamp (stands_at opening events path.now)) }
    {
        self.board.fail(path, stamp)
    }

    /// Whether the work on each text is there.
    pub fn is_complete(&self) -> bool
        ensures full { IsTrue result ↔ IsFull self.now.board }
        ensures complete { WhateverCame self.now.board (λ opening events. IsTrue result ↔ IsComplete opening events) }
    {
        self.board.is_complete()
    }

    /// The last stamp that was given; before the first one, the stamp that the board counts from.
    pub fn last_stamp(&self) -> u64
        ensures { result ≡ (let board = self.now.board in board.last) }
    {
        self.board.last_stamp()
    }

    // ---- the analysis

    /// Whether the analysis that is known is that of the files as they are. Takes no memory.
    pub fn is_current(&self) -> bool
        ensures { result ≡ self.now.is_current }
    {
        match &self.known {
            Some(known) => known.is_current(),
            None => false,
        }
    }

    /// Analyses the files, unless their analysis is known. The board has to be complete. An `Err` comes only where memory was
    /// refused.
    pub fn refresh(&mut self) -> Result<(), AllocError>
        requires { IsFull self.old.board }
        ensures files { self.new.files ≡ self.old.files }
        ensures board { self.new.board ≡ self.old.board }
        ensures others { self.new.reads_others ≡ self.old.reads_others }
        ensures current { OnOk result (IsTrue self.new.is_current) }
    {
        if self.is_current() {
            return Ok(());
        }
        let known = self.known.take();
        let analysis = analyse(self.alloc, known, &mut self.board, self.reads_others)?;
        self.known = Some(LastAnalysis::current(self.alloc, analysis));
        Ok(())
    }

    /// Analyses the files, unless their analysis is known: as [`refresh`](Workspace::refresh) does, but a whole analysis is made
    /// by so many threads (see [`analyse_in_shares`]), each of which enters the gate before each of its files. If at
    /// most 64 files came, left or got other texts since the last analysis, no thread is started and no gate is entered.
    /// The board has to be complete.
    ///
    /// `Memory` if memory was refused, and `ThreadRefused` if a thread was. The files and the board are then as before, or the
    /// pieces are lost: then there is no file, and the stamps count from 1 again.
    pub fn refresh_in_shares<R: Threads + Wait, G: Gate>(
        &mut self,
        rt: &R,
        workers: usize,
        gate: &G,
    ) -> Result<(), AnalyseFault>
        requires { IsFull self.old.board }
        ensures files { OnOk result (self.new.files ≡ self.old.files) }
        ensures board { OnOk result (self.new.board ≡ self.old.board) }
        ensures others { self.new.reads_others ≡ self.old.reads_others }
        ensures current { OnOk result (IsTrue self.new.is_current) }
    {
        if self.known.is_none() {
            return self.analyse_lent(rt, workers, gate);
        }
        self.refresh()?;
        Ok(())
    }

    // Lends all pieces to threads that analyse them, and keeps the analysis. Where that fails the pieces are gone, and so are the
    // files.
    fn analyse_lent<R: Threads + Wait, G: Gate>(
        &mut self,
        rt: &R,
        workers: usize,
        gate: &G,
    ) -> Result<(), AnalyseFault>
        requires { IsFull self.old.board }
        ensures files { OnOk result (self.new.files ≡ self.old.files) }
        ensures board { OnOk result (self.new.board ≡ self.old.board) }
        ensures others { self.new.reads_others ≡ self.old.reads_others }
        ensures current { OnOk result (IsTrue self.new.is_current) }
    {
        let settings = AnalysisSettings {
            workers,
            reads_others: self.reads_others,
        };
        let lent = self.board.lend_all()?;
        match analyse_in_shares(rt, self.alloc, lent, settings, gate) {
            Ok((back, analysis)) => {
                self.board.take_back(back);
                self.known = Some(LastAnalysis::current(self.alloc, analysis));
                Ok(())
            }
            Err(fault) => {
                self.files = Files::new(self.alloc);
                self.board = Board::counting_from(self.alloc, FileWork::new(self.alloc), 0);
                self.known = None;
                Err(fault)
            }
        }
    }

    /// Has so many threads find what is wrong in the files. Each enters the gate before each of its files. What names mean isn't kept.
    /// The board has to be complete.
    ///
    /// `Memory` if memory was refused, and `ThreadRefused` if a thread was.
    pub fn into_diagnosed<R: Threads + Wait, G: Gate>(
        self,
        rt: &R,
        workers: usize,
        gate: &G,
    ) -> Result<DiagnosedFiles, AnalyseFault>
        requires { IsFull self.board }
        ensures { IfOk result (λ found. found ≡ sources_of self.reads_others (workspace self.files)) }
    {
        let Workspace {
            alloc,
            files: _,
            mut board,
            reads_others,
            known: _,
        } = self;
        let settings = AnalysisSettings {
            workers,
            reads_others,
        };
        let lent = board.lend_all()?;
        let diagnosis = diagnose(rt, alloc, lent, settings, gate)?;
        Ok(DiagnosedFiles::of(diagnosis))
    }

    /// The files with their analysis. Takes no memory.
    pub fn snapshot(&self) -> Snapshot<'_>
        requires { IsTrue self.now.is_current }
        ensures { result ≡ sources_of self.now.reads_others (workspace self.now.files) }
    {
        match &self.known {
            Some(known) => Snapshot::of(&known.analysis),
            None => unreachable!(),
        }
    }
}
