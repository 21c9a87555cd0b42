// What is wrong in a file, as a command line shows it.
ghost use Rattle.std.specs.Prelude.{◌≡◌, ◌++◌, OnOk};
ghost use Rattle.check_lines.specs.Lines.{start_of, end_of, line_as, written};

use crate::format::Format;
use crate::github_line::push_github_line;
use crate::gnu_line::push_gnu_line;
use crate::json_line::{Finding, push_json_line};
use crate::plain_line::push_plain_line;
use crate::sarif_line::push_sarif_item;
use doc_text::{Encoding, Position, Walk};
use proto_decls::Diag;
use std::alloc::{AllocError, Global};
use std::marker::Model;

/// A file whose lines are made: how, its folder as it is shown, its path below it, and its text. Contracts see these four.
#[derive(Drop)]
pub struct ListedFile<'a> {
    alloc: Global,
    format: Format,
    folder: &'a str,
    path: &'a str,
    // Walks along the text to where diagnostics begin and to where they end. As long as each begins behind the end of the one before it, the first
    // walk serves for both, so that the text is read once.
    starts: Walk<'a>,
    ends: Walk<'a>,
    // How far the first walk went to an end, and whether a diagnostic began before that.
    reached: usize,
    overlaps: bool,
}

impl<'a> Model for ListedFile<'a> {
    ghost use Rattle.std.specs.Prelude.{◌≡◌};
    ghost use Rattle.doc_text.specs.declared.encoding.Encoding.TheVariants.{Utf16};
    ghost use Rattle.check_lines.specs.Lines.{ListedFileData};

    ghost Value = { ListedFileData };

    ghost view = { λ f. record { format = f.format; folder = f.folder.now; path = f.path.now; text = f.starts.text } };

    ghost invariant = { λ f. (f.starts.encoding ≡ Utf16) × (f.ends ≡ f.starts) };
}

impl<'a> ListedFile<'a> {
    /// A file of a folder, with this path below it and this text.
    pub fn new(
        alloc: Global,
        format: Format,
        folder: &'a str,
        path: &'a str,
        text: &'a str,
    ) -> ListedFile<'a>
        ensures { result ≡ record { format = format; folder = folder.now; path = path.now; text = text.now } }
    {
        ListedFile {
            alloc,
            format,
            folder,
            path,
            starts: Walk::new(text, Encoding::Utf16),
            ends: Walk::new(text, Encoding::Utf16),
            reached: 0,
            overlaps: false,
        }
    }

    // Where a diagnostic begins.
    fn start_of(&mut self, diag: &Diag) -> Position
        ensures position { result ≡ start_of self.old diag.now }
        ensures same { self.new ≡ self.old }
    {
        self.overlaps = self.overlaps || diag.start < self.reached;
        self.starts.position_of(diag.start)
    }

    // The first place behind it.
    fn end_of(&mut self, diag: &Diag) -> Position
        ensures position { result ≡ end_of self.old diag.now }
        ensures same { self.new ≡ self.old }
    {
        if self.overlaps {
            return self.ends.position_of(diag.end);
        }
        self.reached = diag.end;
        self.starts.position_of(diag.end)
    }

    // A diagnostic that begins at a position, with all that is written of it.
    fn finding(&mut self, start: Position, diag: &Diag) -> Finding<'a>
        requires { start ≡ start_of self.old diag.now }
        ensures file { (result.folder.now ≡ self.old.folder) × (result.path.now ≡ self.old.path) }
        ensures places { (result.start ≡ start) × (result.end ≡ end_of self.old diag.now) }
        ensures diag { result.diag ≡ diag.now }
        ensures same { self.new ≡ self.old }
    {
        Finding {
            folder: self.folder,
            path: self.path,
            start,
            end: self.end_of(diag),
            diag: *diag,
        }
    }

    // Adds the JSON line of a diagnostic that begins at a position.
    fn push_object(
        &mut self,
        out: &mut Vec<u8>,
        start: Position,
        diag: &Diag,
    ) -> Result<(), AllocError>
        requires { start ≡ start_of self.old diag.now }
        ensures line { OnOk result (out.new.items ≡ out.old.items ++ line_as Format.Json self.old diag.now) }
        ensures same { self.new ≡ self.old }
    {
        let finding = self.finding(start, diag);
        push_json_line(self.alloc, out, &finding)
    }

    // Adds it as a result of SARIF.
    fn push_result(
        &mut self,
        out: &mut Vec<u8>,
        start: Position,
        diag: &Diag,
    ) -> Result<(), AllocError>
        requires { start ≡ start_of self.old diag.now }
        ensures line { OnOk result (out.new.items ≡ out.old.items ++ line_as Format.Sarif self.old diag.now) }
        ensures same { self.new ≡ self.old }
    {
        let finding = self.finding(start, diag);
        push_sarif_item(self.alloc, out, &finding)
    }

    // Adds the line of a diagnostic.
    fn push_line(&mut self, out: &mut Vec<u8>, diag: &Diag) -> Result<(), AllocError>
        ensures line { OnOk result (out.new.items ≡ out.old.items ++ line_as self.old.format self.old diag.now) }
        ensures same { self.new ≡ self.old }
    {
        let start = self.start_of(diag);
        match self.format {
            Format::Plain => push_plain_line(out, self.path, start, diag.message),
            Format::Gnu => push_gnu_line(out, self.folder, self.path, start, diag.message),
            Format::Github => {
                push_github_line(
                    self.alloc,
                    out,
                    self.folder,
                    self.path,
                    (start, diag.message),
                )
            }
            Format::Json => self.push_object(out, start, diag),
            Format::Sarif => self.push_result(out, start, diag),
        }
    }

    /// Adds a line for each of some diagnostics.
    pub fn push_lines(&mut self, out: &mut Vec<u8>, diags: &[Diag]) -> Result<(), AllocError>
        ensures lines { OnOk result (out.new.items ≡ out.old.items ++ written self.old diags.now) }
        ensures same { self.new ≡ self.old }
    {
        for diag in diags {
            self.push_line(out, diag)?;
        }
        Ok(())
    }
}
