// Lines that wait to be written.
ghost use Rattle.std.specs.Prelude.{◌≡◌, [], ◌++◌, OnOk};
ghost use Rattle.check_lines.specs.Lines.{is_array, cut, written};
ghost use Rattle.work_check.specs.Steps.{still_first};

use check_lines::{Format, ListedFile};
use proto_decls::Diag;
use std::alloc::{AllocError, Global};

// Lines that wait to be written, and whether the first of an array is still to come, which does without its comma.
#[derive(Drop)]
pub struct Room {
    alloc: Global,
    pub bytes: Vec<u8>,
    pub first: bool,
}

impl Room {
    // No line of this format came yet.
    pub fn new(alloc: Global, format: Format) -> Room
        ensures bytes { result.bytes.items ≡ [] }
        ensures first { result.first ≡ is_array format }
    {
        Room {
            alloc,
            bytes: Vec::new(alloc),
            first: format.is_array(),
        }
    }

    // Adds the lines of some diagnostics of a file, of which the first may be the first of all.
    fn add_first(&mut self, file: &mut ListedFile<'_>, diags: &[Diag]) -> Result<(), AllocError>
        ensures lines { OnOk result (self.new.bytes.items ≡ self.old.bytes.items ++ cut self.old.first (written file.old diags.now)) }
        ensures first { OnOk result (self.new.first ≡ still_first self.old.first (written file.old diags.now)) }
        ensures same { file.new ≡ file.old }
    {
        let mut lines = Vec::new(self.alloc);
        file.push_lines(&mut lines, diags)?;
        let rest = cut_first(&mut self.first, lines.as_slice());
        self.bytes.extend_from_slice(rest)?;
        Ok(())
    }

    // Adds the lines of some diagnostics of a file.
    pub fn add(&mut self, file: &mut ListedFile<'_>, diags: &[Diag]) -> Result<(), AllocError>
        ensures lines { OnOk result (self.new.bytes.items ≡ self.old.bytes.items ++ cut self.old.first (written file.old diags.now)) }
        ensures first { OnOk result (self.new.first ≡ still_first self.old.first (written file.old diags.now)) }
        ensures same { file.new ≡ file.old }
    {
        if self.first {
            self.add_first(file, diags)
        } else {
            file.push_lines(&mut self.bytes, diags)
        }
    }
}

// Lines as they are written: the first of an array without its comma.
pub fn cut_first<'a>(first: &mut bool, lines: &'a [u8]) -> &'a [u8]
    ensures lines { result.now ≡ cut first.old lines.now }
    ensures first { first.new ≡ still_first first.old lines.now }
{
    match lines {
        [_, rest @ ..] if *first => {
            *first = false;
            rest
        }
        _ => lines,
    }
}
