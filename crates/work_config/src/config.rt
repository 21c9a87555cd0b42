// What a session is started with.
ghost use Rattle.std.specs.Prelude.{◌≡◌, ◌≢◌, true, false, not, length, None, Some, map, string_bytes, IfOk, IfErr, OnOk};
ghost use Rattle.std.specs.List.{position};
ghost use Rattle.std.specs.List.Sorted.{IsNonDecreasingBy, IsPermutation, IsStableByKey};
ghost use Rattle.std.specs.Ordering.{nat_cmp};
ghost use Rattle.work_config.specs.Configuration.{is_good_file};
ghost use Rattle.work_files.specs.Disk.{disk_view};
ghost use Rattle.workspace_uri.specs.View.{roots_texts};

use crate::fault::ServeFault;
use std::alloc::{AllocError, Global};
use std::marker::Model;
use work_files::DiskFile;
use workspace_uri::{Roots, is_workspace_path};

/// What a session is started with: its roots, files on disk under them, and whether texts that aren't proto3 are read for what they declare.
#[derive(Debug)]
pub struct Config {
    roots: Roots,
    files: Vec<DiskFile>,
    reads_others: bool,
    ghost good: { position (λ f. not (is_good_file (length (roots_texts roots)) (disk_view f))) files.items ≡ None },
}

// (Written out: a derived one would be proved again, with those of all parts, in each crate that drops such a value.)
impl Drop for Config {
    fn drop(self) {
        let Config {
            roots: _,
            files: _,
            reads_others: _,
        } = self;
    }
}

impl Model for Config {
    ghost use Rattle.std.specs.Prelude.{map};
    ghost use Rattle.workspace_uri.specs.View.{roots_texts};
    ghost use Rattle.work_config.specs.Configuration.{Configuration};
    ghost use Rattle.work_files.specs.Disk.{disk_view};

    ghost Value = { Configuration };

    ghost view = { λ c. record { roots = roots_texts c.roots; files = map disk_view c.files.items; reads_others = c.reads_others } };
}

impl Config {
    ghost use Rattle.workspace_uri.specs.Uri.{are_roots};
    ghost use Rattle.workspace_uri.specs.View.{roots_texts};
    ghost use Rattle.work_config.specs.Configuration.{in_root_order, refusal};

    /// The configuration with these roots and files, and whether texts that aren't proto3 are read for what they declare. There has to be at least
    /// one root, and each is a `file` URL without host, query and fragment whose path ends with `/`. Each file names its root by its number,
    /// from 0 in the order of the roots, and has the path of a file in a workspace: segments joined by `/` that are not empty, `.` or `..` and
    /// hold no U+0000.
    ///
    /// The faults: `BadRoot` if there is no root, or one of them is none; else `BadPath` with the number of the first file that is bad;
    /// and `Memory` if memory was refused.
    pub fn make(
        alloc: Global,
        roots: Vec<String>,
        files: Vec<DiskFile>,
        reads_others: bool,
    ) -> Result<Config, ServeFault>
        ensures keeps { IfOk result (λ config. config ≡ record { roots = map string_bytes roots.items; files = map disk_view files.items; reads_others = reads_others }) }
        ensures good { OnOk result (refusal (record { roots = map string_bytes roots.items; files = map disk_view files.items; reads_others = reads_others }) ≡ None) }
        ensures refused { IfErr result (λ fault. fault ≢ ServeFault.Memory → refusal (record { roots = map string_bytes roots.items; files = map disk_view files.items; reads_others = reads_others }) ≡ Some fault) }
    {
        let texts = roots.as_slice();
        let parsed = Config::parse_roots(alloc, texts)?;
        match first_bad(files.as_slice(), texts.len()) {
            Some(index) => Err(ServeFault::BadPath { index }),
            None => Ok(Config {
                roots: parsed,
                files,
                reads_others,
            }),
        }
    }

    // The roots, if there is at least one and each is one.
    fn parse_roots(alloc: Global, texts: &[String]) -> Result<Roots, ServeFault>
        ensures is { IfOk result (λ roots. roots_texts roots ≡ map string_bytes texts.now) }
        ensures ok { OnOk result (are_roots (map string_bytes texts.now) ≡ true) }
        ensures refused { IfErr result (λ fault. fault ≢ ServeFault.Memory → fault ≡ ServeFault.BadRoot) }
        ensures err { IfErr result (λ fault. fault ≢ ServeFault.Memory → are_roots (map string_bytes texts.now) ≡ false) }
    {
        match Roots::parse(alloc, texts) {
            Ok(Some(roots)) => Ok(roots),
            Ok(None) => Err(ServeFault::BadRoot),
            Err(_) => Err(ServeFault::Memory),
        }
    }

    /// Whether texts that aren't proto3 are read for what they declare.
    pub fn reads_others(&self) -> bool
        ensures { result ≡ self.now.reads_others }
    {
        self.reads_others
    }

    /// Its roots, and its files: those of the first root in their order, then those of the next. An `Err` comes only where memory was
    /// refused.
    pub fn into_parts(self) -> Result<(Roots, Vec<DiskFile>), AllocError>
        ensures roots { IfOk result (λ parts. roots_texts parts.0 ≡ self.roots) }
        ensures files { IfOk result (λ parts. map disk_view parts.1.items ≡ in_root_order self) }
    {
        let Config {
            roots,
            mut files,
            reads_others: _,
        } = self;
        sort_by_root(&mut files)?;
        Ok((roots, files))
    }

    /// Its files: those of the first root in their order, then those of the next. An `Err` comes only where memory was refused.
    pub fn into_files(self) -> Result<Vec<DiskFile>, AllocError>
        ensures { IfOk result (λ files. map disk_view files.items ≡ in_root_order self) }
    {
        let (_, files) = self.into_parts()?;
        Ok(files)
    }
}

// The number of the first file that is bad beside so many roots.
fn first_bad(files: &[DiskFile], roots: usize) -> Option<usize>
    ensures { result ≡ position (λ f. not (is_good_file roots (disk_view f))) files.now }
{
    files.iter().position(|file| !is_good(file, roots))
}

// Whether a file names one of so many roots and has the path of a file in a workspace.
fn is_good(file: &DiskFile, roots: usize) -> bool
    ensures { result ≡ is_good_file roots (disk_view file.now) }
{
    file.root < roots && is_workspace_path(file.path.as_str())
}

// Puts the files of each root before those of the next, and leaves those of one root in their order.
fn sort_by_root(files: &mut Vec<DiskFile>) -> Result<(), AllocError>
    ensures same { IsPermutation files.old.items files.new.items }
    ensures sorted { OnOk result (IsNonDecreasingBy (λ f. f.root) files.new.items) }
    ensures stable { IsStableByKey (λ f. f.root) nat_cmp files.old.items files.new.items }
{
    files.sort_by_key(|file| file.root)
}
