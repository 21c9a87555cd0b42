// The names of files, and what is known of these beside, made by threads.
ghost use Rattle.std.specs.Prelude.{◌≡◌, ◌≤◌, map, length, Err, IfOk};
ghost use Rattle.std.specs.List.{flat_map};
ghost use Rattle.import_graph.specs.Paths.{IsInPathOrder};
ghost use Rattle.proto_resolve.specs.Bases.{IsBaseOf};
ghost use Rattle.proto_resolve.specs.declared.fault.TableFault.TheVariants.{ThreadRefused};
ghost use Rattle.proto_names.specs.Buckets.{AreInBuckets};
ghost use Rattle.proto_names.specs.Entries.{all_entries};
ghost use Rattle.proto_names.specs.Files.{name_at};
ghost use Rattle.proto_names.specs.Tables.{by_name, by_scope};

use crate::fault::TableFault;
use crate::table_base::TableBase;
use import_graph::NamedFacts;
use proto_names::{
    Buckets, HashedDecl, NameEntries, NameTable, holders_in_buckets, names_in_buckets,
};
use std::alloc::{AllocError, Global};
use std::snapshot::Snapshot;
use std::sync::Wait;
use std::thread;
use std::thread::{Promise, Threads};

// The names of fewer files are in order before another thread has started.
const MANY: usize = 64;

// What is known of the files beside their declarations by name comes back.
#[derive(Drop)]
struct BaseMade<'f> {
    files: &'f [NamedFacts],
}

impl<'f> Promise<Result<TableBase, AllocError>> for BaseMade<'f> {
    ghost kept_by = { λ p answer. IfOk answer (IsBaseOf p.files.now) };
}

// What may settle a scope comes back in buckets by its last component.
#[derive(Drop)]
struct HoldersSorted<'f> {
    files: &'f [NamedFacts],
    runs: Snapshot<Vec<Vec<HashedDecl>>>,
}

impl<'f> Promise<Result<Buckets, AllocError>> for HoldersSorted<'f> {
    ghost kept_by = { λ p answer. IfOk answer (λ b. AreInBuckets (by_scope (name_at p.files.now)) (flat_map (λ run. run.items) (let runs = p.runs.value in runs.items)) b.list.items) };
}

// Declarations by name, what may settle a scope by last component, and what is known of the files beside.
#[derive(Drop)]
struct TableParts {
    names: Buckets,
    holders: Buckets,
    base: TableBase,
}

// The parts of the table of these files, of which this thread puts the names in order, and two others make the rest.
fn parts_by_threads<R: Threads + Wait>(
    rt: &R,
    alloc: Global,
    files: &[NamedFacts],
    hashes: Vec<Vec<u64>>,
    runs: Vec<Vec<HashedDecl>>,
) -> Result<TableParts, TableFault>
    requires { IsInPathOrder files.now }
    ensures names { IfOk result (λ parts. AreInBuckets (by_name (name_at files.now)) (all_entries (map (λ own. own.items) hashes.items)) parts.names.list.items) }
    ensures holders { IfOk result (λ parts. AreInBuckets (by_scope (name_at files.now)) (flat_map (λ run. run.items) runs.items) parts.holders.list.items) }
    ensures base { IfOk result (λ parts. IsBaseOf files.now parts.base) }
{
    thread::scope(
        thread::scope_env(),
        rt,
        |scope| -> Result<TableParts, TableFault>
            requires { IsInPathOrder files.now }
            ensures names { IfOk result (λ parts. AreInBuckets (by_name (name_at files.entry.now)) (all_entries (map (λ own. own.items) hashes.items)) parts.names.list.items) }
            ensures holders { IfOk result (λ parts. AreInBuckets (by_scope (name_at files.entry.now)) (flat_map (λ run. run.items) runs.items) parts.holders.list.items) }
            ensures base { IfOk result (λ parts. IsBaseOf files.entry.now parts.base) }
        {
            let Ok(base) = scope.spawn_with(
                BaseMade { files },
                move || -> Result<TableBase, AllocError>
                    requires { IsInPathOrder files.now }
                    ensures { IfOk result (IsBaseOf files.entry.now) }
                { TableBase::of(alloc, files) },
            ) else {
                return Err(TableFault::ThreadRefused);
            };
            let promise = HoldersSorted {
                files,
                runs: Snapshot::of(&runs),
            };
            let Ok(holders) = scope.spawn_with(
                promise,
                move || -> Result<Buckets, AllocError>
                    ensures { IfOk result (λ b. AreInBuckets (by_scope (name_at files.entry.now)) (flat_map (λ run. run.items) runs.items) b.list.items) }
                { holders_in_buckets(alloc, files, runs) },
            ) else {
                return Err(TableFault::ThreadRefused);
            };
            let names = names_in_buckets(alloc, files, hashes)?;
            let holders = holders.join(rt)?;
            let base = base.join(rt)?;
            Ok(TableParts {
                names,
                holders,
                base,
            })
        },
    )
}

// The table of the names of these files, which are in the order of their paths, and what is known of them beside their declarations by
// name, made by this thread and, if there are many files, two others.
pub fn names_and_base<R: Threads + Wait>(
    rt: &R,
    alloc: Global,
    entries: NameEntries,
) -> Result<(NameTable, TableBase), TableFault>
    requires { IsInPathOrder entries }
    ensures names { IfOk result (λ r. r.0 ≡ entries) }
    ensures base { IfOk result (λ r. IsBaseOf entries r.1) }
    ensures threads { result ≡ Err ThreadRefused → 64 ≤ length entries }
{
    if entries.file_count() < MANY {
        let made = NameTable::of(alloc, entries)?;
        let beside = TableBase::of(alloc, made.files())?;
        return Ok((made, beside));
    }
    let (files, hashes, holders) = entries.into_parts();
    let parts = parts_by_threads(rt, alloc, files.as_slice(), hashes, holders)?;
    let TableParts {
        names,
        holders,
        base,
    } = parts;
    Ok((NameTable::of_buckets(files, names, holders), base))
}
