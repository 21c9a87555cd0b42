// The files that have packages, by the full names of these, each with a dot behind it. Those with the same first components
// stand together so.
ghost use Rattle.std.specs.Prelude.{◌≡◌, ◌<◌, ◌≤◌, ◌+◌, ◌++◌, ◌∷◌, ◌&&◌, [], ℕ, List, Bool, All, IfOk, OnOk, false, true, length, map, take, nat_eq, string_bytes};
ghost use Rattle.std.specs.Cmp.Lexicographic.{slice_cmp};
ghost use Rattle.std.specs.Ordering.{is_lt, nat_cmp};
ghost use Rattle.std.specs.List.{list_any, starts_with};
ghost use Rattle.std.specs.List.Sorted.{IsNonDecreasing, IsPartitionPoint, IsPermutation};
ghost use Rattle.proto_decls.specs.Text.{joined};
ghost use Rattle.proto_names.specs.Changes.{HadOtherPackages};
ghost use Rattle.proto_names.specs.Files as spec;
ghost use Rattle.proto_names.specs.Files.{is_within};
ghost use Rattle.proto_decls.specs.FullNames.{dot};
ghost use Rattle.proto_names.specs.Holders.{later, IsPast};
ghost use Rattle.proto_names.specs.Packages as packages;
ghost use Rattle.proto_names.specs.Packages.{AreByPackage, AreNoLonger, ArePackaged};
ghost use Rattle.proto_names.specs.declared.packages.PackagedFile.{PackagedFile};

use crate::holders::common_len;
use crate::moving::{Change, number_after};
use proto_decls::{Name, NameParts, NamedFacts, PackageFact};
use std::alloc::{AllocError, Global};
use std::cmp::Ordering;

/// A file that has a package.
#[derive(Drop)]
pub struct PackagedFile {
    /// The full name of its package, with a dot behind it.
    pub name: Name,
    /// The file's number in the list of all files, counted from 0.
    pub file: usize,
}

// What stands behind each name.
const DOT: &[u8] = b".";

/// A full name in one part, for what is asked of names in two.
pub fn unsplit(name: &[u8]) -> NameParts<'_>
    ensures scope { result.scope.now ≡ [] }
    ensures last { result.last.now ≡ name.now }
{
    NameParts {
        scope: &[],
        last: name,
    }
}

// Whether a text comes before these bytes with a dot behind them.
fn is_before_dotted(text: &[u8], name: &[u8]) -> bool
    ensures { result ≡ is_lt (slice_cmp nat_cmp text.now (name.now ++ dot ∷ [])) }
{
    if text.len() < name.len() {
        return text.cmp(name).is_lt();
    }
    let (front, rest) = text.split_at(name.len());
    front.cmp(name).then(rest.cmp(DOT)).is_lt()
}

// Whether a text comes before a dot, these bytes and another dot.
fn is_before_inner(text: &[u8], last: &[u8]) -> bool
    ensures { result ≡ is_lt (slice_cmp nat_cmp text.now (dot ∷ (last.now ++ dot ∷ []))) }
{
    match text {
        [] => true,
        [c, rest @ ..] => *c < b'.' || *c == b'.' && is_before_dotted(rest, last),
    }
}

// Whether a text comes before a full name with a dot behind it.
fn is_before(text: &[u8], name: NameParts<'_>) -> bool
    ensures { result ≡ is_lt (slice_cmp nat_cmp text.now (joined name.entry.scope.now name.entry.last.now ++ dot ∷ [])) }
{
    let NameParts { scope, last } = name;
    if scope.is_empty() {
        return is_before_dotted(text, last);
    }
    if text.len() < scope.len() {
        return text.cmp(scope).is_lt();
    }
    let (front, rest) = text.split_at(scope.len());
    match front.cmp(scope) {
        Ordering::Equal => is_before_inner(rest, last),
        different => different.is_lt(),
    }
}

// Whether a text begins with a full name and a dot.
fn begins_dotted(text: &[u8], name: NameParts<'_>) -> bool
    ensures { result ≡ starts_with nat_eq text.now (joined name.entry.scope.now name.entry.last.now ++ dot ∷ []) }
{
    match name.strip_from(text) {
        Some(rest) => begins_with_dot(rest),
        None => false,
    }
}

fn begins_with_dot(rest: &[u8]) -> bool
    ensures { result ≡ starts_with nat_eq rest.now (dot ∷ []) }
{
    match rest {
        [] => false,
        [c, ..] => *c == b'.',
    }
}

// Whether the first components of a full name are these.
fn begins(full_name: &[u8], name: NameParts<'_>) -> bool
    ensures { result ≡ spec.begins full_name.now (joined name.entry.scope.now name.entry.last.now) }
{
    match name.strip_from(full_name) {
        Some(rest) => ends_component(rest),
        None => false,
    }
}

// Whether the first component of a full name is this one.
fn begins_with(full_name: &[u8], component: &[u8]) -> bool
    ensures { result ≡ spec.begins full_name.now component.now }
{
    begins(full_name, unsplit(component))
}

fn ends_component(rest: &[u8]) -> bool
    ensures { result ≡ spec.ends_component rest.now }
{
    match rest {
        [] => true,
        [c, ..] => *c == b'.',
    }
}

/// Whether a package has the name, or lies in it.
pub fn is_within(name: NameParts<'_>, package: &Option<PackageFact>) -> bool
    ensures { result ≡ is_within (joined name.entry.scope.now name.entry.last.now) «package».now }
{
    match package {
        None => false,
        Some(package) => begins(package.full_name.as_str().as_bytes(), name),
    }
}

// The full name of a package with a dot behind it.
fn with_dot(alloc: Global, name: &Name) -> Result<Name, AllocError>
    ensures { IfOk result (λ n. n ≡ name.now ++ dot ∷ []) }
{
    let mut text = String::from_str(alloc, name.as_str())?;
    text.push('.')?;
    Ok(Name::of(text))
}

// Adds the file if it has a package.
fn push_packaged(
    alloc: Global,
    file: usize,
    package: &Option<PackageFact>,
    found: &mut Vec<PackagedFile>,
) -> Result<(), AllocError>
    ensures { OnOk result (found.new.items ≡ found.old.items ++ packages.packaged file «package».now) }
{
    match package {
        None => Ok(()),
        Some(package) => {
            let name = with_dot(alloc, &package.full_name)?;
            found.push(PackagedFile { name, file })?;
            Ok(())
        }
    }
}

fn all_packaged(alloc: Global, files: &[NamedFacts]) -> Result<Vec<PackagedFile>, AllocError>
    ensures { IfOk result (λ v. v.items ≡ packages.all_packaged files.now) }
{
    let mut found = Vec::new(alloc);
    for (number, file) in files.iter().enumerate() {
        push_packaged(alloc, number, &file.facts.get().package, &mut found)?;
    }
    Ok(found)
}

// Puts them into the order of their packages.
fn sort_by_package(files: &mut Vec<PackagedFile>)
    ensures sorted { AreByPackage files.new.items }
    ensures same { IsPermutation files.old.items files.new.items }
{
    files.sort_unstable_by(|a, b| a.name.as_str().cmp(b.name.as_str()));
}

/// The files that have packages, by these. A file is its number in the list, counted from 0. An `Err` comes only where memory was refused.
pub fn packaged_files(alloc: Global, files: &[NamedFacts]) -> Result<Vec<PackagedFile>, AllocError>
    ensures { IfOk result (λ v. ArePackaged files.now v.items) }
{
    let mut found = all_packaged(alloc, files)?;
    sort_by_package(&mut found);
    Ok(found)
}

// Gives the files the numbers that they have once another comes to the place `at`.
fn renumber(at: usize, found: &mut Vec<PackagedFile>)
    requires { All (λ p. p.file < 18446744073709551615) found.old.items }
    ensures { found.new.items ≡ map (packages.moved at) found.old.items }
{
    for file in found.iter_mut() {
        file.file = number_after(Change::Comes, at, file.file);
    }
}

// Gives the files, of which there are so many then, the numbers that they have once another comes to the place `at`: if that is the last one, no number
// changes.
fn make_way(at: usize, count: usize, found: &mut Vec<PackagedFile>)
    requires { All (λ p. p.file + 1 < count) found.old.items }
    ensures { found.new.items ≡ map (packages.moved at) found.old.items }
{
    if count.saturating_sub(at) > 1 {
        renumber(at, found);
    }
}

// The place of a name among files by their packages: those before it come before the name, and those from there on don't.
fn place_among(found: &[PackagedFile], name: &str) -> usize
    requires { AreByPackage found.now }
    ensures within { result ≤ length found.now }
    ensures between { IsPartitionPoint (λ p. is_lt (slice_cmp nat_cmp p.name name.now) ≡ true) (λ p. is_lt (slice_cmp nat_cmp p.name name.now) ≡ false) found.now result }
{
    found.partition_point(|file| file.name.as_str().cmp(name).is_lt())
}

// Puts a file in its place among those by their packages.
fn put_among(one: PackagedFile, found: &mut Vec<PackagedFile>) -> Result<(), AllocError>
    requires { AreByPackage found.old.items }
    ensures sorted { OnOk result (AreByPackage found.new.items) }
    ensures same { OnOk result (IsPermutation (found.old.items ++ one ∷ []) found.new.items) }
{
    let place = place_among(found, one.name.as_str());
    found.insert(place, one)?;
    Ok(())
}

// Puts the file of this number, from 0, in its place among those by their packages, if it has one.
fn put_packaged(
    alloc: Global,
    file: usize,
    package: &Option<PackageFact>,
    found: &mut Vec<PackagedFile>,
) -> Result<(), AllocError>
    requires { AreByPackage found.old.items }
    ensures sorted { OnOk result (AreByPackage found.new.items) }
    ensures same { OnOk result (IsPermutation (found.old.items ++ packages.packaged file «package».now) found.new.items) }
{
    match package {
        None => Ok(()),
        Some(package) => {
            let name = with_dot(alloc, &package.full_name)?;
            put_among(PackagedFile { name, file }, found)
        }
    }
}

/// The files that have packages, by these, among which the one of the number `at`, from 0, came to those that had them before. An `Err` comes
/// only where memory was refused; what is there then is neither.
pub fn add_packaged(
    alloc: Global,
    files: &[NamedFacts],
    at: usize,
    found: &mut Vec<PackagedFile>,
) -> Result<(), AllocError>
    requires { HadOtherPackages files.now at found.old.items }
    ensures { OnOk result (ArePackaged files.now found.new.items) }
{
    make_way(at, files.len(), found);
    put_packaged(alloc, at, &files[at].facts.get().package, found)
}

/// A length in bytes that none of the names exceeds: that of the longest.
pub fn longest_of(files: &[PackagedFile]) -> usize
    ensures { AreNoLonger result files.now }
{
    let mut longest = 0;
    for file in files {
        longest = file.name.as_str().len().max(longest);
    }
    longest
}

/// A length in bytes that none of the names exceeds once a file with this package, or without one, came to those of which none exceeds this
/// length.
pub fn longest_with(longest: usize, package: &Option<PackageFact>) -> usize
    ensures others { longest ≤ result }
    ensures own { (file : ℕ) → AreNoLonger result (packages.packaged file «package».now) }
{
    match package {
        None => longest,
        Some(package) => longest.max(package.full_name.as_str().len() + 1),
    }
}

/// Of files by their packages, of which none has a longer name than this, in bytes, those whose package has the name or lies in it. Takes no memory.
pub fn of_package<'a>(
    files: &'a [PackagedFile],
    longest: usize,
    name: NameParts<'_>,
) -> &'a [PackagedFile]
    requires by_package { AreByPackage files.now }
    requires longest { AreNoLonger longest files.now }
    ensures { (test : PackagedFile → Bool) → list_any test result.now ≡ list_any (λ p. starts_with nat_eq p.name (joined name.entry.scope.now name.entry.last.now ++ dot ∷ []) && test p) files.now }
{
    if name.last.len() >= longest.saturating_sub(name.scope.len()) {
        return &[];
    }
    let start = files.partition_point(|file| is_before(file.name.as_str().as_bytes(), name));
    if start >= files.len() || !begins_dotted(files[start].name.as_str().as_bytes(), name) {
        return &[];
    }
    let rest = &files[start..];
    let count = rest.partition_point(|file| begins_dotted(file.name.as_str().as_bytes(), name));
    &rest[..count]
}

// Whether a component is one of those of a package, which begins where a scope of this length ends.
fn goes_on(package: &[u8], at: usize, component: &[u8]) -> bool
    ensures { result ≡ false → (scope : List ℕ) → length scope ≡ at → spec.begins «package».now (joined scope component.now) ≡ false }
{
    if at == 0 {
        return begins_with(package, component);
    }
    if at >= package.len() || package[at] != b'.' {
        return false;
    }
    begins_with(&package[at + 1..], component)
}

// A place behind which a component goes on with a package at no front part of a scope, of these lengths.
fn last_inside(package: &[u8], scope: &[u8], lengths: &[usize], component: &[u8]) -> Option<usize>
    requires ascending { IsNonDecreasing lengths.now }
    requires within { All (λ l. l ≤ length scope.now) lengths.now }
    ensures { IsPast (λ l. spec.begins «package».now (joined (take l scope.now) component.now)) lengths.now result }
{
    let past = common_len(package, scope) + 1;
    let mut left = lengths.partition_point(|length| *length < past);
    while left > 0 {
        left -= 1;
        if goes_on(package, lengths[left], component) {
            return Some(left);
        }
    }
    None
}

/// A place among lengths in bytes behind which no front part of a scope, of these lengths, has the package, or one that it lies in, in it by
/// the name; if it is `None`, no front part has. Takes no memory.
pub fn last_within(
    package: &Option<PackageFact>,
    scope: &[u8],
    lengths: &[usize],
    name: &str,
) -> Option<usize>
    requires ascending { IsNonDecreasing lengths.now }
    requires within { All (λ l. l ≤ length scope.now) lengths.now }
    ensures { IsPast (λ l. is_within (joined (take l scope.now) name.now) «package».now) lengths.now result }
{
    match package {
        None => None,
        Some(package) => {
            let package = package.full_name.as_str().as_bytes();
            last_inside(package, scope, lengths, name.as_bytes())
        }
    }
}

/// The later of two places.
pub fn later(a: Option<usize>, b: Option<usize>) -> Option<usize>
    ensures { result ≡ later a b }
{
    match (a, b) {
        (None, b) => b,
        (a, None) => a,
        (Some(a), Some(b)) => Some(a.max(b)),
    }
}
