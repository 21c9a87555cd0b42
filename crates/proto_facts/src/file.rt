// The statements of a file itself, and what is wrong with them.

ghost use Rattle.std.specs.Prelude.{◌≡◌, ◌<◌, ◌^◌, ◌++◌, [], ◌∷◌, OnOk, IfOk, ℕ, List, map, nat_lt, ◌||◌};
ghost use Rattle.std.specs.List.{list_any, filter_map};
ghost use Rattle.std.specs.Option.{option_to_list};
ghost use Rattle.proto_tree.specs.declared.node.Node.{out-Node};
ghost use Rattle.proto_decls.specs.Diags as said;
ghost use Rattle.proto_decls.specs.Facts as spec;
ghost use Rattle.proto_decls.specs.Starts as statement;
ghost use Rattle.proto_decls.specs.Checks as checks;

use crate::checks::{add, diag, diag_if};
use crate::members::is;
use crate::text::{dotted, literal_text};
use proto_decls::{Diag, ImportFact, PackageFact, Problem, StatedPackage, StatedSyntax};
use proto_lex::Reason;
use proto_tree::{Fault, FileTree, Literal, Node, Span, SyntaxProblem, is_too_long};
use sqlite_items::Items;
use std::alloc::{AllocError, Global};

// ---- bad tokens and statements

fn problem_of(problem: SyntaxProblem) -> Problem
    ensures { result ≡ said.problem_of problem }
{
    match problem {
        SyntaxProblem::BadToken(Reason::Character) => Problem::IllegalCharacter,
        SyntaxProblem::BadToken(Reason::Number) => Problem::MalformedNumber,
        SyntaxProblem::BadToken(Reason::String) => Problem::UnfinishedString,
        SyntaxProblem::BadToken(Reason::Comment) => Problem::UnfinishedComment,
        SyntaxProblem::NotUnderstood => Problem::NotUnderstood,
        SyntaxProblem::TooDeep => Problem::TooDeep,
        SyntaxProblem::Unfinished => Problem::Unfinished,
    }
}

// Adds the bad tokens and statements.
pub fn add_faults(faults: &[Fault], diags: &mut Items<Diag>) -> Result<(), AllocError>
    ensures { OnOk result (diags.new ≡ diags.old ++ map said.diag_of faults.now) }
{
    'faults: for fault in faults {
        diags.push(diag(problem_of(fault.problem), fault.span))?;
    }
    Ok(())
}

// ---- syntax

fn says_proto3(alloc: Global, text: &str, value: &Literal) -> Result<bool, AllocError>
    ensures { IfOk result (λ b. b ≡ spec.says_proto3 text.now value.now) }
{
    let value = literal_text(alloc, text, value)?;
    Ok(is(value.as_str(), "proto3"))
}

fn add_stated_of(
    alloc: Global,
    text: &str,
    node: &Node,
    found: &mut Items<StatedSyntax>,
) -> Result<(), AllocError>
    ensures { OnOk result (found.new ≡ found.old ++ option_to_list (spec.stated_of text.now (out-Node node.now))) }
{
    match node {
        Node::Syntax { span, value } => {
            let is_proto3 = says_proto3(alloc, text, value.get())?;
            found.push(StatedSyntax {
                span: *span,
                is_proto3,
            })
        }
        _ => Ok(()),
    }
}

// Adds the `syntax` statements of a file.
pub fn add_stated(
    alloc: Global,
    text: &str,
    nodes: &[Node],
    found: &mut Items<StatedSyntax>,
) -> Result<(), AllocError>
    ensures { OnOk result (found.new ≡ found.old ++ spec.stated text.now nodes.now) }
{
    'nodes: for node in nodes {
        add_stated_of(alloc, text, node, found)?;
    }
    Ok(())
}

fn not_proto3(found: &[StatedSyntax]) -> Option<Diag>
    ensures { result ≡ spec.not_proto3 found.now }
{
    match found {
        [] => Some(diag(Problem::NotProto3, Span { start: 0, end: 0 })),
        [first, ..] => diag_if(!first.is_proto3, Problem::NotProto3, first.span),
    }
}

// The one diagnostic of a file that is not analysed.
pub fn opaque(text: &str, found: &[StatedSyntax]) -> Option<Diag>
    ensures { result ≡ spec.opaque text.now found.now }
{
    if is_too_long(text) {
        Some(diag(Problem::TextTooLong, Span { start: 0, end: 0 }))
    } else {
        not_proto3(found)
    }
}

// ---- the first statement

fn start_of(node: &Node) -> usize
    ensures { result ≡ statement.start_of (out-Node node.now) }
{
    match node {
        Node::Message { span, .. } => span.start,
        Node::EnumDef { span, .. } => span.start,
        Node::Service { span, .. } => span.start,
        Node::Oneof { span, .. } => span.start,
        Node::Extend { span, .. } => span.start,
        Node::Rpc { span, .. } => span.get().start,
        Node::Field(field) => field.get().span.start,
        Node::MapField(field) => field.get().span.start,
        Node::Value { span, .. } => span.start,
        Node::Reserved { span, .. } => span.start,
        Node::Import { span, .. } => span.start,
        Node::Package { span, .. } => span.start,
        Node::OptionDef { span, .. } => span.start,
        Node::Syntax { span, .. } => span.start,
        Node::Empty { span } => span.start,
    }
}

fn bad_start(problem: SyntaxProblem, span: Span) -> Option<usize>
    ensures { result ≡ spec.bad_start problem span }
{
    match problem {
        SyntaxProblem::BadToken(_) => None,
        SyntaxProblem::NotUnderstood => Some(span.start),
        SyntaxProblem::TooDeep => Some(span.start),
        SyntaxProblem::Unfinished => Some(span.start),
    }
}

// The less of a start and another, where there is one.
fn earlier(least: usize, start: Option<usize>) -> usize
    ensures { (x : ℕ) → nat_lt result x ≡ (nat_lt least x || list_any (λ s. nat_lt s x) (option_to_list start)) }
{
    match start {
        Some(start) => least.min(start),
        None => least,
    }
}

// The least of the starts of nodes.
fn earliest_node(nodes: &[Node]) -> usize
    ensures { (x : ℕ) → x < 2 ^ 64 → nat_lt result x ≡ list_any (λ start. nat_lt start x) (map (λ n. statement.start_of (out-Node n)) nodes.now) }
{
    let mut least = usize::MAX;
    'nodes: for node in nodes {
        least = least.min(start_of(node));
    }
    least
}

// The least of a start and those of bad statements.
fn earliest_bad(start: usize, faults: &[Fault]) -> usize
    ensures { (x : ℕ) → nat_lt result x ≡ (nat_lt start x || list_any (λ s. nat_lt s x) (filter_map (λ f. spec.bad_start f.problem f.span) faults.now)) }
{
    let mut least = start;
    'faults: for fault in faults {
        least = earlier(least, bad_start(fault.problem, fault.span));
    }
    least
}

// Where the first statement of a file starts.
fn earliest(tree: &FileTree) -> usize
    ensures { (x : ℕ) → x < 2 ^ 64 → nat_lt result x ≡ list_any (λ start. nat_lt start x) (spec.starts tree.now) }
{
    earliest_bad(earliest_node(tree.nodes.as_slice()), tree.faults.as_slice())
}

fn syntax_late(earliest: usize, stated: StatedSyntax) -> Option<Diag>
    ensures { (starts : List ℕ) → ((x : ℕ) → x < 2 ^ 64 → nat_lt earliest x ≡ list_any (λ start. nat_lt start x) starts) → result ≡ spec.syntax_late starts stated }
{
    diag_if(
        earliest < stated.span.start,
        Problem::SyntaxNotFirst,
        stated.span,
    )
}

// Adds the `syntax` statements that another statement starts before.
pub fn add_syntax_late(
    tree: &FileTree,
    stated: &[StatedSyntax],
    diags: &mut Items<Diag>,
) -> Result<(), AllocError>
    ensures { OnOk result (diags.new ≡ diags.old ++ filter_map (spec.syntax_late (spec.starts tree.now)) stated.now) }
{
    let earliest = earliest(tree);
    'stated: for found in stated {
        add(syntax_late(earliest, *found), diags)?;
    }
    Ok(())
}

// ---- packages

fn add_package_of(
    alloc: Global,
    text: &str,
    node: &Node,
    found: &mut Items<StatedPackage>,
) -> Result<(), AllocError>
    ensures { OnOk result (found.new ≡ found.old ++ option_to_list (spec.package_of text.now (out-Node node.now))) }
{
    match node {
        Node::Package {
            name,
            components,
            ..
        } => {
            let components = components.get().as_slice();
            let full_name = dotted(alloc, text, components)?;
            let components = Items::from_slice(alloc, components)?;
            found.push(StatedPackage {
                name: *name,
                fact: PackageFact {
                    full_name,
                    components,
                },
            })
        }
        _ => Ok(()),
    }
}

// Adds the `package` statements of a file.
pub fn add_packages(
    alloc: Global,
    text: &str,
    nodes: &[Node],
    found: &mut Items<StatedPackage>,
) -> Result<(), AllocError>
    ensures { OnOk result (found.new ≡ found.old ++ spec.packages text.now nodes.now) }
{
    'nodes: for node in nodes {
        add_package_of(alloc, text, node, found)?;
    }
    Ok(())
}

fn add_packages_twice(found: &[StatedPackage], diags: &mut Items<Diag>) -> Result<(), AllocError>
    ensures { OnOk result (diags.new ≡ diags.old ++ map spec.package_twice found.now) }
{
    'found: for stated in found {
        diags.push(diag(Problem::PackageTwice, stated.name))?;
    }
    Ok(())
}

// Adds each package but the first.
pub fn add_package_diags(found: &[StatedPackage], diags: &mut Items<Diag>) -> Result<(), AllocError>
    ensures { OnOk result (diags.new ≡ diags.old ++ spec.package_diags found.now) }
{
    add_packages_twice(found.get(1..).unwrap_or(&[]), diags)
}

// The package that counts.
pub fn first_package(mut found: Items<StatedPackage>) -> Option<PackageFact>
    ensures { result ≡ spec.first_package found }
{
    if found.is_empty() {
        None
    } else {
        let StatedPackage { fact, .. } = found.remove(0);
        Some(fact)
    }
}

// ---- imports

fn add_import_of(
    alloc: Global,
    text: &str,
    node: &Node,
    found: &mut Items<ImportFact>,
) -> Result<(), AllocError>
    ensures { OnOk result (found.new ≡ found.old ++ option_to_list (spec.import_of text.now (out-Node node.now))) }
{
    match node {
        Node::Import {
            is_public,
            path,
            ..
        } => {
            let path = path.get();
            let value = literal_text(alloc, text, path)?;
            found.push(ImportFact {
                path: value,
                span: path.span,
                is_public: *is_public,
            })
        }
        _ => Ok(()),
    }
}

// Adds the imports of a file.
pub fn add_imports(
    alloc: Global,
    text: &str,
    nodes: &[Node],
    found: &mut Items<ImportFact>,
) -> Result<(), AllocError>
    ensures { OnOk result (found.new ≡ found.old ++ spec.imports text.now nodes.now) }
{
    'nodes: for node in nodes {
        add_import_of(alloc, text, node, found)?;
    }
    Ok(())
}
