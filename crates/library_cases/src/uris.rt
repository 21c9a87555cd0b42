// Roots, paths and URIs.
use crate::line::Line;
use crate::marks::plain;
use crate::words::field;
use std::alloc::{AllocError, Global};
use workspace_uri::{Roots, UriPlace, escape_path, is_workspace_path};

/// Writes the answer to a call on URIs.
pub fn answer(alloc: Global, line: &mut Line, given: &str) -> Result<(), AllocError> {
    match field(given, 0) {
        "escaped" => write_escaped(alloc, line, field(given, 1)),
        "workspace path" => write_is_path(alloc, line, field(given, 1)),
        _ => write_below(alloc, line, given),
    }
}

fn write_escaped(alloc: Global, line: &mut Line, path: &str) -> Result<(), AllocError> {
    let path = plain(alloc, path)?;
    let escaped = escape_path(alloc, path.as_bytes())?;
    line.put(escaped.as_str());
    Ok(())
}

// Whether a file of a workspace has the path.
fn write_is_path(alloc: Global, line: &mut Line, path: &str) -> Result<(), AllocError> {
    let path = plain(alloc, path)?;
    line.put_bool(is_workspace_path(path.as_str()));
    Ok(())
}

// The root that a text names, as the only one.
fn only_root(alloc: Global, text: &str) -> Result<Option<Roots>, AllocError> {
    let mut texts = Vec::new(alloc);
    texts.push(String::from_str(alloc, text)?)?;
    Roots::parse(alloc, texts.as_slice())
}

// Writes the answer to a call on a root.
fn write_below(alloc: Global, line: &mut Line, given: &str) -> Result<(), AllocError> {
    match only_root(alloc, field(given, 1))? {
        Some(roots) => write_call(alloc, line, &roots, given),
        None => Ok(line.put("no root")),
    }
}

fn write_call(
    alloc: Global,
    line: &mut Line,
    roots: &Roots,
    given: &str,
) -> Result<(), AllocError> {
    match field(given, 0) {
        "path" => write_path(alloc, line, roots, field(given, 2)),
        "uri" => write_uri(alloc, line, roots, field(given, 2)),
        "root" => write_root(alloc, line, roots),
        _ => Ok(line.put("no such call")),
    }
}

// The URI of no path below a root is the root's own text.
fn write_root(alloc: Global, line: &mut Line, roots: &Roots) -> Result<(), AllocError> {
    let uri = roots.uri_of(alloc, Some(0), "")?;
    line.put(uri.as_str());
    Ok(())
}

fn write_place(line: &mut Line, place: UriPlace) {
    let path = place.into_path(None);
    line.put_shown(path.as_str());
}

// The path of a URI below a root, where no other root has a file.
fn write_path(alloc: Global, line: &mut Line, roots: &Roots, uri: &str) -> Result<(), AllocError> {
    match roots.place_of(alloc, uri)? {
        Some(place) => write_place(line, place),
        None => line.put("no URL"),
    }
    Ok(())
}

// The URI of a path below a root, and the path that it leads back to.
fn write_uri(alloc: Global, line: &mut Line, roots: &Roots, path: &str) -> Result<(), AllocError> {
    let path = plain(alloc, path)?;
    let uri = roots.uri_of(alloc, Some(0), path.as_str())?;
    line.put(uri.as_str());
    line.put(" :: ");
    write_path(alloc, line, roots, uri.as_str())
}
