//! What the forms of generated apps say.
use crate::names::text_of;
use made_apps::{declaration_text, layouts_text, lists_text, manifest_text};
use office_forms::{read_declaration, read_layouts, read_lists, read_manifest};
use std::alloc::Global;
use std::io::Write;
use std::rt::Files;
use std::str::from_utf8;
use std::{fs, io};

fn tell_manifest<W: Write>(out: &mut W, alloc: Global) -> io::Result<()> {
    let Ok(read) = read_manifest(alloc, manifest_text()) else {
        return writeln!(out, "no manifest");
    };
    let manifest = &read.manifest;
    let package = text_of(&manifest.package);
    let files = manifest.dex_files;
    let has_application = manifest.application.is_some();
    writeln!(
        out,
        "package {package}, dex files {files}, application {has_application}"
    )?;
    for component in manifest.components.as_slice() {
        writeln!(out, "{:?} {}", component.0, text_of(&component.1))?;
    }
    Ok(())
}

fn tell_empty<W: Write>(out: &mut W, alloc: Global) -> io::Result<()> {
    if let Ok(layouts) = read_layouts(alloc, layouts_text()) {
        writeln!(
            out,
            "clicks {}, classes {}",
            layouts.clicks.len(),
            layouts.classes.len()
        )?;
    }
    if let Ok(declaration) = read_declaration(alloc, declaration_text()) {
        writeln!(out, "pairs {}", declaration.pairs.len())?;
    }
    Ok(())
}

fn tell_lists<W: Write>(out: &mut W, alloc: Global) -> io::Result<()> {
    let Ok(read) = read_lists(alloc, lists_text()) else {
        return writeln!(out, "no lists");
    };
    let lists = &read.lists;
    let (classes, methods) = (lists.classes.len(), lists.methods.len());
    let callbacks = lists.callbacks.len();
    writeln!(
        out,
        "rows {}, classes {classes}, methods {methods}, callbacks {callbacks}",
        lists.rows
    )
}

/// The lines in which the lists differ from the sample lists of the file.
fn compare<W: Write>(out: &mut W, sample: &str) -> io::Result<()> {
    let Ok(made) = from_utf8(lists_text()) else {
        return writeln!(out, "no text");
    };
    let mut lines = made.split("\n");
    for wanted in sample.split("\n") {
        let found = lines.next().unwrap_or("nothing");
        if wanted != found {
            writeln!(out, "{found} in place of {wanted}")?;
        }
    }
    let mut behind: u64 = 0;
    for _ in lines {
        behind = behind.saturating_add(1);
    }
    writeln!(out, "lines behind: {behind}")
}

/// Reads the forms and tells what they say.
pub fn read_all<R: Files + AllocGlobal, W: Write>(rt: &R, out: &mut W) -> io::Result<()> {
    tell_manifest(out, rt.alloc())?;
    tell_empty(out, rt.alloc())?;
    tell_lists(out, rt.alloc())?;
    let sample = fs::read_to_string(rt, "lists.toml")?;
    compare(out, sample.as_str())
}
