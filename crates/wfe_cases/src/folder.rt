// Reads the cases of a folder, in the order of their names.
use crate::case::{Case, Kind};
use std::alloc::AllocError;
use std::rt::Files;
use std::{fs, io};

// The name of a file without its ending, where it has that ending.
fn stem<'a>(file: &'a str, ending: &str) -> Option<&'a str> {
    match file.rsplit_once('.') {
        Some((name, found)) if found == ending => Some(name),
        _ => None,
    }
}

// The name of the case that has this file: that before one of the two endings, or that of another file whole, which is a case without
// files.
fn case_of<'a>(file: &'a str, kind: &Kind) -> &'a str {
    match stem(file, kind.due) {
        Some(name) => name,
        None => stem(file, kind.input).unwrap_or(file),
    }
}

// The names of the cases, one for each file.
fn names_in<R: Files + AllocGlobal + Clone + Drop>(rt: &R, kind: &Kind) -> io::Result<Vec<String>> {
    let mut names: Vec<String> = Vec::new(rt.alloc());
    for entry in fs::read_dir(rt, kind.folder)? {
        let entry = entry?;
        let name = case_of(entry.file_name(), kind);
        names.push(String::from_str(rt.alloc(), name)?)?;
    }
    Ok(names)
}

// The names in order, each once.
fn each_once(mut names: Vec<String>) -> Result<Vec<String>, AllocError> {
    names.sort()?;
    names.dedup();
    Ok(names)
}

// The bytes of a file, or none where there is no such file.
fn bytes_of<R: Files + AllocGlobal>(
    rt: &R,
    folder: &str,
    name: &str,
    ending: &str,
) -> io::Result<Option<Vec<u8>>> {
    let path = format!(in rt.alloc(); "{folder}/{name}.{ending}")?;
    if !fs::exists(rt, path.as_str())? {
        return Ok(None);
    }
    Ok(Some(fs::read(rt, path.as_str())?))
}

/// The cases of a folder.
pub fn cases_in<R: Files + AllocGlobal + Clone + Drop>(
    rt: &R,
    kind: &Kind,
) -> io::Result<Vec<Case>> {
    let mut cases = Vec::new(rt.alloc());
    for name in each_once(names_in(rt, kind)?)? {
        let input = bytes_of(rt, kind.folder, name.as_str(), kind.input)?;
        let due = bytes_of(rt, kind.folder, name.as_str(), kind.due)?;
        cases.push(Case { name, input, due })?;
    }
    Ok(cases)
}
