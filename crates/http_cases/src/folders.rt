//! Lists the folders and files of the golden tests.
use std::alloc::Global;
use std::{fs, io};

/// Returns the names of the files and subfolders in a folder, sorted.
pub(crate) fn names_in(rt: &HostRuntime, folder: &str) -> io::Result<Vec<String>> {
    let mut names = Vec::new(rt.alloc());
    for entry in fs::read_dir(rt, folder)? {
        names.push(text_of(rt.alloc(), entry?.file_name())?)?;
    }
    names.sort()?;
    Ok(names)
}

/// Returns the paths of the subfolders of a folder, sorted.
pub(crate) fn folders_in(rt: &HostRuntime, folder: &str) -> io::Result<Vec<String>> {
    let mut paths = Vec::new(rt.alloc());
    for entry in fs::read_dir(rt, folder)? {
        let entry = entry?;
        if entry.file_type()?.is_dir() {
            paths.push(text_of(rt.alloc(), entry.path().as_str())?)?;
        }
    }
    paths.sort()?;
    Ok(paths)
}

fn text_of(alloc: Global, text: &str) -> io::Result<String> {
    Ok(String::from_str(alloc, text)?)
}
