//! A folder of scripts, each beside its answers.

use crate::replays::{Tally, is_same};
use std::{fs, io};

/// Replays each NAME.script of a folder, also with no LF at its end, and looks that it answers what
/// is in NAME.out. A file of another name, or a NAME.out with no script, counts as one that
/// differs.
pub(crate) fn replay_folder(rt: &HostRuntime, folder: &str) -> io::Result<Tally> {
    let mut tally = Tally::new();
    for entry in fs::read_dir(rt, folder)? {
        let entry = entry?;
        let file = entry.file_name();
        match file.rsplit_once('.') {
            Some((name, "script")) => tally.count(is_answered(rt, folder, name)?),
            Some((name, "out")) if is_there(rt, folder, name)? => {}
            _ => {
                println!(rt; "{folder}/{file} is no script, and no script's answers")?;
                tally.count(false);
            }
        }
    }
    Ok(tally)
}

/// Tells whether there is a script of this name.
fn is_there(rt: &HostRuntime, folder: &str, name: &str) -> io::Result<bool> {
    let file = format!(in rt.alloc(); "{folder}/{name}.script")?;
    fs::exists(rt, file.as_str())
}

/// Replays a script with and without the LF at its end, and tells whether it is answered so.
fn is_answered(rt: &HostRuntime, folder: &str, name: &str) -> io::Result<bool> {
    let name = format!(in rt.alloc(); "{folder}/{name}")?;
    let file = format!(in rt.alloc(); "{name}.script")?;
    let script = fs::read(rt, file.as_str())?;
    let file = format!(in rt.alloc(); "{name}.out")?;
    let answers = fs::read(rt, file.as_str())?;
    let name = name.as_str();
    if !is_same(rt, name, &script, &answers)? {
        return Ok(false);
    }
    match script.strip_suffix(b"\n") {
        Some(unended) => is_same(rt, name, unended, &answers),
        None => Ok(true),
    }
}
