// tiles rebuild [FILE].. [--pgm OUT]

use crate::files::{complain, read_file, read_input};
use answers::answer::{MOST_OUTPUT, answer};
use clap::ArgMatches;
use reports::{picture_file, remark};
use std::io::Write;
use std::{fs, io};

/// Writes the picture of a listing; where it shows none of sum words, that is told. It answers
/// whether it was written.
fn write_picture(rt: &HostRuntime, listing: &[u8], path: &str) -> io::Result<bool> {
    let Some(file) = picture_file(rt.alloc(), listing)? else {
        eprintln!(rt; "{path}: not written, since there is no picture of sum words")?;
        return Ok(false);
    };
    if let Err(error) = fs::write(rt, path, &file) {
        complain(rt, path, &error)?;
        return Ok(false);
    }
    Ok(true)
}

/// The listing of a text on standard output, and what people should know of it on standard error.
fn rebuild(rt: &HostRuntime, name: &str, text: &[u8], pgm: Option<&str>) -> io::Result<bool> {
    let mut out = [0; MOST_OUTPUT];
    let Ok(len) = answer(text, &mut out) else {
        unreachable()
    };
    let listing = &out[..len];
    rt.stdout().write_all(listing)?;
    let remark = remark(rt.alloc(), text, listing)?;
    if !remark.is_empty() {
        eprint!(rt; "{name}: {remark}")?;
    }
    match pgm {
        Some(path) => write_picture(rt, listing, path),
        None => Ok(true),
    }
}

/// The same for a file. One that cannot be read is told.
fn rebuild_file(rt: &HostRuntime, path: &str, pgm: Option<&str>) -> io::Result<bool> {
    match read_file(rt, path) {
        Ok(text) => rebuild(rt, path, &text, pgm),
        Err(error) => {
            complain(rt, path, &error)?;
            Ok(false)
        }
    }
}

/// All files, one after another. It answers whether all were done.
pub(crate) fn run(rt: &HostRuntime, matches: &ArgMatches) -> anyhow::Result<bool> {
    let paths = matches.get_strs("file").unwrap_or(&[]);
    let pgm = matches.get_str("pgm");
    if paths.is_empty() {
        let text = read_input(rt)?;
        return Ok(rebuild(rt, "standard input", &text, pgm)?);
    }
    if pgm.is_some() && paths.len() > 1 {
        anyhow::bail!("--pgm takes one file");
    }
    let mut all = true;
    for path in paths {
        if !rebuild_file(rt, path, pgm)? {
            all = false;
        }
    }
    Ok(all)
}
