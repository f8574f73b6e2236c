// tiles explain FILE | N A B C

use crate::files::{complain, read_file};
use answers::answer::MOST_BYTES;
use clap::ArgMatches;
use mojette::{Fault, Refusal};
use reports::{explained, sentence_line, told_line};
use std::io;
use std::io::Write;

/// What a refusal tells, by its number and values.
fn explain_refusal(rt: &HostRuntime, refusal: Refusal) -> io::Result<bool> {
    match told_line(rt.alloc(), refusal)? {
        Some(line) => {
            print!(rt; "{line}")?;
            Ok(true)
        }
        None => {
            eprintln!(rt; "({refusal}): there is no such refusal; docs/REFUSALS.md lists them")?;
            Ok(false)
        }
    }
}

/// What is wrong with a file, if anything is.
fn explain_file(rt: &HostRuntime, path: &str) -> io::Result<bool> {
    let text = match read_file(rt, path) {
        Ok(text) => text,
        Err(error) => {
            complain(rt, path, &error)?;
            return Ok(false);
        }
    };
    if text.len() > MOST_BYTES {
        let line = sentence_line(rt.alloc(), Fault::Oversize, &[])?;
        print!(rt; "{line}")?;
    } else {
        rt.stdout().write_all(&explained(rt.alloc(), &text)?)?;
    }
    Ok(true)
}

/// The number in a word; 0 where there is no word.
fn number_in(word: Option<&&str>) -> anyhow::Result<usize> {
    match word {
        Some(word) => match word.parse::<usize>() {
            Ok(number) => Ok(number),
            Err(_) => anyhow::bail!("{word}: not a number"),
        },
        None => Ok(0),
    }
}

pub(crate) fn run(rt: &HostRuntime, matches: &ArgMatches) -> anyhow::Result<bool> {
    let words = matches.get_strs("what").unwrap_or(&[]);
    match words {
        [] => Ok(false),
        [path] if path.parse::<usize>().is_err() => Ok(explain_file(rt, path)?),
        _ => {
            let refusal = Refusal {
                number: number_in(words.get(0))?,
                first: number_in(words.get(1))?,
                second: number_in(words.get(2))?,
                third: number_in(words.get(3))?,
            };
            Ok(explain_refusal(rt, refusal)?)
        }
    }
}
