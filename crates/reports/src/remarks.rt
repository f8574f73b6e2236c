// What is told beside a listing, and of a text by itself.
ghost use Rattle.std.specs.Prelude.{◌≡◌, [], ◌++◌, string_bytes, IfOk};
ghost use Rattle.std.specs.Option.{option_map};
ghost use Rattle.plan.specs.Shapes.{shape};
ghost use Rattle.reports.specs.Faults.{fault_told};
ghost use Rattle.reports.specs.Remarks.{sentence_line, mark_under, lawful_words, Explains, fault_listed, Remarks};

use crate::criterion::ghost_report;
use crate::faults::fault_of;
use crate::listing::refusal_in;
use crate::marks::marked;
use crate::sentence::Sentence;
use crate::shapes::plan_of_text;
use mojette::{Fault, Record, Refusal};
use plan::Plan;
use std::alloc::{AllocError, Global};
use std::fmt::Write;

/// The sentence of a fault, with a line end.
pub fn sentence_line(alloc: Global, fault: Fault, records: &[Record]) -> Result<String, AllocError>
    ensures { IfOk result (λ s. string_bytes s ≡ sentence_line records.now fault) }
{
    let sentence = Sentence { fault, records };
    format!(in alloc; "{sentence}\n")
}

/// The fault that a listing tells, if it tells one.
fn fault_in(listing: &[u8]) -> Option<Fault>
    ensures { result ≡ fault_listed listing.now }
{
    fault_of(refusal_in(listing)?)
}

/// What is told beside the listing of a text: of a refusal its sentence; of a ghost how far the
/// whole places reach, and which are lost; else nothing.
pub fn remark(alloc: Global, text: &[u8], listing: &[u8]) -> Result<String, AllocError>
    ensures { IfOk result (λ s. Remarks text.now listing.now (string_bytes s)) }
{
    match fault_in(listing) {
        Some(fault) => sentence_line(alloc, fault, &[]),
        None => match plan_of_text(text) {
            Ok(plan) => ghost_report(alloc, &plan),
            Err(_) => Ok(String::new(alloc)),
        },
    }
}

/// The line of a refusal by its number and values, if there is such a refusal.
pub fn told_line(alloc: Global, refusal: Refusal) -> Result<Option<String>, AllocError>
    ensures { IfOk result (λ line.
        option_map string_bytes line ≡ option_map (sentence_line []) (fault_told refusal)) }
{
    match fault_of(refusal) {
        Some(fault) => {
            let line = sentence_line(alloc, fault, &[])?;
            Ok(Some(line))
        }
        None => Ok(None),
    }
}

/// The wrong line of a text that is no file, with its mark.
fn mark_under(alloc: Global, text: &[u8], fault: Fault) -> Result<Vec<u8>, AllocError>
    ensures { IfOk result (λ v. v.items ≡ mark_under text.now fault) }
{
    match fault {
        Fault::NoFile(file) => marked(alloc, text, file.text.byte),
        _ => Ok(Vec::new(alloc)),
    }
}

/// What is told of a file.
fn lawful_line(alloc: Global, plan: &Plan) -> Result<Vec<u8>, AllocError>
    ensures { IfOk result (λ v. v.items ≡ lawful_words (shape plan.now)) }
{
    let (columns, rows, count) = (plan.columns(), plan.rows(), plan.count());
    let mut line = format!(in alloc; "a lawful file: {columns} columns")?;
    write!(line, ", {rows} rows, {count} places\n")?;
    Vec::from_slice(alloc, line.as_bytes())
}

/// Why a text is no file, with the wrong line.
fn wrong_lines(alloc: Global, text: &[u8], fault: Fault) -> Result<Vec<u8>, AllocError>
    ensures { IfOk result (λ v. v.items ≡ sentence_line [] fault ++ mark_under text.now fault) }
{
    let line = sentence_line(alloc, fault, &[])?;
    let mut lines = Vec::from_slice(alloc, line.as_bytes())?;
    let mark = mark_under(alloc, text, fault)?;
    lines.extend_from_slice(&mark)?;
    Ok(lines)
}

/// What is told of a text: what it is the file of; or why it is no file, with the wrong line and a
/// mark under the wrong token.
pub fn explained(alloc: Global, text: &[u8]) -> Result<Vec<u8>, AllocError>
    ensures { IfOk result (λ v. Explains text.now v.items) }
{
    match plan_of_text(text) {
        Ok(plan) => lawful_line(alloc, &plan),
        Err(fault) => wrong_lines(alloc, text, fault),
    }
}
