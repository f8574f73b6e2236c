// What is told of a shape that is asked about.
ghost use Rattle.std.specs.Prelude.{◌≡◌, string_bytes, IfOk};
ghost use Rattle.mojette.specs.Faults.{refusal_of};
ghost use Rattle.format.specs.Listing.{refusal_text};
ghost use Rattle.reports.specs.Checks.{Checks};

use crate::criterion::criterion_report;
use crate::remarks::sentence_line;
use mojette::{Fault, Record, Refusal};
use plan::Plan;
use std::alloc::{AllocError, Global};

/// A listing, and a sentence for people, which may be empty.
#[derive(Drop)]
pub struct Report {
    pub listing: String,
    pub remark: String,
}

/// The listing of a refusal.
fn refusal_line(alloc: Global, fault: Fault) -> Result<String, AllocError>
    ensures { IfOk result (λ s. string_bytes s ≡ refusal_text (refusal_of fault)) }
{
    let refusal = Refusal::from(fault);
    format!(in alloc; "({refusal})\n")
}

/// Whether Katz's criterion holds for a size and for directions, and which places could be spared;
/// or the refusal, with its sentence.
pub fn checked(
    alloc: Global,
    columns: usize,
    rows: usize,
    records: &[Record],
) -> Result<Report, AllocError>
    ensures { IfOk result (λ r.
        Checks (record { P = columns; Q = rows; records = records.now })
        (string_bytes r.listing) (string_bytes r.remark)) }
{
    match Plan::of(columns, rows, records) {
        Ok(plan) => {
            let listing = criterion_report(alloc, &plan)?;
            Ok(Report {
                listing,
                remark: String::new(alloc),
            })
        }
        Err(fault) => {
            let listing = refusal_line(alloc, fault)?;
            let remark = sentence_line(alloc, fault, records)?;
            Ok(Report { listing, remark })
        }
    }
}
