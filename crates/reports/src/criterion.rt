// Katz's criterion for people: whether it holds, and which places could be spared.
ghost use Rattle.std.specs.Prelude.{◌≡◌, ◌++◌, ◌∷◌, decimal, slice_get, string_bytes, IfOk, OnOk};
ghost use Rattle.std.specs.List.{flat_map};
ghost use Rattle.plan.specs.Shapes.{shape, places_of};
ghost use Rattle.reports.specs.Spares.{part_of, could_spare, spares, places_words, verdict_words, reach_words, criterion_text, is_lost, lost_places, ghost_words};

use plan::Plan;
use samples::SumWord;
use std::alloc::{AllocError, Global};
use std::fmt::Write;

/// What place i adds to C and R: |p| and q where it is whole, else nothing.
fn part_of(plan: &Plan, i: usize) -> (usize, usize)
    ensures { result ≡ part_of (slice_get (places_of plan.now) i) }
{
    match plan.places().get(i) {
        Some(place) => {
            if place.is_whole() {
                (place.slope, place.q)
            } else {
                (0, 0)
            }
        }
        None => (0, 0),
    }
}

/// Whether the criterion holds for the plan without place i.
pub fn could_spare(plan: &Plan, i: usize) -> bool
    ensures { result ≡ could_spare (shape plan.now) i }
{
    let criterion = plan.criterion::<SumWord>();
    let (across, down) = part_of(plan, i);
    let columns = criterion.columns.saturating_sub(across);
    let rows = criterion.rows.saturating_sub(down);
    plan.columns() <= columns || plan.rows() <= rows
}

/// The places without any single one of which the criterion still holds.
pub fn spares(alloc: Global, plan: &Plan) -> Result<Vec<usize>, AllocError>
    ensures { IfOk result (λ v. v.items ≡ spares (shape plan.now)) }
{
    (0..plan.count())
        .filter(|i| could_spare(plan, *i))
        .collect(alloc)
}

/// Numbers, each after a space.
fn push_numbers(text: &mut String, numbers: &[usize]) -> Result<(), AllocError>
    ensures { OnOk result
        (string_bytes text.new ≡ string_bytes text.old ++ flat_map (λ n. 32 ∷ decimal n) numbers.now) }
{
    for number in numbers {
        write!(text, " {number}")?;
    }
    Ok(())
}

/// The same, or that there are none.
pub(crate) fn push_places(text: &mut String, places: &[usize]) -> Result<(), AllocError>
    ensures { OnOk result (string_bytes text.new ≡ string_bytes text.old ++ places_words places.now) }
{
    if places.is_empty() {
        text.push_str(" none")
    } else {
        push_numbers(text, places)
    }
}

fn verdict_words(enough: bool) -> &'static str
    ensures { result.now ≡ verdict_words enough }
{
    if enough { "enough" } else { "too few" }
}

/// Whether the criterion holds, with C beside P, and R beside Q.
pub(crate) fn reach_line(alloc: Global, plan: &Plan) -> Result<String, AllocError>
    ensures { IfOk result (λ s. string_bytes s ≡ reach_words (shape plan.now)) }
{
    let criterion = plan.criterion::<SumWord>();
    let verdict = verdict_words(criterion.enough);
    let (c, r) = (criterion.columns, criterion.rows);
    let (p, q) = (plan.columns(), plan.rows());
    let mut line = format!(in alloc; "{verdict}: C {c} for P {p}")?;
    write!(line, ", R {r} for Q {q}\n")?;
    Ok(line)
}

/// What is told of a plan: the line above, and the places that could be spared.
pub fn criterion_report(alloc: Global, plan: &Plan) -> Result<String, AllocError>
    ensures { IfOk result (λ s. string_bytes s ≡ criterion_text (shape plan.now)) }
{
    let mut text = reach_line(alloc, plan)?;
    text.push_str("could be spared, one at a time:")?;
    let spares = spares(alloc, plan)?;
    push_places(&mut text, &spares)?;
    text.push_str("\n")?;
    Ok(text)
}

/// Whether place i is lost.
fn is_lost(plan: &Plan, i: usize) -> bool
    ensures { result ≡ is_lost (slice_get (places_of plan.now) i) }
{
    match plan.places().get(i) {
        Some(place) => !place.is_whole(),
        None => false,
    }
}

/// The places that are lost.
fn lost(alloc: Global, plan: &Plan) -> Result<Vec<usize>, AllocError>
    ensures { IfOk result (λ v. v.items ≡ lost_places (shape plan.now) (places_of plan.now)) }
{
    (0..plan.count())
        .filter(|i| is_lost(plan, *i))
        .collect(alloc)
}

/// What is told of a plan whose whole places are too few: how far they reach, and which places are
/// lost. Else nothing.
pub fn ghost_report(alloc: Global, plan: &Plan) -> Result<String, AllocError>
    ensures { IfOk result (λ s. string_bytes s ≡ ghost_words (shape plan.now) (places_of plan.now)) }
{
    if plan.criterion::<SumWord>().enough {
        return Ok(String::new(alloc));
    }
    let mut text = reach_line(alloc, plan)?;
    text.push_str("lost places:")?;
    let lost = lost(alloc, plan)?;
    push_places(&mut text, &lost)?;
    text.push_str("\n")?;
    Ok(text)
}
