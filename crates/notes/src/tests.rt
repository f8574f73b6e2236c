// Notes of a tile of two by two pixels, by hand: cells 0 and 1 above, 2 and 3 below.

use crate::note::Note;
use crate::noting::note_bins;
use mojette::{MOST_POSITIONS, Record};
use plan::Plan;
use samples::Kind;

// The pixels told by the note at a position, and the sum of their cells.
fn told(cause: u8, at: usize) -> (usize, usize) {
    let records = [
        Record::new(1, 1, 0),
        Record::new(0, 1, cause),
        Record::new(-1, 1, 0),
    ];
    let mut notes = [Note { value: 9 }; MOST_POSITIONS];
    match Plan::of(2, 2, &records) {
        Ok(plan) => {
            note_bins(&plan, &mut notes);
            (
                notes[at % MOST_POSITIONS].pixels(),
                notes[at % MOST_POSITIONS].cell(),
            )
        }
        Err(_) => (0, 99),
    }
}

#[test]
fn bins_noted_by_hand(rt: HostRuntime) {
    // to the lower right, straight down, to the lower left
    let wanted = [
        (1, 1),
        (2, 0 + 3),
        (1, 2),
        (2, 1 + 3),
        (2, 0 + 2),
        (1, 3),
        (2, 1 + 2),
        (1, 0),
    ];
    for (at, note) in wanted.iter().enumerate() {
        assert_eq!(rt; told(0, at), *note);
    }
}

#[test]
fn lost_bins_stand_for_none(rt: HostRuntime) {
    assert_eq!(rt; told(3, 2), (1, 2));
    assert_eq!(rt; told(3, 3), (0, 0));
    assert_eq!(rt; told(3, 4), (0, 0));
    assert_eq!(rt; told(3, 5), (1, 3));
}

#[test]
fn the_last_one_is_told(rt: HostRuntime) {
    let zero = <Note as Kind>::zero_sample();
    let both = zero.add(Note::of_cell(4_095)).add(Note::of_cell(17));
    let left = both.add(Note::of_cell(17).negate());
    assert_eq!(rt; both.pixels(), 2);
    assert_eq!(rt; (left.pixels(), left.cell()), (1, 4_095));
    assert!(rt; left.same(Note::of_cell(4_095)));
    assert!(rt; left.add(Note::of_cell(4_095).negate()).same(zero));
}
