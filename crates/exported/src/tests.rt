// The worked tile by way of the exported calls.
use crate::projecting::mojette_project;
use crate::reading::{mojette_ask, mojette_read};
use crate::rebuilding::mojette_rebuild;
use mojette::{Record, Refusal};
use samples::SumWord;
use source::Sizes;

const FILE: &[u8] =
    b"(tile sum 2 2)\n(dir 1 1 (bins 0002 0005 0003))\n(dir 0 1 (lost 4))\n(dir -1 1 (bins 0004 0005 0001))\n(end)\n";

fn word(value: u16) -> SumWord {
    SumWord { value }
}

fn refusal(number: usize, first: usize) -> Refusal {
    Refusal {
        number,
        first,
        second: 0,
        third: 0,
    }
}

#[test]
fn a_picture_without_a_recorder(rt: HostRuntime) {
    let records = [
        Record::new(1, 1, 0),
        Record::new(0, 1, 4),
        Record::new(-1, 1, 0),
    ];
    let run = [
        word(2),
        word(5),
        word(3),
        word(0),
        word(0),
        word(4),
        word(5),
        word(1),
    ];
    let mut picture = [word(7); 5];
    let mut sums = [word(7); 9];
    let (mut marks, mut counts, mut queue) = ([7; 4], [7; 8], [7; 8]);
    let mut told = refusal(1, 1);
    let pixels = mojette_rebuild(
        2,
        2,
        &records,
        &run,
        &mut picture,
        &mut marks,
        &mut sums,
        &mut counts,
        &mut queue,
        &mut told,
    );
    assert_eq!(rt; (pixels, told), (4, refusal(0, 0)));
    assert_eq!(rt; picture.map(|word| word.value), [1, 2, 3, 4, 7]);
    assert_eq!(rt; sums.map(|word| word.value), [0, 0, 0, 0, 0, 0, 0, 0, 7]);
}

#[test]
fn a_file_is_read(rt: HostRuntime) {
    let mut sizes = Sizes {
        columns: 7,
        rows: 7,
        places: 7,
    };
    let mut records = [Record::new(7, 7, 7); 4];
    let mut told = refusal(1, 1);
    let places = mojette_read(FILE, &mut sizes, &mut records, &mut told);
    assert_eq!(rt; (places, told), (3, refusal(0, 0)));
    assert_eq!(rt; (sizes.columns, sizes.rows, sizes.places), (2, 2, 3));
    assert_eq!(rt;
        (records[1], records[3]),
        (Record::new(0, 1, 4), Record::new(7, 7, 7))
    );
}

#[test]
fn a_file_is_asked(rt: HostRuntime) {
    let mut sums = [word(7); 9];
    let mut told = refusal(1, 1);
    let bins = mojette_ask(FILE, &mut sums, &mut told);
    assert_eq!(rt; (bins, told), (8, refusal(0, 0)));
    assert_eq!(rt; sums.map(|word| word.value), [2, 5, 3, 0, 0, 4, 5, 1, 7]);
}

#[test]
fn a_picture_is_projected(rt: HostRuntime) {
    let picture = [word(1), word(2), word(3), word(4)];
    let mut sums = [word(7); 3];
    let mut told = refusal(1, 1);
    let bins = mojette_project(2, 2, 0, 1, &picture, &mut sums, &mut told);
    assert_eq!(rt; (bins, told), (2, refusal(0, 0)));
    assert_eq!(rt; sums.map(|word| word.value), [6, 4, 7]);
}
