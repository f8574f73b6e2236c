// Files that are read and asked, and damaged texts. The faults are worked out by hand from docs/FORMAT.md.
use crate::bracket_file::BracketFile;
use crate::kind_name::KindName;
use crate::naming::kind_of;
use mojette::Refusal;
use samples::{Coded, Pair, SumWord, XorWord};
use source::{Source, plan_of};
use std::alloc::{AllocError, Global};
use std::test::Fail;

// Its lines begin at bytes 0, 15, 47, 66 and 99, and it ends at 105.
const FILE: &[u8] =
    b"(tile sum 2 2)\n(dir 1 1 (bins 0002 0005 0003))\n(dir 0 1 (lost 4))\n(dir -1 1 (bins 0004 0005 0001))\n(end)\n";

// A line, a byte and a reason; zeros for a file.
fn read<K: Coded>(text: &[u8]) -> (usize, usize, usize) {
    match BracketFile::<K>::read(text) {
        Ok(_) => (0, 0, 0),
        Err(fault) => {
            let told = Refusal::from(fault);
            (told.first, told.second, told.third)
        }
    }
}

// The file with `put` in place of so many of its bytes.
fn damaged(alloc: Global, at: usize, cut: usize, put: &str) -> Result<Vec<u8>, AllocError> {
    let mut text = Vec::new(alloc);
    text.extend_from_slice(&FILE[..at.min(FILE.len())])?;
    text.extend_from_slice(put.as_bytes())?;
    text.extend_from_slice(&FILE[at.saturating_add(cut).min(FILE.len())..])?;
    Ok(text)
}

// A byte of the file, how many bytes are cut there, what is put in their place, and the fault; zeros for a file.
const DAMAGES: [(usize, usize, &str, (usize, usize, usize)); 87] = [
    // the first line
    (0, 105, "", (1, 0, 0)),
    (0, 0, " ", (1, 0, 0)),
    (0, 1, "[", (1, 0, 0)),
    (1, 4, "tiles", (1, 1, 0)),
    (5, 1, "  ", (1, 6, 0)),
    (5, 1, "\t", (1, 1, 0)),
    (5, 1, ")", (1, 5, 0)),
    (6, 3, "xor", (1, 6, 0)),
    (6, 3, "", (1, 6, 0)),
    (9, 1, ")", (1, 9, 0)),
    (10, 1, "0", (1, 10, 1)),
    (10, 1, "65", (1, 10, 1)),
    (10, 1, "-5", (1, 10, 1)),
    (10, 1, "99999999999999999999999999", (1, 10, 1)),
    (10, 1, "02", (1, 10, 0)),
    (10, 1, "+2", (1, 10, 0)),
    (10, 1, "-0", (1, 10, 0)),
    (10, 1, "-", (1, 10, 0)),
    (10, 1, "(", (1, 10, 0)),
    (11, 1, "\n", (1, 11, 0)),
    (12, 1, "65", (1, 12, 1)),
    (12, 1, "2\u{e9}", (1, 12, 0)),
    (13, 1, " )", (1, 13, 0)),
    (14, 1, " \n", (1, 14, 0)),
    (14, 1, "\r\n", (1, 14, 0)),
    (14, 1, "\n\n", (2, 15, 0)),
    // a line with bins
    (15, 1, "", (2, 15, 0)),
    (16, 3, "end", (2, 16, 2)),
    (16, 3, "row", (2, 16, 0)),
    (19, 1, "", (2, 16, 0)),
    (19, 1, "(", (2, 19, 0)),
    (20, 1, "8", (2, 20, 3)),
    (20, 1, "-8", (2, 20, 3)),
    (20, 1, "-0", (2, 20, 0)),
    (20, 1, "01", (2, 20, 0)),
    (21, 1, "\n", (2, 21, 0)),
    (21, 1, "  ", (2, 22, 0)),
    (22, 1, "8", (2, 22, 3)),
    (22, 1, "-1", (2, 22, 3)),
    (22, 1, "x", (2, 22, 0)),
    (20, 3, "2 2", (2, 22, 3)),
    (20, 3, "0 3", (2, 22, 3)),
    (20, 3, "-1 0", (2, 23, 3)),
    (23, 1, ")", (2, 23, 0)),
    (24, 1, "[", (2, 24, 0)),
    (25, 4, "lost", (2, 30, 0)),
    (25, 4, "bin", (2, 25, 0)),
    (29, 1, ")", (2, 29, 0)),
    (30, 4, "00a2", (2, 30, 0)),
    (30, 4, "002", (2, 30, 0)),
    (30, 4, "00002", (2, 30, 0)),
    (30, 4, "", (2, 30, 0)),
    (30, 4, ")", (2, 30, 0)),
    (30, 4, "000\t", (2, 30, 0)),
    (34, 1, "", (2, 30, 0)),
    (34, 1, "\n", (2, 34, 0)),
    (35, 4, "(", (2, 35, 0)),
    (39, 5, "", (2, 39, 0)),
    (44, 0, " 0001", (2, 44, 0)),
    (44, 1, "", (2, 45, 0)),
    (45, 1, "))", (2, 46, 0)),
    (46, 1, " \n", (2, 46, 0)),
    // a line with a cause
    (47, 1, "\n", (3, 47, 0)),
    (52, 1, "1", (3, 54, 4)),
    (52, 3, "2 2", (3, 54, 3)),
    (52, 3, "7 1", (3, 54, 4)),
    (56, 1, "", (3, 56, 0)),
    (57, 4, "bins", (3, 62, 0)),
    (57, 4, "last", (3, 57, 0)),
    (61, 1, "\n", (3, 61, 0)),
    (62, 1, "0", (3, 62, 0)),
    (62, 1, "256", (3, 62, 0)),
    (62, 1, "-4", (3, 62, 0)),
    (62, 1, "04", (3, 62, 0)),
    (63, 0, " 5", (3, 63, 0)),
    (64, 1, "", (3, 64, 0)),
    (65, 1, "", (3, 65, 0)),
    // a line after both, and the last one
    (66, 33, "(end)\n", (5, 72, 0)),
    (71, 4, "0 1", (4, 73, 4)),
    (74, 1, "0", (4, 74, 3)),
    (99, 6, "", (5, 99, 0)),
    (100, 3, "End", (5, 100, 0)),
    (103, 1, "(", (5, 103, 0)),
    (104, 1, "", (5, 104, 0)),
    (105, 0, "\n", (6, 105, 0)),
    (105, 0, "x", (6, 105, 0)),
    (105, 0, "", (0, 0, 0)),
];

#[test]
fn damaged_texts(rt: HostRuntime) -> Result<(), Fail> {
    for (at, cut, put, want) in DAMAGES {
        let text = damaged(rt.alloc(), at, cut, put)?;
        assert_eq!(rt; read::<SumWord>(text.as_slice()), want, "{put} at {at}");
    }
    Ok(())
}

// The words of more than one byte, each by its first byte and the byte after it, and the ends of the lines.
const WORDS: [(usize, usize); 16] = [
    (1, 5),
    (6, 9),
    (16, 19),
    (25, 29),
    (30, 34),
    (35, 39),
    (40, 44),
    (48, 51),
    (57, 61),
    (67, 70),
    (71, 73),
    (77, 81),
    (82, 86),
    (87, 91),
    (92, 96),
    (100, 103),
];

const LINE_ENDS: [usize; 5] = [14, 46, 65, 98, 104];

// A text that is cut is wrong where it ends, or at the word that is cut.
fn fault_of_cut(end: usize) -> (usize, usize, usize) {
    let word = WORDS.iter().find(|word| word.0 < end && end < word.1);
    let byte = word.map_or(end, |word| word.0);
    let lines = LINE_ENDS
        .iter()
        .filter(|line_end| **line_end < byte)
        .count();
    (1 + lines, byte, 0)
}

#[test]
fn cut_texts(rt: HostRuntime) {
    for end in 0..FILE.len() {
        let text = FILE.get(..end).unwrap_or(FILE);
        assert_eq!(rt; read::<SumWord>(text), fault_of_cut(end), "cut at {end}");
    }
}

// Sixteen places, in a tile of one pixel: a line for each, of 19 bytes, or of 20 where p is negative.
const PLACES: &str =
    "(tile sum 1 1)\n(dir 1 0 (lost 1))\n(dir 7 1 (lost 1))\n(dir 6 1 (lost 1))\n(dir 5 1 (lost 1))\n(dir 4 1 (lost 1))\n(dir 3 1 (lost 1))\n(dir 2 1 (lost 1))\n(dir 1 1 (lost 1))\n(dir 0 1 (lost 1))\n(dir -1 1 (lost 1))\n(dir -2 1 (lost 1))\n(dir -3 1 (lost 1))\n(dir -4 1 (lost 1))\n(dir -5 1 (lost 1))\n(dir -6 1 (lost 1))\n(dir -7 1 (lost 1))\n";

#[test]
fn no_room_for_a_seventeenth(rt: HostRuntime) -> Result<(), Fail> {
    for (last, want) in [
        ("(end)\n", (0, 0, 0)),
        ("(dir -7 1 (lost 1))\n(end)\n", (18, 327, 2)),
        ("(row", (18, 327, 0)),
    ] {
        let mut text = Vec::new(rt.alloc());
        text.extend_from_slice(PLACES.as_bytes())?;
        text.extend_from_slice(last.as_bytes())?;
        assert_eq!(rt; read::<SumWord>(text.as_slice()), want, "{last}");
    }
    Ok(())
}

// What a file says of place i and of its bin b: 0 and the sum, or a refusal's number and its first value.
fn asked(file: &BracketFile<SumWord>, i: usize, b: usize) -> (usize, usize) {
    match file.bin(i, b) {
        Ok(sum) => (0, sum.value as usize),
        Err(fault) => {
            let told = Refusal::from(fault);
            (told.number, told.first)
        }
    }
}

#[test]
fn a_file_is_asked(rt: HostRuntime) -> Result<(), Fail> {
    let file = BracketFile::<SumWord>::read(FILE).ok().ok_or("refused")?;
    let sizes = file.sizes();
    assert_eq!(rt; (sizes.columns, sizes.rows, sizes.places), (2, 2, 3));
    assert_eq!(rt; asked(&file, 0, 1), (0, 5));
    assert_eq!(rt; asked(&file, 2, 2), (0, 1));
    assert_eq!(rt; asked(&file, 2, 3), (18, 0));
    assert_eq!(rt; asked(&file, 1, 9), (17, 4));
    assert_eq!(rt; asked(&file, 3, 9), (16, 0));
    let place = file.place(2).ok().ok_or("no place")?;
    assert_eq!(rt;
        (place.direction.p, place.direction.q, place.cause),
        (-1, 1, 0)
    );
    assert!(rt; file.place(3).is_err());
    assert!(rt; plan_of(&file).is_ok());
    assert_eq!(rt; file.text().len(), 105);
    Ok(())
}

#[test]
fn kinds_by_name(rt: HostRuntime) {
    for (text, want) in [
        ("(tile sum 2 2)\n", Some(KindName::Sum)),
        ("(tile xor", Some(KindName::Xor)),
        ("(tile pair)", Some(KindName::Pair)),
        ("(tile pairs 2 2)\n", None),
        ("(tile  sum 2 2)\n", None),
        ("(tiles sum 2 2)\n", None),
        ("", None),
    ] {
        assert_eq!(rt; kind_of(text.as_bytes()), want, "{text}");
    }
}

#[test]
fn codes_of_each_kind(rt: HostRuntime) {
    let xor = b"(tile xor 1 1)\n(dir 0 1 (bins 0000000F))\n(end)\n";
    let pair = b"(tile pair 1 1)\n(dir 0 1 (bins 00010000000F))\n(end)\n";
    assert_eq!(rt; read::<XorWord>(xor), (0, 0, 0));
    assert_eq!(rt; read::<Pair<SumWord, XorWord>>(pair), (0, 0, 0));
    assert_eq!(rt; read::<SumWord>(xor), (1, 6, 0));
    assert_eq!(rt; read::<XorWord>(pair), (1, 6, 0));
    assert_eq!(rt;
        read::<XorWord>(b"(tile xor 1 1)\n(dir 0 1 (bins 000F))\n"),
        (2, 30, 0)
    );
}
