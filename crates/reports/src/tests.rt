// What is printed, worked out by hand from docs/.
use super::*;
use mojette::{Direction, Fault, FileFault, Reason, Record, Refusal, Table, TextFault};
use plan::Plan;
use std::test::Fail;

const TILE: &[u8] =
    b"(tile sum 2 2)\n(dir 1 1 (bins 0002 0005 0003))\n(dir 0 1 (lost 4))\n(dir -1 1 (bins 0004 0005 0001))\n(end)\n";

fn whole(p: i32, q: i32) -> Record {
    Record::new(p, q, 0)
}

fn no_file(line: usize, byte: usize, reason: Reason) -> Fault {
    Fault::NoFile(FileFault {
        line,
        text: TextFault { byte, reason },
    })
}

// Faults, and their sentences.
const SENTENCES: [(Fault, &str); 7] = [
    (Fault::Size, "a tile has 1 to 64 columns and 1 to 64 rows\n"),
    (
        Fault::Unlawful(0),
        "place 0: the direction (2, -2) is not lawful\n",
    ),
    (Fault::Unlawful(3), "place 3: its direction is not lawful\n"),
    (
        Fault::ShortTable(Table::Marks),
        "the table for the marks is too short\n",
    ),
    (
        Fault::Ghost(1, 2),
        "too few places are whole: their steps add up to 1 across and 2 down\n",
    ),
    (
        Fault::LeftOver(1, 10),
        "the sums contradict one another, first at place 1, bin 10\n",
    ),
    (Fault::Lost(255), "the place is lost, by cause 255\n"),
];

#[test]
fn sentences(rt: HostRuntime) -> Result<(), Fail> {
    for (fault, wanted) in SENTENCES {
        let line = sentence_line(rt.alloc(), fault, &[whole(2, -2)])?;
        assert_eq!(rt; line.as_str(), wanted);
    }
    let line = sentence_line(rt.alloc(), no_file(3, 55, Reason::Order), &[])?;
    assert_eq!(rt;
        line.as_str(),
        "line 3, byte 55 of the text: a direction that does not come after the one before it\n"
    );
    Ok(())
}

fn refusal(number: usize, first: usize, second: usize, third: usize) -> Refusal {
    Refusal {
        number,
        first,
        second,
        third,
    }
}

#[test]
fn refusals_by_their_numbers(rt: HostRuntime) {
    assert!(rt; fault_of(refusal(5, 4, 0, 0)) == Some(Fault::ShortTable(Table::Counts)));
    assert!(rt; fault_of(refusal(20, 2, 35, 0)) == Some(no_file(2, 35, Reason::Token)));
    assert!(rt; fault_of(refusal(17, 255, 0, 0)) == Some(Fault::Lost(255)));
    for told in [
        refusal(17, 256, 0, 0),
        refusal(5, 6, 0, 0),
        refusal(1, 1, 0, 0),
        refusal(20, 1, 1, 5),
        refusal(0, 0, 0, 0),
        refusal(23, 0, 0, 0),
    ] {
        assert!(rt; fault_of(told).is_none());
    }
    assert!(rt;
        refusal_in(b"(refused 15 1 18446744073709551615 0)\n")
            == Some(refusal(15, 1, usize::MAX, 0))
    );
    assert!(rt; refusal_in(b"(picture sum 1 1)\n").is_none());
}

#[test]
fn plans_of_texts(rt: HostRuntime) {
    let places = plan_of_text(TILE).map(|plan| (plan.columns(), plan.rows(), plan.count()));
    assert!(rt; places == Ok((2, 2, 3)));
    let places = plan_of_text(b"(tile words 1 1)\n").map(|plan| plan.count());
    assert!(rt; places == Err(no_file(1, 6, Reason::Token)));
}

#[test]
fn places_that_could_be_spared(rt: HostRuntime) -> Result<(), Fail> {
    let three = Plan::of(2, 2, &[whole(1, 1), whole(0, 1), whole(-1, 1)]);
    let plan = three.ok().ok_or("a plan")?;
    assert_eq!(rt;
        criterion_report(rt.alloc(), &plan)?.as_str(),
        "enough: C 2 for P 2, R 3 for Q 2\ncould be spared, one at a time: 0 1 2\n"
    );
    assert_eq!(rt; ghost_report(rt.alloc(), &plan)?.as_str(), "");
    let two = Plan::of(3, 2, &[whole(1, 0), Record::new(1, 1, 9), whole(0, 1)]);
    let plan = two.ok().ok_or("a plan")?;
    assert_eq!(rt;
        criterion_report(rt.alloc(), &plan)?.as_str(),
        "too few: C 1 for P 3, R 1 for Q 2\ncould be spared, one at a time: none\n"
    );
    assert_eq!(rt;
        ghost_report(rt.alloc(), &plan)?.as_str(),
        "too few: C 1 for P 3, R 1 for Q 2\nlost places: 1\n"
    );
    Ok(())
}

#[test]
fn shapes_that_are_asked_about(rt: HostRuntime) -> Result<(), Fail> {
    let report = checked(rt.alloc(), 4, 4, &[whole(2, 1), whole(1, 1), whole(-1, 1)])?;
    assert_eq!(rt;
        report.listing.as_str(),
        "enough: C 4 for P 4, R 3 for Q 4\ncould be spared, one at a time: none\n"
    );
    assert_eq!(rt; report.remark.as_str(), "");
    let report = checked(rt.alloc(), 4, 4, &[whole(2, 1), whole(2, 2)])?;
    assert_eq!(rt; report.listing.as_str(), "(refused 3 1 0 0)\n");
    assert_eq!(rt;
        report.remark.as_str(),
        "place 1: the direction (2, 2) is not lawful\n"
    );
    Ok(())
}

// The second code of the second line is one digit short.
const SHORT: &[u8] = b"(tile sum 2 2)\n(dir 1 1 (bins 0002 005 0003))\n(end)\n";

#[test]
fn files_explained(rt: HostRuntime) -> Result<(), Fail> {
    let lines = explained(rt.alloc(), SHORT)?;
    let wanted =
        "line 2, byte 35 of the text: not what belongs there, or not well formed\n(dir 1 1 (bins 0002 005 0003))\n                    ^^^\n";
    assert!(rt; lines.as_slice() == wanted.as_bytes());
    let lines = explained(rt.alloc(), TILE)?;
    assert!(rt; lines.as_slice() == b"a lawful file: 2 columns, 2 rows, 3 places\n".as_slice());
    Ok(())
}

#[test]
fn long_lines_are_shown_near_the_token(rt: HostRuntime) -> Result<(), Fail> {
    let text =
        b"012345678901234567890123456789012345678901\t4567890123456789012345678901234567890123 6\n";
    let lines = marked(rt.alloc(), text, 43)?;
    let wanted =
        b"345678901234567890123456789012345678901?45678901234567890123456789012345678901\n                                        ^^^^^^^^^^^^^^^^^^^^^^^^^^^^^^^^^^^^^^\n";
    assert!(rt; lines.as_slice() == wanted.as_slice());
    let lines = marked(rt.alloc(), b"ab\n", 2)?;
    assert!(rt; lines.as_slice() == b"ab\n  ^\n".as_slice());
    let lines = marked(rt.alloc(), b"ab\n", 9)?;
    assert!(rt; lines.as_slice() == b"\n^\n".as_slice());
    Ok(())
}

#[test]
fn remarks_beside_listings(rt: HostRuntime) -> Result<(), Fail> {
    assert_eq!(rt;
        remark(rt.alloc(), TILE, b"(picture sum 2 2)\n")?.as_str(),
        ""
    );
    assert_eq!(rt;
        remark(rt.alloc(), TILE, b"(refused 15 1 1 0)\n")?.as_str(),
        "the sums contradict one another, first at place 1, bin 1\n"
    );
    let lossy =
        b"(tile sum 2 2)\n(dir 1 0 (bins 0003 0007))\n(dir 1 1 (lost 9))\n(dir 0 1 (bins 0006 0004))\n(end)\n";
    assert_eq!(rt;
        remark(rt.alloc(), lossy, b"(ghost sum 2 2)\n")?.as_str(),
        "too few: C 1 for P 2, R 1 for Q 2\nlost places: 1\n"
    );
    assert!(rt; told_line(rt.alloc(), refusal(23, 0, 0, 0))?.is_none());
    assert!(rt; told_line(rt.alloc(), refusal(6, 0, 0, 0))?.is_some());
    Ok(())
}

#[test]
fn pictures_as_pgm(rt: HostRuntime) -> Result<(), Fail> {
    let file = picture_file(
        rt.alloc(),
        b"(picture sum 2 2)\n(row 0001 0002)\n(row 0003 ABCD)\n(end)\n",
    )?;
    let bytes = file.ok_or("a file")?;
    assert!(rt; bytes.as_slice() == b"P5\n2 2\n65535\n\x00\x01\x00\x02\x00\x03\xab\xcd".as_slice());
    assert!(rt; picture_file(rt.alloc(), b"(picture xor 1 1)\n(row 00000001)\n(end)\n")?.is_none());
    Ok(())
}
