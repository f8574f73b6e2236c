// Files, and listings of ghosts.
ghost use Rattle.std.specs.Prelude.{[]};

use crate::file::write_file;
use crate::listing::write_ghost;
use mojette::{Fault, Record, Refusal};
use plan::Plan;
use samples::{SumWord, XorWord};
use source::{Rack, Sizes, Source};
use std::test::Fail;

// The refusal's number and first value, which the tests pin; 0 and the length where the call is served.
fn told(answer: Result<usize, Fault>) -> (usize, usize) {
    match answer {
        Ok(length) => (0, length),
        Err(fault) => {
            let refusal = Refusal::from(fault);
            (refusal.number, refusal.first)
        }
    }
}

// Two whole places, and a lost one between them.
fn places() -> [Record; 3] {
    [
        Record::new(1, 1, 0),
        Record::new(0, 1, 4),
        Record::new(-1, 1, 0),
    ]
}

const FILE: [u8; 105] =
    *b"(tile sum 2 2)\n(dir 1 1 (bins 0002 0005 0003))\n(dir 0 1 (lost 4))\n(dir -1 1 (bins 0004 0005 0001))\n(end)\n";

#[test]
fn the_file_of_a_rack(rt: HostRuntime) -> Result<(), Fail> {
    let records = places();
    let run = [2, 5, 3, 9, 9, 4, 5, 1].map(|value| SumWord { value });
    let rack = Rack::new(2, 2, &records, &run).ok().ok_or("refused")?;
    let mut out = [b'.'; 120];
    assert_eq!(rt; told(write_file(&rack, &mut out)), (0, 105));
    assert!(rt; out.starts_with(&FILE));
    assert!(rt; out[105..].iter().all(|byte| *byte == b'.'));
    let mut short = [b'.'; 104];
    assert_eq!(rt; told(write_file(&rack, &mut short)), (21, 105));
    assert!(rt; short == [b'.'; 104]);
    Ok(())
}

// One bin in each place, the greatest cause, and a step to the left.
#[test]
fn a_file_of_another_kind(rt: HostRuntime) -> Result<(), Fail> {
    let records = [Record::new(1, 0, 255), Record::new(-7, 2, 0)];
    let run = [XorWord { value: 0xABC }; 2];
    let rack = Rack::new(1, 1, &records, &run).ok().ok_or("refused")?;
    let mut out = [b'.'; 69];
    assert_eq!(rt; told(write_file(&rack, &mut out)), (0, 69));
    assert!(rt;
        out == *b"(tile xor 1 1)\n(dir 1 0 (lost 255))\n(dir -7 2 (bins 00000ABC))\n(end)\n"
    );
    Ok(())
}

// A source without places, of any size: a rack is always lawful.
#[derive(Drop)]
struct Bare {
    columns: usize,
}

impl Source for Bare {
    type Sample = SumWord;

    ghost meaning = { λ s. record { P = s.columns; Q = 1; places = [] } };

    fn sizes(&self) -> Sizes {
        Sizes {
            columns: self.columns,
            rows: 1,
            places: 0,
        }
    }

    fn place(&self, _i: usize) -> Result<Record, Fault> {
        Err(Fault::NoPlace)
    }

    fn bin(&self, _i: usize, _b: usize) -> Result<SumWord, Fault> {
        Err(Fault::NoPlace)
    }
}

#[test]
fn no_file_of_an_unlawful_source(rt: HostRuntime) {
    let mut out = [b'.'; 9];
    assert_eq!(rt; told(write_file(&Bare { columns: 65 }, &mut out)), (1, 0));
    assert_eq!(rt; told(write_file(&Bare { columns: 64 }, &mut out)), (2, 0));
    assert!(rt; out == [b'.'; 9]);
}

#[test]
fn the_listing_of_a_ghost(rt: HostRuntime) -> Result<(), Fail> {
    let plan = Plan::of(2, 2, &places()).ok().ok_or("refused")?;
    let picture = [0, 1, 0xFFFF, 0].map(|value| SumWord { value });
    let mut out = [b'.'; 65];
    assert_eq!(rt; told(write_ghost(&mut out, &plan, &picture)), (0, 65));
    assert!(rt; out == *b"(ghost sum 2 2)\n(lost 1 4)\n(row 0000 0001)\n(row FFFF 0000)\n(end)\n");
    let mut short = [b'.'; 64];
    assert_eq!(rt; told(write_ghost(&mut short, &plan, &picture)), (21, 65));
    assert!(rt; short == [b'.'; 64]);
    assert_eq!(rt; told(write_ghost(&mut out, &plan, &picture[..3])), (5, 1));
    Ok(())
}
