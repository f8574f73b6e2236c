// Racks, strips and a source that is not lawful.
ghost use Rattle.std.specs.Prelude.{[]};

use crate::lawful::plan_of;
use crate::rack::Rack;
use crate::source::Source;
use crate::strip::strip;
use crate::types::Sizes;
use mojette::{Fault, Record, Refusal};
use samples::SumWord;
use std::test::Fail;

// The refusal's number and first value, which the tests pin.
fn told(fault: Fault) -> (usize, usize) {
    let refusal = Refusal::from(fault);
    (refusal.number, refusal.first)
}

// 0 and the number of places where there is a rack.
fn made<'a>(side: usize, records: &'a [Record], run: &'a [SumWord]) -> (usize, usize) {
    match Rack::new(side, 64, records, run) {
        Ok(rack) => (0, rack.sizes().places),
        Err(fault) => told(fault),
    }
}

#[test]
fn racks_at_the_bounds(rt: HostRuntime) {
    let good = [
        Record::new(1, 0, 0),
        Record::new(1, 1, 7),
        Record::new(0, 1, 0),
    ];
    let unlawful = [Record::new(1, 0, 0), Record::new(2, 2, 0)];
    let disorder = [Record::new(0, 1, 0), Record::new(1, 1, 0)];
    let run = [SumWord { value: 0 }; 256];
    assert_eq!(rt; made(64, &good, &run[0..254]), (19, 255));
    assert_eq!(rt; made(64, &good, &run[0..255]), (0, 3));
    assert_eq!(rt; made(64, &good, &run), (19, 255));
    assert_eq!(rt; made(65, &good, &run), (1, 0));
    assert_eq!(rt; made(0, &good, &run), (1, 0));
    assert_eq!(rt; made(64, &good[0..0], &run), (2, 0));
    assert_eq!(rt; made(64, &unlawful, &run), (3, 1));
    assert_eq!(rt; made(64, &disorder, &run), (4, 1));
}

// 0 and the sample where the question is answered.
fn asked(rack: &Rack<SumWord>, i: usize, b: usize) -> (usize, usize) {
    match rack.bin(i, b) {
        Ok(sum) => (0, sum.value as usize),
        Err(fault) => told(fault),
    }
}

#[test]
fn questions_to_a_rack(rt: HostRuntime) -> Result<(), Fail> {
    let records = [
        Record::new(1, 1, 0),
        Record::new(0, 1, 4),
        Record::new(-1, 1, 0),
    ];
    let mut run = [SumWord { value: 5 }; 8];
    run[7] = SumWord { value: 1 };
    let rack = Rack::new(2, 2, &records, &run).ok().ok_or("refused")?;
    assert_eq!(rt; asked(&rack, 0, 0), (0, 5));
    assert_eq!(rt; asked(&rack, 2, 2), (0, 1));
    assert_eq!(rt; asked(&rack, 2, 3), (18, 0));
    assert_eq!(rt; asked(&rack, 1, 9), (17, 4));
    assert_eq!(rt; asked(&rack, 3, 9), (16, 0));
    assert!(rt; rack.place(2).is_ok());
    assert!(rt; rack.place(3).is_err());
    Ok(())
}

// 0 and the bins where there is a strip.
fn answer(rack: &Rack<SumWord>, place: usize, out: &mut [u16]) -> (usize, usize) {
    match strip(rack, place, out) {
        Ok(bins) => (0, bins),
        Err(fault) => told(fault),
    }
}

// The answer, and what is left in cells that held 1.
fn cells(rack: &Rack<SumWord>, place: usize) -> ((usize, usize), [u16; 7]) {
    let mut out = [1; 7];
    let told = answer(rack, place, &mut out);
    (told, out)
}

// Bins 1 and 4 of (3, 2) are empty, bin 1 of (1, 1) has two pixels.
#[test]
fn means_and_empty_bins(rt: HostRuntime) -> Result<(), Fail> {
    let records = [
        Record::new(3, 2, 0),
        Record::new(1, 1, 0),
        Record::new(0, 1, 9),
    ];
    let run = [SumWord { value: 7 }; 11];
    let rack = Rack::new(2, 2, &records, &run).ok().ok_or("refused")?;
    assert_eq!(rt; cells(&rack, 0), ((0, 6), [7, 0, 7, 7, 0, 7, 1]));
    assert_eq!(rt; cells(&rack, 1), ((0, 3), [7, 3, 7, 1, 1, 1, 1]));
    assert_eq!(rt; cells(&rack, 2), ((17, 9), [1; 7]));
    assert_eq!(rt; cells(&rack, 3), ((16, 0), [1; 7]));
    let mut short = [1; 5];
    assert_eq!(rt; answer(&rack, 0, &mut short), (21, 6));
    assert_eq!(rt; short, [1; 5]);
    Ok(())
}

// A source without places.
#[derive(Drop)]
struct Bare {
    columns: usize,
    rows: usize,
}

impl Source for Bare {
    type Sample = SumWord;

    ghost meaning = { λ s. record { P = s.columns; Q = s.rows; places = [] } };

    fn sizes(&self) -> Sizes {
        Sizes {
            columns: self.columns,
            rows: self.rows,
            places: 0,
        }
    }

    fn place(&self, _i: usize) -> Result<Record, Fault> {
        Err(Fault::NoPlace)
    }

    fn bin(&self, _i: usize, _b: usize) -> Result<SumWord, Fault> {
        Err(Fault::NoPlace)
    }
}

// The numbers of the refusals of its plan and of its strip.
fn refused(source: &Bare) -> (usize, usize) {
    let plan = match plan_of(source) {
        Ok(_) => 0,
        Err(fault) => told(fault).0,
    };
    let mut out = [1; 2];
    let strip = match strip(source, 0, &mut out) {
        Ok(_) => 0,
        Err(fault) => told(fault).0,
    };
    (plan, strip)
}

#[test]
fn unlawful_sources(rt: HostRuntime) {
    let flat = Bare {
        columns: 64,
        rows: 0,
    };
    let wide = Bare {
        columns: 65,
        rows: 64,
    };
    let empty = Bare {
        columns: 64,
        rows: 64,
    };
    assert_eq!(rt; refused(&flat), (1, 1));
    assert_eq!(rt; refused(&wide), (1, 1));
    assert_eq!(rt; refused(&empty), (2, 2));
}
