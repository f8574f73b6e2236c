// tiles check P Q p,q..

use clap::ArgMatches;
use mojette::Record;
use reports::checked;

/// The place of a direction that is written as p,q.
fn record_in(word: &str) -> Option<Record> {
    let (p, q) = word.split_once(",")?;
    Some(Record::new(p.parse().ok()?, q.parse().ok()?, 0))
}

pub(crate) fn run(rt: &HostRuntime, matches: &ArgMatches) -> anyhow::Result<bool> {
    let columns = matches.get_one::<usize>("columns").unwrap_or(0);
    let rows = matches.get_one::<usize>("rows").unwrap_or(0);
    let mut records = Vec::new(rt.alloc());
    for word in matches.get_strs("direction").unwrap_or(&[]) {
        let Some(record) = record_in(word) else {
            anyhow::bail!("{word}: no direction; write p,q as in 1,0 or -1,1");
        };
        records.push(record)?;
    }
    let report = checked(rt.alloc(), columns, rows, &records)?;
    print!(rt; "{}", report.listing)?;
    eprint!(rt; "{}", report.remark)?;
    Ok(true)
}

#[cfg(test)]
mod tests {
    use super::*;

    #[test]
    fn directions_are_read(rt: HostRuntime) {
        assert!(rt; record_in("-1,1") == Some(Record::new(-1, 1, 0)));
        assert!(rt; record_in("0,7") == Some(Record::new(0, 7, 0)));
        for word in ["", "1", "1;0", "1,", ",1", "1,0,1", "a,1", "99999999999,1"] {
            assert!(rt; record_in(word).is_none());
        }
    }
}
