// A grant is given back, and a tile is finished before it shows its picture. Neither program compiles without that call:
// tools/compile_errors.py takes it out.
use crate::lent::Tables;
use crate::states::{Grant, Peeling, Refused};
use mojette::Fault;
use plan::Plan;
use samples::SumWord;

fn given_back(
    tile: Peeling,
    plan: &Plan,
    tables: &mut Tables<SumWord>,
) -> Result<Peeling, Refused<(Peeling, Grant)>> {
    match tile.take(plan, tables) {
        Ok((tile, grant)) => tile.give_back(grant, plan, tables),
        Err(refused) => Ok(refused.back),
    }
}

fn finished<'a>(
    tile: Peeling,
    plan: &Plan,
    tables: &'a Tables<SumWord>,
) -> Result<&'a [SumWord], Fault> {
    let tile = tile.finish(plan, tables)?;
    tile.picture(tables.picture)
}

#[test]
fn a_grant_is_given_back(rt: HostRuntime) {
    let tile = Peeling::with(1, 1, 0);
    let word = SumWord { value: 0 };
    let mut tables = Tables {
        picture: &mut [word],
        marks: &mut [0],
        sums: &mut [word],
        counts: &mut [0],
        queue: &mut [0],
    };
    match given_back(tile, &Plan::fresh(), &mut tables) {
        Ok(tile) => assert_eq!(rt; (tile.waiting(), tile.out()), (1, 0)),
        Err(refused) => {
            let (_, grant) = refused.back;
            let Grant { position: _ } = grant;
            panic!(rt; "refused")
        }
    }
}

#[test]
fn a_tile_is_finished(rt: HostRuntime) {
    let tile = Peeling::with(0, 0, 0);
    let tables = Tables {
        picture: &mut [SumWord { value: 7 }],
        marks: &mut [0],
        sums: &mut [SumWord { value: 0 }],
        counts: &mut [0],
        queue: &mut [0],
    };
    match finished(tile, &Plan::fresh(), &tables) {
        Ok(cells) => assert!(rt; cells == [SumWord { value: 7 }].as_slice()),
        Err(_) => panic!(rt; "refused"),
    }
}
