// A call of a schedule, as the words of a case give it.
use crate::two::Side;
use crate::words::Words;
use anyhow::Context;
use mojette::Table;

// A call, with the source that it asks, or the slot of its grant.
#[derive(Clone, Copy)]
pub enum Call {
    Open(Side),
    Load(Side),
    Seal,
    Take(usize),
    Settle(usize),
    GiveBack(usize),
    Finish,
    Picture,
    // No call on the tile: a cell of a table is overwritten.
    Poke(Table, usize, u64),
}

// A table that is lent by its first cells only.
#[derive(Clone, Copy)]
pub struct Cut {
    pub table: Table,
    pub cells: usize,
}

// A call on one tile, with the plan and the tables of another perhaps.
#[derive(Clone, Copy)]
pub struct Turn {
    pub call: Call,
    pub tile: Side,
    pub plan: Side,
    pub tables: Side,
    pub cut: Option<Cut>,
}

fn table_of(number: usize) -> Option<Table> {
    match number {
        1 => Some(Table::Picture),
        2 => Some(Table::Marks),
        3 => Some(Table::Sums),
        4 => Some(Table::Counts),
        5 => Some(Table::Queue),
        _ => None,
    }
}

// The call that a name and the last three numbers give: x is the source, slot or table; of a poke, c is the cell and n what it gets.
fn call_of(name: &str, x: usize, c: usize, n: u64) -> anyhow::Result<Call> {
    Ok(match name {
        "0" => Call::Open(Side::of(x)),
        "1" => Call::Load(Side::of(x)),
        "2" => Call::Seal,
        "3" => Call::Take(x),
        "4" => Call::Settle(x),
        "5" => Call::GiveBack(x),
        "6" => Call::Finish,
        "7" => Call::Picture,
        _ => Call::Poke(table_of(x).context("no such table")?, c, n),
    })
}

impl Turn {
    // Seven numbers: the call, the tile, its plan and tables, and what `call_of` reads.
    pub fn of(words: &mut Words) -> anyhow::Result<Turn> {
        let name = words.word();
        let tile = words.side();
        let plan = words.side();
        let tables = words.side();
        let x = words.number();
        let c = words.number();
        let n: u64 = words.number();
        let call = call_of(name, x, c, n)?;
        let cut = match call {
            Call::Poke(..) => None,
            _ => table_of(c).map(|table| Cut {
                table,
                cells: n as usize,
            }),
        };
        Ok(Turn {
            call,
            tile,
            plan,
            tables,
            cut,
        })
    }
}
