// The command line.

use clap::{Arg, ArgAction, Command, value_parser};
use std::alloc::{AllocError, Global};

fn rebuild<'a>(alloc: Global) -> Result<Command<'a>, AllocError> {
    let file = Arg::new(alloc, "file")
        .value_name("FILE")
        .action(ArgAction::Append)
        .num_args(0..)
        .help("bracket files; standard input where none is given");
    let pgm = Arg::new(alloc, "pgm").long("pgm").value_name("OUT").help(
        "writes the picture of the one file, of sum words, as a PGM file",
    );
    Command::new(alloc, "rebuild")
        .about("Rebuild tiles, and print the picture, the ghost or the refusal of each")
        .after_help("Example: tiles rebuild examples/boat.tile --pgm boat.pgm")
        .arg(file)?
        .arg(pgm)
}

fn explain<'a>(alloc: Global) -> Result<Command<'a>, AllocError> {
    let what = Arg::new(alloc, "what")
        .value_name("FILE | N")
        .required(true)
        .action(ArgAction::Append)
        .num_args(1..=4)
        .help("a bracket file, or a refusal's number and up to three values");
    Command::new(alloc, "explain")
        .about("Say in words what is wrong with a file, or what a refusal tells")
        .after_help(
            "Examples: tiles explain examples/damaged.tile\n          tiles explain 15 1 1 0",
        )
        .arg(what)
}

fn check<'a>(alloc: Global) -> Result<Command<'a>, AllocError> {
    let columns = Arg::new(alloc, "columns")
        .value_name("P")
        .required(true)
        .value_parser(value_parser!(usize))
        .help("how many columns a tile has");
    let rows = Arg::new(alloc, "rows")
        .value_name("Q")
        .required(true)
        .value_parser(value_parser!(usize))
        .help("how many rows");
    let direction = Arg::new(alloc, "direction")
        .value_name("p,q")
        .required(true)
        .action(ArgAction::Append)
        .num_args(1..)
        .allow_hyphen_values(true)
        .help("the directions of the recorders, in their order");
    Command::new(alloc, "check")
        .about("Say whether directions tell every tile of a size, and which could be spared")
        .after_help("Example: tiles check 4 4 2,1 1,1 -1,1")
        .arg(columns)?
        .arg(rows)?
        .arg(direction)
}

/// All commands.
pub(crate) fn command<'a>(alloc: Global) -> Result<Command<'a>, AllocError> {
    Command::new(alloc, "tiles")
        .about("Rebuild tiles whose recorders were lost, and explain what cannot be rebuilt")
        .version("1")
        .subcommand_required(true)
        .arg_required_else_help(true)
        .subcommand(rebuild(alloc)?)?
        .subcommand(explain(alloc)?)?
        .subcommand(check(alloc)?)
}
