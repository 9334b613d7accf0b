// The program: it makes the real folder, streams and doors and the keeper over `vault.db`, does what its words ask for,
// and ends with the status of that.
#![tactic(auto)]

use dv_app::Md5Keys;
use dv_given::MEMORY;
use dv_outside::{OpenGate, RealDoors, RealErr, RealFolder, RealOut, Status, end};
use dv_program::program;
use dv_sqlite::SqliteKeeper;
use dv_text::{Memory, Text};
use std::env;
use std::io::ErrorKind;
use std::process::ExitCode;

// The words of the command line without the program's name; none where they are no text, which is no command.
fn words(rt: &HostRuntime) -> Result<Vec<String>, Memory> {
    let args = match env::args(rt) {
        Ok(args) => args,
        Err(e) if e.kind() == ErrorKind::OutOfMemory => return Err(Memory),
        Err(_) => return Ok(Vec::new(rt.alloc())),
    };
    let mut words = Vec::new(rt.alloc());
    for word in args.skip(1) {
        words.push(word)?;
    }
    Ok(words)
}

fn main(rt: HostRuntime) -> ExitCode {
    let alloc = rt.alloc();
    let mut err = RealErr::new(rt.stderr());
    let (Ok(words), Ok(path)) = (words(&rt), Text::of(alloc, b"vault.db")) else {
        return ExitCode::from(end(&mut err, MEMORY, Status::Memory) as u8);
    };
    // The file is opened at the first call that a command makes of the keeper.
    let mut keeper = SqliteKeeper::new(rt, path);
    let mut out = RealOut::new(rt.stdout());
    let mut folder = RealFolder::new(rt);
    let mut doors = RealDoors::new(rt);
    let status = program(
        &rt,
        alloc,
        &words,
        &mut folder,
        &mut doors,
        &mut keeper,
        &mut out,
        &mut err,
        &Md5Keys,
        &OpenGate,
    );
    keeper.close();
    ExitCode::from(status as u8)
}
