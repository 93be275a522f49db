// Makes the calls that it reads from standard input and writes what comes back to standard output, so
// that a program in another language can hold the library to its own answers. The end of the input
// ends it; a malformed request is answered by sixteen bytes FF and ends it too. A read or a write that
// fails ends it with that error: the request that was being read or answered is then lost, some of its
// answer may have been written, and its table may have changed.
//
// Proved here is that it is safe and ends. What it prints is held to the second program's answers.
#![tactic(auto)]

mod adler;
mod serve;
mod wire;

ghost use Rattle.std.specs.Prelude.{◌≤◌, length, IfOk};

use serve::Kept;
use std::io;
use std::io::Read;
use wire::{Header, Stop};

fn main(rt: HostRuntime) -> io::Result<()> {
    let mut tables = [Kept::EMPTY; 8];
    run(&rt, &mut tables)
}

// Answers requests until there is none, or one is malformed.
fn run(rt: &(impl Input + Print), tables: &mut [Kept; 8]) -> io::Result<()> {
    // Each loop is proved to end, so this one has a last turn, which no input is long enough to reach.
    for _ in 0..u64::MAX {
        match one_request(rt, tables) {
            Ok(()) => {}
            Err(Stop::End) => break,
            Err(Stop::Malformed) => return rt.write_all(&[255; 16]),
            Err(Stop::Failed(e)) => return Err(e),
        }
    }
    Ok(())
}

// Reads and answers one request.
fn one_request(rt: &(impl Input + Print), tables: &mut [Kept; 8]) -> Result<(), Stop> {
    let mut bytes = [0u8; 64];
    match read_full(rt, &mut bytes)? {
        0 => return Err(Stop::End),
        1..64 => return Err(Stop::Malformed),
        _ => {}
    }
    let header = Header::try_from(&bytes)?;
    let mut buffer = [0u8; 65536];
    let payload = &mut buffer[..header.size];
    if read_full(rt, payload)? < payload.len() {
        return Err(Stop::Malformed);
    }
    serve::answer(rt, &mut tables[header.slot], header, payload)
}

// Reads until the buffer is full or the input ends, and answers how many bytes it put at its start. After an
// error some bytes may have been read.
fn read_full(rt: &impl Input, buf: &mut [u8]) -> io::Result<usize>
    ensures { IfOk result (λ n. n ≤ length buf.new) }
{
    let mut reader = rt.reader();
    let mut done = 0;
    // A read fills as much as it has, so this is no pass over a range.
    while done < buf.len() {
        match reader.read(&mut buf[done..])? {
            0 => break,
            n => done += n,
        }
    }
    Ok(done)
}
