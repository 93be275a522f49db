// One request against the table that it names.
ghost use Rattle.std.specs.Prelude.{◌≡◌, ◌≤◌, length};

use crate::adler::adler;
use crate::wire::{Call, Header, Request, Stop};
use answers::Answer;
use codec::Stored;
use std::io;

// A table as it is kept: the first `len` bytes of a buffer. There is no heap, so the buffer has the size of the
// longest payload that can be loaded, and the length says what of it is used.
#[derive(Clone, Copy)]
pub struct Kept {
    buffer: [u8; 20480],
    len: usize,
    ghost within: { len ≤ 20480 },
}

impl Kept {
    pub const EMPTY: Kept = Kept {
        buffer: [0; 20480],
        len: 0,
    };

    // The table.
    fn table(&self) -> &[u8]
        ensures { length result.now ≤ 20480 }
    {
        &self.buffer[..self.len]
    }

    // Makes the payload the table.
    fn load(&mut self, payload: &[u8]) -> Result<(), Stop> {
        if self.buffer.len() < payload.len() {
            return Err(Stop::Malformed);
        }
        codec::replace(&mut self.buffer, 0, payload);
        self.len = payload.len();
        Ok(())
    }

    // Writes the payload over the table's bytes, if it lies within them.
    fn poke(&mut self, at: u64, payload: &[u8]) -> Result<(), Stop> {
        let Ok(at) = usize::try_from(at) else {
            return Err(Stop::Malformed);
        };
        if self.len < payload.len() || self.len - payload.len() < at {
            return Err(Stop::Malformed);
        }
        codec::replace(&mut self.buffer, at, payload);
        Ok(())
    }

    // Makes the call on the table.
    fn call(&mut self, call: Call, payload: &[u8], out: &mut [u8]) -> Answer {
        let (table, _) = self.buffer.split_at_mut(self.len);
        make(table, call, payload, out)
    }
}

// Answers the request. A call, and nothing else, gets an output buffer, as long as the header asks for and filled with
// the byte A5.
pub fn answer(
    rt: &impl Print,
    kept: &mut Kept,
    header: Header,
    payload: &[u8],
) -> Result<(), Stop> {
    match header.request {
        Request::Call(call) => {
            let mut buffer = [165u8; 16384];
            let out = &mut buffer[..header.room];
            let answer = kept.call(call, payload, out);
            respond(rt, answer, kept.table(), out)?;
        }
        Request::Load => {
            kept.load(payload)?;
            respond(rt, Ok(0), kept.table(), b"")?;
        }
        Request::Poke { at } => {
            kept.poke(at, payload)?;
            respond(rt, Ok(0), kept.table(), b"")?;
        }
        Request::Show => {
            let table = kept.table();
            // A table that is kept has at most 20480 bytes: a try_from could not fail.
            respond(rt, Ok(table.len() as u32), table, table)?;
        }
    }
    Ok(())
}

// Makes the call.
fn make(table: &mut [u8], call: Call, payload: &[u8], out: &mut [u8]) -> Answer {
    match call {
        Call::Start { node, n } => service::start::start(table, node, n),
        Call::Create {
            time,
            directory,
            kind,
            set,
        } => { service::tree::create(table, time, directory, kind, payload, set) }
        Call::Unlink { time, id } => service::tree::unlink(table, time, id),
        Call::Rename {
            time,
            id,
            directory,
        } => { service::tree::rename(table, time, id, directory, payload) }
        Call::Remove { time, id } => service::tree::remove(table, time, id),
        Call::Spread { id, set } => service::tree::spread(table, id, set),
        Call::List { id } => service::list::list(table, id, out),
        Call::Push { id, node } => service::push::push(table, id, node, out),
        Call::Receive { time } => service::receive::receive(table, time, payload, out),
        Call::Acknowledged => service::acknowledged::acknowledged(table, payload),
        Call::Pending => service::pending::pending(table),
    }
}

// Writes the answer's number and value, the table's checksum and four zeros, and then the output.
fn respond(rt: &impl Print, answer: Answer, table: &[u8], output: &[u8]) -> io::Result<()> {
    let mut head = [0u8; 16];
    answers::number(answer).write(&mut head, 0);
    answers::value(answer).write(&mut head, 4);
    adler(table).write(&mut head, 8);
    rt.write_all(&head)?;
    rt.write_all(output)
}
