// A request's header of 64 bytes: code, table slot, six zeros, five numbers, the length of the output
// buffer and that of the payload.
ghost use Rattle.std.specs.Prelude.{◌≤◌, ◌<◌};

use codec::Stored;
use std::io;

// Why no further request is answered.
#[derive(Drop)]
pub enum Stop {
    // The input has ended.
    End,
    // The request has a code, a slot or a length out of range, or padding that is not zero, or it
    // is cut short.
    Malformed,
    // A read or a write failed.
    Failed(io::Error),
}

impl From<io::Error> for Stop {
    fn from(e: io::Error) -> Stop {
        Stop::Failed(e)
    }
}

// A call of the library, with its numbers. Its byte string is the payload.
#[derive(Clone, Copy, PartialEq, Eq)]
pub enum Call {
    Start {
        node: u64,
        n: u64,
    },
    Create {
        time: u64,
        directory: u64,
        kind: u64,
        set: u64,
    },
    Unlink {
        time: u64,
        id: u64,
    },
    Rename {
        time: u64,
        id: u64,
        directory: u64,
    },
    Remove {
        time: u64,
        id: u64,
    },
    Spread {
        id: u64,
        set: u64,
    },
    List {
        id: u64,
    },
    Push {
        id: u64,
        node: u64,
    },
    Receive {
        time: u64,
    },
    Acknowledged,
    Pending,
}

// What a request asks for: a call; that the payload becomes the table, or is written over the table's
// bytes from an offset on; or to be shown the table.
#[derive(Clone, Copy, PartialEq, Eq)]
pub enum Request {
    Call(Call),
    Load,
    Poke { at: u64 },
    Show,
}

// What a header says: the request, the slot of its table, and the lengths of the output buffer and of the
// payload.
#[derive(Clone, Copy)]
pub struct Header {
    pub request: Request,
    pub slot: usize,
    pub room: usize,
    pub size: usize,
    ghost slots: { slot < 8 },
    ghost most_room: { room ≤ 16384 },
    ghost most_payload: { size ≤ 65536 },
}

impl TryFrom<&[u8; 64]> for Header {
    type Error = Stop;

    fn try_from(bytes: &[u8; 64]) -> Result<Header, Stop> {
        let request = asked_for(bytes)?;
        let slot = bytes[1];
        let room = u64::read(bytes, 48);
        let size = u64::read(bytes, 56);
        let most = if request == Request::Load {
            20480
        } else {
            65536
        };
        if 7 < slot || !codec::is_zero(bytes, 2, 6) || 16384 < room || most < size {
            return Err(Stop::Malformed);
        }
        Ok(Header {
            request,
            slot: usize::from(slot),
            room: room as usize,
            size: size as usize,
        })
    }
}

// The request that the code names, with those of the five numbers that it takes.
fn asked_for(bytes: &[u8; 64]) -> Result<Request, Stop> {
    let a = u64::read(bytes, 8);
    let b = u64::read(bytes, 16);
    let c = u64::read(bytes, 24);
    let d = u64::read(bytes, 32);
    let call = match bytes[0] {
        1 => Call::Start { node: a, n: b },
        2 => Call::Create {
            time: a,
            directory: b,
            kind: c,
            set: d,
        },
        3 => Call::Unlink { time: a, id: b },
        4 => Call::Rename {
            time: a,
            id: b,
            directory: c,
        },
        5 => Call::Remove { time: a, id: b },
        6 => Call::Spread { id: a, set: b },
        7 => Call::List { id: a },
        8 => Call::Push { id: a, node: b },
        9 => Call::Receive { time: a },
        10 => Call::Acknowledged,
        11 => Call::Pending,
        32 => return Ok(Request::Load),
        33 => return Ok(Request::Poke { at: a }),
        34 => return Ok(Request::Show),
        _ => return Err(Stop::Malformed),
    };
    Ok(Request::Call(call))
}
