// Taking the waiting bytes of one connection. Every function is total.
#![tactic(auto)]

ghost use Rattle.std.specs.Prelude.{◌*◌, ◌≡◌, length};
ghost use Rattle.wire.specs.Place.{behind, from_at};
ghost use Rattle.send_waiting.specs.Waiting.{waiting_of, taking_of, out_of, after_take, take_of};

use connection::{Config, Connection, Mode, Refusal, Remote};

// Why no waiting bytes are taken.
#[derive(Clone, Copy, PartialEq, Eq)]
pub enum NotTaken {
    Refused(Refusal),
    Short,
}

// The answer, with the record after it.
#[derive(Clone, Copy)]
pub struct Drained {
    pub answer: Result<(u16, Remote), NotTaken>,
    pub connection: Connection,
}

// The waiting bytes of connection k, as the part of send memory that they occupy.
pub fn waiting_of(tx: &[u8], connection: u8, used: u16) -> &[u8]
    ensures bytes { result.now ≡ waiting_of tx.now connection used }
    ensures place { result.ref_ptr ≡ behind tx.entry.ref_ptr (from_at tx.now (connection * 1472)) }
{
    let at = connection as usize * 1472;
    let n = used as usize;
    if tx.len() < at {
        return &tx[..0];
    }
    if tx.len() - at < n {
        return &tx[at..];
    }
    &tx[at..at + n]
}

// After a non-empty take: 00582, 00644.
fn after_take(c: Connection, config: Config) -> Connection
    ensures { result ≡ after_take config c }
{
    let leaves = config.automatic & config.remote.has_wildcard();
    if !leaves {
        return c;
    }
    if config.tcp {
        let mut next = c;
        next.close_wanted = true;
        return next;
    }
    let back = c.reset(config);
    Connection {
        mode: Mode::Reconnect,
        ..back
    }
}

// The waiting bytes to the front of an out buffer, and the record after them.
pub fn take(c: Connection, config: Config, waiting: &[u8], out: &mut [u8]) -> Drained
    ensures value { result ≡ record { answer = taking_of (length out.old) c; connection = take_of config (length out.old) c } }
    ensures out_after { out.new ≡ out_of c waiting.now out.old }
{
    let used = c.used;
    if out.len() < used as usize {
        return Drained {
            answer: Err(NotTaken::Short),
            connection: c,
        };
    }
    wire::copy_in(out, 0, waiting);
    let answer = Ok((used, c.remote));
    if used == 0 {
        return Drained {
            answer,
            connection: c,
        };
    }
    let emptied = c.with_send(0, 0, false);
    let next = after_take(emptied, config);
    Drained {
        answer,
        connection: next,
    }
}
