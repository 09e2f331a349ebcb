// One destination of a transmit: what it says to a payload, and what an append makes of its connection's record.
// Every function is total.
#![tactic(auto)]

ghost use Rattle.std.specs.Prelude.{◌≡◌};
ghost use Rattle.send_destination.specs.Destination.{refusal_of, look_of, timer_of, sent_of};
ghost use Rattle.send_destination.specs.Reply.{reply_number};

use connection::Connection;
use table_rows::DestinationRow;

// What a destination says to a payload.
#[derive(Clone, Copy, Debug, PartialEq, Eq)]
pub enum Reply {
    Fits,
    SwitchedOff,
    NotOnline,
    TooLong,
    NoRoom,
}

// Its number: in an answer, that of a refusal.
impl From<Reply> for u8 {
    ghost from_gives = { λ reply number. number ≡ reply_number reply };

    fn from(reply: Reply) -> u8 {
        match reply {
            Reply::Fits => 0,
            Reply::SwitchedOff => 6,
            Reply::NotOnline => 4,
            Reply::TooLong => 7,
            Reply::NoRoom => 8,
        }
    }
}

// A switched-on destination: online without close wanted, then long enough, then with room.
#[tactic(auto, unfolding(crate::specs::Destination::refusal_of))]
fn refusal(d: DestinationRow, c: Connection, size: u16, len: usize) -> Reply
    ensures { reply_number result ≡ refusal_of len size d c }
{
    let away = !c.mode.is_online() | c.close_wanted;
    if away {
        return Reply::NotOnline;
    }
    if (d.longest as usize) < len {
        return Reply::TooLong;
    }
    if (size as usize) < (c.used as usize) + 8 + len {
        return Reply::NoRoom;
    }
    Reply::Fits
}

// A destination of the PDU, as if it were the only one: switched off, else the above.
#[tactic(auto, unfolding(crate::specs::Destination::look_of))]
pub fn look(d: DestinationRow, c: Connection, size: u16, len: usize) -> Reply
    ensures { reply_number result ≡ look_of len size d c }
{
    let off = !receive_route::is_on(d.groups, c.switches);
    if off {
        return Reply::SwitchedOff;
    }
    refusal(d, c, size, len)
}

fn timer_after(trigger: bool, timeout: u16, timer: u16, due: bool) -> u16
    ensures { result ≡ timer_of trigger timeout timer due }
{
    let sooner = !due & (0 < timeout) & ((timer == 0) | (timeout < timer));
    if trigger {
        return 0;
    }
    if sooner {
        return timeout;
    }
    timer
}

// The record after an append, with so many bytes used.
pub fn sent(c: Connection, d: DestinationRow, used: u16) -> Connection
    ensures { result ≡ sent_of d used c }
{
    let timer = timer_after(d.trigger, d.timeout, c.timer, c.due);
    c.with_send(used, timer, d.trigger | c.due)
}
