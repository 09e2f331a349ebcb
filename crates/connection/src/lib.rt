// One connection record and what each event makes of it. Methods take the record by value and return it.
// Every function is total.
#![tactic(auto)]

ghost use Rattle.std.specs.Prelude.{◌≡◌};
ghost use Rattle.connection.specs.Connection as Is;
ghost use Rattle.connection.specs.Event as Ev;
ghost use Rattle.connection.specs.Sound as Sd;

use receive_part::Part;

#[derive(Clone, Copy, PartialEq, Eq)]
pub enum Mode {
    Offline,
    Reconnect,
    Online,
}

// A remote. Only `equal_fields` and `wild_fields` compare its fields.
#[derive(Clone, Copy, PartialEq, Eq)]
pub struct Remote {
    pub address: u32,
    pub port: u16,
}

// One answer for each field of a remote.
#[derive(Clone, Copy)]
pub struct Fields {
    pub address: bool,
    pub port: bool,
}

// Who is watched: the alive timer in ticks, 0 when it is stopped; and whether the upper layer set the remote.
#[derive(Clone, Copy)]
pub struct Watch {
    pub alive: u16,
    pub remote_set: bool,
}

#[derive(Clone, Copy)]
pub struct Connection {
    pub mode: Mode,
    pub open_wanted: bool,
    pub close_wanted: bool,
    pub due: bool,
    pub remote: Remote,
    pub switches: u32,
    pub part: Part,
    pub used: u16,
    pub timer: u16,
    pub watch: Watch,
}

// What the table says of a connection.
#[derive(Clone, Copy)]
pub struct Config {
    pub tcp: bool,
    pub automatic: bool,
    pub remote: Remote,
    pub size: u16,
    pub alive: u16,
    pub switches: u32,
}

// Why an event is refused before it does anything: 11, 12, 2, 3.
#[derive(Clone, Copy, PartialEq, Eq)]
pub enum Refusal {
    Memory,
    Unsound,
    Missing,
    Denied,
}

// The answer of an event, with the record after it.
#[derive(Clone, Copy)]
pub struct Stepped {
    pub answer: Result<(), Refusal>,
    pub connection: Connection,
}

// The connection events that concern the record alone.
#[derive(Clone, Copy)]
pub enum Event {
    Open,
    Close,
    Connected,
    Lost,
    SetRemote(Remote),
    Switch { number: u8, on: bool },
    Cancel,
}

impl Mode {
    pub fn is_offline(self) -> bool
        ensures { result ≡ Is.is_offline self }
    {
        matches!(self, Mode::Offline)
    }

    pub fn is_reconnect(self) -> bool
        ensures { result ≡ Is.is_reconnect self }
    {
        matches!(self, Mode::Reconnect)
    }

    pub fn is_online(self) -> bool
        ensures { result ≡ Is.is_online self }
    {
        matches!(self, Mode::Online)
    }
}

impl Remote {
    // Which fields of two remotes are equal.
    pub fn equal_fields(self, other: Remote) -> Fields
        ensures { result ≡ Is.equal_fields self other }
    {
        Fields {
            address: self.address == other.address,
            port: self.port == other.port,
        }
    }

    // Which fields of a remote are a wildcard.
    pub fn wild_fields(self) -> Fields
        ensures { result ≡ Is.wild_fields self }
    {
        Fields {
            address: self.address == 0,
            port: self.port == 0,
        }
    }

    // A remote has a wildcard when address or port is one.
    pub fn has_wildcard(self) -> bool
        ensures { result ≡ Is.wildcard self }
    {
        let wild = self.wild_fields();
        wild.address | wild.port
    }
}

// No alive timer runs, and the upper layer has not set the remote.
fn unwatched() -> Watch
    ensures { result ≡ Is.unwatched }
{
    Watch {
        alive: 0,
        remote_set: false,
    }
}

// The record that a table row starts with.
pub fn fresh(config: Config) -> Connection
    ensures { result ≡ Is.fresh_of config }
{
    let watch = unwatched();
    Connection {
        mode: Mode::Offline,
        open_wanted: false,
        close_wanted: false,
        remote: config.remote,
        switches: config.switches,
        part: Part::Header { held: 0, value: 0 },
        used: 0,
        timer: 0,
        due: false,
        watch,
    }
}

// The word worth switch `number`; 0 where there is none.
pub fn bit_of(number: u8) -> u32
    ensures { result ≡ Is.worth number }
{
    if number < 32 {
        let one: u32 = 1;
        return one << number;
    }
    0
}

// The switches with one of them on or off.
pub fn switched(switches: u32, number: u8, on: bool) -> u32
    ensures { result ≡ Is.switch_of number on switches }
{
    let bit = bit_of(number);
    let with = switches | bit;
    if on { with } else { with ^ bit }
}

impl Connection {
    pub fn open(mut self) -> Connection
        ensures { result ≡ Is.open_of self }
    {
        self.open_wanted = true;
        self
    }

    pub fn close(mut self) -> Connection
        ensures { result ≡ Is.close_of self }
    {
        self.open_wanted = false;
        self.close_wanted = true;
        self
    }

    pub fn connected(self) -> Connection
        ensures { result ≡ Is.connected_of self }
    {
        Connection {
            mode: Mode::Online,
            ..self
        }
    }

    pub fn set_remote(self, remote: Remote) -> Connection
        ensures { result ≡ Is.remote_of remote self }
    {
        let watch = Watch {
            alive: self.watch.alive,
            remote_set: true,
        };
        Connection {
            remote,
            watch,
            ..self
        }
    }

    // The alive timer after a source has met the record: started where the source replaces a wildcard, and again while it runs.
    fn alive_after(self, config: Config) -> u16
        ensures { result ≡ Is.alive_after config self }
    {
        let starts = self.remote.has_wildcard() | (0 < self.watch.alive);
        if starts {
            config.alive
        } else {
            self.watch.alive
        }
    }

    // Met by a source: online, with the source as remote.
    pub fn met(self, config: Config, source: Remote) -> Connection
        ensures { result ≡ Is.met_of config source self }
    {
        let watch = Watch {
            alive: self.alive_after(config),
            remote_set: self.watch.remote_set,
        };
        Connection {
            mode: Mode::Online,
            remote: source,
            watch,
            ..self
        }
    }

    // The configured remote is back, and nobody is watched.
    pub fn reset(self, config: Config) -> Connection
        ensures { result ≡ Is.reset_of config self }
    {
        let watch = unwatched();
        Connection {
            remote: config.remote,
            watch,
            ..self
        }
    }

    // Back to reconnect, nothing held, remote as configured.
    pub fn lost(self, config: Config) -> Connection
        ensures { result ≡ Is.lost_of config self }
    {
        let sent = self.with_send(0, 0, false);
        let back = sent.reset(config);
        Connection {
            mode: Mode::Reconnect,
            part: Part::Header { held: 0, value: 0 },
            ..back
        }
    }

    // Let go at a tick: reconnect, send bytes dropped, remote as configured.
    pub fn let_go(self, config: Config) -> Connection
        ensures { result ≡ Is.let_go_of config self }
    {
        let dropped = self.with_send(0, 0, false);
        let back = dropped.reset(config);
        Connection {
            mode: Mode::Reconnect,
            ..back
        }
    }

    // A running alive timer falls by 1.
    fn sink(self) -> Connection
        ensures { result ≡ Is.sunk_of self }
    {
        if self.watch.alive == 0 {
            return self;
        }
        let watch = Watch {
            alive: self.watch.alive - 1,
            remote_set: self.watch.remote_set,
        };
        Connection { watch, ..self }
    }

    pub fn switch(mut self, number: u8, on: bool) -> Connection
        ensures { result ≡ Is.switched_of number on self }
    {
        self.switches = switched(self.switches, number, on);
        self
    }

    // Another receive part.
    pub fn with_part(self, part: Part) -> Connection
        ensures { result ≡ Is.with_part part self }
    {
        Connection { part, ..self }
    }

    // Other send bytes, timer and due mark.
    pub fn with_send(mut self, used: u16, timer: u16, due: bool) -> Connection
        ensures { result ≡ Is.with_send used timer due self }
    {
        self.used = used;
        self.timer = timer;
        self.due = due;
        self
    }

    // Another alive timer, another mark that the upper layer set the remote.
    pub fn with_watch(self, watch: Watch) -> Connection
        ensures { result ≡ Is.with_watch watch self }
    {
        Connection { watch, ..self }
    }

    // A wanted close at a tick: the fresh record except switches.
    pub fn closed(self, config: Config) -> Connection
        ensures { result ≡ Is.closed_of config self }
    {
        let mut next = fresh(config);
        next.switches = self.switches;
        next
    }

    // Offline with open wanted or automatic becomes reconnect, open cleared.
    pub fn start(self, config: Config) -> Connection
        ensures { result ≡ Is.started_of config self }
    {
        let starts = self.mode.is_offline() & (self.open_wanted | config.automatic);
        if starts {
            Connection {
                mode: Mode::Reconnect,
                open_wanted: false,
                ..self
            }
        } else {
            self
        }
    }

    // UDP reconnect without wildcard becomes online.
    pub fn reach(self, config: Config) -> Connection
        ensures { result ≡ Is.reach_of config self }
    {
        let reaches = self.mode.is_reconnect() & !config.tcp & !self.remote.has_wildcard();
        if reaches { self.connected() } else { self }
    }

    // A running timer falls by 1 and at 0 becomes due.
    pub fn run(mut self) -> Connection
        ensures { result ≡ Is.run_of self }
    {
        let timer = self.timer;
        if timer == 0 {
            return self;
        }
        self.due = (timer == 1) | self.due;
        self.timer = timer - 1;
        self
    }

    pub fn tick(self, config: Config) -> Connection
        ensures { result ≡ Is.tick_of config self }
    {
        if self.close_wanted {
            return self.closed(config);
        }
        if (self.watch.alive == 1) & !self.watch.remote_set & !config.tcp {
            return self.let_go(config);
        }
        let sunk = self.sink();
        let started = sunk.start(config);
        let reached = started.reach(config);
        reached.run()
    }
}

// Whether a transfer that ran before an event runs no more after it.
pub fn failed(before: Connection, after: Connection) -> bool
    ensures { result ≡ Is.failed_of before after }
{
    let was = before.part;
    let now = after.part;
    receive_part::is_transfer(was) & !receive_part::is_transfer(now)
}

// Whether the event's numbers are there: 2 otherwise.
pub fn is_known(event: Event) -> bool
    ensures { result ≡ Ev.known event }
{
    match event {
        Event::Switch { number, on: _ } => number < 32,
        _ => true,
    }
}

// A refusal, with the record as it was.
fn refused(reason: Refusal, connection: Connection) -> Stepped
    ensures { result ≡ Ev.refused_by reason connection }
{
    Stepped {
        answer: Err(reason),
        connection,
    }
}

impl Connection {
    // Whether the event is allowed: 3 otherwise.
    pub fn allows(self, config: Config, event: Event) -> bool
        ensures { result ≡ Ev.allowed event config self }
    {
        let offline = self.mode.is_offline();
        let reconnect = self.mode.is_reconnect();
        let online = self.mode.is_online();
        let wild = self.remote.has_wildcard();
        let transfer = receive_part::is_transfer(self.part);
        match event {
            Event::Open => !config.automatic & offline & !self.close_wanted,
            Event::Close => !config.automatic & (self.open_wanted | !offline),
            Event::Connected => config.tcp & reconnect & !self.close_wanted & !wild,
            Event::Lost => config.tcp & online,
            Event::SetRemote(_) => !online,
            Event::Switch { number: _, on: _ } => true,
            Event::Cancel => transfer,
        }
    }

    // The record after an event that is allowed.
    pub fn after(self, config: Config, event: Event) -> Connection
        ensures { result ≡ Ev.record_after event config self }
    {
        match event {
            Event::Open => self.open(),
            Event::Close => self.close(),
            Event::Connected => self.connected(),
            Event::Lost => self.lost(config),
            Event::SetRemote(remote) => self.set_remote(remote),
            Event::Switch { number, on } => self.switch(number, on),
            Event::Cancel => self.close(),
        }
    }

    // One event: its answer, and the record after it; a refusal leaves the record.
    pub fn step(self, config: Config, event: Event) -> Stepped
        ensures { result ≡ Ev.step_of event config self }
    {
        let known = is_known(event);
        let allowed = self.allows(config, event);
        let next = self.after(config, event);
        if !known {
            return refused(Refusal::Missing, self);
        }
        if !allowed {
            return refused(Refusal::Denied, self);
        }
        Stepped {
            answer: Ok(()),
            connection: next,
        }
    }

    // The rules of a sound record that speak of it and its table row alone.
    pub fn sound(self, config: Config) -> bool
        ensures { result ≡ Sd.sound_of config self }
    {
        let online = self.mode.is_online();
        let offline = self.mode.is_offline();
        let shaped = receive_part::is_shaped(self.part);
        let empty = receive_part::is_empty(self.part);
        let wild = self.remote.has_wildcard();
        (self.used <= config.size)
            & shaped
            & (empty | (online & config.tcp))
            & ((self.used == 0) | online)
            & (((self.timer == 0) & !self.due) | (0 < self.used))
            & ((self.timer == 0) | !self.due)
            & (!online | !wild)
            & (!self.open_wanted | (!config.automatic & offline & !self.close_wanted))
            & (!self.close_wanted | !config.automatic | (config.tcp & !offline))
            & ((self.watch.alive == 0)
                | (online & !config.tcp & (self.watch.alive <= config.alive)))
    }

    // A record that is all zero.
    pub fn is_zero(self) -> bool
        ensures { result ≡ Sd.zero_of self }
    {
        let offline = self.mode.is_offline();
        let empty = receive_part::is_empty(self.part);
        let wild = self.remote.wild_fields();
        if !empty {
            return false;
        }
        if self.open_wanted | self.close_wanted | self.due | self.watch.remote_set {
            return false;
        }
        if !offline {
            return false;
        }
        if !(wild.address & wild.port) {
            return false;
        }
        (self.switches == 0) & (self.used == 0) & (self.timer == 0) & (self.watch.alive == 0)
    }
}
