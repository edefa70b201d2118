//! The lines of a script, sent over HTTP (RFC 9112) to a desk that this program serves itself: each is posted by a connection of its own, taken, served,
//! and its response read. All that is by one thread, so a request has to fit what the system holds for a connection that is not read yet: it has
//! at most 201 bytes of an act.
ghost use Rattle.std.specs.Prelude.{IfOk};
ghost use Rattle.tc_world.specs.EitherLink.{either};
ghost use Rattle.tc_desk.specs.Promise.{KeepsPromise};
ghost use Rattle.tc_room.specs.Joined.{desk_in};
ghost use Rattle.tc_cli.specs.Looping.{ServesLoop, ServesSome, serves_more, serves_none};

use crate::serving::{ServiceFault, closed};
use sqlite::Alter;
use std::alloc::{AllocError, Global};
use std::io::{self, Read, Write};
use std::net::{Ipv4Addr, TcpListener, TcpStream};
use tc_api::serve_one;
use tc_closed::{Answered, ScriptFault, Watch, put, status_of};
use tc_front::Door;
use tc_host::{HostWatch, open_desk, refusal_of, text_at};
use tc_posts::{
    Client, NumberedLine, Told, Untellable, left_out_note, numbered_lines, send_script, used_note,
};
use tc_room::Room;
use tc_run::{Opening, exchange, last_moment, later, latest_moment, open_told};
use tc_types::{Counted, Moment, Refusal};
use tc_words::{Numbers, Telling};

/// How many connections of other programs are let go at most before a program's own comes.
const MOST_STRANGERS: u32 = 1_000;

impl From<AllocError> for ServiceFault {
    fn from(_error: AllocError) -> ServiceFault {
        ServiceFault::from(ScriptFault::Memory)
    }
}

/// A server of the program's own.
#[derive(Drop)]
struct Server {
    listener: TcpListener,
    port: u16,
    door: Door,
    /// When the desk was opened.
    since: Moment,
}

/// What a call on a port tells by failing so.
fn fault_of(port: u16, error: &io::Error) -> ServiceFault {
    if error.kind() == io::ErrorKind::OutOfMemory {
        ServiceFault::from(ScriptFault::Memory)
    } else {
        ServiceFault::Port(port)
    }
}

/// Listens on 127.0.0.1 on a port that the system picks.
fn listen(rt: &HostRuntime, since: Moment) -> Result<Server, ServiceFault> {
    let bound = TcpListener::bind(rt, (Ipv4Addr::LOCALHOST, 0));
    let listener = bound.map_err(|_| ServiceFault::Port(0))?;
    let address = listener.local_addr().map_err(|_| ServiceFault::Port(0))?;
    let port = address.port();
    Ok(Server {
        listener,
        port,
        door: Door::new(rt.alloc(), port, None)?,
        since,
    })
}

/// Connects to the server, and sends it a request.
fn sent(rt: &HostRuntime, server: &Server, request: &[u8]) -> io::Result<TcpStream> {
    let stream = TcpStream::connect(rt, (Ipv4Addr::LOCALHOST, server.port))?;
    (&stream).write_all(request)?;
    Ok(stream)
}

/// Takes the connection of this client. One that another program opened is let go.
fn taken(server: &Server, client: &TcpStream) -> io::Result<TcpStream> {
    let own = client.local_addr()?;
    for _ in 0..MOST_STRANGERS {
        let (stream, peer) = server.listener.accept()?;
        if peer == own {
            return Ok(stream);
        }
    }
    Err(io::Error::from(io::ErrorKind::ConnectionAborted))
}

/// Serves the connection of this client of the program's own.
fn serve_client<S: Alter + Drop>(
    alloc: Global,
    server: &Server,
    client: &TcpStream,
    room: &mut Room<S>,
) -> Result<(), ServiceFault>
    ensures { ServesSome S.Store room.old room.new }
{
    let stream = taken(server, client).map_err(|error| fault_of(server.port, &error))?;
    let served = serve_one(
        alloc,
        &server.door,
        server.since,
        &mut Counted::new(&stream),
        &mut Counted::new(&stream),
        room,
    );
    served.map_err(|refusal| match refusal {
        Refusal::ReadFault | Refusal::WriteFault => ServiceFault::Port(server.port),
        _ => ServiceFault::from(ScriptFault::Memory),
    })
}

/// All that a client is sent.
fn received(alloc: Global, client: &TcpStream) -> io::Result<Vec<u8>> {
    let mut response = Vec::new(alloc);
    let mut reader = client;
    reader.read_to_end(&mut response)?;
    Ok(response)
}

/// What the desk answers a request, byte for byte.
fn response_to<S: Alter + Drop>(
    rt: &HostRuntime,
    server: &Server,
    room: &mut Room<S>,
    request: &[u8],
) -> Result<Vec<u8>, ServiceFault>
    ensures { ServesSome S.Store room.old room.new }
{
    let client = sent(rt, server, request).map_err(|error| fault_of(server.port, &error))?;
    serve_client(rt.alloc(), server, &client, room)?;
    received(rt.alloc(), &client).map_err(|error| fault_of(server.port, &error))
}

/// A client that sends the lines of a script to a server of the program's own, and writes what they are answered.
#[derive(Drop)]
struct HostClient<'rt, 'server, 'watch, 'script, 'writer, S: Alter + Drop, W: Write> {
    rt: &'rt HostRuntime,
    server: &'server Server,
    room: Room<S>,
    /// The name of the script.
    script: &'script str,
    watch: &'watch HostWatch<'script>,
    writer: &'writer mut Counted<W>,
    /// When the latest of the moves before the next line was, if there was one.
    last: Option<Moment>,
}

impl<S: Alter + Drop, W: Write> HostClient<'_, '_, '_, '_, '_, S, W> {
    /// Says that lines are left out of what a line was answered, if any are.
    fn say_left_out(&self, place: usize, more: u64) -> Result<(), ServiceFault> {
        if more > 0 {
            let note = left_out_note(self.rt.alloc(), self.script, place, more)?;
            let note = note.as_str();
            let _ = eprintln!(self.rt; "{note}");
        }
        Ok(())
    }
}

impl<S: Alter + Drop, W: Write> Client for HostClient<'_, '_, '_, '_, '_, S, W> {
    type Fault = ServiceFault;

    // no contract can say what a socket gives: only that the room served exchanges
    ghost did = { λ old _ new. ServesSome S.Store old.room new.room };

    ghost nothing = { λ client. serves_none _ client.room };

    ghost joined = { λ one two three _ _ first then. serves_more _ one.room two.room three.room first then };

    fn send(&mut self, request: &[u8]) -> Result<Vec<u8>, ServiceFault> {
        response_to(self.rt, self.server, &mut self.room, request)
    }

    fn say_used(&mut self, used: &[u64]) -> Result<(), ServiceFault> {
        let note = used_note(self.rt.alloc(), used)?;
        let note = note.as_str();
        let _ = eprintln!(self.rt; "tcdesk: {note}");
        Ok(())
    }

    fn show_answer(&mut self, line: &NumberedLine<'_>, told: Told) -> Result<(), ServiceFault> {
        let Told {
            text,
            refusal,
            more,
            last: _,
        } = told;
        let shown = exchange(self.rt.alloc(), self.watch.echoes(), line.line, text)?;
        put(self.writer, &shown)?;
        self.watch.answered(&Answered {
            number: line.place,
            line: line.line,
            refusal: refusal_of(refusal),
            last: self.last,
        });
        self.last = later(self.last, last_moment(&self.room));
        self.say_left_out(line.place, more)
    }

    fn show_places(&mut self, told: Told) -> Result<(), ServiceFault> {
        Ok(put(self.writer, told.text.as_bytes())?)
    }

    fn untellable(&self, why: Untellable) -> ServiceFault {
        match why {
            Untellable::Memory => ServiceFault::from(ScriptFault::Memory),
            Untellable::NoResponse => ServiceFault::Port(self.server.port),
        }
    }
}

/// A script that is sent, and what is said of it.
#[derive(Clone, Copy)]
struct Script<'name, 'text, 'lines, 'watch> {
    /// Its name.
    name: &'name str,
    lines: &'lines [NumberedLine<'text>],
    /// Whether nothing is sent if a number of a line was used before.
    only_new: bool,
    watch: &'watch HostWatch<'name>,
}

/// Sends the lines to a server of this room, and at the end the question how many requests stand where, which has no number. Returns the room too.
fn send_all<S: Alter + Drop, W: Write>(
    rt: &HostRuntime,
    room: Room<S>,
    since: Moment,
    script: &Script<'_, '_, '_, '_>,
    writer: &mut Counted<W>,
) -> (Result<u8, ServiceFault>, Room<S>)
    // README's promise is kept, however it ends
    ensures promise { KeepsPromise either (desk_in result.1) }
    // a loop that ends whole made exchanges, one after the other
    ensures served { IfOk result.0 (λ _. ServesLoop S.Store room result.1) }
{
    // read for the proof alone, here and below: the promise is kept
    let _begun = room.opened();
    let server = match listen(rt, since) {
        Ok(server) => server,
        Err(fault) => return (Err(fault), room),
    };
    let last = latest_moment(&room);
    let mut client = HostClient {
        rt,
        server: &server,
        room,
        script: script.name,
        watch: script.watch,
        writer,
        last,
    };
    let (port, lines) = (server.port, script.lines);
    let sent = send_script(rt.alloc(), &mut client, port, lines, script.only_new);
    let HostClient { room, .. } = client;
    let _ended = room.opened();
    match sent {
        Ok(refused) => (Ok(status_of(refused)), room),
        Err(fault) => (Err(fault), room),
    }
}

/// Says, if all is told, when a desk was opened that was worked before, and how many moves stood then. Its link is new since.
fn tell_new_link(rt: &HostRuntime, telling: Telling, since: Moment, stood: usize) {
    if telling.verbose && stood > 0 {
        let at = since.get();
        let _ = eprintln!(rt; "tcdesk: opened at {at} after {stood} moves: the link is new");
    }
}

/// Sends the lines of a script to the desk that a file keeps, opened at a moment, over HTTP: writes the moves that the opening made, the lines
/// of each response, and at the end those of the places. The lines have these numbers, whatever the desk answers; which of them were used before is said first, and then nothing is sent if
/// all have to be new. With an echo each line stands before its answer, after `> `. Gives the exit status: 1 if anything was refused or nothing was sent, else 0. The script is read whole before
/// the file is opened; the file is closed at the end, so that it alone holds everything.
pub fn send_to_file<'a>(
    rt: &'a HostRuntime,
    script: &'a str,
    file: &str,
    opening: &Opening,
    numbers: Numbers,
    telling: Telling,
) -> Result<u8, ServiceFault> {
    let text = text_at(rt, script)?;
    let lines = numbered_lines(rt.alloc(), &text, numbers.first)?;
    let store = open_desk(rt, file)?;
    let mut writer = Counted::new(io::writer(rt));
    match open_told(rt.alloc(), store, opening, &mut writer) {
        Ok(room) => {
            let watch = HostWatch::of_loop(rt, script, telling);
            watch.opened(opening.moment, latest_moment(&room));
            tell_new_link(rt, telling, opening.moment, room.opened());
            let script = Script {
                name: script,
                lines: &lines,
                only_new: numbers.only_new,
                watch: &watch,
            };
            let (ended, room) = send_all(rt, room, opening.moment, &script, &mut writer);
            closed(room.into_connection(), ended)
        }
        Err(left) => closed(left.store, Err(ServiceFault::from(left.fault))),
    }
}
