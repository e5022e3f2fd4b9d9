//! The HTTP server of `sunreg run`, with its listening socket and its connections.
ghost use Rattle.std.specs.Prelude.{◌≡◌, ◌⊎◌, false, true};
ghost use Rattle.office_http.specs.Messages.Hosts.{texts};
ghost use Rattle.office_running.specs.Http.Clients.{OnlyQueries, ServesClients};
ghost use Rattle.office_running.specs.Http.KeptRoom.{Counts};
ghost use Rattle.office_running.specs.Http.Responses.{Answers, ExecutesUnlessRejected};
ghost use Rattle.office_running.specs.Http.Responses.{RespondsAgain, RespondsTo};

use crate::http::clients::Client;
use crate::http::interval_answers::{append_piece, begin_all};
use crate::http::kept_room::{KeptRoom, is_acknowledged, is_command};
use crate::http::moments::even_milliseconds;
use crate::http::repeats::Repeats;
use crate::http::responses::{begin_response, unavailable};
use crate::http::run_context::{RunContext, RunSystem};
use crate::http::slots::{
    empty_slots, has_rows_left, held_bytes, is_attended, is_done, is_ready, open_slots,
    record_state,
};
use matchit::Router;
use mio::net::{TcpListener, TcpStream};
use mio::{Interest, Registry, Token};
use office_books::Books;
use office_core::Office;
use office_http::messages::{Route, router};
use run_http::{
    ClientResponse, RemainingRows, ask, asks_energy, for_browsers, may_void, run_route,
};
use run_schedule::{
    CLIENT_SECONDS, ClientSlots, MOST_CLIENTS, TurnShare, choose_slot, may_reply, place_at,
};
use std::alloc::{AllocError, Global};
use std::io::ErrorKind;
use std::mem;

// The maximum number of chunks of a response that are sent to one client in a row. The limits of
// one iteration of the main loop are usually reached earlier.
const MOST_PIECES: u32 = 64;

/// The event token of the listening socket. The token of a connection is its index among the
/// connections, which is lower.
pub const PORT_TOKEN: usize = MOST_CLIENTS;

/// A listening socket and up to 64 connections. The event loop marks the connections that are
/// ready, and the server serves one after the other.
#[derive(Drop)]
pub struct HttpPort {
    alloc: Global,
    listener: TcpListener,
    waiting: bool,
    router: Router<Route>,
    client_slots: ClientSlots,
    connections: Vec<Option<Client>>,
    /// The limits on responses (time, number and bytes) that remain in this pass of the event loop.
    share: TurnShare,
    /// The index of the connection that is served first in this pass of the event loop.
    first: usize,
    room: KeptRoom,
    repeats: Repeats,
    /// Whether a command was rejected because the limit for stored commands (`--most-kept`) was
    /// reached, and the rejection is not logged yet.
    is_full: bool,
    /// Whether a file of the store is missing. Then every command is rejected.
    is_lost: bool,
}

// Returns the number of bytes of a response.
fn size_of(asked: &ClientResponse) -> usize {
    match asked {
        ClientResponse::Replied(reply) => reply.len(),
        ClientResponse::Open | ClientResponse::Failed => 0,
    }
}

impl HttpPort {
    /// Makes an HTTP server without connections. The caller must have registered the listening
    /// socket with the token [`PORT_TOKEN`]. The server accepts `clients` connections at the same
    /// time, at most 64. Fails if memory runs out.
    pub fn new(
        alloc: Global,
        listener: TcpListener,
        room: KeptRoom,
        clients: usize,
    ) -> Result<HttpPort, AllocError> {
        let router = router(alloc)?;
        let connections = empty_slots(alloc)?;
        Ok(HttpPort {
            alloc,
            listener,
            waiting: true,
            router,
            client_slots: open_slots(clients),
            connections,
            share: TurnShare::whole(),
            first: 0,
            room,
            repeats: Repeats::new(),
            is_full: false,
            is_lost: false,
        })
    }

    /// Begins an iteration of the main loop: restores the full limits on the HTTP responses of one
    /// iteration. The limits bound how long HTTP delays the polling of devices.
    pub fn begin_turn(&mut self) {
        self.share = TurnShare::whole();
    }

    /// Returns the slot (index) of the connection that is served first. This is the slot after the
    /// slot that was answered last. If the response in the last slot has more rows, it is the last
    /// slot itself.
    pub fn first(&self) -> usize
        ensures { result ≡ self.now.first }
    {
        self.first
    }

    // Subtracts a response from the limits on responses in this pass of the event loop. The next
    // pass then serves the next connection first.
    fn record_reply(&mut self, slot: usize, bytes: usize, milliseconds: u64)
        ensures { self.new.room ≡ self.old.room }
    {
        self.share = self.share.after(bytes, milliseconds);
        self.first = place_at(slot, 1);
    }

    /// Returns whether a command was rejected since the last call because the limit for stored
    /// commands (`--most-kept`) was reached.
    pub fn take_full(&mut self) -> bool
        ensures taken { result ≡ self.old.is_full }
        ensures later { self.new.is_full ≡ false }
    {
        mem::replace(&mut self.is_full, false)
    }

    /// Drops the cached response for repeated requests. The caller must do so when the content of
    /// the store may have changed.
    pub fn forget_replies(&mut self) {
        self.repeats.forget();
    }

    /// Rejects every later command with status 503, since a file of the store is missing.
    pub fn lose_files(&mut self)
        ensures { self.new.is_lost ≡ true }
    {
        self.is_lost = true;
    }

    /// Returns whether a file of the store is missing. The server checks the files before it
    /// acknowledges a command.
    pub fn has_lost(&self) -> bool
        ensures { result ≡ self.now.is_lost }
    {
        self.is_lost
    }

    /// Marks as ready the listening socket or the connection that has this event token.
    pub fn mark(&mut self, token: usize) {
        if token == PORT_TOKEN {
            self.waiting = true;
        } else if token < self.connections.len() {
            if let Some(client) = &mut self.connections[token] {
                client.ready = true;
            }
        }
    }

    // Returns whether the HTTP server may make another response. The result is false while
    // responses that clients have not read yet take too much memory.
    fn may_reply(&self) -> bool {
        let mut held = 0usize;
        for connection in &self.connections {
            held = held.saturating_add(held_bytes(connection));
        }
        may_reply(held)
    }

    /// Returns whether any connection can be served without waiting.
    pub fn is_ready(&self) -> bool {
        let may_reply = self.may_reply();
        self.connections.iter().any(|it| is_ready(it, may_reply))
    }

    /// Returns whether a new connection may be waiting at the listening socket.
    pub fn is_waiting(&self) -> bool
        ensures { result ≡ self.now.waiting }
    {
        self.waiting
    }

    // Drops the connection in a slot (one of up to 64 places for connections), and frees the slot.
    fn drop_client(&mut self, slot: usize)
        ensures { self.new.room ≡ self.old.room }
    {
        if slot < MOST_CLIENTS && slot < self.connections.len() {
            self.client_slots.free_slot(slot);
            self.connections[slot] = None;
        }
    }

    /// Drops connections whose deadline has passed or whose client got the complete response.
    /// `time` is in seconds since 1970-01-01 UTC.
    pub fn sweep(&mut self, time: u64) {
        for slot in 0..MOST_CLIENTS {
            let is_late = self.client_slots.is_over(slot, time);
            if is_late || slot < self.connections.len() && is_done(&self.connections[slot], time) {
                self.drop_client(slot);
            }
        }
    }

    // Returns whether a new connection can get a slot (one of up to 64 places for connections). The
    // slot is free, or its client got the response, or its client has sent no request for a second.
    fn has_room(&self, time: u64) -> bool {
        let Some(slot) = choose_slot(&self.client_slots.places) else {
            return false;
        };
        if slot >= MOST_CLIENTS {
            return false;
        }
        match self.client_slots.places[slot].silent_until() {
            Some(until) => until < time.saturating_add(CLIENT_SECONDS),
            None => true,
        }
    }

    // Assigns one of the up to 64 slots for connections to a new connection.
    fn admit(&mut self, mut stream: TcpStream, registry: &Registry, time: u64) {
        let Some(admission) = self.client_slots.admit(time, CLIENT_SECONDS) else {
            return;
        };
        let both = Interest::READABLE | Interest::WRITABLE;
        let slot = admission.place;
        self.vacate_slot(slot);
        if registry.register(&mut stream, Token(slot), both).is_err() {
            self.drop_client(slot);
        } else if slot < self.connections.len() {
            self.connections[slot] = Some(Client::new(self.alloc, stream));
        }
    }

    // Drops the connection in a slot (one of up to 64 places for connections), if the slot has one.
    fn vacate_slot(&mut self, slot: usize) {
        if slot < self.connections.len() {
            self.connections[slot] = None;
        }
    }

    /// Accepts the connections that wait at the listening socket, as many as the server may serve
    /// at once.
    pub fn accept(&mut self, registry: &Registry, time: u64) {
        for _connection in 0..MOST_CLIENTS {
            if !self.waiting || !self.has_room(time) {
                return;
            }
            match self.listener.accept() {
                Ok((stream, _)) => self.admit(stream, registry, time),
                Err(error) => {
                    self.waiting = error.kind() != ErrorKind::WouldBlock;
                    return;
                }
            }
        }
    }

    // Executes a request for a route that `sunreg serve` and `sunreg run` share, after no route of
    // `sunreg run` alone matched. Rejects a command if the limit for stored commands is reached or
    // a file of the store is missing. `rows` receives the rows for later chunks of the response.
    fn execute<B: Books>(
        &self,
        request: &[u8],
        office: &mut Office<B>,
        moment: u64,
        rows: &mut Option<RemainingRows>,
    ) -> ClientResponse
        ensures { ExecutesUnlessRejected B.ledger moment office.old office.new
            self.now.router self.now.room.left self.now.is_lost request.now
            rows.old rows.new result }
    {
        let alloc = self.alloc;
        if self.room.rejects(request, self.is_lost) {
            return unavailable(alloc);
        }
        match begin_all(alloc, &self.router, request, office, rows) {
            Some(begun) => begun,
            None => ask(alloc, request, office, moment),
        }
    }

    // Makes the response to a complete request, or the first chunk of a long response. `rows`
    // receives the rows for later chunks of the response.
    fn reply<B: Books>(
        &self,
        request: &[u8],
        office: &mut Office<B>,
        context: &RunContext<'_>,
        rows: &mut Option<RemainingRows>,
    ) -> ClientResponse
        ensures serves { ServesClients (texts context.now.names.now) context.now.at.moment
            B.ledger office.old office.new }
        ensures responds { RespondsTo B.ledger self.now office.old office.new
            request.now context.now rows.old rows.new result }
    {
        match run_route(context.names, request) {
            Some(route) => { begin_response(self.alloc, office, &route, context, rows) }
            None => self.execute(request, office, context.at.moment, rows),
        }
    }

    // Returns the cached response if the request asks for energy, is equal to the cached request,
    // and the store recorded nothing since. Otherwise makes a new response. So a command never gets
    // a cached response.
    #[tactic(auto, using(crate::proofs::HttpLemmas::ServingClients::nobody_asks))]
    fn reply_again<B: Books>(
        &mut self,
        request: &[u8],
        office: &mut Office<B>,
        context: &RunContext<'_>,
        rows: &mut Option<RemainingRows>,
    ) -> ClientResponse
        ensures serves { ServesClients (texts context.now.names.now) context.now.at.moment
            B.ledger office.old office.new }
        ensures responds { RespondsAgain B.ledger self.old office.old office.new
            request.now context.now rows.old rows.new result }
    {
        if asks_energy(context.names, request) {
            if let Some(reply) = self.repeats.again(self.alloc, request) {
                return ClientResponse::Replied(reply);
            }
        }
        let asked = self.reply(request, office, context, rows);
        self.keep_reply(context.names, request, &asked);
        asked
    }

    // Caches a response about energy for repeated requests. A command drops the cached response,
    // since the command may change the energy.
    fn keep_reply(&mut self, names: &[&str], request: &[u8], asked: &ClientResponse) {
        if is_command(request) {
            self.repeats.forget();
        }
        if let ClientResponse::Replied(reply) = asked {
            if asks_energy(names, request) {
                self.repeats.keep(self.alloc, request, reply);
            }
        }
    }

    // Adds the response headers that protect users of browsers: a browser does not guess the type
    // of the body, and other sites cannot use the body.
    fn add_browser_headers(
        &self,
        names: &[&str],
        request: &[u8],
        asked: ClientResponse,
    ) -> ClientResponse {
        match asked {
            ClientResponse::Replied(reply) => match for_browsers(
                self.alloc, names, request, &reply,
            ) {
                Ok(reported) => ClientResponse::Replied(reported),
                Err(_) => ClientResponse::Failed,
            },
            ClientResponse::Open => ClientResponse::Open,
            ClientResponse::Failed => ClientResponse::Failed,
        }
    }

    // Returns whether the server serves the connection in a slot in this iteration of the main
    // loop.
    fn has_turn(&self, slot: usize) -> bool {
        match self.connections.get(slot) {
            Some(connection) => {
                is_attended(connection, self.share) && is_ready(connection, self.may_reply())
            }
            None => false,
        }
    }

    // Removes the client connection of a slot from the list of connections and returns it, if the
    // server serves this slot in this iteration of the main loop. Otherwise returns None.
    fn take_ready(&mut self, slot: usize) -> Option<Client> {
        if self.has_turn(slot) && slot < self.connections.len() {
            return self.connections[slot].take();
        }
        None
    }

    // Writes as much of the response as the socket accepts, and returns the connection to the list
    // of connections unless it has ended.
    fn return_client(&mut self, slot: usize, mut client: Client, time: u64) {
        client.write_reply(time);
        if client.is_over() {
            self.drop_client(slot);
        } else if slot < MOST_CLIENTS && slot < self.connections.len() {
            record_state(&mut self.client_slots, slot, &client);
            self.connections[slot] = Some(client);
        }
    }

    // Cuts off each response that still has rows to send. A request to void an entry (to withdraw a
    // false reading) may have changed these rows.
    fn cut_replies(&mut self)
        ensures { self.new.room ≡ self.old.room }
    {
        for slot in 0..MOST_CLIENTS {
            if slot < self.connections.len() && has_rows_left(&self.connections[slot]) {
                self.drop_client(slot);
            }
        }
    }

    // If the response in slot `slot` has more rows, lets the next iteration of the main loop begin
    // with this connection. Responses then end one after the other, and no client waits for all
    // other responses.
    fn keep_first(&mut self, slot: usize, has_more: bool) {
        if has_more {
            self.first = slot;
        }
    }

    // Subtracts a response from the limits of this iteration of the main loop, and an executed
    // command from the limit for stored commands. A request that may void (withdraw) an entry cuts
    // off all streamed responses, because the request may change their rows.
    fn count_reply(
        &mut self,
        slot: usize,
        request: &[u8],
        asked: &ClientResponse,
        milliseconds: u64,
    )
        ensures { Counts self.old.room.left self.new.room.left request.now asked.now }
    {
        self.record_reply(slot, size_of(asked), milliseconds);
        self.is_full = self.is_full || self.room.lacks(request);
        self.room.count(request, asked);
        if may_void(request) {
            self.cut_replies();
        }
    }

    // Replaces the acknowledgement of a command by status 503 if a file of the store is missing.
    fn confirmed<R: RunSystem>(
        &mut self,
        rt: &R,
        request: &[u8],
        asked: ClientResponse,
    ) -> ClientResponse
        ensures { (result ≡ asked) ⊎ (self.new.is_lost ≡ true) }
    {
        if !is_acknowledged(request, &asked) || rt.are_files_there() {
            return asked;
        }
        self.lose_files();
        unavailable(self.alloc)
    }

    // Makes the response to the complete request of a client.
    fn answer_request<R: RunSystem, B: Books>(
        &mut self,
        rt: &R,
        slot: usize,
        client: &mut Client,
        office: &mut Office<B>,
        context: &RunContext<'_>,
    )
        ensures serves { ServesClients (texts context.now.names.now) context.now.at.moment
            B.ledger office.old office.new }
        ensures answers { Answers B.ledger self.old office.old office.new
            client.old.request.items context.now }
    {
        let begun = even_milliseconds(rt);
        let mut rows = None;
        let asked = self.reply_again(&client.request, office, context, &mut rows);
        let asked = self.confirmed(rt, &client.request, asked);
        let took = even_milliseconds(rt).saturating_sub(begun);
        self.count_reply(slot, &client.request, &asked, took);
        self.keep_first(slot, rows.is_some());
        let asked = self.add_browser_headers(context.names, &client.request, asked);
        client.start_reply(asked, rows);
    }

    // Sends the next chunk of a client's response.
    #[tactic(auto, using(crate::proofs::HttpLemmas::ServingClients::queries_nothing))]
    fn send_piece<R: std::rt::Clock, B: Books>(
        &mut self,
        rt: &R,
        slot: usize,
        client: &mut Client,
        office: &mut Office<B>,
    )
        ensures { OnlyQueries B.ledger office.old office.new }
    {
        let Some(rows) = &mut client.rows else {
            return;
        };
        let begun = even_milliseconds(rt);
        let mut text = Vec::new(self.alloc);
        let put = append_piece(self.alloc, &mut text, rows, office);
        let took = even_milliseconds(rt).saturating_sub(begun);
        self.record_reply(slot, text.len(), took);
        self.keep_first(slot, put == Some(false));
        match put {
            Some(is_last) => client.append_rows(text, is_last),
            None => client.cut_reply(),
        }
    }

    // Sends chunks of a response while the socket accepts them and the limits of this iteration of
    // the main loop allow more.
    fn send_pieces<R: std::rt::Clock, B: Books>(
        &mut self,
        rt: &R,
        slot: usize,
        client: &mut Client,
        office: &mut Office<B>,
        time: u64,
    )
        ensures { OnlyQueries B.ledger office.old office.new }
    {
        for _piece in 0..MOST_PIECES {
            if !client.wants_rows() || self.share.is_over() {
                return;
            }
            self.send_piece(rt, slot, client, office);
            client.write_reply(time);
        }
    }

    // Reads from a client and answers the client's request, or sends more of the client's response.
    fn serve_client<R: RunSystem, B: Books>(
        &mut self,
        rt: &R,
        slot: usize,
        client: &mut Client,
        office: &mut Office<B>,
        context: &RunContext<'_>,
    )
        ensures { ServesClients (texts context.now.names.now) context.now.at.moment
            B.ledger office.old office.new }
    {
        if client.read_request(&self.router) {
            self.answer_request(rt, slot, client, office, context);
            return;
        }
        self.send_pieces(rt, slot, client, office, context.at.time);
    }

    /// Serves the HTTP connection in a slot (one of up to 64 places for connections). The
    /// connection must be ready, and the limits of this iteration of the main loop must allow it.
    #[tactic(auto, using(crate::proofs::HttpLemmas::ServingClients::nobody_asks))]
    pub fn attend<R: RunSystem, B: Books>(
        &mut self,
        rt: &R,
        slot: usize,
        office: &mut Office<B>,
        context: &RunContext<'_>,
    )
        ensures { ServesClients (texts context.now.names.now) context.now.at.moment
            B.ledger office.old office.new }
    {
        let Some(mut client) = self.take_ready(slot) else {
            return;
        };
        self.serve_client(rt, slot, &mut client, office, context);
        self.return_client(slot, client, context.at.time);
    }
}
