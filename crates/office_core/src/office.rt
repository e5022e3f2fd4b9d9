//! The type `Office` (the event engine), which accepts events and answers queries, and the
//! functions that open it with a store.
ghost use Rattle.std.specs.Prelude.{◌≡◌, ◌≤◌, ◌∷◌, true, false, None, Ok, Err};
ghost use Rattle.std.specs.Prelude.{IfOk, IfErr, MatchResult};
ghost use Rattle.std.specs.Option.{option_and_then};
ghost use Rattle.office_books.specs.Facts.{device_of, register_of, moment_limit};
ghost use Rattle.office_books.specs.History.{History, Opened};
ghost use Rattle.office_books.specs.Meters.{meter_of, installation_at};
ghost use Rattle.office_books.specs.Readings.{poll_row_of};
ghost use Rattle.office_books.specs.Refusals.{refusal_of, with_answer};
ghost use Rattle.office_books.specs.Sessions.{command_in};
ghost use Rattle.office_core.specs.Sessions.Places.{AsksOnSlot};
ghost use Rattle.office_core.specs.Sessions.Ranges.{AsksInRange};
ghost use Rattle.office_books.specs.Repeats.{repeat_of};
ghost use Rattle.office_core.specs.Asking.{OnlyAsks, TakesRows, intervals_of};
ghost use Rattle.office_core.specs.Asking.{ReportsRow, ReportsDays, ReportsRows};
ghost use Rattle.office_core.specs.DayRange.{ReportsDaysWithin};
ghost use Rattle.office_core.specs.Events as events;
ghost use Rattle.office_core.specs.Failing.{IsNotForWantOfDay};
ghost use Rattle.office_core.specs.Leaving.{BooksStand};
ghost use Rattle.office_core.specs.Parts.{ListsAccepted, entries_within, holds_named};
ghost use Rattle.office_core.specs.Parts.{intervals_within, meters_named};
ghost use Rattle.office_core.specs.Reopening.{HandsBackUnopened, LeavesOpening, Passed};
ghost use Rattle.office_core.specs.Reopening.{asking_moment};
ghost use Rattle.office_core.specs.Site.{ReportsSite};
ghost use Rattle.office_core.specs.Standing.{After, IsFresh, Stands, StandsIfClean};
ghost use Rattle.office_core.specs.Standing.{books_in, is_stopped, notes_in, outgoing_in};
ghost use Rattle.office_core.specs.Taking.{AnswersEvent, Ends, IsQuiet, IsReported, LeavesEvent};
ghost use Rattle.office_core.specs.Taking.{MayTake, Passes, SettlesNothing};
ghost use Rattle.office_core.specs.Taking.{TakesAccepted, TakesAny};

use crate::decisions::{decide, is_command, prove_list_is_planned, stops};
use crate::reopened_office::reopen;
use crate::site::SiteRow;
use crate::{Outgoing, Slot, carry_out, questions, settle_event, site};
use interval_core::{DayRange, DayTotal, Share};
use office_books::{Books, MeterEntry, Repeat, RowSink, Span, facts_are_lawful};
use office_events::{
    Answer, Device, Event, HeldReading, Installation, Name, Note, PollRow, Refusal, Register,
};
use std::alloc::Global;

/// An office: the part of the program that accepts events, polls devices, and records the energy of
/// their meters.
#[derive(Drop)]
pub struct Office<B: Books> {
    alloc: Global,
    books: B,
    latest: u64,
    slots: Vec<Slot>,
    stopped: bool,
    outgoing: Outgoing,
    notes: Vec<Note>,
}

impl<B: Books> Office<B> {
    /// Opens an office (the program's event engine) with a store, at the timestamp `moment` in
    /// seconds since 1970-01-01 UTC.
    ///
    /// At the opening no device is connected, and each poll that was still pending (without an
    /// outcome) is recorded as lost. If the opening is refused, the caller gets the store back.
    pub fn open(alloc: Global, mut books: B, moment: u64) -> Result<Office<B>, (B, Refusal)>
        ensures opened { (past : History) → BooksStand (B.ledger books) past
            → IfOk result (StandsIfClean B.ledger (Opened moment ∷ past)) }
        ensures leaves { (past : History) → BooksStand (B.ledger books) past
            → IfOk result (LeavesOpening B.ledger books moment past) }
        ensures fresh { IfOk result (λ office. IsFresh office) }
        ensures refused { (past : History) → BooksStand (B.ledger books) past
            → IfErr result (HandsBackUnopened B.ledger books moment past) }
        ensures passed { MatchResult result
            (λ office. Passed (B.ledger books) (B.ledger (books_in office)) (Ok office))
            (λ e. Passed {T = B} (B.ledger books) (B.ledger e.0) (Err e.1)) }
    {
        match reopen(alloc, &mut books, moment) {
            Err(why) => Err((books, why)),
            Ok(slots) => Ok(Office {
                alloc,
                books,
                latest: moment,
                slots,
                stopped: false,
                outgoing: Outgoing::none(),
                notes: Vec::new(alloc),
            }),
        }
    }

    /// Opens the program's store for queries, at the later of `moment` and the latest timestamp in
    /// the store.
    ///
    /// Therefore the store can be opened for queries even if the clock was set back to before the
    /// latest timestamp in the store. The opening records each pending poll (without an outcome) as
    /// lost.
    pub fn open_to_ask(alloc: Global, mut books: B, moment: u64) -> Result<Office<B>, (B, Refusal)>
        ensures opened { (past : History) → BooksStand (B.ledger books) past
            → IfOk result (StandsIfClean B.ledger (Opened (asking_moment past moment) ∷ past)) }
        ensures leaves { (past : History) → BooksStand (B.ledger books) past
            → IfOk result (LeavesOpening B.ledger books (asking_moment past moment) past) }
        ensures fresh { IfOk result (λ office. IsFresh office) }
        ensures refused { (past : History) → BooksStand (B.ledger books) past
            → IfErr result (HandsBackUnopened B.ledger books (asking_moment past moment) past) }
        ensures passed { MatchResult result
            (λ office. Passed (B.ledger books) (B.ledger (books_in office)) (Ok office))
            (λ e. Passed {T = B} (B.ledger books) (B.ledger e.0) (Err e.1)) }
    {
        match books.latest() {
            Err(fault) => Err((books, Refusal::from(fault))),
            Ok(latest) => Office::open(alloc, books, moment.max(latest)),
        }
    }

    /// Records the outcomes of the polls that an accepted device event ends, such as a response or
    /// a timeout.
    fn settle(&mut self, moment: u64, event: &Event) -> Result<Answer, Refusal>
        requires settling { events.is_command event.now ≡ false }
        requires limit { moment ≤ moment_limit }
        ensures takes { TakesAccepted B.ledger moment event.now self.old self.new result }
        ensures quiet { (past : History) → MayTake B.ledger past event.now self.old
            → refusal_of past moment event.now ≡ None → SettlesNothing past moment event.now
            → IsQuiet self.old self.new result }
        ensures passes { Passes B.ledger self.old self.new result }
    {
        match settle_event(self.alloc, &mut self.slots, &mut self.books, moment, event) {
            Ok(notes) => {
                self.latest = moment;
                self.notes = notes;
                Ok(Answer::Noted)
            }
            Err(fault) => Err(Refusal::from(fault)),
        }
    }

    /// Executes the command of an accepted event.
    fn obey(&mut self, moment: u64, event: &Event) -> Result<Answer, Refusal>
        requires asks { events.is_command event.now ≡ true }
        requires range { AsksInRange moment (command_in event.now) }
        requires there { AsksOnSlot self.old.slots.items (command_in event.now) }
        requires limit { moment ≤ moment_limit }
        ensures takes { TakesAccepted B.ledger moment event.now self.old self.new result }
        ensures passes { Passes B.ledger self.old self.new result }
    {
        match carry_out(self.alloc, &mut self.slots, &mut self.books, moment, event) {
            Ok(done) => {
                self.latest = moment;
                self.outgoing = done.outgoing;
                Ok(done.answer)
            }
            Err(fault) => Err(Refusal::from(fault)),
        }
    }

    /// Processes an event while the program is running. A retry gets its stored answer, and an
    /// invalid event is refused. Any other event ends polls or executes its command.
    fn process_event(&mut self, moment: u64, event: &Event) -> Result<Answer, Refusal>
        ensures takes { TakesAny B.ledger moment event.now self.old self.new result }
        ensures quiet { (past : History) → MayTake B.ledger past event.now self.old
            → SettlesNothing past moment event.now → IsQuiet self.old self.new result }
        ensures passes { Passes B.ledger self.old self.new result }
    {
        match decide(&mut self.books, &self.slots, self.latest, moment, event) {
            Err(fault) => Err(Refusal::from(fault)),
            Ok(Some(given)) => given,
            Ok(None) => {
                if is_command(event) {
                    self.obey(moment, event)
                } else {
                    self.settle(moment, event)
                }
            }
        }
    }

    /// Processes an event at the timestamp `moment`, in seconds since 1970-01-01 UTC.
    ///
    /// A refused event or a retry only clears the notifications and the bytes to send. If the store
    /// fails or memory runs out while polls end, the office stops and refuses all events until it
    /// is opened again. A device event that is refused, or that ends no poll, needs no query of the
    /// store and no memory.
    pub fn feed(&mut self, moment: u64, event: &Event) -> Result<Answer, Refusal>
        ensures answers { After B.ledger self.old self.new
            (AnswersEvent B.ledger moment event.now self.old self.new result) }
        ensures stands { After B.ledger self.old self.new
            (λ past. Stands B.ledger (with_answer past moment event.now result) self.new) }
        ensures leaves { After B.ledger self.old self.new
            (LeavesEvent B.ledger moment event.now self.old self.new result) }
        ensures reported { After B.ledger self.old self.new
            (λ past. IsReported past moment event.now result self.new) }
        ensures quiet { (past : History) → Stands B.ledger past self.old
            → is_stopped self.old ≡ false → SettlesNothing past moment event.now
            → IsQuiet self.old self.new result }
        ensures ends { Ends B.ledger self.old self.new event.now result }
    {
        self.outgoing = Outgoing::none();
        self.notes = Vec::new(self.alloc);
        if self.stopped {
            return Err(Refusal::Stopped);
        }
        prove_list_is_planned(event);
        let answer = self.process_event(moment, event);
        self.stopped = stops(event, &answer);
        answer
    }

    /// Returns the device with the name. The name `None` is an invalid name, which no device has.
    pub fn device(&mut self, name: &Option<Name>) -> Result<Device, Refusal>
        ensures found { ReportsRow B.ledger self.old self.new result
            (λ facts. option_and_then (device_of facts) name.now) }
        ensures asks { OnlyAsks B.ledger self.old self.new result }
        ensures no_day { IfErr result IsNotForWantOfDay }
    {
        if self.stopped {
            return Err(Refusal::Stopped);
        }
        questions::device(&mut self.books, name)
    }

    /// Returns the accounting register (a named energy counter) with the name. The name `None` is
    /// invalid, and no register has it.
    pub fn register(&mut self, name: &Option<Name>) -> Result<Register, Refusal>
        ensures found { ReportsRow B.ledger self.old self.new result
            (λ facts. option_and_then (register_of facts) name.now) }
        ensures asks { OnlyAsks B.ledger self.old self.new result }
        ensures no_day { IfErr result IsNotForWantOfDay }
    {
        if self.stopped {
            return Err(Refusal::Stopped);
        }
        questions::register(&mut self.books, name)
    }

    /// Returns the meter with the name: its opening (first entry), the state of its counter and its
    /// total energy. The name `None` is invalid, and no meter has it.
    pub fn meter(&mut self, name: &Option<Name>) -> Result<Installation, Refusal>
        ensures found { ReportsRow B.ledger self.old self.new result
            (λ facts. option_and_then (meter_of facts) name.now) }
        ensures asks { OnlyAsks B.ledger self.old self.new result }
        ensures no_day { IfErr result IsNotForWantOfDay }
    {
        if self.stopped {
            return Err(Refusal::Stopped);
        }
        questions::meter(&mut self.books, name)
    }

    /// Returns the latest meter at an accounting register (a named energy counter), open or closed,
    /// with the state of its counter and its total energy. The name `None` is invalid, and no
    /// register has it.
    pub fn installation(&mut self, register: &Option<Name>) -> Result<Installation, Refusal>
        ensures found { ReportsRow B.ledger self.old self.new result
            (λ facts. option_and_then (installation_at facts) register.now) }
        ensures asks { OnlyAsks B.ledger self.old self.new result }
        ensures no_day { IfErr result IsNotForWantOfDay }
    {
        if self.stopped {
            return Err(Refusal::Stopped);
        }
        questions::installation(&mut self.books, register)
    }

    /// Compares a request with the stored request that has the same idempotency key. The result is
    /// `Same` if both have the same bytes (a retry), otherwise `Other`.
    ///
    /// Returns `NotFound` if the store has no request with this idempotency key.
    pub fn repeat(
        &mut self,
        caller: &Option<Name>,
        number: u64,
        request: &[u8],
    ) -> Result<Repeat, Refusal>
        ensures found { ReportsRow B.ledger self.old self.new result (λ facts.
            option_and_then (λ name. repeat_of facts name number request.now) caller.now) }
        ensures asks { OnlyAsks B.ledger self.old self.new result }
        ensures no_day { IfErr result IsNotForWantOfDay }
    {
        if self.stopped {
            return Err(Refusal::Stopped);
        }
        questions::repeat(&mut self.books, caller, number, request)
    }

    /// Returns the poll with the given number, and its outcome if the poll has ended.
    pub fn poll(&mut self, number: u64) -> Result<PollRow, Refusal>
        ensures found { ReportsRow B.ledger self.old self.new result
            (λ facts. poll_row_of facts number) }
        ensures asks { OnlyAsks B.ledger self.old self.new result }
        ensures no_day { IfErr result IsNotForWantOfDay }
    {
        if self.stopped {
            return Err(Refusal::Stopped);
        }
        questions::poll(&mut self.books, number)
    }

    /// Passes the energy of a meter to the sink (a visitor of rows), in mWh: one row for each
    /// quarter hour, in order.
    pub fn intervals<K: RowSink<Share>>(
        &mut self,
        meter: &Option<Name>,
        sink: &mut K,
    ) -> Result<(), Refusal>
        ensures rows { ReportsRows K.takes B.ledger self.old self.new sink.old sink.new result
            (λ facts. intervals_of facts meter.now) }
        ensures puts { TakesRows K.takes sink.old sink.new }
        ensures asks { OnlyAsks B.ledger self.old self.new result }
        ensures no_day { IfErr result IsNotForWantOfDay }
    {
        if self.stopped {
            return Err(Refusal::Stopped);
        }
        questions::intervals(&mut self.books, meter, sink)
    }

    /// Passes the energy of a meter in a time span to the sink (a visitor of rows), in mWh: one row
    /// for each quarter hour, in order.
    pub fn intervals_within<K: RowSink<Share>>(
        &mut self,
        meter: &Option<Name>,
        span: Span,
        sink: &mut K,
    ) -> Result<(), Refusal>
        ensures rows { ReportsRows K.takes B.ledger self.old self.new sink.old sink.new result
            (λ facts. intervals_within facts meter.now span) }
        ensures puts { TakesRows K.takes sink.old sink.new }
        ensures asks { OnlyAsks B.ledger self.old self.new result }
        ensures no_day { IfErr result IsNotForWantOfDay }
    {
        if self.stopped {
            return Err(Refusal::Stopped);
        }
        questions::intervals_of_span(&mut self.books, meter, span, sink)
    }

    /// Passes the rejected readings of a meter in a time span to the sink (a visitor of rows), in
    /// the order in which they were recorded.
    pub fn holds<K: RowSink<HeldReading>>(
        &mut self,
        meter: &Option<Name>,
        span: Span,
        sink: &mut K,
    ) -> Result<(), Refusal>
        ensures rows { ReportsRows K.takes B.ledger self.old self.new sink.old sink.new result
            (λ facts. holds_named facts meter.now span) }
        ensures puts { TakesRows K.takes sink.old sink.new }
        ensures asks { OnlyAsks B.ledger self.old self.new result }
        ensures no_day { IfErr result IsNotForWantOfDay }
    {
        if self.stopped {
            return Err(Refusal::Stopped);
        }
        questions::holds(&mut self.books, meter, span, sink)
    }

    /// Returns all meters that were installed at an accounting register (a named energy counter),
    /// in order of installation, closed meters included. Each has the state of its counter and its
    /// total energy. The name `None` is invalid, and no register has it.
    pub fn meters(&mut self, register: &Option<Name>) -> Result<Vec<Installation>, Refusal>
        ensures listed { ListsAccepted B.ledger self.old self.new result
            (λ facts. meters_named facts register.now) }
        ensures asks { OnlyAsks B.ledger self.old self.new result }
        ensures no_day { IfErr result IsNotForWantOfDay }
    {
        if self.stopped {
            return Err(Refusal::Stopped);
        }
        questions::meters(&mut self.books, register)
    }

    /// Returns at most `most` entries (readings, resets and so on) of a meter from sequence number
    /// `from` on, in order, voided (cancelled) entries included. The opening, which installs the
    /// meter, has number 1.
    pub fn entries(
        &mut self,
        meter: &Option<Name>,
        from: u64,
        most: u32,
    ) -> Result<Vec<MeterEntry>, Refusal>
        ensures listed { ListsAccepted B.ledger self.old self.new result
            (λ facts. entries_within facts meter.now from most) }
        ensures asks { OnlyAsks B.ledger self.old self.new result }
        ensures no_day { IfErr result IsNotForWantOfDay }
    {
        if self.stopped {
            return Err(Refusal::Stopped);
        }
        questions::entries(&mut self.books, meter, from, most)
    }

    /// Passes the energy of an accounting register (a named energy counter) to the sink (a visitor
    /// of rows), in mWh: one row for each civil day in the store's time zone.
    ///
    /// The sink (a visitor of rows) gets the days in order, after the energy of all days was added
    /// up. A register without an installed meter has no days.
    pub fn days<K: RowSink<DayTotal>>(
        &mut self,
        register: &Option<Name>,
        sink: &mut K,
    ) -> Result<(), Refusal>
        ensures days { ReportsDays K.takes B.ledger self.old self.new sink.old sink.new result
            register.now }
        ensures puts { TakesRows K.takes sink.old sink.new }
        ensures asks { OnlyAsks B.ledger self.old self.new result }
    {
        if self.stopped {
            return Err(Refusal::Stopped);
        }
        facts_are_lawful();
        questions::days(self.alloc, &mut self.books, register, sink)
    }

    /// Passes the energy of an accounting register (a named energy counter) on the days of `range`
    /// to the sink (a visitor of rows), one row for each civil day.
    ///
    /// If both ends of `range` are given, the query reads only the quarter hours of the days in the
    /// range, and of two more days at each end.
    pub fn days_within<K: RowSink<DayTotal>>(
        &mut self,
        register: &Option<Name>,
        range: DayRange,
        sink: &mut K,
    ) -> Result<(), Refusal>
        ensures days { ReportsDaysWithin K.takes B.ledger self.old self.new sink.old sink.new result
            register.now range }
        ensures puts { TakesRows K.takes sink.old sink.new }
        ensures asks { OnlyAsks B.ledger self.old self.new result }
    {
        if self.stopped {
            return Err(Refusal::Stopped);
        }
        facts_are_lawful();
        questions::days_within(self.alloc, &mut self.books, register, range, sink)
    }

    /// Returns all accounting registers (named energy counters), each with the latest meter that
    /// was installed at it, if any.
    ///
    /// In the returned list, the devices, and the accounting registers (named energy counters) of
    /// each device, are in the order in which they were added.
    pub fn site(&mut self) -> Result<Vec<SiteRow>, Refusal>
        ensures found { ReportsSite B.ledger self.old self.new result }
        ensures asks { OnlyAsks B.ledger self.old self.new result }
        ensures no_day { IfErr result IsNotForWantOfDay }
    {
        if self.stopped {
            return Err(Refusal::Stopped);
        }
        site::rows(self.alloc, &mut self.books)
    }

    /// Returns the bytes to send after the last event: the frames of the polls that the event
    /// started.
    pub fn outgoing(&self) -> &[u8]
        ensures { result.now ≡ outgoing_in self.now }
    {
        self.outgoing.as_slice()
    }

    /// Returns the notifications of the last event: the outcomes of polls, each followed by the
    /// readings of the poll.
    pub fn notes(&self) -> &[Note]
        ensures { result.now ≡ notes_in self.now }
    {
        &self.notes
    }

    /// Closes the office (the part of the program that uses the store) and returns its store.
    pub fn into_books(self) -> B
        ensures { result ≡ books_in self }
    {
        let Office { books, .. } = self;
        books
    }
}
