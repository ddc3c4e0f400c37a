//! A store on its way through a schedule: what one event does to it, to the history, and gives to be written.
ghost use Rattle.std.specs.Prelude.{◌≡◌, ◌≢◌, ◌+◌, ◌-◌, ◌^◌, ◌<◌, [], ◌∷◌, ◌++◌, IfOk, OnOk, OnErr};
ghost use Rattle.tab_service.specs.Replies.{reply_text};
ghost use Rattle.tab_service.specs.Forms.{IsInForm};
ghost use Rattle.tab_drive.specs.RunStates.{RunState, opened_state, opening, name_of, reply_outcome};
ghost use Rattle.tab_drive.specs.Outgoing.{outgoing_text};
ghost use Rattle.tab_drive.specs.Stores.{held_by, held_then, table_for, IsDecided, HasRoom};
ghost use Rattle.tab_drive.specs.Sessions.{Keeps, Stepped, Replied, Unchanged, RefusedAt, look_up, entries_for, entries_by};

use crate::entries::{row_entry, table_entry};
use crate::look_ups::{LookUp, look_up, table_of};
use crate::messages::whole_message;
use crate::outgoing::Outgoing;
use crate::ranges::AllKeys;
use crate::schedule::{RawMessage, Scheduled};
use crate::stores::{Store, StoreAnswer};
use std::alloc::Global;
use tab_auth::Keys;
use tab_history::{Ask, Bounds, Denied, Entry, History, Reply};
use tab_json::Scratch;
use tab_keys::Memory;
use tab_service::{
    Decided, ReplyBytes, Request, decide_with, http_fault, memory_reply, reply_bytes,
};

/// A store in memory on its way through a schedule, with the history so far.
#[derive(Drop)]
pub struct Session {
    /// The moment, in ticks of 100 ns since 1601-01-01T00:00:00Z.
    pub moment: u64,
    /// The number of the next event, from 1 on.
    pub number: u64,
    /// What is kept.
    pub store: Store,
    /// The entries so far, the opening's first.
    pub history: History,
}

impl Session {
    /// Opens a store without tables. Its history begins with the bounds of its one range.
    pub fn open(alloc: Global, moment: u64) -> Result<Session, Memory>
        ensures keeps { IfOk result (λ session. Keeps session (opened_state moment)) }
        ensures history { IfOk result (λ session. session.history ≡ opening ∷ []) }
    {
        let mut bounds = Vec::new(alloc);
        push(&mut bounds, AllKeys::first_bound(alloc)?)?;
        let mut history = History::new(alloc);
        history.push(alloc, Entry::Bounds(Bounds::new(bounds)))?;
        Ok(Session {
            moment,
            number: 1,
            store: Store::new(alloc)?,
            history,
        })
    }

    /// Takes one event, by way of the scratch for a body: adds its entries to the history and answers what it gives to be
    /// written. Where no memory is found, all is as before.
    pub fn step(
        &mut self,
        alloc: Global,
        keys: &Keys,
        event: Scheduled,
        scratch: &mut Scratch,
    ) -> Result<Outgoing, Memory>
        requires { self.old.number < 2 ^ 64 - 1 }
        ensures ok { (state : RunState) → Keeps self.old state → IfOk result (λ outgoing. Stepped keys.now state event (outgoing_text outgoing) self.old self.new) }
        ensures err { OnErr result (Unchanged self.old self.new) }
    {
        match event {
            Scheduled::Now { moment } => {
                self.moment = moment;
                self.number += 1;
                Ok(Outgoing::Done)
            }
            Scheduled::Call { message } => self.call(alloc, keys, message, scratch),
        }
    }

    /// Reads a message and answers it.
    fn call(
        &mut self,
        alloc: Global,
        keys: &Keys,
        message: RawMessage,
        scratch: &mut Scratch,
    ) -> Result<Outgoing, Memory>
        requires number { self.old.number < 2 ^ 64 - 1 }
        ensures ok { (state : RunState) → Keeps self.old state → IfOk result (λ outgoing. Stepped keys.now state (Scheduled.Call message) (outgoing_text outgoing) self.old self.new) }
        ensures err { OnErr result (Unchanged self.old self.new) }
    {
        match whole_message(alloc, message) {
            Ok(message) => match decide_with(alloc, &message, keys, self.moment, scratch)? {
                Decided::Go(request) => self.answer(alloc, request),
                Decided::No(reply) => Ok(self.refuse(Outgoing::Reply(reply))),
            },
            Err(refused) => match http_fault(&refused) {
                Some(reply) => Ok(self.refuse(Outgoing::Fixed(reply))),
                None => Err(Memory),
            },
        }
    }

    /// Gives the reply to a message that is refused before the store is asked.
    fn refuse(&mut self, outgoing: Outgoing) -> Outgoing
        requires { self.old.number < 2 ^ 64 - 1 }
        ensures text { result ≡ outgoing }
        ensures kept { RefusedAt self.old self.new }
    {
        self.number += 1;
        outgoing
    }

    /// Answers a request. All that can fail is done before anything changes.
    fn answer(&mut self, alloc: Global, request: Request) -> Result<Outgoing, Memory>
        requires number { self.old.number < 2 ^ 64 - 1 }
        requires in_form { IsInForm request.form.account request }
        ensures ok { IfOk result (λ outgoing. Replied self.old self.new request (outgoing_text outgoing)) }
        ensures err { OnErr result (Unchanged self.old self.new) }
    {
        let plan = planned(alloc, &mut self.store, &request, self.moment)?;
        self.record(alloc, plan.look, request.ask, plan.decided)?;
        Ok(plan.outgoing)
    }

    /// Adds the entries of a decided request to the history, and does what it does to the store. Where no memory is found
    /// for the entries, all is as before.
    fn record(
        &mut self,
        alloc: Global,
        look: Option<LookUp>,
        ask: Ask,
        decided: StoreAnswer,
    ) -> Result<(), Memory>
        requires number { self.old.number < 2 ^ 64 - 1 }
        requires effect { HasRoom self.old.store decided.effect }
        ensures history { OnOk result (self.new.history ≡ self.old.history ++ entries_by look self.old.number self.old.moment self.old.store.next_table ask decided.reply) }
        ensures held { OnOk result (held_by self.new.store ≡ held_then (held_by self.old.store) decided.effect) }
        ensures number { OnOk result (self.new.number ≡ self.old.number + 1) }
        ensures moment { self.new.moment ≡ self.old.moment }
        ensures err { OnErr result (Unchanged self.old self.new) }
    {
        let StoreAnswer { reply, effect } = decided;
        self.enter(alloc, look, ask, reply)?;
        self.number += 1;
        self.store.apply(effect);
        Ok(())
    }

    /// Adds the entries of a request that was replied to so, or none.
    fn enter(
        &mut self,
        alloc: Global,
        look: Option<LookUp>,
        ask: Ask,
        reply: Reply,
    ) -> Result<(), Memory>
        ensures history { OnOk result (self.new.history ≡ self.old.history ++ entries_by look self.old.number self.old.moment self.old.store.next_table ask reply) }
        ensures err { OnErr result (self.new.history ≡ self.old.history) }
        ensures same { self.new ≡ record self.old { history = self.new.history } }
    {
        let number = self.number;
        let Some(LookUp { name, table }) = look else {
            let answer = table_entry(number, self.store.next_table, ask, reply);
            return self.history.push(alloc, answer);
        };
        let looked_up = Entry::Resolve {
            ask: number,
            name,
            table,
        };
        match table {
            None => self.history.push(alloc, looked_up),
            Some(table) => {
                let answer = row_entry(number, self.moment, table, ask, reply);
                self.history.push_both(alloc, looked_up, answer)
            }
        }
    }
}

/// What a request comes to: its look-up, what the store answers, and what is written.
#[derive(Drop)]
struct Plan {
    look: Option<LookUp>,
    decided: StoreAnswer,
    outgoing: Outgoing,
}

/// What a request comes to over a store. Nothing that is kept changes, but for the room for what it does.
fn planned(alloc: Global, store: &mut Store, request: &Request, moment: u64) -> Result<Plan, Memory>
    requires in_form { IsInForm request.now.form.account request.now }
    ensures look { IfOk result (λ plan. plan.look ≡ look_up store.old.tables.names request.now.ask) }
    ensures decided { IfOk result (λ plan. IsDecided (held_by store.old) moment request.now.ask plan.decided) }
    ensures text { IfOk result (λ plan. outgoing_text plan.outgoing ≡ reply_outcome (reply_text request.now plan.decided.reply)) }
    ensures room { IfOk result (λ plan. HasRoom store.new plan.decided.effect) }
    ensures held { held_by store.new ≡ held_by store.old }
{
    let look = look_up(alloc, &store.tables, &request.ask)?;
    let table = table_of(&look);
    let (decided, outgoing) = prepare(alloc, store, request, table, moment)?;
    Ok(Plan {
        look,
        decided,
        outgoing,
    })
}

/// What a request comes to over a store and gives to be written. Nothing that is kept changes, but for the room for what
/// it does.
fn prepare(
    alloc: Global,
    store: &mut Store,
    request: &Request,
    table: Option<u64>,
    moment: u64,
) -> Result<(StoreAnswer, Outgoing), Memory>
    requires in_form { IsInForm request.now.form.account request.now }
    requires table { table ≡ table_for store.old.tables.names request.now.ask }
    ensures decided { IfOk result (λ plan. IsDecided (held_by store.old) moment request.now.ask plan.0) }
    ensures text { IfOk result (λ plan. outgoing_text plan.1 ≡ reply_outcome (reply_text request.now plan.0.reply)) }
    ensures room { IfOk result (λ plan. HasRoom store.new plan.0.effect) }
    ensures held { held_by store.new ≡ held_by store.old }
{
    match store.decide(alloc, &request.ask, table, moment) {
        Ok(decided) => {
            let bytes = reply_bytes(alloc, request, &decided.reply)?;
            Ok((decided, Outgoing::Reply(ReplyBytes::new(bytes))))
        }
        Err(_) => Ok((
            StoreAnswer::denial(Denied::Memory),
            Outgoing::Fixed(memory_reply()),
        )),
    }
}

/// Adds an item at the end.
fn push<T: Drop>(items: &mut Vec<T>, item: T) -> Result<(), Memory>
    ensures ok { OnOk result (items.new.items ≡ items.old.items ++ item ∷ []) }
    ensures err { OnErr result (items.new.items ≡ items.old.items) }
{
    match items.push(item) {
        Ok(()) => Ok(()),
        Err(_) => Err(Memory),
    }
}
