//! The lines so far, the state after them, and what the next line means there.

ghost use Rattle.std.specs.Prelude.{◌≡◌, ◌+◌, ◌*◌, ◌<◌, ◌≤◌, ◌^◌, ◌++◌, ◌∷◌, [], ℕ, List, OnOk, IfOk};
ghost use Rattle.mrpc_table.specs.Lines.{IsIn};
ghost use Rattle.mrpc_table.specs.declared.limits.TheConstants.{MAX_HEAP, MAX_LOADS};
ghost use Rattle.script_grammar.specs.Meanings.{meanings_of};
ghost use Rattle.script_grammar.specs.WordKinds.{number_at};
ghost use Rattle.replay_script.specs.Stores.{drain_words, store_words, submit_words, turn_words};
ghost use Rattle.replay_script.specs.Words.{IsParsedAs};
ghost use Rattle.replay_script.specs.Keeping.{words_kept, heap_kept, place_kept, load_kept, work_kept, policy_kept, entry_kind_at, line_of_conn, line_of_store, line_of_race, line_of_submit, attaching, line_of_attach, detaching, line_of_detach, upgrading, line_of_upgrade, line_of_turn, line_of_moment, line_of_send, line_of_drain, line_of_form, IsMade, IsEmptyBody, CanAdd, connections_after, submissions_after};

use crate::chain::{EntryKind, EntryOutline};
use crate::connections::ConnectionStates;
use crate::limits::MAX_WORK;
use crate::script::{ScriptLine, ScriptLines};
use crate::short_lines::{SubmitLine, TurnLine};
use crate::store_line::StoreLine;
use mrpc_table::{Decimal, Memory, Name};
use policy_declarations::Declarations;
use script_grammar::{LineForm, ScriptReason, WordValue, name_at, number_at, unbounded_at};
use std::alloc::Global;

// The action lines so far, and the state after them.
#[derive(Drop)]
pub(crate) struct Body {
    pub lines: ScriptLines,
    pub connections: ConnectionStates,
    // The number of submissions.
    pub submissions: u64,
    pub closed: bool,
}

// Why words make no line.
#[derive(Clone, Copy)]
pub(crate) enum LineError {
    // They have this reason.
    Reason(ScriptReason),
    // Out of memory.
    Memory,
}

impl From<Memory> for LineError {
    ghost use Rattle.replay_script.specs.declared.body.LineError.TheVariants as flaw;

    ghost from_gives = { λ _ e. e ≡ flaw.Memory };

    fn from(_: Memory) -> LineError {
        LineError::Memory
    }
}

impl From<ScriptReason> for LineError {
    ghost use Rattle.replay_script.specs.declared.body.LineError.TheVariants as flaw;

    ghost from_gives = { λ reason e. e ≡ flaw.Reason reason };

    fn from(reason: ScriptReason) -> LineError {
        LineError::Reason(reason)
    }
}

// Returns the place, if it is at least 1 and below the heap's size in words.
fn place_in(words: u32, place: Decimal) -> Result<u32, ScriptReason>
    ensures { result ≡ place_kept words place }
{
    match place {
        Decimal::Small(place) if 1 <= place && place < u64::from(words) => Ok(place as u32),
        _ => Err(ScriptReason::Place),
    }
}

// Returns the number of a load, if it isn't 0.
fn load_of(load: u64) -> Result<u64, ScriptReason>
    ensures { result ≡ load_kept load }
{
    if load > 0 {
        Ok(load)
    } else {
        Err(ScriptReason::Place)
    }
}

// Returns the index of the declared policy with a name.
fn policy_in(declared: &Declarations, name: &[u8]) -> Result<usize, ScriptReason>
    ensures { result ≡ policy_kept declared.now name.now }
{
    match declared.policy(name) {
        Some(place) => Ok(place),
        None => Err(ScriptReason::Unknown),
    }
}

// Makes a flaw of a reason.
fn made(said: Result<ScriptLine, ScriptReason>) -> Result<ScriptLine, LineError>
    ensures { IsMade said result }
{
    match said {
        Ok(line) => Ok(line),
        Err(reason) => Err(LineError::Reason(reason)),
    }
}

// The kind of the declared policy at an index.
fn kind_at(declared: &Declarations, place: usize) -> EntryKind
    ensures { result ≡ entry_kind_at declared.now place }
{
    match declared.policies().get(place) {
        Some(named) => EntryKind::of(&named.policy),
        None => EntryKind::Count,
    }
}

impl Body {
    // Returns the size of a connection's heap in words; fails if the connection isn't open.
    #[inline(always)]
    fn heap(&self, conn: u64) -> Result<u32, ScriptReason>
        requires { IsIn 1 16 conn }
        ensures { result ≡ heap_kept (words_kept self.now conn) }
    {
        match self.connections.at(conn).words {
            Some(words) => Ok(words),
            None => Err(ScriptReason::Unknown),
        }
    }

    fn conn(&self, words: &[WordValue<'_>]) -> Result<ScriptLine, ScriptReason>
        requires conn { IsIn 1 16 (number_at (meanings_of words.now) 1) }
        requires words { number_at (meanings_of words.now) 2 ≤ MAX_HEAP }
        ensures { result ≡ line_of_conn self.now (meanings_of words.now) }
    {
        let conn = number_at(words, 1);
        match self.connections.at(conn).words {
            Some(_) => Err(ScriptReason::Known),
            None => Ok(ScriptLine::Conn {
                conn: conn as u32,
                words: number_at(words, 2) as u32,
            }),
        }
    }

    // Makes the line that stores a word, if the connection is open and its heap has the place.
    #[inline(always)]
    #[tactic(auto, unfolding(crate::specs::Keeping::line_of_store))]
    pub(crate) fn stored(&self, store: StoreLine) -> Result<ScriptLine, ScriptReason>
        requires { IsIn 1 16 store.conn }
        ensures { result ≡ line_of_store self.now (store_words store) }
    {
        let heap = self.heap(store.conn)?;
        let place = place_in(heap, store.place)?;
        Ok(ScriptLine::Store {
            conn: store.conn as u32,
            place,
            value: store.value,
        })
    }

    #[tactic(auto, unfolding(crate::specs::Keeping::line_of_store))]
    fn store(&self, words: &[WordValue<'_>]) -> Result<ScriptLine, ScriptReason>
        requires { IsIn 1 16 (number_at (meanings_of words.now) 1) }
        ensures { result ≡ line_of_store self.now (meanings_of words.now) }
    {
        self.stored(StoreLine {
            conn: number_at(words, 1),
            place: unbounded_at(words, 2),
            value: number_at(words, 3),
        })
    }

    #[tactic(auto, unfolding(crate::specs::Keeping::line_of_race))]
    fn race(&self, words: &[WordValue<'_>]) -> Result<ScriptLine, ScriptReason>
        requires { IsIn 1 16 (number_at (meanings_of words.now) 1) }
        ensures { result ≡ line_of_race self.now (meanings_of words.now) }
    {
        let conn = number_at(words, 1);
        let heap = self.heap(conn)?;
        let load = load_of(number_at(words, 2))?;
        let place = place_in(heap, unbounded_at(words, 3))?;
        Ok(ScriptLine::Race {
            conn: conn as u32,
            load,
            place,
            value: number_at(words, 4),
        })
    }

    // Fails if one more call could exceed the limit of words that all calls load.
    fn has_room(&self, loads: u64) -> Result<(), ScriptReason>
        requires small { loads ≤ MAX_LOADS }
        requires few { self.now.submissions ≤ MAX_WORK }
        ensures { result ≡ work_kept ((self.now.submissions + 1) * loads) }
    {
        if (self.submissions + 1) * loads <= MAX_WORK {
            Ok(())
        } else {
            Err(ScriptReason::Work)
        }
    }

    // Makes the line that submits a call, a request if `number` is 0. The connection has to be open, and the calls may
    // not exceed their limit of loads.
    #[tactic(auto, unfolding(crate::specs::Keeping::line_of_submit))]
    pub(crate) fn submitted(
        &self,
        loads: u64,
        submit: SubmitLine,
        number: u64,
    ) -> Result<ScriptLine, ScriptReason>
        requires conn { IsIn 1 16 submit.conn }
        requires method { submit.method ≤ 65535 }
        requires number { number < 2 ^ 32 }
        requires small { loads ≤ MAX_LOADS }
        requires few { self.now.submissions ≤ MAX_WORK }
        ensures { result ≡ line_of_submit loads self.now (submit_words submit) number }
    {
        self.heap(submit.conn)?;
        self.has_room(loads)?;
        Ok(ScriptLine::Submit {
            conn: submit.conn as u32,
            method: submit.method as u16,
            number: number as u32,
            addr: submit.addr,
        })
    }

    #[tactic(auto, unfolding(crate::specs::Keeping::line_of_submit))]
    fn submit(
        &self,
        loads: u64,
        words: &[WordValue<'_>],
        number: u64,
    ) -> Result<ScriptLine, ScriptReason>
        requires conn { IsIn 1 16 (number_at (meanings_of words.now) 1) }
        requires method { number_at (meanings_of words.now) 2 ≤ 65535 }
        requires number { number < 2 ^ 32 }
        requires small { loads ≤ MAX_LOADS }
        requires few { self.now.submissions ≤ MAX_WORK }
        ensures { result ≡ line_of_submit loads self.now (meanings_of words.now) number }
    {
        let submit = SubmitLine {
            conn: number_at(words, 1),
            method: number_at(words, 2),
            addr: number_at(words, 3),
        };
        self.submitted(loads, submit, number)
    }

    // The position at which a policy is attached, and its index among the declared ones.
    #[tactic(auto, unfolding(crate::specs::Keeping::attaching))]
    fn attaching(
        &self,
        declared: &Declarations,
        words: &[WordValue<'_>],
    ) -> Result<(u32, usize), ScriptReason>
        requires { IsIn 1 16 (number_at (meanings_of words.now) 1) }
        ensures { result ≡ attaching declared.now self.now (meanings_of words.now) }
    {
        let conn = number_at(words, 1);
        self.heap(conn)?;
        let policy = policy_in(declared, name_at(words, 4))?;
        let links = &self.connections.at(conn).links;
        let at = links.attach_position(unbounded_at(words, 2), name_at(words, 3))?;
        Ok((at, policy))
    }

    fn attach(
        &self,
        alloc: Global,
        declared: &Declarations,
        words: &[WordValue<'_>],
    ) -> Result<ScriptLine, LineError>
        requires { IsIn 1 16 (number_at (meanings_of words.now) 1) }
        ensures { IsMade (line_of_attach declared.now self.now (meanings_of words.now)) result }
    {
        let (at, policy) = self.attaching(declared, words)?;
        Ok(ScriptLine::Attach {
            conn: number_at(words, 1) as u32,
            at,
            name: Name::from_slice(alloc, name_at(words, 3))?,
            policy,
        })
    }

    #[tactic(auto, unfolding(crate::specs::Keeping::detaching))]
    fn detaching(&self, words: &[WordValue<'_>]) -> Result<(), ScriptReason>
        requires { IsIn 1 16 (number_at (meanings_of words.now) 1) }
        ensures { result ≡ detaching self.now (meanings_of words.now) }
    {
        let conn = number_at(words, 1);
        self.heap(conn)?;
        self.connections
            .at(conn)
            .links
            .check_detach(name_at(words, 2))
    }

    fn detach(&self, alloc: Global, words: &[WordValue<'_>]) -> Result<ScriptLine, LineError>
        requires { IsIn 1 16 (number_at (meanings_of words.now) 1) }
        ensures { IsMade (line_of_detach self.now (meanings_of words.now)) result }
    {
        self.detaching(words)?;
        Ok(ScriptLine::Detach {
            conn: number_at(words, 1) as u32,
            name: Name::from_slice(alloc, name_at(words, 2))?,
        })
    }

    // The index of the declared policy that an entry gets.
    #[tactic(auto, unfolding(crate::specs::Keeping::upgrading))]
    fn upgrading(
        &self,
        declared: &Declarations,
        words: &[WordValue<'_>],
    ) -> Result<usize, ScriptReason>
        requires { IsIn 1 16 (number_at (meanings_of words.now) 1) }
        ensures { result ≡ upgrading declared.now self.now (meanings_of words.now) }
    {
        let conn = number_at(words, 1);
        self.heap(conn)?;
        let policy = policy_in(declared, name_at(words, 3))?;
        let kind = kind_at(declared, policy);
        let links = &self.connections.at(conn).links;
        links.check_upgrade(name_at(words, 2), kind)?;
        Ok(policy)
    }

    fn upgrade(
        &self,
        alloc: Global,
        declared: &Declarations,
        words: &[WordValue<'_>],
    ) -> Result<ScriptLine, LineError>
        requires { IsIn 1 16 (number_at (meanings_of words.now) 1) }
        ensures { IsMade (line_of_upgrade declared.now self.now (meanings_of words.now)) result }
    {
        let policy = self.upgrading(declared, words)?;
        Ok(ScriptLine::Upgrade {
            conn: number_at(words, 1) as u32,
            name: Name::from_slice(alloc, name_at(words, 2))?,
            policy,
        })
    }

    // Makes the line of a turn, if the connection is open and has an engine at the position.
    #[tactic(auto, unfolding(crate::specs::Keeping::line_of_turn))]
    pub(crate) fn turned(&self, turn: TurnLine) -> Result<ScriptLine, ScriptReason>
        requires { IsIn 1 16 turn.conn }
        ensures { result ≡ line_of_turn self.now (turn_words turn) }
    {
        self.heap(turn.conn)?;
        let at = self.connections.at(turn.conn).links.engine(turn.at)?;
        Ok(ScriptLine::Turn {
            conn: turn.conn as u32,
            at,
        })
    }

    #[tactic(auto, unfolding(crate::specs::Keeping::line_of_turn))]
    fn turn(&self, words: &[WordValue<'_>]) -> Result<ScriptLine, ScriptReason>
        requires { IsIn 1 16 (number_at (meanings_of words.now) 1) }
        ensures { result ≡ line_of_turn self.now (meanings_of words.now) }
    {
        self.turned(TurnLine {
            conn: number_at(words, 1),
            at: unbounded_at(words, 2),
        })
    }

    #[tactic(auto, unfolding(crate::specs::Keeping::line_of_open))]
    fn moment(&self, words: &[WordValue<'_>]) -> Result<ScriptLine, ScriptReason>
        requires { IsIn 1 16 (number_at (meanings_of words.now) 1) }
        ensures { result ≡ line_of_moment self.now (meanings_of words.now) }
    {
        let conn = number_at(words, 1);
        self.heap(conn)?;
        Ok(ScriptLine::Moment {
            conn: conn as u32,
            ms: number_at(words, 2),
        })
    }

    #[tactic(auto, unfolding(crate::specs::Keeping::line_of_open))]
    fn send(&self, words: &[WordValue<'_>]) -> Result<ScriptLine, ScriptReason>
        requires { IsIn 1 16 (number_at (meanings_of words.now) 1) }
        ensures { result ≡ line_of_send self.now (meanings_of words.now) }
    {
        let conn = number_at(words, 1);
        self.heap(conn)?;
        Ok(ScriptLine::Send { conn: conn as u32 })
    }

    // Makes the line that drains a connection, if it is open.
    #[tactic(auto, unfolding(crate::specs::Keeping::line_of_open))]
    pub(crate) fn drained(&self, conn: u64) -> Result<ScriptLine, ScriptReason>
        requires { IsIn 1 16 conn }
        ensures { result ≡ line_of_drain self.now (drain_words conn) }
    {
        self.heap(conn)?;
        Ok(ScriptLine::Drain { conn: conn as u32 })
    }

    #[tactic(auto, unfolding(crate::specs::Keeping::line_of_open))]
    fn drain(&self, words: &[WordValue<'_>]) -> Result<ScriptLine, ScriptReason>
        requires { IsIn 1 16 (number_at (meanings_of words.now) 1) }
        ensures { result ≡ line_of_drain self.now (meanings_of words.now) }
    {
        self.drained(number_at(words, 1))
    }

    // Makes the line of words of a form, or returns their reason. The form is neither a declaration's nor `close`.
    pub(crate) fn line_of(
        &self,
        alloc: Global,
        loads: u64,
        declared: &Declarations,
        form: LineForm,
        words: &[WordValue<'_>],
    ) -> Result<ScriptLine, LineError>
        requires small { loads ≤ MAX_LOADS }
        requires few { self.now.submissions ≤ MAX_WORK }
        requires words { (line : List ℕ) × IsParsedAs form line (meanings_of words.now) }
        ensures { IsMade (line_of_form loads declared.now self.now form (meanings_of words.now)) result }
    {
        match form {
            LineForm::Conn => made(self.conn(words)),
            LineForm::Store => made(self.store(words)),
            LineForm::Race => made(self.race(words)),
            LineForm::Submit => made(self.submit(loads, words, 0)),
            LineForm::Reply => made(self.submit(loads, words, number_at(words, 4))),
            LineForm::Attach => self.attach(alloc, declared, words),
            LineForm::Detach => self.detach(alloc, words),
            LineForm::Upgrade => self.upgrade(alloc, declared, words),
            LineForm::Moment => made(self.moment(words)),
            LineForm::Turn => made(self.turn(words)),
            LineForm::Send => made(self.send(words)),
            LineForm::Drain => made(self.drain(words)),
            LineForm::Tenant
            | LineForm::Access
            | LineForm::Rate
            | LineForm::Quota
            | LineForm::Count
            | LineForm::Redact
            | LineForm::Close => Err(LineError::Reason(ScriptReason::Unknown)),
        }
    }

    // No lines, with room for this many.
    pub(crate) fn with_room(alloc: Global, room: usize) -> Result<Body, Memory>
        ensures { IfOk result IsEmptyBody }
    {
        Ok(Body {
            lines: ScriptLines::with_room(alloc, room)?,
            connections: ConnectionStates::new(alloc)?,
            submissions: 0,
            closed: false,
        })
    }

    // Appends a line that is legal after these. Inlined for lines that store a word, which change no state: nearly all
    // lines of a long script are such.
    #[inline(always)]
    pub(crate) fn add(
        &mut self,
        alloc: Global,
        declared: &Declarations,
        line: ScriptLine,
    ) -> Result<(), Memory>
        requires { CanAdd self.old line }
        ensures lines { OnOk result (self.new.lines ≡ self.old.lines ++ line ∷ []) }
        ensures connections { OnOk result (self.new.connections
            ≡ connections_after declared.now line self.old.connections) }
        ensures submissions { OnOk result (self.new.submissions ≡ submissions_after line self.old.submissions) }
        ensures closed { self.new.closed ≡ self.old.closed }
    {
        match &line {
            ScriptLine::Store { .. } | ScriptLine::Turn { .. } => {}
            ScriptLine::Submit { .. } => self.submissions += 1,
            _ => self.keep(alloc, declared, &line)?,
        }
        self.lines.push(line)?;
        Ok(())
    }

    // Updates the state of connections and the number of submissions by a line.
    #[inline(never)]
    fn keep(
        &mut self,
        alloc: Global,
        declared: &Declarations,
        line: &ScriptLine,
    ) -> Result<(), Memory>
        requires { CanAdd self.old line.now }
        ensures lines { self.new.lines ≡ self.old.lines }
        ensures connections { OnOk result (self.new.connections
            ≡ connections_after declared.now line.now self.old.connections) }
        ensures submissions { OnOk result (self.new.submissions
            ≡ submissions_after line.now self.old.submissions) }
        ensures closed { self.new.closed ≡ self.old.closed }
    {
        match line {
            ScriptLine::Conn { conn, words } => self.connections.open(*conn, *words),
            ScriptLine::Submit { .. } => self.submissions += 1,
            ScriptLine::Attach {
                conn,
                at,
                name,
                policy,
            } => {
                let link = EntryOutline {
                    name: name.copied(alloc)?,
                    kind: kind_at(declared, *policy),
                };
                self.connections.attach(*conn, *at, link)?;
            }
            ScriptLine::Detach { conn, name } => self.connections.detach(*conn, name.as_slice()),
            ScriptLine::Store { .. }
            | ScriptLine::Race { .. }
            | ScriptLine::Upgrade { .. }
            | ScriptLine::Moment { .. }
            | ScriptLine::Turn { .. }
            | ScriptLine::Send { .. }
            | ScriptLine::Drain { .. } => {}
        }
        Ok(())
    }
}
