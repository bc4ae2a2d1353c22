ghost use Rattle.std.specs.Prelude.{◌≡◌, [], ◌∷◌, IfOk, IfErr, OnOk, OnErr, IsErrOf, IfSome, List, ℕ, false, None, Some};
ghost use Rattle.serve_lines.specs.Reloads.{reload_sizes};
ghost use Rattle.serve_requests.specs.Requests.{Request, request_of, last_request};
ghost use Rattle.serve_requests.specs.Splitting.{IsHeld, AsksAlike, AskAlike, IsPlain, given_requests};
ghost use Rattle.serve_faults.specs.Faults.{crew_faults, is_read, is_write};
ghost use Rattle.serve_session.specs.Session.{AsksFor, HasReadMore, HasReadAll, HasFailed, HasDoneNothing, HasAnsweredAll, HasStopped, Serves, Takes, Continues, HasServed};

use crate::reload::{Handed, answer_reload};
use crate::room::Room;
use base_streams::{Feed, Sink, empty_piece, fill};
use plant_folder::Listener;
use serve_answers::{Crew, Done, Engine, Job, Said, Start, answer_line, write_journal, write_list};
use serve_faults::{ServeFault, put_all};
use serve_lines::reload_sizes;
use serve_requests::{Ended, Held, Splitter, Taken};
use std::alloc::{AllocError, Global};
use std::marker::Model;
use std::sync::Wait;
use std::thread::Threads;

/// Answers a request that is a line alone, and no `reload`. Of a line that is too long its first bytes may stand for it.
fn answer<H, C: Crew<Job, Start, Done, H>, S: Sink>(
    rt: &H,
    engine: &mut Engine,
    crew: &mut C,
    sink: &mut S,
    room: &mut Room,
    line: &[u8],
) -> Result<(), ServeFault>
    requires asked { C.asks }
    ensures continues { Continues result engine.old engine.new (S.broken sink.old) (S.broken sink.new) }
    ensures crew { C.faulted crew.new ≡ crew_faults (C.faulted crew.old) result }
    ensures serves { reload_sizes line.now ≡ None → (request : Request) (body : List ℕ)
        → AsksFor line.now body request
        → Serves result (request ∷ []) engine.old engine.new (S.written sink.old) (S.written sink.new) }
{
    let alloc = room.alloc;
    room.text.clear();
    match answer_line(
        rt,
        alloc,
        engine,
        crew,
        &mut room.pool,
        &mut room.text,
        line,
    )? {
        Said::Text => put_all(sink, room.text.as_slice()),
        Said::List => write_list(engine, sink, &mut room.text),
        Said::Journal => write_journal(alloc, engine, sink, &mut room.text),
    }
}

/// What is kept between two pieces of an input: the splitter, which holds the bytes of a request that hasn't ended yet, and room for answers.
#[derive(Drop)]
struct Kept {
    splitter: Splitter,
    room: Room,
}

impl Kept {
    /// Answers a request of which bytes were held.
    fn answer_held<H: Threads + Sync, C: Crew<Job, Start, Done, H>, S: Sink, L: Listener>(
        &mut self,
        rt: &H,
        engine: &mut Engine,
        crew: &mut C,
        sink: &mut S,
        held: &Held,
        listener: &mut L,
    ) -> Result<(), ServeFault>
        requires asked { C.asks }
        ensures continues { Continues result engine.old engine.new
            (S.broken sink.old) (S.broken sink.new) }
        ensures crew { C.faulted crew.new ≡ crew_faults (C.faulted crew.old) result }
        ensures splitter { self.new.splitter ≡ self.old.splitter }
        ensures serves { (request : Request) → AsksAlike (request_of held.now) request
            → Serves result (request ∷ []) engine.old engine.new
            (S.written sink.old) (S.written sink.new) }
    {
        let (line, body) = held.request();
        match reload_sizes(line) {
            Some(sizes) => {
                let handed = Handed { sizes, body };
                answer_reload(rt, engine, sink, &mut self.room, &handed, listener)
            }
            None => answer(rt, engine, crew, sink, &mut self.room, line),
        }
    }

    /// Answers the request that ended, if one did.
    fn answer_ended<H: Threads + Sync, C: Crew<Job, Start, Done, H>, S: Sink, L: Listener>(
        &mut self,
        rt: &H,
        engine: &mut Engine,
        crew: &mut C,
        sink: &mut S,
        ended: Ended<'_>,
        listener: &mut L,
    ) -> Result<(), ServeFault>
        requires asked { C.asks }
        ensures continues { Continues result engine.old engine.new
            (S.broken sink.old) (S.broken sink.new) }
        ensures crew { C.faulted crew.new ≡ crew_faults (C.faulted crew.old) result }
        ensures splitter { self.new.splitter ≡ self.old.splitter }
        ensures serves { IsPlain ended.entry → (requests : List Request)
            → AskAlike (given_requests ended.entry) requests
            → Serves result requests engine.old engine.new (S.written sink.old) (S.written sink.new) }
    {
        match ended {
            Ended::Nothing => Ok(()),
            Ended::Line(line) => answer(rt, engine, crew, sink, &mut self.room, line),
            Ended::Held(held) => self.answer_held(rt, engine, crew, sink, &held, listener),
        }
    }

    /// Takes a piece of the input: answers the requests that end in it, and holds what follows the last of them.
    fn take_piece<H: Threads + Sync, C: Crew<Job, Start, Done, H>, S: Sink, L: Listener>(
        &mut self,
        rt: &H,
        engine: &mut Engine,
        crew: &mut C,
        sink: &mut S,
        piece: &[u8],
        listener: &mut L,
    ) -> Result<(), ServeFault>
        requires asked { C.asks }
        ensures continues { Continues result engine.old engine.new
            (S.broken sink.old) (S.broken sink.new) }
        ensures crew { C.faulted crew.new ≡ crew_faults (C.faulted crew.old) result }
        ensures gone { (begun : List ℕ) → IsHeld begun self.old.splitter
            → Takes result begun piece.now self.new.splitter engine.old engine.new
            (S.written sink.old) (S.written sink.new) }
    {
        let mut rest = piece;
        while !rest.is_empty() {
            let taken = self.splitter.take(rest)?;
            let Taken { ended, rest: after } = taken;
            self.answer_ended(rt, engine, crew, sink, ended, listener)?;
            rest = after;
        }
        Ok(())
    }

    /// Answers the last request of the input, which hasn't ended; there is none if nothing is held.
    fn take_end<H: Threads + Sync, C: Crew<Job, Start, Done, H>, S: Sink, L: Listener>(
        &mut self,
        rt: &H,
        engine: &mut Engine,
        crew: &mut C,
        sink: &mut S,
        listener: &mut L,
    ) -> Result<(), ServeFault>
        requires asked { C.asks }
        ensures continues { Continues result engine.old engine.new
            (S.broken sink.old) (S.broken sink.new) }
        ensures crew { C.faulted crew.new ≡ crew_faults (C.faulted crew.old) result }
        ensures held { self.new.splitter ≡ [] }
        ensures serves { (begun : List ℕ) → IsHeld begun self.old.splitter
            → Serves result (last_request begun) engine.old engine.new
            (S.written sink.old) (S.written sink.new) }
    {
        match self.splitter.end() {
            Some(held) => self.answer_held(rt, engine, crew, sink, &held, listener),
            None => Ok(()),
        }
    }
}

/// How a step of a session went.
#[derive(Clone, Copy, Drop)]
pub enum Step {
    /// A byte or more was read, and the requests that ended in these bytes were answered.
    More,
    /// The input has ended, and its last request was answered.
    Ended,
}

/// A session with an engine: what it has read of a request that hasn't ended yet. Contracts see these bytes.
pub struct Session {
    kept: Kept,
    /// Room for what is read at once.
    piece: Vec<u8>,
}

impl Drop for Session {
    fn drop(self) {
        let Session { kept: _, piece: _ } = self;
    }
}

impl Model for Session {
    ghost use Rattle.std.specs.Prelude.{◌≡◌, ℕ, List, vec_len};

    ghost Value = { List ℕ };

    ghost view = { λ s. s.kept.splitter };

    ghost invariant = { λ s. vec_len s.piece ≡ 65536 };
}

impl Session {
    /// A session before its first step.
    pub fn new(alloc: Global) -> Result<Session, AllocError>
        ensures { IfOk result (λ s. s ≡ []) }
    {
        let piece = empty_piece(alloc)?;
        let kept = Kept {
            splitter: Splitter::new(alloc),
            room: Room::new(alloc),
        };
        Ok(Session { kept, piece })
    }

    /// Reads once, and answers each request that ends in what was read before the next takes effect; at the end of the input it answers
    /// the last one. Whenever a step has returned `Ok`, what was written is exactly the text for all requests that have ended so far. The listener hears of
    /// each plant that is handed in, before its answer is written.
    ///
    /// Returns `Memory` only where memory was refused, and `Read`, `Write` and `Crew` only where the feed, the sink or the crew failed in this
    /// call. After an error a beginning of the requests took effect, and the session is of no more use. It waits where its feed or its crew
    /// waits.
    pub fn step<H: Threads + Sync, C: Crew<Job, Start, Done, H>, F: Feed, S: Sink, L: Listener>(
        &mut self,
        rt: &H,
        engine: &mut Engine,
        crew: &mut C,
        feed: &mut F,
        sink: &mut S,
        listener: &mut L,
    ) -> Result<Step, ServeFault>
        requires asked { C.asks }
        requires feed { F.broken feed.old ≡ false }
        requires sink { S.broken sink.old ≡ false }
        ensures plant { engine.new.plant ≡ engine.old.plant }
        ensures more { IfOk result (λ step. step ≡ Step.More
            → HasReadMore self.old self.new engine.old engine.new
            (F.remaining feed.old) (F.remaining feed.new) (S.written sink.old) (S.written sink.new)) }
        ensures ended { IfOk result (λ step. step ≡ Step.Ended
            → HasReadAll self.old self.new engine.old engine.new
            (F.remaining feed.old) (F.remaining feed.new) (S.written sink.old) (S.written sink.new)) }
        ensures err { OnErr result
            (HasFailed self.old engine.old engine.new (F.remaining feed.old) (F.remaining feed.new)
            (S.written sink.old) (S.written sink.new)) }
        ensures cut { IsErrOf result ServeFault.Read
            → HasDoneNothing engine.old engine.new (F.remaining feed.old) (F.remaining feed.new)
            (S.written sink.old) (S.written sink.new) }
        ensures read { F.broken feed.new ≡ is_read result }
        ensures write { S.broken sink.new ≡ is_write result }
        ensures crew { C.faulted crew.new ≡ crew_faults (C.faulted crew.old) result }
    {
        let Ok(n) = fill(feed, &mut self.piece) else {
            return Err(ServeFault::Read);
        };
        if n == 0 {
            self.kept.take_end(rt, engine, crew, sink, listener)?;
            return Ok(Step::Ended);
        }
        let (now, _) = self.piece.as_slice().split_at(n);
        self.kept.take_piece(rt, engine, crew, sink, now, listener)?;
        Ok(Step::More)
    }
}

/// Answers the requests of a feed until its end, step by step. Each answer is written before the next request takes effect and before more
/// is read. The listener hears of each plant that is handed in, before its answer is written.
///
/// Returns `Memory` only where memory was refused, and `Read`, `Write` and `Crew` only where the feed, the sink or the crew failed in this
/// call.
///
/// The clauses hold where `serve` returns: it waits where its feed or its crew waits, perhaps forever. What they say of bytes holds for a feed and a
/// sink that tell theirs (`remaining`, `written`), as those in memory do; of standard input and output no contract can say which bytes they
/// give and take.
pub fn serve<H: Threads + Wait + Sync, C: Crew<Job, Start, Done, H>, F: Feed, S: Sink, L: Listener>(
    rt: &H,
    alloc: Global,
    engine: &mut Engine,
    crew: &mut C,
    feed: &mut F,
    sink: &mut S,
    listener: &mut L,
) -> Result<(), ServeFault>
    requires asked { C.asks }
    requires feed { F.broken feed.old ≡ false }
    requires sink { S.broken sink.old ≡ false }
    ensures plant { engine.new.plant ≡ engine.old.plant }

    // All was read, each request took effect in turn, and their answers were written and nothing else.
    ensures ok { OnOk result
        (HasAnsweredAll engine.old engine.new (F.remaining feed.old) (F.remaining feed.new)
        (S.written sink.old) (S.written sink.new)) }

    // Before the first event: what was written is the text that belongs to the plant and to the bytes of the feed (`out_text_is_one`).
    ensures text { OnOk result (engine.old.history ≡ [] → IfSome (F.remaining feed.old)
        (λ bytes. HasServed engine.old.plant bytes (S.written sink.old) (S.written sink.new))) }

    // After an error: how far it came by the time of this fault. Where a read failed, all requests that had ended are answered; where a write,
    // an allocation or the crew failed, a beginning of those that were read took effect, and all their answers were written but for a part of the
    // last one's.
    ensures err { IfErr result (λ e. HasStopped e engine.old engine.new
        (F.remaining feed.old) (F.remaining feed.new) (S.written sink.old) (S.written sink.new)) }
    ensures read { F.broken feed.new ≡ is_read result }
    ensures write { S.broken sink.new ≡ is_write result }
    ensures crew { C.faulted crew.new ≡ crew_faults (C.faulted crew.old) result }
{
    let mut session = Session::new(alloc)?;
    for _ in rt.forever() {
        match session.step(rt, engine, crew, feed, sink, listener)? {
            Step::More => {}
            Step::Ended => return Ok(()),
        }
    }
    unreachable!()
}
