//! The workers, and the rounds in which they run jobs.
ghost use Rattle.std.specs.Prelude.{◌≡◌, ◌⊎◌, ◌++◌, ◌<◌, ◌≤◌, true, IfOk, IfErr, IsTrue, map};
ghost use Rattle.crew.specs.Faults.{IsMemoryAtMost, faults_after};
ghost use Rattle.crew.specs.declared.fault.CrewFault.TheVariants.{Memory};
ghost use Rattle.crew.specs.Runs.{AreNumbered, IsDistinct, IsEachOnce};
ghost use Rattle.crew.specs.Ticks.{IsTicked};
ghost use Rattle.standing_crew.specs.Assembled.{IsGathered, IsLost, IsMemoryOrNone};
ghost use Rattle.standing_crew.specs.Standings.{lost_after, IsAsBefore, IsByItself, IsNew, IsRefused, IsRunFault, IsStartFault};

use crate::gathered::{Gathered, gathered_all, run_in, take_in};
use crate::message::{Lists, Parcel, ReturnedRuns, lists_of, move_last, run_all, run_back};
use crate::share::{LEAST_ROUND, cost_of, cut, kept, own_of, share_of};
use crate::waiting::next_of;
use base_trace::Remembered;
use crew::{Begun, Crew, CrewFault, Gate, Work, begin_ticks, starts_of};
use crossbeam_channel::{Receiver, SendError, Sender};
use std::alloc::{AllocError, Global};
use std::marker::Model;
use std::mem::replace;
use std::sync::{Arc, Wait};
use std::thread;
use std::thread::{JoinHandle, Threads};

/// So many answers may wait for the caller: as many as a plant has programs at most.
const MOST_ANSWERS: usize = 512;

/// Workers that stand ready from one call to the next: the caller, and threads. `J` is a job, `S` what it starts from, `D` a run of it that
/// ended, and `G` the gate.
///
/// Each call of `run` is a round with a number of its own, which jobs and runs carry; what comes of another round is dropped. After a fault
/// other than `Memory` each further run answers `Lost`.
///
/// A worker's answer takes no memory: there is room for 512 from the beginning, and where so many wait, a worker waits until the caller takes
/// one. So none is refused for memory, which would leave the caller waiting for it.
pub struct Standing<J, S, D, G> {
    parcels: Option<Sender<Parcel<J, D>>>,
    waiting: Receiver<Parcel<J, D>>,
    answers: Receiver<ReturnedRuns<J, D>>,
    threads: Vec<JoinHandle<()>>,
    hands: u32,
    gate: Arc<G>,
    least: u64,
    starts: Vec<Begun<S>>,
    ticks: Vec<bool>,
    spare: Vec<Lists<J, D>>,
    round: u64,
    lost: bool,
    faults: u64,
    out: Remembered<Vec<Begun<S>>>,
    back: Remembered<Vec<D>>,
}

impl<J: Drop, S: Drop, D: Drop, G: Drop> Drop for Standing<J, S, D, G> {
    fn drop(self) {
        let Standing {
            parcels: _,
            waiting: _,
            answers: _,
            threads: _,
            hands: _,
            gate: _,
            least: _,
            starts: _,
            ticks: _,
            spare: _,
            round: _,
            lost: _,
            faults: _,
            out: _,
            back: _,
        } = self;
    }
}

impl<J, S, D, G> Model for Standing<J, S, D, G> {
    ghost use Rattle.standing_crew.specs.Standings.{PlainStanding};

    ghost Value = { PlainStanding S D };

    ghost view = { λ s. record { lost = s.lost; faults = s.faults; workers = s.hands; rounds = s.round; out = s.out.value.items; back = s.back.value.items } };
}

/// The jobs of a round that are to be handed out, and what they cost.
#[derive(Drop)]
struct Others<J> {
    jobs: Vec<J>,
    cost: u64,
}

/// How many messages of a round went out, and the fault `Memory` where memory for one more was refused. Jobs that didn't go out are given up.
struct HandedOut {
    messages: u64,
    fault: Option<CrewFault>,
}

/// Memory for one more message was refused.
fn given_up(messages: u64) -> HandedOut
    ensures { IsMemoryOrNone result.fault }
{
    HandedOut {
        messages,
        fault: Some(CrewFault::Memory),
    }
}

impl<
    J: Work<S, D> + Send + 'static,
    S: Drop + 'static,
    D: Drop + Send + 'static,
    G: Gate + Send + Sync + 'static,
> Standing<J, S, D, G> {
    /// A crew of 1 to 64 workers, each of which passes the gate before each job. The caller of `run` is one of them, so one fewer are threads.
    /// `Memory` where memory is refused, `NoThread` where a thread is not to be had.
    pub fn new<H: Threads + Wait + Clone + Send + Drop + 'static>(
        rt: &H,
        alloc: Global,
        workers: u32,
        gate: Arc<G>,
    ) -> Result<Standing<J, S, D, G>, CrewFault>
        requires { (0 < workers) × (workers ≤ 64) }
        ensures ready { IfOk result (λ crew. IsNew workers crew) }
        ensures refused { IfErr result (λ fault. IsStartFault fault) }
    {
        Standing::with_least(rt, alloc, workers, gate, LEAST_ROUND)
    }

    /// The same, where the caller says what jobs cost at least that are shared out: at 0 all are.
    pub fn with_least<H: Threads + Wait + Clone + Send + Drop + 'static>(
        rt: &H,
        alloc: Global,
        workers: u32,
        gate: Arc<G>,
        least: u64,
    ) -> Result<Standing<J, S, D, G>, CrewFault>
        requires { (0 < workers) × (workers ≤ 64) }
        ensures ready { IfOk result (λ crew. IsNew workers crew) }
        ensures refused { IfErr result (λ fault. IsStartFault fault) }
    {
        let Ok((parcels, waiting)) = crossbeam_channel::unbounded(alloc) else {
            return Err(CrewFault::Memory);
        };
        let Ok((done, answers)) = crossbeam_channel::bounded(alloc, MOST_ANSWERS) else {
            return Err(CrewFault::Memory);
        };
        let mut standing = Standing {
            parcels: Some(parcels),
            waiting,
            answers,
            threads: Vec::new(alloc),
            hands: workers,
            gate,
            least,
            starts: Vec::new(alloc),
            ticks: Vec::new(alloc),
            spare: Vec::new(alloc),
            round: 0,
            lost: false,
            faults: 0,
            out: Remembered::of(&Vec::new(alloc)),
            back: Remembered::of(&Vec::new(alloc)),
        };
        for _ in 1..workers {
            let added = add_thread::<J, S, D, G, H>(
                rt,
                &mut standing.threads,
                &standing.waiting,
                &done,
                &standing.gate,
            );
            if let Err(fault) = added {
                standing.close(rt);
                return Err(fault);
            }
        }
        Ok(standing)
    }
}

/// Starts a thread that runs what is handed out.
fn add_thread<
    J: Work<S, D> + Send + 'static,
    S: 'static,
    D: Drop + Send + 'static,
    G: Gate + Send + Sync + 'static,
    H: Threads + Wait + Clone + Send + Drop + 'static,
>(
    rt: &H,
    threads: &mut Vec<JoinHandle<()>>,
    waiting: &Receiver<Parcel<J, D>>,
    done: &Sender<ReturnedRuns<J, D>>,
    gate: &Arc<G>,
) -> Result<(), CrewFault>
    ensures { IfErr result (λ fault. IsStartFault fault) }
{
    let Ok(handle) = rt.clone() else {
        return Err(CrewFault::Memory);
    };
    let Ok(waiting) = waiting.clone() else {
        return Err(CrewFault::Memory);
    };
    let Ok(done) = done.clone() else {
        return Err(CrewFault::Memory);
    };
    let Ok(gate) = gate.clone() else {
        return Err(CrewFault::Memory);
    };
    if threads.reserve(1).is_err() {
        return Err(CrewFault::Memory);
    }
    match thread::spawn(
        rt,
        move || stand::<J, S, D, G, H>(&handle, &gate, &waiting, &done),
    ) {
        Ok(thread) => {
            threads.push_reserved(thread);
            Ok(())
        }
        Err(_) => Err(CrewFault::NoThread),
    }
}

/// Runs what is handed out until no more can come.
fn stand<J: Work<S, D>, S, D: Drop, G: Gate, H: Wait>(
    rt: &H,
    gate: &Arc<G>,
    waiting: &Receiver<Parcel<J, D>>,
    done: &Sender<ReturnedRuns<J, D>>,
) {
    for _ in rt.forever() {
        let Some(parcel) = next_of(rt, waiting) else {
            break;
        };
        if done
            .send(rt, answer_of::<J, S, D, G>(&**gate, parcel))
            .is_err()
        {
            break;
        }
    }
}

/// Runs the jobs of a message.
fn answer_of<J: Work<S, D>, S, D: Drop, G: Gate>(
    gate: &G,
    parcel: Parcel<J, D>,
) -> ReturnedRuns<J, D> {
    let Parcel {
        round,
        place,
        mut lists,
    } = parcel;
    let whole = run_back::<J, S, D, G>(gate, &mut lists.jobs, &mut lists.runs);
    ReturnedRuns {
        round,
        place,
        lists,
        whole,
    }
}

/// Waits until threads have ended, so many at most.
fn join_all<H: Threads>(rt: &H, threads: &mut Vec<JoinHandle<()>>, most: u32) {
    for _ in 0..most {
        let Some(thread) = threads.pop() else {
            break;
        };
        thread.join(rt);
    }
}

impl<J: Drop, S: Drop, D: Drop, G: Drop> Standing<J, S, D, G> {
    /// Ends the workers, and waits until they have ended. From then on each run answers `Lost`, also where there is nobody but the caller.
    pub fn retire<H: Threads + Wait>(&mut self, rt: &H)
        ensures lost { self.new.lost ≡ true }
        ensures faults { self.new.faults ≡ self.old.faults }
    {
        self.lost = true;
        self.parcels = None;
        join_all(rt, &mut self.threads, self.hands);
    }

    /// Ends the workers, and waits until they have ended.
    pub fn close<H: Threads + Wait>(self, rt: &H) {
        let mut crew = self;
        crew.retire(rt);
    }
}

impl<J: Work<S, D>, S: Drop, D: Drop, G: Gate> Standing<J, S, D, G> {
    /// Runs all jobs in the caller's thread. Nothing is compared, since nothing comes back.
    fn run_alone(&self, alloc: Global, jobs: Vec<J>) -> Result<Vec<D>, CrewFault>
        requires { AreNumbered J.number_of (map J.start_of jobs.items) }
        ensures each { IfOk result (λ runs. IsEachOnce (map J.start_of jobs.items)
            (map J.ended_from runs.items)) }
        ensures memory { IfErr result (λ fault. fault ≡ Memory) }
    {
        let mut runs = Vec::new(alloc);
        if run_all::<J, S, D, G>(&*self.gate, jobs, &mut runs) {
            Ok(runs)
        } else {
            Err(CrewFault::Memory)
        }
    }

    /// A round: the caller keeps some jobs, the others are handed out, and a run of each comes back. The caller runs alone what isn't worth a
    /// message.
    #[tactic(auto, using(crate::proofs::RunFaults::run_fault, crate::proofs::RunFaults::memory_fault, crate::proofs::RunFaults::memory_at_most))]
    fn round<H: Wait>(&mut self, rt: &H, alloc: Global, jobs: Vec<J>) -> Result<Vec<D>, CrewFault>
        requires { AreNumbered J.number_of (map J.start_of jobs.items) }
        ensures each { IfOk result (λ runs. IsEachOnce (map J.start_of jobs.items)
            (map J.ended_from runs.items)) }
        ensures why { IfErr result (λ fault. IsRunFault J.ended_from (map J.start_of jobs.items) self.old
            self.new fault) }
        ensures lost { self.old.lost ≡ true → IsLost result }
        ensures alone { IsByItself self.old → IsMemoryAtMost result }
        ensures stands { IsAsBefore self.old self.new }
    {
        if self.lost {
            return Err(CrewFault::Lost);
        }
        let whole = cost_of::<J, S, D>(jobs.as_slice());
        if self.hands < 2 || whole < self.least {
            return self.run_alone(alloc, jobs);
        }
        if self.round == u64::MAX {
            return Err(CrewFault::Lost);
        }
        self.round += 1;
        let mut own = jobs;
        let (many, cost) = kept::<J, S, D>(own.as_slice(), own_of(whole, self.hands));
        let Ok(jobs) = own.split_off(many) else {
            return Err(CrewFault::Memory);
        };
        let cost = whole.saturating_sub(cost);
        self.run_shared(rt, alloc, own, Others { jobs, cost })
    }

    /// What a round needs before any job is handed out: what the jobs start from, and a tick for each, all off.
    fn begin_round(
        &mut self,
        alloc: Global,
        jobs: &[J],
    ) -> Result<(Vec<Begun<S>>, Gathered<J, D>), AllocError>
        ensures starts { IfOk result (λ r. r.0.items ≡ map J.start_of jobs.now) }
        ensures ticked { IfOk result (λ r. IsTicked r.0.items r.1.ticks.items
            (map J.ended_from r.1.runs.items)) }
        ensures same { self.new ≡ self.old }
    {
        let room = replace(&mut self.starts, Vec::new(alloc));
        let starts = starts_of::<J, S, D>(jobs, room)?;
        let mut ticks = replace(&mut self.ticks, Vec::new(alloc));
        begin_ticks(starts.as_slice(), &mut ticks)?;
        let gathered = Gathered {
            runs: Vec::with_capacity(alloc, jobs.len())?,
            ticks,
            away: 0,
            fault: None,
            spare: replace(&mut self.spare, Vec::new(alloc)),
        };
        Ok((starts, gathered))
    }

    /// Keeps the lists of a round for the next one, and returns its runs. Contracts remember what was handed out and what came back.
    fn end_round(&mut self, starts: Vec<Begun<S>>, gathered: Gathered<J, D>) -> Vec<D>
        ensures runs { result ≡ gathered.runs }
        ensures out { self.new.out ≡ starts.items }
        ensures back { self.new.back ≡ gathered.runs.items }
        ensures same { IsAsBefore self.old self.new }
    {
        self.out = Remembered::of(&starts);
        self.back = Remembered::of(&gathered.runs);
        let Gathered {
            runs,
            ticks,
            away: _,
            fault: _,
            spare,
        } = gathered;
        self.spare = spare;
        self.starts = starts;
        self.starts.clear();
        self.ticks = ticks;
        runs
    }

    /// Runs the caller's own jobs, and has others run by whoever comes to them first. What the caller keeps to itself isn't compared.
    fn run_shared<H: Wait>(
        &mut self,
        rt: &H,
        alloc: Global,
        own: Vec<J>,
        others: Others<J>,
    ) -> Result<Vec<D>, CrewFault>
        requires { IsDistinct (map J.start_of own.items ++ map J.start_of others.jobs.items) }
        ensures each { IfOk result (λ runs. IsEachOnce
            (map J.start_of own.items ++ map J.start_of others.jobs.items)
            (map J.ended_from runs.items)) }
        ensures why { IfErr result (λ fault. IsRefused J.ended_from
            (map J.start_of own.items ++ map J.start_of others.jobs.items) self.new.out self.new.back
            fault ⊎ (fault ≡ Memory)) }
        ensures same { IsAsBefore self.old self.new }
    {
        let Ok((starts, mut gathered)) = self.begin_round(alloc, others.jobs.as_slice()) else {
            return Err(CrewFault::Memory);
        };
        let Ok(mut runs) = Vec::with_capacity(alloc, starts.len().saturating_add(own.len())) else {
            return Err(CrewFault::Memory);
        };
        let HandedOut { messages, fault } = self.hand_out(rt, alloc, others, &mut gathered.spare);
        gathered.away = messages;
        gathered.fault = fault;
        let whole = run_all::<J, S, D, G>(&*self.gate, own, &mut runs);
        self.gather(rt, starts.as_slice(), &mut gathered);
        let answer = gathered_all::<J, S, D>(starts.as_slice(), &gathered);
        let got = self.end_round(starts, gathered);
        answer?;
        if !whole {
            return Err(CrewFault::Memory);
        }
        joined(runs, got)
    }

    /// Hands out jobs by shares of what is left, from the last on.
    fn hand_out<H: Wait>(
        &self,
        rt: &H,
        alloc: Global,
        others: Others<J>,
        spare: &mut Vec<Lists<J, D>>,
    ) -> HandedOut
        ensures { IsMemoryOrNone result.fault }
    {
        let Others {
            jobs: mut left,
            mut cost,
        } = others;
        let mut messages = 0u64;
        while !left.is_empty() {
            let share = share_of(cost, self.hands);
            let (place, carried) = cut::<J, S, D>(left.as_slice(), share);
            cost = cost.saturating_sub(carried);
            let mut lists = lists_of(alloc, spare);
            let Ok(()) = move_last(&mut left, place, &mut lists.jobs) else {
                return given_up(messages);
            };
            match self.hand(rt, place, lists) {
                Ok(true) => messages = messages.saturating_add(1),
                Ok(false) => break,
                Err(_) => return given_up(messages),
            }
        }
        HandedOut {
            messages,
            fault: None,
        }
    }

    /// Hands out some jobs in one message, the first from a place, and tells whether the way out is open.
    fn hand<H: Wait>(&self, rt: &H, place: usize, lists: Lists<J, D>) -> Result<bool, AllocError> {
        let Some(parcels) = &self.parcels else {
            return Ok(false);
        };
        let parcel = Parcel {
            round: self.round,
            place,
            lists,
        };
        match parcels.send(rt, parcel) {
            Ok(()) => Ok(true),
            Err(SendError::OutOfMemory(_)) => Err(AllocError),
            Err(SendError::Disconnected(_)) => Ok(false),
        }
    }

    /// Hears of each message of this round. While some wait, the caller takes them back in turn and runs them, and between two of them takes in
    /// what has come: so it compares while others run.
    fn gather<H: Wait>(&self, rt: &H, starts: &[Begun<S>], gathered: &mut Gathered<J, D>)
        requires distinct { IsDistinct starts.now }
        requires ticked { IsGathered starts.now gathered.old.fault gathered.old.ticks.items
            (map J.ended_from gathered.old.runs.items) }
        ensures { IsGathered starts.now gathered.new.fault gathered.new.ticks.items
            (map J.ended_from gathered.new.runs.items) }
    {
        for _ in rt.forever() {
            self.take_answers(rt, starts, gathered);
            let Ok(parcel) = self.waiting.try_recv(rt) else {
                break;
            };
            self.run_parcel(starts, parcel, gathered);
        }
        self.hear(rt, starts, gathered);
    }

    /// Takes in what has come back so far.
    fn take_answers<H: Wait>(&self, rt: &H, starts: &[Begun<S>], gathered: &mut Gathered<J, D>)
        requires distinct { IsDistinct starts.now }
        requires ticked { IsGathered starts.now gathered.old.fault gathered.old.ticks.items
            (map J.ended_from gathered.old.runs.items) }
        ensures { IsGathered starts.now gathered.new.fault gathered.new.ticks.items
            (map J.ended_from gathered.new.runs.items) }
    {
        for _ in 0..gathered.away {
            let Ok(answer) = self.answers.try_recv(rt) else {
                break;
            };
            self.take_answer(starts, answer, gathered);
        }
    }

    /// Hears of each message of this round that is away, as long as one can come.
    fn hear<H: Wait>(&self, rt: &H, starts: &[Begun<S>], gathered: &mut Gathered<J, D>)
        requires distinct { IsDistinct starts.now }
        requires ticked { IsGathered starts.now gathered.old.fault gathered.old.ticks.items
            (map J.ended_from gathered.old.runs.items) }
        ensures { IsGathered starts.now gathered.new.fault gathered.new.ticks.items
            (map J.ended_from gathered.new.runs.items) }
    {
        for _ in rt.forever() {
            if gathered.away == 0 {
                break;
            }
            let Some(answer) = next_of(rt, &self.answers) else {
                break;
            };
            self.take_answer(starts, answer, gathered);
        }
    }

    /// Runs the jobs of a message of this round that came back unopened. One of another round is dropped.
    fn run_parcel(&self, starts: &[Begun<S>], parcel: Parcel<J, D>, gathered: &mut Gathered<J, D>)
        requires distinct { IsDistinct starts.now }
        requires ticked { IsGathered starts.now gathered.old.fault gathered.old.ticks.items
            (map J.ended_from gathered.old.runs.items) }
        ensures { IsGathered starts.now gathered.new.fault gathered.new.ticks.items
            (map J.ended_from gathered.new.runs.items) }
    {
        let Parcel {
            round,
            place,
            lists,
        } = parcel;
        if round == self.round {
            gathered.away = gathered.away.saturating_sub(1);
            run_in::<J, S, D, G>(&*self.gate, starts, lists, place, gathered);
        }
    }

    /// Takes in the runs of a message of this round. What comes of another round is dropped, and the first fault stays.
    fn take_answer(
        &self,
        starts: &[Begun<S>],
        answer: ReturnedRuns<J, D>,
        gathered: &mut Gathered<J, D>,
    )
        requires distinct { IsDistinct starts.now }
        requires ticked { IsGathered starts.now gathered.old.fault gathered.old.ticks.items
            (map J.ended_from gathered.old.runs.items) }
        ensures { IsGathered starts.now gathered.new.fault gathered.new.ticks.items
            (map J.ended_from gathered.new.runs.items) }
    {
        let ReturnedRuns {
            round,
            place,
            lists,
            whole,
        } = answer;
        if round != self.round {
            return;
        }
        gathered.away = gathered.away.saturating_sub(1);
        if whole {
            take_in::<J, S, D>(starts, lists, place, gathered);
        } else if gathered.fault.is_none() {
            gathered.fault = Some(CrewFault::Memory);
        }
    }
}

/// Runs, and others behind them. `Memory` where memory was refused.
fn joined<D: Drop>(runs: Vec<D>, others: Vec<D>) -> Result<Vec<D>, CrewFault>
    ensures all { IfOk result (λ all. all.items ≡ runs.items ++ others.items) }
    ensures memory { IfErr result (λ fault. fault ≡ Memory) }
{
    let mut all = runs;
    let mut more = others;
    if all.append(&mut more).is_err() {
        return Err(CrewFault::Memory);
    }
    Ok(all)
}

impl<J: Work<S, D>, S: Drop, D: Drop, G: Gate, H: Threads + Wait> Crew<J, S, D, H>
    for Standing<J, S, D, G> {
    ghost faulted = { λ s. s.faults };

    ghost asks = { Unit {0} };

    ghost alone = { IsByItself };

    fn run(&mut self, rt: &H, alloc: Global, jobs: Vec<J>) -> Result<Vec<D>, CrewFault>
        requires asked { Unit {0} }
        requires numbered { AreNumbered J.number_of (map J.start_of jobs.items) }
        ensures each { IfOk result (λ runs. IsEachOnce (map J.start_of jobs.items)
            (map J.ended_from runs.items)) }
        ensures faults { self.new.faults ≡ faults_after self.old.faults result }
        ensures alone { IsByItself self.old → IsMemoryAtMost result × IsByItself self.new }
        ensures why { IfErr result (λ fault. IsRunFault J.ended_from (map J.start_of jobs.items) self.old
            self.new fault) }
        ensures lost { self.old.lost ≡ true → IsLost result × (self.new.lost ≡ true) }
        ensures gone { self.new.lost ≡ lost_after self.old.lost result }
    {
        let answer = self.round(rt, alloc, jobs);
        if let Err(fault) = &answer {
            match fault {
                CrewFault::Memory => {}
                _ => {
                    self.lost = true;
                    self.faults = self.faults.saturating_add(1);
                }
            }
        }
        answer
    }

    fn faults(&self) -> u64
        ensures { result ≡ self.now.faults }
    {
        self.faults
    }

    fn is_alone(&self) -> bool
        ensures { IsTrue result → IsByItself self.now }
    {
        self.hands < 2 && !self.lost
    }
}
