//! Answers that are watched on their way out.

ghost use Rattle.std.specs.Prelude.{◌≡◌};

use crate::copies::KeptSources;
use memchr::memchr_iter;
use serve_runs::{Failed, Sink};
use std::alloc::Global;
use std::str;

/// How many bytes of a line tell what it is.
const HEAD: usize = 10;

/// What is said of refusals to whoever looks on, by the beginnings of their lines.
const HINTS: &[(&str, &str)] = &[
    (
        "REFUSED L1",
        "L1: no command; these are: scan MOMENT NAME=VALUE ..; ack, reset, unshelve, remove or return, and CONSOLE TAG; shelve CONSOLE TAG MS; restart CONSOLE PROGRAM; list; journal; reload and sizes, with a plant's texts behind it. In small letters, and no blank beside = (docs/PROTOCOL.md). Ctrl-D ends\n",
    ),
    (
        "REFUSED E1",
        "E1: a moment is never before that of the last scan\n",
    ),
    ("REFUSED E2", "E2: a moment is at most 4000000000000\n"),
    (
        "REFUSED E3",
        "E3: a name is none of the plant's inputs, or is there twice; nothing of this scan was taken\n",
    ),
    (
        "REFUSED E4",
        "E4: a value doesn't fit its input: TRUE or FALSE for a BOOL, a number for a DINT, milliseconds for a TIME; nothing of this scan was taken\n",
    ),
    (
        "REFUSED E6",
        "E6: the history is full: end this run, and begin another (docs/OPERATION.md, \"A million events, then a new record\")\n",
    ),
    (
        "REFUSED E7",
        "E7: the numbers of the consoles, in their order, aren't those of the plant that runs\n",
    ),
    (
        "REFUSED E8",
        "E8: the epoch isn't that of the plant that runs\n",
    ),
    (
        "REFUSED L2",
        "L2: the input ended before all bytes of the plant were there\n",
    ),
    (
        "REPLY O1",
        "O1: the plant has no alarm of this tag, in which letter case counts, or no program of this name\n",
    ),
    (
        "REPLY O2",
        "O2: the plant has no console of this number, or the alarm isn't in one of its areas\n",
    ),
    (
        "REPLY O3",
        "O3: the alarm's state doesn't take this order (docs/PROTOCOL.md, \"The states of an alarm\")\n",
    ),
    (
        "REPLY O4",
        "O4: this alarm may be shelved for 1 millisecond up to its max_shelve_ms, and never where that is 0\n",
    ),
    ("REPLY O5", "O5: the program hasn't stopped\n"),
];

/// What is said of a line to whoever looks on; empty where nothing is.
fn hint(head: &[u8]) -> &'static str {
    for (refused, said) in HINTS {
        if refused.as_bytes() == head {
            return *said;
        }
    }
    ""
}

/// What is said of so many events; empty where nothing is.
fn warning(events: u32) -> &'static str {
    match events {
        900_000 => {
            "warning: 900000 of 1000000 events; after these each scan and each order is REFUSED E6 (docs/OPERATION.md, \"A million events, then a new record\")\n"
        }
        990_000 => {
            "warning: 990000 of 1000000 events; after these each scan and each order is REFUSED E6 (docs/OPERATION.md, \"A million events, then a new record\")\n"
        }
        _ => "",
    }
}

/// Whether a whole answer tells of an event, by its first line: that of a scan begins with FAULT, ALARM, OUT or DONE, that of an order with REPLY, and that
/// of a reload with RELOADED.
fn tells_of_event(answer: &[u8]) -> bool {
    match answer.first() {
        Some(b'F' | b'A' | b'O' | b'D') => true,
        Some(b'R') => answer.starts_with(b"REP") || answer.starts_with(b"REL"),
        _ => false,
    }
}

/// Whether a line tells of an event, by its beginning: each answer of an event has one line DONE, REPLY or RELOADED. And what is said of a line to whoever looks on;
/// empty where nobody does.
fn judged(head: &[u8], is_watched: bool) -> (bool, &'static str) {
    let is_event = head.starts_with(b"DONE ")
        || head.starts_with(b"REPLY ")
        || head.starts_with(b"RELOADED ");
    if is_watched {
        (is_event, hint(head.get(..HEAD).unwrap_or(head)))
    } else {
        (is_event, "")
    }
}

/// Somebody who looks on, to whom refusals are explained, and the statements of faults are shown.
#[derive(Clone, Copy)]
pub struct Looker<'a> {
    pub alloc: Global,
    /// The sources of the plant that is served.
    pub kept: &'a KeptSources,
}

impl<'a> Looker<'a> {
    /// Tells where the statement of a line FAULT stands; nothing of another line.
    fn tell_fault(&self, rt: &impl Eprint, line: &[u8]) {
        if !line.starts_with(b"FAULT ") {
            return;
        }
        if let Ok(line) = str::from_utf8(line) {
            if let Some(told) = self.kept.told_of_fault(self.alloc, line) {
                let _ = eprint!(rt; "{told}");
            }
        }
    }
}

/// What is said of a line to whoever looks on, who has other sources by RELOADED; and whether it tells of an event.
fn judged_by(looker: Option<Looker<'_>>, head: &[u8]) -> (bool, &'static str) {
    let Some(looker) = looker else {
        return judged(head, false);
    };
    if head.starts_with(b"RELOADED ") {
        looker.kept.take_place();
    }
    judged(head, true)
}

/// The answers so far: the beginning of the last line, and how many events there were.
#[derive(Drop)]
struct Answers<'a> {
    head: [u8; HEAD],
    len: usize,
    events: u32,
    /// Whether of the last answer only a part has been taken.
    is_in_parts: bool,
    /// What has been taken of a line FAULT that isn't taken whole, where somebody looks on.
    fault: Option<Vec<u8>>,
    /// Who looks on, if anybody does.
    looker: Option<Looker<'a>>,
}

impl<'a> Answers<'a> {
    /// Takes bytes of a line, of which the first tell what it is.
    fn add(&mut self, bytes: &[u8]) {
        for byte in bytes {
            let Some(place) = self.head.get_mut(self.len) else {
                return;
            };
            *place = *byte;
            self.len = self.len.saturating_add(1);
        }
    }

    /// Counts a line that tells of an event, and returns what is said of a line: a warning before all else.
    fn counted(&mut self, is_event: bool, said: &'static str) -> &'static str {
        if is_event {
            self.events = self.events.saturating_add(1);
            let warned = warning(self.events);
            if !warned.is_empty() {
                return warned;
            }
        }
        said
    }

    /// Takes the rest of a line, which is mostly the whole of it and is looked at where it stands, and returns what is said of it.
    fn end_line(&mut self, rest: &[u8]) -> &'static str {
        if self.len == 0 {
            let (is_event, said) = judged_by(self.looker, rest);
            return self.counted(is_event, said);
        }
        self.add(rest);
        let head = self.head.get(..self.len).unwrap_or(b"");
        let (is_event, said) = judged_by(self.looker, head);
        self.len = 0;
        self.counted(is_event, said)
    }

    /// Sees what came of a write, which mostly takes an answer whole: then its first line tells enough, and none of the others is looked at.
    fn see(&mut self, rt: &impl Eprint, answer: &[u8], taken: usize) {
        let is_whole = answer.len() <= taken;
        if self.looker.is_some() || self.is_in_parts || !is_whole {
            self.is_in_parts = !is_whole;
            self.take(rt, answer.get(..taken).unwrap_or(answer));
            return;
        }
        if tells_of_event(answer) {
            let said = self.counted(true, "");
            self.tell(rt, said);
        }
    }

    /// Tells on standard error what there is to say.
    fn tell(&self, rt: &impl Eprint, said: &str) {
        if !said.is_empty() {
            let _ = eprint!(rt; "{said}");
        }
    }

    /// Tells whoever looks on where the statement of a line FAULT stands.
    fn tell_fault(&self, rt: &impl Eprint, line: &[u8]) {
        if let Some(looker) = self.looker {
            looker.tell_fault(rt, line);
        }
    }

    /// Keeps the bytes of a line FAULT that isn't taken whole yet, where somebody looks on and memory isn't refused; its first bytes where none has been taken
    /// before.
    fn keep(&mut self, bytes: &[u8]) {
        let Some(looker) = self.looker else {
            return;
        };
        let mut kept = match self.fault.take() {
            Some(kept) => kept,
            None if self.len == 0 && bytes.first() == Some(&b'F') => Vec::new(looker.alloc),
            None => return,
        };
        if kept.extend_from_slice(bytes).is_ok() {
            self.fault = Some(kept);
        }
    }

    /// Tells whoever looks on where the statement of a line FAULT stands that was taken in parts, by its last bytes.
    fn tell_kept(&mut self, rt: &impl Eprint, rest: &[u8]) {
        self.keep(rest);
        if let Some(line) = self.fault.take() {
            self.tell_fault(rt, line.as_slice());
        }
    }

    /// Takes bytes line by line, and tells on standard error what there is to say of them.
    fn take(&mut self, rt: &impl Eprint, bytes: &[u8]) {
        let mut begun = 0usize;
        for end in memchr_iter(b'\n', bytes) {
            let line = bytes.get(begun..end).unwrap_or(b"");
            let is_whole = self.len == 0;
            let said = self.end_line(line);
            begun = end.saturating_add(1);
            self.tell(rt, said);
            if is_whole {
                self.tell_fault(rt, line);
            } else {
                self.tell_kept(rt, line);
            }
        }
        let rest = bytes.get(begun..).unwrap_or(b"");
        self.keep(rest);
        self.add(rest);
    }
}

/// A sink whose answers are watched: on standard error it says when 90 and 99 of 100 events that a run may have are there, and where somebody looks on, what a
/// refused command wanted, and where the statement of a fault stands.
#[derive(Drop)]
pub struct Watching<'a, R: Eprint, S: Sink + Drop> {
    rt: &'a R,
    pub to: S,
    answers: Answers<'a>,
}

impl<'a, R: Eprint, S: Sink + Drop> Watching<'a, R, S> {
    /// Watches what goes to a sink.
    pub fn new(rt: &'a R, to: S, looker: Option<Looker<'a>>) -> Watching<'a, R, S>
        ensures { result.to ≡ to }
    {
        Watching {
            rt,
            to,
            answers: Answers {
                head: [0; HEAD],
                len: 0,
                events: 0,
                is_in_parts: false,
                fault: None,
                looker,
            },
        }
    }
}

impl<'a, R: Eprint, S: Sink + Drop> Sink for Watching<'a, R, S> {
    ghost written = { λ s. S.written s.to };

    ghost broken = { λ s. S.broken s.to };

    fn write(&mut self, buf: &[u8]) -> Result<usize, Failed> {
        match self.to.write(buf) {
            Ok(n) => {
                self.answers.see(self.rt, buf, n);
                Ok(n)
            }
            Err(failed) => Err(failed),
        }
    }

    fn failed(&self) -> bool {
        self.to.failed()
    }
}
