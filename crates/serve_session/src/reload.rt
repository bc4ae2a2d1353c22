//! What a `reload` is answered.

ghost use Rattle.std.specs.Prelude.{◌≡◌, ◌++◌, ◌∷◌, [], IfOk, OnOk, OnErr, List, ℕ, take, drop, map, Some, false};
ghost use Rattle.serve_lines.specs.Reloads.{reload_sizes};
ghost use Rattle.serve_answers.specs.Engines.{state_of};
ghost use Rattle.serve_answers.specs.System.{reload_event};
ghost use Rattle.serve_answers.specs.Answers.{HasAdded, MayHaveAdded};
ghost use Rattle.serve_requests.specs.Requests.{Request};
ghost use Rattle.serve_faults.specs.Faults.{is_crew};
ghost use Rattle.serve_session.specs.Answers.{HasReloadedBody, MayHaveReloadedBody};
ghost use Rattle.serve_session.specs.Reloads.{texts_in, names_in, names_for, reload_answer, HasReloaded, MayHaveReloaded};
ghost use Rattle.serve_session.specs.Session.{AsksFor, Serves, Continues};

use crate::room::Room;
use base_streams::Sink;
use plant_folder::{ConfigFault, Files, Listener, Plant, PlantTexts, verdict};
use plant_types::{Items, Text};
use serve_answers::{Engine, EngineFault};
use serve_faults::{ServeFault, put_all};
use serve_lines::{TextSizes, push_refused, push_reloaded};
use std::alloc::{AllocError, Global};
use std::thread::Threads;

/// The names that a plant file lists for its sources; none where the bytes are no plant file.
fn names_in(alloc: Global, plant: &[u8]) -> Result<Items<Text>, AllocError>
    ensures { IfOk result (λ names. names ≡ names_in plant.now) }
{
    match Plant::files(alloc, plant) {
        Ok(files) => {
            let Files { sources, alarms: _ } = files;
            Ok(sources)
        }
        Err(ConfigFault::Memory) => Err(AllocError),
        Err(_) => Ok(Items::from_vec(Vec::new(alloc))),
    }
}

/// Splits bytes behind as many as a size says, or behind all of them where they are fewer.
fn split_behind(bytes: &[u8], size: u32) -> (&[u8], &[u8])
    ensures front { result.0.now ≡ take size bytes.now }
    ensures back { result.1.now ≡ drop size bytes.now }
{
    bytes.split_at((size as usize).min(bytes.len()))
}

/// The first name, and the others; the empty name where there is none.
fn first_name(names: &[Text]) -> (&str, &[Text])
    ensures { (text : List ℕ) (texts : List (List ℕ))
        → names_for names.now (text ∷ texts) ≡ result.0.now ∷ names_for result.1.now texts }
{
    match names.split_first() {
        Some((name, others)) => (name.as_str(), others),
        None => ("", names),
    }
}

/// Cuts bytes into sources of these sizes, each with the name that is listed for it.
fn named_sources<'a>(
    alloc: Global,
    names: &'a [Text],
    sizes: &[u32],
    bytes: &'a [u8],
) -> Result<Vec<(&'a str, &'a [u8])>, AllocError>
    ensures names { IfOk result (λ v. map (λ s. s.0.now) v.items
        ≡ names_for names.now (texts_in sizes.now bytes.now)) }
    ensures texts { IfOk result (λ v. map (λ s. s.1.now) v.items ≡ texts_in sizes.now bytes.now) }
{
    let mut sources = Vec::with_capacity(alloc, sizes.len())?;
    let mut listed = names;
    let mut rest = bytes;
    for size in sizes {
        let (text, after) = split_behind(rest, *size);
        let (name, others) = first_name(listed);
        sources.push((name, text))?;
        listed = others;
        rest = after;
    }
    Ok(sources)
}

/// Reloads a plant that was accepted, and appends the answer. It fails where memory was refused: before the plant was reloaded or after it.
fn reload_plant(
    alloc: Global,
    engine: &mut Engine,
    text: &mut Vec<u8>,
    plant: Plant,
) -> Result<(), AllocError>
    ensures plant { engine.new.plant ≡ engine.old.plant }
    ensures history { OnOk result
        (HasAdded engine.old engine.new (reload_event (state_of engine.old) plant)) }
    ensures text { OnOk result
        (text.new.items ≡ text.old.items ++ reload_answer (state_of engine.old) plant) }
    ensures err { OnErr result
        (MayHaveAdded engine.old engine.new (reload_event (state_of engine.old) plant)) }
{
    match engine.reload(alloc, plant) {
        Ok(reloaded) => push_reloaded(text, reloaded.kept, reloaded.fresh),
        // A reload asks no crew.
        Err(refused) => match refused.fault {
            EngineFault::Memory | EngineFault::Crew(_) => Err(AllocError),
            fault => push_refused(text, fault.text()),
        },
    }
}

/// Reloads the plant of texts, or says why there is none, and appends the answer to the text of a room. It fails where memory was refused: before the
/// plant was reloaded or after it. The listener hears of the plant first.
fn reload_texts<H: Threads + Sync, L: Listener>(
    rt: &H,
    engine: &mut Engine,
    room: &mut Room,
    texts: &PlantTexts<'_>,
    listener: &mut L,
) -> Result<(), AllocError>
    ensures plant { engine.new.plant ≡ engine.old.plant }
    ensures ok { OnOk result
        (HasReloaded texts.now engine.old engine.new room.old.text.items room.new.text.items) }
    ensures err { OnErr result (MayHaveReloaded texts.now engine.old engine.new) }
{
    let (accepted, line) = verdict(rt, room.alloc, texts, listener)?;
    match accepted {
        Some(plant) => reload_plant(room.alloc, engine, &mut room.text, plant),
        None => room.text.extend_from_slice(line.as_bytes()),
    }
}

/// A plant that is handed in: the sizes that a `reload` line gives, and the bytes that came after the line.
#[derive(Drop)]
pub(crate) struct Handed<'a> {
    pub(crate) sizes: TextSizes,
    pub(crate) body: &'a [u8],
}

/// Reloads the plant that is handed in, and writes the answer over the text of a room. It fails where memory was refused: before the plant was
/// reloaded or after it.
fn reload_body<H: Threads + Sync, L: Listener>(
    rt: &H,
    engine: &mut Engine,
    room: &mut Room,
    handed: &Handed<'_>,
    listener: &mut L,
) -> Result<(), AllocError>
    ensures plant { engine.new.plant ≡ engine.old.plant }
    ensures ok { OnOk result (HasReloadedBody handed.now.sizes handed.now.body.now
        engine.old engine.new room.new.text.items) }
    ensures err { OnErr result
        (MayHaveReloadedBody handed.now.sizes handed.now.body.now engine.old engine.new) }
{
    let alloc = room.alloc;
    let sizes = &handed.sizes;
    let body = handed.body;
    room.text.clear();
    if body.len() < sizes.total() {
        return push_refused(&mut room.text, "L2");
    }
    let (plant, rest) = split_behind(body, sizes.plant());
    let (alarms, rest) = split_behind(rest, sizes.alarms());
    let names = names_in(alloc, plant)?;
    let sources = named_sources(alloc, names.as_slice(), sizes.sources(), rest)?;
    let texts = PlantTexts {
        path: "plant.toml",
        plant,
        sources: sources.as_slice(),
        alarms,
    };
    reload_texts(rt, engine, room, &texts, listener)
}

/// Answers a `reload` by the plant that is handed in, of which a listener hears before the answer is written.
pub(crate) fn answer_reload<H: Threads + Sync, S: Sink, L: Listener>(
    rt: &H,
    engine: &mut Engine,
    sink: &mut S,
    room: &mut Room,
    handed: &Handed<'_>,
    listener: &mut L,
) -> Result<(), ServeFault>
    ensures continues { Continues result engine.old engine.new (S.broken sink.old) (S.broken sink.new) }
    ensures crew { is_crew result ≡ false }
    ensures serves { (request : Request) (line : List ℕ) → reload_sizes line ≡ Some handed.now.sizes
        → AsksFor line handed.now.body.now request
        → Serves result (request ∷ []) engine.old engine.new (S.written sink.old) (S.written sink.new) }
{
    reload_body(rt, engine, room, handed, listener)?;
    put_all(sink, room.text.as_slice())
}
