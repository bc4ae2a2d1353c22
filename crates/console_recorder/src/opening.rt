//! How a recorder is made for a plant, and how it ends.

ghost use Rattle.std.specs.Prelude.{◌≡◌, ◌<◌, [], IfOk};

use crate::board::open_board;
use crate::recorder::Recorder;
use base_trace::Trace;
use console_archive::{Archive, Book};
use engine::{Engine, Plant};
use std::alloc::{AllocError, Global};
use std::sync::ledger::{Blank, Ledger, Share};
use std::sync::{Arc, Wait};

/// The archive of a plant before the first event, and the whole share of its ledger.
fn open_archive<L: Ledger>(
    alloc: Global,
    plant: &Plant,
    blank: Blank,
) -> Result<(Arc<Archive<L>>, Share<L>), AllocError>
    requires name { blank.name ≡ L.name }
    requires parts { blank.parts ≡ L.parts }
    ensures { IfOk result (λ r. (r.1.parts ≡ L.parts) × (r.1.amount ≡ 0)) }
{
    let plant = plant.copy(alloc)?;
    let (tally, share) = blank.open::<L>();
    let Ok(book) = Book::new(alloc, plant, tally) else {
        drop(share);
        return Err(AllocError);
    };
    match Arc::new(alloc, Archive::new(book)) {
        Ok(archive) => Ok((archive, share)),
        Err(_) => Err(AllocError),
    }
}

impl<L: Ledger> Recorder<L> {
    /// The recorder of a plant before the first event, with an archive and a board. The blank is that of the ledger `L`. Fails if memory was refused; the
    /// plant is then gone.
    pub fn open<H: Wait>(
        rt: &H,
        alloc: Global,
        plant: Plant,
        blank: Blank,
    ) -> Result<Recorder<L>, AllocError>
        requires name { blank.name ≡ L.name }
        requires parts { (blank.parts ≡ L.parts) × (0 < L.parts) }
        ensures engine { IfOk result (λ r. (r.engine.plant ≡ plant) × (r.engine.history ≡ [])) }
        ensures whole { IfOk result (λ r. r.share.parts ≡ L.parts) }
    {
        let opened = open_archive(alloc, &plant, blank);
        let Ok((archive, share)) = opened else {
            drop(plant);
            return Err(AllocError);
        };
        let Ok(board) = open_board(rt, alloc, &plant) else {
            drop(archive);
            drop(share);
            drop(plant);
            return Err(AllocError);
        };
        match Engine::new(alloc, plant) {
            Ok(engine) => Ok(Recorder {
                engine,
                share,
                archive,
                board,
                refusals: Trace::new(),
            }),
            Err(refused) => {
                drop(archive);
                drop(share);
                drop(board.end(rt));
                Err(refused)
            }
        }
    }

    /// Ends it: its engine alone. The archive stays with those who have it. It waits for who looks at the board.
    pub fn end<H: Wait>(self, rt: &H) -> Engine
        ensures { result ≡ self.engine }
    {
        let Recorder {
            engine,
            share,
            archive,
            board,
            refusals: _,
        } = self;
        drop(share);
        drop(archive);
        drop(board.end(rt));
        engine
    }
}
