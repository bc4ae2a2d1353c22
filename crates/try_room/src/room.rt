//! The life of the station.

ghost use Rattle.std.specs.Prelude.{◌≡◌, ◌<◌};

use crate::console_reports::push_consoles;
use crate::crews::Workers;
use crate::day::go_through;
use crate::house::Houses;
use crate::keeper::{end_keeper, start_keeper};
use crate::reports::{push_end, push_history, push_kept};
use crate::shift::Shift;
use station::Station;
use std::alloc::Global;
use std::sync::Wait;
use std::sync::ledger::{Blank, Ledger};
use std::thread::Threads;
use std::time::Clock;
use try_desks::{Ended, Plants, join_all, seat_all};

/// The whole life of a station: its consoles go to threads of their own, the owner goes through the script, in which its plant is changed, the consoles come
/// back, and what there is to tell is added. Tells whether the day was whole.
pub fn run<
    L: Ledger + Send + Sync + 'static,
    R: Threads + Wait + Clock + Clone + Send + Drop + 'static,
>(rt: &R, alloc: Global, houses: Houses, crew: Workers, shift: &mut Shift, blank: Blank) -> bool
    requires { (blank.name ≡ L.name) × (blank.parts ≡ L.parts) × (0 < L.parts) }
{
    let Shift {
        script,
        watch,
        events,
        page,
    } = shift;
    let Houses { first, second } = houses;
    let Ok((mut station, consoles)) = Station::<L, Workers>::new(rt, alloc, first, crew, blank)
    else {
        page.line("NO STATION");
        return false;
    };
    let wanted = consoles.len();
    let plants = Plants {
        first: station.engine().plant(),
        second: &second,
    };
    let threads = seat_all(rt, alloc, &plants, consoles, watch);
    let keeper = start_keeper(rt, alloc, station.archive(), watch);
    let mut later = Some(second);
    let day = go_through(rt, alloc, &mut station, events, watch, &mut later, script);
    let before = watch.kept();
    watch.end();
    let Ended { finished, posts } = join_all(rt, alloc, threads);
    push_history(
        rt,
        alloc,
        &**station.archive(),
        station.engine(),
        events,
        page,
    );
    push_kept(
        alloc,
        station.engine(),
        before,
        end_keeper(rt, keeper),
        page,
    );
    let mut closing = station.close(rt, finished);
    push_consoles(page, &mut closing, events, posts.as_slice());
    closing.into_crew().close(rt);
    push_end(page, day);
    day.is_ok() && posts.len() == wanted
}
