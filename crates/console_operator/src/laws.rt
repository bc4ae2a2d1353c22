//! Laws of looks at a board, each proved of a caller.
ghost use Rattle.std.specs.Prelude.{◌≤◌, IfSome};
ghost use Rattle.console_operator.specs.Consoles.{HasLooked};

use crate::console::Console;

/// How many events the board of a console shows, and how many it shows after that: no fewer.
pub fn looks_twice<O: Drop, R: Drop>(console: &mut Console<O, R>) -> Option<(u64, u64)>
    ensures { IfSome result (λ seen. seen.0 ≤ seen.1) }
{
    let first = console.board()?.events();
    let second = console.board()?.events();
    Some((first, second))
}
