//! The turns of a FOR.

ghost use Rattle.std.specs.Prelude.{◌≡◌, ◌<◌, length};
ghost use Rattle.st_tree.specs.Controls.{count_in, control_values, span_of};

use plant_types::Trap;

/// The bounds and the step of a FOR.
#[derive(Clone, Copy, Drop)]
pub struct Span {
    pub from: i64,
    pub to: i64,
    /// Not 0 in an accepted source. With the step 0 there is no turn.
    pub step: i64,
}

/// The span of bounds and a step that have outcomes. The error is their first trap.
pub fn span_of(
    from: Result<i64, Trap>,
    to: Result<i64, Trap>,
    step: Result<i64, Trap>,
) -> Result<Span, Trap>
    ensures { result ≡ span_of from to step }
{
    Ok(Span {
        from: from?,
        to: to?,
        step: step?,
    })
}

/// How many turns fit into a distance, the first at its start, by steps of a size; none where the distance is below 0.
fn count_in(distance: i128, step: u64) -> u128
    requires { 0 < step }
    ensures { result ≡ count_in distance step }
{
    if distance < 0 {
        0
    } else {
        distance.unsigned_abs() / u128::from(step) + 1
    }
}

/// The number of turns of a FOR: one for each of from, from + step, .. not past the bound (IEC 61131-3); 0 with the step 0.
pub fn count_turns(span: Span) -> u128
    ensures { result ≡ length (control_values span) }
{
    let (from, to) = (i128::from(span.from), i128::from(span.to));
    if span.step > 0 {
        count_in(to - from, span.step.unsigned_abs())
    } else if span.step < 0 {
        count_in(from - to, span.step.unsigned_abs())
    } else {
        0
    }
}
