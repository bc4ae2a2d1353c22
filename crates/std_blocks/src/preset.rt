ghost use Rattle.std.specs.Prelude.{◌≡◌, ◌<◌, ◌^◌};
ghost use Rattle.std_blocks.specs.Calls.{preset};

/// The preset time of a call: PT, or 0 where PT is below 0 (this profile).
pub fn preset(pt: i64) -> u64
    ensures value { result ≡ preset pt }
    ensures range { result < 2 ^ 63 }
{
    if pt < 0 { 0 } else { pt as u64 }
}
