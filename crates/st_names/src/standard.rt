//! The standard blocks TON, TOF and R_TRIG (IEC 61131-3).

ghost use Rattle.std.specs.Prelude.{◌≡◌, ◌||◌, option_map, codes};
ghost use Rattle.plant_types.specs.Words.{same_word};
ghost use Rattle.st_names.specs.BlockTypes.{find_member, inputs_of, outputs_of, ton, r_trig};
ghost use Rattle.st_names.specs.Taken.{is_standard};

use plant_types::{Kind, Text, same_word};

/// Whether a name is that of a standard block, in any letter case.
pub fn is_standard(name: &Text) -> bool
    ensures { result ≡ is_standard name.now }
{
    let bytes = name.as_bytes();
    same_word(bytes, b"TON") || same_word(bytes, b"TOF") || same_word(bytes, b"R_TRIG")
}

/// Whether a word is that of a timer.
pub fn is_timer(word: &Text) -> bool
    ensures { result ≡ (same_word word.now (codes "TON") || same_word word.now (codes "TOF")) }
{
    let bytes = word.as_bytes();
    same_word(bytes, b"TON") || same_word(bytes, b"TOF")
}

/// Whether a word is that of the edge trigger.
pub fn is_trigger(word: &Text) -> bool
    ensures { result ≡ same_word word.now (codes "R_TRIG") }
{
    same_word(word.as_bytes(), b"R_TRIG")
}

/// The kind of a timer's input.
pub fn timer_input(name: &Text) -> Option<Option<Kind>>
    ensures { result ≡ option_map (λ m. m.kind) (find_member (inputs_of ton) name.now) }
{
    let bytes = name.as_bytes();
    if same_word(b"IN", bytes) {
        Some(Some(Kind::Bool))
    } else if same_word(b"PT", bytes) {
        Some(Some(Kind::Time))
    } else {
        None
    }
}

/// The kind of a timer's output.
pub fn timer_output(name: &Text) -> Option<Option<Kind>>
    ensures { result ≡ option_map (λ m. m.kind) (find_member (outputs_of ton) name.now) }
{
    let bytes = name.as_bytes();
    if same_word(b"Q", bytes) {
        Some(Some(Kind::Bool))
    } else if same_word(b"ET", bytes) {
        Some(Some(Kind::Time))
    } else {
        None
    }
}

/// The kind of the trigger's input.
pub fn trigger_input(name: &Text) -> Option<Option<Kind>>
    ensures { result ≡ option_map (λ m. m.kind) (find_member (inputs_of r_trig) name.now) }
{
    if same_word(b"CLK", name.as_bytes()) {
        Some(Some(Kind::Bool))
    } else {
        None
    }
}

/// The kind of the trigger's output.
pub fn trigger_output(name: &Text) -> Option<Option<Kind>>
    ensures { result ≡ option_map (λ m. m.kind) (find_member (outputs_of r_trig) name.now) }
{
    if same_word(b"Q", name.as_bytes()) {
        Some(Some(Kind::Bool))
    } else {
        None
    }
}
