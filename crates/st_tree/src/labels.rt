//! The labels of a CASE.

ghost use Rattle.std.specs.Prelude.{◌≡◌};
ghost use Rattle.st_tree.specs.Meaning.{labels_fit};

use crate::tree::Label;

/// Whether one of the labels fits a number: a label fits the numbers from `low` to `high`, and none where `low` is above `high` (this profile).
pub fn labels_fit(n: i64, labels: &[Label]) -> bool
    ensures { result ≡ labels_fit n labels.now }
{
    for label in labels {
        if label.low <= n && n <= label.high {
            return true;
        }
    }
    false
}
