//! The numbers of paths.

ghost use Rattle.std.specs.Prelude.{◌≡◌, Some, None, nat_eq, IfOk, OnOk};
ghost use Rattle.std.specs.HashMap.{get, hash_map_len};
ghost use Rattle.logic_carry.specs.Paths.{AreNumbered, Grows, path_key};

use std::alloc::AllocError;
use std::collections::HashMap;

fn path_key(parent: usize, word: usize) -> u128
    ensures { result ≡ path_key parent word }
{
    parent as u128 * 18_446_744_073_709_551_616 + word as u128
}

/// Adds a key that isn't there.
fn added_path(numbers: &mut HashMap<u128, usize>, key: u128) -> Result<usize, AllocError>
    requires are { AreNumbered (get nat_eq numbers.old) (hash_map_len numbers.old) }
    requires none { get nat_eq numbers.old key ≡ None }
    ensures numbered { OnOk result (AreNumbered (get nat_eq numbers.new) (hash_map_len numbers.new)) }
    ensures number { IfOk result (λ n. get nat_eq numbers.new key ≡ Some n) }
    ensures grows { OnOk result (Grows (get nat_eq numbers.old) (get nat_eq numbers.new)) }
{
    let number = numbers.len() + 1;
    numbers.insert(key, number)?;
    Ok(number)
}

/// The number of the path that goes on from the path of a number by a word, which is added to the table if it isn't there.
pub fn path_number(
    numbers: &mut HashMap<u128, usize>,
    parent: usize,
    word: usize,
) -> Result<usize, AllocError>
    requires { AreNumbered (get nat_eq numbers.old) (hash_map_len numbers.old) }
    ensures numbered { OnOk result (AreNumbered (get nat_eq numbers.new) (hash_map_len numbers.new)) }
    ensures number { IfOk result (λ n. get nat_eq numbers.new (path_key parent word) ≡ Some n) }
    ensures grows { OnOk result (Grows (get nat_eq numbers.old) (get nat_eq numbers.new)) }
{
    let key = path_key(parent, word);
    match numbers.get(&key).copied() {
        Some(number) => Ok(number),
        None => added_path(numbers, key),
    }
}
