//! Operators on words of 64 bits.

ghost use Rattle.std.specs.Prelude.{◌≡◌, ◌<◌, ◌^◌, ◌%◌, pos, Ok};
ghost use Rattle.std.specs.Ordering.{int_eq};
ghost use Rattle.plant_types.specs.Values.{truth, is_in_range};
ghost use Rattle.plant_types.specs.declared.values.Kind.TheVariants as kind;
ghost use Rattle.st_tree.specs.Operators.{eval_unary, eval_binary, dint, time, quotient, remainder};
ghost use Rattle.st_tree.specs.declared.tree.Unary.TheVariants as unary;
ghost use Rattle.st_tree.specs.declared.tree.Binary.TheVariants as binary;

use plant_types::Trap;
use st_tree::{Binary, Unary};

/// TRUE as 1, FALSE as 0.
#[inline(always)]
fn truth(holds: bool) -> i64
    ensures { result ≡ truth holds }
{
    if holds { 1 } else { 0 }
}

/// The result, if it is in the range of DINT.
#[inline(always)]
fn dint(n: i64) -> Result<i64, Trap>
    ensures { result ≡ dint n }
{
    if n >= -2147483648 && n <= 2147483647 {
        Ok(n)
    } else {
        Err(Trap::Overflow)
    }
}

/// Whether a number is in the range of DINT.
#[inline(always)]
fn is_dint(n: i64) -> bool
    ensures { result ≡ is_in_range kind.Dint n }
{
    n >= -2147483648 && n <= 2147483647
}

/// A sum of any words.
#[inline(always)]
fn far_sum(x: i64, y: i64) -> Result<i64, Trap>
    ensures { result ≡ eval_binary binary.Add x y }
{
    match x.checked_add(y) {
        Some(n) => dint(n),
        None => Err(Trap::Overflow),
    }
}

/// A sum. Where a term is in the range of DINT, a sum that no word holds is far from that range in a word too: so a second test is enough.
#[inline(always)]
fn sum(x: i64, y: i64) -> Result<i64, Trap>
    ensures { result ≡ eval_binary binary.Add x y }
{
    if is_dint(x) {
        let n = x.wrapping_add(y);
        if is_dint(n) {
            return Ok(n);
        }
    }
    far_sum(x, y)
}

/// A sum with a number of 32 bits, which is in the range of DINT: so one test is enough.
#[inline(always)]
pub fn near_sum(x: i64, y: i32) -> Result<i64, Trap>
    ensures { result ≡ eval_binary binary.Add x y }
{
    let other = i64::from(y);
    let n = x.wrapping_add(other);
    if is_dint(n) { Ok(n) } else { far_sum(x, other) }
}

#[inline(always)]
fn time_sum(x: i64, y: i64) -> Result<i64, Trap>
    ensures { result ≡ eval_binary binary.AddTime x y }
{
    match x.checked_add(y) {
        Some(n) => Ok(n),
        None => Err(Trap::Overflow),
    }
}

/// A difference of any words.
#[inline(always)]
fn far_difference(x: i64, y: i64) -> Result<i64, Trap>
    ensures { result ≡ eval_binary binary.Subtract x y }
{
    match x.checked_sub(y) {
        Some(n) => dint(n),
        None => Err(Trap::Overflow),
    }
}

/// A difference, by two tests as a sum.
#[inline(always)]
fn difference(x: i64, y: i64) -> Result<i64, Trap>
    ensures { result ≡ eval_binary binary.Subtract x y }
{
    if is_dint(x) {
        let n = x.wrapping_sub(y);
        if is_dint(n) {
            return Ok(n);
        }
    }
    far_difference(x, y)
}

#[inline(always)]
fn time_difference(x: i64, y: i64) -> Result<i64, Trap>
    ensures { result ≡ eval_binary binary.SubtractTime x y }
{
    match x.checked_sub(y) {
        Some(n) => Ok(n),
        None => Err(Trap::Overflow),
    }
}

/// A product of any words.
#[inline(always)]
fn far_product(x: i64, y: i64) -> Result<i64, Trap>
    ensures { result ≡ eval_binary binary.Multiply x y }
{
    match x.checked_mul(y) {
        Some(n) => dint(n),
        None => Err(Trap::Overflow),
    }
}

/// A product. A word holds that of two numbers in the range of DINT.
#[inline(always)]
fn product(x: i64, y: i64) -> Result<i64, Trap>
    ensures { result ≡ eval_binary binary.Multiply x y }
{
    if is_dint(x) && is_dint(y) {
        dint(x * y)
    } else {
        far_product(x, y)
    }
}

/// The quotient, truncated toward zero; `DivZero` for the divisor 0. Only the least word by -1 is no word.
#[inline(always)]
fn quotient(x: i64, y: i64) -> Result<i64, Trap>
    ensures { result ≡ quotient x y }
{
    if y == 0 {
        return Err(Trap::DivZero);
    }
    match x.checked_div(y) {
        Some(n) => dint(n),
        None => Err(Trap::Overflow),
    }
}

/// The rest of a division. By a power of two it is the last bits, which cost much less than a division.
#[inline(always)]
fn rest(x: u64, y: u64) -> u64
    requires { 0 < y }
    ensures { result ≡ x % y }
{
    let power = 1_u64.wrapping_shl(y.trailing_zeros());
    if power == y { x & (y - 1) } else { x % y }
}

/// The remainder of a truncated quotient; 0 for the divisor 0 (this profile). A number from 0 on that is below the divisor is its own remainder,
/// as that of a counter mostly is: a test costs much less than a division.
#[inline(always)]
fn remainder(x: i64, y: i64) -> i64
    ensures { result ≡ remainder x y }
{
    if y == 0 {
        0
    } else if 0 <= x && 0 < y {
        if x < y {
            x
        } else {
            rest(x as u64, y as u64) as i64
        }
    } else {
        x.wrapping_rem(y)
    }
}

/// The factor by which a product finds quotients by a number: 2^32 over it, rounded up. Nothing rests on it but time.
pub fn factor_of(by: u32) -> u32 {
    match u32::MAX.checked_div(by) {
        Some(n) => n.saturating_add(1),
        None => 0,
    }
}

/// What is left of a number beside the multiple of a divisor that a product with a factor tells. Where it is below the divisor it is the rest of the
/// division, whatever the factor; with `factor_of` it nearly always is.
#[inline(always)]
fn left_over(x: u64, by: u32, factor: u32) -> u64
    requires { x < 2 ^ 32 }
    ensures { result < by → result ≡ x % by }
{
    let quotient = (x * u64::from(factor)) >> 32;
    x.wrapping_sub(quotient * u64::from(by))
}

/// The remainder of a number by one of 32 bits, with a factor for it. Where the factor doesn't tell it, a division does.
#[inline(always)]
pub fn remainder_by(x: i64, by: u32, factor: u32) -> i64
    ensures { result ≡ remainder x (pos by) }
{
    if 0 <= x && x <= 4294967295 {
        let rest = left_over(x as u64, by, factor);
        if rest < u64::from(by) {
            return rest as i64;
        }
    }
    remainder(x, i64::from(by))
}

/// Whether the remainder of a number by one of 32 bits is another one: TRUE as 1, FALSE as 0.
#[inline(always)]
pub fn has_remainder(x: i64, by: u32, factor: u32, y: i64) -> i64
    ensures { result ≡ truth (int_eq (remainder x (pos by)) y) }
{
    truth(remainder_by(x, by, factor) == y)
}

/// The result of an operator, by its operand's value.
#[inline(always)]
pub fn apply_unary(op: Unary, x: i64) -> Result<i64, Trap>
    ensures { result ≡ eval_unary op x }
{
    match op {
        Unary::Not => Ok(truth(x == 0)),
        Unary::Negate => difference(0, x),
        Unary::NegateTime => time_difference(0, x),
    }
}

/// The result of an operator, by its operands' values.
#[inline(always)]
pub fn apply_binary(op: Binary, x: i64, y: i64) -> Result<i64, Trap>
    ensures { result ≡ eval_binary op x y }
{
    match op {
        Binary::And => Ok(truth(x != 0 && y != 0)),
        Binary::Xor => Ok(truth((x != 0) != (y != 0))),
        Binary::Or => Ok(truth(x != 0 || y != 0)),
        Binary::Equal => Ok(truth(x == y)),
        Binary::Unequal => Ok(truth(x != y)),
        Binary::Less => Ok(truth(x < y)),
        Binary::Greater => Ok(truth(x > y)),
        Binary::AtMost => Ok(truth(x <= y)),
        Binary::AtLeast => Ok(truth(x >= y)),
        Binary::Add => sum(x, y),
        Binary::AddTime => time_sum(x, y),
        Binary::Subtract => difference(x, y),
        Binary::SubtractTime => time_difference(x, y),
        Binary::Multiply => product(x, y),
        Binary::Divide => quotient(x, y),
        Binary::Mod => Ok(remainder(x, y)),
    }
}
