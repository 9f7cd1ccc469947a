ghost use Rattle.std.specs.Prelude.{◌≡◌, IfOk, IfSome, None, Some, option_map};
ghost use Rattle.serde_json.specs.View.{view, items_view};
ghost use Rattle.cert_form.specs.Code.Reading.{single, double, whole_in, multiplier_at, pair_in, sum_in, each, word_first};

use crate::number::read_multiplier;
use serde_json::Value;
use sqlite_items::Items;
use std::alloc::{AllocError, Global};

/// The only item.
#[tactic(auto, using(crate::proofs::Counts::counts))]
pub(crate) fn one(args: &[Value]) -> Option<&Value>
    ensures { option_map (λ v. view v.now) result ≡ single (items_view args.now) }
{
    match args {
        [only] => Some(only),
        _ => None,
    }
}

/// The two items.
#[tactic(auto, using(crate::proofs::Counts::counts))]
pub(crate) fn two(args: &[Value]) -> Option<(&Value, &Value)>
    ensures { option_map (λ p. (view p.0.now, view p.1.now)) result ≡ double (items_view args.now) }
{
    match args {
        [first, second] => Some((first, second)),
        _ => None,
    }
}

/// The text of the first item, and the items behind it.
pub(crate) fn word_and_args(parts: &[Value]) -> Option<(&str, &[Value])>
    ensures { option_map (λ p. (p.0.now, items_view p.1.now)) result ≡ word_first (items_view parts.now) }
{
    let (word, args) = parts.split_first()?;
    let word = word.as_str()?;
    Some((word, args))
}

/// A whole number below 2^32.
pub(crate) fn read_whole(value: &Value) -> Option<u32>
    ensures { result ≡ whole_in (view value.now) }
{
    let number = value.as_u64()?;
    u32::try_from(number).ok()
}

pub(crate) fn read_multiplier_of(value: &Value) -> Option<i128>
    ensures { result ≡ multiplier_at (view value.now) }
{
    let text = value.as_str()?;
    read_multiplier(text.as_bytes())
}

fn read_pair(value: &Value) -> Option<(u32, i128)>
    ensures { result ≡ pair_in (view value.now) }
{
    let parts = value.as_array()?;
    let (fact, multiplier) = two(parts)?;
    let fact = read_whole(fact)?;
    let multiplier = read_multiplier_of(multiplier)?;
    Some((fact, multiplier))
}

#[tactic(auto, using(crate::proofs::EachLoops::each_loop))]
fn read_pairs(alloc: Global, values: &[Value]) -> Result<Option<Items<(u32, i128)>>, AllocError>
    ensures { IfOk result (λ read. read ≡ each pair_in (items_view values.now)) }
{
    let mut sum = Items::new(alloc);
    for value in values {
        let Some(pair) = read_pair(value) else {
            return Ok(None);
        };
        sum.push(pair)?;
    }
    Ok(Some(sum))
}

/// Numbers of facts with their multipliers.
pub(crate) fn read_sum(
    alloc: Global,
    value: &Value,
) -> Result<Option<Items<(u32, i128)>>, AllocError>
    ensures { IfOk result (λ read. read ≡ sum_in (view value.now)) }
{
    match value.as_array() {
        Some(pairs) => read_pairs(alloc, pairs),
        None => Ok(None),
    }
}
