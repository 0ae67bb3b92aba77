//! Members that have to be there.
ghost use Rattle.std.specs.Prelude.{◌≡◌, map, option_map};
ghost use Rattle.std.specs.Result.{result_map_both};
ghost use Rattle.serde_json.specs.View.{view};
ghost use Rattle.info_doc.specs.Faults.{judged};
ghost use Rattle.info_doc.specs.Steps.{text_fault, text_in, number_fault, number_in, list_fault, list_in, triple_fault, sizes_in, sizes_fault};

use crate::fault::{InfoFault, Item};
use crate::json::{has_zero, passes, read_elements, read_triple};
use serde_json::Value;

/// A text.
#[tactic(auto, unfolding(crate::specs::Steps::text_fault))]
pub(crate) fn read_text(member: Option<&Value>, item: Item) -> Result<&str, InfoFault>
    ensures { let m = option_map (λ v. view v.now) member.entry in
        result_map_both (λ s. s.now) (λ e. e) result ≡ judged (text_fault item m) (text_in m) }
{
    let value = member.ok_or(InfoFault::missing(item))?;
    value.as_str().ok_or(InfoFault::wrong_kind(item))
}

/// A whole number.
#[tactic(auto, unfolding(crate::specs::Steps::number_fault))]
pub(crate) fn read_number(member: Option<&Value>, item: Item) -> Result<u64, InfoFault>
    ensures { let m = option_map (λ v. view v.now) member.entry in
        result ≡ judged (number_fault item m) (number_in m) }
{
    let value = member.ok_or(InfoFault::missing(item))?;
    value.as_u64().ok_or(InfoFault::wrong_kind(item))
}

/// The elements of an array.
#[tactic(auto, unfolding(crate::specs::Steps::list_fault))]
pub(crate) fn read_list(member: Option<&Value>, item: Item) -> Result<&[Value], InfoFault>
    ensures { let m = option_map (λ v. view v.now) member.entry in
        result_map_both (λ s. map view s.now) (λ e. e) result ≡ judged (list_fault item m) (list_in m) }
{
    let value = member.ok_or(InfoFault::missing(item))?;
    read_elements(value).ok_or(InfoFault::wrong_kind(item))
}

// Three whole numbers.
#[tactic(auto, unfolding(crate::specs::Steps::triple_fault))]
fn read_three(member: Option<&Value>, item: Item) -> Result<[u64; 3], InfoFault>
    ensures { let m = option_map (λ v. view v.now) member.entry in
        result ≡ judged (triple_fault item m) (sizes_in m) }
{
    let value = member.ok_or(InfoFault::missing(item))?;
    read_triple(value).ok_or(InfoFault::wrong_kind(item))
}

/// Three whole numbers from 1 to a limit.
#[tactic(auto, unfolding(crate::specs::Steps::sizes_fault))]
pub(crate) fn read_sizes(
    member: Option<&Value>,
    item: Item,
    limit: u64,
) -> Result<[u64; 3], InfoFault>
    ensures { let m = option_map (λ v. view v.now) member.entry in
        result ≡ judged (sizes_fault item limit m) (sizes_in m) }
{
    let sizes = read_three(member, item)?;
    if has_zero(&sizes) {
        return Err(InfoFault::bad_value(item));
    }
    if passes(limit, &sizes) {
        return Err(InfoFault::Limit { item });
    }
    Ok(sizes)
}
