// Values by their kinds: whole numbers, texts, pairs and lists.
ghost use Rattle.std.specs.Prelude.{◌≡◌, Option, Result, Ok, Err, option_map};
ghost use Rattle.toml.specs.Data.{Data, get_member};
ghost use Rattle.toml.specs.View.{view, table_view, array_view};
ghost use Rattle.road_types.specs.declared.fault.Fault.{Fault};
ghost use Rattle.road_file.specs.Step.{MayAnswer, MayAnswerAs};
ghost use Rattle.road_file.specs.Kinds.{whole_of, text_of, table_of, items_of, both_of, two_of, pair_of, each_of, list_of, whole_at, text_at, pair_at, list_at, whole_or, text_or_none, list_or_empty};

use crate::RoadErr;
use road_types::{Fault, Listed, Text};
use std::alloc::Global;
use toml::value::Array;
use toml::{Table, Value};

/// What is read from one value, whichever table or list it stands in.
pub(crate) trait FromValue {
    ghost reads: { Data → Result Self Fault };

    /// Refused where a value isn't of its kind.
    fn from_value(alloc: Global, value: &Value) -> Result<Self, RoadErr>
        ensures { MayAnswer result (reads (view value.now)) };
}

impl FromValue for i64 {
    ghost reads = { whole_of };

    fn from_value(_alloc: Global, value: &Value) -> Result<Self, RoadErr> {
        whole(value)
    }
}

fn whole(value: &Value) -> Result<i64, RoadErr>
    ensures { MayAnswer result (whole_of (view value.now)) }
{
    match value.as_integer() {
        Some(number) => Ok(number),
        None => Err(RoadErr::Refused(Fault::F5)),
    }
}

fn text(alloc: Global, value: &Value) -> Result<Text, RoadErr>
    ensures { MayAnswer result (text_of (view value.now)) }
{
    match value.as_str() {
        Some(text) => Ok(Text::new(String::from_str(alloc, text)?)),
        None => Err(RoadErr::Refused(Fault::F5)),
    }
}

pub(crate) fn table(value: &Value) -> Result<&Table, RoadErr>
    ensures { MayAnswerAs (λ t. table_view t.now) result (table_of (view value.now)) }
{
    match value.as_table() {
        Some(table) => Ok(table),
        None => Err(RoadErr::Refused(Fault::F5)),
    }
}

fn items(value: &Value) -> Result<&Array, RoadErr>
    ensures { MayAnswerAs (λ v. array_view v.now) result (items_of (view value.now)) }
{
    match value.as_array() {
        Some(items) => Ok(items),
        None => Err(RoadErr::Refused(Fault::F5)),
    }
}

fn both(first: &Value, second: &Value) -> Result<(i64, i64), RoadErr>
    ensures { MayAnswer result (both_of (view first.now) (view second.now)) }
{
    Ok((whole(first)?, whole(second)?))
}

#[tactic(auto, using(crate::proofs::ItemsLemmas::two_items, crate::proofs::ItemsLemmas::other_items))]
fn two(items: &Array) -> Result<(i64, i64), RoadErr>
    ensures { MayAnswer result (two_of (array_view items.now)) }
{
    if items.len() == 2 {
        both(&items[0], &items[1])
    } else {
        Err(RoadErr::Refused(Fault::F5))
    }
}

#[tactic(auto, unfolding(crate::specs::Kinds::pair_of))]
pub(crate) fn pair(value: &Value) -> Result<(i64, i64), RoadErr>
    ensures { MayAnswer result (pair_of (view value.now)) }
{
    two(items(value)?)
}

fn each<T: FromValue + Drop>(alloc: Global, items: &Array) -> Result<Listed<T>, RoadErr>
    ensures { MayAnswer result (each_of T.reads (array_view items.now)) }
{
    let mut values = Vec::new(alloc);
    for item in items {
        values.push(T::from_value(alloc, item)?)?;
    }
    Ok(Listed::new(values))
}

#[tactic(auto, unfolding(crate::specs::Kinds::list_of))]
fn list<T: FromValue + Drop>(alloc: Global, value: &Value) -> Result<Listed<T>, RoadErr>
    ensures { MayAnswer result (list_of T.reads (view value.now)) }
{
    each(alloc, items(value)?)
}

/// The value at a key.
pub(crate) fn find<'a>(table: &'a Table, key: &str) -> Option<&'a Value>
    ensures { option_map (λ x. view x.now) result ≡ get_member key.now (table_view table.now) }
{
    table.get(key)
}

#[tactic(auto, unfolding(crate::specs::Kinds::whole_at))]
pub(crate) fn whole_at(table: &Table, key: &str) -> Result<i64, RoadErr>
    ensures { MayAnswer result (whole_at key.now (table_view table.now)) }
{
    match find(table, key) {
        Some(value) => whole(value),
        None => Err(RoadErr::Refused(Fault::F5)),
    }
}

#[tactic(auto, unfolding(crate::specs::Kinds::text_at))]
pub(crate) fn text_at(alloc: Global, table: &Table, key: &str) -> Result<Text, RoadErr>
    ensures { MayAnswer result (text_at key.now (table_view table.now)) }
{
    match find(table, key) {
        Some(value) => text(alloc, value),
        None => Err(RoadErr::Refused(Fault::F5)),
    }
}

#[tactic(auto, unfolding(crate::specs::Kinds::pair_at))]
pub(crate) fn pair_at(table: &Table, key: &str) -> Result<(i64, i64), RoadErr>
    ensures { MayAnswer result (pair_at key.now (table_view table.now)) }
{
    match find(table, key) {
        Some(value) => pair(value),
        None => Err(RoadErr::Refused(Fault::F5)),
    }
}

#[tactic(auto, unfolding(crate::specs::Kinds::list_at))]
pub(crate) fn list_at<T: FromValue + Drop>(
    alloc: Global,
    table: &Table,
    key: &str,
) -> Result<Listed<T>, RoadErr>
    ensures { MayAnswer result (list_at T.reads key.now (table_view table.now)) }
{
    match find(table, key) {
        Some(value) => list(alloc, value),
        None => Err(RoadErr::Refused(Fault::F5)),
    }
}

/// The number at a key, or the other one where the key is missing.
#[tactic(auto, unfolding(crate::specs::Kinds::whole_or))]
pub(crate) fn whole_or(other: i64, table: &Table, key: &str) -> Result<i64, RoadErr>
    ensures { MayAnswer result (whole_or other key.now (table_view table.now)) }
{
    match find(table, key) {
        Some(value) => whole(value),
        None => Ok(other),
    }
}

#[tactic(auto, unfolding(crate::specs::Kinds::text_or_none))]
pub(crate) fn text_or_none(alloc: Global, table: &Table, key: &str) -> Result<Option<Text>, RoadErr>
    ensures { MayAnswer result (text_or_none key.now (table_view table.now)) }
{
    match find(table, key) {
        Some(value) => Ok(Some(text(alloc, value)?)),
        None => Ok(None),
    }
}

#[tactic(auto, unfolding(crate::specs::Kinds::list_or_empty))]
pub(crate) fn list_or_empty<T: FromValue + Drop>(
    alloc: Global,
    table: &Table,
    key: &str,
) -> Result<Listed<T>, RoadErr>
    ensures { MayAnswer result (list_or_empty T.reads key.now (table_view table.now)) }
{
    match find(table, key) {
        Some(value) => list(alloc, value),
        None => Ok(Listed::new(Vec::new(alloc))),
    }
}
