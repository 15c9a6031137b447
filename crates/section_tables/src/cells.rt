// Cells: numbers within their ranges, and lists of slabs.
ghost use Rattle.std.specs.Prelude.{Some, ◌∷◌, []};
ghost use Rattle.text_parts.specs.Words.{parts_between};
ghost use Rattle.road_types.specs.RecordFaults.{is_station, is_height, is_measure, is_cost, is_cap};
ghost use Rattle.section_tables.specs.Steps.{MayAnswer, where_kept, each};
ghost use Rattle.section_tables.specs.Cells.{number_in, slab_by, slab_of, slabs_of};
ghost use Rattle.section_tables.specs.inside.Narrow.{is_narrow};

use crate::TableErr;
use road_types::ranges::{is_cap, is_cost, is_height, is_measure, is_station};
use road_types::{Listed, Slab};
use std::alloc::Global;
use text_parts::{Words, cut_at, whole};

/// The number that a cell spells, where it has 64 bits.
#[tactic(auto, unfolding(crate::specs::Cells::number_in))]
fn narrow(cell: &[u8]) -> Result<i64, TableErr>
    ensures { MayAnswer result (number_in is_narrow cell.now) }
{
    let Some(number) = whole(cell) else {
        return Err(TableErr::Refused);
    };
    if i128::from(i64::MIN) <= number && number <= i128::from(i64::MAX) {
        Ok(number as i64)
    } else {
        Err(TableErr::Refused)
    }
}

/// The number where a rule is kept.
fn keep(rule: bool, number: i64) -> Result<i64, TableErr>
    ensures { MayAnswer result (where_kept rule number) }
{
    if rule {
        Ok(number)
    } else {
        Err(TableErr::Refused)
    }
}

/// A station, in whole steps.
#[tactic(auto, using(crate::proofs::NumbersLemmas::stations))]
pub(crate) fn station(cell: &[u8]) -> Result<i64, TableErr>
    ensures { MayAnswer result (number_in is_station cell.now) }
{
    let number = narrow(cell)?;
    keep(is_station(number), number)
}

/// A height, in mm.
#[tactic(auto, using(crate::proofs::NumbersLemmas::heights))]
pub(crate) fn height(cell: &[u8]) -> Result<i64, TableErr>
    ensures { MayAnswer result (number_in is_height cell.now) }
{
    let number = narrow(cell)?;
    keep(is_height(number), number)
}

/// A thickness, in mm, or an area, in m².
#[tactic(auto, using(crate::proofs::NumbersLemmas::measures))]
fn measure(cell: &[u8]) -> Result<i64, TableErr>
    ensures { MayAnswer result (number_in is_measure cell.now) }
{
    let number = narrow(cell)?;
    keep(is_measure(number), number)
}

/// A cost, in cost units per litre.
#[tactic(auto, using(crate::proofs::NumbersLemmas::costs))]
pub(crate) fn cost(cell: &[u8]) -> Result<i64, TableErr>
    ensures { MayAnswer result (number_in is_cost cell.now) }
{
    let number = narrow(cell)?;
    keep(is_cost(number), number)
}

/// A cap, in litres.
#[tactic(auto, using(crate::proofs::NumbersLemmas::caps))]
pub(crate) fn cap(cell: &[u8]) -> Result<i64, TableErr>
    ensures { MayAnswer result (number_in is_cap cell.now) }
{
    let number = narrow(cell)?;
    keep(is_cap(number), number)
}

/// A slab by its two parts.
#[tactic(auto, unfolding(crate::specs::Cells::slab_by))]
fn slab_by(thick: &[u8], area: &[u8]) -> Result<Slab, TableErr>
    ensures { MayAnswer result (slab_by (thick.now ∷ area.now ∷ [])) }
{
    let thick = measure(thick)?;
    let area = measure(area)?;
    Ok(Slab { thick, area })
}

/// A slab by its thickness and what stands behind the first colon.
#[tactic(auto, using(crate::proofs::SlabsLemmas::third_part))]
fn slab_with(thick: &[u8], behind: &[u8]) -> Result<Slab, TableErr>
    ensures { MayAnswer result (slab_by (thick.now ∷ parts_between 58 behind.now)) }
{
    let (area, further) = cut_at(behind, b':');
    if further.is_some() {
        return Err(TableErr::Refused);
    }
    slab_by(thick, area)
}

/// A slab: its thickness and its area, parted by a colon.
#[tactic(auto, unfolding(crate::specs::Cells::slab_of, crate::specs::Cells::slab_by))]
fn slab(word: &[u8]) -> Result<Slab, TableErr>
    ensures { MayAnswer result (slab_of word.now) }
{
    let (thick, Some(behind)) = cut_at(word, b':') else {
        return Err(TableErr::Refused);
    };
    slab_with(thick, behind)
}

/// The slabs of a cell, from the ground away; none in an empty cell.
#[tactic(auto, unfolding(crate::specs::Cells::slabs_of))]
pub(crate) fn slabs(alloc: Global, cell: &[u8]) -> Result<Listed<Slab>, TableErr>
    ensures { MayAnswer result (slabs_of cell.now) }
{
    if cell.is_empty() {
        return Ok(Listed::new(Vec::new(alloc)));
    }
    slabs_among(alloc, Words::over(cell))
}

fn slabs_among(alloc: Global, words: Words) -> Result<Listed<Slab>, TableErr>
    ensures { MayAnswer result (each slab_of words.entry) }
{
    let mut slabs = Vec::new(alloc);
    for word in words {
        slabs.push(slab(word)?)?;
    }
    Ok(Listed::new(slabs))
}
