// The right sides of a section's four rows.
ghost use Rattle.std.specs.Prelude.{◌≡◌, ◌≤◌, ◌^◌, ℤ, ◌-ℤ◌, ◌*ℤ◌, unsigned_abs};
ghost use Rattle.algebra.specs.Numbered.{IsNumber};
ghost use Rattle.road_types.specs.Accepted.{IsAccepted};
ghost use Rattle.road_types.specs.Lines.{volume_at};
ghost use Rattle.road_types.specs.Ranges.{AreHeightRanges, height_range};
ghost use Rattle.road_types.specs.Road.{section as section_of, section_count};
ghost use Rattle.road_types.specs.RoadPrograms.{lines_in};
ghost use Rattle.road_types.specs.WellFormed.{IsSlabTable};
ghost use Rattle.section_rows.specs.inside.Rights.{right_at};

use crate::lines::{Scan, slopes};
use crate::ranges::Ranges;
use road_types::{Road, Section, net_volume};

/// The volume at an offset, in litres.
fn volume_at(section: &Section, offset: i64) -> i64
    requires cut { IsSlabTable section.now.cut }
    requires fill { IsSlabTable section.now.fill }
    requires offset { unsigned_abs offset ≤ 40000000 }
    ensures value { result ≡ volume_at section.now offset }
    ensures small { unsigned_abs result ≤ 2 ^ 50 }
{
    net_volume(section, i128::from(offset), 1) as i64
}

/// The product of a slope and an offset.
fn product(slope: i64, offset: i64) -> i64
    requires slope { unsigned_abs slope ≤ 2 ^ 24 }
    requires offset { unsigned_abs offset ≤ 2 ^ 26 }
    ensures value { result ≡ slope *ℤ offset }
    ensures small { unsigned_abs result ≤ 2 ^ 50 }
{
    slope * offset
}

/// The difference of two volumes.
fn difference(a: i64, b: i64) -> i64
    requires a { unsigned_abs a ≤ 2 ^ 50 }
    requires b { unsigned_abs b ≤ 2 ^ 50 }
    ensures { result ≡ a -ℤ b }
{
    a - b
}

/// The lower end of a section's range.
fn lower_end(road: &Road, ranges: &Ranges, section: usize) -> i64
    requires accepted { IsAccepted road.now }
    requires ranges { AreHeightRanges road.now ranges.now.heights }
    requires section { IsNumber section (section_count road.now) }
    ensures value { result ≡ (height_range ranges.now.heights section).0 }
    ensures small { unsigned_abs result ≤ 40000000 }
{
    ranges.at(section).0
}

/// The upper end of a section's range.
fn upper_end(road: &Road, ranges: &Ranges, section: usize) -> i64
    requires accepted { IsAccepted road.now }
    requires ranges { AreHeightRanges road.now ranges.now.heights }
    requires section { IsNumber section (section_count road.now) }
    ensures value { result ≡ (height_range ranges.now.heights section).1 }
    ensures small { unsigned_abs result ≤ 40000000 }
{
    ranges.at(section).1
}

/// The volume at an offset of a section by its number.
fn section_volume(road: &Road, section: usize, offset: i64) -> i64
    requires accepted { IsAccepted road.now }
    requires section { IsNumber section (section_count road.now) }
    requires offset { unsigned_abs offset ≤ 40000000 }
    ensures value { result ≡ volume_at (section_of road.now section) offset }
    ensures small { unsigned_abs result ≤ 2 ^ 50 }
{
    volume_at(road.section(section), offset)
}

/// The slopes of a section's volume over its range.
pub(crate) fn section_slopes(road: &Road, ranges: &Ranges, section: usize) -> Scan
    requires accepted { IsAccepted road.now }
    requires ranges { AreHeightRanges road.now ranges.now.heights }
    requires section { IsNumber section (section_count road.now) }
    ensures least { result.least ≡ (lines_in road.now ranges.now.heights section).least }
    ensures greatest { result.greatest ≡ (lines_in road.now ranges.now.heights section).greatest }
    ensures least_small { unsigned_abs result.least ≤ 2 ^ 24 }
    ensures greatest_small { unsigned_abs result.greatest ≤ 2 ^ 24 }
{
    slopes(road.section(section), ranges.at(section))
}

/// The right side of the row of the line of the least slope through the lower end, above which the volume lies.
fn above_least(road: &Road, ranges: &Ranges, section: usize) -> i64
    requires accepted { IsAccepted road.now }
    requires ranges { AreHeightRanges road.now ranges.now.heights }
    requires section { IsNumber section (section_count road.now) }
    ensures { result ≡ (lines_in road.now ranges.now.heights section).above_least }
{
    let end = lower_end(road, ranges, section);
    let volume = section_volume(road, section, end);
    let line = product(section_slopes(road, ranges, section).least, end);
    difference(volume, line)
}

/// The right side of the row of the line of the greatest slope through the lower end, below which the volume lies.
fn below_greatest(road: &Road, ranges: &Ranges, section: usize) -> i64
    requires accepted { IsAccepted road.now }
    requires ranges { AreHeightRanges road.now ranges.now.heights }
    requires section { IsNumber section (section_count road.now) }
    ensures { result ≡ (lines_in road.now ranges.now.heights section).below_greatest }
{
    let end = lower_end(road, ranges, section);
    let volume = section_volume(road, section, end);
    let line = product(section_slopes(road, ranges, section).greatest, end);
    difference(line, volume)
}

/// The right side of the row of the line of the least slope through the upper end, below which the volume lies.
fn below_least(road: &Road, ranges: &Ranges, section: usize) -> i64
    requires accepted { IsAccepted road.now }
    requires ranges { AreHeightRanges road.now ranges.now.heights }
    requires section { IsNumber section (section_count road.now) }
    ensures { result ≡ (lines_in road.now ranges.now.heights section).below_least }
{
    let end = upper_end(road, ranges, section);
    let volume = section_volume(road, section, end);
    let line = product(section_slopes(road, ranges, section).least, end);
    difference(line, volume)
}

/// The right side of the row of the line of the greatest slope through the upper end, above which the volume lies.
fn above_greatest(road: &Road, ranges: &Ranges, section: usize) -> i64
    requires accepted { IsAccepted road.now }
    requires ranges { AreHeightRanges road.now ranges.now.heights }
    requires section { IsNumber section (section_count road.now) }
    ensures { result ≡ (lines_in road.now ranges.now.heights section).above_greatest }
{
    let end = upper_end(road, ranges, section);
    let volume = section_volume(road, section, end);
    let line = product(section_slopes(road, ranges, section).greatest, end);
    difference(volume, line)
}

/// The right side of one of a section's four rows, counted from 0.
pub(crate) fn volume_right(road: &Road, ranges: &Ranges, section: usize, place: usize) -> i64
    requires accepted { IsAccepted road.now }
    requires ranges { AreHeightRanges road.now ranges.now.heights }
    requires section { IsNumber section (section_count road.now) }
    ensures { result ≡ right_at place (lines_in road.now ranges.now.heights section) }
{
    if place == 0 {
        return above_least(road, ranges, section);
    }
    if place == 1 {
        return below_greatest(road, ranges, section);
    }
    if place == 2 {
        return below_least(road, ranges, section);
    }
    above_greatest(road, ranges, section)
}
