// The rows of what stands on a road or is moved, by number and stage.
ghost use Rattle.std.specs.Prelude.{◌≡◌, ◌∷◌, [], ◌<◌, ◌≤◌, ◌^◌, ◌*ℤ◌, IfOk, None, pos, unsigned_abs};
ghost use Rattle.std.specs.String.{string_bytes};
ghost use Rattle.std.specs.Fmt.{signed_decimal};
ghost use Rattle.algebra.specs.Scale.{IsScale};
ghost use Rattle.road_types.specs.Faults.{road_fault};
ghost use Rattle.road_types.specs.Numbered.{IsNumber};
ghost use Rattle.road_types.specs.Road.{section as section_of, section_count, hop_count, access_count, block_count};
ghost use Rattle.road_types.specs.Volumes.{net_volume};
ghost use Rattle.road_types.specs.WellFormed.{IsStation, IsBetween, IsWellFormed};
ghost use Rattle.plan_rules.specs.Fits.{Fits, IsModerate};
ghost use Rattle.plan_rules.specs.Rules.{IsAdmissible, height_at, offset_of};
ghost use Rattle.report.specs.Lines.{Adds, ShowsRatio};
ghost use Rattle.report.specs.Reports.{profile_line, work_lines, earthwork_lines, haul_lines, right_lines, left_lines, access_lines, block_line};
ghost use Rattle.report.specs.inside.Listings.{entry_lines, listing_count, listing_lines};

use crate::cells::{are_nothing, at_pit, at_section, is_nothing, number, opening, over_den, whole};
use crate::lines::push_row;
use plan_rules::entries::{amount_at, opening_at};
use plan_rules::{Plan, height_at, offset_of};
use road_types::{PitKind, Road, net_volume};
use std::alloc::{AllocError, Global};

/// What rows are listed by number.
#[derive(Clone, Copy)]
pub(crate) enum Listing {
    Profile,
    Earthwork,
    Right,
    Left,
    Access,
    Blocks,
}

/// The height of an admissible plan at a section.
fn height(road: &Road, plan: &Plan, section: usize) -> i128
    requires well_formed { IsWellFormed road.now }
    requires accepted { road_fault road.now ≡ None }
    requires fits { Fits road.now plan.now }
    requires admissible { IsAdmissible road.now plan.now }
    requires section { IsNumber section (section_count road.now) }
    ensures value { result ≡ height_at road.now plan.now (section_of road.now section).station }
    ensures width { unsigned_abs result < 2 ^ 127 }
{
    height_at(road, plan, road.section(section).station)
}

/// How far an admissible plan lies above the ground at a section.
fn offset(road: &Road, plan: &Plan, section: usize) -> i128
    requires well_formed { IsWellFormed road.now }
    requires accepted { road_fault road.now ≡ None }
    requires fits { Fits road.now plan.now }
    requires admissible { IsAdmissible road.now plan.now }
    requires section { IsNumber section (section_count road.now) }
    ensures value { result ≡ offset_of road.now plan.now section }
    ensures width { unsigned_abs result ≤ 2 ^ 66 }
{
    offset_of(road, plan, section)
}

/// What an admissible plan fills at a section, less what it cuts.
fn net(road: &Road, plan: &Plan, section: usize) -> i128
    requires well_formed { IsWellFormed road.now }
    requires accepted { road_fault road.now ≡ None }
    requires fits { Fits road.now plan.now }
    requires admissible { IsAdmissible road.now plan.now }
    requires section { IsNumber section (section_count road.now) }
    ensures value { result ≡ net_volume (section_of road.now section).cut (section_of road.now section).fill (offset_of road.now plan.now section) plan.now.den }
    ensures width { unsigned_abs result < 2 ^ 127 }
{
    net_volume(road.section(section), offset(road, plan, section), plan.den)
}

/// The station of a section in metres.
fn metres(road: &Road, section: usize) -> i64
    requires well_formed { IsWellFormed road.now }
    requires section { IsNumber section (section_count road.now) }
    ensures { result ≡ (section_of road.now section).station *ℤ road.now.step }
{
    product(road.section(section).station, road.step)
}

/// A station times a step.
fn product(station: i64, step: i64) -> i64
    requires station { IsStation station }
    requires step { IsBetween (pos 1) (pos 1000) step }
    ensures { result ≡ station *ℤ step }
{
    station * step
}

/// The station of a section.
fn station_text(alloc: Global, road: &Road, section: usize) -> Result<String, AllocError>
    requires section { IsNumber section (section_count road.now) }
    ensures { IfOk result (λ t. string_bytes t ≡ signed_decimal (section_of road.now section).station) }
{
    whole(alloc, road.section(section).station)
}

/// The same in metres.
fn metres_text(alloc: Global, road: &Road, section: usize) -> Result<String, AllocError>
    requires well_formed { IsWellFormed road.now }
    requires section { IsNumber section (section_count road.now) }
    ensures { IfOk result (λ t. string_bytes t ≡ signed_decimal ((section_of road.now section).station *ℤ road.now.step)) }
{
    whole(alloc, metres(road, section))
}

/// The height of the ground at a section.
fn ground_text(alloc: Global, road: &Road, section: usize) -> Result<String, AllocError>
    requires section { IsNumber section (section_count road.now) }
    ensures { IfOk result (λ t. string_bytes t ≡ signed_decimal (section_of road.now section).ground) }
{
    whole(alloc, road.section(section).ground)
}

fn height_text(
    alloc: Global,
    road: &Road,
    plan: &Plan,
    section: usize,
) -> Result<String, AllocError>
    requires well_formed { IsWellFormed road.now }
    requires accepted { road_fault road.now ≡ None }
    requires fits { Fits road.now plan.now }
    requires admissible { IsAdmissible road.now plan.now }
    requires section { IsNumber section (section_count road.now) }
    ensures { IfOk result (λ t. ShowsRatio [] (height_at road.now plan.now (section_of road.now section).station) plan.now.den (string_bytes t)) }
{
    over_den(alloc, plan, height(road, plan, section))
}

fn offset_text(
    alloc: Global,
    road: &Road,
    plan: &Plan,
    section: usize,
) -> Result<String, AllocError>
    requires well_formed { IsWellFormed road.now }
    requires accepted { road_fault road.now ≡ None }
    requires fits { Fits road.now plan.now }
    requires admissible { IsAdmissible road.now plan.now }
    requires section { IsNumber section (section_count road.now) }
    ensures { IfOk result (λ t. ShowsRatio [] (offset_of road.now plan.now section) plan.now.den (string_bytes t)) }
{
    over_den(alloc, plan, offset(road, plan, section))
}

fn net_text(alloc: Global, road: &Road, plan: &Plan, section: usize) -> Result<String, AllocError>
    requires well_formed { IsWellFormed road.now }
    requires accepted { road_fault road.now ≡ None }
    requires fits { Fits road.now plan.now }
    requires admissible { IsAdmissible road.now plan.now }
    requires section { IsNumber section (section_count road.now) }
    ensures { IfOk result (λ t. ShowsRatio [] (net_volume (section_of road.now section).cut (section_of road.now section).fill (offset_of road.now plan.now section) plan.now.den)
        plan.now.den (string_bytes t)) }
{
    over_den(alloc, plan, net(road, plan, section))
}

/// Adds the row of a section's heights and volume.
fn push_profile(
    alloc: Global,
    road: &Road,
    plan: &Plan,
    section: usize,
    out: &mut Vec<u8>,
) -> Result<(), AllocError>
    requires accepted { road_fault road.now ≡ None }
    requires fits { Fits road.now plan.now }
    requires admissible { IsAdmissible road.now plan.now }
    requires section { IsNumber section (section_count road.now) }
    ensures { IfOk result (λ _. Adds (profile_line road.now plan.now section ∷ []) out.old.items out.new.items) }
{
    let name = number(alloc, section)?;
    let station = station_text(alloc, road, section)?;
    let metres = metres_text(alloc, road, section)?;
    let ground = ground_text(alloc, road, section)?;
    let height = height_text(alloc, road, plan, section)?;
    let offset = offset_text(alloc, road, plan, section)?;
    let net = net_text(alloc, road, plan, section)?;
    push_row(
        alloc,
        &[
            name.as_bytes(),
            station.as_bytes(),
            metres.as_bytes(),
            ground.as_bytes(),
            height.as_bytes(),
            offset.as_bytes(),
            net.as_bytes(),
        ],
        out,
    )
}

/// Adds the row of what is cut and filled in a section in a stage, if that is anything.
fn push_work(
    alloc: Global,
    plan: &Plan,
    stage: usize,
    section: usize,
    cut: i128,
    fill: i128,
    out: &mut Vec<u8>,
) -> Result<(), AllocError>
    requires den { IsScale plan.now.den }
    requires cut { IsModerate cut }
    requires fill { IsModerate fill }
    ensures { IfOk result (λ _. Adds (work_lines plan.now stage section cut fill) out.old.items out.new.items) }
{
    if are_nothing(cut, fill) {
        return Ok(());
    }
    let stage = number(alloc, stage)?;
    let section = number(alloc, section)?;
    let cut = over_den(alloc, plan, cut)?;
    let fill = over_den(alloc, plan, fill)?;
    push_row(
        alloc,
        &[
            stage.as_bytes(),
            section.as_bytes(),
            cut.as_bytes(),
            fill.as_bytes(),
        ],
        out,
    )
}

/// The same of what a plan cuts and fills there.
fn push_earthwork(
    alloc: Global,
    road: &Road,
    plan: &Plan,
    stage: usize,
    section: usize,
    out: &mut Vec<u8>,
) -> Result<(), AllocError>
    requires fits { Fits road.now plan.now }
    ensures { IfOk result (λ _. Adds (earthwork_lines plan.now stage section) out.old.items out.new.items) }
{
    let cut = amount_at(&plan.cut, stage, section);
    let fill = amount_at(&plan.fill, stage, section);
    push_work(alloc, plan, stage, section, cut, fill, out)
}

/// Adds the row of a haul, if it is of anything.
fn push_haul(
    alloc: Global,
    plan: &Plan,
    stage: usize,
    from: &str,
    to: &str,
    litres: i128,
    out: &mut Vec<u8>,
) -> Result<(), AllocError>
    requires den { IsScale plan.now.den }
    requires litres { IsModerate litres }
    ensures { IfOk result (λ _. Adds (haul_lines plan.now stage from.now to.now litres) out.old.items out.new.items) }
{
    if is_nothing(litres) {
        return Ok(());
    }
    let stage = number(alloc, stage)?;
    let litres = over_den(alloc, plan, litres)?;
    push_row(
        alloc,
        &[
            stage.as_bytes(),
            from.as_bytes(),
            to.as_bytes(),
            litres.as_bytes(),
        ],
        out,
    )
}

/// Adds the row of a haul over an access road.
fn push_access(
    alloc: Global,
    road: &Road,
    plan: &Plan,
    stage: usize,
    access: usize,
    out: &mut Vec<u8>,
) -> Result<(), AllocError>
    requires accepted { road_fault road.now ≡ None }
    requires fits { Fits road.now plan.now }
    requires access { IsNumber access (access_count road.now) }
    ensures { IfOk result (λ _. Adds (access_lines road.now plan.now stage access) out.old.items out.new.items) }
{
    let litres = amount_at(&plan.roads, stage, access);
    let access = road.access(access);
    let pit = road.pit(access.pit);
    let at_pit = at_pit(alloc, pit)?;
    let at_section = at_section(alloc, access.section)?;
    match pit.kind {
        PitKind::Borrow => push_haul(
            alloc,
            plan,
            stage,
            at_pit.as_str(),
            at_section.as_str(),
            litres,
            out,
        ),
        PitKind::Waste => push_haul(
            alloc,
            plan,
            stage,
            at_section.as_str(),
            at_pit.as_str(),
            litres,
            out,
        ),
    }
}

/// Adds the row of a haul to the right over a hop.
fn push_right(
    alloc: Global,
    road: &Road,
    plan: &Plan,
    stage: usize,
    hop: usize,
    out: &mut Vec<u8>,
) -> Result<(), AllocError>
    requires accepted { road_fault road.now ≡ None }
    requires fits { Fits road.now plan.now }
    requires hop { IsNumber hop (hop_count road.now) }
    ensures { IfOk result (λ _. Adds (right_lines plan.now stage hop) out.old.items out.new.items) }
{
    let litres = amount_at(&plan.right, stage, hop);
    let from = at_section(alloc, hop)?;
    let to = at_section(alloc, hop + 1)?;
    push_haul(alloc, plan, stage, from.as_str(), to.as_str(), litres, out)
}

/// Adds the row of a haul to the left over a hop.
fn push_left(
    alloc: Global,
    road: &Road,
    plan: &Plan,
    stage: usize,
    hop: usize,
    out: &mut Vec<u8>,
) -> Result<(), AllocError>
    requires accepted { road_fault road.now ≡ None }
    requires fits { Fits road.now plan.now }
    requires hop { IsNumber hop (hop_count road.now) }
    ensures { IfOk result (λ _. Adds (left_lines plan.now stage hop) out.old.items out.new.items) }
{
    let litres = amount_at(&plan.left, stage, hop);
    let from = at_section(alloc, hop + 1)?;
    let to = at_section(alloc, hop)?;
    push_haul(alloc, plan, stage, from.as_str(), to.as_str(), litres, out)
}

/// Adds the row of a block.
fn push_block(
    alloc: Global,
    road: &Road,
    plan: &Plan,
    block: usize,
    out: &mut Vec<u8>,
) -> Result<(), AllocError>
    requires block { IsNumber block (block_count road.now) }
    ensures { IfOk result (λ _. Adds (block_line road.now plan.now block ∷ []) out.old.items out.new.items) }
{
    let name = number(alloc, block)?;
    let section = number(alloc, road.block(block).section)?;
    let stage = opening(alloc, road, opening_at(plan, block))?;
    push_row(
        alloc,
        &[name.as_bytes(), section.as_bytes(), stage.as_bytes()],
        out,
    )
}

impl Listing {
    /// How many entries are listed.
    fn listing_count(self, road: &Road) -> usize
        ensures { result ≡ listing_count road.now self }
    {
        match self {
            Listing::Profile | Listing::Earthwork => road.sections.len(),
            Listing::Right | Listing::Left => road.hops.len(),
            Listing::Access => road.roads.len(),
            Listing::Blocks => road.blocks.len(),
        }
    }

    /// Adds the rows of one entry in a stage.
    #[tactic(auto, unfolding(crate::specs::inside::Listings::entry_lines))]
    fn push_entry(
        self,
        alloc: Global,
        road: &Road,
        plan: &Plan,
        stage: usize,
        number: usize,
        out: &mut Vec<u8>,
    ) -> Result<(), AllocError>
        requires accepted { road_fault road.now ≡ None }
        requires fits { Fits road.now plan.now }
        requires admissible { IsAdmissible road.now plan.now }
        requires number { IsNumber number (listing_count road.now self) }
        ensures { IfOk result (λ _. Adds (entry_lines road.now plan.now self stage number) out.old.items out.new.items) }
    {
        match self {
            Listing::Profile => push_profile(alloc, road, plan, number, out),
            Listing::Earthwork => push_earthwork(alloc, road, plan, stage, number, out),
            Listing::Right => push_right(alloc, road, plan, stage, number, out),
            Listing::Left => push_left(alloc, road, plan, stage, number, out),
            Listing::Access => push_access(alloc, road, plan, stage, number, out),
            Listing::Blocks => push_block(alloc, road, plan, number, out),
        }
    }

    /// Adds the rows of all entries in a stage.
    #[tactic(auto, unfolding(crate::specs::inside::Listings::listing_lines))]
    pub(crate) fn push_all(
        self,
        alloc: Global,
        road: &Road,
        plan: &Plan,
        stage: usize,
        out: &mut Vec<u8>,
    ) -> Result<(), AllocError>
        requires accepted { road_fault road.now ≡ None }
        requires fits { Fits road.now plan.now }
        requires admissible { IsAdmissible road.now plan.now }
        ensures { IfOk result (λ _. Adds (listing_lines road.now plan.now self stage) out.old.items out.new.items) }
    {
        for before in 0..self.listing_count(road) {
            self.push_entry(alloc, road, plan, stage, before + 1, out)?;
        }
        Ok(())
    }
}
