// The offsets at which a section's slab changes.
ghost use Rattle.std.specs.Prelude.{◌≡◌, ◌↔◌, ℕ, IsTrue, ◌||◌};
ghost use Rattle.road_types.specs.WellFormed.{IsSlabTable};
ghost use Rattle.volume_lines.specs.SlabTables.{HasSlabTables};
ghost use Rattle.road_types.specs.Breakpoints.{leading_thickness, IsBreakpoint};

use road_types::{Section, Slab};

/// Whether an offset is a breakpoint of the section.
pub fn is_breakpoint(section: &Section, offset: i64) -> bool
    requires { HasSlabTables section.now }
    ensures { IsTrue result ↔ IsBreakpoint section.now offset }
{
    let height = i128::from(offset);
    either(
        is_leading_thickness(section.fill.as_slice(), height),
        is_leading_thickness(section.cut.as_slice(), -height),
    )
}

/// Whether one of the two holds.
fn either(a: bool, b: bool) -> bool
    ensures { result ≡ (a || b) }
{
    a || b
}

/// Whether so much is the thickness of the first slabs, for some number of them.
fn is_leading_thickness(slabs: &[Slab], thickness: i128) -> bool
    requires { IsSlabTable slabs.now }
    ensures { IsTrue result ↔ ((k : ℕ) × (thickness ≡ leading_thickness slabs.now k)) }
{
    let mut depth: i128 = 0;
    for slab in slabs {
        if depth == thickness {
            return true;
        }
        depth += i128::from(slab.thick);
    }
    depth == thickness
}
