// Tests joined.
ghost use Rattle.std.specs.Prelude.{◌↔◌, IsTrue};

/// Whether both hold.
pub fn both(a: bool, b: bool) -> bool
    ensures { IsTrue result ↔ (IsTrue a × IsTrue b) }
{
    a && b
}
