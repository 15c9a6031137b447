ghost use Rattle.std.specs.Prelude.{◌≡◌, ◌∷◌, ◌++◌};
ghost use Rattle.text_parts.specs.Words.{parts_between, further_parts, with_separator};

/// The bytes before the first `separator`, and those behind it; `None` where there is no such byte.
pub fn cut_at(bytes: &[u8], separator: u8) -> (&[u8], Option<&[u8]>)
    ensures parts { parts_between separator bytes.now ≡ result.0.now ∷ further_parts separator result.1 }
    ensures whole { bytes.now ≡ result.0.now ++ with_separator separator result.1 }
{
    for (place, byte) in bytes.iter().enumerate() {
        if *byte == separator {
            return (&bytes[..place], Some(&bytes[place + 1..]));
        }
    }
    (bytes, None)
}
