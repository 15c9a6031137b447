use numbers::Frac;
use std::alloc::AllocError;

/// A rule of certificates.
#[derive(Clone, Copy, Debug, PartialEq, Eq)]
pub enum CertRule {
    /// The bytes are at most 2^26.
    C1,
    /// The bytes are the text of a certificate of the road.
    C2,
    /// The plan is admissible.
    C3,
    /// The stated cost is the plan's.
    C4,
    /// Every split fits its box.
    C5,
    /// No multiplier of a row that asks for at least its right side is below 0.
    C6,
    /// The value of every low leaf over its scale is at least the stated bound.
    C7,
    /// The value of every dead leaf is above 0.
    C8,
    /// A bound is stated exactly where some leaf is low.
    C9,
}

/// A rule that is broken, and the number, from 1, of the line that breaks it; 0 for the rule of the number of bytes.
#[derive(Clone, Copy, Debug, PartialEq, Eq)]
pub struct Refusal {
    pub rule: CertRule,
    pub line: usize,
}

/// Why a certificate isn't accepted.
#[derive(Clone, Copy, Debug, PartialEq, Eq)]
pub enum CheckErr {
    /// The first rule that is broken, and the number, from 1, of the line that breaks it; 0 for `C1`.
    Refused { rule: CertRule, line: usize },
    /// Memory ran out.
    NoMemory,
}

impl From<AllocError> for CheckErr {
    ghost use Rattle.std.specs.Prelude.{◌≡◌};
    ghost use Rattle.cert_checker.specs.declared.refusal.CheckErr.TheVariants.{NoMemory};

    ghost from_gives = { λ _ e. e ≡ NoMemory };

    fn from(_error: AllocError) -> CheckErr {
        CheckErr::NoMemory
    }
}

/// What an accepted certificate states.
#[derive(Debug, Drop)]
pub struct Checked {
    /// The cost of the plan that stands in it; none where no plan does.
    pub cost: Option<Frac>,
    /// No admissible plan costs less; without a bound no plan is admissible.
    pub bound: Option<Frac>,
}
