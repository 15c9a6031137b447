// What is drawn for a trial road.
ghost use Rattle.std.specs.Prelude.{◌≡◌, ◌≤◌, ◌<◌, ◌^◌};
ghost use Rattle.trial_roads.specs.Draws.{next_state, drawn};

/// A generator of numbers, whose state each draw moves on.
#[derive(Debug, Drop)]
pub(crate) struct Draws {
    state: u64,
}

impl Draws {
    /// A generator whose first state is the number.
    pub(crate) fn of(number: u64) -> Self
        ensures { result.state ≡ number }
    {
        Draws { state: number }
    }

    /// Draws one of 0, 1, .., `below` - 1.
    #[tactic(auto, unfolding(crate::specs::Draws::next_state, crate::specs::Draws::drawn), using(crate::proofs::DrawLemmas::mod_small))]
    pub(crate) fn draw(&mut self, below: u64) -> u64
        requires state { self.old.state < 2 ^ 31 }
        requires some { 1 ≤ below }
        ensures state { self.new.state ≡ next_state self.old.state }
        ensures kept { self.new.state < 2 ^ 31 }
        ensures value { result ≡ drawn self.new.state below }
        ensures below { result < below }
    {
        self.state = (self.state * 1_103_515_245 + 12_345) % 2_147_483_648;
        self.state / 65_536 % below
    }
}
