// What follows the words: the end of each command.
ghost use Rattle.std.specs.Prelude.{◌≡◌, ◌≢◌, ◌≤◌, ℕ, List, IfOk, IsErrOf, Some, None};
ghost use Rattle.outside.specs.Faults.{HasRisen};
ghost use Rattle.road_types.specs.Faults.{road_fault};
ghost use Rattle.roadopt_program.specs.Due.{FollowsRoad};
ghost use Rattle.roadopt_program.specs.Inputs.{other_limit};
ghost use Rattle.roadopt_program.specs.inside.Called.{verb_called, road_called};
ghost use Rattle.roadopt_program.specs.inside.Outcomes.{IsMade, IsMadeOnRoad, made_end};

use crate::carrying::carry_bytes;
use crate::cert_checking::check_bytes;
use crate::ending::{Made, missing, unsearched};
use crate::forms::{RoadCommand, Verb};
use crate::inputs::{Lost, read_file};
use crate::judging::judge_bytes;
use crate::replaying::{mass_bytes, replay_bytes};
use crate::roads::find_road;
use crate::solving::solve_road;
use outside::Store;
use road_types::Road;
use std::alloc::{AllocError, Global};

/// What a command makes of the bytes of its further file.
fn made_over_bytes(
    alloc: Global,
    verb: &Verb<'_>,
    road: &Road,
    bytes: &[u8],
) -> Result<Made, AllocError>
    requires accepted { road_fault road.now ≡ None }
    requires reads { other_limit (verb_called verb.now) ≢ None }
    ensures { IfOk result (λ made. (name : List ℕ) → FollowsRoad (verb_called verb.now) road.now name (Some bytes.now) made.found (made_end name made)) }
{
    match verb {
        Verb::Judge => Ok(unsearched(judge_bytes(alloc, road, bytes)?)),
        Verb::Check => Ok(unsearched(check_bytes(alloc, road, bytes)?)),
        Verb::Replay => Ok(unsearched(replay_bytes(alloc, road, bytes)?)),
        Verb::Mass => Ok(unsearched(mass_bytes(alloc, road, bytes)?)),
        Verb::Carry { .. } => carry_bytes(alloc, road, bytes),
        Verb::Solve => unreachable!(),
    }
}

/// The end of a command on an accepted road: of a search, or for its further file.
fn end_on_road<S: Store>(
    alloc: Global,
    command: &RoadCommand<'_>,
    road: &Road,
    store: &mut S,
) -> Result<Made, Lost>
    requires { road_fault road.now ≡ None }
    ensures made { IfOk result (λ made. IsMadeOnRoad (S.files store.old)
        (road_called command.now) road.now made) }
    ensures failed { IsErrOf result Lost.Failed → HasRisen (S.read_faults store.old) (S.read_faults store.new) }
    ensures files { S.files store.new ≡ S.files store.old }
    ensures writes { S.write_faults store.new ≡ S.write_faults store.old }
    ensures never_falls { S.read_faults store.old ≤ S.read_faults store.new }
{
    let Some(limit) = command.verb.other_limit() else {
        return Ok(solve_road(alloc, road)?);
    };
    match read_file(alloc, command.other, limit, store)? {
        Some(bytes) => Ok(made_over_bytes(alloc, &command.verb, road, bytes.as_slice())?),
        None => Ok(unsearched(missing(alloc))),
    }
}

/// The end of a command over two files: the road is read first, then what the command needs besides.
#[tactic(auto, using(crate::proofs::CommandLemmas::made_early))]
pub(crate) fn end_of_command<S: Store>(
    alloc: Global,
    command: &RoadCommand<'_>,
    store: &mut S,
) -> Result<Made, Lost>
    ensures made { IfOk result (λ made. IsMade (S.files store.old)
        (road_called command.now)
        (S.read_faults store.old) (S.read_faults store.new) made) }
    ensures failed { IsErrOf result Lost.Failed → HasRisen (S.read_faults store.old) (S.read_faults store.new) }
    ensures files { S.files store.new ≡ S.files store.old }
    ensures writes { S.write_faults store.new ≡ S.write_faults store.old }
    ensures never_falls { S.read_faults store.old ≤ S.read_faults store.new }
{
    match find_road(alloc, command.road, store)? {
        Ok(road) => end_on_road(alloc, command, &road, store),
        Err(ending) => Ok(unsearched(ending)),
    }
}
