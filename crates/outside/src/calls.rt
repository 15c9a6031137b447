// Counts of calls and of faults.
ghost use Rattle.std.specs.Prelude.{◌≡◌, ◌↔◌, ◌≤◌, IsTrue, Contains};
ghost use Rattle.outside.specs.Calls.{next_call};
ghost use Rattle.outside.specs.Faults.{one_more};

pub(crate) fn count_call(calls: &mut u128)
    ensures { calls.new ≡ next_call calls.old }
{
    *calls = calls.saturating_add(1);
}

pub(crate) fn count_fault(faults: &mut u64)
    ensures counted { faults.new ≡ one_more faults.old }
    ensures never_falls { faults.old ≤ faults.new }
{
    *faults = faults.saturating_add(1);
}

pub(crate) fn fails_at(fails: &[u64], call: u128) -> bool
    ensures { IsTrue result ↔ Contains fails.now call }
{
    fails.iter().any(|number| u128::from(*number) == call)
}
