//! The calls of a double, counted.

ghost use Rattle.std.specs.Prelude.{◌≡◌, ◌↔◌, IsTrue, Contains};
ghost use Rattle.outside_doubles.specs.Calls.{next_call};

// Counts a call, and says whether it is one of those that fail.
pub(crate) fn count_call(calls: &mut u32, failing: &[u32]) -> bool
    ensures counted { calls.new ≡ next_call calls.old }
    ensures listed { IsTrue result ↔ Contains failing.now calls.new }
{
    *calls = calls.saturating_add(1);
    failing.contains(calls)
}
