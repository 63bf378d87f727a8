ghost use Rattle.std.specs.Prelude.{◌≡◌, ◌==◌};
ghost use Rattle.std.specs.List.{list_any};

/// Whether the call with this number, counted from 0, is among those that fail.
pub(crate) fn is_failing(failing: &[u32], call: u64) -> bool
    ensures { result ≡ list_any (λ n. n == call) failing.now }
{
    failing.iter().any(|n| u64::from(*n) == call)
}
