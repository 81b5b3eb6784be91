// Of two byte strings the longer.
ghost use Rattle.std.specs.Prelude.{◌≡◌};
ghost use Rattle.px_verdict.specs.Longest.{is_longer};

/// Whether the first is longer, or as long and greater in byte order.
pub fn is_longer(a: &[u8], b: &[u8]) -> bool
    ensures { result ≡ is_longer a.now b.now }
{
    a.len().cmp(&b.len()).then(a.cmp(b)).is_gt()
}
