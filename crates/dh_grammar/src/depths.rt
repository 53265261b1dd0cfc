//! How deep expressions nest, and how many stand open.
ghost use Rattle.dh_grammar.specs.Laws.Depths.{DeepExactly, StubsSpread, KeepsWithin, TestsDepth};
ghost use Rattle.dh_grammar.specs.Placing.{placing};
ghost use Rattle.dh_grammar.specs.Stubs.{stubs};
ghost use Rattle.dh_syntax.specs.Text.Offsets.{locating};
ghost use Rattle.dh_syntax.specs.Text.Spans.{stretching};
ghost use Rattle.std.specs.Prelude.{ℕ};

/// Tokens derive what nests too deep exactly where the machine accepts them with a stub.
pub fn deep_exactly()
    ensures { DeepExactly }
{}

/// A node with a stub is a stub.
pub fn stubs_spread()
    ensures { StubsSpread }
{}

/// A token that does not open too many expressions keeps the machine within the limit.
pub fn keeps_within()
    ensures expressions { KeepsWithin stubs }
    ensures offsets { (n : ℕ) → KeepsWithin (placing locating n) }
    ensures stretches { (n : ℕ) → KeepsWithin (placing stretching n) }
{}

/// Within the limit a reader has to count only where an operand begins.
pub fn tests_depth()
    ensures expressions { TestsDepth stubs }
    ensures offsets { (n : ℕ) → TestsDepth (placing locating n) }
    ensures stretches { (n : ℕ) → TestsDepth (placing stretching n) }
{}
