ghost use Rattle.std.specs.Prelude.{ℕ, List, Option, ◌<◌, length, IfOk};
ghost use Rattle.std.specs.Io.{ReadsAtMost, WritesAtMost};
ghost use Rattle.std.specs.Io.KnownBytes.{ReadConsumes};
ghost use Rattle.al_outside.specs.Faults.{HasCause};
ghost use Rattle.al_outside.specs.Holding.{Held, WriteGrows};

/// A source or a sink failed. Its count of faults rose in that call.
#[derive(Clone, Copy, Debug, PartialEq, Eq)]
pub struct Failed;

/// Where bytes come from.
pub trait Source {
    // The bytes that are still to come, where they are known.
    ghost left: { Self → Option (List ℕ) };

    // How many faults were counted. It never falls.
    ghost faults: { Self → ℕ };

    /// Puts the next bytes at the front of `into`, and says how many. For an `into` that isn't empty it is 0 exactly
    /// at the end. It fails only where the count of faults rises, and then no byte is lost.
    fn read(&mut self, into: &mut [u8]) -> Result<usize, Failed>
        ensures bound { ReadsAtMost result into.new }
        ensures bytes { ReadConsumes (left self.old) (left self.new) result into.new }
        ensures cause { HasCause (faults self.old) (faults self.new) result };
}

/// Where bytes go.
pub trait Sink {
    // What it has taken so far, as far as it tells.
    ghost held: { Self → Held };

    // How many faults were counted. It never falls.
    ghost faults: { Self → ℕ };

    /// Takes the first bytes of `piece`, and says how many: at least one, where there is one. It fails only where the
    /// count of faults rises, and then it took nothing.
    fn write(&mut self, piece: &[u8]) -> Result<usize, Failed>
        ensures bound { WritesAtMost result piece.now }
        ensures progress { IfOk result (λ n. 0 < length piece.now → 0 < n) }
        ensures bytes { WriteGrows (held self.old) (held self.new) result piece.now }
        ensures cause { HasCause (faults self.old) (faults self.new) result };
}
