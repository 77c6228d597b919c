ghost use Rattle.std.specs.Prelude.{◌≡◌, ℕ, Option};
ghost use Rattle.al_history.specs.declared.statement.Terms.{Terms};
ghost use Rattle.al_history.specs.Past.{Past};
ghost use Rattle.al_history.specs.View.{view};
ghost use Rattle.al_history.specs.Parts.{seen_in, parts};
ghost use Rattle.al_history.specs.Readers.{sight, IsTail, IsReader};
ghost use Rattle.al_history.specs.Legal.{Legal};

/// What each reader of a legal journal finds (13.2.1): what its sight of the parts that are kept shows. A reader with an older
/// snapshot finds the tables as they are now, with the rows that it has seen.
#[tactic(auto, using(crate::proofs::PartServe::readers_served))]
pub fn parts_serve_readers()
    ensures { (terms : Terms) (past seen : Past) (reader : Option ℕ) → Legal terms past → IsTail seen past → IsReader past reader → view terms past seen reader ≡ seen_in (sight past seen reader) (parts terms past) }
{}
