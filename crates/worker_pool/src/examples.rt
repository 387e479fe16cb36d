// The definitions, computed on small cases.

ghost use Rattle.std.specs.Prelude.{◌≡◌, [], ◌∷◌};
ghost use Rattle.worker_pool.specs.Examples.{all_free, second_away, second_back};
ghost use Rattle.worker_pool.specs.Pools.{IsStarted, hands, pieces};
ghost use Rattle.worker_pool.specs.declared.piece.Piece.TheVariants.{Query};

/// A start in a small pool, and all its hands and pieces.
pub fn worked_examples()
    ensures started { IsStarted (Query 40) all_free second_away }
    ensures hands_away { hands second_away ≡ 1 ∷ 3 ∷ 2 ∷ [] }
    ensures hands_back { hands second_back ≡ 1 ∷ 3 ∷ 5 ∷ [] }
    ensures pieces_away { pieces second_away ≡ Query 40 ∷ [] }
    ensures pieces_back { pieces second_back ≡ [] }
{}
