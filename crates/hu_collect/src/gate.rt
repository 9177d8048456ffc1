//! Which pairs of ranks a search joins.

ghost use Rattle.std.specs.Prelude.{◌≡◌, ◌<◌, ◌<ℤ◌, ℕ, ℤ, false, true, List};
ghost use Rattle.std.specs.List.{Contains};
ghost use Rattle.hu_kind.specs.Order.{Ascend};
ghost use Rattle.hu_kind.specs.Database.{utility};
ghost use Rattle.hu_collect.specs.Pairs.{pair_twu};

/// Says of pairs of ranks whether a set may hold both. It has a floor, and says which records over ranks it is right for:
/// in these, every pair that it refuses gains less than the floor, and so does every set that holds the pair.
pub trait Gate {
    ghost floor: { Self → ℤ };

    ghost IsRightFor: { Self → List (List (ℕ × ℤ)) → Type 0 };

    /// Whether a set may hold both ranks. It takes no memory.
    fn may_join(&self, a: u32, b: u32) -> bool
        requires { a < b }
        ensures low { result ≡ false → (records : List (List (ℕ × ℤ))) → IsRightFor self.now records
            → pair_twu records a b <ℤ floor self.now }
        ensures sets { result ≡ false → (records : List (List (ℕ × ℤ))) → IsRightFor self.now records
            → (ranks : List ℕ) → Ascend ranks → Contains ranks a → Contains ranks b → utility records ranks <ℤ floor self.now };
}

/// The gate that lets every pair join. Its floor is 1, and it is right for all records.
#[derive(Clone, Copy, Debug)]
pub struct NoGate;

impl Gate for NoGate {
    ghost use Rattle.std.specs.Prelude.{pos, ⊤};

    ghost floor = { λ _. pos 1 };

    ghost IsRightFor = { λ _ _. ⊤ };

    fn may_join(&self, _a: u32, _b: u32) -> bool
        ensures always { result ≡ true }
    {
        true
    }
}
