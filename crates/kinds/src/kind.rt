ghost use Rattle.std.specs.Prelude.{◌≡◌, ℕ, ◌+◌, ◌*◌, List};
ghost use Rattle.kinds.specs.Kinds.{State, Sound};

// A hash kind. Its meaning is `mapping`, from states to states; the law `sound` is all that code above may use of it.
pub trait Kind {
    const NUMBER: u8;

    const CAPACITY: usize;

    const DIGEST: usize;

    ghost NUMBER: { ℕ };

    ghost CAPACITY: { ℕ };

    ghost DIGEST: { ℕ };

    ghost mapping: { List ℕ → List ℕ };

    fn rate() -> usize
        ensures { result ≡ 2 * DIGEST }
    {
        2 * Self::DIGEST
    }

    fn state_len() -> usize
        ensures { result ≡ CAPACITY + 2 * DIGEST }
    {
        Self::CAPACITY + Self::rate()
    }

    // Leaves exactly the mapping of the state. Mixing refuses nothing and remembers nothing.
    fn mix(&self, state: &mut [u64])
        requires { State (CAPACITY + 2 * DIGEST) state.old }
        ensures { state.new ≡ mapping state.old };

    ghost sound: { Sound NUMBER CAPACITY DIGEST mapping };
}
