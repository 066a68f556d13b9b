/// A source of 32-bit words. Drawing takes no memory and cannot fail.
pub trait Words {
    ghost use Rattle.std.specs.Prelude.{◌≡◌, ℕ, List};

    /// The state that gives the words to come.
    ghost state: { Self → List ℕ };

    /// The word that a state gives.
    ghost word_of: { List ℕ → ℕ };

    /// The state after a word.
    ghost after: { List ℕ → List ℕ };

    fn word(&mut self) -> u32
        ensures word { result ≡ word_of (state self.old) }
        ensures after { state self.new ≡ after (state self.old) };
}
