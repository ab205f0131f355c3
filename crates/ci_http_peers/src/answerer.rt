//! What answers the requests of peers.

/// What answers requests, by what they are asked of: the subject, which may change. Where it can't answer any more it says why.
pub trait Answerer<T, E> {
    ghost use Rattle.std.specs.Prelude.{ℕ, List, Option};
    ghost use Rattle.ci_http_peers.specs.Answers.{text_of};

    // A call of `bytes_due` says so of these bytes.
    ghost says_due: { Self → List ℕ → Option ℕ → Type 0 } = { λ _ _ _. Unit {0} };

    // One call of `answer` with these bytes leads the subject from a state to another, and gives this text, or none.
    ghost answers: { Self → List ℕ → T → T → Option (List ℕ) → Type 0 } = { λ _ _ _ _ _. Unit {0} };

    /// How many bytes the request takes of which these are the first, or a number of them that is enough to answer. None where
    /// too few have come to say.
    fn bytes_due(&self, bytes: &[u8]) -> Option<usize>
        ensures { says_due self.now bytes.now result };

    /// The bytes of the reply to a request that is whole, or none, where the connection is to end without one.
    ///
    /// Errors: neither this request nor any other can be answered.
    fn answer(&self, subject: &mut T, bytes: &[u8]) -> Result<Option<Vec<u8>>, E>
        ensures { answers self.now bytes.now subject.old subject.new (text_of result) };

    /// Is no connection to be accepted any more, since the subject has come to its end?
    fn is_over(&self, subject: &T) -> bool;
}
