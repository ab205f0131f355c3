//! A connection as the core sees it.

use std::io;

/// A connection whose calls never wait: where one would, it fails with `WouldBlock`.
pub trait Wire {
    ghost use Rattle.std.specs.Prelude.{ℕ, List, Result};
    ghost use Rattle.std.specs.Io.{ReadsAtMost};
    ghost use Rattle.std.specs.declared.io.Error.{Error as WhyNot};

    // One call of `receive` leads from a state to another, gives this, and leaves these bytes in the buffer.
    ghost receives: { Self → Self → Result ℕ WhyNot → List ℕ → Type 0 } = { λ _ _ _ _. Unit {0} };

    // One call of `send` with these bytes leads from a state to another, and gives this.
    ghost sends: { Self → List ℕ → Self → Result ℕ WhyNot → Type 0 } = { λ _ _ _ _. Unit {0} };

    // One call of `end` leads from a state to another.
    ghost ends: { Self → Self → Type 0 } = { λ _ _. Unit {0} };

    // One call of `listen` under this place leads from a state to another, and gives this.
    ghost listens: { Self → ℕ → Self → Result (Unit {0}) WhyNot → Type 0 } = { λ _ _ _ _. Unit {0} };

    /// Takes bytes that came. None of them: the peer sends no more.
    fn receive(&mut self, buf: &mut [u8]) -> io::Result<usize>
        ensures count { ReadsAtMost result buf.new }
        ensures one { receives self.old self.new result buf.new };

    /// Sends a beginning of the bytes, and says how many.
    fn send(&mut self, bytes: &[u8]) -> io::Result<usize>
        ensures { sends self.old bytes.now self.new result };

    /// Tells the peer that nothing more is sent.
    fn end(&mut self)
        ensures { ends self.old self.new };

    /// Has the loop hear from now on, under this place, when the connection is ready again.
    fn listen(&mut self, place: usize) -> io::Result<()>
        ensures { listens self.old place self.new result };
}
