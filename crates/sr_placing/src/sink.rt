// Where bytes are put.
ghost use Rattle.std.specs.Prelude.{◌≡◌, ℕ, ◌+◌, ◌≤◌, List, [], ◌++◌, length};

/// Where bytes are put, one short piece after another.
///
/// Nothing is answered: what has failed once takes nothing more, and says so at the end. `O` is the outside that it writes to.
pub trait Sink<O> {
    /// Bytes may be put.
    ghost can_put: { Self → O → Type 0 };

    /// Between two states these bytes were put.
    ghost puts: { Self → O → Self → O → List ℕ → Type 0 };

    /// Puts a piece.
    fn put(&mut self, out: &mut O, bytes: &[u8])
        requires can { can_put self.old out.old }
        requires short { length bytes.now ≤ 32 }
        ensures { puts self.old out.old self.new out.new bytes.now };

    ghost stays: { (s t : Self) (o p : O) (x : List ℕ) → can_put s o → puts s o t p x → can_put t p };

    ghost none: { (s : Self) (o : O) → puts s o s o [] };

    ghost joined: { (s t u : Self) (o p q : O) (x y : List ℕ) → puts s o t p x → puts t p u q y → puts s o u q (x ++ y) };
}
