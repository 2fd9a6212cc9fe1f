//! Changes of a value where it stands, which a caller gives to a table.

ghost use Rattle.std.specs.Prelude.{◌≡◌};

/// What changes a value where it stands.
pub trait Adjust<V> {
    /// What becomes of a value.
    ghost after: { Self → V → V };

    /// Changes the value. It takes no memory.
    fn adjust(&self, value: &mut V)
        ensures { value.new ≡ after self.now value.old };
}
